// Laws of uses.

ghost use Rattle.std.specs.Prelude.{ℕ, ℤ, List};
ghost use Rattle.boc_program.specs.declared.short.Input.{Input};
ghost use Rattle.boc_uses.specs.Laws.{UnneededChangesNothing, UsesLieWithin, UsesRise, WritesAreAssignments};

use boc_program::body::Body;

/// Proves that the writes among the uses of a body are the assignments of its meaning, one after another.
pub fn writes_are_assignments(body: &Body)
    ensures { (args : List ℤ) (inputs : List Input) → WritesAreAssignments body.now args inputs }
{
    let _ = body;
}

/// Proves that the uses of a body rise from its first tick to its last, and so do its uses of each cown.
pub fn uses_lie_within_ticks(body: &Body)
    ensures rise { (args : List ℤ) (inputs : List Input) → UsesRise body.now args inputs }
    ensures within { (args : List ℤ) (inputs : List Input) → UsesLieWithin body.now args inputs }
{
    let _ = body;
}

/// Proves that what a body does not need changes nothing, as long as it ends by no fault. With another value of such a cown it takes the same ticks, makes
/// the same wishes, writes the same cowns, and leaves the same in its other cowns.
pub fn unneeded_values_change_nothing(body: &Body)
    ensures { (args : List ℤ) (inputs : List Input) (place : ℕ) (v : ℤ) → UnneededChangesNothing body.now args inputs place v }
{
    let _ = body;
}
