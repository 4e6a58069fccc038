// Laws of what bodies mean.

ghost use Rattle.std.specs.Prelude.{◌≡◌, ◌≤◌, ℤ, List, IsTrue, length, All, Contains};
ghost use Rattle.std.specs.List.Sorted.{IsStrictlyIncreasing};
ghost use Rattle.boc_program.specs.Meaning.{meaning, cowns_held};
ghost use Rattle.boc_program.specs.declared.limits.TheConstants.{MOST_TICKS};
ghost use Rattle.boc_program.specs.Offsets.{RisesFrom};
ghost use Rattle.boc_program.specs.Signatures.{Signature, calls_fit, AllBelow, WishesFit};
ghost use Rattle.boc_program.specs.declared.short.Input.{Input};

use crate::body::Body;

/// Proves that the offsets of a body's wishes rise strictly, and end at its ticks at most, which are at most 1,000,000.
pub fn offsets_rise(body: &Body)
    ensures { (args : List ℤ) (inputs : List Input) → RisesFrom 1 (meaning body.now args inputs).wishes (meaning body.now args inputs).ticks
        × (meaning body.now args inputs).ticks ≤ MOST_TICKS }
{
    let _ = body;
}

/// Proves that where the calls of a body fit, its wishes fit.
pub fn wishes_fit(body: &Body)
    ensures { (sigs : List Signature) (n : _) (args : List ℤ) (inputs : List Input) → IsTrue (calls_fit sigs n body.now) → length inputs ≡ body.now.cown_params
        → AllBelow n (cowns_held inputs) → WishesFit sigs n (meaning body.now args inputs).wishes }
{
    let _ = body;
}

/// Proves that the cowns that the assignments of a body wrote are cowns that it holds, and rise strictly.
pub fn written_is_held(body: &Body)
    ensures held { (args : List ℤ) (inputs : List Input) → All (Contains (cowns_held inputs)) (meaning body.now args inputs).written }
    ensures rises { (args : List ℤ) (inputs : List Input) → IsStrictlyIncreasing (meaning body.now args inputs).written }
    ensures few { (args : List ℤ) (inputs : List Input) → length (meaning body.now args inputs).written ≤ length inputs }
{
    let _ = body;
}
