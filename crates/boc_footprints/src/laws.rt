// Laws of footprints.

ghost use Rattle.std.specs.Prelude.{ℕ, ℤ, List};
ghost use Rattle.std.specs.List.{Contains};
ghost use Rattle.boc_program.specs.declared.program.Program.{Program};
ghost use Rattle.boc_program.specs.Meaning.{Wish};
ghost use Rattle.boc_runs.specs.Serial.{Behaviour, behaviour_of};
ghost use Rattle.boc_footprints.specs.Footprints.{InFootprint, IsFootprint, Reaches, TakesAll, meant_at};

/// Proves that the cowns that kinds reach make a footprint.
pub fn reached_cowns_are_a_footprint()
    ensures { (p : Program) → IsFootprint p (Reaches p) }
{}

/// Proves that a wish has as many arguments and cowns as its body takes, whatever behaviour it is of.
pub fn wishes_take_all()
    ensures { (p : Program) (b : Behaviour) (values : List ℤ) (w : Wish) → Contains (meant_at p b values).wishes w → TakesAll p (behaviour_of w) }
{}

/// Proves that the footprint of a behaviour holds those of its wishes, whatever the values.
pub fn footprints_hold_those_of_wishes()
    ensures { (p : Program) (b : Behaviour) (values : List ℤ) (w : Wish) → Contains (meant_at p b values).wishes w
        → (c : ℕ) → InFootprint p (Reaches p) (behaviour_of w) c → InFootprint p (Reaches p) b c }
{}
