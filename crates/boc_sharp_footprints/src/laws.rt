// Laws of sharp footprints.

ghost use Rattle.std.specs.Prelude.{ℕ, ℤ, List};
ghost use Rattle.std.specs.List.{Contains};
ghost use Rattle.boc_program.specs.declared.program.Program.{Program};
ghost use Rattle.boc_program.specs.Meaning.{Wish};
ghost use Rattle.boc_runs.specs.Serial.{Behaviour, behaviour_of};
ghost use Rattle.boc_footprints.specs.Footprints.{IsFootprint, TakesAll, meant_at};
ghost use Rattle.boc_footprints.specs.Tables.{reaches};
ghost use Rattle.boc_sharp_footprints.specs.Footprints.{InFootprintByArgs, IsFootprintByArgs, ReachedBy};
ghost use Rattle.boc_sharp_footprints.specs.Tables.{IsClosed, Sharp};
ghost use Rattle.std.specs.Prelude.{IsTrue};

/// Proves that closed sets together with a footprint by kinds make a footprint.
pub fn closed_sets_make_footprints()
    ensures { (p : Program) (table : Sharp) → IsFootprint p (λ kind cown. IsTrue (reaches table.by_kind kind cown)) → IsClosed p table
        → IsFootprintByArgs p (ReachedBy table) }
{}

/// Proves that the footprint of a behaviour holds those of its wishes, whatever the values.
pub fn footprints_hold_those_of_wishes()
    ensures { (p : Program) (table : Sharp) → IsFootprintByArgs p (ReachedBy table) → (b : Behaviour) (values : List ℤ) (w : Wish)
        → Contains (meant_at p b values).wishes w → (c : ℕ) → InFootprintByArgs p (ReachedBy table) (behaviour_of w) c
        → InFootprintByArgs p (ReachedBy table) b c }
{}
