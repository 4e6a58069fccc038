// Laws of chosen places.

ghost use Rattle.std.specs.Prelude.{◌≢◌, ℕ, List, []};
ghost use Rattle.boc_program.specs.declared.program.Program.{Program};
ghost use Rattle.boc_fronts.specs.Fronts.{Front};
ghost use Rattle.boc_closed_sets.specs.Enough.{IsEnough};
ghost use Rattle.boc_sharp_footprints.specs.Footprints.{IsFootprintByArgs, ReachedBy};
ghost use Rattle.boc_choices.specs.Chosen.{AreChosen, WishesTakeAll};
ghost use Rattle.boc_choices.specs.Holding.{Table};

/// Proves that it is enough to go on from a front at chosen places, where the table is a footprint of the program.
pub fn chosen_places_are_enough()
    ensures { (p : Program) (table : Table) (f : Front) (places : List ℕ) → IsFootprintByArgs p (ReachedBy table) → WishesTakeAll p f → f.live ≢ []
        → AreChosen table f places → IsEnough p f places }
{}
