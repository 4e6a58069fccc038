// Laws of the uses of rows.

ghost use Rattle.std.specs.Prelude.{◌≡◌, List, map};
ghost use Rattle.boc_program.specs.declared.program.Program.{Program};
ghost use Rattle.boc_program.specs.Programs.{initial_values};
ghost use Rattle.boc_runs.specs.declared.event.Event.{Event};
ghost use Rattle.boc_runs.specs.Records.{IsRecord, IsRecordOf, Recorded};
ghost use Rattle.boc_runs.specs.Run.{IsWholeRun, config_of};
ghost use Rattle.boc_turns.specs.Turns.{AreUses};
ghost use Rattle.boc_row_uses.specs.RowUses.{row_uses};
ghost use Rattle.boc_row_uses.specs.InTurn.{uses_in_turn};

/// Proves that the rows of a run use their cowns as if they had run one at a time, in the order of their numbers. So there is one answer at most: two runs of
/// a program whose rows are the same behaviours have the same uses.
pub fn uses_are_those_in_turn()
    ensures turn { (p : Program) (log : List Event) → IsWholeRun p log
        → row_uses p (config_of p log).members ≡ uses_in_turn p (initial_values p.cowns) (map (λ m. m.behaviour) (config_of p log).members) }
    ensures one { (p : Program) (log other : List Event) → IsWholeRun p log → IsWholeRun p other
        → map (λ m. m.behaviour) (config_of p log).members ≡ map (λ m. m.behaviour) (config_of p other).members
        → row_uses p (config_of p log).members ≡ row_uses p (config_of p other).members }
{}

/// Proves that the uses of the rows of a run are for each of their cowns, and are within the rows' ticks.
pub fn uses_lie_within_ticks()
    ensures { (p : Program) (r : Recorded) → IsRecord r → IsRecordOf p r → AreUses r.rows (row_uses p (config_of p r.events).members) }
{}
