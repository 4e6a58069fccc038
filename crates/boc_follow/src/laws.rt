//! Laws of records that diverge from a program.

ghost use Rattle.std.specs.Prelude.{◌≡◌, ℕ, List, Some, slice_get, take};
ghost use Rattle.boc_program.specs.declared.program.Program.{Program};
ghost use Rattle.boc_runs.specs.declared.event.Event.{Event};
ghost use Rattle.boc_runs.specs.declared.event.Event.TheVariants.{Start};
ghost use Rattle.boc_runs.specs.Records.{Recorded, IsRecord, IsRecordOf};
ghost use Rattle.boc_runs.specs.Run.{config_of, MayHappen, IsRun};
ghost use Rattle.boc_follow.specs.declared.stray.StrayFaultKind.{StrayFaultKind};
ghost use Rattle.boc_follow.specs.Strays.{Strays, IsRefusedAt};

/// Events that are no run of a program are refused at one place.
pub fn events_are_refused_at_one_place()
    ensures { (p : Program) (events : List Event) (place other : ℕ) → IsRefusedAt p events place → IsRefusedAt p events other → place ≡ other }
{}

/// What a program refuses of a record is never a start: after a run of the program, each start of the record may come.
pub fn starts_of_a_record_are_never_refused()
    ensures { (p : Program) (r : Recorded) (place row : ℕ) → IsRecord r → IsRun p (take place r.events) → slice_get r.events place ≡ Some (Start row)
        → MayHappen p (config_of p (take place r.events)) (Start row) }
{}

/// A record is that of a run of a program, or it diverges from it in one way and on one line: never two of these, and never both.
pub fn record_strays_in_one_way()
    ensures one { (p : Program) (r : Recorded) (kind other : StrayFaultKind) (line further : ℕ)
        → Strays p r kind line → Strays p r other further → (kind ≡ other) × (line ≡ further) }
    ensures never_both { (p : Program) (r : Recorded) (kind : StrayFaultKind) (line : ℕ) → Strays p r kind line → IsRecordOf p r → ⊥ }
{}
