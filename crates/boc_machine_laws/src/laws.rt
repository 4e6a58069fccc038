// Laws of the dispatcher's machine.

ghost use Rattle.boc_program.specs.declared.program.Program.{Program};
ghost use Rattle.boc_runs.specs.declared.step.Step.{Step};
ghost use Rattle.std.specs.Prelude.{◌≡◌, ℕ, ◌+◌, ◌*◌, ◌≤◌, ◌⊎◌, List, map, Option, Some, slice_get};
ghost use Rattle.boc_runs.specs.declared.event.Event.{Event};
ghost use Rattle.boc_program.specs.declared.limits.TheConstants.{MOST_ROWS};
ghost use Rattle.boc_program.specs.Meaning.{Wish};
ghost use Rattle.boc_runs.specs.Lives.{Running};
ghost use Rattle.boc_runs.specs.declared.rows.Row.{Row};
ghost use Rattle.boc_runs.specs.Legal.{entries, IsComplete};
ghost use Rattle.boc_runs.specs.Records.{AreRowsOf};
ghost use Rattle.boc_runs.specs.Run.{config_of, state_of, next_wish, IsRun, IsWholeRun};
ghost use Rattle.boc_runs.specs.machine.Steps.{State, Makes, IsQuiet, HasNoEnqueue, members, recorded, unrecorded, opening_state};
ghost use Rattle.boc_runs.specs.machine.Schedules.{Reaches};
ghost use Rattle.boc_runs.specs.machine.AlongRows.{cowns_of_rows, parents_of_rows, steps_of_rows, serial_of_log, EndsSerially};
ghost use Rattle.boc_runs.specs.machine.Sound.{IsSound};
ghost use Rattle.boc_runs.specs.machine.Turns.{Driven, TakesTurn, Turn, Turns};
ghost use Rattle.boc_runs.specs.machine.Movers.{SomebodyCanStep};
ghost use Rattle.boc_machine_laws.specs.Allowed.{AllowsStep, IsFull};

/// Proves that each step leads from a sound state to a sound one.
pub fn steps_keep()
    ensures { (p : Program) (s t : State) (step : Step) → IsSound p s → Makes p s step t → IsSound p t }
{}

/// Proves that whatever steps are made from a sound state, one after the other, the state stays sound, and the log a run of the
/// program.
pub fn every_schedule()
    ensures sound { (p : Program) (s t : State) → IsSound p s → Reaches p s t → IsSound p t }
    ensures run { (p : Program) (s t : State) → IsSound p s → Reaches p s t → IsRun p t.log }
{}

/// Proves that the opening state is sound.
pub fn opening_is_sound()
    ensures { (p : Program) → IsSound p (opening_state p) }
{}

/// Proves that where all has ended, the log is a whole run of the program.
pub fn quiet_is_whole()
    ensures { (p : Program) (s : State) → IsSound p s → IsQuiet s → IsWholeRun p s.log }
{}

/// Proves that where all has ended, as many steps were made as the log's rows take.
pub fn quiet_has_all_steps()
    ensures { (p : Program) (s : State) → IsSound p s → IsQuiet s → s.steps ≡ steps_of_rows (cowns_of_rows s.log) }
{}

/// Proves that each row of a run that ends does so as in the serial run along the rows of the log.
pub fn ends_are_serial()
    ensures { (p : Program) (log : List Event) → IsRun p log → EndsSerially p log }
{}

/// Proves that after a whole run the cowns have the values of the serial run along the rows of its log.
pub fn values_are_serial()
    ensures { (p : Program) (log : List Event) → IsWholeRun p log
        → (config_of p log).values ≡ (serial_of_log p log).values }
{}

/// Proves that from a sound state a worker has at most one turn, and so at most one list of turns.
pub fn one_turn()
    ensures turn { (p : Program) (d e f : Driven) (worker : ℕ) → IsSound p d.state
        → Turn p d worker e → Turn p d worker f → e ≡ f }
    ensures turns { (p : Program) (d e f : Driven) (workers : List ℕ) → IsSound p d.state
        → Turns p d workers e → Turns p d workers f → e ≡ f }
{}

/// Proves that a turn leads from a sound state to a sound one.
pub fn turns_keep()
    ensures { (p : Program) (d e : Driven) (workers : List ℕ) → IsSound p d.state → Turns p d workers e
        → IsSound p e.state }
{}

/// Proves that where a row's next wish comes next, and there are as many rows and unrecorded enqueues as rows may be, the worker that
/// serves the row has no turn.
pub fn full_has_no_turn()
    ensures { (p : Program) (s t : State) (row : ℕ) (wish : Wish) (served : Option ℕ) → IsSound p s
        → state_of (members p s) row ≡ Some Running → HasNoEnqueue s row
        → next_wish p (slice_get (members p s) row) ≡ Some wish → MOST_ROWS ≤ recorded p s + unrecorded s
        → TakesTurn p s (Some row) t served → ⊥ }
{}

/// Proves that where no worker can step, all has ended: no sound state is stuck.
pub fn none_is_stuck()
    ensures { (p : Program) (s : State) → IsSound p s → (SomebodyCanStep p s → ⊥) → IsQuiet s }
{}

/// Proves that where not all has ended, some step is allowed; or a row's next wish comes next, and there is no space for it, as there are as many
/// rows and unrecorded enqueues as rows may be.
pub fn some_step_is_allowed()
    ensures { (p : Program) (s : State) → IsSound p s → (IsQuiet s → ⊥) → AllowsStep p s ⊎ IsFull p s }
{}

/// Proves that there are never more steps than 36 for each row that there may be.
pub fn steps_are_few()
    ensures { (p : Program) (s : State) → IsSound p s → s.steps ≤ 36 * MOST_ROWS }
{}

/// Proves that a whole run is over by the rules of records too.
pub fn whole_is_complete()
    ensures { (p : Program) (log : List Event) → IsWholeRun p log → IsComplete log }
{}

/// Proves that the rows of a record have the cowns and the parents of the rows of its log.
pub fn records_have_rows()
    ensures cowns { (log : List Event) (rows : List Row) → AreRowsOf (entries log) rows
        → map (λ r. r.cowns.items) rows ≡ cowns_of_rows log }
    ensures parents { (log : List Event) (rows : List Row) → AreRowsOf (entries log) rows
        → map (λ r. r.parent) rows ≡ parents_of_rows log }
{}
