// Laws of timed runs.

ghost use Rattle.std.specs.Prelude.{◌≡◌, ℕ, List, Ok, Err};
ghost use Rattle.boc_program.specs.declared.program.Program.{Program};
ghost use Rattle.boc_runs.specs.machine.Steps.{IsQuiet, values};
ghost use Rattle.boc_runs.specs.machine.Turns.{Driven, Turns, opening_driven};
ghost use Rattle.boc_clock.specs.declared.clocks.Clocks.{Clocks};
ghost use Rattle.boc_timed.specs.declared.fault.TimedFault.TheVariants.{Behaviours};
ghost use Rattle.boc_timed.specs.declared.timing.TimedRun.{TimedRun};
ghost use Rattle.boc_timed.specs.Timed.{IsTimed, TimesTo};

/// Proves that a timed run is a function of the program and the number of workers. Two have the same events, cowns, values at the end and steps, and their rows
/// start at the same times, on the same workers. If there is one, none reaches the limit of behaviours.
pub fn one_timed()
    ensures events { (p : Program) (workers : ℕ) (a b : TimedRun) → IsTimed p workers (Ok a) → IsTimed p workers (Ok b) → a.record.events ≡ b.record.events }
    ensures cowns { (p : Program) (workers : ℕ) (a b : TimedRun) → IsTimed p workers (Ok a) → IsTimed p workers (Ok b) → a.record.cowns ≡ b.record.cowns }
    ensures values { (p : Program) (workers : ℕ) (a b : TimedRun) → IsTimed p workers (Ok a) → IsTimed p workers (Ok b) → a.values.items ≡ b.values.items }
    ensures steps { (p : Program) (workers : ℕ) (a b : TimedRun) → IsTimed p workers (Ok a) → IsTimed p workers (Ok b) → a.steps ≡ b.steps }
    ensures starts { (p : Program) (workers : ℕ) (a b : TimedRun) → IsTimed p workers (Ok a) → IsTimed p workers (Ok b)
        → a.timetable.starts.items ≡ b.timetable.starts.items }
    ensures workers { (p : Program) (workers : ℕ) (a b : TimedRun) → IsTimed p workers (Ok a) → IsTimed p workers (Ok b)
        → a.timetable.workers.items ≡ b.timetable.workers.items }
    ensures either { (p : Program) (workers : ℕ) (a : TimedRun) → IsTimed p workers (Ok a) → IsTimed p workers (Err Behaviours) → ⊥ }
{}

/// Proves that a timed run is one of the interleavings of the workers: the turns of those that come first are turns.
pub fn timed_turns_are_turns()
    ensures { (p : Program) (workers : ℕ) (choices : List ℕ) (e : Driven) (later : Clocks) → TimesTo p workers choices e later
        → Turns p (opening_driven p workers) choices e }
{}

/// Proves that the timed run on one worker is the only run on one worker: turns that go on until all has finished lead to its events, its values and as many
/// steps.
pub fn timed_by_one()
    ensures events { (p : Program) (timed : TimedRun) → IsTimed p 1 (Ok timed) → (choices : List ℕ) (end : Driven)
        → Turns p (opening_driven p 1) choices end → IsQuiet end.state → timed.record.events ≡ end.state.log }
    ensures values { (p : Program) (timed : TimedRun) → IsTimed p 1 (Ok timed) → (choices : List ℕ) (end : Driven)
        → Turns p (opening_driven p 1) choices end → IsQuiet end.state → timed.values.items ≡ values p end.state }
    ensures steps { (p : Program) (timed : TimedRun) → IsTimed p 1 (Ok timed) → (choices : List ℕ) (end : Driven)
        → Turns p (opening_driven p 1) choices end → IsQuiet end.state → timed.steps ≡ end.state.steps }
{}
