// Laws of the serial runs of programs, of runs, and of rows that change.

ghost use Rattle.std.specs.Prelude.{◌≡◌, ℕ, ℤ, List};
ghost use Rattle.boc_runs.specs.declared.event.Event.{Event};
ghost use Rattle.boc_program.specs.declared.program.Program.{Program};
ghost use Rattle.boc_program.specs.Programs.{cown_count};
ghost use Rattle.boc_runs.specs.declared.rows.Row.{Row};
ghost use Rattle.boc_runs.specs.Changes.{IsScaled};
ghost use Rattle.boc_runs.specs.Legal.{IsLegal};
ghost use Rattle.boc_runs.specs.Run.{IsRun};
ghost use Rattle.boc_runs.specs.OwnOrder.{EndsWith, HasTooMany};

use boc_program::program::Program;

/// Proves that a run of a program keeps the rules of runs over as many cowns as the program has.
pub fn runs_are_legal()
    ensures { (p : Program) (log : List Event) → IsRun p log → IsLegal (cown_count p.cowns) log }
{}

/// Proves that the serial run of a program ends with one list of values at most.
pub fn ends_once(program: &Program)
    ensures { (values others : List ℤ) → EndsWith program.now values → EndsWith program.now others → values ≡ others }
{
    let _ = program;
}

/// Proves that it does not end where it needs too many behaviours.
pub fn ends_or_has_too_many(program: &Program)
    ensures { (values : List ℤ) → EndsWith program.now values → HasTooMany program.now → ⊥ }
{
    let _ = program;
}

/// Proves that rows of which one costs a part of what it did are the same rows each time.
pub fn rows_are_scaled_one_way()
    ensures { (rows : List Row) (row over under : ℕ) (after other : List Row) → IsScaled rows row over under after → IsScaled rows row over under other
        → after ≡ other }
{}
