// Rows that could start, and rows that wait for one.

ghost use Rattle.std.specs.Prelude.{◌≡◌, ℕ, ◌↔◌, ◌⊎◌, ◌<◌, IfOk, IsTrue, Some, length};
ghost use Rattle.std.specs.List.{Contains};
ghost use Rattle.boc_program.specs.declared.limits.TheConstants.{MOST_COWNS};
ghost use Rattle.boc_runs.specs.Lives.{Pending, MayStart};
ghost use Rattle.boc_runs.specs.Legal.{life_of, entry_cowns};
ghost use Rattle.boc_stalled.specs.Stalled.{NoneRuns, WaitsFor, AreThose, IsMarked, HasMarked};

use crate::life::{could_start, is_pending, is_running};
use crate::marks::{has_marked, mark};
use boc_program::limits::MOST_COWNS;
use boc_rules::Judge;
use std::alloc::{AllocError, Global};

// Returns how many rows there are.
fn row_count(run: &Judge) -> u32
    ensures { result ≡ length run.now.rows }
{
    // For its contract: the rows are those of a legal log, and so at most 65,535.
    let _cowns = run.cowns();
    run.count() as u32
}

/// Returns whether no row runs. The time goes with the number of rows.
pub fn none_runs(run: &Judge) -> bool
    ensures { IsTrue result ↔ NoneRuns (life_of run.now.rows) }
{
    for row in 0..row_count(run) {
        if is_running(run, row) {
            return false;
        }
    }
    true
}

/// Returns the rows that could start, in rising order: exactly those that are pending, and the first of each of their cowns' queues. The time goes with the
/// number of rows and their cowns.
pub fn rows_that_could_start(alloc: Global, run: &Judge) -> Result<Vec<u32>, AllocError>
    ensures { IfOk result (λ those. AreThose (MayStart (life_of run.now.rows) (entry_cowns run.now.rows)) (length run.now.rows) those.items) }
{
    let mut those = Vec::new(alloc);
    for row in 0..row_count(run) {
        if could_start(run, row) {
            those.push(row)?;
        }
    }
    Ok(those)
}

/// Returns the rows that wait for one, in rising order: exactly the pending ones that were spawned after it, or after a row that waits for it, and share a cown
/// with that row. None of them can start before it has ended. The time goes with the number of rows and their cowns.
pub fn rows_that_wait_for(alloc: Global, run: &Judge, first: u32) -> Result<Vec<u32>, AllocError>
    ensures { IfOk result (λ those. AreThose (WaitsFor (life_of run.now.rows) (entry_cowns run.now.rows) first) (length run.now.rows) those.items) }
{
    let mut marks = [false; MOST_COWNS];
    mark_cowns(&mut marks, run, first);
    let mut those = Vec::new(alloc);
    for row in 0..row_count(run) {
        if waits(run, &marks, first, row) {
            those.push(row)?;
            mark_cowns(&mut marks, run, row);
        }
    }
    Ok(those)
}

// Returns whether a row is pending, was spawned after a first one, and has a marked cown.
fn waits(run: &Judge, marks: &[bool], first: u32, row: u32) -> bool
    requires { length marks.now ≡ MOST_COWNS }
    ensures { IsTrue result ↔ ((first < row) × (life_of run.now.rows row ≡ Some Pending) × HasMarked marks.now (entry_cowns run.now.rows row)) }
{
    first < row && is_pending(run, row) && has_marked_cown(marks, run, row)
}

// Marks the cowns of a row, if it is there.
fn mark_cowns(marks: &mut [bool], run: &Judge, row: u32)
    requires { length marks.old ≡ MOST_COWNS }
    ensures all { length marks.new ≡ MOST_COWNS }
    ensures marked { (cown : ℕ) → IsMarked marks.new cown ↔ (IsMarked marks.old cown ⊎ Contains (entry_cowns run.now.rows row) cown) }
{
    if let Some(cowns) = run.cowns_of(row) {
        mark(marks, cowns.as_slice());
    }
}

// Returns whether a row is there and has a marked cown.
fn has_marked_cown(marks: &[bool], run: &Judge, row: u32) -> bool
    requires { length marks.now ≡ MOST_COWNS }
    ensures { IsTrue result ↔ HasMarked marks.now (entry_cowns run.now.rows row) }
{
    match run.cowns_of(row) {
        Some(cowns) => has_marked(marks, cowns.as_slice()),
        None => false,
    }
}
