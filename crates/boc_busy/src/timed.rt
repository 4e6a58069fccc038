// The test of when the rows of a run ran: that it is a schedule for its workers, and ends in time.

ghost use Rattle.std.specs.Prelude.{◌≡◌, ◌<◌, ◌^◌, ◌↔◌, None, All, IfOk, IfSome, IsTrue, length};
ghost use Rattle.boc_runs.specs.Rows.{IsRows};
ghost use Rattle.boc_plans.specs.Seen.{writing_all};
ghost use Rattle.boc_plans.specs.Plans.{HasEnds, work_of};
ghost use Rattle.boc_plans.specs.Greedy.{IsForWorkers};
ghost use Rattle.boc_busy.specs.Timed.{AreTimed, IsInTime};

use crate::keeping::all_keep;
use crate::stints::{are_apart, in_line};
use boc_order::{last_end, waits_and_plan, work};
use boc_plans::sharing::{SeenRows, Sharing};
use boc_runs::rows::Rows;
use std::alloc::{AllocError, Global};

/// When the rows of a run ran, and on which workers. Starts, ends and the bound are ticks.
#[derive(Drop, Debug)]
pub struct TimedRows {
    /// How many workers there are.
    pub p: u32,
    /// The tick at which each row starts.
    pub starts: Vec<u64>,
    /// The tick at which each row ends.
    pub ends: Vec<u64>,
    /// The worker that each row is on, from 0.
    pub workers: Vec<u32>,
    /// The end of the run.
    pub ends_at: u64,
    /// The work divided by p, rounded down, and the span where all cowns are held exclusively.
    pub bound: u64,
}

// Returns the tick at which each row ends, where rows start so.
fn ends_of(alloc: Global, rows: &SeenRows, starts: &[u64]) -> Result<Vec<u64>, AllocError>
    requires shape { IsRows rows.now }
    requires whole { length starts.now ≡ length rows.now }
    requires low { All (λ start. start < 2 ^ 62) starts.now }
    ensures { IfOk result (λ ends. HasEnds rows.now starts.now ends.items) }
{
    let mut ends = Vec::with_capacity(alloc, starts.len())?;
    for (row, start) in starts.iter().enumerate() {
        ends.push_reserved(start + u64::from(rows.ticks(row)));
    }
    Ok(ends)
}

// Returns whether all workers are below p.
fn are_below(workers: &[u32], p: u32) -> bool
    ensures { IsTrue result ↔ All (λ worker. worker < p) workers.now }
{
    for worker in workers {
        if *worker >= p {
            return false;
        }
    }
    true
}

// Returns whether rows that start and end so are on p workers, none of which has two at one tick. `AllocError` says that memory was refused.
fn are_for_workers(
    alloc: Global,
    rows: &SeenRows,
    p: u32,
    starts: &[u64],
    ends: &[u64],
    workers: &[u32],
) -> Result<bool, AllocError>
    requires shape { IsRows rows.now }
    requires whole { length starts.now ≡ length rows.now }
    requires ends { HasEnds rows.now starts.now ends.now }
    ensures { IfOk result (λ are. IsTrue are ↔ IsForWorkers rows.now p starts.now workers.now) }
{
    if workers.len() != starts.len() || !are_below(workers, p) {
        return Ok(false);
    }
    let stints = in_line(alloc, starts, ends, workers)?;
    Ok(are_apart(&stints))
}

// Returns whether a run on p workers that ends at this tick ends within the bound, and if there is one worker, at the work.
fn is_in_time(p: u32, work: u64, bound: u64, last: u64) -> bool
    ensures { IsTrue result ↔ IsInTime p work bound last }
{
    last <= bound && (p != 1 || last == work)
}

// Returns when rows ran as `timed_rows` does, for a caller who knows their work.
fn timed(
    alloc: Global,
    rows: &SeenRows,
    work: u64,
    p: u32,
    starts: Vec<u64>,
    workers: Vec<u32>,
) -> Result<Option<TimedRows>, AllocError>
    requires shape { IsRows rows.now }
    requires work { work ≡ work_of rows.now }
    requires some { 0 < p }
    requires low { All (λ start. start < 2 ^ 62) starts.items }
    ensures timed { IfOk result (λ r. IfSome r (λ t. AreTimed rows.now p starts.items workers.items t)) }
    ensures untimed { IfOk result (λ r. r ≡ None → (t : TimedRows) → AreTimed rows.now p starts.items workers.items t → ⊥) }
{
    if starts.len() != rows.len() {
        return Ok(None);
    }
    let ends = ends_of(alloc, rows, &starts)?;
    let (waits, plan) = waits_and_plan(alloc, rows)?;
    if !all_keep(rows, &waits, &starts, &ends) {
        return Ok(None);
    }
    if !are_for_workers(alloc, rows, p, &starts, &ends, &workers)? {
        return Ok(None);
    }
    let ends_at = last_end(&ends);
    let bound = work / u64::from(p) + plan.span();
    if !is_in_time(p, work, bound, ends_at) {
        return Ok(None);
    }
    Ok(Some(TimedRows {
        p,
        starts,
        ends,
        workers,
        ends_at,
        bound,
    }))
}

/// Returns when rows ran that start so on these of p workers, if that is a schedule that ends in time.
///
/// Cowns are exclusive. It is one if no row starts before its spawn, nor before the end of a row with a smaller number that shares a cown with it, and if no
/// worker has two rows at one tick. It is in time if it ends by the work divided by p, rounded down, plus the span, and with one worker at the work.
/// So it ends no sooner than the span. Starts are below 2 ^ 62.
///
/// It takes memory and time that grow with the number of rows, times its logarithm, and of their cowns. `AllocError` says that memory was refused.
pub fn timed_rows(
    alloc: Global,
    rows: &Rows,
    p: u32,
    starts: Vec<u64>,
    workers: Vec<u32>,
) -> Result<Option<TimedRows>, AllocError>
    requires some { 0 < p }
    requires low { All (λ start. start < 2 ^ 62) starts.items }
    ensures timed { IfOk result (λ r. IfSome r (λ t. AreTimed (writing_all rows.now) p starts.items workers.items t)) }
    ensures untimed { IfOk result (λ r. r ≡ None → (t : TimedRows) → AreTimed (writing_all rows.now) p starts.items workers.items t → ⊥) }
{
    let work = work(rows.as_slice());
    let rows = SeenRows::new(rows, Sharing::Exclusive);
    timed(alloc, &rows, work, p, starts, workers)
}
