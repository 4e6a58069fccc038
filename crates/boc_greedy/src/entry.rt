// The greedy plan as a whole.

ghost use Rattle.std.specs.Prelude.{◌≡◌, ◌⊎◌, ℕ, ◌+◌, ◌^◌, ◌<◌, ◌≤◌, ◌∷◌, length, slice_index, pred, replicate, IfOk};
ghost use Rattle.boc_program.specs.declared.limits.TheConstants.{MOST_WORKERS};
ghost use Rattle.boc_runs.specs.Rows.{IsRows};
ghost use Rattle.boc_plans.specs.Seen.{seen};
ghost use Rattle.boc_plans.specs.Plans.{HasEnds, IsEnd, end_of, work_of};
ghost use Rattle.boc_plans.specs.Greedy.{IsSpan};
ghost use Rattle.boc_plans.specs.Sweeps.{IsGreedyEnd};
ghost use Rattle.boc_order.specs.Waits.{AreWaits, AreFollowers};
ghost use Rattle.boc_greedy.specs.declared.frontier.RowState.TheVariants.{Unspawned, Waiting};
ghost use Rattle.boc_greedy.specs.Consequences.{AreConsequences};
ghost use Rattle.boc_greedy.specs.Done.{IsDone};
ghost use Rattle.boc_greedy.specs.Families.{IsFamilyOf};
ghost use Rattle.boc_greedy.specs.Frontier.{IsFrontier};
ghost use Rattle.boc_greedy.specs.Plans.{IsGreedyPlanOf};

use crate::children::{Family, family_of};
use crate::consequences::Consequences;
use crate::frontier::Frontier;
use crate::plan::Greedy;
use crate::simulation::Simulation;
use crate::timed::TimedRows;
use boc_order::{Links, last_end, waits_and_plan};
use boc_plans::sharing::{SeenRows, Sharing};
use boc_program::count::Workers;
use boc_runs::rows::Rows;
use std::alloc::{AllocError, Global};

// Returns the tick at which each row ends in a plan.
fn ends_of(alloc: Global, rows: &SeenRows, starts: &[u64]) -> Result<Vec<u64>, AllocError>
    requires whole { length starts.now ≡ length rows.now }
    requires low { (r : ℕ) → r < length rows.now → end_of rows.now starts.now r < 2 ^ 64 }
    ensures { IfOk result (λ ends. HasEnds rows.now starts.now ends.items) }
{
    let mut ends = Vec::with_capacity(alloc, starts.len())?;
    for (row, start) in starts.iter().enumerate() {
        ends.push_reserved(start + u64::from(rows.ticks(row)));
    }
    Ok(ends)
}

/// Returns the tick at which a plan ends.
pub fn latest_end(rows: &TimedRows, starts: &[u64]) -> u64
    requires some { 0 < length rows.now }
    requires whole { length starts.now ≡ length rows.now }
    requires low { (r : ℕ) → r < length rows.now → end_of rows.now starts.now r < 2 ^ 64 }
    ensures { IsEnd rows.now starts.now result }
{
    let mut latest = 0;
    for (row, start) in starts.iter().enumerate() {
        let end = start + u64::from(rows.ticks(row));
        latest = end.max(latest);
    }
    latest
}

/// Returns a simulation of p workers, from this frontier to its end.
pub fn finished<'a>(
    alloc: Global,
    rows: &TimedRows,
    frontier: Frontier<'a>,
    family: &'a Family,
    p: u32,
) -> Result<Simulation<'a>, AllocError>
    requires shape { IsRows rows.now }
    requires frontier { IsFrontier rows.now frontier }
    requires states { frontier.states.items ≡ Waiting ∷ replicate (pred (length rows.now)) Unspawned }
    requires family { IsFamilyOf rows.now family.now }
    requires some { 0 < p }
    requires few { p ≤ MOST_WORKERS }
    ensures { IfOk result (IsDone rows.now p) }
{
    let mut simulation = Simulation::new(alloc, rows, frontier, family, p)?;
    simulation.give_all(rows)?;
    simulation.finish(rows)?;
    Ok(simulation)
}

// Returns a simulation of p workers, to its end.
fn simulated<'a>(
    alloc: Global,
    rows: &SeenRows,
    waits: &Links,
    followers: &'a Links,
    family: &'a Family,
    p: u32,
) -> Result<Simulation<'a>, AllocError>
    requires shape { IsRows rows.now }
    requires waits { AreWaits rows.now waits.now }
    requires followers { AreFollowers waits.now followers.now }
    requires family { IsFamilyOf rows.now family.now }
    requires some { 0 < p }
    requires few { p ≤ MOST_WORKERS }
    ensures { IfOk result (IsDone rows.now p) }
{
    let timed = TimedRows::all(rows);
    let frontier = Frontier::new(alloc, &timed, waits, followers)?;
    finished(alloc, &timed, frontier, family, p)
}

/// Returns the tick at which the greedy plan of the rows for p workers ends.
pub fn end_for(
    alloc: Global,
    rows: &SeenRows,
    waits: &Links,
    followers: &Links,
    family: &Family,
    p: u32,
) -> Result<u64, AllocError>
    requires shape { IsRows rows.now }
    requires waits { AreWaits rows.now waits.now }
    requires followers { AreFollowers waits.now followers.now }
    requires family { IsFamilyOf rows.now family.now }
    requires some { 0 < p }
    requires few { p ≤ MOST_WORKERS }
    ensures { IfOk result (IsGreedyEnd rows.now p) }
{
    let simulation = simulated(alloc, rows, waits, followers, family, p)?;
    Ok(latest_end(&TimedRows::all(rows), &simulation.starts))
}

// Returns how many workers these numbers need: one more than the greatest of them, and 1 where there is none.
fn used(workers: &[u32]) -> u32
    requires { (r : ℕ) → r < length workers.now → slice_index workers.now r < MOST_WORKERS }
    ensures above { (r : ℕ) → r < length workers.now → slice_index workers.now r < result }
    ensures least { (result ≡ 1) ⊎ ((r : ℕ) × (r < length workers.now) × (slice_index workers.now r + 1 ≡ result)) }
{
    let mut used = 1;
    for worker in workers {
        used = (worker + 1).max(used);
    }
    used
}

/// Returns the tick at which the greedy plan of the rows for p workers ends, and how many workers it uses. The plans for so many workers and for more, up to
/// p, are the same one. `AllocError` says that memory was refused.
pub fn end_and_used(
    alloc: Global,
    rows: &SeenRows,
    waits: &Links,
    followers: &Links,
    family: &Family,
    p: u32,
) -> Result<(u64, u32), AllocError>
    requires shape { IsRows rows.now }
    requires waits { AreWaits rows.now waits.now }
    requires followers { AreFollowers waits.now followers.now }
    requires family { IsFamilyOf rows.now family.now }
    requires some { 0 < p }
    requires few { p ≤ MOST_WORKERS }
    ensures end { IfOk result (λ found. (q : ℕ) → found.1 ≤ q → q ≤ p → IsGreedyEnd rows.now q found.0) }
    ensures used { IfOk result (λ found. (0 < found.1) × (found.1 ≤ p)) }
{
    let simulation = simulated(alloc, rows, waits, followers, family, p)?;
    let end = latest_end(&TimedRows::all(rows), &simulation.starts);
    Ok((end, used(&simulation.workers)))
}

/// Returns the tick at which the greedy plan of the rows for p workers ends, for a caller who knows which rows they wait for, and which
/// rows wait for them. `AllocError` says that memory was refused.
///
/// No row's ticks are in what the caller has to know, so one who asks again, with other ticks, finds it once. When
/// rows spawn their children and end is found again each time, in two passes over the rows.
pub fn greedy_end(
    alloc: Global,
    rows: &SeenRows,
    waits: &Links,
    followers: &Links,
    workers: Workers,
) -> Result<u64, AllocError>
    requires shape { IsRows rows.now }
    requires waits { AreWaits rows.now waits.now }
    requires followers { AreFollowers waits.now followers.now }
    ensures { IfOk result (IsGreedyEnd rows.now workers) }
{
    let family = family_of(alloc, rows)?;
    end_for(alloc, rows, waits, followers, &family, workers.number())
}

/// Returns the greedy plan of the rows for p workers, as `greedy` has it, for a caller who knows which rows they wait for, what
/// follows from each, their work and their span.
///
/// It answers all that `greedy` answers. `AllocError` says that memory was refused.
pub fn greedy_over(
    alloc: Global,
    rows: &SeenRows,
    waits: &Links,
    consequences: &Consequences,
    workers: Workers,
    work: u64,
    span: u64,
) -> Result<Greedy, AllocError>
    requires shape { IsRows rows.now }
    requires waits { AreWaits rows.now waits.now }
    requires consequences { AreConsequences rows.now waits.now consequences.now }
    requires work { work ≡ work_of rows.now }
    requires span { IsSpan rows.now span }
    ensures { IfOk result (λ plan. IsGreedyPlanOf rows.now workers plan) }
{
    let p = workers.number();
    let simulation = simulated(
        alloc,
        rows,
        waits,
        &consequences.followers,
        &consequences.family,
        p,
    )?;
    // The changes are needed no more, and make space for the ends.
    drop(simulation.first);
    let ends = ends_of(alloc, rows, &simulation.starts)?;
    let ends_at = last_end(&ends);
    Ok(Greedy {
        p,
        starts: simulation.starts,
        ends,
        workers: simulation.workers,
        ends_at,
        bound: work / u64::from(p) + span,
        moments: simulation.moments,
    })
}

/// Returns the greedy plan of the rows for p workers.
///
/// All times are ticks. At each tick the rows that end free their workers first. Then, while a worker is free and
/// a row is ready, the lowest-numbered ready row goes to the lowest-numbered free worker. A row is ready when its
/// parent started at least its offset ago, and all earlier rows that share a cown with it have ended. With exclusive
/// cowns these are all that have a cown in common with it; with shared reads those where one of the two wrote it.
///
/// The plan has ended by the tick `bound`, and ends at most twice as late as any plan for p workers in which no row
/// starts before its spawn, nor before the end of such an earlier row. `AllocError` says that memory was refused.
pub fn greedy(
    alloc: Global,
    rows: &Rows,
    workers: Workers,
    sharing: Sharing,
) -> Result<Greedy, AllocError>
    ensures { IfOk result (λ plan. IsGreedyPlanOf (seen sharing rows.now) workers plan) }
{
    let work = boc_order::work(rows.as_slice());
    let rows = SeenRows::new(rows, sharing);
    let (waits, plan) = waits_and_plan(alloc, &rows)?;
    let consequences = Consequences::of(alloc, &rows, &waits)?;
    greedy_over(
        alloc,
        &rows,
        &waits,
        &consequences,
        workers,
        work,
        plan.span(),
    )
}
