// The ends of greedy plans for one, two, three and more workers.

ghost use Rattle.std.specs.Prelude.{◌≡◌, ℕ, ◌+◌, ◌-◌, ◌<◌, ◌≤◌, IfOk, IfSome};
ghost use Rattle.boc_program.specs.declared.limits.TheConstants.{MOST_WORKERS};
ghost use Rattle.boc_runs.specs.Rows.{IsRows};
ghost use Rattle.boc_plans.specs.Seen.{seen};
ghost use Rattle.boc_plans.specs.Plans.{work_of};
ghost use Rattle.boc_plans.specs.Greedy.{IsSpan};
ghost use Rattle.boc_plans.specs.Sweeps.{IsGreedyEnd};
ghost use Rattle.boc_order.specs.Waits.{AreWaits};
ghost use Rattle.boc_greedy.specs.Consequences.{AreConsequences};
ghost use Rattle.boc_greedy.specs.Curves.{IsCurve, IsCurvePoint};
ghost use Rattle.boc_greedy.specs.Known.{IsKnown};

use crate::consequences::Consequences;
use crate::entry::{end_and_used, end_for};
use boc_order::{Links, waits_and_plan};
use boc_plans::sharing::{SeenRows, Sharing};
use boc_program::count::Workers;
use boc_runs::rows::Rows;
use rayon::prelude::*;
use std::alloc::{AllocError, Global};
use std::thread::Threads;

/// What this many workers make of some rows. All but the workers are ticks.
#[derive(Clone, Copy, PartialEq, Eq, Debug)]
pub struct CurvePoint {
    /// How many workers there are.
    pub workers: u32,
    /// The end of their greedy plan.
    pub end: u64,
    /// No plan for the given number of workers ends before this tick: the span, or the work divided by the workers, rounded up, if that is greater.
    pub low: u64,
    /// The greedy plan has ended by this tick: the work divided by the workers, rounded down, and the span.
    pub bound: u64,
}

// Returns the end of the greedy plan for p workers, which may be known.
fn end_with(
    alloc: Global,
    rows: &SeenRows,
    waits: &Links,
    consequences: &Consequences,
    p: u32,
    known: Option<u64>,
) -> Result<u64, AllocError>
    requires shape { IsRows rows.now }
    requires waits { AreWaits rows.now waits.now }
    requires consequences { AreConsequences rows.now waits.now consequences.now }
    requires some { 0 < p }
    requires few { p ≤ MOST_WORKERS }
    requires known { IfSome known (IsGreedyEnd rows.now p) }
    ensures { IfOk result (IsGreedyEnd rows.now p) }
{
    match known {
        Some(end) => Ok(end),
        None => {
            let followers = &consequences.followers;
            end_for(alloc, rows, waits, followers, &consequences.family, p)
        }
    }
}

// Returns the point of p workers. The end of their greedy plan may be known.
fn point_of(
    alloc: Global,
    rows: &SeenRows,
    waits: &Links,
    consequences: &Consequences,
    work: u64,
    span: u64,
    p: u32,
    known: Option<u64>,
) -> Result<CurvePoint, AllocError>
    requires known { IsKnown rows.now waits.now consequences.now work span }
    requires some { 0 < p }
    requires few { p ≤ MOST_WORKERS }
    requires end { IfSome known (IsGreedyEnd rows.now p) }
    ensures { IfOk result (IsCurvePoint rows.now p) }
{
    let end = end_with(alloc, rows, waits, consequences, p, known)?;
    let share = (work + u64::from(p - 1)) / u64::from(p);
    let bound = work / u64::from(p) + span;
    Ok(CurvePoint {
        workers: p,
        end,
        low: span.max(share),
        bound,
    })
}

// Returns the points of fewer workers than these. Threads share them out.
fn points_below(
    rt: &(impl Threads + Sync),
    alloc: Global,
    rows: &SeenRows,
    waits: &Links,
    consequences: &Consequences,
    work: u64,
    span: u64,
    most: u32,
) -> Result<Vec<CurvePoint>, AllocError>
    requires known { IsKnown rows.now waits.now consequences.now work span }
    requires some { 0 < most }
    requires few { most ≤ MOST_WORKERS }
    ensures { IfOk result (λ points. IsCurve rows.now (most - 1) points.items) }
{
    (1..most)
        .into_par_iter()
        .with_min_len(1)
        .map(
            |p: u32| -> Result<CurvePoint, AllocError>
                requires { (0 < p) × (p ≤ MOST_WORKERS) × IsKnown rows.now waits.now consequences.now work span }
                ensures { IfOk result (IsCurvePoint rows.entry.now p) }
            { point_of(alloc, rows, waits, consequences, work, span, p, None) },
        )
        .collect::<Result<Vec<CurvePoint>, AllocError>>(rt, alloc)?
}

/// Returns what 1 worker, 2 workers and so on up to the most make of the rows, as `curve` has it, for a caller who knows which rows they
/// wait for, what follows from each, their work and their span. `AllocError` says that memory was refused.
pub fn curve_over(
    rt: &(impl Threads + Sync),
    alloc: Global,
    rows: &SeenRows,
    waits: &Links,
    consequences: &Consequences,
    work: u64,
    span: u64,
    most: Workers,
) -> Result<Vec<CurvePoint>, AllocError>
    requires shape { IsRows rows.now }
    requires waits { AreWaits rows.now waits.now }
    requires consequences { AreConsequences rows.now waits.now consequences.now }
    requires work { work ≡ work_of rows.now }
    requires span { IsSpan rows.now span }
    ensures { IfOk result (λ points. IsCurve rows.now most points.items) }
{
    let most = most.number();
    let followers = &consequences.followers;
    let (end, used) = end_and_used(alloc, rows, waits, followers, &consequences.family, most)?;
    let mut points = points_below(rt, alloc, rows, waits, consequences, work, span, used)?;
    for p in used..most + 1 {
        points.push(point_of(alloc, rows, waits, consequences, work, span, p, Some(end))?)?;
    }
    Ok(points)
}

/// Returns for 1 worker, 2 workers and so on up to the most: the end of the greedy plan of the rows, as `greedy` has it, the tick before which
/// no plan for the given number of workers ends, and the tick by which the greedy plan has ended. `AllocError` says that memory was refused.
///
/// What depends on no number of workers is found once. The plan for the most workers is made first: with as many workers as it uses, or more, the plan is
/// the same. Threads share out the smaller numbers, and each plan takes memory that grows with the number of rows.
pub fn curve(
    rt: &(impl Threads + Sync),
    alloc: Global,
    rows: &Rows,
    sharing: Sharing,
    most: Workers,
) -> Result<Vec<CurvePoint>, AllocError>
    ensures { IfOk result (λ points. IsCurve (seen sharing rows.now) most points.items) }
{
    let work = boc_order::work(rows.as_slice());
    let rows = SeenRows::new(rows, sharing);
    let (waits, plan) = waits_and_plan(alloc, &rows)?;
    let consequences = Consequences::of(alloc, &rows, &waits)?;
    curve_over(
        rt,
        alloc,
        &rows,
        &waits,
        &consequences,
        work,
        plan.span(),
        most,
    )
}
