// What is known of one run.

ghost use Rattle.std.specs.Prelude.{◌≡◌, ◌<◌, ◌≤◌, All, IfOk, length};
ghost use Rattle.boc_program.specs.declared.limits.TheConstants.{MOST_COWNS, MOST_ROWS};
ghost use Rattle.boc_remedies.specs.Questions.{asked};
ghost use Rattle.boc_why.specs.Why.{IsWhy};
ghost use Rattle.boc_plans.specs.Seen.{seen};
ghost use Rattle.boc_runs.specs.Rows.{IsRows};
ghost use Rattle.boc_compare.specs.Sides.{AreTimes, AreTypicalTimes, HasFamilies, IsOrderEnd, IsSide};

use crate::defs::def_totals;
use crate::families::family_totals;
use crate::totals::Totals;
use boc_cowns::hot_cowns;
use boc_eager::eager_plan;
use boc_order::work;
use boc_plans::sharing::Sharing;
use boc_program::count::Workers;
use boc_remedies::{Question, ends_of};
use boc_runs::rows::Rows;
use boc_typical::typical_rows;
use boc_why::{Share, Why, weights_of, why_of};
use std::alloc::{AllocError, Global};
use std::thread::Threads;

/// What some rows take. All times are ticks.
#[derive(Clone, Copy, PartialEq, Eq, Debug)]
pub struct Times {
    /// The ticks of all rows together.
    pub work: u64,
    /// The end of the earliest plan.
    pub span: u64,
    /// The end of the greedy plan, where a number of workers is given.
    pub end: Option<u64>,
}

/// What is known of one run. All times are ticks.
#[derive(Drop, Debug)]
pub struct Side {
    /// How many rows there are.
    pub rows: u64,
    /// What they take.
    pub times: Times,
    /// What they take where each takes the typical ticks of its def.
    pub typical: Times,
    /// When they end where whatever can start does, in whatever order.
    pub order_end: u64,
    /// A lower bound for their end in any order.
    pub bound: u64,
    /// The shares of the chain by def, those that weigh most first.
    pub by_def: Vec<Share>,
    /// What is known of each def, in the order of their first rows.
    pub defs: Vec<Totals>,
    /// What is known of each family of cowns, in the order of their first cowns.
    pub families: Vec<Totals>,
}

/// Returns what some rows take. `AllocError` says that memory was refused.
pub fn times_of(
    alloc: Global,
    rows: &Rows,
    sharing: Sharing,
    workers: Option<Workers>,
) -> Result<Times, AllocError>
    ensures { IfOk result (AreTimes rows.now sharing workers) }
{
    let ends = ends_of(alloc, rows, sharing, workers)?;
    Ok(Times {
        work: work(rows.as_slice()),
        span: ends.span,
        end: ends.greedy,
    })
}

// Returns what some rows take where each takes the typical ticks of its def.
fn typical_times(alloc: Global, question: &Question<'_>) -> Result<Times, AllocError>
    requires defs { length question.now.defs.now ≡ length question.now.rows.now }
    requires few_defs { All (λ d. d < MOST_ROWS) question.now.defs.now }
    ensures { IfOk result (AreTypicalTimes (asked question.now)) }
{
    let typical = typical_rows(alloc, question.rows, question.defs)?;
    times_of(alloc, &typical, question.sharing, question.workers)
}

// Returns when the rows end where whatever can start does.
fn order_end(alloc: Global, rows: &Rows, sharing: Sharing) -> Result<u64, AllocError>
    ensures { IfOk result (IsOrderEnd (seen sharing rows.now)) }
{
    let plan = eager_plan(alloc, rows, sharing)?;
    Ok(plan.end)
}

// Returns what is known of each family of cowns of a run.
fn families_of(
    rt: &(impl Threads + Sync),
    alloc: Global,
    question: &Question<'_>,
    why: &Why,
) -> Result<Vec<Totals>, AllocError>
    requires shape { IsRows question.now.rows.now }
    requires few_cowns { length question.now.families.now ≤ MOST_COWNS }
    requires few_families { All (λ f. f < MOST_COWNS) question.now.families.now }
    requires whole { length why.now.links.items ≡ length why.now.profile.chain.steps.items }
    requires few_steps { length why.now.profile.chain.steps.items ≤ MOST_ROWS }
    ensures { IfOk result (λ list. HasFamilies (asked question.now) why.now list.items) }
{
    let count = question.families.len() as u32;
    let hot = hot_cowns(rt, alloc, question.rows, question.sharing, count)?;
    let weights = weights_of(alloc, &why.profile.chain.steps)?;
    family_totals(alloc, &hot.cowns, &why.links, &weights, question.families)
}

/// Returns what is known of a run: what its rows take, as they are and with typical ticks, when they end in another order, and a lower bound for any order.
/// It has the shares of the chain by def, and what is known of each def and of each family of cowns. `AllocError` says that memory was refused.
pub fn side_of(
    rt: &(impl Threads + Sync),
    alloc: Global,
    question: &Question<'_>,
) -> Result<Side, AllocError>
    requires defs { length question.now.defs.now ≡ length question.now.rows.now }
    requires few_defs { All (λ d. d < MOST_ROWS) question.now.defs.now }
    requires few_cowns { length question.now.families.now ≤ MOST_COWNS }
    requires few_families { All (λ f. f < MOST_COWNS) question.now.families.now }
    ensures { IfOk result (IsSide (asked question.now)) }
{
    let rows = question.rows;
    let count = rows.as_slice().len() as u64;
    let times = times_of(alloc, rows, question.sharing, question.workers)?;
    let typical = typical_times(alloc, question)?;
    let order_end = order_end(alloc, rows, question.sharing)?;
    let cowns = question.families.len();
    let why = why_of(alloc, rows, question.sharing, question.defs, cowns)?;
    let families = families_of(rt, alloc, question, &why)?;
    let defs = def_totals(alloc, rows, question.defs, &why.by_def)?;
    Ok(Side {
        rows: count,
        times,
        typical,
        order_end,
        bound: why.least.tick(),
        by_def: why.by_def,
        defs,
        families,
    })
}
