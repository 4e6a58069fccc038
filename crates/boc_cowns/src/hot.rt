// Which cowns hold some rows back.

ghost use Rattle.std.specs.Prelude.{◌≡◌, ◌<◌, ◌≤◌, ◌^◌, All, length, IfOk};
ghost use Rattle.boc_program.specs.declared.limits.TheConstants.{MOST_COWNS, MOST_ROWS};
ghost use Rattle.boc_runs.specs.Rows.{IsRows};
ghost use Rattle.boc_plans.specs.Greedy.{IsSpan};
ghost use Rattle.boc_plans.specs.Seen.{seen};
ghost use Rattle.boc_plans.specs.declared.sharing.Sharing.TheVariants.{SharedReads};
ghost use Rattle.boc_plans.specs.Chains.{IsChain};
ghost use Rattle.boc_order.specs.Standing.{IsPlanOf};
ghost use Rattle.boc_cowns.specs.Hot.{IsHotCowns};
ghost use Rattle.boc_cowns.specs.Columns.{HasColumns};

use crate::columns::{Columns, sorted};
use crate::totals::{chain_ticks, row_counts, waits_of, writer_counts};
use boc_order::{
    Earliest, Least, SpawnPlan, busiest_of, first_starts, loads_of, spawn_plan, waits_and_plan,
};
use boc_plans::chain::ChainStep;
use boc_plans::sharing::{SeenRows, Sharing};
use boc_program::short::HeldCown;
use boc_runs::rows::Rows;
use boc_sweep::cown_sweep;
use std::alloc::{AllocError, Global};
use std::thread::Threads;

/// What is known of a cown. All times are ticks.
#[derive(Clone, Copy, PartialEq, Eq, Debug)]
pub struct HotCown {
    /// The number of the cown.
    pub cown: HeldCown,
    /// How many rows have it.
    pub rows: u32,
    /// How many rows wrote it.
    pub wrote: u32,
    /// How long it is held by one row alone: the ticks of the rows that wrote it. Where cowns are exclusive, these are all rows that have it; where
    /// reads are shared, readers hold it together, and don't count.
    pub held: u64,
    /// A tick before which no row that wrote it starts, in whatever order: the earliest start of one, where only the spawns order the rows. None where no
    /// row wrote it.
    pub from: Option<u64>,
    /// How long rows wait for it: from the spawn of each to its start, where the row whose end it waits for hands it the cown. A wait for several
    /// cowns counts for each of them.
    pub waited: u64,
    /// The ticks of the chain's rows that hand it to the next row of the chain.
    pub chain: u64,
    /// The span that the rows would have if the cown imposed no order.
    pub without: u64,
}

/// Which cowns hold some rows back. All times are ticks.
#[derive(Drop, Debug)]
pub struct HotCowns {
    /// The span of the rows: the end of their earliest plan.
    pub span: u64,
    /// A lower bound for their end, in whatever order they get their cowns.
    pub least: Least,
    /// The span that they would have if reads were shared.
    pub shared: u64,
    /// The cowns, those that are held longest first, and of those that are held as long the lowest number first.
    pub cowns: Vec<HotCown>,
}

// Returns the columns of the given number of cowns, for rows in their earliest plan and with their chain, and in the plan in which only spawns order them.
// `AllocError` says that memory was refused.
fn columns_of(
    rt: &(impl Threads + Sync),
    alloc: Global,
    rows: &Rows,
    seen: &SeenRows,
    plan: &Earliest,
    alone: &SpawnPlan,
    steps: &[ChainStep],
    count: usize,
) -> Result<Columns, AllocError>
    requires shape { IsRows seen.now }
    requires placed { IsPlanOf seen.now plan.now }
    requires alone { length alone.now.starts.items ≡ length seen.now }
    requires chain { IsChain seen.now steps.now }
    requires few { length steps.now ≤ MOST_ROWS }
    requires count { count ≤ MOST_COWNS }
    ensures { IfOk result (HasColumns rows.now seen.now plan.now.starts.items plan.now.after.items alone.now.starts.items steps.now count) }
{
    let list = rows.as_slice();
    Ok(Columns {
        rows: row_counts(alloc, list)?,
        wrote: writer_counts(alloc, list)?,
        held: loads_of(alloc, seen)?,
        from: first_starts(alloc, seen, &alone.starts)?,
        waited: waits_of(alloc, seen, plan)?,
        chain: chain_ticks(alloc, seen, steps)?,
        without: cown_sweep(rt, alloc, seen, count)?,
    })
}

// Returns the span of the rows if reads were shared. `AllocError` says that memory was refused.
fn shared_span(alloc: Global, rows: &Rows) -> Result<u64, AllocError>
    ensures { IfOk result (IsSpan (seen SharedReads rows.now)) }
{
    let seen = SeenRows::new(rows, Sharing::SharedReads);
    let (_, plan) = waits_and_plan(alloc, &seen)?;
    Ok(plan.span())
}

/// Returns which cowns hold some rows back: for each of the given number of cowns, those that are held longest first, how many rows have it and how many wrote
/// it, for how long it is held by one row alone and waited for, how much of the chain hands it on, and the span that would be left if it imposed no order; and
/// the span of the rows, as they are, and where reads are shared, and a lower bound for their end in any order. `AllocError` says that memory was
/// refused.
///
/// It takes time that grows with the number of rows and their cowns, once for each cown, and memory that grows with the number of rows. Threads share
/// out the cowns.
pub fn hot_cowns(
    rt: &(impl Threads + Sync),
    alloc: Global,
    rows: &Rows,
    sharing: Sharing,
    cowns: u32,
) -> Result<HotCowns, AllocError>
    requires { cowns ≤ MOST_COWNS }
    ensures hot { IfOk result (IsHotCowns rows.now sharing cowns) }
    ensures some { IfOk result (λ hot. 0 < hot.span) }
    ensures low { IfOk result (λ hot. All (λ own. own.held < 2 ^ 56) hot.cowns.items) }
{
    let seen = SeenRows::new(rows, sharing);
    let (_, plan) = waits_and_plan(alloc, &seen)?;
    let profile = plan.profile(alloc, &seen)?;
    let alone = spawn_plan(alloc, &seen)?;
    let steps = profile.chain.steps.as_slice();
    let columns = columns_of(rt, alloc, rows, &seen, &plan, &alone, steps, cowns as usize)?;
    let least = Least {
        spawns: alone.span,
        busiest: busiest_of(&columns.held, &columns.from, cowns as usize),
    };
    Ok(HotCowns {
        span: profile.span,
        least,
        shared: shared_span(alloc, rows)?,
        cowns: sorted(alloc, &columns, cowns as usize)?,
    })
}
