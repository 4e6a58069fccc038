// The profile of some rows.

ghost use Rattle.std.specs.Prelude.{◌≡◌, ℕ, ◌+◌, ◌<◌, ◌≤◌, None, List, length, IfOk, slice_index, slice_index_or, slice_get};
ghost use Rattle.boc_runs.specs.declared.rows.Row.{Row};
ghost use Rattle.boc_runs.specs.Rows.{IsRows};
ghost use Rattle.boc_plans.specs.Seen.{seen};
ghost use Rattle.boc_plans.specs.Plans.{work_of, end_of, HasEnds, IsEnd, IsEarliest, NoneEndsBefore};
ghost use Rattle.boc_plans.specs.Chains.{IsPicked, weight_of};
ghost use Rattle.boc_order.specs.Back.{IsStepBefore, IsFirstLatest};
ghost use Rattle.boc_order.specs.Profiles.{IsProfileOf};
ghost use Rattle.boc_order.specs.Standing.{IsPlanOf};

use crate::plan::{Earliest, plan_of};
use crate::report::Profile;
use boc_plans::chain::{Chain, ChainStep, Via};
use boc_plans::sharing::{SeenRows, Sharing};
use boc_program::limits::{MOST_ROWS, MOST_TICKS};
use boc_runs::rows::{Row, Rows};
use std::alloc::{AllocError, Global};

// Returns the number of the row that ends last; of several, the smallest.
fn last_row(ends: &[u64]) -> usize
    requires { 0 < length ends.now }
    ensures there { result < length ends.now }
    ensures latest { (k : ℕ) → k < length ends.now → slice_index ends.now k ≤ slice_index ends.now result }
    ensures first { (k : ℕ) → k < result → slice_index ends.now k < slice_index ends.now result }
{
    let mut last = 0;
    let mut latest = ends[0];
    for (number, end) in ends.iter().enumerate() {
        if latest < *end {
            last = number;
            latest = *end;
        }
    }
    last
}

// Returns the ticks of all rows together, of which each starts and ends at these ticks.
fn work_between(starts: &[u64], ends: &[u64]) -> u64
    requires whole { length starts.now ≡ length ends.now }
    requires few { length ends.now ≤ MOST_ROWS }
    requires ordered { (r : ℕ) → r < length ends.now → slice_index starts.now r ≤ slice_index ends.now r }
    requires short { (r : ℕ) → r < length ends.now → slice_index ends.now r ≤ slice_index starts.now r + MOST_TICKS }
    ensures { (rows : List Row) → HasEnds rows starts.now ends.now → result ≡ work_of rows }
{
    let mut total = 0;
    for row in 0..ends.len() {
        total += ends[row] - starts[row];
    }
    total
}

/// Returns the work of the rows: the ticks of all rows together. It takes no memory.
pub fn work(rows: &[Row]) -> u64
    requires { IsRows rows.now }
    ensures { result ≡ work_of rows.now }
{
    rows.iter().map(|row| u64::from(row.ticks)).sum()
}

// Returns the step whose link a row waited for.
fn step_before(rows: &SeenRows, after: &[Option<u32>], row: u32) -> ChainStep
    requires shape { IsRows rows.now }
    requires there { row < length rows.now }
    requires whole { length after.now ≡ length rows.now }
    requires among { (a : ℕ) → slice_get after.now row ≡ Some (Some a) → a < length rows.now }
    ensures { IsStepBefore rows.now (slice_index_or after.now row None) row result }
{
    match after[row as usize] {
        None => ChainStep {
            row: rows.parent(row as usize),
            via: Via::Spawn,
            weight: rows.offset(row as usize),
        },
        Some(before) => ChainStep {
            row: before,
            via: Via::Order,
            weight: rows.ticks(before as usize),
        },
    }
}

// Returns the chain of the links that were waited for, which ends in the row `last`, of `rows` in the earliest plan.
fn chain_back(
    alloc: Global,
    rows: &SeenRows,
    plan: &Earliest,
    last: u32,
) -> Result<Chain, AllocError>
    requires shape { IsRows rows.now }
    requires placed { IsPlanOf rows.now plan.now }
    requires there { last < length rows.now }
    requires latest { IsFirstLatest rows.now plan.now.starts.items last }
    ensures picked { IfOk result (λ c. IsPicked rows.now plan.now.starts.items c.steps.items) }
    ensures weight { IfOk result (λ c. weight_of c.steps.items ≡ end_of rows.now plan.now.starts.items last) }
{
    // Each step goes back to a smaller row.
    let mut steps = Vec::with_capacity(alloc, last as usize + 1)?;
    steps.push_reserved(ChainStep {
        row: last,
        via: Via::Last,
        weight: rows.ticks(last as usize),
    });
    let mut row = last;
    while row > 0 {
        let step = step_before(rows, &plan.after, row);
        steps.push_reserved(step);
        row = step.row;
    }
    steps.reverse();
    Ok(Chain { steps })
}

// Returns the chain that costs as many ticks as the plan of the rows takes, and these ticks.
fn costliest(alloc: Global, rows: &SeenRows, plan: &Earliest) -> Result<(Chain, u64), AllocError>
    requires shape { IsRows rows.now }
    requires placed { IsPlanOf rows.now plan.now }
    ensures earliest { IfOk result (λ _. IsEarliest rows.now plan.now.starts.items) }
    ensures picked { IfOk result (λ c. IsPicked rows.now plan.now.starts.items c.0.steps.items) }
    ensures weight { IfOk result (λ c. weight_of c.0.steps.items ≡ c.1) }
    ensures span { IfOk result (λ c. IsEnd rows.now plan.now.starts.items c.1) }
    ensures no_sooner { IfOk result (λ c. NoneEndsBefore rows.now c.1) }
    ensures short { IfOk result (λ c. length c.0.steps.items ≤ length rows.now) }
{
    let last = last_row(&plan.ends);
    let chain = chain_back(alloc, rows, plan, last as u32)?;
    Ok((chain, plan.ends[last]))
}

/// Returns the work of the rows, their earliest plan, and the costliest chain of rows.
///
/// A plan gives each row the tick at which it starts. It keeps if no row starts before its parent's start and
/// its offset, nor before the end of a row with a smaller number that shares a cown with it. The earliest plan
/// keeps and starts each row as early as any plan that keeps; the span is its end. The chain leads back from
/// the row that ends last, of several the smallest, by the links that are tight in that plan: the spawn where that
/// is tight, else the lowest row whose end the row waited for.
///
/// With exclusive cowns two rows that share one are ordered; with shared reads only where one of them wrote it.
///
/// It takes memory and time that grow with the number of rows and their cowns. `AllocError` says that memory was
/// refused.
pub fn profile(alloc: Global, rows: &Rows, sharing: Sharing) -> Result<Profile, AllocError>
    ensures { IfOk result (λ profile. IsProfileOf (seen sharing rows.now) profile) }
{
    let rows = SeenRows::new(rows, sharing);
    plan_of(alloc, &rows)?.into_profile(alloc, &rows)
}

impl Earliest {
    /// Returns the profile of the rows that this plan places, as the function `profile` has it. No row is placed again.
    ///
    /// It takes memory and time that grow with the number of rows. `AllocError` says that memory was refused.
    pub fn profile(&self, alloc: Global, rows: &SeenRows) -> Result<Profile, AllocError>
        requires shape { IsRows rows.now }
        requires placed { IsPlanOf rows.now self.now }
        ensures { IfOk result (λ profile. IsProfileOf rows.now profile) }
    {
        let (chain, span) = costliest(alloc, rows, self)?;
        Ok(Profile {
            work: work_between(&self.starts, &self.ends),
            span,
            starts: Vec::from_slice(alloc, &self.starts)?,
            ends: Vec::from_slice(alloc, &self.ends)?,
            chain,
        })
    }

    /// Returns the profile as `Earliest::profile` has it, for a caller who needs the plan no more: its starts and ends are taken over, and not copied.
    /// `AllocError` says that memory was refused, and then the plan is gone.
    pub fn into_profile(self, alloc: Global, rows: &SeenRows) -> Result<Profile, AllocError>
        requires shape { IsRows rows.now }
        requires placed { IsPlanOf rows.now self }
        ensures { IfOk result (λ profile. IsProfileOf rows.now profile) }
    {
        let (chain, span) = costliest(alloc, rows, &self)?;
        Ok(Profile {
            work: work_between(&self.starts, &self.ends),
            span,
            starts: self.starts,
            ends: self.ends,
            chain,
        })
    }
}
