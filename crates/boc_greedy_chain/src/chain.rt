// The chain of a greedy plan.

ghost use Rattle.std.specs.Prelude.{◌≡◌, ℕ, ◌+◌, ◌<◌, ◌≤◌, length, min, IfOk, slice_index};
ghost use Rattle.std.specs.List.{Contains, sum_by};
ghost use Rattle.std.specs.Option.{option_map_or};
ghost use Rattle.boc_runs.specs.Rows.{IsRows, ticks_of};
ghost use Rattle.boc_order.specs.Waits.{AreWaits};
ghost use Rattle.boc_greedy.specs.Plans.{IsGreedyPlanOf};
ghost use Rattle.boc_greedy_chain.specs.GreedyChains.{ArePredecessors, IsFirstAt, IsGreedyChain, IsLeastEnding, IsTiedTo};

use crate::takes::predecessors;
use boc_greedy::Greedy;
use boc_order::{Links, spawned_at};
use boc_plans::sharing::SeenRows;
use std::alloc::{AllocError, Global};

/// What ties a step of a greedy plan's chain to the next one.
#[derive(Clone, Copy, PartialEq, Eq, Debug)]
pub enum Tie {
    /// The next row is a child of this one.
    Spawn,
    /// The next row comes after this one, and shares a cown with it.
    Order,
    /// The next row takes over the worker of this one.
    Worker,
    /// There is no next row.
    Last,
}

/// A step of a greedy plan's chain.
#[derive(Clone, Copy, PartialEq, Eq, Debug)]
pub struct GreedyStep {
    /// The number of the row.
    pub row: u32,
    /// The tie to the next step.
    pub tie: Tie,
    /// The ticks that the tie takes: for a spawn the offset of the next row, else the row's own ticks.
    pub weight: u32,
}

// Returns the number of the first row that ends at a tick.
fn first_ending(ends: &[u64], tick: u64) -> usize
    requires { (r : ℕ) × (r < length ends.now) × (slice_index ends.now r ≡ tick) }
    ensures { IsFirstAt ends.now tick result }
{
    let mut row = 0;
    while ends[row] != tick {
        row += 1;
    }
    row
}

// Returns the lower of a row and the one that was found before, if any.
fn lower(found: Option<u32>, row: u32) -> u32
    ensures { result ≡ option_map_or (λ other. min other row) found row }
{
    match found {
        Some(found) => found.min(row),
        None => row,
    }
}

// Returns the lowest of these rows that ends at a tick, if any does.
fn lowest_ending(rows: &[u32], ends: &[u64], tick: u64) -> Option<u32>
    requires there { (a : ℕ) → Contains rows.now a → a < length ends.now }
    ensures { IsLeastEnding rows.now ends.now tick result }
{
    let mut found = None;
    for row in rows {
        if ends[*row as usize] == tick {
            found = Some(lower(found, *row));
        }
    }
    found
}

// Returns the step of a row that ends when the next one starts.
fn step_of(rows: &SeenRows, row: u32, tie: Tie) -> GreedyStep
    requires { row < length rows.now }
    ensures row { result.row ≡ row }
    ensures tie { result.tie ≡ tie }
    ensures weight { result.weight ≡ ticks_of rows.now row }
{
    GreedyStep {
        row,
        tie,
        weight: rows.ticks(row as usize),
    }
}

// Returns the step before a row other than main. It is the spawn of the row, where the row starts as soon as it is spawned. Else it is the lowest of the rows
// that it waits for that ends when it starts. Else it is the row that has its worker before it, which `before` has for each row.
fn step_before(
    rows: &SeenRows,
    waits: &Links,
    plan: &Greedy,
    before: &[Option<u32>],
    row: u32,
) -> GreedyStep
    requires shape { IsRows rows.now }
    requires waits { AreWaits rows.now waits.now }
    requires plan { (p : ℕ) × IsGreedyPlanOf rows.now p plan.now }
    requires before { ArePredecessors plan.now.starts.items plan.now.workers.items before.now }
    requires child { 0 < row }
    requires there { row < length rows.now }
    ensures { IsTiedTo rows.now plan.now.starts.items plan.now.workers.items result row }
{
    let place = row as usize;
    let start = plan.starts[place];
    if spawned_at(rows, place, &plan.starts) == start {
        return GreedyStep {
            row: rows.parent(place),
            tie: Tie::Spawn,
            weight: rows.offset(place),
        };
    }
    match (
        lowest_ending(waits.of(place), &plan.ends, start),
        before[place],
    ) {
        (Some(ended), _) => step_of(rows, ended, Tie::Order),
        (None, Some(ended)) => step_of(rows, ended, Tie::Worker),
        (None, None) => unreachable!(),
    }
}

/// Returns the chain of a greedy plan of some rows, from main to the row that ends last, of several the lowest. Back from there, each row started when it was
/// spawned; else when a row ended that it is ordered after, of several the lowest; else when the row ended that had its worker before it. The weights add up
/// to the end of the plan. `waits` has the rows that each row waits for. `AllocError` says that memory was refused.
///
/// It takes memory that grows with the number of rows, and little more time.
pub fn greedy_chain(
    alloc: Global,
    rows: &SeenRows,
    waits: &Links,
    plan: &Greedy,
) -> Result<Vec<GreedyStep>, AllocError>
    requires shape { IsRows rows.now }
    requires waits { AreWaits rows.now waits.now }
    requires plan { (p : ℕ) × IsGreedyPlanOf rows.now p plan.now }
    ensures chain { IfOk result (λ steps. IsGreedyChain rows.now plan.now.starts.items plan.now.workers.items steps.items) }
    ensures adds_up { IfOk result (λ steps. sum_by (λ s. s.weight) steps.items ≡ plan.now.ends_at) }
{
    let before = predecessors(alloc, &plan.starts, &plan.workers, plan.p)?;
    let mut row = first_ending(&plan.ends, plan.ends_at) as u32;
    let mut steps = Vec::new(alloc);
    steps.push(step_of(rows, row, Tie::Last))?;
    while row > 0 {
        let step = step_before(rows, waits, plan, &before, row);
        steps.push(step)?;
        row = step.row;
    }
    steps.reverse();
    Ok(steps)
}
