// For each cown what some numbers add up to.

ghost use Rattle.std.specs.Prelude.{◌≡◌, ℕ, ◌+◌, ◌*◌, ◌<◌, ◌≤◌, ◌^◌, length, cond, nat_eq, IfOk, slice_index};
ghost use Rattle.std.specs.List.{list_any};
ghost use Rattle.std.specs.List.Sorted.{IsStrictlyIncreasing};
ghost use Rattle.boc_program.specs.declared.limits.TheConstants.{MOST_COWNS, MOST_ROWS};
ghost use Rattle.boc_runs.specs.Rows.{IsRows, cowns_of, written_of};
ghost use Rattle.boc_plans.specs.Chains.{IsChain};
ghost use Rattle.boc_order.specs.Standing.{IsPlanOf};
ghost use Rattle.boc_order.specs.Least.{wrote_cown};
ghost use Rattle.boc_cowns.specs.Hot.{has_cown, one, step_hands, wait_of, waits_over, weight_at};
ghost use Rattle.boc_cowns.specs.Columns.{AreSums};

use boc_order::{Earliest, handed, spawned_at};
use boc_plans::chain::{ChainStep, Via};
use boc_plans::sharing::SeenRows;
use boc_program::held::HeldCowns;
use boc_program::limits::MOST_COWNS;
use boc_program::short::HeldCown;
use boc_runs::rows::Row;
use std::alloc::{AllocError, Global};

// Adds ticks to the totals of some cowns.
fn add(totals: &mut [u64], cowns: &[HeldCown], ticks: u64)
    requires whole { length totals.old ≡ MOST_COWNS }
    requires rise { IsStrictlyIncreasing cowns.now }
    requires room { (cown : ℕ) → cown < MOST_COWNS → slice_index totals.old cown + ticks < 2 ^ 64 }
    ensures whole { length totals.new ≡ MOST_COWNS }
    ensures each { (cown : ℕ) → cown < MOST_COWNS
        → slice_index totals.new cown ≡ slice_index totals.old cown + cond (list_any (nat_eq cown) cowns.now) ticks 0 }
{
    for cown in cowns {
        totals[*cown as usize] += ticks;
    }
}

// Returns the cowns of a row.
fn cowns_at(rows: &[Row], row: usize) -> &[HeldCown]
    requires { row < length rows.now }
    ensures { result.now ≡ cowns_of rows.now row }
{
    rows[row].cowns.as_slice()
}

// Returns those of its cowns that a row wrote.
fn written_at(rows: &[Row], row: usize) -> &[HeldCown]
    requires { row < length rows.now }
    ensures { result.now ≡ written_of rows.now row }
{
    rows[row].written.as_slice()
}

// Counts the next row for each cown that it has.
fn count_row(rows: &[Row], row: usize, totals: &mut [u64])
    requires shape { IsRows rows.now }
    requires there { row < length rows.now }
    requires sums { AreSums (has_cown rows.now) one row totals.old }
    ensures { AreSums (has_cown rows.now) one (row + 1) totals.new }
{
    add(totals, cowns_at(rows, row), 1);
}

/// Returns for each cown how many rows have it. `AllocError` says that memory was refused.
pub(crate) fn row_counts(alloc: Global, rows: &[Row]) -> Result<Vec<u64>, AllocError>
    requires { IsRows rows.now }
    ensures { IfOk result (λ totals. AreSums (has_cown rows.now) one (length rows.now) totals.items) }
{
    let mut totals = vec![in alloc; 0; MOST_COWNS]?;
    for row in 0..rows.len() {
        count_row(rows, row, &mut totals);
    }
    Ok(totals)
}

// Counts the next row for each cown that it wrote.
fn count_writer(rows: &[Row], row: usize, totals: &mut [u64])
    requires shape { IsRows rows.now }
    requires there { row < length rows.now }
    requires sums { AreSums (wrote_cown rows.now) one row totals.old }
    ensures { AreSums (wrote_cown rows.now) one (row + 1) totals.new }
{
    add(totals, written_at(rows, row), 1);
}

/// Returns for each cown how many rows wrote it. `AllocError` says that memory was refused.
pub(crate) fn writer_counts(alloc: Global, rows: &[Row]) -> Result<Vec<u64>, AllocError>
    requires { IsRows rows.now }
    ensures { IfOk result (λ totals. AreSums (wrote_cown rows.now) one (length rows.now) totals.items) }
{
    let mut totals = vec![in alloc; 0; MOST_COWNS]?;
    for row in 0..rows.len() {
        count_writer(rows, row, &mut totals);
    }
    Ok(totals)
}

// Returns the ticks from the spawn of a row to its start.
fn wait_of(rows: &SeenRows, plan: &Earliest, row: usize) -> u64
    requires shape { IsRows rows.now }
    requires placed { IsPlanOf rows.now plan.now }
    requires there { row < length rows.now }
    requires child { 0 < row }
    ensures { result ≡ wait_of rows.now plan.now.starts.items row }
{
    plan.starts[row].saturating_sub(spawned_at(rows, row, &plan.starts))
}

// Returns the cowns that are handed to a row by the row whose end it waits for, if any.
fn handed_to(rows: &SeenRows, plan: &Earliest, row: usize) -> HeldCowns
    requires shape { IsRows rows.now }
    requires placed { IsPlanOf rows.now plan.now }
    requires there { row < length rows.now }
    requires child { 0 < row }
    ensures rise { IsStrictlyIncreasing result.items }
    ensures each { (cown : ℕ) → list_any (nat_eq cown) result.items ≡ waits_over rows.now plan.now.after.items cown row }
{
    match plan.after[row] {
        Some(before) => handed(rows, before as usize, row),
        None => HeldCowns::new(),
    }
}

// Adds what the next row waits for each cown that it waits for.
fn add_wait(rows: &SeenRows, plan: &Earliest, row: usize, totals: &mut [u64])
    requires shape { IsRows rows.now }
    requires placed { IsPlanOf rows.now plan.now }
    requires there { row < length rows.now }
    requires child { 0 < row }
    requires sums { AreSums (waits_over rows.now plan.now.after.items) (wait_of rows.now plan.now.starts.items) row totals.old }
    ensures { AreSums (waits_over rows.now plan.now.after.items) (wait_of rows.now plan.now.starts.items) (row + 1) totals.new }
{
    let wait = wait_of(rows, plan, row);
    let cowns = handed_to(rows, plan, row);
    add(totals, cowns.as_slice(), wait);
}

/// Returns for each cown the ticks for which rows wait for it. `AllocError` says that memory was refused.
pub(crate) fn waits_of(
    alloc: Global,
    rows: &SeenRows,
    plan: &Earliest,
) -> Result<Vec<u64>, AllocError>
    requires shape { IsRows rows.now }
    requires placed { IsPlanOf rows.now plan.now }
    ensures { IfOk result (λ totals. AreSums (waits_over rows.now plan.now.after.items) (wait_of rows.now plan.now.starts.items) (length rows.now)
        totals.items) }
{
    let mut totals = vec![in alloc; 0; MOST_COWNS]?;
    for row in 1..rows.len() {
        add_wait(rows, plan, row, &mut totals);
    }
    Ok(totals)
}

// Returns what a step of a chain weighs.
fn weight_at(steps: &[ChainStep], place: usize) -> u64
    requires { place < length steps.now }
    ensures is { result ≡ weight_at steps.now place }
    ensures low { result < 2 ^ 32 }
{
    u64::from(steps[place].weight)
}

// Returns the cowns that a step of a chain hands to the step after it.
fn handed_by(rows: &SeenRows, steps: &[ChainStep], place: usize) -> HeldCowns
    requires shape { IsRows rows.now }
    requires chain { IsChain rows.now steps.now }
    requires there { place < length steps.now }
    ensures rise { IsStrictlyIncreasing result.items }
    ensures each { (cown : ℕ) → list_any (nat_eq cown) result.items ≡ step_hands rows.now steps.now cown place }
{
    if place + 1 == steps.len() {
        return HeldCowns::new();
    }
    match steps[place].via {
        Via::Order => handed(
            rows,
            steps[place].row as usize,
            steps[place + 1].row as usize,
        ),
        Via::Spawn | Via::Last => HeldCowns::new(),
    }
}

// Adds what a step of a chain weighs for each cown that it hands on.
fn add_step(rows: &SeenRows, steps: &[ChainStep], place: usize, totals: &mut [u64])
    requires shape { IsRows rows.now }
    requires chain { IsChain rows.now steps.now }
    requires few { length steps.now ≤ MOST_ROWS }
    requires there { place < length steps.now }
    requires sums { AreSums (step_hands rows.now steps.now) (weight_at steps.now) place totals.old }
    ensures { AreSums (step_hands rows.now steps.now) (weight_at steps.now) (place + 1) totals.new }
{
    let cowns = handed_by(rows, steps, place);
    add(totals, cowns.as_slice(), weight_at(steps, place));
}

/// Returns for each cown the ticks of a chain that hand it on. `AllocError` says that memory was refused.
pub(crate) fn chain_ticks(
    alloc: Global,
    rows: &SeenRows,
    steps: &[ChainStep],
) -> Result<Vec<u64>, AllocError>
    requires shape { IsRows rows.now }
    requires chain { IsChain rows.now steps.now }
    requires few { length steps.now ≤ MOST_ROWS }
    ensures { IfOk result (λ totals. AreSums (step_hands rows.now steps.now) (weight_at steps.now) (length steps.now) totals.items) }
{
    let mut totals = vec![in alloc; 0; MOST_COWNS]?;
    for place in 0..steps.len() {
        add_step(rows, steps, place, &mut totals);
    }
    Ok(totals)
}
