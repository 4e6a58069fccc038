// The spans that a run would have with one row after another spawned as early as it can be.

ghost use Rattle.std.specs.Prelude.{◌≡◌, ℕ, ◌<◌, ◌≤◌, ◌*◌, Contains, length, IfOk, slice_index};
ghost use Rattle.boc_runs.specs.Rows.{IsRows};
ghost use Rattle.boc_plans.specs.Edits.{IsSpawnSweep, IsEarlySpan};
ghost use Rattle.boc_order.specs.Standing.{IsPlanOf};
ghost use Rattle.boc_order.specs.Waits.{AreWaits, HasWaits};
ghost use Rattle.boc_sweep.specs.Cuts.{HasTails};
ghost use Rattle.boc_sweep.specs.Bases.{IsEarlyBase, IsEarlyLeft};
ghost use Rattle.boc_sweep.specs.Chosen.{AreChosen, AreParts, IsChoice};
ghost use Rattle.boc_sweep.specs.Crossing.{IsLatestEnd};
ghost use Rattle.boc_sweep.specs.Spawns.{HasElders, IsReadyAt};

use crate::chosen::{Chosen, Parts};
use crate::sweeping::{Cut, tops_over};
use crate::tails::{Tails, all_tails};
use boc_order::{Earliest, Links};
use boc_plans::sharing::SeenRows;
use std::alloc::{AllocError, Global};

// Returns for each row the offset of its earlier sibling, and 0 for a row without one.
fn elder_offsets(alloc: Global, rows: &SeenRows) -> Result<Vec<u32>, AllocError>
    requires { IsRows rows.now }
    ensures { IfOk result (λ elders. HasElders rows.now elders.items) }
{
    let mut lasts = vec![in alloc; 0; rows.len()]?;
    let mut elders = Vec::with_capacity(alloc, rows.len())?;
    for row in 0..rows.len() {
        let parent = rows.parent(row) as usize;
        elders.push_reserved(lasts[parent]);
        lasts[parent] = rows.offset(row);
    }
    Ok(elders)
}

// Returns the tick by which a spawn has come and the rows that are waited for have ended.
fn ready_at(spawned: u64, waits: &[u32], ends: &[u64]) -> u64
    requires { (a : ℕ) → Contains waits.now a → a < length ends.now }
    ensures { IsReadyAt spawned waits.now ends.now result }
{
    let mut tick = spawned;
    for before in waits {
        tick = ends[*before as usize].max(tick);
    }
    tick
}

// Returns the heaviest way over the cut before a row's start by the row itself, spawned as early as it can be, or by the end of an earlier row. `None`
// says that the span stays the same if the row is spawned earlier.
fn early_base(
    rows: &SeenRows,
    plan: &Earliest,
    tails: &Tails,
    elders: &[u32],
    row: usize,
    waits: &[u32],
    latest: u64,
) -> Option<u64>
    requires shape { IsRows rows.now }
    requires there { row < length rows.now }
    requires waits { HasWaits rows.now row waits.now }
    requires placed { IsPlanOf rows.now plan.now }
    requires tails { HasTails rows.now tails.now.starts.items tails.now.ends.items }
    requires elders { HasElders rows.now elders.now }
    requires latest { IsLatestEnd rows.now plan.now.starts.items row latest }
    ensures { IsChoice (IsEarlyLeft rows.now elders.now plan.now.starts.items tails.now.starts.items row)
        (IsEarlyBase rows.now elders.now plan.now.starts.items plan.now.ends.items tails.now.starts.items row) result }
{
    let start = plan.starts[rows.parent(row) as usize];
    let tail = tails.starts[row];
    let offset = rows.offset(row);
    let least = elders[row] + 1;
    if least < offset && start + u64::from(offset) + tail >= tails.starts[0] {
        let ready = ready_at(start + u64::from(least), waits, &plan.ends);
        Some((ready + tail).max(latest))
    } else {
        None
    }
}

// Returns the rows whose spawns can change the span, each with its base.
fn chosen_rows(
    alloc: Global,
    rows: &SeenRows,
    waits: &Links,
    plan: &Earliest,
    tails: &Tails,
    elders: &[u32],
) -> Result<Chosen, AllocError>
    requires shape { IsRows rows.now }
    requires waits { AreWaits rows.now waits.now }
    requires placed { IsPlanOf rows.now plan.now }
    requires tails { HasTails rows.now tails.now.starts.items tails.now.ends.items }
    requires elders { HasElders rows.now elders.now }
    ensures { IfOk result (AreChosen (IsEarlyLeft rows.now elders.now plan.now.starts.items tails.now.starts.items)
        (IsEarlyBase rows.now elders.now plan.now.starts.items plan.now.ends.items tails.now.starts.items) (length rows.now)) }
{
    let mut chosen = Chosen::new(alloc, rows.len())?;
    let mut latest = 0;
    for row in 0..rows.len() {
        chosen.put(early_base(rows, plan, tails, elders, row, waits.of(row), latest));
        latest = plan.ends[row].max(latest);
    }
    Ok(chosen)
}

// Returns the spans.
fn spans(alloc: Global, rows: &SeenRows, parts: Parts<'_>) -> Result<Vec<u64>, AllocError>
    requires shape { IsRows rows.now }
    requires parts { AreParts (λ row span. 0 < row → IsEarlySpan rows.now row span) (length rows.now) parts }
    ensures { IfOk result (λ s. IsSpawnSweep rows.now s.items) }
{
    let mut spans = Vec::with_capacity(alloc, rows.len())?;
    for row in 1..rows.len() {
        spans.push_reserved(parts.span_of(row));
    }
    Ok(spans)
}

/// Returns for each row but main the span that the rows would have if that row alone were spawned as early as it can be, from the
/// earliest plan of the rows: one tick after its earlier sibling's offset, or at its parent's tick 1. `AllocError` says that
/// memory was refused.
///
/// It takes memory that grows with the number of rows and their cowns, and that much time with its logarithm too.
pub fn spawn_sweep(
    alloc: Global,
    rows: &SeenRows,
    waits: &Links,
    plan: &Earliest,
) -> Result<Vec<u64>, AllocError>
    requires shape { IsRows rows.now }
    requires waits { AreWaits rows.now waits.now }
    requires placed { IsPlanOf rows.now plan.now }
    ensures { IfOk result (λ spans. IsSpawnSweep rows.now spans.items) }
{
    let tails = all_tails(alloc, rows, waits)?;
    let elders = elder_offsets(alloc, rows)?;
    let chosen = chosen_rows(alloc, rows, waits, plan, &tails, &elders)?;
    let tops = tops_over(alloc, rows, waits, plan, &tails, Cut::Before, &chosen)?;
    let parts = Parts {
        chosen: &chosen,
        tops: &tops,
        span: tails.starts[0],
    };
    spans(alloc, rows, parts)
}
