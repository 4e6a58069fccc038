// The spans that a run would have with one row after another at its least ticks.

ghost use Rattle.std.specs.Prelude.{◌≡◌, ℕ, ◌<◌, ◌≤◌, ◌+◌, ◌*◌, Contains, length, IfOk, slice_index};
ghost use Rattle.boc_runs.specs.Rows.{IsRows};
ghost use Rattle.boc_plans.specs.Edits.{IsSweep, IsLeastSpan};
ghost use Rattle.boc_order.specs.Standing.{IsPlanOf};
ghost use Rattle.boc_order.specs.Waits.{AreWaits, HasWaits};
ghost use Rattle.boc_sweep.specs.Cuts.{first_cut, HasTails};
ghost use Rattle.boc_sweep.specs.Bases.{AreTopsOver, IsLeastBase, IsLeastLeft};
ghost use Rattle.boc_sweep.specs.Chosen.{AreChosen, AreCounted, AreParts, IsChoice, IsRead, IsReadable};
ghost use Rattle.boc_sweep.specs.Crossing.{AreCrossing, ArePushed, IsLatestEnd};
ghost use Rattle.boc_sweep.specs.Lasts.{HasLasts};

use crate::chosen::{Chosen, Parts};
use crate::lasts::least_ticks;
use crate::tails::{Tails, all_tails};
use crate::windows::{Stretch, all_tops};
use boc_order::{Earliest, Links};
use boc_plans::sharing::SeenRows;
use boc_program::limits::{MOST_ROWS, MOST_TICKS};
use rayon::prelude::*;
use std::alloc::{AllocError, Global};
use std::thread::Threads;

/// Where the cut of a row is.
#[derive(Clone, Copy)]
pub enum Cut {
    /// Just before the row's start.
    Before,
    /// Just after the row's start.
    Behind,
}

// The fewest rows that a thread is started for. The span of a row is found fast, so that as many rows as there can be make at most four
// pieces, and fewer than half as many stay in one.
const LEAST_PIECE: usize = MOST_ROWS / 4;

// The waits of a row with this tail, as stretches.
fn push_waits(
    waits: &[u32],
    row: u32,
    tail: u64,
    ends: &[u64],
    chosen: &Chosen,
    stretches: &mut Vec<Stretch>,
) -> Result<(), AllocError>
    requires there { row < length chosen.now.before.items }
    requires before { (a : ℕ) → Contains waits.now a → a < row × (a < length ends.now) }
    requires tail { tail ≤ MOST_ROWS * MOST_TICKS }
    requires low { (a : ℕ) → a < length ends.now → slice_index ends.now a ≤ MOST_ROWS * MOST_TICKS }
    ensures { IfOk result (λ _. ArePushed waits.now row tail ends.now chosen.now stretches.old.items (length waits.now) stretches.new.items) }
{
    for before in waits {
        chosen.push(*before + 1, row, ends[*before as usize] + tail, stretches)?;
    }
    Ok(())
}

// Returns the first row over whose cut a spawn by this row leads.
fn first_cut(cut: Cut, parent: u32) -> u32
    requires { parent < MOST_ROWS }
    ensures { result ≡ first_cut cut parent }
{
    match cut {
        Cut::Before => parent + 1,
        Cut::Behind => parent,
    }
}

// The links to a row, as stretches of the rows over whose cuts they lead.
fn push_links(
    rows: &SeenRows,
    row: usize,
    waits: &[u32],
    plan: &Earliest,
    tails: &Tails,
    cut: Cut,
    chosen: &Chosen,
    stretches: &mut Vec<Stretch>,
) -> Result<(), AllocError>
    requires shape { IsRows rows.now }
    requires there { row < length rows.now }
    requires waits { HasWaits rows.now row waits.now }
    requires placed { IsPlanOf rows.now plan.now }
    requires tails { HasTails rows.now tails.now.starts.items tails.now.ends.items }
    requires counted { AreCounted (length rows.now) chosen.now }
    requires crossing { AreCrossing cut rows.now plan.now.starts.items tails.now.starts.items chosen.now row stretches.old.items }
    ensures { IfOk result (λ _. AreCrossing cut rows.now plan.now.starts.items tails.now.starts.items chosen.now (row + 1) stretches.new.items) }
{
    let parent = rows.parent(row);
    let tail = tails.starts[row];
    let value = plan.starts[parent as usize] + u64::from(rows.offset(row)) + tail;
    chosen.push(first_cut(cut, parent), row as u32, value, stretches)?;
    push_waits(waits, row as u32, tail, &plan.ends, chosen, stretches)?;
    Ok(())
}

// Returns the links that lead over the cuts of chosen rows, as stretches of these, but for links that are no heavier than the least base.
fn all_stretches(
    alloc: Global,
    rows: &SeenRows,
    waits: &Links,
    plan: &Earliest,
    tails: &Tails,
    cut: Cut,
    chosen: &Chosen,
) -> Result<Vec<Stretch>, AllocError>
    requires shape { IsRows rows.now }
    requires waits { AreWaits rows.now waits.now }
    requires placed { IsPlanOf rows.now plan.now }
    requires tails { HasTails rows.now tails.now.starts.items tails.now.ends.items }
    requires counted { AreCounted (length rows.now) chosen.now }
    ensures { IfOk result (λ s. AreCrossing cut rows.now plan.now.starts.items tails.now.starts.items chosen.now (length rows.now) s.items) }
{
    let mut stretches = Vec::new(alloc);
    for row in 0..rows.len() {
        push_links(
            rows,
            row,
            waits.of(row),
            plan,
            tails,
            cut,
            chosen,
            &mut stretches,
        )?;
    }
    Ok(stretches)
}

/// Returns for each chosen row the heaviest way over its cut by a spawn or a wait, or less if the least base is as heavy. `AllocError` says that memory
/// was refused.
pub fn tops_over(
    alloc: Global,
    rows: &SeenRows,
    waits: &Links,
    plan: &Earliest,
    tails: &Tails,
    cut: Cut,
    chosen: &Chosen,
) -> Result<Vec<u64>, AllocError>
    requires shape { IsRows rows.now }
    requires waits { AreWaits rows.now waits.now }
    requires placed { IsPlanOf rows.now plan.now }
    requires tails { HasTails rows.now tails.now.starts.items tails.now.ends.items }
    requires counted { AreCounted (length rows.now) chosen.now }
    ensures { IfOk result (λ tops. AreTopsOver cut rows.now plan.now.starts.items tails.now.starts.items chosen.now tops.items) }
{
    let stretches = all_stretches(alloc, rows, waits, plan, tails, cut, chosen)?;
    all_tops(alloc, &stretches, chosen.bases.len())
}

// Returns the heaviest way over a row's cut by the row itself at its least ticks, or by the end of an earlier row. `None` says that the span stays
// the same without the ticks that the row can lose.
fn least_base(
    rows: &SeenRows,
    plan: &Earliest,
    tails: &Tails,
    lasts: &[u32],
    row: usize,
    latest: u64,
) -> Option<u64>
    requires shape { IsRows rows.now }
    requires there { row < length rows.now }
    requires placed { IsPlanOf rows.now plan.now }
    requires tails { HasTails rows.now tails.now.starts.items tails.now.ends.items }
    requires lasts { HasLasts rows.now lasts.now }
    requires latest { IsLatestEnd rows.now plan.now.starts.items row latest }
    ensures { IsChoice (IsLeastLeft rows.now lasts.now plan.now.starts.items tails.now.starts.items tails.now.ends.items row)
        (IsLeastBase rows.now lasts.now plan.now.starts.items tails.now.ends.items row) result }
{
    let around = plan.starts[row] + tails.ends[row];
    let least = least_ticks(lasts[row]);
    let ticks = rows.ticks(row);
    if least < ticks && around + u64::from(ticks) >= tails.starts[0] {
        Some((around + u64::from(least)).max(latest))
    } else {
        None
    }
}

// Returns the rows whose ticks can change the span, each with its base.
fn chosen_rows(
    alloc: Global,
    rows: &SeenRows,
    plan: &Earliest,
    tails: &Tails,
    lasts: &[u32],
) -> Result<Chosen, AllocError>
    requires shape { IsRows rows.now }
    requires placed { IsPlanOf rows.now plan.now }
    requires tails { HasTails rows.now tails.now.starts.items tails.now.ends.items }
    requires lasts { HasLasts rows.now lasts.now }
    ensures { IfOk result (AreChosen (IsLeastLeft rows.now lasts.now plan.now.starts.items tails.now.starts.items tails.now.ends.items)
        (IsLeastBase rows.now lasts.now plan.now.starts.items tails.now.ends.items) (length rows.now)) }
{
    let mut chosen = Chosen::new(alloc, rows.len())?;
    let mut latest = 0;
    for row in 0..rows.len() {
        chosen.put(least_base(rows, plan, tails, lasts, row, latest));
        latest = plan.ends[row].max(latest);
    }
    Ok(chosen)
}

// Returns the spans. Threads share out the rows where these are enough for two pieces.
fn spans(
    rt: &(impl Threads + Sync),
    alloc: Global,
    rows: &SeenRows,
    parts: Parts<'_>,
) -> Result<Vec<u64>, AllocError>
    requires parts { AreParts (IsLeastSpan rows.now) (length rows.now) parts }
    ensures { IfOk result (λ s. IsSweep rows.now s.items) }
{
    (0..rows.len())
        .into_par_iter()
        .with_min_len(LEAST_PIECE)
        .map(
            |row: usize| -> u64
                requires { IsReadable parts row }
                ensures { IsRead parts.entry row result }
            { parts.span_of(row) },
        )
        .collect(rt, alloc)
}

/// Returns for each row the span that the rows would have if that row alone took the fewest ticks that it can, from the earliest
/// plan of the rows and the offsets of their last children. `AllocError` says that memory was refused.
///
/// It takes memory that grows with the number of rows and their cowns, and that much time with its logarithm too. What the spans are read
/// from is found on one thread; from 32,766 rows on, threads find the spans, at most four. What is answered is the same.
pub fn sweep(
    rt: &(impl Threads + Sync),
    alloc: Global,
    rows: &SeenRows,
    waits: &Links,
    plan: &Earliest,
    lasts: &[u32],
) -> Result<Vec<u64>, AllocError>
    requires shape { IsRows rows.now }
    requires waits { AreWaits rows.now waits.now }
    requires placed { IsPlanOf rows.now plan.now }
    requires lasts { HasLasts rows.now lasts.now }
    ensures { IfOk result (λ spans. IsSweep rows.now spans.items) }
{
    let tails = all_tails(alloc, rows, waits)?;
    let chosen = chosen_rows(alloc, rows, plan, &tails, lasts)?;
    let tops = tops_over(alloc, rows, waits, plan, &tails, Cut::Behind, &chosen)?;
    let parts = Parts {
        chosen: &chosen,
        tops: &tops,
        span: tails.starts[0],
    };
    spans(rt, alloc, rows, parts)
}
