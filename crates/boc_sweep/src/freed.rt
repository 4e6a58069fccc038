// The spans that a run would have if one cown after another imposed no order.

ghost use Rattle.std.specs.Prelude.{◌≡◌, ℕ, ◌<◌, ◌≤◌, ◌+◌, ◌*◌, length, if◌then◌else◌, All, IfOk, slice_index, Contains};
ghost use Rattle.std.specs.List.{AllZip};
ghost use Rattle.boc_runs.specs.Rows.{IsRows, parent_of, offset_of, cowns_of, written_of};
ghost use Rattle.boc_runs.specs.Changes.{without};
ghost use Rattle.boc_plans.specs.Greedy.{IsSpan};
ghost use Rattle.boc_plans.specs.Edits.{IsCownSweep};
ghost use Rattle.boc_sweep.specs.Freed.{IsStartBut, HasPlaced, HasWaited, AreRaised, IsFreed, TellWritten, TellsWritten, in_lane};
ghost use Rattle.boc_sweep.specs.Passes.{AreSpansOfGroup, AreSpansWithout, tick_at};

use crate::lanes::{LANES, Ticks, later, moved_on};
use crate::passes::Passes;
use boc_plans::sharing::SeenRows;
use boc_program::limits::MOST_COWNS;
use boc_program::short::HeldCown;
use rayon::prelude::*;
use std::alloc::{AllocError, Global};
use std::thread::Threads;

// The rows so far, as they are placed in each lane where the lane's own cown imposes no order.
#[derive(Drop)]
struct Placing {
    // The cown of each lane.
    cowns: [HeldCown; LANES],
    // The ticks at which each row starts.
    starts: Vec<Ticks>,
    // For each cown the latest ends of a row that needs it; 0 in its own lane.
    held: Vec<Ticks>,
    // For each cown the latest ends of a row that wrote it; 0 in its own lane.
    wrote: Vec<Ticks>,
    // The latest ends of all of them.
    latest: Ticks,
    // How many cowns they have, each for itself.
    passed: usize,
}

// Appends for each cown of a row, in their order, whether the row wrote it.
fn tell_written(rows: &SeenRows, row: usize, written: &mut Vec<bool>) -> Result<(), AllocError>
    requires shape { IsRows rows.now }
    requires there { row < length rows.now }
    requires before { TellWritten rows.now row written.old.items }
    ensures { IfOk result (λ _. TellWritten rows.now (row + 1) written.new.items) }
{
    for own in rows.cowns(row) {
        written.push(rows.writes(row, *own))?;
    }
    Ok(())
}

// Returns for each cown of each row, in their order, whether the row wrote it. `AllocError` says that memory was refused.
fn all_written(alloc: Global, rows: &SeenRows) -> Result<Vec<bool>, AllocError>
    requires shape { IsRows rows.now }
    ensures { IfOk result (λ written. TellWritten rows.now (length rows.now) written.items) }
{
    let mut written = Vec::new(alloc);
    for row in 0..rows.len() {
        tell_written(rows, row, &mut written)?;
    }
    Ok(written)
}

// A row needs its cowns until it ends. Those that it wrote no other row needs by then.
fn note_end(
    rows: &SeenRows,
    row: usize,
    written: &[bool],
    end: &Ticks,
    held: &mut [Ticks],
    wrote: &mut [Ticks],
)
    requires shape { IsRows rows.now }
    requires there { row < length rows.now }
    requires written { TellsWritten rows.now row written.now }
    requires held_whole { length held.old ≡ MOST_COWNS }
    requires wrote_whole { length wrote.old ≡ MOST_COWNS }
    requires waited { (lane : ℕ) → lane < LANES → HasWaited rows.now row (slice_index end.now lane) (in_lane lane held.old) (in_lane lane wrote.old) }
    ensures held { (lane : ℕ) → lane < LANES →
        AreRaised (Contains (cowns_of rows.now row)) (slice_index end.now lane) (in_lane lane held.old) (in_lane lane held.new) }
    ensures wrote { (lane : ℕ) → lane < LANES →
        AreRaised (Contains (written_of rows.now row)) (slice_index end.now lane) (in_lane lane wrote.old) (in_lane lane wrote.new) }
{
    for (place, own) in rows.cowns(row).iter().enumerate() {
        let cown = *own as usize;
        if written[place] {
            held[cown] = *end;
            wrote[cown] = *end;
        } else {
            let latest = later(end, &held[cown]);
            held[cown] = latest;
        }
    }
}

// In each lane the lane's own cown imposes no order, whichever row needed it.
fn set_free(cowns: &[HeldCown; LANES], ends: &mut [Ticks])
    requires { length ends.old ≡ MOST_COWNS }
    ensures { (lane : ℕ) → lane < LANES → IsFreed (slice_index cowns.now lane) (in_lane lane ends.old) (in_lane lane ends.new) }
{
    for lane in 0..LANES {
        let cown = cowns[lane] as usize;
        ends[cown][lane] = 0;
    }
}

impl Placing {
    // None of these rows is placed, and there is space for them. `AllocError` says that memory was refused.
    fn new(alloc: Global, rows: &SeenRows, cowns: [HeldCown; LANES]) -> Result<Placing, AllocError>
        ensures placed { IfOk result (HasPlaced rows.now 0) }
        ensures own { IfOk result (λ placing. placing.cowns ≡ cowns) }
    {
        Ok(Placing {
            cowns,
            starts: Vec::with_capacity(alloc, rows.len())?,
            held: vec![in alloc; [0; LANES]; MOST_COWNS]?,
            wrote: vec![in alloc; [0; LANES]; MOST_COWNS]?,
            latest: [0; LANES],
            passed: 0,
        })
    }

    // Returns the latest ends of a row before that a row waits for by one of its cowns: to write it, of those that need it, else of those that
    // wrote it.
    fn latest_on(&self, cown: HeldCown, writes: bool) -> &Ticks
        requires held { length self.now.held.items ≡ MOST_COWNS }
        requires wrote { length self.now.wrote.items ≡ MOST_COWNS }
        ensures { (lane : ℕ) → slice_index result.now lane
            ≡ (if writes then slice_index (in_lane lane self.now.held.items) cown else slice_index (in_lane lane self.now.wrote.items) cown) }
    {
        let held = &self.held[cown as usize];
        let wrote = &self.wrote[cown as usize];
        // Both are looked at, so that the choice needs no branch.
        if writes { held } else { wrote }
    }

    // Returns the ticks at which the next row is spawned.
    fn spawn_of(&self, rows: &SeenRows, row: usize) -> Ticks
        requires shape { IsRows rows.now }
        requires there { row < length rows.now }
        requires placed { HasPlaced rows.now row self.now }
        ensures main { row ≡ 0 → (lane : ℕ) → lane < LANES → slice_index result lane ≡ 0 }
        ensures child { 0 < row → (lane : ℕ) → lane < LANES →
            slice_index result lane ≡ slice_index (in_lane lane self.now.starts.items) (parent_of rows.now row) + offset_of rows.now row }
    {
        if row == 0 {
            [0; LANES]
        } else {
            moved_on(&self.starts[rows.parent(row) as usize], rows.offset(row))
        }
    }

    // Returns the ticks at which the next row starts.
    fn start_of(&self, rows: &SeenRows, row: usize, written: &[bool]) -> Ticks
        requires shape { IsRows rows.now }
        requires there { row < length rows.now }
        requires written { TellsWritten rows.now row written.now }
        requires placed { HasPlaced rows.now row self.now }
        ensures { (lane : ℕ) → lane < LANES →
            IsStartBut (slice_index self.now.cowns lane) rows.now (in_lane lane self.now.starts.items) row (slice_index result lane) }
    {
        let mut start = self.spawn_of(rows, row);
        for (place, own) in rows.cowns(row).iter().enumerate() {
            start = later(self.latest_on(*own, written[place]), &start);
        }
        start
    }

    // Places the next row.
    fn place_next(&mut self, rows: &SeenRows, row: usize, written: &[bool])
        requires shape { IsRows rows.now }
        requires there { row < length rows.now }
        requires written { TellWritten rows.now (length rows.now) written.now }
        requires placed { HasPlaced rows.now row self.old }
        ensures placed { HasPlaced rows.now (row + 1) self.new }
        ensures own { self.new.cowns ≡ self.old.cowns }
    {
        let own = &written[self.passed..];
        let start = self.start_of(rows, row, own);
        let end = moved_on(&start, rows.ticks(row));
        self.starts.push_reserved(start);
        note_end(rows, row, own, &end, &mut self.held, &mut self.wrote);
        set_free(&self.cowns, &mut self.held);
        set_free(&self.cowns, &mut self.wrote);
        self.latest = later(&end, &self.latest);
        self.passed += rows.cowns(row).len();
    }
}

// Returns the spans that the rows would have if these cowns imposed no order, one of them in each lane.
fn spans_without(
    alloc: Global,
    rows: &SeenRows,
    written: &[bool],
    cowns: [HeldCown; LANES],
) -> Result<Ticks, AllocError>
    requires shape { IsRows rows.now }
    requires written { TellWritten rows.now (length rows.now) written.now }
    ensures { IfOk result (λ spans. (lane : ℕ) → lane < LANES → IsSpan (without (slice_index cowns lane) rows.now) (slice_index spans lane)) }
{
    let mut placing = Placing::new(alloc, rows, cowns)?;
    for row in 0..rows.len() {
        placing.place_next(rows, row, written);
    }
    Ok(placing.latest)
}

// Returns the cowns of one group, one in each lane, and the last one of all once more where no other is left.
fn group_of(cowns: &[HeldCown], group: usize) -> [HeldCown; LANES]
    requires { group * LANES < length cowns.now }
    ensures { (lane : ℕ) → lane < LANES → group * LANES + lane < length cowns.now → slice_index result lane ≡ slice_index cowns.now (group * LANES + lane) }
{
    let own = &cowns[group * LANES..];
    let mut lanes = [own[own.len() - 1]; LANES];
    for lane in 0..LANES {
        if lane < own.len() {
            lanes[lane] = own[lane];
        }
    }
    lanes
}

// Returns the spans that the rows would have if one of these cowns after another imposed no order. Threads share out the groups.
fn group_spans(
    rt: &(impl Threads + Sync),
    alloc: Global,
    rows: &SeenRows,
    written: &[bool],
    cowns: &[HeldCown],
) -> Result<Vec<Ticks>, AllocError>
    requires shape { IsRows rows.now }
    requires written { TellWritten rows.now (length rows.now) written.now }
    ensures { IfOk result (λ found. AreSpansWithout rows.now cowns.now found.items) }
{
    (0..cowns.len().div_ceil(LANES))
        .into_par_iter()
        .with_min_len(1)
        .map(
            |group: usize| -> Result<Ticks, AllocError>
                requires { (group * LANES < length cowns.now) × IsRows rows.now × TellWritten rows.now (length rows.now) written.now }
                ensures { IfOk result (λ spans. AreSpansOfGroup rows.entry.now cowns.entry.now group spans) }
            { spans_without(alloc, rows, written, group_of(cowns, group)) },
        )
        .collect::<Result<Vec<Ticks>, AllocError>>(rt, alloc)?
}

// Returns what is at these places, where lane comes after lane and group after group.
fn all_at(alloc: Global, places: &[usize], found: &[Ticks]) -> Result<Vec<u64>, AllocError>
    requires { All (λ place. place < length found.now * LANES) places.now }
    ensures { IfOk result (λ spans. AllZip (λ place span. span ≡ tick_at found.now place) places.now spans.items) }
{
    let mut spans = Vec::with_capacity(alloc, places.len())?;
    for place in places {
        spans.push(found[*place / LANES][*place % LANES])?;
    }
    Ok(spans)
}

/// Returns for each of the given number of cowns the span that the rows would have if that cown imposed no order. `AllocError` says that memory was
/// refused.
///
/// A pass over the rows and their cowns is for four cowns, and takes memory that grows with the number of rows; the cowns that no row has
/// count as one. It is found once for all passes which rows wrote which of their cowns. Threads share out the passes.
pub fn cown_sweep(
    rt: &(impl Threads + Sync),
    alloc: Global,
    rows: &SeenRows,
    count: usize,
) -> Result<Vec<u64>, AllocError>
    requires shape { IsRows rows.now }
    requires few { count ≤ MOST_COWNS }
    ensures { IfOk result (λ spans. IsCownSweep rows.now count spans.items) }
{
    let written = all_written(alloc, rows)?;
    let passes = Passes::new(alloc, rows, count)?;
    let found = group_spans(rt, alloc, rows, &written, &passes.cowns)?;
    all_at(alloc, &passes.places, &found)
}
