// The earliest plan of some rows, with the link that each row waits for.

ghost use Rattle.std.specs.Prelude.{◌≡◌, ℕ, ◌<◌, ◌≤◌, ◌+◌, ◌^◌, List, [], length, take, IfOk, slice_index};
ghost use Rattle.boc_runs.specs.declared.rows.Row.{Row};
ghost use Rattle.boc_runs.specs.Rows.{IsRows, parent_of, offset_of};
ghost use Rattle.boc_plans.specs.Greedy.{IsSpan};
ghost use Rattle.boc_order.specs.Placed.{placement, ArePlaced};
ghost use Rattle.boc_order.specs.Room.{HasRoom};
ghost use Rattle.boc_order.specs.Standing.{IsPlanOf};
ghost use Rattle.boc_order.specs.Waits.{AreWaits, HasWaits};

use crate::gathering::{Gathering, gather, unused};
use crate::latest::{Latest, latest_of};
use crate::links::Links;
use boc_plans::sharing::SeenRows;
use std::alloc::{AllocError, Global};

/// The earliest plan.
#[derive(Drop)]
pub struct Earliest {
    /// The tick at which each row starts.
    pub starts: Vec<u64>,
    /// The tick at which each row ends.
    pub ends: Vec<u64>,
    /// The row whose end a row waits for, where that is later than its spawn.
    pub after: Vec<Option<u32>>,
}

// Returns the tick at which a row starts that is spawned at a tick, and the row whose end it waits for, if any. `busy` is
// the latest of the rows that are ordered before it.
fn earliest_start(spawned: u64, busy: Latest) -> (u64, Option<u32>)
    ensures { result ≡ placement spawned busy }
{
    if spawned < busy.end {
        (busy.end, Some(busy.row))
    } else {
        (spawned, None)
    }
}

/// Returns the tick at which a row is spawned, where rows start at these ticks: this many after its parent starts as it is offset, and 0 for main, which no
/// row spawns.
pub fn spawned_at(rows: &SeenRows, row: usize, starts: &[u64]) -> u64
    requires there { row < length rows.now }
    requires parent { 0 < row → parent_of rows.now row < length starts.now }
    requires low { 0 < row → slice_index starts.now (parent_of rows.now row) + offset_of rows.now row < 2 ^ 64 }
    ensures main { row ≡ 0 → result ≡ 0 }
    ensures child { 0 < row → result ≡ slice_index starts.now (parent_of rows.now row) + offset_of rows.now row }
{
    if row == 0 {
        0
    } else {
        starts[rows.parent(row) as usize] + u64::from(rows.offset(row))
    }
}

/// Returns the last of the ticks at which rows end. It takes no memory.
pub fn last_end(ends: &[u64]) -> u64
    requires { 0 < length ends.now }
    ensures none_later { (k : ℕ) → k < length ends.now → slice_index ends.now k ≤ result }
    ensures reached { (k : ℕ) × (k < length ends.now) × (slice_index ends.now k ≡ result) }
{
    ends.iter().copied().max().unwrap_or(0)
}

impl Earliest {
    /// Makes a plan in which no row is placed, with space for this many. `AllocError` says that memory was refused.
    pub fn with_room(alloc: Global, count: usize) -> Result<Earliest, AllocError>
        ensures none { IfOk result (λ e. (e.starts.items ≡ []) × (e.ends.items ≡ []) × (e.after.items ≡ [])) }
        ensures room { IfOk result (λ e. HasRoom e count) }
    {
        Ok(Earliest {
            starts: Vec::with_capacity(alloc, count)?,
            ends: Vec::with_capacity(alloc, count)?,
            after: Vec::with_capacity(alloc, count)?,
        })
    }

    /// Places the rows from a given one on again, where those before it are as they must be. It takes no memory.
    pub fn place_from(&mut self, rows: &SeenRows, waits: &Links, from: usize)
        requires shape { IsRows rows.now }
        requires waits { AreWaits rows.now waits.now }
        requires room { HasRoom self.old (length rows.now) }
        requires from { from ≤ length rows.now }
        requires before { ArePlaced rows.now (take from self.old.starts.items) (take from self.old.ends.items) (take from self.old.after.items) from }
        ensures placed { ArePlaced rows.now self.new.starts.items self.new.ends.items self.new.after.items (length rows.now) }
        ensures room { HasRoom self.new (length rows.now) }
    {
        self.starts.truncate(from);
        self.ends.truncate(from);
        self.after.truncate(from);
        for number in from..rows.len() {
            self.place_next(rows, number, waits.of(number));
        }
    }

    /// Returns the end of the plan in ticks, which is the span of the rows that it places. It takes no memory.
    pub fn span(&self) -> u64
        requires { 0 < length self.now.ends.items }
        ensures { (rows : List Row) → IsRows rows → IsPlanOf rows self.now → IsSpan rows result }
    {
        last_end(&self.ends)
    }

    // Places the next row, which waits for these, after those that are placed.
    fn place_next(&mut self, rows: &SeenRows, number: usize, waits: &[u32])
        requires shape { IsRows rows.now }
        requires there { number < length rows.now }
        requires waits { HasWaits rows.now number waits.now }
        requires room { HasRoom self.old (length rows.now) }
        requires placed { ArePlaced rows.now self.old.starts.items self.old.ends.items self.old.after.items number }
        ensures placed { ArePlaced rows.now self.new.starts.items self.new.ends.items self.new.after.items (number + 1) }
        ensures room { HasRoom self.new (length rows.now) }
    {
        let spawned = spawned_at(rows, number, &self.starts);
        let (start, waits_for) = earliest_start(spawned, latest_of(waits, &self.ends));
        self.starts.push_reserved(start);
        self.ends
            .push_reserved(start + u64::from(rows.ticks(number)));
        self.after.push_reserved(waits_for);
    }
}

/// Returns for each row the nearest rows that it waits for, and the earliest plan of the rows. Every other row that a row waits
/// for is before one of these. One may be twice where two cowns are in common.
///
/// There are at most twice as many links as the rows have cowns, and it takes memory and time that grow with the
/// number of rows and of these. `AllocError` says that memory was refused.
pub fn waits_and_plan(alloc: Global, rows: &SeenRows) -> Result<(Links, Earliest), AllocError>
    ensures shape { IsRows rows.now }
    ensures waits { IfOk result (λ found. AreWaits rows.now found.0) }
    ensures placed { IfOk result (λ found. IsPlanOf rows.now found.1) }
    ensures room { IfOk result (λ found. HasRoom found.1 (length rows.now)) }
{
    let mut plan = Earliest::with_room(alloc, rows.len())?;
    let mut gathering = Gathering::with_room(alloc, rows.len())?;
    for row in 0..rows.len() {
        gathering.gather_next(rows, row)?;
        plan.place_next(rows, row, gathering.last(row));
    }
    Ok((gathering.into_links(), plan))
}

/// Returns the earliest plan of the rows, each of which is placed as soon as it is known for which rows it waits. `AllocError`
/// says that memory was refused.
pub fn plan_of(alloc: Global, rows: &SeenRows) -> Result<Earliest, AllocError>
    ensures shape { IsRows rows.now }
    ensures placed { IfOk result (λ e. ArePlaced rows.now e.starts.items e.ends.items e.after.items (length rows.now)) }
    ensures room { IfOk result (λ e. HasRoom e (length rows.now)) }
{
    // A loop of its own apart from that of `waits_and_plan`: no link is kept beyond its row, so one list serves all rows.
    let mut plan = Earliest::with_room(alloc, rows.len())?;
    let mut uses = unused(alloc)?;
    let mut list = Vec::new(alloc);
    for row in 0..rows.len() {
        list.clear();
        gather(rows, row, &mut uses, &mut list)?;
        plan.place_next(rows, row, &list);
    }
    Ok(plan)
}
