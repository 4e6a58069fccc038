// The greedy plan, one start after another.

ghost use Rattle.std.specs.Prelude.{◌≡◌, ◌⊎◌, ℕ, ◌^◌, ◌<◌, ◌≤◌, List, length, slice_index, Some, None, IfOk, IfSome, IfNone, OnOk};
ghost use Rattle.std.specs.List.{Contains};
ghost use Rattle.std.specs.BinaryHeap.{heap_items, IsHeap};
ghost use Rattle.boc_program.specs.declared.limits.TheConstants.{MOST_WORKERS};
ghost use Rattle.boc_runs.specs.Rows.{IsRows};
ghost use Rattle.boc_plans.specs.Plans.{start_of, IsChild};
ghost use Rattle.boc_greedy.specs.Queues.{entry_order, IsIn};
ghost use Rattle.boc_greedy.specs.Simulating.{later};
ghost use Rattle.boc_used_greedy.specs.Holds.{HasHolds};
ghost use Rattle.boc_used_greedy.specs.Users.{AreUsers};
ghost use Rattle.boc_used_greedy.specs.Ready.{IsReadyBy};
ghost use Rattle.boc_used_greedy.specs.Fronts.{AreFronts, AreNewlyTold, AreRowsOf, Has, IsLowPlan, IsOneMore};
ghost use Rattle.boc_used_greedy.specs.Ends.{IsEndOf};
ghost use Rattle.boc_used_greedy.specs.Plans.{IsFinished, IsIdle, IsLeastRow, IsLow, IsMade};
ghost use Rattle.boc_used_greedy.specs.Plans.{IsNextStart, IsPlaced, IsQueuedMore, IsReady, NotStarted, row_order, unstarted_of};

use crate::fronts::{Front, LATER, first_fronts, go_on};
use crate::holds::Holds;
use crate::queues::{Ready, Waiting, first_by, gather, least_of, next_due, next_ready};
use crate::ready::ready_at;
use crate::users::Users;
use boc_plans::sharing::SeenRows;
use std::alloc::{AllocError, Global};
use std::cmp::Reverse;
use std::collections::BinaryHeap;

/// A greedy plan as far as it is made.
#[derive(Drop)]
pub(crate) struct Plan {
    // The tick at which each row starts, or a later one than any.
    pub(crate) starts: Vec<u64>,
    // The worker that each row is on.
    workers: Vec<u32>,
    // How far each cown has come.
    pub(crate) fronts: Vec<Front>,
    // When each worker is free.
    free: Vec<u64>,
    // The rows of which it is known when they are ready, and that aren't yet.
    waiting: Waiting,
    // The rows that are ready.
    ready: Ready,
    // The tick of the last start.
    tick: u64,
}

// Takes on the cowns of a row that has just started, and notes the rows to which it is newly known when one of them comes.
fn take_on(
    rows: &SeenRows,
    holds: &Holds,
    users: &Users,
    starts: &[u64],
    row: u32,
    fronts: &mut [Front],
    list: &mut Vec<u32>,
) -> Result<(), AllocError>
    requires shape { IsRows rows.now }
    requires holds { HasHolds rows.now holds.now }
    requires users { AreUsers rows.now users.now }
    requires there { row < length rows.now }
    requires whole { length starts.now ≡ length rows.now }
    requires low { IsLowPlan rows.now starts.now }
    requires before { (plan : List ℕ) × AreFronts rows.now holds.now.all.items plan fronts.old × IsOneMore plan row starts.now }
    requires rows { AreRowsOf rows.now list.old.items }
    ensures fronts { IfOk result (λ _. AreFronts rows.now holds.now.all.items starts.now fronts.new) }
    ensures told { IfOk result (λ _. AreNewlyTold rows.now holds.now.all.items starts.now fronts.old fronts.new list.new.items) }
    ensures rows { IfOk result (λ _. AreRowsOf rows.now list.new.items) }
{
    for own in rows.cowns(row as usize) {
        let front = fronts[*own as usize];
        fronts[*own as usize] = go_on(rows, holds, users, starts, *own, &front, list)?;
    }
    Ok(())
}

// Notes the children of a row.
fn note_children(
    rows: &SeenRows,
    users: &Users,
    row: u32,
    list: &mut Vec<u32>,
) -> Result<(), AllocError>
    requires users { AreUsers rows.now users.now }
    requires there { row < length rows.now }
    requires rows { AreRowsOf rows.now list.old.items }
    ensures has { IfOk result (λ _. Has list.new.items list.old.items) }
    ensures children { IfOk result (λ _. (b : ℕ) → IsChild rows.now row b → Contains list.new.items b) }
    ensures rows { IfOk result (λ _. AreRowsOf rows.now list.new.items) }
{
    let mut child = users.first_child[row as usize];
    while (child as usize) < rows.len() {
        list.push(child)?;
        child = users.next_child[child as usize];
    }
    Ok(())
}

// Has those of these rows wait for which it is known when they are ready, and that haven't started.
fn queue_known(
    rows: &SeenRows,
    holds: &Holds,
    starts: &[u64],
    fronts: &[Front],
    list: &[u32],
    waiting: &mut Waiting,
) -> Result<(), AllocError>
    requires shape { IsRows rows.now }
    requires holds { HasHolds rows.now holds.now }
    requires whole { length starts.now ≡ length rows.now }
    requires low { IsLowPlan rows.now starts.now }
    requires fronts { AreFronts rows.now holds.now.all.items starts.now fronts.now }
    requires rows { AreRowsOf rows.now list.now }
    requires heap { IsHeap entry_order (heap_items waiting.old) }
    ensures { IfOk result (λ _. IsQueuedMore rows.now holds.now.all.items starts.now list.now (heap_items waiting.old) (heap_items waiting.new)) }
{
    for row in list {
        if starts[*row as usize] == LATER {
            if let Some(tick) = ready_at(rows, holds, starts, fronts, *row as usize) {
                waiting.push(Reverse((tick, *row)))?;
            }
        }
    }
    Ok(())
}

// Takes the ready row of the lowest number that hasn't started, if there is one.
fn take_ready(ready: &mut Ready, starts: &[u64]) -> Option<u32>
    requires heap { IsHeap row_order (heap_items ready.old) }
    requires rows { (r : ℕ) → IsReady (heap_items ready.old) r → r < length starts.now }
    ensures heap { IsHeap row_order (heap_items ready.new) }
    ensures was { (r : ℕ) → IsReady (heap_items ready.new) r → IsReady (heap_items ready.old) r }
    ensures taken { IfSome result (IsReady (heap_items ready.old)) }
    ensures waits { IfSome result (λ row. start_of starts.now row ≡ later) }
    ensures least { IfSome result (λ row. (r : ℕ) → IsReady (heap_items ready.old) r → start_of starts.now r ≡ later → row ≤ r) }
    ensures stays { IfSome result (λ row. (r : ℕ) → IsReady (heap_items ready.old) r → start_of starts.now r ≡ later
        → (r ≡ row) ⊎ IsReady (heap_items ready.new) r) }
    ensures none { IfNone result ((r : ℕ) → IsReady (heap_items ready.old) r → start_of starts.now r ≡ later → ⊥) }
{
    while let Some(row) = next_ready(ready) {
        ready.pop();
        if starts[row as usize] == LATER {
            return Some(row);
        }
    }
    None
}

impl Plan {
    /// Makes a plan in which no row has started.
    pub(crate) fn new(
        alloc: Global,
        rows: &SeenRows,
        holds: &Holds,
        users: &Users,
        p: u32,
    ) -> Result<Plan, AllocError>
        requires shape { IsRows rows.now }
        requires holds { HasHolds rows.now holds.now }
        requires users { AreUsers rows.now users.now }
        requires some { 0 < p }
        requires few { p ≤ MOST_WORKERS }
        ensures made { IfOk result (IsMade rows.now holds.now.all.items p None) }
        ensures low { IfOk result (λ plan. IsLow rows.now plan.starts.items plan.tick) }
    {
        let starts = vec![in alloc; LATER; rows.len()]?;
        let fronts = first_fronts(alloc, rows, holds, users, &starts)?;
        let mut waiting = BinaryHeap::new(alloc);
        waiting.push(Reverse((0, 0)))?;
        Ok(Plan {
            starts,
            workers: vec![in alloc; 0; rows.len()]?,
            fronts,
            free: vec![in alloc; 0; p as usize]?,
            waiting,
            ready: BinaryHeap::new(alloc),
            tick: 0,
        })
    }

    // Goes on to a tick, and has the rows wait for a worker that are ready by then.
    fn go_to(&mut self, rows: &SeenRows, holds: &Holds, tick: u64) -> Result<(), AllocError>
        requires shape { IsRows rows.now }
        requires holds { HasHolds rows.now holds.now }
        requires made { (p : ℕ) × IsMade rows.now holds.now.all.items p None self.old }
        requires next { self.old.tick ≤ tick }
        requires idle { IsIdle rows.now holds.now.all.items self.old tick }
        ensures made { OnOk result ((p : ℕ) → IsMade rows.now holds.now.all.items p None self.old → IsMade rows.now holds.now.all.items p None self.new) }
        ensures tick { self.new.tick ≡ tick }
        ensures starts { self.new.starts.items ≡ self.old.starts.items }
        ensures free { self.new.free.items ≡ self.old.free.items }
        ensures after { OnOk result ((due r : ℕ) → IsIn (heap_items self.new.waiting) due r → tick < due) }
    {
        self.tick = tick;
        gather(&mut self.waiting, &mut self.ready, tick)?;
        Ok(())
    }

    // Takes the row of the lowest number that can start at the tick of the plan, if there is one.
    fn take(&mut self, rows: &SeenRows, holds: &Holds) -> Option<u32>
        requires shape { IsRows rows.now }
        requires holds { HasHolds rows.now holds.now }
        requires made { (p : ℕ) × IsMade rows.now holds.now.all.items p None self.old }
        requires after { (due r : ℕ) → IsIn (heap_items self.old.waiting) due r → self.old.tick < due }
        requires low { self.old.tick < 2 ^ 63 }
        ensures made { (p : ℕ) → IsMade rows.now holds.now.all.items p None self.old → IsMade rows.now holds.now.all.items p result self.new }
        ensures tick { self.new.tick ≡ self.old.tick }
        ensures starts { self.new.starts.items ≡ self.old.starts.items }
        ensures free { self.new.free.items ≡ self.old.free.items }
        ensures waiting { heap_items self.new.waiting ≡ heap_items self.old.waiting }
        ensures row { IfSome result (IsLeastRow rows.now holds.now.all.items self.new) }
        ensures none { IfNone result ((r : ℕ) → NotStarted rows.now self.new.starts.items r
            → IsReadyBy rows.now holds.now.all.items self.new.starts.items self.new.tick r → ⊥) }
    {
        take_ready(&mut self.ready, &self.starts)
    }

    // Goes to the next tick at which a row can start, and takes the one of the lowest number, if any row is left.
    fn next_row(&mut self, rows: &SeenRows, holds: &Holds) -> Result<Option<u32>, AllocError>
        requires shape { IsRows rows.now }
        requires holds { HasHolds rows.now holds.now }
        requires made { (p : ℕ) × IsMade rows.now holds.now.all.items p None self.old }
        requires low { IsLow rows.now self.old.starts.items self.old.tick }
        ensures starts { self.new.starts.items ≡ self.old.starts.items }
        ensures next { IfOk result (λ found. (p : ℕ) → IsMade rows.now holds.now.all.items p None self.old
            → IsMade rows.now holds.now.all.items p found self.new) }
        ensures row { IfOk result (λ found. IfSome found (IsNextStart rows.now holds.now.all.items self.new)) }
        ensures none { IfOk result (λ found. IfNone found ((r : ℕ) → NotStarted rows.now self.new.starts.items r → ⊥)) }
    {
        let tick = self.tick.max(least_of(&self.free));
        self.go_to(rows, holds, tick)?;
        if let Some(row) = self.take(rows, holds) {
            return Ok(Some(row));
        }
        match next_due(&self.waiting) {
            None => Ok(None),
            Some((due, _)) => {
                self.go_to(rows, holds, due)?;
                Ok(self.take(rows, holds))
            }
        }
    }

    // Writes down that a row starts at the tick of the plan, on the free worker of the lowest number.
    fn place(&mut self, rows: &SeenRows, row: u32)
        requires there { row < length rows.now }
        requires starts { length self.old.starts.items ≡ length rows.now }
        requires workers { length self.old.workers.items ≡ length rows.now }
        requires few { length self.old.free.items ≤ MOST_WORKERS }
        requires some { (k : ℕ) × (k < length self.old.free.items) × (slice_index self.old.free.items k ≤ self.old.tick) }
        requires low { self.old.tick < 2 ^ 61 }
        ensures placed { IsPlaced rows.now self.old row self.new }
        ensures fronts { self.new.fronts.items ≡ self.old.fronts.items }
        ensures waiting { heap_items self.new.waiting ≡ heap_items self.old.waiting }
        ensures ready { heap_items self.new.ready ≡ heap_items self.old.ready }
    {
        let worker = first_by(&self.free, self.tick);
        self.starts[row as usize] = self.tick;
        self.workers[row as usize] = worker as u32;
        self.free[worker] = self.tick + u64::from(rows.ticks(row as usize));
    }

    // Starts a row at the tick of the plan.
    fn start(
        &mut self,
        rows: &SeenRows,
        holds: &Holds,
        users: &Users,
        row: u32,
        list: &mut Vec<u32>,
    ) -> Result<(), AllocError>
        requires shape { IsRows rows.now }
        requires holds { HasHolds rows.now holds.now }
        requires users { AreUsers rows.now users.now }
        requires made { (p : ℕ) × IsMade rows.now holds.now.all.items p (Some row) self.old }
        requires next { IsNextStart rows.now holds.now.all.items self.old row }
        ensures made { OnOk result ((p : ℕ) → IsMade rows.now holds.now.all.items p (Some row) self.old → IsMade rows.now holds.now.all.items p None self.new) }
        ensures low { OnOk result (IsLow rows.now self.new.starts.items self.new.tick) }
        ensures fewer { OnOk result (unstarted_of self.new.starts.items < unstarted_of self.old.starts.items) }
    {
        self.place(rows, row);
        list.clear();
        take_on(
            rows,
            holds,
            users,
            &self.starts,
            row,
            &mut self.fronts,
            list,
        )?;
        note_children(rows, users, row, list)?;
        queue_known(
            rows,
            holds,
            &self.starts,
            &self.fronts,
            list,
            &mut self.waiting,
        )?;
        Ok(())
    }

    /// Starts all rows.
    pub(crate) fn finish(
        &mut self,
        alloc: Global,
        rows: &SeenRows,
        holds: &Holds,
        users: &Users,
    ) -> Result<(), AllocError>
        requires shape { IsRows rows.now }
        requires holds { HasHolds rows.now holds.now }
        requires users { AreUsers rows.now users.now }
        requires made { (p : ℕ) × IsMade rows.now holds.now.all.items p None self.old }
        requires low { IsLow rows.now self.old.starts.items self.old.tick }
        ensures { OnOk result ((p : ℕ) → IsMade rows.now holds.now.all.items p None self.old → IsFinished rows.now holds.now.all.items p self.new) }
    {
        let mut list = Vec::new(alloc);
        while let Some(row) = self.next_row(rows, holds)? {
            self.start(rows, holds, users, row, &mut list)?;
        }
        Ok(())
    }

    /// Returns the first tick by which all rows and all turns have ended, where all rows have started.
    pub(crate) fn end(&self, rows: &SeenRows, holds: &Holds) -> u64
        requires shape { IsRows rows.now }
        requires holds { HasHolds rows.now holds.now }
        requires finished { (p : ℕ) × IsFinished rows.now holds.now.all.items p self.now }
        ensures { IsEndOf rows.now holds.now.all.items self.now.starts.items result }
    {
        let mut end = 0;
        for (row, start) in self.starts.iter().enumerate() {
            let own = *start + u64::from(rows.ticks(row));
            end = own.max(end);
        }
        for front in &self.fronts {
            end = front.held.max(end);
        }
        end
    }
}
