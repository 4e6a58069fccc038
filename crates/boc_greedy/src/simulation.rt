// A simulation of workers, from one tick at which something changes to the next.

ghost use Rattle.std.specs.Prelude.{◌≡◌, ℕ, ◌+◌, ◌<◌, ◌≤◌, [], ◌∷◌, length, pred, replicate, IfOk, IfSome, IfNone, OnOk, true, false};
ghost use Rattle.std.specs.BinaryHeap.{heap_items};
ghost use Rattle.boc_program.specs.declared.limits.TheConstants.{MOST_WORKERS};
ghost use Rattle.boc_runs.specs.Rows.{IsRows};
ghost use Rattle.boc_greedy.specs.declared.frontier.RowState.TheVariants.{Unspawned, Waiting};
ghost use Rattle.boc_greedy.specs.Done.{IsDone};
ghost use Rattle.boc_greedy.specs.Families.{IsFamilyOf};
ghost use Rattle.boc_greedy.specs.Frontier.{IsFrontier};
ghost use Rattle.boc_greedy.specs.Queues.{IsQueue, IsIn, IsOnTop, IsPutOff};
ghost use Rattle.boc_greedy.specs.Simulating.{later, IsLeastIdle, steps_of_all};
ghost use Rattle.boc_greedy.specs.Stepping.{IsStepping, IsGiving, IsSettled, IsLow};

use crate::bits::{with_bit, without_bit};
use crate::children::{Change, Family};
use crate::frontier::Frontier;
use crate::timed::TimedRows;
use boc_program::limits::MOST_WORKERS;
use std::alloc::{AllocError, Global};
use std::cmp::Reverse;
use std::collections::BinaryHeap;

// The workers that are idle are the bits of one word.
const _: () = prove!(MOST_WORKERS == 64);

// A tick after every tick of a plan, at which rows are that haven't started.
const LATER: u64 = u64::MAX;

// Has the row on top of the queue change next at this tick.
fn put_off(queue: &mut BinaryHeap<Reverse<(u64, u32)>>, tick: u64)
    ensures { (before row : ℕ) → IsQueue (heap_items queue.old) → IsOnTop (heap_items queue.old) before row
        → IsPutOff (heap_items queue.old) row tick (heap_items queue.new) }
{
    if let Some(mut top) = queue.peek_mut() {
        let Reverse((_, row)) = *top;
        *top = Reverse((tick, row));
    }
}

/// How far a simulation is.
#[derive(Drop)]
pub struct Simulation<'a> {
    /// How many workers there are.
    pub p: u32,
    /// The tick at which each row starts, or a later one than any.
    pub starts: Vec<u64>,
    /// The worker that each row is on.
    pub workers: Vec<u32>,
    /// How far the rows are.
    pub frontier: Frontier<'a>,
    /// The first change of each row, of those that are left.
    pub first: Vec<Change>,
    /// The change of each row's parent that follows the spawn of the row. That of main is not read.
    pub next: &'a [Change],
    /// For each row that is under way the tick at which it next spawns a child or ends. The earliest is on top.
    pub queue: BinaryHeap<Reverse<(u64, u32)>>,
    /// A bit for each worker, set for those that are idle.
    pub idle: u64,
    /// The tick at which the simulation is.
    pub tick: u64,
    /// At how many ticks it has been.
    pub moments: u64,
}

impl<'a> Simulation<'a> {
    /// Makes a simulation at tick 0, where only main is spawned, and nothing has started.
    pub fn new(
        alloc: Global,
        rows: &TimedRows,
        frontier: Frontier<'a>,
        family: &'a Family,
        p: u32,
    ) -> Result<Simulation<'a>, AllocError>
        requires shape { IsRows rows.now }
        requires frontier { IsFrontier rows.now frontier }
        requires states { frontier.states.items ≡ Waiting ∷ replicate (pred (length rows.now)) Unspawned }
        requires family { IsFamilyOf rows.now family.now }
        requires some { 0 < p }
        requires few { p ≤ MOST_WORKERS }
        ensures workers { IfOk result (λ s. s.p ≡ p) }
        ensures giving { IfOk result (λ s. IsGiving rows.now s) }
    {
        let starts = vec![in alloc; LATER; rows.len()]?;
        let workers = vec![in alloc; 0; rows.len()]?;
        let first = Vec::from_slice(alloc, &family.first)?;
        Ok(Simulation {
            p,
            starts,
            workers,
            frontier,
            first,
            next: &family.next,
            queue: BinaryHeap::with_capacity(alloc, p as usize)?,
            idle: u64::MAX >> (64 - p),
            tick: 0,
            moments: 1,
        })
    }

    // Gives the lowest row that can start to the lowest worker that is idle; false where no row can start.
    fn give(&mut self, rows: &TimedRows, worker: u32) -> Result<bool, AllocError>
        requires shape { IsRows rows.now }
        requires giving { IsGiving rows.now self.old }
        requires idle { IsLeastIdle self.old.idle worker }
        ensures workers { self.new.p ≡ self.old.p }
        ensures giving { OnOk result (IsGiving rows.now self.new) }
        ensures fewer { IfOk result (λ given. given ≡ true → steps_of_all self.new.frontier.states.items < steps_of_all self.old.frontier.states.items) }
        ensures settled { IfOk result (λ given. given ≡ false → IsSettled rows.now self.new) }
        ensures no_more { IfOk result (λ given. given ≡ false → steps_of_all self.new.frontier.states.items ≤ steps_of_all self.old.frontier.states.items) }
    {
        match self.frontier.start_least(rows) {
            Some(row) => {
                let change = self.first[row as usize];
                let tick = self.tick + u64::from(change.after);
                self.queue.push(Reverse((tick, row)))?;
                self.starts[row as usize] = self.tick;
                self.workers[row as usize] = worker;
                self.idle = without_bit(self.idle, worker);
                Ok(true)
            }
            None => Ok(false),
        }
    }

    /// Gives rows that can start to idle workers, until there are no more of the ones or the others.
    pub fn give_all(&mut self, rows: &TimedRows) -> Result<(), AllocError>
        requires shape { IsRows rows.now }
        requires giving { IsGiving rows.now self.old }
        ensures workers { self.new.p ≡ self.old.p }
        ensures settled { OnOk result (IsSettled rows.now self.new) }
        ensures no_more { OnOk result (steps_of_all self.new.frontier.states.items ≤ steps_of_all self.old.frontier.states.items) }
    {
        while self.idle != 0 {
            let worker = self.idle.trailing_zeros();
            if !self.give(rows, worker)? {
                return Ok(());
            }
        }
        Ok(())
    }

    // What changes next for the row on top: it spawns its next child, or ends.
    fn change(&mut self, rows: &TimedRows, row: u32)
        requires shape { IsRows rows.now }
        requires stepping { IsStepping rows.now self.old }
        requires top { IsOnTop (heap_items self.old.queue) self.old.tick row }
        ensures workers { self.new.p ≡ self.old.p }
        ensures tick { self.new.tick ≡ self.old.tick }
        ensures stepping { IsStepping rows.now self.new }
        ensures fewer { steps_of_all self.new.frontier.states.items < steps_of_all self.old.frontier.states.items }
    {
        let change = self.first[row as usize];
        if (change.child as usize) < rows.len() {
            self.frontier.spawn(rows, change.child);
            let next = self.next[change.child as usize];
            self.first[row as usize] = next;
            let tick = self.tick + u64::from(next.after - change.after);
            put_off(&mut self.queue, tick);
        } else {
            self.queue.pop();
            self.frontier.end(rows, row);
            self.idle = with_bit(self.idle, self.workers[row as usize]);
        }
    }

    /// Returns the tick at which something changes next, and a row for which it does, if there is one.
    pub fn next_change(&self) -> Option<(u64, u32)>
        requires { IsQueue (heap_items self.now.queue) }
        ensures top { IfSome result (λ change. IsOnTop (heap_items self.now.queue) change.0 change.1) }
        ensures least { IfSome result (λ change. (tick row : ℕ) → IsIn (heap_items self.now.queue) tick row → change.0 ≤ tick) }
        ensures none { IfNone result (heap_items self.now.queue ≡ []) }
    {
        let Reverse(change) = self.queue.peek()?;
        Some(*change)
    }

    /// Makes all changes of this tick.
    pub fn change_all(&mut self, rows: &TimedRows)
        requires shape { IsRows rows.now }
        requires stepping { IsStepping rows.now self.old }
        requires low { IsLow rows.now self.old }
        ensures workers { self.new.p ≡ self.old.p }
        ensures giving { IsGiving rows.now self.new }
        ensures no_more { steps_of_all self.new.frontier.states.items ≤ steps_of_all self.old.frontier.states.items }
    {
        while let Some((tick, row)) = self.next_change() {
            if tick != self.tick {
                return;
            }
            self.change(rows, row);
        }
    }

    /// Goes to the tick at which something changes next, and makes the change for this row.
    pub fn advance(&mut self, rows: &TimedRows, tick: u64, row: u32)
        requires shape { IsRows rows.now }
        requires settled { IsSettled rows.now self.old }
        requires top { IsOnTop (heap_items self.old.queue) tick row }
        requires least { (other r : ℕ) → IsIn (heap_items self.old.queue) other r → tick ≤ other }
        ensures workers { self.new.p ≡ self.old.p }
        ensures stepping { IsStepping rows.now self.new }
        ensures low { IsLow rows.now self.new }
        ensures fewer { steps_of_all self.new.frontier.states.items < steps_of_all self.old.frontier.states.items }
    {
        self.tick = tick;
        self.moments += 1;
        self.change(rows, row);
    }

    /// Simulates all that happens from here on before a tick.
    pub fn go_to(&mut self, rows: &TimedRows, tick: u64) -> Result<(), AllocError>
        requires shape { IsRows rows.now }
        requires settled { IsSettled rows.now self.old }
        ensures workers { self.new.p ≡ self.old.p }
        ensures settled { OnOk result (IsSettled rows.now self.new) }
    {
        while let Some((next, row)) = self.next_change() {
            if next >= tick {
                return Ok(());
            }
            self.advance(rows, next, row);
            self.change_all(rows);
            self.give_all(rows)?;
        }
        Ok(())
    }

    /// Simulates all that happens from here on.
    pub fn finish(&mut self, rows: &TimedRows) -> Result<(), AllocError>
        requires shape { IsRows rows.now }
        requires settled { IsSettled rows.now self.old }
        requires some { 0 < self.old.p }
        ensures { OnOk result (IsDone rows.now self.old.p self.new) }
    {
        while let Some((tick, row)) = self.next_change() {
            self.advance(rows, tick, row);
            self.change_all(rows);
            self.give_all(rows)?;
        }
        Ok(())
    }
}
