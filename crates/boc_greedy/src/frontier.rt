// Which rows can start, as rows are spawned, start and end.

ghost use Rattle.std.specs.Prelude.{◌≡◌, ℕ, ◌≤◌, ◌<◌, ◌↔◌, ◌⊎◌, List, ◌∷◌, length, pred, replicate, slice_index, slice_set, IfOk, IfSome, IfNone};
ghost use Rattle.boc_program.specs.declared.limits.TheConstants.{MOST_ROWS};
ghost use Rattle.boc_runs.specs.declared.rows.Row.{Row};
ghost use Rattle.boc_runs.specs.Rows.{IsRows};
ghost use Rattle.boc_order.specs.Waits.{AreWaits, AreFollowers, HaveFollowers};
ghost use Rattle.boc_greedy.specs.declared.frontier.RowState.TheVariants.{Unspawned, Waiting, UnderWay, Over};
ghost use Rattle.boc_greedy.specs.RowSets.{IsRowSet, Has};
ghost use Rattle.boc_greedy.specs.RowStates.{IsAt, CanStart};
ghost use Rattle.boc_greedy.specs.Frontier.{IsFrontier, CountsReady};

use crate::row_set::RowSet;
use crate::timed::TimedRows;
use boc_order::{Links, times_linked};
use std::alloc::{AllocError, Global};

/// How far a row is.
#[derive(Clone, Copy, PartialEq, Eq)]
pub enum RowState {
    /// It is not spawned yet.
    Unspawned,
    /// It is spawned, and waits for other rows or for a worker.
    Waiting,
    /// It has a worker.
    UnderWay,
    /// It has ended.
    Over,
}

/// The states of the rows, and the rows that can start.
#[derive(Drop)]
pub struct Frontier<'a> {
    /// The rows that wait for each row.
    followers: &'a Links,
    /// How far each row is.
    pub states: Vec<RowState>,
    /// For each row how many links in its list of waits lead to rows that are not over.
    unmet: Vec<u32>,
    /// The rows that are spawned, and wait for nothing but a worker.
    ready: RowSet,
}

impl<'a> Frontier<'a> {
    /// Makes a frontier at which main waits for a worker, and no other row is spawned. `AllocError` says that memory was refused.
    pub fn new(
        alloc: Global,
        rows: &TimedRows,
        waits: &Links,
        followers: &'a Links,
    ) -> Result<Frontier<'a>, AllocError>
        requires shape { IsRows rows.now }
        requires waits { AreWaits rows.now waits.now }
        requires followers { AreFollowers waits.now followers.now }
        ensures kept { IfOk result (λ f. IsFrontier rows.now f) }
        ensures states { IfOk result (λ f. f.states.items ≡ Waiting ∷ replicate (pred (length rows.now)) Unspawned) }
    {
        let count = rows.len();
        let mut states = vec![in alloc; RowState::Unspawned; count]?;
        states[0] = RowState::Waiting;
        let mut unmet = Vec::with_capacity(alloc, count)?;
        for row in 0..count {
            unmet.push_reserved(waits.count(row));
        }
        let mut ready = RowSet::new(alloc)?;
        ready.insert(0);
        Ok(Frontier {
            followers,
            states,
            unmet,
            ready,
        })
    }

    /// Returns the same for a caller who knows which rows wait for each row, and by how much: for each row it is counted for how many it waits.
    /// `AllocError` says that memory was refused.
    pub fn behind(
        alloc: Global,
        rows: &TimedRows,
        followers: &'a Links,
    ) -> Result<Frontier<'a>, AllocError>
        requires shape { IsRows rows.now }
        requires followers { HaveFollowers rows.now followers.now }
        ensures kept { IfOk result (λ f. IsFrontier rows.now f) }
        ensures states { IfOk result (λ f. f.states.items ≡ Waiting ∷ replicate (pred (length rows.now)) Unspawned) }
    {
        let mut states = vec![in alloc; RowState::Unspawned; rows.len()]?;
        states[0] = RowState::Waiting;
        let unmet = times_linked(alloc, followers)?;
        let mut ready = RowSet::new(alloc)?;
        ready.insert(0);
        Ok(Frontier {
            followers,
            states,
            unmet,
            ready,
        })
    }

    /// Returns the same frontier once more. `AllocError` says that memory was refused.
    pub fn copied(&self, alloc: Global) -> Result<Frontier<'_>, AllocError>
        ensures kept { IfOk result (λ f. (rows : List Row) → IsFrontier rows self.now → IsFrontier rows f) }
        ensures states { IfOk result (λ f. f.states.items ≡ self.now.states.items) }
    {
        Ok(Frontier {
            followers: self.followers,
            states: Vec::from_slice(alloc, &self.states)?,
            unmet: Vec::from_slice(alloc, &self.unmet)?,
            ready: self.ready.copied(alloc)?,
        })
    }

    /// Spawns the row.
    pub fn spawn(&mut self, rows: &TimedRows, row: u32)
        requires shape { IsRows rows.now }
        requires frontier { IsFrontier rows.now self.old }
        requires unspawned { IsAt self.old.states.items row Unspawned }
        ensures kept { IsFrontier rows.now self.new }
        ensures states { self.new.states.items ≡ slice_set self.old.states.items row Waiting }
    {
        self.states[row as usize] = RowState::Waiting;
        let unmet = self.unmet[row as usize];
        self.wake(row, unmet);
    }

    /// Starts the lowest of the rows that can start, if there is one.
    pub fn start_least(&mut self, rows: &TimedRows) -> Option<u32>
        requires shape { IsRows rows.now }
        requires frontier { IsFrontier rows.now self.old }
        ensures kept { IsFrontier rows.now self.new }
        ensures can { IfSome result (λ row. CanStart rows.now self.old.states.items row) }
        ensures least { IfSome result (λ row. (other : ℕ) → CanStart rows.now self.old.states.items other → row ≤ other) }
        ensures states { IfSome result (λ row. self.new.states.items ≡ slice_set self.old.states.items row UnderWay) }
        ensures none { IfNone result ((row : ℕ) → CanStart rows.now self.old.states.items row → ⊥) }
        ensures unchanged { IfNone result (self.new.states.items ≡ self.old.states.items) }
    {
        let row = self.ready.take_least()?;
        self.states[row as usize] = RowState::UnderWay;
        Some(row)
    }

    /// Ends a row that is under way.
    pub fn end(&mut self, rows: &TimedRows, row: u32)
        requires shape { IsRows rows.now }
        requires frontier { IsFrontier rows.now self.old }
        requires under_way { IsAt self.old.states.items row UnderWay }
        ensures kept { IsFrontier rows.now self.new }
        ensures states { self.new.states.items ≡ slice_set self.old.states.items row Over }
    {
        self.states[row as usize] = RowState::Over;
        let followers = self.followers;
        for follower in followers.of(row as usize) {
            let follower = *follower;
            let unmet = self.unmet[follower as usize] - 1;
            self.unmet[follower as usize] = unmet;
            self.wake(follower, unmet);
        }
    }

    // Puts the row into the ready set where it is spawned and has not started, and its count is 0.
    fn wake(&mut self, row: u32, unmet: u32)
        requires there { row < length self.old.states.items }
        requires few { length self.old.states.items ≤ MOST_ROWS }
        requires whole { length self.old.unmet.items ≡ length self.old.states.items }
        requires set { IsRowSet self.old.ready }
        requires count { unmet ≡ slice_index self.old.unmet.items row }
        ensures set { IsRowSet self.new.ready }
        ensures rows { (r : ℕ) → Has self.new.ready r ↔ (Has self.old.ready r ⊎ ((r ≡ row) × CountsReady self.old.states.items self.old.unmet.items row)) }
        ensures states { self.new.states.items ≡ self.old.states.items }
        ensures unmet { self.new.unmet.items ≡ self.old.unmet.items }
        ensures followers { self.new.followers.now ≡ self.old.followers.now }
    {
        if unmet == 0 && self.states[row as usize] == RowState::Waiting {
            self.ready.insert(row);
        }
    }
}
