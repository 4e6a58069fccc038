// A run under way: its rows so far, and what has become of each.

ghost use Rattle.std.specs.Prelude.{◌≡◌, ◌+◌, ◌*◌, ◌≤◌, ◌<◌, [], All, IfOk, OnOk, OnErr, length};

use crate::before::{MaybeRow, first_kept_row};
use crate::kept_row::{KeptRow, Life};
use crate::rows::{FIRST_ROWS, end_row, pending_row};
use boc_program::body::EndStatus;
use boc_program::held::HeldCowns;
use boc_program::limits::MOST_HELD;
use boc_runs::event::Event;
use boc_runs::rows::Row;
use std::alloc::{AllocError, Global};

/// The rows of a run so far.
#[derive(Drop, Debug)]
pub struct RunSoFar {
    pub cowns: u32,
    /// The rows in the order of their spawns. A row that hasn't ended has 0 ticks, the status `Done`, and wrote nothing.
    pub rows: Vec<Row>,
    /// A kept_row for each row.
    pub kept_rows: Vec<KeptRow>,
    /// For each cown of each row, one row after another, the latest row before it with this cown, if there is one.
    pub found: Vec<MaybeRow>,
    /// The latest row on each cown, if there is one.
    pub latest: Vec<MaybeRow>,
    /// How many rows have ended.
    pub ended: u32,
    /// How many more rows there is space for.
    pub rooms: usize,
}

impl RunSoFar {
    ghost use Rattle.boc_program.specs.declared.limits.TheConstants.{MOST_COWNS, MOST_HELD, MOST_ROWS};
    ghost use Rattle.boc_runs.specs.Legal.{after, IsAllowed};
    ghost use Rattle.boc_rules.specs.Log.{HasRoomFor, rooms_after};
    ghost use Rattle.boc_rules.specs.SoFar.{IsRunSoFar, HasRooms, so_far, IsSameRun, IsSpawned, IsStarted, IsEnded};

    /// Returns a run with no rows yet.
    pub fn new(alloc: Global, cowns: u32) -> Result<RunSoFar, AllocError>
        requires { cowns ≤ MOST_COWNS }
        ensures { IfOk result (λ r. IsRunSoFar r × HasRooms r × (r.cowns ≡ cowns) × (so_far r ≡ []) × (r.rooms ≡ 0)) }
    {
        let mut latest = Vec::with_capacity(alloc, cowns as usize)?;
        for _ in 0..cowns {
            latest.push_reserved(MaybeRow::none());
        }
        Ok(RunSoFar {
            cowns,
            rows: Vec::with_capacity(alloc, FIRST_ROWS)?,
            kept_rows: Vec::with_capacity(alloc, FIRST_ROWS)?,
            found: Vec::with_capacity(alloc, MOST_HELD * FIRST_ROWS)?,
            latest,
            ended: 0,
            rooms: 0,
        })
    }

    /// Makes space for one more row.
    pub fn make_room(&mut self) -> Result<(), AllocError>
        requires kept { IsRunSoFar self.old }
        requires has { HasRooms self.old }
        ensures same { IsSameRun self.old self.new }
        ensures has { HasRooms self.new }
        ensures made { OnOk result (self.new.rooms ≡ self.old.rooms + 1) }
        ensures refused { OnErr result (self.new.rooms ≡ self.old.rooms) }
    {
        let rooms = self.rooms + 1;
        self.rows.reserve(rooms)?;
        self.kept_rows.reserve(rooms)?;
        self.found.reserve(MOST_HELD * rooms)?;
        self.rooms = rooms;
        Ok(())
    }

    /// Goes on by an event that keeps the rules, for which there is room.
    #[inline(always)]
    pub fn accept(&mut self, event: Event)
        requires kept { IsRunSoFar self.old }
        requires allowed { IsAllowed self.old.cowns (so_far self.old) event }
        requires has { HasRooms self.old }
        requires room { HasRoomFor self.old.rooms event }
        ensures kept { IsRunSoFar self.new }
        ensures has { HasRooms self.new }
        ensures cowns { self.new.cowns ≡ self.old.cowns }
        ensures rows { so_far self.new ≡ after (so_far self.old) event }
        ensures rooms { self.new.rooms ≡ rooms_after self.old.rooms event }
    {
        match event {
            Event::Spawn {
                row,
                parent,
                offset,
                cowns,
            } => self.spawn(row, parent, offset, HeldCowns::of(&cowns)),
            Event::Start { row } => self.start(row),
            Event::End {
                row,
                ticks,
                status,
                written,
            } => self.end(row, ticks, status, HeldCowns::of(&written)),
        }
    }

    // A new row, after the others.
    fn spawn(&mut self, row: u32, parent: u32, offset: u32, cowns: HeldCowns)
        requires cowns { All (λ c. c < length self.old.latest.items) cowns.items }
        requires held { length cowns.items ≤ MOST_HELD }
        requires row { row < MOST_ROWS }
        requires few { length self.old.found.items ≤ MOST_HELD * MOST_ROWS }
        requires has { HasRooms self.old }
        requires room { 0 < self.old.rooms }
        ensures spawned { IsSpawned self.old self.new row parent offset cowns }
        ensures has { HasRooms self.new }
    {
        if (parent as usize) < self.kept_rows.len() {
            self.kept_rows[parent as usize].last = offset;
        }
        let kept_row = first_kept_row(&mut self.found, &mut self.latest, cowns.as_slice(), row);
        self.kept_rows.push_reserved(kept_row);
        self.rows.push_reserved(pending_row(parent, offset, cowns));
        self.rooms -= 1;
    }

    // The row holds its cowns from now on.
    fn start(&mut self, row: u32)
        requires kept { row < length self.old.kept_rows.items }
        requires has { HasRooms self.old }
        ensures started { IsStarted self.old self.new row }
        ensures has { HasRooms self.new }
    {
        self.kept_rows[row as usize].life = Life::Running;
    }

    // The row has ended.
    fn end(&mut self, row: u32, ticks: u32, status: EndStatus, written: HeldCowns)
        requires kept { row < length self.old.kept_rows.items }
        requires placed { row < length self.old.rows.items }
        requires few { self.old.ended < MOST_ROWS }
        requires has { HasRooms self.old }
        ensures ended { IsEnded self.old self.new row ticks status written }
        ensures has { HasRooms self.new }
    {
        self.kept_rows[row as usize].life = Life::Ended;
        end_row(&mut self.rows[row as usize], ticks, status, written);
        self.ended += 1;
    }
}
