// An eager plan under way, from one row that is looked at to the next.

ghost use Rattle.std.specs.Prelude.{◌≡◌, ◌≢◌, ℕ, List, Some, IfSome, IfNone, OnOk, IfOk};
ghost use Rattle.boc_runs.specs.declared.rows.Row.{Row};
ghost use Rattle.boc_runs.specs.Rows.{IsRows};
ghost use Rattle.boc_runs.specs.Siblings.{AreYoungers};
ghost use Rattle.boc_eager.specs.Courses.{AreClear, GoesOn, IsAt, IsDone, IsFirst, IsInHand, IsKept, IsLetGo, IsLookedAt, IsPassedOn};
ghost use Rattle.boc_eager.specs.Lines.{front_of};
ghost use Rattle.boc_eager.specs.declared.place.Place.TheVariants.{New, First, FirstFor};

use crate::kinds::kinds_of;
use crate::line::Line;
use crate::place::Place;
use crate::steps::{lines_of, missing, raise, spawn_children};
use boc_plans::sharing::SeenRows;
use boc_program::limits::MOST_COWNS;
use boc_runs::siblings::Siblings;
use std::alloc::{AllocError, Global};
use std::collections::BTreeSet;

// A tick after every tick of a plan, at which rows are that haven't started.
const LATER: u64 = u64::MAX;

/// How far an eager plan is.
#[derive(Drop)]
pub(crate) struct Course {
    /// The tick at which each row starts, or a later one than any.
    pub(crate) starts: Vec<u64>,
    /// The last of the ticks at which the rows that have started end.
    pub(crate) end: u64,
    /// How far each row is.
    pub(crate) places: Vec<Place>,
    /// The kind of each row, and for each kind those of its rows that are spawned and have not started.
    pub(crate) kinds: Vec<u32>,
    pub(crate) kin: Vec<Line>,
    /// What a row may wait for is to read a cown, or to write it: the tick from which it can, and the rows that wait.
    pub(crate) free: Vec<u64>,
    pub(crate) queues: Vec<Line>,
    /// The rows that are looked at next, by the tick and then by the row.
    pub(crate) next: BTreeSet<(u64, u32)>,
    /// The row that was looked at last, and the tick.
    pub(crate) tick: u64,
    pub(crate) row: u32,
    pub(crate) siblings: Siblings,
}

impl Course {
    /// Makes a plan at tick 0, at which only main is spawned, and nothing has started. `AllocError` says that memory was refused.
    pub(crate) fn new(
        alloc: Global,
        rows: &SeenRows,
        siblings: Siblings,
    ) -> Result<Course, AllocError>
        requires shape { IsRows rows.now }
        requires siblings { AreYoungers rows.now siblings.firsts.items siblings.youngers.items }
        ensures { IfOk result (IsFirst rows.now) }
    {
        let mut places = vec![in alloc; Place::Unspawned; rows.len()]?;
        places[0] = Place::New;
        Ok(Course {
            starts: vec![in alloc; LATER; rows.len()]?,
            end: 0,
            places,
            kinds: kinds_of(alloc, rows)?,
            kin: lines_of(alloc, rows.len())?,
            free: vec![in alloc; 0; 2 * MOST_COWNS]?,
            queues: lines_of(alloc, 2 * MOST_COWNS)?,
            next: BTreeSet::new(alloc),
            tick: 0,
            row: 0,
            siblings,
        })
    }

    /// Goes on to the end: looks at one row after another, until all have started. `AllocError` says that memory was refused.
    pub(crate) fn finish(&mut self, rows: &SeenRows) -> Result<(), AllocError>
        requires shape { IsRows rows.now }
        requires first { IsFirst rows.now self.old }
        ensures { OnOk result (IsDone rows.now self.new.starts.items self.new.end) }
    {
        self.arrive(rows, 0)?;
        while let Some(row) = self.go_on() {
            self.look(rows, row)?;
        }
        Ok(())
    }

    // Goes on to the row that is looked at next, and returns it, if there is one.
    fn go_on(&mut self) -> Option<u32>
        ensures next { IfSome result (λ row. (rows : List Row) → IsRows rows → IsKept rows self.old → GoesOn rows self.old self.new row) }
        ensures done { IfNone result ((rows : List Row) → IsRows rows → IsKept rows self.old → IsDone rows self.new.starts.items self.new.end) }
    {
        let (tick, row) = self.next.pop_first()?;
        self.tick = tick;
        self.row = row;
        Some(row)
    }

    // Looks at a row: it starts, or waits.
    fn look(&mut self, rows: &SeenRows, row: u32) -> Result<(), AllocError>
        requires shape { IsRows rows.now }
        requires hand { IsInHand rows.now row self.old }
        ensures { OnOk result (IsLookedAt rows.now self.old self.new) }
    {
        match self.places[row as usize] {
            Place::New => self.arrive(rows, row),
            Place::First => self.start_or_wait(rows, row),
            Place::FirstFor(wait) => self.ask(rows, row, wait),
            _ => Ok(()),
        }
    }

    // Puts a row that is spawned now in line with those of its kind. If it is first, it starts, or waits for a cown.
    fn arrive(&mut self, rows: &SeenRows, row: u32) -> Result<(), AllocError>
        requires shape { IsRows rows.now }
        requires hand { IsInHand rows.now row self.old }
        requires new { IsAt self.old.places.items row New }
        ensures { OnOk result (IsLookedAt rows.now self.old self.new) }
    {
        let kind = self.kinds[row as usize];
        if !self.kin[kind as usize].join(row)? {
            self.places[row as usize] = Place::BehindKin;
            return Ok(());
        }
        self.places[row as usize] = Place::First;
        self.start_or_wait(rows, row)
    }

    // Has a row that is first of those that wait for a cown go on, where the cown is free, and the next one be looked at. Else it is looked at again then.
    fn ask(&mut self, rows: &SeenRows, row: u32, wait: u32) -> Result<(), AllocError>
        requires shape { IsRows rows.now }
        requires hand { IsInHand rows.now row self.old }
        requires first { IsAt self.old.places.items row (FirstFor wait) }
        ensures { OnOk result (IsLookedAt rows.now self.old self.new) }
    {
        let free = self.free[wait as usize];
        if self.tick < free {
            self.next.insert((free, row))?;
            return Ok(());
        }
        self.pass_on(rows, row, wait)?;
        self.start_or_wait(rows, row)
    }

    // Has a row that is first of those that wait for a cown wait for it no more, and the next one be looked at.
    fn pass_on(&mut self, rows: &SeenRows, row: u32, wait: u32) -> Result<(), AllocError>
        requires shape { IsRows rows.now }
        requires hand { IsInHand rows.now row self.old }
        requires first { IsAt self.old.places.items row (FirstFor wait) }
        ensures { OnOk result (IsPassedOn rows.now row self.old self.new) }
    {
        self.places[row as usize] = Place::First;
        if let Some(next) = self.queues[wait as usize].leave(row) {
            self.places[next as usize] = Place::FirstFor(wait);
            self.next.insert((self.tick, next))?;
        }
        Ok(())
    }

    // Starts a row, or puts it in line with those that wait for the same, where that isn't free. The first of them is looked at when it is.
    fn start_or_wait(&mut self, rows: &SeenRows, row: u32) -> Result<(), AllocError>
        requires shape { IsRows rows.now }
        requires hand { IsInHand rows.now row self.old }
        requires first { IsAt self.old.places.items row First }
        ensures { OnOk result (IsLookedAt rows.now self.old self.new) }
    {
        let Some(wait) = missing(rows, row as usize, &self.free, self.tick) else {
            self.let_go(rows, row)?;
            return self.start(rows, row);
        };
        let free = self.free[wait as usize];
        if self.queues[wait as usize].join(row)? {
            self.places[row as usize] = Place::FirstFor(wait);
            self.next.insert((free, row))?;
        } else {
            self.places[row as usize] = Place::BehindFor(wait);
        }
        Ok(())
    }

    // Has the next one of its kind be looked at, before a row starts.
    fn let_go(&mut self, rows: &SeenRows, row: u32) -> Result<(), AllocError>
        requires shape { IsRows rows.now }
        requires hand { IsInHand rows.now row self.old }
        requires first { IsAt self.old.places.items row First }
        ensures go { OnOk result (IsLetGo rows.now row self.old self.new) }
        ensures row { OnOk result (self.new.row ≡ self.old.row) }
    {
        let kind = self.kinds[row as usize];
        if let Some(next) = self.kin[kind as usize].leave(row) {
            self.places[next as usize] = Place::First;
            self.next.insert((self.tick, next))?;
        }
        Ok(())
    }

    // Starts a row: it has its cowns until it ends, and will spawn its children.
    fn start(&mut self, rows: &SeenRows, row: u32) -> Result<(), AllocError>
        requires shape { IsRows rows.now }
        requires hand { IsInHand rows.now row self.old }
        requires first { IsAt self.old.places.items row First }
        requires not_front { (k : ℕ) → front_of self.old.kin.items k ≢ Some row }
        requires clear { AreClear rows.now row self.old.free.items self.old.tick }
        ensures { OnOk result (IsLookedAt rows.now self.old self.new) }
    {
        let place = row as usize;
        let end = self.tick + u64::from(rows.ticks(place));
        self.starts[place] = self.tick;
        self.end = self.end.max(end);
        self.places[place] = Place::Started;
        raise(rows, place, end, &mut self.free);
        spawn_children(
            rows,
            &self.siblings,
            place,
            self.tick,
            &mut self.places,
            &mut self.next,
        )
    }
}
