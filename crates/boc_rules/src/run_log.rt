// A run under way as it is logged, and not judged.

ghost use Rattle.std.specs.Prelude.{◌≡◌, ◌+◌, ◌≤◌, ◌↔◌, [], IfOk, IsTrue, MatchResult, vec_len, vec_capacity};
ghost use Rattle.boc_rules.specs.Log.{HasRoomFor, rooms_after};
ghost use Rattle.boc_rules.specs.RunLog.{CanKeep, rows_after};

use crate::rows::{FIRST_ROWS, MOST_EVENTS, end_row, make_events_room, pending_row};
use boc_program::held::HeldCowns;
use boc_runs::event::Event;
use boc_runs::events::{Events, Happening};
use boc_runs::record::Record;
use boc_runs::rows::{Row, Rows};
use std::alloc::{AllocError, Global};
use std::marker::Model;

/// The events of a run so far, none of which is judged: a caller that puts one knows that it is allowed. They keep the rules of
/// runs over a number of cowns, which is at most 256.
#[derive(Drop, Debug)]
pub struct RunLog {
    cowns: u32,
    /// The rows in the order of their spawns. A row that hasn't ended has 0 ticks, the status `Done`, and wrote nothing.
    rows: Vec<Row>,
    happenings: Vec<Happening>,
    /// How many more rows there is space for.
    rooms: usize,
}

impl Model for RunLog {
    ghost use Rattle.std.specs.Prelude.{vec_capacity};
    ghost use Rattle.boc_runs.specs.Happenings.{told};
    ghost use Rattle.boc_rules.specs.Log.{Log};

    ghost Value = { Log };

    ghost use Rattle.boc_rules.specs.RunLog.{IsRunLog};

    ghost view = { λ l. let v : Log = record { cowns = l.cowns; events = told l.happenings.items l.rows.items; rooms = l.rooms } in v };

    ghost invariant = { λ l. IsRunLog l.cowns l.rows.items l.happenings.items l.rooms (vec_capacity l.rows) (vec_capacity l.happenings) };
}

// Keeps what the rows have to report on an event, for which there is room. Callers name the kind of the event, so little is left of it in each.
#[inline(always)]
fn keep(rows: &mut Vec<Row>, rooms: &mut usize, event: Event)
    requires can { CanKeep rows.old.items event }
    requires has { HasRoomFor rooms.old event }
    requires room { vec_len rows.old + rooms.old ≤ vec_capacity rows.old }
    ensures rows { rows.new.items ≡ rows_after rows.old.items event }
    ensures rooms { rooms.new ≡ rooms_after rooms.old event }
    ensures room { vec_len rows.new + rooms.new ≤ vec_capacity rows.new }
{
    match event {
        Event::Spawn {
            parent,
            offset,
            cowns,
            ..
        } => {
            rows.push_reserved(pending_row(parent, offset, HeldCowns::of(&cowns)));
            *rooms -= 1;
        }
        Event::Start { .. } => {}
        Event::End {
            row,
            ticks,
            status,
            written,
        } => end_row(
            &mut rows[row as usize],
            ticks,
            status,
            HeldCowns::of(&written),
        ),
    }
}

impl RunLog {
    ghost use Rattle.boc_program.specs.declared.limits.TheConstants.{MOST_COWNS};
    ghost use Rattle.boc_runs.specs.Legal.{entries, IsAllowed, IsLegal, IsComplete};
    ghost use Rattle.boc_rules.specs.Log.{grown};
    ghost use Rattle.boc_rules.specs.Rules.{Records};

    /// Makes a log of no rows yet, over this many cowns, and no space for any.
    pub fn new(alloc: Global, cowns: u32) -> Result<RunLog, AllocError>
        requires { cowns ≤ MOST_COWNS }
        ensures { IfOk result (λ l. l ≡ record { cowns = cowns; events = []; rooms = 0 }) }
    {
        Ok(RunLog {
            cowns,
            rows: Vec::with_capacity(alloc, FIRST_ROWS)?,
            happenings: Vec::with_capacity(alloc, MOST_EVENTS * FIRST_ROWS)?,
            rooms: 0,
        })
    }

    /// Makes space for one more row: for its spawn, its start and its end. Nothing changes where memory is refused.
    /// The time is constant, amortised.
    pub fn make_room(&mut self) -> Result<(), AllocError>
        ensures { MatchResult result (λ _. self.new ≡ record self.old { rooms = self.old.rooms + 1 }) (λ _. self.new ≡ self.old) }
    {
        let rooms = self.rooms + 1;
        make_events_room(&mut self.happenings, self.rows.len() + rooms)?;
        self.rows.reserve(rooms)?;
        self.rooms = rooms;
        Ok(())
    }

    /// Puts an event that keeps the rules after the others. For a spawn there must be room, which it takes. It takes
    /// no memory, and judges nothing.
    #[inline(always)]
    pub fn put(&mut self, event: Event)
        requires allowed { IsAllowed self.old.cowns (entries self.old.events) event }
        requires room { HasRoomFor self.old.rooms event }
        ensures { self.new ≡ grown self.old event }
    {
        self.happenings.push_reserved(Happening::of(&event));
        keep(&mut self.rows, &mut self.rooms, event);
    }

    /// Returns the events so far.
    pub fn events(&self) -> Events<'_>
        ensures value { result ≡ self.now.events }
        ensures legal { IsLegal self.now.cowns self.now.events }
    {
        Events::new(self.happenings.as_slice(), self.rows.as_slice())
    }

    // There is a row, and every row has ended: each has had all of its events.
    fn is_complete(&self) -> bool
        ensures { IsTrue result ↔ IsComplete self.now.events }
    {
        let rows = self.rows.len();
        rows > 0 && self.happenings.len() == MOST_EVENTS * rows
    }

    /// Returns the record of the run where it is complete; otherwise the log comes back unchanged. It takes no memory.
    pub fn into_record(self) -> Result<Record, RunLog>
        ensures { Records self result }
    {
        if !self.is_complete() {
            return Err(self);
        }
        Ok(Record::new(self.cowns, self.happenings, Rows::new(self.rows)))
    }
}
