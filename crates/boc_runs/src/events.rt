// The events of a run as they are kept: four bytes each, with the rows, which report the rest.

ghost use Rattle.std.specs.Prelude.{◌≡◌, ◌<◌, ◌↔◌, [], IsTrue, Some, length, slice_get};
ghost use Rattle.boc_program.specs.declared.limits.TheConstants.{MOST_ROWS};
ghost use Rattle.boc_runs.specs.Happenings.{event_of, told, happening_of, row_in, AreOf};

use crate::event::Event;
use crate::rows::Row;
use std::marker::Model;

/// What a row took part in.
#[derive(Clone, Copy, Debug)]
pub enum Deed {
    Spawned,
    Started,
    Ended,
}

/// An event without what its row reports: which row it is, and what became of it.
#[derive(Clone, Copy, Debug)]
pub struct Happening {
    pub row: u16,
    pub deed: Deed,
}

/// Events in their order. Each is made from its row as it is requested.
#[derive(Drop, Debug)]
pub struct Events<'a> {
    happenings: &'a [Happening],
    rows: &'a [Row],
}

impl<'a> Model for Events<'a> {
    ghost use Rattle.std.specs.Prelude.{List};
    ghost use Rattle.boc_runs.specs.declared.event.Event.{Event};

    ghost Value = { List Event };

    ghost use Rattle.boc_runs.specs.Happenings.{told, AreOf};

    ghost view = { λ e. told e.happenings.now e.rows.now };

    ghost invariant = { λ e. AreOf e.happenings.now e.rows.now };
}

impl Happening {
    /// Returns what is kept of an event with its row.
    pub fn of(event: &Event) -> Happening
        requires { row_in event.now < MOST_ROWS }
        ensures { result ≡ happening_of event.now }
    {
        let (row, deed) = match event {
            Event::Spawn { row, .. } => (*row, Deed::Spawned),
            Event::Start { row } => (*row, Deed::Started),
            Event::End { row, .. } => (*row, Deed::Ended),
        };
        Happening {
            row: row as u16,
            deed,
        }
    }

    // Returns the event that this is, of its row.
    fn event(self, row: &Row) -> Event
        ensures { result ≡ event_of self.row row.now self.deed }
    {
        let number = u32::from(self.row);
        match self.deed {
            Deed::Spawned => Event::Spawn {
                row: number,
                parent: row.parent,
                offset: row.offset,
                cowns: row.cowns.widened(),
            },
            Deed::Started => Event::Start { row: number },
            Deed::Ended => Event::End {
                row: number,
                ticks: row.ticks,
                status: row.status,
                written: row.written.widened(),
            },
        }
    }
}

impl<'a> Events<'a> {
    /// Returns what these happenings report on these rows, in their order.
    pub fn new(happenings: &'a [Happening], rows: &'a [Row]) -> Events<'a>
        requires { AreOf happenings.now rows.now }
        ensures { result ≡ told happenings.now rows.now }
    {
        Events { happenings, rows }
    }

    /// Returns how many events there are.
    pub fn len(&self) -> usize
        ensures { result ≡ length self.now }
    {
        self.happenings.len()
    }

    /// Returns whether there is no event.
    pub fn is_empty(&self) -> bool
        ensures { IsTrue result ↔ (self.now ≡ []) }
    {
        self.happenings.is_empty()
    }

    /// Returns the event at a place. The time goes with the number of its cowns.
    #[tactic(auto, using(crate::proofs::Tellings::told_all))]
    pub fn get(&self, place: usize) -> Event
        requires { place < length self.now }
        ensures { slice_get self.now place ≡ Some result }
    {
        let happenings = self.happenings;
        let happening = happenings[place];
        happening.event(&self.rows[usize::from(happening.row)])
    }
}
