// What happens in a run.

ghost use Rattle.std.specs.Prelude.{◌≡◌};

use boc_program::body::EndStatus;
use boc_program::short::Cowns;

/// What happened in a run. Behaviours are named by their rows, which are numbered from 0 in the order of
/// the spawns.
#[derive(Drop, Debug)]
pub enum Event {
    /// Row `parent` spawned this row, over these cowns, which are meant to rise strictly. `offset` is the
    /// number of ticks that the parent had counted.
    Spawn {
        row: u32,
        parent: u32,
        offset: u32,
        cowns: Cowns,
    },
    /// The row started: it holds its cowns from now on.
    Start {
        row: u32,
    },
    /// The row ended after this many ticks, and gave its cowns back. `written` are those that an assignment wrote,
    /// whether or not the value changed; they are meant to rise strictly.
    End {
        row: u32,
        ticks: u32,
        status: EndStatus,
        written: Cowns,
    },
}

impl Event {
    /// Returns the same event once more. It takes no memory.
    pub fn duplicate(&self) -> Event
        ensures { result ≡ self.now }
    {
        match self {
            Event::Spawn {
                row,
                parent,
                offset,
                cowns,
            } => Event::Spawn {
                row: *row,
                parent: *parent,
                offset: *offset,
                cowns: Cowns::try_from(cowns.as_slice()).unwrap(),
            },
            Event::Start { row } => Event::Start { row: *row },
            Event::End {
                row,
                ticks,
                status,
                written,
            } => Event::End {
                row: *row,
                ticks: *ticks,
                status: *status,
                written: Cowns::try_from(written.as_slice()).unwrap(),
            },
        }
    }
}

/// A rule of runs that an event can break.
#[derive(Clone, Copy, PartialEq, Eq, Debug)]
pub enum BrokenRule {
    /// The spawned row has the next number.
    NumberNotNext,
    /// Its parent is running; main's parent is 0.
    ParentNotRunning,
    /// Its offset is above that of its parent's last child, and 1 to 1,000,000; main's is 0.
    Offset,
    /// Its cowns rise strictly and are there; main has none.
    Cowns,
    /// The row that starts is pending, and shares no cown with a running row or with an earlier pending one.
    StartNotAllowed,
    /// The row that ends is running; its ticks are 1 to 1,000,000, and at least its last child's offset; what it wrote
    /// rises strictly and is among its cowns.
    EndNotAllowed,
    /// A run has at most 65,535 rows.
    TooMany,
}
