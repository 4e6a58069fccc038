// The rows of a run so far, and the buffer for their events.

ghost use Rattle.std.specs.Prelude.{◌≡◌, ◌*◌, ◌^◌, ◌<◌, ◌≤◌, OnOk, vec_len, vec_capacity};
ghost use Rattle.boc_rules.specs.SoFar.{new_row};

use boc_program::body::EndStatus;
use boc_program::held::HeldCowns;
use boc_runs::events::Happening;
use boc_runs::rows::Row;
use std::alloc::AllocError;

/// How many rows the lists have memory for at first. Memory for this many is handed out in pages of its own, which
/// cost nothing before they are used, and the lists grow from there without being copied.
pub const FIRST_ROWS: usize = 8192;

/// The most events of a row: its spawn, its start and its end.
pub const MOST_EVENTS: usize = 3;

/// Returns a row that was just spawned.
pub fn pending_row(parent: u32, offset: u32, cowns: HeldCowns) -> Row
    ensures { result ≡ new_row parent offset cowns }
{
    Row {
        parent,
        offset,
        ticks: 0,
        cowns,
        written: HeldCowns::new(),
        status: EndStatus::Done,
    }
}

/// Notes that the row has ended.
pub fn end_row(row: &mut Row, ticks: u32, status: EndStatus, written: HeldCowns)
    ensures { row.new ≡ record row.old { ticks = ticks; status = status; written = written } }
{
    row.ticks = ticks;
    row.status = status;
    row.written = written;
}

/// Makes space for the events of the given number of rows, of which these have happened.
pub fn make_events_room(happenings: &mut Vec<Happening>, rows: usize) -> Result<(), AllocError>
    requires fits { MOST_EVENTS * rows < 2 ^ 64 }
    requires few { vec_len happenings.old ≤ MOST_EVENTS * rows }
    ensures same { happenings.new.items ≡ happenings.old.items }
    ensures keeps { vec_capacity happenings.old ≤ vec_capacity happenings.new }
    ensures room { OnOk result (MOST_EVENTS * rows ≤ vec_capacity happenings.new) }
{
    happenings.reserve(MOST_EVENTS * rows - happenings.len())
}
