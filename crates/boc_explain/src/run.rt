// The run that the first lines of a record are of.

use crate::formed::is_feed;
use boc_program::body::EndStatus;
use boc_program::limits::MOST_TICKS;
use boc_program::short::Cowns;
use boc_record::{RecordFaultKind, read_first};
use boc_rules::Judge;
use boc_runs::event::Event;
use boc_runs::rows::Row;
use boc_said::place::Text;
use boc_text::Bytes;
use std::alloc::{AllocError, Global};

/// How far a row has come.
#[derive(Clone, Copy, PartialEq, Eq)]
pub(crate) enum Life {
    Pending,
    Running,
    Ended,
}

/// Returns the line with this number, counted from 1, without its line feed, if all of it is known.
pub(crate) fn line_at<'a>(text: Text<'a>, number: u64) -> Option<&'a [u8]> {
    let before = number.checked_sub(1)? as usize;
    let mut lines = text.bytes.split(is_feed).skip(before);
    let line = lines.next()?;
    let is_known = text.whole || lines.next().is_some();
    is_known.then_some(line)
}

/// Returns the run that the lines before the line with this number are of; one with no rows where the first line is faulty.
pub(crate) fn run_before(alloc: Global, text: &[u8], line: u64) -> Result<Judge, AllocError> {
    let mut source = Bytes::new(Vec::from_slice(alloc, text)?);
    match read_first(alloc, &mut source, line.saturating_sub(2)) {
        Ok(run) => Ok(run),
        Err(fault) if fault.kind == RecordFaultKind::Memory => Err(AllocError),
        Err(_) => Judge::new(alloc, 0),
    }
}

/// Returns how many rows there are.
pub(crate) fn row_count(run: &Judge) -> u32 {
    u32::try_from(run.count()).unwrap_or(u32::MAX)
}

/// Returns how far a row has come, if it is there.
pub(crate) fn life_of(run: &Judge, row: u32) -> Option<Life> {
    // A row that has ended took ticks, and one that may end runs.
    let end = Event::End {
        row,
        ticks: MOST_TICKS,
        status: EndStatus::Done,
        written: Cowns::new(),
    };
    let told = run.rows().get(row as usize)?;
    Some(if told.ticks > 0 {
        Life::Ended
    } else if run.judge(&end).is_ok() {
        Life::Running
    } else {
        Life::Pending
    })
}

/// Returns the last child of a row among these rows, and its offset.
pub(crate) fn last_child(rows: &[Row], parent: u32) -> Option<(u64, u32)> {
    // Main is no behaviour's child, although its parent is 0.
    let mut children = rows.iter().enumerate().skip(1);
    let (child, row) = children.rfind(|(_, row)| row.parent == parent)?;
    Some((child as u64, row.offset))
}
