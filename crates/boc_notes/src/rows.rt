// The notes on the rows of a run.

ghost use Rattle.std.specs.Prelude.{◌≡◌, ◌^◌, ◌<◌, ◌++◌, length, map, IfOk, OnOk};
ghost use Rattle.boc_names.specs.Names.{texts_of};
ghost use Rattle.boc_notes.specs.Notes.{faulted_rows, has_fault, note_of_named, note_of_row, noted, notes_text, own_name, status_at};

use crate::note::{Note, first_noted, text_of};
use boc_names::text_at;
use boc_program::body::EndStatus;
use boc_runs::rows::Row;
use boc_text::put_number;
use std::alloc::{AllocError, Global};

// Returns how a row ended; a row that isn't there ended without a fault.
fn status_at(rows: &[Row], row: usize) -> EndStatus
    ensures { result ≡ status_at rows.now row }
{
    match rows.get(row) {
        Some(row) => row.status,
        None => EndStatus::Done,
    }
}

// Returns whether a row ended by a fault.
fn has_fault(rows: &[Row], row: usize) -> bool
    ensures { result ≡ has_fault rows.now row }
{
    !matches!(status_at(rows, row), EndStatus::Done)
}

/// Returns the numbers of the rows that ended by a fault, rising.
pub fn faulted_rows(alloc: Global, rows: &[Row]) -> Result<Vec<u32>, AllocError>
    requires { length rows.now < 2 ^ 32 }
    ensures { IfOk result (λ faulted. faulted.items ≡ faulted_rows rows.now) }
{
    let mut faulted = Vec::new(alloc);
    for row in 0..rows.len() {
        if has_fault(rows, row) {
            faulted.push(row as u32)?;
        }
    }
    Ok(faulted)
}

// Returns what a row that is called so is called, where that is more than its number.
fn own_name(alloc: Global, name: &[u8], row: u32) -> Result<Vec<u8>, AllocError>
    ensures { IfOk result (λ own. own.items ≡ own_name name.now row) }
{
    let number = u64::from(row);
    let mut plain = Vec::new(alloc);
    plain.extend_from_slice(b"row ")?;
    put_number(&mut plain, number)?;
    let mut own = Vec::new(alloc);
    if name != plain.as_slice() {
        own.extend_from_slice(name)?;
    }
    Ok(own)
}

/// Returns what is noted of a row that is called so.
pub(crate) fn note_of(
    alloc: Global,
    rows: &[Row],
    name: &[u8],
    row: u32,
) -> Result<Note, AllocError>
    ensures { IfOk result (λ note. noted note ≡ note_of_named rows.now name.now row) }
{
    let called = own_name(alloc, name, row)?;
    let (ticks, status) = match rows.get(row as usize) {
        Some(row) => (row.ticks, row.status),
        None => (0, EndStatus::Done),
    };
    Ok(Note {
        row,
        called,
        ticks,
        status,
    })
}

// Appends what is noted of some rows to others.
fn put_notes(
    alloc: Global,
    notes: &mut Vec<Note>,
    rows: &[Row],
    called: &[Vec<u8>],
    faulted: &[u32],
) -> Result<(), AllocError>
    ensures { OnOk result (map noted notes.new.items ≡ map noted notes.old.items ++ map (note_of_row (texts_of called.now) rows.now) faulted.now) }
{
    match faulted {
        [] => Ok(()),
        [first, others @ ..] => {
            let name = text_at(called, *first as usize);
            notes.push(note_of(alloc, rows, name, *first)?)?;
            put_notes(alloc, notes, rows, called, others)
        }
    }
}

/// Returns the notes on those of some rows that have these numbers, called as in this list, where a row has a name there that is more than its number.
pub fn notes_on_rows(
    alloc: Global,
    rows: &[Row],
    faulted: &[u32],
    called: &[Vec<u8>],
) -> Result<Vec<u8>, AllocError>
    ensures { IfOk result (λ text. text.items ≡ notes_text (map (note_of_row (texts_of called.now) rows.now) faulted.now)) }
{
    let mut notes = Vec::new(alloc);
    put_notes(alloc, &mut notes, rows, called, first_noted(faulted))?;
    text_of(alloc, &notes, faulted.len())
}
