// What is noted of a row that ended by a fault.

ghost use Rattle.std.specs.Prelude.{◌≡◌, ◌++◌, ◌-◌, codes, map, take, IfOk, OnOk};
ghost use Rattle.boc_notes.specs.Notes.{called_text, end_text, first_noted, more_text, note_text, note_texts, noted, status_text, subject_text};

use boc_program::body::EndStatus;
use boc_text::put_number;
use std::alloc::{AllocError, Global};

/// At most this many are reported one by one.
pub const MOST_NOTED: usize = 10;

/// A row that ended by a fault.
#[derive(Drop, Debug)]
pub(crate) struct Note {
    pub(crate) row: u32,
    /// What it is called; no text where it has no name.
    pub(crate) called: Vec<u8>,
    /// The ticks that it took until then.
    pub(crate) ticks: u32,
    pub(crate) status: EndStatus,
}

/// Returns the first of some things, as many as are reported one by one.
pub(crate) fn first_noted<T>(items: &[T]) -> &[T]
    ensures { result.now ≡ first_noted items.now }
{
    match items.get(..MOST_NOTED) {
        Some(first) => first,
        None => items,
    }
}

// Returns the number and the name of a status.
fn status_text(status: EndStatus) -> &'static str
    ensures { result.now ≡ status_text status }
{
    match status {
        EndStatus::Done => "0 Done",
        EndStatus::Overflow => "1 Overflow",
        EndStatus::ZeroDivisor => "2 ZeroDivisor",
        EndStatus::OutOfRange => "3 OutOfRange",
        EndStatus::SameCown => "4 SameCown",
        EndStatus::Negative => "5 Negative",
        EndStatus::TickCap => "6 TickCap",
    }
}

// Appends what a row is called to its number, where it has a name.
fn put_called(text: &mut Vec<u8>, called: &[u8]) -> Result<(), AllocError>
    ensures { OnOk result (text.new.items ≡ text.old.items ++ called_text called.now) }
{
    match called {
        [] => Ok(()),
        _ => {
            text.extend_from_slice(b", ")?;
            text.extend_from_slice(called)?;
            text.push(b',')?;
            Ok(())
        }
    }
}

// Puts which row a line is about.
fn put_subject(text: &mut Vec<u8>, note: &Note) -> Result<(), AllocError>
    ensures { OnOk result (text.new.items ≡ text.old.items ++ subject_text (noted note.now)) }
{
    text.extend_from_slice(b"boc: note: row ")?;
    put_number(text, note.row as u64)?;
    put_called(text, &note.called)?;
    Ok(())
}

// Puts how that row ended.
fn put_end(text: &mut Vec<u8>, note: &Note) -> Result<(), AllocError>
    ensures { OnOk result (text.new.items ≡ text.old.items ++ end_text (noted note.now)) }
{
    text.extend_from_slice(b" ended by ")?;
    text.extend_from_slice(status_text(note.status).as_bytes())?;
    text.extend_from_slice(b" at its tick ")?;
    put_number(text, note.ticks as u64)?;
    text.push(b'\n')?;
    Ok(())
}

// Appends the line of a row that ended by a fault to others.
fn put_note(text: &mut Vec<u8>, note: &Note) -> Result<(), AllocError>
    ensures { OnOk result (text.new.items ≡ text.old.items ++ note_text (noted note.now)) }
{
    put_subject(text, note)?;
    put_end(text, note)?;
    Ok(())
}

// Appends the lines of rows that ended by a fault to others.
fn put_notes(text: &mut Vec<u8>, notes: &[Note]) -> Result<(), AllocError>
    ensures { OnOk result (text.new.items ≡ text.old.items ++ note_texts (map noted notes.now)) }
{
    match notes {
        [] => Ok(()),
        [first, others @ ..] => {
            put_note(text, first)?;
            put_notes(text, others)
        }
    }
}

// Appends a line that says how many more there are, if there are more.
fn put_more(text: &mut Vec<u8>, more: usize) -> Result<(), AllocError>
    ensures { OnOk result (text.new.items ≡ text.old.items ++ more_text more) }
{
    if more == 0 {
        return Ok(());
    }
    text.extend_from_slice(b"boc: note: ")?;
    put_number(text, more as u64)?;
    text.extend_from_slice(b" more ended by a fault\n")
}

/// Returns the lines of the rows that are reported one by one, of `count` that ended by a fault, and of how many more there are.
pub(crate) fn text_of(alloc: Global, notes: &[Note], count: usize) -> Result<Vec<u8>, AllocError>
    ensures { IfOk result (λ text. text.items ≡ note_texts (map noted notes.now) ++ more_text (count - MOST_NOTED)) }
{
    let mut text = Vec::new(alloc);
    put_notes(&mut text, notes)?;
    put_more(&mut text, count.saturating_sub(MOST_NOTED))?;
    Ok(text)
}
