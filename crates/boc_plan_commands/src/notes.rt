// The notes on a run, of which a command reports what limits it.

ghost use Rattle.std.specs.Prelude.{◌≡◌, ◌++◌, ℕ, Bool, List, Option, Some, IfOk, OnOk};
ghost use Rattle.boc_run_commands.specs.NamedRuns.{AreFew};
ghost use Rattle.boc_run_commands.specs.TimedNotes.{IsOther};
ghost use Rattle.boc_run_commands.specs.Notes.{AreWanted};
ghost use Rattle.boc_plan_commands.specs.LongNotes.{AreLongNoted, AreLookedAt, ArePlanNotes, IsLongNote, long_text, rows_text, rows_words, ticks_text};

use boc_order::work;
use boc_plans::sharing::Sharing;
use boc_progress::Progress;
use boc_run_commands::named_run::{NamedRun, RECORD_WORD};
use boc_run_commands::notes::notes_beside;
use boc_run_commands::timed_note::Other;
use boc_text::put_number;
use boc_typical::{OUTLIER_TIMES, Outliers, find_outliers};
use std::alloc::{AllocError, Global};

// The number that the note has.
const _: () = prove!(OUTLIER_TIMES == 20);

/// Returns whether the rows of an input are looked at for those that take very long: only where it is the text of a record, and where they keep their ticks.
pub(crate) fn are_looked_at(typical: bool, text: &[u8]) -> bool
    ensures { AreLookedAt typical text.now result }
{
    if typical || !text.starts_with(RECORD_WORD) {
        return false;
    }
    true
}

// Returns the words of the note that follow this number of rows.
fn rows_words(count: u64) -> &'static str
    ensures { result.now ≡ rows_words count }
{
    if count == 1 {
        " row above 20 times the median ticks of its def takes "
    } else {
        " rows above 20 times the median ticks of their def take "
    }
}

// Appends how many rows take very long to a note.
fn put_rows(note: &mut Vec<u8>, count: u64) -> Result<(), AllocError>
    ensures { OnOk result (note.new.items ≡ note.old.items ++ rows_text count) }
{
    note.extend_from_slice(b"boc: note: ")?;
    put_number(note, count)?;
    note.extend_from_slice(rows_words(count).as_bytes())?;
    Ok(())
}

// Appends how many ticks these are, and how many all rows take, to a note.
fn put_ticks(note: &mut Vec<u8>, ticks: u64, work: u64) -> Result<(), AllocError>
    ensures { OnOk result (note.new.items ≡ note.old.items ++ ticks_text ticks work) }
{
    put_number(note, ticks)?;
    note.extend_from_slice(b" of ")?;
    put_number(note, work)?;
    note.extend_from_slice(b" ticks: see --typical\n")?;
    Ok(())
}

// Appends the note on these rows that take very long to others.
fn put_long(note: &mut Vec<u8>, work: u64, found: Outliers) -> Result<(), AllocError>
    ensures { OnOk result (note.new.items ≡ note.old.items ++ long_text work (Some found)) }
{
    put_rows(note, found.rows)?;
    put_ticks(note, found.ticks, work)?;
    Ok(())
}

// Returns the note on those rows of a run that take very long; no text where there is nothing to note.
fn note_on_long(alloc: Global, run: &NamedRun) -> Result<Vec<u8>, AllocError>
    requires { AreFew run.now.rows run.now.names }
    ensures { IfOk result (λ note. AreLongNoted run.now.rows run.now.names.defs.items note.items) }
{
    let mut note = Vec::new(alloc);
    if let Some(found) = find_outliers(alloc, &run.rows, &run.names.defs)? {
        put_long(&mut note, work(run.rows.as_slice()), found)?;
    }
    Ok(note)
}

// Returns that note, where the rows are looked at.
#[tactic(auto, using(crate::proofs::LongRows::looked_at, crate::proofs::LongRows::not_looked_at))]
fn long_note(alloc: Global, looked: bool, run: &NamedRun) -> Result<Vec<u8>, AllocError>
    requires { AreFew run.now.rows run.now.names }
    ensures { IfOk result (λ note. (typical : Bool) (input : List ℕ) → AreLookedAt typical input looked
        → IsLongNote typical input run.now.rows run.now.names.defs.items note.items) }
{
    if looked {
        note_on_long(alloc, run)
    } else {
        Ok(Vec::new(alloc))
    }
}

/// Returns the notes on a run, where they are wanted: on rows that ended by a fault, on the other run, if it is compared with one, and, where its rows are
/// looked at, on those that take very long. `AllocError` says that memory was refused.
pub(crate) fn notes_of(
    alloc: Global,
    quiet: bool,
    sharing: Sharing,
    looked: bool,
    run: &NamedRun,
    other: &Option<Other>,
    progress: &mut dyn Progress,
) -> Result<Vec<u8>, AllocError>
    requires { AreFew run.now.rows run.now.names }
    ensures { IfOk result (λ notes. (input : List ℕ) (compared : Option ℕ) (typical : Bool) → IsOther input compared other.now
        → AreLookedAt typical input looked
        → AreWanted quiet (ArePlanNotes sharing compared typical input run.now.names run.now.rows) notes.items) }
{
    if quiet {
        return Ok(Vec::new(alloc));
    }
    let mut notes = notes_beside(alloc, false, sharing, run, other, progress)?;
    let long = long_note(alloc, looked, run)?;
    notes.extend_from_slice(&long)?;
    Ok(notes)
}
