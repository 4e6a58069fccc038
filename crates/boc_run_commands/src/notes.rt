// What is noted of behaviours that ended by a fault.

ghost use Rattle.std.specs.Prelude.{◌≡◌, ◌∷◌, ◌++◌, ◌<◌, ◌^◌, ℕ, List, Option, codes, length, map, IfOk, OnOk};
ghost use Rattle.boc_names.specs.Names.{texts_of};
ghost use Rattle.boc_runs.specs.Records.{IsRecordOf};
ghost use Rattle.boc_runs.specs.Run.{config_of};
ghost use Rattle.boc_eval.specs.Instances.{AreRight};
ghost use Rattle.boc_notes.specs.Notes.{note_of_row, notes_text};
ghost use Rattle.boc_run_commands.specs.Notes.{AreWanted, AreWhyNotes, notes_of_rows, run_names};
ghost use Rattle.boc_run_commands.specs.TimedNotes.{IsOther};

use crate::named_run::{NamedRun, called, names_of};
use crate::timed_note::{Other, timed_note_on};
use boc_eval::ToldRow;
use boc_names::{CownNames, def_names};
use boc_notes::{faulted_rows, notes_on_rows, notes_on_told};
use boc_plans::sharing::Sharing;
use boc_program::program::Program;
use boc_program::text::Name;
use boc_progress::Progress;
use boc_reader::DefListing;
use boc_runs::record::Record;
use boc_runs::rows::Rows;
use std::alloc::{AllocError, Global};

/// What a command answers: a text that goes out, and the notes.
#[derive(Drop)]
pub struct Told {
    pub text: Vec<u8>,
    pub notes: Vec<u8>,
}

/// The notes on rows that are called so, where they are wanted.
pub fn notes_on(
    alloc: Global,
    quiet: bool,
    rows: &Rows,
    called: &[Vec<u8>],
) -> Result<Vec<u8>, AllocError>
    ensures { IfOk result (λ notes. AreWanted quiet (λ told. told ≡ notes_of_rows (texts_of called.now) rows.now) notes.items) }
{
    if quiet {
        return Ok(Vec::new(alloc));
    }
    let rows = rows.as_slice();
    let faulted = faulted_rows(alloc, rows)?;
    notes_on_rows(alloc, rows, &faulted, called)
}

// Returns the notes on those rows of a run that have these numbers, where the program's defs are called so, by what the run says of them. If one that is noted
// by itself is missing there, which no run of faulted rows leaves out, the run is followed once more.
fn notes_on_faulted(
    alloc: Global,
    program: &Program,
    defs: &[Name],
    recorded: &Record,
    told: &[ToldRow],
    faulted: &[u32],
    progress: &mut dyn Progress,
) -> Result<Vec<u8>, AllocError>
    requires run { IsRecordOf program.now recorded.now }
    requires told { AreRight (config_of program.now recorded.now.events).members told.now }
    ensures { IfOk result (λ notes. notes.items
        ≡ notes_text (map (note_of_row (run_names program.now defs.now recorded.now.events) recorded.now.rows) faulted.now)) }
{
    let rows = recorded.rows().as_slice();
    let called = def_names(alloc, defs)?;
    let cowns = CownNames::of(alloc, program.cowns.as_slice())?;
    if let Some(notes) = notes_on_told(alloc, rows, faulted, told, &called, &cowns)? {
        return Ok(notes);
    }
    let names = names_of(alloc, program, defs, recorded, progress)?;
    notes_on_rows(alloc, rows, faulted, &names.rows)
}

/// Returns the notes on a run of a program with these defs, where they are wanted, by what the run says of its rows as far as that goes.
pub(crate) fn notes_on_run(
    alloc: Global,
    quiet: bool,
    program: &Program,
    defs: Vec<DefListing>,
    recorded: &Record,
    told: &[ToldRow],
    progress: &mut dyn Progress,
) -> Result<Vec<u8>, AllocError>
    requires run { IsRecordOf program.now recorded.now }
    requires told { AreRight (config_of program.now recorded.now.events).members told.now }
    ensures { IfOk result (λ notes. AreWanted quiet (λ text. text
        ≡ notes_of_rows (run_names program.now (map (λ d. d.name) defs.items) recorded.now.events) recorded.now.rows) notes.items) }
{
    if quiet {
        return Ok(Vec::new(alloc));
    }
    let faulted = faulted_rows(alloc, recorded.rows().as_slice())?;
    if faulted.is_empty() {
        return Ok(Vec::new(alloc));
    }
    let defs = called(alloc, defs)?;
    notes_on_faulted(alloc, program, &defs, recorded, told, &faulted, progress)
}

/// Returns the notes on a run, where they are wanted, with the one on the other run, if it is compared with one.
pub fn notes_beside(
    alloc: Global,
    quiet: bool,
    sharing: Sharing,
    run: &NamedRun,
    other: &Option<Other>,
    progress: &mut dyn Progress,
) -> Result<Vec<u8>, AllocError>
    ensures { IfOk result (λ notes. (input : List ℕ) (compared : Option ℕ) → IsOther input compared other.now
        → AreWanted quiet (AreWhyNotes sharing compared input (texts_of run.now.names.rows.items) run.now.rows) notes.items) }
{
    if quiet {
        return Ok(Vec::new(alloc));
    }
    let mut notes = notes_on(alloc, false, &run.rows, &run.names.rows)?;
    let note = timed_note_on(alloc, other, sharing, &run.rows, progress)?;
    notes.extend_from_slice(&note)?;
    Ok(notes)
}
