// The notes on the behaviours of a serial run.

ghost use Rattle.std.specs.Prelude.{◌≡◌, ◌∷◌, ◌++◌, codes, map, IfOk, OnOk};
ghost use Rattle.boc_eval.specs.Faulted.{row_of, rows_of};
ghost use Rattle.boc_names.specs.Names.{named_cowns, texts_of};
ghost use Rattle.boc_notes.specs.Notes.{note_of_behaviour, noted, notes_text};

use crate::note::{Note, first_noted, text_of};
use boc_eval::Faulted;
use boc_names::{CownNames, behaviour_text, def_names};
use boc_program::program::Program;
use boc_program::text::Name;
use std::alloc::{AllocError, Global};

// Returns what is noted of a behaviour, with defs and cowns called so.
fn note_of(
    alloc: Global,
    defs: &[Vec<u8>],
    cowns: &CownNames,
    faulted: &Faulted,
) -> Result<Note, AllocError>
    ensures { IfOk result (λ note. noted note ≡ note_of_behaviour (texts_of defs.now) cowns.now (row_of faulted.now)) }
{
    let called = behaviour_text(alloc, defs, cowns, &faulted.instance)?;
    Ok(Note {
        row: faulted.row,
        called,
        ticks: faulted.ticks,
        status: faulted.status,
    })
}

// Appends what is noted of some behaviours to others.
fn put_notes(
    alloc: Global,
    notes: &mut Vec<Note>,
    defs: &[Vec<u8>],
    cowns: &CownNames,
    faulted: &[Faulted],
) -> Result<(), AllocError>
    ensures { OnOk result (map noted notes.new.items
        ≡ map noted notes.old.items ++ map (note_of_behaviour (texts_of defs.now) cowns.now) (rows_of faulted.now)) }
{
    match faulted {
        [] => Ok(()),
        [first, others @ ..] => {
            notes.push(note_of(alloc, defs, cowns, first)?)?;
            put_notes(alloc, notes, defs, cowns, others)
        }
    }
}

/// Returns the notes on the behaviours of a serial run of a program that ended by a fault. The names of the program's defs are given in the order of the text.
pub fn notes_on_serial(
    alloc: Global,
    program: &Program,
    defs: &[Name],
    faulted: &[Faulted],
) -> Result<Vec<u8>, AllocError>
    ensures { IfOk result (λ text. text.items
        ≡ notes_text (map (note_of_behaviour (codes "main" ∷ defs.now) (named_cowns program.now.cowns)) (rows_of faulted.now))) }
{
    let defs = def_names(alloc, defs)?;
    let cowns = CownNames::of(alloc, program.cowns.as_slice())?;
    let mut notes = Vec::new(alloc);
    put_notes(alloc, &mut notes, &defs, &cowns, first_noted(faulted))?;
    text_of(alloc, &notes, faulted.len())
}
