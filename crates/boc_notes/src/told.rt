// The notes on rows by what is reported of them.

ghost use Rattle.std.specs.Prelude.{◌≡◌, ◌++◌, true, false, List, map, MatchOption, IfOk, None, Some};
ghost use Rattle.boc_runs.specs.Run.{Member};
ghost use Rattle.boc_eval.specs.Instances.{AreTrueOf};
ghost use Rattle.boc_names.specs.Names.{member_text, texts_of};
ghost use Rattle.boc_notes.specs.Notes.{LacksTold, first_noted, instance_told, note_of_row, noted, notes_text};

use crate::note::{Note, first_noted, text_of};
use crate::rows::note_of;
use boc_eval::{Instance, ToldRow};
use boc_names::{CownNames, behaviour_text};
use boc_runs::rows::Row;
use std::alloc::{AllocError, Global};

// Returns what a row is, where that is reported.
fn instance_of(told: &[ToldRow], row: u32) -> Option<&Instance>
    ensures { MatchOption result (instance_told told.now row ≡ None) (λ instance. instance_told told.now row ≡ Some instance.now) }
{
    match told {
        [] => None,
        [first, others @ ..] => {
            if first.row == row {
                Some(&first.instance)
            } else {
                instance_of(others, row)
            }
        }
    }
}

// Appends what is noted of some rows, up to one of which it isn't told what it is. Returns whether there is none.
fn put_notes(
    alloc: Global,
    notes: &mut Vec<Note>,
    rows: &[Row],
    told: &[ToldRow],
    defs: &[Vec<u8>],
    cowns: &CownNames,
    faulted: &[u32],
) -> Result<bool, AllocError>
    ensures all { IfOk result (λ all. all ≡ true → (run : List Member) → AreTrueOf run told.now → map noted notes.new.items
        ≡ map noted notes.old.items ++ map (note_of_row (map (member_text (texts_of defs.now) cowns.now) run) rows.now) faulted.now) }
    ensures lacks { IfOk result (λ all. all ≡ false → LacksTold told.now faulted.now) }
{
    match faulted {
        [] => Ok(true),
        [first, others @ ..] => {
            let Some(instance) = instance_of(told, *first) else {
                return Ok(false);
            };
            let name = behaviour_text(alloc, defs, cowns, instance)?;
            notes.push(note_of(alloc, rows, &name, *first)?)?;
            put_notes(alloc, notes, rows, told, defs, cowns, others)
        }
    }
}

/// Returns the notes on those of some rows that have these numbers, by what is reported of those that are noted one by one; or nothing, where one of them isn't
/// reported. Defs and cowns are called so. `AllocError` says that memory was refused.
pub fn notes_on_told(
    alloc: Global,
    rows: &[Row],
    faulted: &[u32],
    told: &[ToldRow],
    defs: &[Vec<u8>],
    cowns: &CownNames,
) -> Result<Option<Vec<u8>>, AllocError>
    ensures { IfOk result (λ found. MatchOption found
        (LacksTold told.now (first_noted faulted.now))
        (λ text. (run : List Member) → AreTrueOf run told.now
        → text.items ≡ notes_text (map (note_of_row (map (member_text (texts_of defs.now) cowns.now) run) rows.now) faulted.now))) }
{
    let mut notes = Vec::new(alloc);
    if !put_notes(
        alloc,
        &mut notes,
        rows,
        told,
        defs,
        cowns,
        first_noted(faulted),
    )? {
        return Ok(None);
    }
    let text = text_of(alloc, &notes, faulted.len())?;
    Ok(Some(text))
}
