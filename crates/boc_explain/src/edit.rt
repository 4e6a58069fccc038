// Edits that the rows of a record can't take.

ghost use Rattle.std.specs.Prelude.{IfOk, string_bytes};
ghost use Rattle.boc_said.specs.Lines.{AreLines};

use crate::formed::{number, put_last_child};
use crate::names::{Called, Naming, names_by_file, names_by_program};
use crate::run::last_child;
use boc_names::{Names, text_at};
use boc_plans::edit::{Change, Edit, EditFault, Part as Fraction};
use boc_plans::sharing::Sharing;
use boc_program::limits::MOST_TICKS;
use boc_record::read_rows;
use boc_runs::rows::Row;
use boc_said::place::Text;
use boc_said::said::Part::{Many, Number, Words};
use boc_said::said::{Explained, Said, Told};
use boc_text::Bytes;
use boc_whatif::WhatIf;
use std::alloc::{AllocError, Global};

/// An edit that words ask for.
#[derive(Drop, Debug)]
pub enum Asked {
    /// The edit of a row.
    Row(Edit),
    /// Each row of the def with this name costs this part of its ticks.
    Def { name: String, part: Fraction },
}

/// Returns what is reported of the last of these edits, which the rows of a record can't take as those before it have made them. Its word is next to them.
pub fn explain_edit(
    alloc: Global,
    text: Text<'_>,
    naming: Naming<'_>,
    word: &str,
    edits: &[Asked],
    fault: EditFault,
) -> Explained
    ensures { IfOk result (λ told. AreLines (string_bytes told)) }
{
    let mut said = Said::new(alloc);
    said.set_subject(word.as_bytes())?;
    if text.whole {
        put_last(&mut said, text.bytes, naming, edits, fault)?;
    }
    said.into_text(None)
}

// Reports why the rows of a record can't take the last of these edits, where it is known what rows are called.
fn put_last(
    said: &mut Said,
    text: &[u8],
    naming: Naming<'_>,
    edits: &[Asked],
    fault: EditFault,
) -> Told {
    let Some(names) = names_for(said.alloc, text, naming, edits)? else {
        return Ok(());
    };
    let made = edits_of(said.alloc, &names, edits)?;
    put_unfit(said, text, &made, fault)
}

/// Returns what is reported of an edit that the rows of a program's run can't take, or those of a record with other spawns. Its word is this. The input doesn't
/// say which rows these are.
#[rattlefmt::skip]
pub fn explain_edit_of_run(alloc: Global, word: &str, fault: EditFault) -> Explained
    ensures { IfOk result (λ told. AreLines (string_bytes told)) }
{
    let reason = match fault {
        EditFault::NoRow => "the run has no such row; rows count from 0, in the order of their spawns",
        EditFault::NoParent => "row 0 is main, which no row spawns",
        EditFault::TooManyTicks => "a row takes at most 1000000 ticks",
        EditFault::BelowSpawn => "a row takes at least 1 tick, and at least the offset of its last child",
        EditFault::NotBetween => "a row is spawned at a tick of its parent, between those at which its siblings are",
    };
    let mut said = Said::new(alloc);
    said.set_subject(word.as_bytes())?;
    said.about(reason, &[])?;
    said.into_text(None)
}

// Reports why the rows of a record can't take the first of these edits that they can't.
fn put_unfit(said: &mut Said, text: &[u8], edits: &[Edit], fault: EditFault) -> Told {
    let mut source = Bytes::new(Vec::from_slice(said.alloc, text)?);
    let Ok(rows) = read_rows(said.alloc, &mut source) else {
        return Ok(());
    };
    let mut run = WhatIf::of(said.alloc, rows, Sharing::Exclusive)?;
    let Err(unfit) = run.edit_all(edits) else {
        return Ok(());
    };
    match edits.get(unfit.number.saturating_sub(1)) {
        Some(edit) => put_refused(said, run.rows().as_slice(), *edit, fault),
        None => Ok(()),
    }
}

// Returns the names of the rows of a record, if an edit asks for them; none of no rows.
fn names_for(alloc: Global, text: &[u8], naming: Naming<'_>, edits: &[Asked]) -> Called {
    let asks = |asked: &Asked| matches!(asked, Asked::Def { .. });
    if !edits.iter().any(asks) {
        return names_by_file(alloc, b"", None);
    }
    match naming {
        Naming::Program(program) => names_by_program(alloc, text, program),
        Naming::Names(file) => names_by_file(alloc, text, Some(file)),
        Naming::Numbers => names_by_file(alloc, text, None),
    }
}

// Returns the edits of rows that these edits are: that of a def is one of each row that is called so.
fn edits_of(alloc: Global, names: &Names, edits: &[Asked]) -> Result<Vec<Edit>, AllocError> {
    let mut made = Vec::new(alloc);
    for asked in edits {
        match asked {
            Asked::Row(edit) => made.push(*edit)?,
            Asked::Def { name, part } => put_edits(&mut made, names, name.as_bytes(), *part)?,
        }
    }
    Ok(made)
}

// Appends an edit of each row that is called so.
fn put_edits(edits: &mut Vec<Edit>, names: &Names, name: &[u8], part: Fraction) -> Told {
    let mut row: u32 = 0;
    for def in &names.defs {
        if text_at(&names.def_names, *def as usize) == name {
            edits.push(Edit {
                row,
                change: Change::Cost(part),
            })?;
        }
        row = row.saturating_add(1);
    }
    Ok(())
}

// Reports why rows can't take an edit.
fn put_refused(said: &mut Said, rows: &[Row], edit: Edit, fault: EditFault) -> Told {
    match fault {
        EditFault::NoRow => {
            let last = Number((rows.len() as u64).saturating_sub(1));
            said.about("the record has rows 0 to ", &[last])
        }
        EditFault::NoParent => said.about("row 0 is main, which no row spawns", &[]),
        EditFault::TooManyTicks => put_many(said, rows, edit),
        EditFault::BelowSpawn => put_below(said, rows, edit.row),
        EditFault::NotBetween => put_between(said, rows, edit.row),
    }
}

// Reports how many ticks a row would take.
fn put_many(said: &mut Said, rows: &[Row], edit: Edit) -> Told {
    let (Change::Cost(_), Some(row)) = (edit.change, rows.get(edit.row as usize)) else {
        return said.about("a row takes at most 1000000 ticks", &[]);
    };
    let parts = [number(edit.row), Many(u64::from(row.ticks), "tick")];
    let words = "row {} takes {}; the edit would exceed the limit of 1000000";
    said.about(words, &parts)
}

// Reports the fewest ticks that a row can take.
fn put_below(said: &mut Said, rows: &[Row], row: u32) -> Told {
    let Some((child, tick)) = last_child(rows, row) else {
        return said.about("a row takes at least 1 tick", &[]);
    };
    let words = "row {} spawns row {} at its tick {}, so it takes at least ";
    let least = Many(u64::from(tick), "tick");
    put_last_child(said, words, row, (child, tick), least)
}

// Reports between which ticks of its parent a row can be spawned.
fn put_between(said: &mut Said, rows: &[Row], place: u32) -> Told {
    let (before, others) = rows.split_at(rows.len().min(place as usize));
    let Some((row, behind)) = others.split_first() else {
        return Ok(());
    };
    let elder = last_child(before, row.parent);
    let younger = behind.iter().find(|other| other.parent == row.parent);
    let siblings = match (elder, younger) {
        (Some(_), Some(_)) => ", between its siblings,",
        (Some(_), None) => ", after its earlier sibling,",
        (None, Some(_)) => ", before its later sibling,",
        (None, None) => "",
    };
    let least = elder.map_or(1, |(_, tick)| tick.saturating_add(1));
    let most = match (younger, rows.get(row.parent as usize)) {
        (Some(other), _) => other.offset.saturating_sub(1),
        (None, Some(parent)) => parent.ticks,
        (None, None) => MOST_TICKS,
    };
    let (place, siblings, parent) = (number(place), Words(siblings), number(row.parent));
    let (first, last) = (number(least), number(most));
    if least == most {
        let words = "row {}{} can be spawned only at tick {} of row ";
        return said.about(words, &[place, siblings, first, parent]);
    }
    let words = "row {}{} can be spawned at tick {} to {} of row ";
    said.about(words, &[place, siblings, first, last, parent])
}
