// What the words of a command line mean in the names of a run.

ghost use Rattle.std.specs.Prelude.{◌≡◌, ◌≢◌, ◌++◌, ◌<◌, ◌≤◌, [], All, filter, length, map, sum, IfOk, MatchResult, OnOk};
ghost use Rattle.std.specs.List.{range_with_len};
ghost use Rattle.boc_program.specs.declared.limits.TheConstants.{MOST_COWNS, MOST_ROWS};
ghost use Rattle.boc_plan_commands.specs.Asked.{all_cowns, called, cowns_of, edits_of, has_name, is_of, costs, marks_of, named, rows_of, starred};
ghost use Rattle.boc_plan_commands.specs.Asked.{AreMeant, IsOfCowns, IsOwner};

use boc_names::{Names, text_at};
use boc_plans::edit::{Change, Edit, Part};
use boc_program::short::HeldCown;
use boc_run_commands::{Fault, InputFault};
use boc_words::{AskedCown, AskedEdit};
use std::alloc::{AllocError, Global};

/// What edits that are asked for mean, up to the first that means none.
#[derive(Drop)]
pub(crate) struct MeantEdits {
    /// The edits of rows.
    pub edits: Vec<Edit>,
    /// For each of the asked edits that mean some, how many these are.
    pub counts: Vec<usize>,
}

// Returns the name of the family of an array's cowns.
fn starred(alloc: Global, name: &[u8]) -> Result<Vec<u8>, AllocError>
    ensures { IfOk result (λ text. text.items ≡ starred name.now) }
{
    let mut text = Vec::new(alloc);
    text.extend_from_slice(name)?;
    text.extend_from_slice(b"[*]")?;
    Ok(text)
}

// Returns whether a cown has this name, or its family has it.
fn has_name(names: &Names, name: &[u8], cown: usize) -> bool
    requires there { cown < length names.now.families.items }
    ensures { result ≡ has_name names.now name.now cown }
{
    let family = text_at(&names.family_names, names.families[cown] as usize);
    text_at(&names.cowns, cown) == name || family == name
}

// Appends all cowns that have this name, or whose family has it, to others.
fn put_named(cowns: &mut Vec<HeldCown>, names: &Names, name: &[u8]) -> Result<(), AllocError>
    requires families { length names.now.cowns.items ≡ length names.now.families.items }
    requires few { length names.now.families.items ≤ MOST_COWNS }
    ensures { OnOk result (cowns.new.items ≡ cowns.old.items ++ named names.now name.now) }
{
    for cown in 0..names.cowns.len() {
        if has_name(names, name, cown) {
            cowns.push(cown as HeldCown)?;
        }
    }
    Ok(())
}

// Appends all cowns that are called so to others: those with this name, or where there is none the members of the array with it.
fn put_called(
    alloc: Global,
    cowns: &mut Vec<HeldCown>,
    names: &Names,
    name: &[u8],
) -> Result<(), AllocError>
    requires families { length names.now.cowns.items ≡ length names.now.families.items }
    requires few { length names.now.families.items ≤ MOST_COWNS }
    ensures { OnOk result (cowns.new.items ≡ cowns.old.items ++ called names.now name.now) }
{
    let before = cowns.len();
    put_named(cowns, names, name)?;
    if cowns.len() == before {
        let array = starred(alloc, name)?;
        put_named(cowns, names, &array)?;
    }
    Ok(())
}

// Appends the cowns that are meant to others.
fn put_cowns(
    alloc: Global,
    cowns: &mut Vec<HeldCown>,
    names: &Names,
    asked: &AskedCown,
) -> Result<(), AllocError>
    requires families { length names.now.cowns.items ≡ length names.now.families.items }
    requires few { length names.now.families.items ≤ MOST_COWNS }
    ensures { OnOk result (cowns.new.items ≡ cowns.old.items ++ cowns_of names.now asked.now) }
{
    match asked {
        AskedCown::Number(number) if (*number as usize) < names.cowns.len() => {
            cowns.push(*number as HeldCown)?;
            Ok(())
        }
        AskedCown::Number(_) => Ok(()),
        AskedCown::Name(name) => put_called(alloc, cowns, names, name.as_bytes()),
    }
}

/// Returns all cowns that are meant, those of one asked cown after those of another. It is refused for the first that means none.
pub(crate) fn cowns_meant(
    alloc: Global,
    names: &Names,
    asked: &[AskedCown],
) -> Result<Vec<HeldCown>, Fault>
    requires families { length names.now.cowns.items ≡ length names.now.families.items }
    requires few { length names.now.families.items ≤ MOST_COWNS }
    ensures { MatchResult result
        (λ cowns. (cowns.items ≡ all_cowns names.now asked.now) × All (λ a. cowns_of names.now a ≢ []) asked.now)
        (IsOfCowns names.now asked.now) }
{
    let mut cowns = Vec::new(alloc);
    for (index, one) in asked.iter().enumerate() {
        let before = cowns.len();
        put_cowns(alloc, &mut cowns, names, one)?;
        if cowns.len() == before {
            let number = index + 1;
            return Err(Fault::Input(InputFault::Cown { number }));
        }
    }
    Ok(cowns)
}

// Returns whether a row is of the def with this name.
fn is_of(names: &Names, name: &[u8], row: usize) -> bool
    requires { row < length names.now.defs.items }
    ensures { result ≡ is_of names.now name.now row }
{
    text_at(&names.def_names, names.defs[row] as usize) == name
}

/// Returns for each row 1 if it is of the def with this name, and else 0. `AllocError` says that memory was refused.
pub(crate) fn marks_of(alloc: Global, names: &Names, name: &[u8]) -> Result<Vec<u32>, AllocError>
    ensures { IfOk result (λ marks. marks.items ≡ marks_of names.now name.now) }
{
    let mut marks = Vec::new(alloc);
    for row in 0..names.defs.len() {
        let mark = u32::from(is_of(names, name, row));
        marks.push(mark)?;
    }
    Ok(marks)
}

// Appends an edit for each row of the def with this name to others.
fn put_def(edits: &mut Vec<Edit>, names: &Names, name: &[u8], part: Part) -> Result<(), AllocError>
    requires { length names.now.defs.items ≤ MOST_ROWS }
    ensures { OnOk result (edits.new.items
        ≡ edits.old.items ++ map (costs part) (rows_of names.now name.now)) }
{
    for row in 0..names.defs.len() {
        if is_of(names, name, row) {
            let change = Change::Cost(part);
            edits.push(Edit {
                row: row as u32,
                change,
            })?;
        }
    }
    Ok(())
}

// Appends the edits that are meant to others.
fn put_edits(edits: &mut Vec<Edit>, names: &Names, asked: &AskedEdit) -> Result<(), AllocError>
    requires { length names.now.defs.items ≤ MOST_ROWS }
    ensures { OnOk result (edits.new.items ≡ edits.old.items ++ edits_of names.now asked.now) }
{
    match asked {
        AskedEdit::Row(Edit { row, change }) => {
            edits.push(Edit {
                row: *row,
                change: *change,
            })?;
            Ok(())
        }
        AskedEdit::Def { name, part } => put_def(edits, names, name.as_bytes(), *part),
    }
}

/// Returns what edits that are asked for mean, up to the first that means none. `AllocError` says that memory was refused.
pub(crate) fn edits_meant(
    alloc: Global,
    names: &Names,
    asked: &[AskedEdit],
) -> Result<MeantEdits, AllocError>
    requires { length names.now.defs.items ≤ MOST_ROWS }
    ensures { IfOk result (AreMeant names.now asked.now) }
{
    let mut edits = Vec::new(alloc);
    let mut counts = Vec::new(alloc);
    for one in asked {
        let before = edits.len();
        put_edits(&mut edits, names, one)?;
        let count = edits.len() - before;
        if count == 0 {
            return Ok(MeantEdits { edits, counts });
        }
        counts.push(count)?;
    }
    Ok(MeantEdits { edits, counts })
}

/// Returns the number, counted from 1, of the owner that the thing at this place belongs to, where each owner has this many, one after the other.
pub(crate) fn owner_of(counts: &[usize], place: usize) -> usize
    requires { place < sum counts.now }
    ensures { IsOwner counts.now place result }
{
    let mut left = place;
    for (index, count) in counts.iter().enumerate() {
        if left < *count {
            return index + 1;
        }
        left -= *count;
    }
    unreachable!()
}
