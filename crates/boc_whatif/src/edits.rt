// Edits of rows, made one after the other.

ghost use Rattle.std.specs.Prelude.{◌≡◌, ◌<◌, ◌↔◌, length, IfErr, IsTrue, OnErr, OnOk};
ghost use Rattle.boc_runs.specs.Rows.{IsLast, IsRows};
ghost use Rattle.boc_runs.specs.Changes.{FitsAt};
ghost use Rattle.boc_runs.specs.Siblings.{AreSiblings};
ghost use Rattle.boc_plans.specs.declared.edit.Change.TheVariants.{Cost, Offset, Ticks};
ghost use Rattle.boc_plans.specs.Edits.{IsChangeFault, IsChanged, IsEditFault};
ghost use Rattle.boc_sweep.specs.Lasts.{HasLasts};
ghost use Rattle.boc_whatif.specs.Asked.{HasMade};

use boc_plans::edit::{Change, Edit, EditFault, Part};
use boc_program::limits::MOST_TICKS;
use boc_runs::rows::{Row, Rows};
use boc_runs::siblings::Siblings;
use boc_sweep::least_ticks;
use thiserror::Error;

/// The first of some edits that the rows can't take.
#[derive(Clone, Copy, PartialEq, Eq, Debug, Error)]
#[error("edit {number}: {fault}")]
pub struct Unfit {
    /// Its number, counted from 1.
    pub number: usize,
    /// Why the rows can't take it, as the edits before it have made them.
    pub fault: EditFault,
}

// Returns whether a row other than main can be spawned at this tick of its parent.
fn can_stand_at(rows: &[Row], siblings: &Siblings, row: usize, offset: u32) -> bool
    requires shape { IsRows rows.now }
    requires siblings { AreSiblings rows.now siblings.now }
    requires child { 0 < row }
    requires there { row < length rows.now }
    ensures { IsTrue result ↔ FitsAt rows.now row offset }
{
    let parent = rows[row].parent as usize;
    // Main, whose offset is 0, stands for the earlier sibling of a row without one.
    let elder = siblings.elder(row);
    if offset <= rows[elder].offset || rows[parent].ticks < offset {
        return false;
    }
    let younger = siblings.younger(row);
    younger >= rows.len() || offset < rows[younger].offset
}

// Returns the offset of a row's last child, and 0 where it has none.
fn last_child(rows: &[Row], siblings: &Siblings, parent: usize) -> u32
    requires shape { IsRows rows.now }
    requires siblings { AreSiblings rows.now siblings.now }
    requires there { parent < length rows.now }
    ensures { IsLast rows.now (length rows.now) parent result }
{
    // Main, whose offset is 0, stands for the child of a row without one.
    rows[siblings.last_child(parent)].offset
}

// Has a row take this many ticks.
fn set_ticks(rows: &mut Rows, lasts: &[u32], row: u32, ticks: u32) -> Result<(), EditFault>
    requires there { row < length rows.old }
    requires lasts { HasLasts rows.old lasts.now }
    ensures made { OnOk result (IsChanged rows.old row (Ticks ticks) rows.new) }
    ensures lasts { HasLasts rows.new lasts.now }
    ensures fault { IfErr result (IsChangeFault rows.old row (Ticks ticks)) }
    ensures stays { OnErr result (rows.new ≡ rows.old) }
{
    if ticks < least_ticks(lasts[row as usize]) {
        Err(EditFault::BelowSpawn)
    } else if ticks > MOST_TICKS {
        Err(EditFault::TooManyTicks)
    } else {
        rows.set_ticks(row, ticks);
        Ok(())
    }
}

// Has a row be spawned at this tick of its parent.
fn set_offset(
    rows: &mut Rows,
    lasts: &mut [u32],
    siblings: &Siblings,
    row: u32,
    offset: u32,
) -> Result<(), EditFault>
    requires there { row < length rows.old }
    requires lasts { HasLasts rows.old lasts.old }
    requires siblings { AreSiblings rows.old siblings.now }
    ensures made { OnOk result (IsChanged rows.old row (Offset offset) rows.new) }
    ensures lasts { HasLasts rows.new lasts.new }
    ensures fault { IfErr result (IsChangeFault rows.old row (Offset offset)) }
    ensures stays { OnErr result (rows.new ≡ rows.old) }
{
    if row == 0 {
        return Err(EditFault::NoParent);
    }
    if !can_stand_at(rows.as_slice(), siblings, row as usize, offset) {
        return Err(EditFault::NotBetween);
    }
    let parent = rows.as_slice()[row as usize].parent as usize;
    rows.set_offset(row, offset);
    lasts[parent] = last_child(rows.as_slice(), siblings, parent);
    Ok(())
}

// Has a row cost a part of what it did.
fn set_cost(
    rows: &mut Rows,
    lasts: &mut [u32],
    siblings: &Siblings,
    row: u32,
    part: Part,
) -> Result<(), EditFault>
    requires there { row < length rows.old }
    requires lasts { HasLasts rows.old lasts.old }
    requires siblings { AreSiblings rows.old siblings.now }
    ensures made { OnOk result (IsChanged rows.old row (Cost part) rows.new) }
    ensures lasts { HasLasts rows.new lasts.new }
    ensures fault { IfErr result (IsChangeFault rows.old row (Cost part)) }
    ensures stays { OnErr result (rows.new ≡ rows.old) }
{
    if !rows.scale(row, part.over(), part.under(), siblings) {
        return Err(EditFault::TooManyTicks);
    }
    lasts[row as usize] = last_child(rows.as_slice(), siblings, row as usize);
    Ok(())
}

/// Makes an edit. The fault says why it can't be made, and then nothing changes. It takes time that grows with the row's children.
pub fn make(
    rows: &mut Rows,
    lasts: &mut [u32],
    siblings: &Siblings,
    edit: Edit,
) -> Result<(), EditFault>
    requires lasts { HasLasts rows.old lasts.old }
    requires siblings { AreSiblings rows.old siblings.now }
    ensures made { OnOk result (IsChanged rows.old edit.row edit.change rows.new) }
    ensures lasts { HasLasts rows.new lasts.new }
    ensures fault { IfErr result (IsEditFault rows.old edit) }
    ensures stays { OnErr result (rows.new ≡ rows.old) }
{
    let Edit { row, change } = edit;
    if row as usize >= rows.as_slice().len() {
        return Err(EditFault::NoRow);
    }
    match change {
        Change::Ticks(ticks) => set_ticks(rows, lasts, row, ticks),
        Change::Offset(offset) => set_offset(rows, lasts, siblings, row, offset),
        Change::Cost(part) => set_cost(rows, lasts, siblings, row, part),
    }
}

/// Makes the edits, one after the other, up to the first that the rows can't take. Answers the lowest row that was edited next to it;
/// where none was, the number of rows.
pub fn make_all(
    rows: &mut Rows,
    lasts: &mut [u32],
    siblings: &Siblings,
    edits: &[Edit],
) -> (usize, Result<(), Unfit>)
    requires lasts { HasLasts rows.old lasts.old }
    requires siblings { AreSiblings rows.old siblings.now }
    ensures made { HasMade rows.old edits.now rows.new result.0 result.1 }
    ensures lasts { HasLasts rows.new lasts.new }
{
    let mut from = rows.as_slice().len();
    for (index, edit) in edits.iter().enumerate() {
        if let Err(fault) = make(rows, lasts, siblings, *edit) {
            let number = index + 1;
            return (from, Err(Unfit { number, fault }));
        }
        from = from.min(edit.row as usize);
    }
    (from, Ok(()))
}
