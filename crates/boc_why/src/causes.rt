// What may hold a program back, and the rows without what it costs.

ghost use Rattle.std.specs.Prelude.{◌≡◌, ◌≤◌, length, IfOk, OnOk, OnErr};
ghost use Rattle.boc_program.specs.declared.limits.TheConstants.{MOST_COWNS, MOST_ROWS};
ghost use Rattle.boc_program.specs.Cowns.{AreAmong};
ghost use Rattle.boc_plans.specs.Edits.{AreEdited};
ghost use Rattle.boc_why.specs.Causes.{AreMarks, AreOffsetsHalved, AreSpawnedEarly, IsWith, def_edits, freed_from, half, without_all};

use boc_plans::edit::{Change, Edit, Part};
use boc_program::limits::MOST_COWNS;
use boc_program::short::HeldCown;
use boc_runs::rows::{Row, Rows};
use std::alloc::{AllocError, Global};

/// What may hold a program back.
#[derive(Drop, Debug)]
pub enum Cause {
    /// What the behaviours of a def cost.
    Cost(u32),
    /// The order of some cowns.
    Order(Vec<HeldCown>),
    /// Where the behaviours of a def spawn.
    Spawns(u32),
}

/// Returns the edits by which each row of a def costs this part of what it did, in the order of the rows, whose defs these are. `AllocError` says that
/// memory was refused.
pub fn def_edits(alloc: Global, defs: &[u32], def: u32, part: Part) -> Result<Vec<Edit>, AllocError>
    requires few { length defs.now ≤ MOST_ROWS }
    ensures { IfOk result (λ edits. edits.items ≡ def_edits part def 0 defs.now) }
{
    let mut edits = Vec::new(alloc);
    for (row, own) in defs.iter().enumerate() {
        if *own == def {
            let change = Change::Cost(part);
            edits.push(Edit {
                row: row as u32,
                change,
            })?;
        }
    }
    Ok(edits)
}

// Returns a row without those of its cowns that are left out.
fn freed(row: &Row, is_left_out: &[bool]) -> Row
    requires marks { length is_left_out.now ≡ MOST_COWNS }
    requires among { AreAmong row.now.cowns.items row.now.written.items }
    ensures { result ≡ freed_from is_left_out.now row.now }
{
    let mut left = row.duplicate();
    for cown in row.cowns.as_slice() {
        if is_left_out[*cown as usize] {
            left = left.without(*cown);
        }
    }
    left
}

// Returns for each cown whether it is one of these. `AllocError` says that memory was refused.
fn marks_of(alloc: Global, cowns: &[HeldCown]) -> Result<Vec<bool>, AllocError>
    ensures { IfOk result (λ marks. AreMarks cowns.now marks.items) }
{
    let mut marks = vec![in alloc; false; MOST_COWNS]?;
    for cown in cowns {
        marks[*cown as usize] = true;
    }
    Ok(marks)
}

/// Returns the same rows, none of which has one of these cowns. `AllocError` says that memory was refused, and then the rows are gone.
///
/// It goes over the rows once, however many cowns there are.
pub fn without_all(alloc: Global, rows: Rows, cowns: &[HeldCown]) -> Result<Rows, AllocError>
    ensures { IfOk result (λ left. left ≡ without_all cowns.now rows) }
{
    let is_left_out = marks_of(alloc, cowns)?;
    let mut left = Vec::with_capacity(alloc, rows.as_slice().len())?;
    for row in rows.as_slice() {
        left.push_reserved(freed(row, &is_left_out));
    }
    Ok(Rows::new(left))
}

/// Makes the rows of a def spawn as early as they can: the first child at tick 1, and each other one a tick after its earlier sibling. These are the
/// defs of the rows. `AllocError` says that memory was refused, and then nothing changes.
pub fn spawn_early(alloc: Global, rows: &mut Rows, defs: &[u32], def: u32) -> Result<(), AllocError>
    requires defs { length defs.now ≡ length rows.old }
    ensures early { OnOk result (AreSpawnedEarly rows.old defs.now def rows.new) }
    ensures stays { OnErr result (rows.new ≡ rows.old) }
{
    let mut lasts = vec![in alloc; 0; defs.len()]?;
    for row in 1..defs.len() {
        let parent = rows.as_slice()[row].parent as usize;
        if defs[parent] == def {
            let offset = lasts[parent] + 1;
            rows.set_offset(row as u32, offset);
            lasts[parent] = offset;
        }
    }
    Ok(())
}

// Has the children of the rows of a def be spawned after half as many ticks, rounded up, and each at least a tick after its earlier sibling. Returns for each
// row of the def the offset of its last child, or 0. `AllocError` says that memory was refused, and then nothing changes.
fn halve_offsets(
    alloc: Global,
    rows: &mut Rows,
    defs: &[u32],
    def: u32,
) -> Result<Vec<u32>, AllocError>
    requires defs { length defs.now ≡ length rows.old }
    ensures halved { IfOk result (λ lasts. AreOffsetsHalved rows.old defs.now def rows.new lasts.items) }
    ensures stays { OnErr result (rows.new ≡ rows.old) }
{
    let mut lasts = vec![in alloc; 0; defs.len()]?;
    for row in 1..defs.len() {
        let own = &rows.as_slice()[row];
        let parent = own.parent as usize;
        if defs[parent] == def {
            let offset = own.offset.div_ceil(2).max(lasts[parent] + 1);
            rows.set_offset(row as u32, offset);
            lasts[parent] = offset;
        }
    }
    Ok(lasts)
}

/// Has the rows of a def cost half of what they did, rounded up: their ticks, and the offsets of their children, which stay at least a tick apart. It is what
/// the edits of these rows result in, one after the other. These are the defs of the rows. `AllocError` says that memory was refused, and then nothing changes.
///
/// It goes over the rows twice.
pub fn halve(alloc: Global, rows: &mut Rows, defs: &[u32], def: u32) -> Result<(), AllocError>
    requires defs { length defs.now ≡ length rows.old }
    ensures halved { OnOk result (AreEdited rows.old (def_edits half def 0 defs.now) rows.new) }
    ensures stays { OnErr result (rows.new ≡ rows.old) }
{
    let lasts = halve_offsets(alloc, rows, defs, def)?;
    for row in 0..rows.as_slice().len() {
        if defs[row] == def {
            let ticks = rows.as_slice()[row].ticks.div_ceil(2).max(lasts[row]);
            rows.set_ticks(row as u32, ticks);
        }
    }
    Ok(())
}

/// Returns the rows with a cause changed: a def's behaviours cost half as much, the cowns impose no order, or a def's behaviours spawn as early as they can.
/// These are the defs of the rows. `AllocError` says that memory was refused.
///
/// It takes a copy of the rows, and goes over them once or twice more.
pub fn rows_with(
    alloc: Global,
    rows: &Rows,
    defs: &[u32],
    cause: &Cause,
) -> Result<Rows, AllocError>
    requires defs { length defs.now ≡ length rows.now }
    ensures { IfOk result (IsWith rows.now defs.now cause.now) }
{
    let mut copy = rows.copy(alloc)?;
    match cause {
        Cause::Cost(def) => halve(alloc, &mut copy, defs, *def)?,
        Cause::Order(cowns) => copy = without_all(alloc, copy, cowns)?,
        Cause::Spawns(def) => spawn_early(alloc, &mut copy, defs, *def)?,
    }
    Ok(copy)
}
