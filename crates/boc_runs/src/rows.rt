// The rows of a record: for each behaviour who spawned it, what it needed, and how long it ran.

ghost use Rattle.std.specs.Prelude.{◌≡◌, ◌<◌, ◌≤◌, List, length, IfOk, true, false};
ghost use Rattle.boc_program.specs.declared.limits.TheConstants.{MOST_TICKS};
ghost use Rattle.boc_runs.specs.declared.rows.Row.{Row};
ghost use Rattle.boc_runs.specs.Rows.{IsRows, ticks_of};
ghost use Rattle.boc_runs.specs.Changes.{IsScaled, part_of};
ghost use Rattle.boc_runs.specs.Siblings.{AreSiblings};

use crate::siblings::Siblings;
use boc_program::body::EndStatus;
use boc_program::held::HeldCowns;
use boc_program::limits::MOST_TICKS;
use boc_program::short::HeldCown;
use std::alloc::{AllocError, Global};
use std::marker::Model;

/// A behaviour of a finished run.
#[derive(Drop, Debug)]
pub struct Row {
    /// The row that spawned it; 0 for main.
    pub parent: u32,
    /// The ticks that its parent had counted when it was spawned; 0 for main.
    pub offset: u32,
    /// The ticks that it took, from 1 to 1,000,000.
    pub ticks: u32,
    /// Its cowns, which rise strictly.
    pub cowns: HeldCowns,
    /// Those of its cowns that an assignment wrote, which rise strictly.
    pub written: HeldCowns,
    /// How it ended.
    pub status: EndStatus,
}

const _: () = prove!(size_of::<Row>() == 32);

/// The behaviours of a finished run in the order of their spawns, main first.
///
/// There are 1 to 65,535. Cowns rise strictly and are below 256. Main has parent 0, offset 0 and no cowns.
/// Each other row's parent has a smaller number. The offsets of one parent's children rise strictly from at
/// least 1. Ticks are 1 to 1,000,000, and at least the offset of the last child. What a row wrote rises strictly and is
/// among its cowns.
#[derive(Drop, Debug)]
pub struct Rows {
    list: Vec<Row>,
}

impl Model for Rows {
    ghost use Rattle.std.specs.Prelude.{List};
    ghost use Rattle.boc_runs.specs.declared.rows.Row.{Row};

    ghost Value = { List Row };

    ghost use Rattle.boc_runs.specs.Rows.{IsRows};

    ghost view = { λ r. r.list.items };

    ghost invariant = { λ r. IsRows r.list.items };
}

impl Row {
    ghost use Rattle.boc_runs.specs.Changes.{freed_row};

    /// Returns the same row once more. It takes no memory.
    pub fn duplicate(&self) -> Row
        ensures { result ≡ self.now }
    {
        Row {
            parent: self.parent,
            offset: self.offset,
            ticks: self.ticks,
            cowns: self.cowns.duplicate(),
            written: self.written.duplicate(),
            status: self.status,
        }
    }

    /// Returns the same row without a cown. It takes no memory.
    pub fn without(&self, cown: HeldCown) -> Row
        ensures { result ≡ freed_row cown self.now }
    {
        Row {
            parent: self.parent,
            offset: self.offset,
            ticks: self.ticks,
            cowns: self.cowns.without(cown),
            written: self.written.without(cown),
            status: self.status,
        }
    }
}

// Returns the given number of ticks times `over / under`, rounded up.
fn part(ticks: u32, over: u32, under: u32) -> u64
    requires { 0 < under }
    ensures { result ≡ part_of over under ticks }
{
    (u64::from(ticks) * u64::from(over)).div_ceil(u64::from(under))
}

// Returns the ticks of a row that costs `over / under` of what it did. Its children's offsets are that part of theirs, and rise.
fn scaled_ticks(rows: &[Row], row: usize, over: u32, under: u32, siblings: &Siblings) -> u64
    requires shape { IsRows rows.now }
    requires there { row < length rows.now }
    requires some { 0 < under }
    requires siblings { AreSiblings rows.now siblings.now }
    ensures { (after : List Row) × IsScaled rows.now row over under after × (result ≡ ticks_of after row) }
{
    let mut last = 0;
    let mut child = siblings.first_child(row);
    while child < rows.len() {
        last = part(rows[child].offset, over, under).max(last + 1);
        child = siblings.younger(child);
    }
    part(rows[row].ticks, over, under).max(last).max(1)
}

// A row costs `over / under` of what it did, and takes these ticks for it. Its children get their offsets.
fn scale_rows(rows: &mut [Row], row: usize, over: u32, under: u32, ticks: u32, siblings: &Siblings)
    requires shape { IsRows rows.old }
    requires there { row < length rows.old }
    requires some { 0 < under }
    requires siblings { AreSiblings rows.old siblings.now }
    requires few { ticks ≤ MOST_TICKS }
    requires ticks { (after : List Row) × IsScaled rows.old row over under after × (ticks ≡ ticks_of after row) }
    ensures scaled { IsScaled rows.old row over under rows.new }
    ensures ticks { ticks_of rows.new row ≡ ticks }
{
    let mut last = 0;
    let mut child = siblings.first_child(row);
    while child < rows.len() {
        let offset = part(rows[child].offset, over, under).max(last + 1);
        rows[child].offset = offset as u32;
        last = offset;
        child = siblings.younger(child);
    }
    rows[row].ticks = ticks;
}

impl Rows {
    ghost use Rattle.boc_runs.specs.Rows.{Fits, edited};
    ghost use Rattle.boc_runs.specs.Changes.{FitsAt, moved, without};

    /// Makes rows of these, main first. It takes no memory.
    pub fn new(list: Vec<Row>) -> Rows
        requires { IsRows list.items }
        ensures { result ≡ list.items }
    {
        Rows { list }
    }

    /// Returns the rows in the order of their numbers.
    pub fn as_slice(&self) -> &[Row]
        ensures same { result.now ≡ self.now }
        ensures shape { IsRows self.now }
    {
        self.list.as_slice()
    }

    /// Returns the same rows once more. `AllocError` says that memory was refused.
    pub fn copy(&self, alloc: Global) -> Result<Rows, AllocError>
        ensures { IfOk result (λ rows. rows ≡ self.now) }
    {
        let mut list = Vec::with_capacity(alloc, self.list.len())?;
        for row in &self.list {
            list.push(row.duplicate())?;
        }
        Ok(Rows { list })
    }

    /// Makes a row take this many ticks, from 1 to 1,000,000 and no fewer than the offset of its last child. It takes
    /// no memory.
    pub fn set_ticks(&mut self, row: u32, ticks: u32)
        requires { Fits self.old row ticks }
        ensures { self.new ≡ edited self.old row ticks }
    {
        self.list[row as usize].ticks = ticks;
    }

    /// Makes a row other than main be spawned at this tick of its parent: above its earlier sibling's offset, 1 at least, below its later
    /// sibling's, and at most its parent's ticks. It takes no memory.
    pub fn set_offset(&mut self, row: u32, offset: u32)
        requires { FitsAt self.old row offset }
        ensures { self.new ≡ moved self.old row offset }
    {
        self.list[row as usize].offset = offset;
    }

    /// Makes a row cost `over / under` of what it did, rounded up, and spawn its children this much sooner or later: an offset is at least one
    /// above the earlier sibling's, and the ticks are 1 at least and no fewer than the last child's offset. Answers whether the row can; where it
    /// would take more than 1,000,000 ticks it can't, and nothing changes. It takes no memory, and time that grows with the row's children.
    pub fn scale(&mut self, row: u32, over: u32, under: u32, siblings: &Siblings) -> bool
        requires there { row < length self.old }
        requires some { 0 < under }
        requires siblings { AreSiblings self.old siblings.now }
        ensures scaled { result ≡ true → IsScaled self.old row over under self.new × (ticks_of self.new row ≤ MOST_TICKS) }
        ensures too_many { result ≡ false → (after : List Row) × IsScaled self.old row over under after × (MOST_TICKS < ticks_of after row) }
        ensures stays { result ≡ false → self.new ≡ self.old }
    {
        let ticks = scaled_ticks(&self.list, row as usize, over, under, siblings);
        if ticks > u64::from(MOST_TICKS) {
            return false;
        }
        scale_rows(
            &mut self.list,
            row as usize,
            over,
            under,
            ticks as u32,
            siblings,
        );
        true
    }

    /// Returns the same rows, none of which has this cown. `AllocError` says that memory was refused.
    pub fn without(&self, alloc: Global, cown: HeldCown) -> Result<Rows, AllocError>
        ensures { IfOk result (λ rows. rows ≡ without cown self.now) }
    {
        let mut list = Vec::with_capacity(alloc, self.list.len())?;
        for row in &self.list {
            list.push(row.without(cown))?;
        }
        Ok(Rows { list })
    }
}
