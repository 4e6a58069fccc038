// The rows for which each row waits, by what was used of each cown before it.

ghost use Rattle.std.specs.Prelude.{◌≡◌, ◌<◌, ◌≤◌, ◌+◌, length, List, Contains, IfOk};
ghost use Rattle.boc_runs.specs.declared.rows.Row.{Row};
ghost use Rattle.boc_runs.specs.Rows.{IsRows, cowns_of};
ghost use Rattle.boc_order.specs.Waits.{AreBounds, links_of, lists_between};
ghost use Rattle.boc_order.specs.Gathered.{AreGathered};
ghost use Rattle.boc_order.specs.Uses.{IsUse, AreUses, AddsNearOn, AddsNear};

use crate::links::{Links, end_of};
use boc_plans::sharing::SeenRows;
use boc_program::limits::{MOST_COWNS, MOST_HELD, MOST_ROWS};
use boc_program::short::HeldCown;
use std::alloc::{AllocError, Global};

/// The last row that wrote a cown, and the rows that have only read it since.
#[derive(Drop)]
pub struct Use {
    /// The last writer.
    pub writer: Option<u32>,
    /// The readers since.
    pub readers: Vec<u32>,
}

// No cown was used. `AllocError` says that memory was refused.
pub(crate) fn unused(alloc: Global) -> Result<Vec<Use>, AllocError>
    ensures { IfOk result (λ uses. (rows : List Row) → AreUses rows 0 uses.items) }
{
    let mut uses = Vec::with_capacity(alloc, MOST_COWNS)?;
    for _ in 0..MOST_COWNS {
        uses.push_reserved(Use {
            writer: None,
            readers: Vec::new(alloc),
        });
    }
    Ok(uses)
}

// Adds the rows for which a row waits on one of its cowns: to write it the readers, and where there are none, or to
// read it, the writer.
pub(crate) fn add_waits(
    rows: &SeenRows,
    row: usize,
    cown: HeldCown,
    used: &Use,
    list: &mut Vec<u32>,
) -> Result<(), AllocError>
    requires shape { IsRows rows.now }
    requires there { row < length rows.now }
    requires own { Contains (cowns_of rows.now row) cown }
    requires used { IsUse rows.now row cown used.now }
    ensures { IfOk result (λ _. AddsNearOn rows.now row cown list.old.items list.new.items) }
{
    if rows.writes(row, cown) && !used.readers.is_empty() {
        list.extend_from_slice(&used.readers)?;
    } else if let Some(writer) = used.writer {
        list.push(writer)?;
    }
    Ok(())
}

// Notes that a row uses one of its cowns.
pub(crate) fn note_use(
    rows: &SeenRows,
    row: usize,
    cown: HeldCown,
    used: &mut Use,
) -> Result<(), AllocError>
    requires shape { IsRows rows.now }
    requires there { row < length rows.now }
    requires own { Contains (cowns_of rows.now row) cown }
    requires used { IsUse rows.now row cown used.old }
    ensures { IfOk result (λ _. IsUse rows.now (row + 1) cown used.new) }
{
    if rows.writes(row, cown) {
        used.writer = Some(row as u32);
        used.readers.clear();
    } else {
        used.readers.push(row as u32)?;
    }
    Ok(())
}

// Adds the rows for which a row waits, and notes what it uses.
pub(crate) fn gather(
    rows: &SeenRows,
    row: usize,
    uses: &mut [Use],
    list: &mut Vec<u32>,
) -> Result<(), AllocError>
    requires shape { IsRows rows.now }
    requires there { row < length rows.now }
    requires uses { AreUses rows.now row uses.old }
    ensures uses { IfOk result (λ _. AreUses rows.now (row + 1) uses.new) }
    ensures adds { IfOk result (λ _. AddsNear rows.now row list.old.items list.new.items) }
{
    for cown in rows.cowns(row) {
        let used = &mut uses[*cown as usize];
        add_waits(rows, row, *cown, used, list)?;
        note_use(rows, row, *cown, used)?;
    }
    Ok(())
}

/// The rows for which the rows so far wait.
#[derive(Drop)]
pub struct Gathering {
    /// What was used of each cown.
    pub uses: Vec<Use>,
    /// Where each row's waits begin in the list, and where those of the last row end.
    pub first: Vec<u32>,
    /// The waits of all rows, one after the other.
    pub list: Vec<u32>,
}

impl Gathering {
    // No row's waits are gathered, and there is space for the bounds of this many. `AllocError` says that memory was
    // refused.
    pub(crate) fn with_room(alloc: Global, count: usize) -> Result<Gathering, AllocError>
        requires { count ≤ MOST_ROWS }
        ensures { IfOk result (λ g. (rows : List Row) → length rows ≡ count → AreGathered rows 0 g) }
    {
        let mut first = Vec::with_capacity(alloc, count + 1)?;
        first.push_reserved(0);
        Ok(Gathering {
            uses: unused(alloc)?,
            first,
            // A row waits for no more rows than it has cowns, where cowns are exclusive.
            list: Vec::with_capacity(alloc, MOST_HELD * count)?,
        })
    }

    // Gathers the waits of the next row.
    pub(crate) fn gather_next(&mut self, rows: &SeenRows, row: usize) -> Result<(), AllocError>
        requires shape { IsRows rows.now }
        requires there { row < length rows.now }
        requires gathered { AreGathered rows.now row self.old }
        ensures { IfOk result (λ _. AreGathered rows.now (row + 1) self.new) }
    {
        gather(rows, row, &mut self.uses, &mut self.list)?;
        self.first.push_reserved(end_of(&self.list)?);
        Ok(())
    }

    // Returns the waits of a row, the last so far.
    pub(crate) fn last(&self, row: usize) -> &[u32]
        requires bounds { AreBounds self.now.first.items (length self.now.list.items) }
        requires last { length self.now.first.items ≡ row + 2 }
        ensures { result.now ≡ links_of (lists_between self.now.first.items self.now.list.items) row }
    {
        &self.list[self.first[row] as usize..]
    }

    // Returns the waits of all rows.
    pub(crate) fn into_links(self) -> Links
        requires { AreBounds self.first.items (length self.list.items) }
        ensures { result ≡ lists_between self.first.items self.list.items }
    {
        Links::new(self.first, self.list)
    }
}
