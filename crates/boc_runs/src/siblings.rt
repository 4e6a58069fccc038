// The children of rows, one after another.

ghost use Rattle.std.specs.Prelude.{◌≡◌, ◌<◌, length, slice_index, IfOk};
ghost use Rattle.boc_runs.specs.Rows.{IsRows};
ghost use Rattle.boc_runs.specs.Siblings.{AreElders, AreSiblings, AreYoungers};

use crate::rows::Row;
use std::alloc::{AllocError, Global};

/// Which rows are siblings: for each row its first and its last child, its earlier and its later sibling.
///
/// No edit changes a row's parent, so siblings stay siblings while rows change.
#[derive(Drop)]
pub struct Siblings {
    // The first child of each row, or the number of rows where it has none.
    firsts: Vec<u32>,
    // The last child of each row, or 0 where it has none: row 0 is no row's child.
    lasts: Vec<u32>,
    // The earlier sibling of each row, or 0.
    elders: Vec<u32>,
    // The later sibling of each row, or the number of rows. That of main is not read.
    youngers: Vec<u32>,
}

// Returns for each row its last child, and its earlier sibling.
fn last_children(alloc: Global, rows: &[Row]) -> Result<(Vec<u32>, Vec<u32>), AllocError>
    requires { IsRows rows.now }
    ensures { IfOk result (λ found. AreElders rows.now found.0.items found.1.items) }
{
    let mut lasts = vec![in alloc; 0; rows.len()]?;
    let mut elders = vec![in alloc; 0; rows.len()]?;
    for row in 0..rows.len() {
        let parent = rows[row].parent as usize;
        elders[row] = lasts[parent];
        lasts[parent] = row as u32;
    }
    Ok((lasts, elders))
}

// Returns for each row its first child, and for each but main its later sibling.
fn first_children(alloc: Global, rows: &[Row]) -> Result<(Vec<u32>, Vec<u32>), AllocError>
    requires { IsRows rows.now }
    ensures { IfOk result (λ found. AreYoungers rows.now found.0.items found.1.items) }
{
    let none = rows.len() as u32;
    let mut firsts = vec![in alloc; none; rows.len()]?;
    let mut youngers = vec![in alloc; none; rows.len()]?;
    let mut row = rows.len();
    while row > 1 {
        row -= 1;
        let parent = rows[row].parent as usize;
        youngers[row] = firsts[parent];
        firsts[parent] = row as u32;
    }
    Ok((firsts, youngers))
}

impl Siblings {
    /// Returns which of these rows are siblings. `AllocError` says that memory was refused.
    ///
    /// It goes over the rows twice, and takes 16 bytes for each.
    pub fn of(alloc: Global, rows: &[Row]) -> Result<Siblings, AllocError>
        requires { IsRows rows.now }
        ensures { IfOk result (λ siblings. AreSiblings rows.now siblings) }
    {
        let (lasts, elders) = last_children(alloc, rows)?;
        let (firsts, youngers) = first_children(alloc, rows)?;
        Ok(Siblings {
            firsts,
            lasts,
            elders,
            youngers,
        })
    }

    /// Returns the first child of a row, or the number of rows where it has none.
    pub fn first_child(&self, row: usize) -> usize
        requires { row < length self.now.firsts.items }
        ensures { result ≡ slice_index self.now.firsts.items row }
    {
        self.firsts[row] as usize
    }

    /// Returns the last child of a row, or 0 where it has none: row 0 is no row's child.
    pub fn last_child(&self, row: usize) -> usize
        requires { row < length self.now.lasts.items }
        ensures { result ≡ slice_index self.now.lasts.items row }
    {
        self.lasts[row] as usize
    }

    /// Returns the earlier sibling of a row, or 0 where it has none.
    pub fn elder(&self, row: usize) -> usize
        requires { row < length self.now.elders.items }
        ensures { result ≡ slice_index self.now.elders.items row }
    {
        self.elders[row] as usize
    }

    /// Returns the later sibling of a row other than main, or the number of rows where it has none.
    pub fn younger(&self, row: usize) -> usize
        requires { row < length self.now.youngers.items }
        ensures { result ≡ slice_index self.now.youngers.items row }
    {
        self.youngers[row] as usize
    }
}
