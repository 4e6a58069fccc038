// What rows that are under way do, one after the other: the spawns of their children, and their ends.

ghost use Rattle.std.specs.Prelude.{◌≡◌, ◌≤◌, length, slice_index, IfOk};
ghost use Rattle.boc_runs.specs.Rows.{IsRows, Fits, edited, parent_of};
ghost use Rattle.boc_plans.specs.Plans.{IsChild};
ghost use Rattle.boc_greedy.specs.Families.{IsFamilyOf, AreNext, children_of, times_of};

use boc_plans::sharing::SeenRows;
use std::alloc::{AllocError, Global};

/// What a row does next: it spawns a child or, where the child isn't there, ends.
#[derive(Clone, Copy)]
pub struct Change {
    /// The child, or the number of rows.
    pub child: u32,
    /// How many ticks after the start of the row this is.
    pub after: u32,
}

/// For each row its first change, of those that are left, and the change that its parent makes after spawning it. So a simulation
/// reads no row.
#[derive(Drop)]
pub struct Family {
    /// The first change of each row, of those that are left.
    pub first: Vec<Change>,
    /// The change of each row's parent that follows the spawn of the row. That of main is not read.
    pub next: Vec<Change>,
}

/// Returns the changes of the rows, with all of them left. `AllocError` says that memory was refused.
pub fn family_of(alloc: Global, rows: &SeenRows) -> Result<Family, AllocError>
    requires { IsRows rows.now }
    ensures { IfOk result (λ f. IsFamilyOf rows.now f) }
{
    let count = rows.len();
    let none = count as u32;
    let mut first = Vec::with_capacity(alloc, count)?;
    for row in 0..count {
        // So far no child is found.
        first.push_reserved(Change {
            child: none,
            after: rows.ticks(row),
        });
    }
    let no_change = Change {
        child: none,
        after: 0,
    };
    let mut next = vec![in alloc; no_change; count]?;
    let mut row = count;
    while row > 1 {
        row -= 1;
        let parent = rows.parent(row) as usize;
        next[row] = first[parent];
        first[parent] = Change {
            child: row as u32,
            after: rows.offset(row),
        };
    }
    Ok(Family { first, next })
}

// Returns the last child of the parent of a child, which may be that child itself.
fn last_child(next: &[Change], rows: &SeenRows, child: u32) -> u32
    requires next { AreNext rows.now (children_of next.now) (times_of next.now) }
    requires child { IsChild rows.now (parent_of rows.now child) child }
    ensures child { IsChild rows.now (parent_of rows.now child) result }
    ensures last { length rows.now ≤ slice_index (children_of next.now) result }
{
    let mut last = child;
    while (next[last as usize].child as usize) < rows.len() {
        last = next[last as usize].child;
    }
    last
}

/// Returns the changes of the rows' parents that follow the spawns of the rows, where one row takes other ticks: after its last child it ends
/// after these. `AllocError` says that memory was refused.
pub fn next_changes(
    alloc: Global,
    family: &Family,
    rows: &SeenRows,
    changed: &SeenRows,
    row: u32,
    ticks: u32,
) -> Result<Vec<Change>, AllocError>
    requires family { IsFamilyOf rows.now family.now }
    requires fits { Fits rows.now row ticks }
    requires changed { changed.now ≡ edited rows.now row ticks }
    ensures { IfOk result (λ list. AreNext changed.now (children_of list.items) (times_of list.items)) }
{
    let mut list = Vec::from_slice(alloc, &family.next)?;
    let first = family.first[row as usize].child;
    if (first as usize) < rows.len() {
        let last = last_child(&family.next, rows, first) as usize;
        let end = Change {
            child: list[last].child,
            after: ticks,
        };
        list[last] = end;
    }
    Ok(list)
}
