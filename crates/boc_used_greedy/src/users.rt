// The rows that have a cown, one after another, and the children of a row.

ghost use Rattle.std.specs.Prelude.{◌+◌, ◌<◌, length, IfOk};
ghost use Rattle.std.specs.List.{Contains};
ghost use Rattle.boc_runs.specs.Rows.{IsRows, cowns_of};
ghost use Rattle.boc_used_greedy.specs.Holds.{HasHolds};
ghost use Rattle.boc_used_greedy.specs.Users.{IsNextUser, AreUsersFrom, AreUsers};

use crate::holds::Holds;
use boc_plans::sharing::SeenRows;
use boc_program::limits::MOST_COWNS;
use boc_program::short::HeldCown;
use std::alloc::{AllocError, Global};

/// The rows that have each cown, and the children of each row. The number of rows says that there are no more.
#[derive(Drop)]
pub(crate) struct Users {
    // The first row that has each cown.
    pub(crate) first: Vec<u32>,
    // For each cown of each row, in their order, the next row that has it.
    pub(crate) next: Vec<u32>,
    // The first child of each row.
    pub(crate) first_child: Vec<u32>,
    // The next child of each row's parent.
    pub(crate) next_child: Vec<u32>,
}

// Notes that a row has its cowns, where those after it are noted.
fn note_row(rows: &SeenRows, holds: &Holds, row: usize, first: &mut [u32], next: &mut [u32])
    requires shape { IsRows rows.now }
    requires holds { HasHolds rows.now holds.now }
    requires there { row < length rows.now }
    requires noted { AreUsersFrom rows.now (row + 1) first.old next.old }
    ensures { AreUsersFrom rows.now row first.new next.new }
{
    let begin = holds.begins[row];
    for (place, own) in rows.cowns(row).iter().enumerate() {
        next[begin + place] = first[*own as usize];
        first[*own as usize] = row as u32;
    }
}

/// Returns the rows that have each cown, and the children of each row.
pub(crate) fn users_of(alloc: Global, rows: &SeenRows, holds: &Holds) -> Result<Users, AllocError>
    requires shape { IsRows rows.now }
    requires holds { HasHolds rows.now holds.now }
    ensures { IfOk result (AreUsers rows.now) }
{
    let count = rows.len();
    let none = count as u32;
    let mut first = vec![in alloc; none; MOST_COWNS]?;
    let mut next = vec![in alloc; none; holds.all.len()]?;
    let mut first_child = vec![in alloc; none; count]?;
    let mut next_child = vec![in alloc; none; count]?;
    let mut row = count;
    while row > 1 {
        row -= 1;
        note_row(rows, holds, row, &mut first, &mut next);
        let parent = rows.parent(row) as usize;
        next_child[row] = first_child[parent];
        first_child[parent] = row as u32;
    }
    Ok(Users {
        first,
        next,
        first_child,
        next_child,
    })
}

impl Users {
    /// Returns the next row that has a cown of this row.
    pub(crate) fn after(&self, rows: &SeenRows, holds: &Holds, row: usize, own: HeldCown) -> u32
        requires shape { IsRows rows.now }
        requires holds { HasHolds rows.now holds.now }
        requires users { AreUsers rows.now self.now }
        requires there { row < length rows.now }
        requires own { Contains (cowns_of rows.now row) own }
        ensures { IsNextUser rows.now own (row + 1) result }
    {
        self.next[holds.place(rows, row, own)]
    }
}
