// When a run ends if some cowns are held only while they are used.

ghost use Rattle.std.specs.Prelude.{◌≡◌, ℕ, ◌<◌, length, IfOk};
ghost use Rattle.boc_program.specs.declared.limits.TheConstants.{MOST_COWNS};
ghost use Rattle.boc_runs.specs.Rows.{IsRows};
ghost use Rattle.boc_turns.specs.Turns.{AreUses, IsUsedEnd, among};
ghost use Rattle.boc_turns.specs.Course.{marked};

use crate::course::Course;
use boc_plans::sharing::SeenRows;
use boc_program::limits::MOST_COWNS;
use boc_program::short::HeldCown;
use boc_uses::Use;
use std::alloc::{AllocError, Global};

/// Returns for each cown whether it is one of these. `AllocError` says that memory was refused.
pub fn marks_of(alloc: Global, cowns: &[HeldCown]) -> Result<Vec<bool>, AllocError>
    ensures whole { IfOk result (λ marks. length marks.items ≡ MOST_COWNS) }
    ensures marked { IfOk result (λ marks. (c : ℕ) → c < MOST_COWNS → marked marks.items c ≡ among cowns.now c) }
{
    let mut marks = vec![in alloc; false; MOST_COWNS]?;
    for cown in cowns {
        marks[*cown as usize] = true;
    }
    Ok(marks)
}

/// Returns when the rows end if these cowns, which are relaxed, are held only while they are used. A row holds each of its other cowns from its start to its
/// end, and has a turn at each relaxed cown that it uses. `uses` says for each cown of each row, in their order, whether and how the row uses it. What is
/// returned is the first tick by which all rows and all turns have ended, at the earliest times that keep the rules of turns. `AllocError` says that
/// memory was refused.
///
/// It takes one pass over the rows and their cowns, and memory that grows with the number of rows and of the relaxed cowns that they need.
pub fn used_end(
    alloc: Global,
    rows: &SeenRows,
    uses: &[Option<Use>],
    relaxed: &[HeldCown],
) -> Result<u64, AllocError>
    requires shape { IsRows rows.now }
    requires uses { AreUses rows.now uses.now }
    ensures { IfOk result (IsUsedEnd rows.now uses.now (among relaxed.now)) }
{
    let marks = marks_of(alloc, relaxed)?;
    let mut course = Course::with_room(alloc, rows)?;
    for row in 0..rows.len() {
        course.place_next(rows, row, uses, &marks)?;
    }
    Ok(course.last())
}
