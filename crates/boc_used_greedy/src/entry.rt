// The end of the greedy plan, as a whole.

ghost use Rattle.std.specs.Prelude.{IfOk};
ghost use Rattle.boc_runs.specs.Rows.{IsRows};
ghost use Rattle.boc_turns.specs.Turns.{AreUses, among};
ghost use Rattle.boc_turns.specs.Workers.{IsUsedGreedyEnd};

use crate::holds::holds_of;
use crate::plan::Plan;
use crate::users::users_of;
use boc_plans::sharing::SeenRows;
use boc_program::count::Workers;
use boc_program::short::HeldCown;
use boc_turns::marks_of;
use boc_uses::Use;
use std::alloc::{AllocError, Global};

/// Returns when the greedy plan of the rows for the given number of workers ends, if these cowns, which are relaxed, are held only while they are used.
/// `uses` says for each cown of each row, in their order, whether and how the row uses it. `AllocError` says that memory was refused.
pub fn used_greedy_end(
    alloc: Global,
    rows: &SeenRows,
    uses: &[Option<Use>],
    relaxed: &[HeldCown],
    workers: Workers,
) -> Result<u64, AllocError>
    requires shape { IsRows rows.now }
    requires uses { AreUses rows.now uses.now }
    ensures { IfOk result (IsUsedGreedyEnd rows.now uses.now (among relaxed.now) workers) }
{
    let marks = marks_of(alloc, relaxed)?;
    let holds = holds_of(alloc, rows, uses, &marks)?;
    let users = users_of(alloc, rows, &holds)?;
    let mut plan = Plan::new(alloc, rows, &holds, &users, workers.number())?;
    plan.finish(alloc, rows, &holds, &users)?;
    Ok(plan.end(rows, &holds))
}
