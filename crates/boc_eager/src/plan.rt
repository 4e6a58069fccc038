// The eager plan.

ghost use Rattle.std.specs.Prelude.{IfOk};
ghost use Rattle.boc_plans.specs.Seen.{seen};
ghost use Rattle.boc_eager.specs.Eager.{IsEagerPlanOf};

use crate::course::Course;
use boc_plans::sharing::{SeenRows, Sharing};
use boc_runs::rows::Rows;
use boc_runs::siblings::Siblings;
use std::alloc::{AllocError, Global};

/// The eager plan of some rows. All times are ticks.
#[derive(Drop, Debug)]
pub struct Eager {
    /// The tick at which each row starts.
    pub starts: Vec<u64>,
    /// The end of the plan.
    pub end: u64,
}

/// Returns the eager plan of some rows: with a worker for each row, whatever can start does. At each tick, rows that end leave their cowns; then each row that
/// is spawned, and conflicts with no row that is under way, starts, the lowest first. So rows that conflict keep apart, but not in the order of their numbers.
/// `AllocError` says that memory was refused.
///
/// Its memory grows with the number of rows. Rows of one kind have the same cowns, and write the same of them; the lowest one of each kind waits for all. Where
/// a cown is free again, the lowest row that waits for it is looked at, and the next one only after it: the time grows with the number of rows and of such
/// looks, times a logarithm.
pub fn eager_plan(alloc: Global, rows: &Rows, sharing: Sharing) -> Result<Eager, AllocError>
    ensures { IfOk result (IsEagerPlanOf (seen sharing rows.now)) }
{
    let seen = SeenRows::new(rows, sharing);
    let siblings = Siblings::of(alloc, rows.as_slice())?;
    let mut course = Course::new(alloc, &seen, siblings)?;
    course.finish(&seen)?;
    Ok(Eager {
        starts: course.starts,
        end: course.end,
    })
}
