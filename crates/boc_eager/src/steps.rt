// What a plan under way reads and changes, one list after another.

ghost use Rattle.std.specs.Prelude.{◌≡◌, ◌<◌, ◌+◌, ◌*◌, length, Contains, IfOk, OnOk, IfSome, IfNone};
ghost use Rattle.boc_program.specs.declared.limits.TheConstants.{MOST_COWNS, MOST_TICKS};
ghost use Rattle.boc_runs.specs.Rows.{IsRows, cowns_of};
ghost use Rattle.boc_runs.specs.Siblings.{AreYoungers};
ghost use Rattle.boc_eager.specs.Courses.{AreClear, AreEmpty, AreRaised, AreSpawned, IsMissing, later, wait_of};

use crate::line::Line;
use crate::place::Place;
use boc_plans::sharing::SeenRows;
use boc_program::short::HeldCown;
use boc_runs::siblings::Siblings;
use std::alloc::{AllocError, Global};
use std::collections::BTreeSet;

/// Returns this many lines without rows. `AllocError` says that memory was refused.
pub(crate) fn lines_of(alloc: Global, count: usize) -> Result<Vec<Line>, AllocError>
    ensures { IfOk result (λ lines. AreEmpty count lines.items) }
{
    let mut lines = Vec::with_capacity(alloc, count)?;
    for _ in 0..count {
        lines.push_reserved(Line::new(alloc));
    }
    Ok(lines)
}

// Returns the number of what a row waits for at one of its cowns: to read it, or to write it.
fn wait_of(rows: &SeenRows, row: usize, cown: HeldCown) -> u32
    requires there { row < length rows.now }
    requires own { Contains (cowns_of rows.now row) cown }
    ensures { result ≡ wait_of rows.now row cown }
{
    2 * u32::from(cown) + u32::from(rows.writes(row, cown))
}

/// Returns the first of what a row waits for that isn't free at a tick, if any.
pub(crate) fn missing(rows: &SeenRows, row: usize, free: &[u64], tick: u64) -> Option<u32>
    requires there { row < length rows.now }
    requires whole { length free.now ≡ 2 * MOST_COWNS }
    ensures missing { IfSome result (IsMissing rows.now row free.now tick) }
    ensures clear { IfNone result (AreClear rows.now row free.now tick) }
{
    for cown in rows.cowns(row) {
        let wait = wait_of(rows, row, *cown);
        if tick < free[wait as usize] {
            return Some(wait);
        }
    }
    None
}

/// Has the cowns of a row that starts be free no sooner than at its end: for all where it writes them, and else for rows that write them.
pub(crate) fn raise(rows: &SeenRows, row: usize, end: u64, free: &mut [u64])
    requires there { row < length rows.now }
    requires whole { length free.old ≡ 2 * MOST_COWNS }
    ensures { AreRaised rows.now row end (length (cowns_of rows.now row)) free.old free.new }
{
    for cown in rows.cowns(row) {
        let read = 2 * *cown as usize;
        free[read + 1] = free[read + 1].max(end);
        if rows.writes(row, *cown) {
            free[read] = free[read].max(end);
        }
    }
}

/// Has the children of a row that starts at a tick be looked at when they are spawned. `AllocError` says that memory was refused.
pub(crate) fn spawn_children(
    rows: &SeenRows,
    siblings: &Siblings,
    row: usize,
    tick: u64,
    places: &mut [Place],
    next: &mut BTreeSet<(u64, u32)>,
) -> Result<(), AllocError>
    requires shape { IsRows rows.now }
    requires there { row < length rows.now }
    requires youngers { AreYoungers rows.now siblings.now.firsts.items siblings.now.youngers.items }
    requires whole { length places.old ≡ length rows.now }
    requires low { tick + MOST_TICKS < later }
    ensures { OnOk result (AreSpawned rows.now row tick (length rows.now) places.old places.new next.old.keys next.new.keys) }
{
    let mut child = siblings.first_child(row);
    while child < rows.len() {
        places[child] = Place::New;
        next.insert((tick + u64::from(rows.offset(child)), child as u32))?;
        child = siblings.younger(child);
    }
    Ok(())
}
