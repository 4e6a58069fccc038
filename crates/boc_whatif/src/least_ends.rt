// The ends of greedy plans with one row after another at its least ticks.

ghost use Rattle.std.specs.Prelude.{◌≡◌, ℕ, ◌+◌, ◌*◌, ◌<◌, ◌≤◌, max, length, slice_index, IfOk, IfSome, IfNone};
ghost use Rattle.boc_runs.specs.Rows.{ticks_of};
ghost use Rattle.boc_plans.specs.Seen.{seen};
ghost use Rattle.boc_plans.specs.Greedy.{IsSpan};
ghost use Rattle.boc_plans.specs.Sweeps.{IsGreedySweep, IsLeastGreedyEnd};
ghost use Rattle.boc_order.specs.Waits.{AreWaits};
ghost use Rattle.boc_greedy.specs.Courses.{IsCourse};
ghost use Rattle.boc_sweep.specs.Lasts.{HasLasts};
ghost use Rattle.boc_whatif.specs.Parts.{AreParts};
ghost use Rattle.boc_whatif.specs.Pieces.{AreEnds, IsPiece, ArePieces};

use boc_greedy::{Consequences, Course, course_to, end_from, greedy_over};
use boc_order::{Links, work};
use boc_plans::sharing::{SeenRows, Sharing};
use boc_program::count::Workers;
use boc_progress::Progress;
use boc_runs::rows::Rows;
use boc_sweep::least_ticks;
use rayon::prelude::*;
use std::alloc::{AllocError, Global};
use std::thread::Threads;

// After this many plans it is reported how far the sweep is.
const STRETCH: u32 = 1024;

// This many neighbouring rows make a piece of a stretch: their plans go on from one course, which goes on from row to row. Each stretch but the
// last has 64 pieces at least, which threads share out.
const PIECE: usize = 16;

/// What all plans of a sweep share.
#[derive(Drop)]
pub struct Parts<'a> {
    rows: &'a Rows,
    sharing: Sharing,
    workers: Workers,
    // The rows that each row waits for, and what follows from each.
    waits: &'a Links,
    consequences: &'a Consequences,
    // The offset of each row's last child.
    lasts: &'a [u32],
    // The tick at which each row starts in the plan of the rows as they are, and the end of that plan.
    starts: &'a [u64],
    end: u64,
}

// Returns the fewest ticks of a row that takes more. The plan of one that takes no more is that of the rows as they are.
fn fewer_ticks(parts: &Parts<'_>, row: usize) -> Option<u32>
    requires there { row < length parts.now.rows.now }
    requires parts { AreParts parts.now }
    ensures least { IfSome result (λ least. least ≡ max 1 (slice_index parts.now.lasts.now row)) }
    ensures less { IfSome result (λ least. least ≤ ticks_of parts.now.rows.now row) }
    ensures none { IfNone result (IsLeastGreedyEnd (seen parts.now.sharing parts.now.rows.now) parts.now.workers row parts.now.end) }
{
    let rows = parts.rows.as_slice();
    let least = least_ticks(parts.lasts[row]);
    if rows[row].ticks == least {
        None
    } else {
        Some(least)
    }
}

// Returns the end of the plan with one row at its least ticks. It is known where the row takes no more than these. Else the plan goes on from the
// course, which is that of the rows as they are. No row is copied.
fn least_end(
    alloc: Global,
    parts: &Parts<'_>,
    course: &Course<'_>,
    row: usize,
) -> Result<u64, AllocError>
    requires there { row < length parts.now.rows.now }
    requires parts { AreParts parts.now }
    requires course { IsCourse (seen parts.now.sharing parts.now.rows.now) parts.now.workers course.now }
    ensures { IfOk result (IsLeastGreedyEnd (seen parts.now.sharing parts.now.rows.now) parts.now.workers row) }
{
    match fewer_ticks(parts, row) {
        None => Ok(parts.end),
        Some(least) => {
            let rows = SeenRows::new(parts.rows, parts.sharing);
            let number = row as u32;
            let changed = SeenRows::with_ticks(parts.rows, parts.sharing, number, least);
            end_from(
                alloc,
                course,
                &rows,
                &changed,
                parts.waits,
                parts.consequences,
                parts.workers,
                number,
                least,
            )
        }
    }
}

// Returns the first tick at which one of these rows would be over with its least ticks, of those that take more. Up to there the plan with any of
// them at its least ticks is that of the rows as they are.
fn first_over(parts: &Parts<'_>, from: usize, to: usize) -> Option<u64>
    requires there { to ≤ length parts.now.rows.now }
    requires parts { AreParts parts.now }
    ensures { IfNone result ((row : ℕ) → from ≤ row → row < to
        → IsLeastGreedyEnd (seen parts.now.sharing parts.now.rows.now) parts.now.workers row parts.now.end) }
{
    let mut first: Option<u64> = None;
    for row in from..to {
        if let Some(least) = fewer_ticks(parts, row) {
            let over = parts.starts[row].saturating_add(u64::from(least));
            first = Some(over.min(first.unwrap_or(over)));
        }
    }
    first
}

// Returns the ends for the rows from one on, up to another one, whose plans go on from a course. Before each row the course goes on itself, up to
// where the plan of that row or of one after it may differ.
fn ends_along(
    alloc: Global,
    parts: &Parts<'_>,
    course: &mut Course<'_>,
    from: usize,
    to: usize,
) -> Result<Vec<u64>, AllocError>
    requires order { from ≤ to }
    requires there { to ≤ length parts.now.rows.now }
    requires parts { AreParts parts.now }
    requires course { IsCourse (seen parts.now.sharing parts.now.rows.now) parts.now.workers course.old }
    ensures { IfOk result (λ ends. AreEnds (seen parts.now.sharing parts.now.rows.now) parts.now.workers from to ends.items) }
{
    let mut ends = Vec::with_capacity(alloc, to - from)?;
    let rows = SeenRows::new(parts.rows, parts.sharing);
    for row in from..to {
        if let Some(tick) = first_over(parts, row, to) {
            course.go_on(&rows, tick)?;
        }
        let end = least_end(alloc, parts, course, row)?;
        ends.push(end)?;
    }
    Ok(ends)
}

// Returns the ends for the rows from one on, up to another one, where all of them are that of the plan of the rows as they are.
fn same_ends(
    alloc: Global,
    parts: &Parts<'_>,
    from: usize,
    to: usize,
) -> Result<Vec<u64>, AllocError>
    requires order { from ≤ to }
    requires same { (row : ℕ) → from ≤ row → row < to → IsLeastGreedyEnd (seen parts.now.sharing parts.now.rows.now) parts.now.workers row parts.now.end }
    ensures { IfOk result (λ ends. AreEnds (seen parts.now.sharing parts.now.rows.now) parts.now.workers from to ends.items) }
{
    vec![in alloc; parts.end; to - from]
}

// Returns the ends for the rows of a piece, from one on, up to another one. Their plans go on from a copy of a course. Where no plan must be made
// there is none.
fn piece_ends(
    alloc: Global,
    parts: &Parts<'_>,
    course: &Course<'_>,
    from: usize,
    to: usize,
) -> Result<Vec<u64>, AllocError>
    requires order { from ≤ to }
    requires there { to ≤ length parts.now.rows.now }
    requires parts { AreParts parts.now }
    requires course { IsCourse (seen parts.now.sharing parts.now.rows.now) parts.now.workers course.now }
    ensures { IfOk result (λ ends. AreEnds (seen parts.now.sharing parts.now.rows.now) parts.now.workers from to ends.items) }
{
    match first_over(parts, from, to) {
        None => same_ends(alloc, parts, from, to),
        Some(_) => {
            let rows = SeenRows::new(parts.rows, parts.sharing);
            let mut own = course.copied(alloc, &rows)?;
            ends_along(alloc, parts, &mut own, from, to)
        }
    }
}

// Returns the ends for the pieces of a stretch of rows, from one on, up to another one. Threads share them out, piece by piece.
fn pieces_between(
    rt: &(impl Threads + Sync),
    alloc: Global,
    parts: &Parts<'_>,
    course: &Course<'_>,
    from: usize,
    to: usize,
) -> Result<Vec<Vec<u64>>, AllocError>
    requires order { from ≤ to }
    requires there { to ≤ length parts.now.rows.now }
    requires parts { AreParts parts.now }
    requires course { IsCourse (seen parts.now.sharing parts.now.rows.now) parts.now.workers course.now }
    ensures { IfOk result (λ pieces. ArePieces (seen parts.now.sharing parts.now.rows.now) parts.now.workers from to pieces.items) }
{
    let count = (to - from).div_ceil(PIECE);
    (0..count)
        .into_par_iter()
        .with_min_len(1)
        .map(
            |piece: usize| -> Result<Vec<u64>, AllocError>
                requires { (from + piece * PIECE < to) × (to ≤ length parts.now.rows.now) × AreParts parts.now
                    × IsCourse (seen parts.now.sharing parts.now.rows.now) parts.now.workers course.now }
                ensures { IfOk result (λ ends. IsPiece (seen parts.entry.now.sharing parts.entry.now.rows.now) parts.entry.now.workers
                    from to piece ends.items) }
            {
                let begin = from + piece * PIECE;
                piece_ends(alloc, parts, course, begin, to.min(begin + PIECE))
            },
        )
        .collect::<Result<Vec<Vec<u64>>, AllocError>>(rt, alloc)?
}

// Returns the ends for the rows of a stretch, from one on, up to another one: those of its pieces, one after the other.
fn ends_between(
    rt: &(impl Threads + Sync),
    alloc: Global,
    parts: &Parts<'_>,
    course: &Course<'_>,
    from: usize,
    to: usize,
) -> Result<Vec<u64>, AllocError>
    requires order { from ≤ to }
    requires there { to ≤ length parts.now.rows.now }
    requires parts { AreParts parts.now }
    requires course { IsCourse (seen parts.now.sharing parts.now.rows.now) parts.now.workers course.now }
    ensures { IfOk result (λ ends. AreEnds (seen parts.now.sharing parts.now.rows.now) parts.now.workers from to ends.items) }
{
    let pieces = pieces_between(rt, alloc, parts, course, from, to)?;
    let mut ends = Vec::with_capacity(alloc, to - from)?;
    for piece in &pieces {
        ends.extend_from_slice(piece)?;
    }
    Ok(ends)
}

// Returns the row after a stretch that begins with this one. A stretch has as many rows as it takes for the given number of plans, or all that are left.
fn behind_stretch(parts: &Parts<'_>, from: usize) -> usize
    requires there { from < length parts.now.rows.now }
    requires parts { AreParts parts.now }
    ensures further { from < result }
    ensures within { result ≤ length parts.now.rows.now }
{
    let count = parts.rows.as_slice().len();
    let mut plans = 0;
    for row in from..count {
        if fewer_ticks(parts, row).is_some() {
            plans += 1;
        }
        if plans == STRETCH {
            return row + 1;
        }
    }
    count
}

// Returns the ends for all rows, stretch by stretch. The plan of the rows as they are is made once: before each stretch its course goes on up to where
// the plan of one of the rows that are left may differ.
fn all_ends(
    rt: &(impl Threads + Sync),
    alloc: Global,
    parts: &Parts<'_>,
    progress: &mut dyn Progress,
) -> Result<Vec<u64>, AllocError>
    requires parts { AreParts parts.now }
    ensures { IfOk result (λ ends. IsGreedySweep (seen parts.now.sharing parts.now.rows.now) parts.now.workers ends.items) }
{
    let count = parts.rows.as_slice().len();
    let rows = SeenRows::new(parts.rows, parts.sharing);
    let (waits, consequences) = (parts.waits, parts.consequences);
    let mut course = course_to(alloc, &rows, waits, consequences, parts.workers, 0)?;
    let mut all = Vec::with_capacity(alloc, count)?;
    let mut done = 0;
    while done < count {
        let next = behind_stretch(parts, done);
        if let Some(tick) = first_over(parts, done, count) {
            course.go_on(&rows, tick)?;
        }
        let ends = ends_between(rt, alloc, parts, &course, done, next)?;
        all.extend_from_slice(&ends)?;
        done = next;
        progress.done(done, count);
    }
    Ok(all)
}

/// Returns for each row the end of the greedy plan for the given number of workers with that row alone at its least ticks. It takes the rows that each waits
/// for, the offset of its last child, and the span. `AllocError` says that memory was refused.
pub fn least_ends(
    rt: &(impl Threads + Sync),
    alloc: Global,
    rows: &Rows,
    sharing: Sharing,
    waits: &Links,
    lasts: &[u32],
    span: u64,
    workers: Workers,
    progress: &mut dyn Progress,
) -> Result<Vec<u64>, AllocError>
    requires waits { AreWaits (seen sharing rows.now) waits.now }
    requires lasts { HasLasts rows.now lasts.now }
    requires span { IsSpan (seen sharing rows.now) span }
    ensures { IfOk result (λ ends. IsGreedySweep (seen sharing rows.now) workers ends.items) }
{
    let seen = SeenRows::new(rows, sharing);
    let consequences = Consequences::of(alloc, &seen, waits)?;
    let work = work(rows.as_slice());
    let plan = greedy_over(alloc, &seen, waits, &consequences, workers, work, span)?;
    let parts = Parts {
        rows,
        sharing,
        workers,
        waits,
        consequences: &consequences,
        lasts,
        starts: &plan.starts,
        end: plan.ends_at,
    };
    all_ends(rt, alloc, &parts, progress)
}
