// Where a plan first goes otherwise than the rows: a row goes ahead of one with a lower number.

ghost use Rattle.std.specs.Prelude.{◌≡◌, ◌<◌, ℕ, length, IfNone, IfOk, IfSome};
ghost use Rattle.boc_runs.specs.Rows.{IsRows};
ghost use Rattle.boc_plans.specs.Plans.{ConflictOn};
ghost use Rattle.boc_eager.specs.Swaps.{GoesAhead, IsFirstAhead, IsFirstSwap, IsLeastConflict, IsLeastPassed, IsSooner};

use crate::steps::{missing, raise};
use boc_order::handed;
use boc_plans::sharing::SeenRows;
use boc_program::limits::MOST_COWNS;
use boc_program::short::HeldCown;
use std::alloc::{AllocError, Global};

/// Two rows that conflict, of which the one with the higher number goes first.
#[derive(Clone, Copy, PartialEq, Eq, Debug)]
pub struct Swap {
    /// The row that goes first.
    pub ahead: u32,
    /// The row with the lower number, which comes after it.
    pub passed: u32,
    /// The lowest cown over which they conflict.
    pub cown: HeldCown,
}

// Returns of a row and the one that was found before it, if any, the one that starts first, and of both at once the one that was found.
fn sooner(starts: &[u64], found: Option<usize>, row: usize) -> usize
    requires found { IfSome found (λ first. first < length starts.now) }
    requires there { row < length starts.now }
    ensures { IsSooner starts.now found row result }
{
    match found {
        Some(found) if starts[found] <= starts[row] => found,
        _ => row,
    }
}

// Returns the row that starts first of those that start before one with a lower number with which they conflict, if any; of several the lowest.
fn first_ahead(alloc: Global, rows: &SeenRows, starts: &[u64]) -> Result<Option<usize>, AllocError>
    requires shape { IsRows rows.now }
    requires whole { length starts.now ≡ length rows.now }
    ensures { IfOk result (IsFirstAhead rows.now starts.now) }
{
    let mut latest = vec![in alloc; 0; 2 * MOST_COWNS]?;
    let mut found = None;
    for row in 0..rows.len() {
        if missing(rows, row, &latest, starts[row]).is_some() {
            found = Some(sooner(starts, found, row));
        }
        raise(rows, row, starts[row], &mut latest);
    }
    Ok(found)
}

// Returns the lowest cown over which two rows conflict, if any.
fn conflict_of(rows: &SeenRows, a: usize, b: usize) -> Option<HeldCown>
    requires shape { IsRows rows.now }
    requires first { a < length rows.now }
    requires second { b < length rows.now }
    ensures some { IfSome result (IsLeastConflict rows.now a b) }
    ensures none { IfNone result ((c : ℕ) → ConflictOn rows.now c a b → ⊥) }
{
    match handed(rows, a, b).as_slice() {
        [cown, ..] => Some(*cown),
        [] => None,
    }
}

// Returns the lowest cown over which a row goes ahead of one with a lower number, if it does.
fn cown_passed(rows: &SeenRows, starts: &[u64], row: usize, ahead: usize) -> Option<HeldCown>
    requires shape { IsRows rows.now }
    requires whole { length starts.now ≡ length rows.now }
    requires before { row < ahead }
    requires there { ahead < length rows.now }
    ensures ahead { IfSome result (λ cown. GoesAhead rows.now starts.now row ahead) }
    ensures least { IfSome result (IsLeastConflict rows.now row ahead) }
    ensures none { IfNone result (GoesAhead rows.now starts.now row ahead → ⊥) }
{
    if starts[row] <= starts[ahead] {
        return None;
    }
    conflict_of(rows, row, ahead)
}

// Returns the lowest row that a row goes ahead of, with the lowest cown over which they conflict.
fn passed_by(rows: &SeenRows, starts: &[u64], ahead: usize) -> Option<Swap>
    requires shape { IsRows rows.now }
    requires whole { length starts.now ≡ length rows.now }
    requires there { ahead < length rows.now }
    ensures { IsLeastPassed rows.now starts.now ahead result }
{
    for row in 0..ahead {
        if let Some(cown) = cown_passed(rows, starts, row, ahead) {
            return Some(Swap {
                ahead: ahead as u32,
                passed: row as u32,
                cown,
            });
        }
    }
    None
}

/// Returns where a plan of some rows first goes otherwise than in the order of their numbers, if it does. Of the rows that start before one with a lower
/// number with which they conflict, it is the one that starts first, and of several the lowest. With it are the lowest row that it goes ahead of, and the
/// lowest cown over which they conflict. `AllocError` says that memory was refused.
///
/// It goes over the rows twice.
pub fn first_swap(
    alloc: Global,
    rows: &SeenRows,
    starts: &[u64],
) -> Result<Option<Swap>, AllocError>
    requires shape { IsRows rows.now }
    requires whole { length starts.now ≡ length rows.now }
    ensures { IfOk result (IsFirstSwap rows.now starts.now) }
{
    let found = first_ahead(alloc, rows, starts)?;
    match found {
        Some(ahead) => Ok(passed_by(rows, starts, ahead)),
        None => Ok(None),
    }
}
