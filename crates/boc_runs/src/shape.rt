// The shape of rows.

ghost use Rattle.std.specs.Prelude.{◌≡◌, ◌<◌, ◌≤◌, ◌↔◌, ℕ, length, slice_index, IsTrue};
ghost use Rattle.boc_runs.specs.Rows.{IsFit, IsFitChild, IsLast, IsRows};

use crate::rows::Row;
use boc_program::cowns::{are_among, are_cowns};
use boc_program::limits::{MOST_COWNS, MOST_ROWS, MOST_TICKS};

/// Returns whether these have the shape of the rows of a finished run, main first. It takes no memory, and goes over the
/// rows once.
pub fn are_rows(rows: &[Row]) -> bool
    ensures { IsTrue result ↔ IsRows rows.now }
{
    if rows.is_empty() || rows.len() > MOST_ROWS {
        return false;
    }
    are_fit(rows, &mut [0; MOST_ROWS])
}

// Returns whether each row can be after those before it. `last` keeps the offset of the last child so far of each row,
// and 0 where it has none.
fn are_fit(rows: &[Row], last: &mut [u32]) -> bool
    requires whole { length rows.now ≤ length last.old }
    requires none { (p : ℕ) → slice_index last.old p ≡ 0 }
    ensures { IsTrue result ↔ ((r : ℕ) → r < length rows.now → IsFit rows.now r) }
{
    for (number, row) in rows.iter().enumerate() {
        if !is_fit(rows, number, last) {
            return false;
        }
        last[row.parent as usize] = row.offset;
    }
    true
}

// Returns whether the row of this number can be after those before it.
fn is_fit(rows: &[Row], number: usize, last: &[u32]) -> bool
    requires there { number < length rows.now }
    requires whole { length rows.now ≤ length last.now }
    requires lasts { (p : ℕ) → p < length rows.now → IsLast rows.now number p (slice_index last.now p) }
    ensures { IsTrue result ↔ IsFit rows.now number }
{
    let row = &rows[number];
    let (cowns, written) = (row.cowns.widened(), row.written.widened());
    if !are_cowns(&cowns, MOST_COWNS as u32) || !are_among(&written, row.cowns.as_slice()) {
        return false;
    }
    if row.ticks == 0 || row.ticks > MOST_TICKS {
        return false;
    }
    if number == 0 {
        row.parent == 0 && row.offset == 0 && cowns.is_empty()
    } else {
        is_fit_child(rows, number, last)
    }
}

// Returns whether the row of this number can be after those before it as a child of one of them.
fn is_fit_child(rows: &[Row], number: usize, last: &[u32]) -> bool
    requires there { number < length rows.now }
    requires whole { length rows.now ≤ length last.now }
    requires lasts { (p : ℕ) → p < length rows.now → IsLast rows.now number p (slice_index last.now p) }
    ensures { IsTrue result ↔ IsFitChild rows.now number }
{
    let row = &rows[number];
    let parent = row.parent as usize;
    if parent >= number {
        return false;
    }
    last[parent] < row.offset && row.offset <= rows[parent].ticks
}
