// The heaviest ways from the starts and the ends of rows to the end of all.

ghost use Rattle.std.specs.Prelude.{◌≡◌, ℕ, ◌<◌, ◌≤◌, ◌+◌, max, Contains, length, IfOk, slice_index};
ghost use Rattle.boc_runs.specs.Rows.{IsRows};
ghost use Rattle.boc_order.specs.Waits.{AreWaits, HasWaits};
ghost use Rattle.boc_sweep.specs.Cuts.{HasTails};
ghost use Rattle.boc_sweep.specs.Tails.{TailsFrom};

use boc_order::Links;
use boc_plans::sharing::SeenRows;
use std::alloc::{AllocError, Global};

/// The heaviest ways to the end of all.
#[derive(Drop)]
pub struct Tails {
    /// From the start of each row.
    pub starts: Vec<u64>,
    /// From the end of each row.
    pub ends: Vec<u64>,
}

// The ends of these rows have a way on of this weight.
fn raise_ends(rows: &[u32], tail: u64, ends: &mut [u64])
    requires { (a : ℕ) → Contains rows.now a → a < length ends.old }
    ensures len { length ends.new ≡ length ends.old }
    ensures here { (a : ℕ) → Contains rows.now a → slice_index ends.new a ≡ max (slice_index ends.old a) tail }
    ensures other { (a : ℕ) → (Contains rows.now a → ⊥) → slice_index ends.new a ≡ slice_index ends.old a }
{
    for row in rows {
        ends[*row as usize] = tail.max(ends[*row as usize]);
    }
}

// One more row from the last one back has its tails, and passes them on to those that it waits for.
fn pass_back(rows: &SeenRows, row: usize, waits: &[u32], starts: &mut [u64], ends: &mut [u64])
    requires shape { IsRows rows.now }
    requires there { row < length rows.now }
    requires waits { HasWaits rows.now row waits.now }
    requires starts_len { length starts.old ≡ length rows.now }
    requires ends_len { length ends.old ≡ length rows.now }
    requires later { TailsFrom rows.now (slice_index starts.old) (slice_index ends.old) (row + 1) }
    ensures starts_len { length starts.new ≡ length rows.now }
    ensures ends_len { length ends.new ≡ length rows.now }
    ensures tails { TailsFrom rows.now (slice_index starts.new) (slice_index ends.new) row }
{
    let tail = (ends[row] + u64::from(rows.ticks(row))).max(starts[row]);
    starts[row] = tail;
    let parent = rows.parent(row) as usize;
    starts[parent] = (tail + u64::from(rows.offset(row))).max(starts[parent]);
    raise_ends(waits, tail, ends);
}

/// Returns the heaviest ways from the rows' starts and ends to the end of all.
pub fn all_tails(alloc: Global, rows: &SeenRows, waits: &Links) -> Result<Tails, AllocError>
    requires shape { IsRows rows.now }
    requires waits { AreWaits rows.now waits.now }
    ensures { IfOk result (λ t. HasTails rows.now t.starts.items t.ends.items) }
{
    let mut starts = vec![in alloc; 0; rows.len()]?;
    let mut ends = vec![in alloc; 0; rows.len()]?;
    let mut row = rows.len();
    while row > 0 {
        row -= 1;
        pass_back(rows, row, waits.of(row), &mut starts, &mut ends);
    }
    Ok(Tails { starts, ends })
}
