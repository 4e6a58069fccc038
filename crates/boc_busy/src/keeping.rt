// Whether no row starts before its spawn, nor before the end of a row that is ordered before it.

ghost use Rattle.std.specs.Prelude.{◌≡◌, ◌<◌, ◌≤◌, ◌^◌, ◌↔◌, All, IsTrue, length, slice_index};
ghost use Rattle.boc_runs.specs.Rows.{IsRows};
ghost use Rattle.boc_plans.specs.Plans.{HasEnds, Keeps};
ghost use Rattle.boc_order.specs.Waits.{AreWaits, HasWaits};
ghost use Rattle.boc_busy.specs.Keeping.{KeepsAt};

use boc_order::{Links, spawned_at};
use boc_plans::sharing::SeenRows;

// Returns whether these rows have ended at a tick, where rows end so.
fn are_over(rows: &[u32], ends: &[u64], tick: u64) -> bool
    requires { All (λ row. row < length ends.now) rows.now }
    ensures { IsTrue result ↔ All (λ row. slice_index ends.now row ≤ tick) rows.now }
{
    for row in rows {
        if ends[*row as usize] > tick {
            return false;
        }
    }
    true
}

// Returns whether a row starts at its spawn or later, and once the rows that it waits for have ended.
fn keeps_at(rows: &SeenRows, row: usize, waits: &[u32], starts: &[u64], ends: &[u64]) -> bool
    requires shape { IsRows rows.now }
    requires there { row < length rows.now }
    requires waits { HasWaits rows.now row waits.now }
    requires whole { length starts.now ≡ length rows.now }
    requires low { All (λ start. start < 2 ^ 62) starts.now }
    requires ends { HasEnds rows.now starts.now ends.now }
    ensures { IsTrue result ↔ KeepsAt rows.now starts.now row }
{
    if spawned_at(rows, row, starts) > starts[row] {
        return false;
    }
    are_over(waits, ends, starts[row])
}

/// Returns whether no row starts before its spawn, nor before the end of a row that is ordered before it.
pub(crate) fn all_keep(rows: &SeenRows, waits: &Links, starts: &[u64], ends: &[u64]) -> bool
    requires shape { IsRows rows.now }
    requires waits { AreWaits rows.now waits.now }
    requires whole { length starts.now ≡ length rows.now }
    requires low { All (λ start. start < 2 ^ 62) starts.now }
    requires ends { HasEnds rows.now starts.now ends.now }
    ensures { IsTrue result ↔ Keeps rows.now starts.now }
{
    for row in 0..rows.len() {
        if !keeps_at(rows, row, waits.of(row), starts, ends) {
            return false;
        }
    }
    true
}
