// When a row can start.

ghost use Rattle.std.specs.Prelude.{◌≡◌, ℕ, ◌+◌, ◌^◌, ◌<◌, List, Some, length, IfSome, IfNone};
ghost use Rattle.std.specs.List.{Contains};
ghost use Rattle.boc_runs.specs.Rows.{IsRows, cowns_of, parent_of, offset_of};
ghost use Rattle.boc_plans.specs.Plans.{start_of};
ghost use Rattle.boc_greedy.specs.Simulating.{later};
ghost use Rattle.boc_used_greedy.specs.Holds.{HasHolds};
ghost use Rattle.boc_used_greedy.specs.Ready.{IsReadyBy, IsReadyFrom};
ghost use Rattle.boc_used_greedy.specs.Fronts.{AreFronts, IsAllowed, IsLowPlan};

use crate::fronts::{Front, LATER};
use crate::holds::Holds;
use boc_plans::sharing::SeenRows;
use boc_program::short::HeldCown;

// Returns when a row is spawned, where that is known.
fn spawned(rows: &SeenRows, starts: &[u64], row: usize) -> Option<u64>
    requires shape { IsRows rows.now }
    requires there { row < length rows.now }
    requires whole { length starts.now ≡ length rows.now }
    requires low { IsLowPlan rows.now starts.now }
    ensures main { row ≡ 0 → result ≡ Some 0 }
    ensures child { 0 < row → IfSome result (λ tick. tick ≡ start_of starts.now (parent_of rows.now row) + offset_of rows.now row) }
    ensures low { IfSome result (λ tick. tick < 2 ^ 62) }
    ensures none { IfNone result (start_of starts.now (parent_of rows.now row) ≡ later) }
{
    if row == 0 {
        return Some(0);
    }
    let start = starts[rows.parent(row) as usize];
    if start == LATER {
        None
    } else {
        Some(start + u64::from(rows.offset(row)))
    }
}

// Returns from when on a row may start for the sake of one of its cowns, where that is known.
fn allowed(
    rows: &SeenRows,
    holds: &Holds,
    fronts: &[Front],
    row: usize,
    own: HeldCown,
) -> Option<u64>
    requires shape { IsRows rows.now }
    requires holds { HasHolds rows.now holds.now }
    requires there { row < length rows.now }
    requires own { Contains (cowns_of rows.now row) own }
    requires plan { (starts : List ℕ) × IsLowPlan rows.now starts × AreFronts rows.now holds.now.all.items starts fronts.now × (start_of starts row ≡ later) }
    ensures { (starts : List ℕ) → AreFronts rows.now holds.now.all.items starts fronts.now → start_of starts row ≡ later
        → IsAllowed rows.now holds.now.all.items starts row own result }
{
    match holds.of(rows, row, own) {
        None => Some(0),
        Some(turn) => {
            if !turn.needed {
                return Some(0);
            }
            let front = fronts[own as usize];
            if front.told as usize <= row {
                return None;
            }
            let came = front.came(rows.writes(row, own));
            Some((came + 1).saturating_sub(u64::from(turn.first)))
        }
    }
}

/// Returns the tick at which a row that hasn't started is ready, where that is known.
pub(crate) fn ready_at(
    rows: &SeenRows,
    holds: &Holds,
    starts: &[u64],
    fronts: &[Front],
    row: usize,
) -> Option<u64>
    requires shape { IsRows rows.now }
    requires holds { HasHolds rows.now holds.now }
    requires there { row < length rows.now }
    requires whole { length starts.now ≡ length rows.now }
    requires low { IsLowPlan rows.now starts.now }
    requires fronts { AreFronts rows.now holds.now.all.items starts.now fronts.now }
    requires not_started { start_of starts.now row ≡ later }
    ensures from { IfSome result (λ tick. IsReadyFrom rows.now holds.now.all.items starts.now tick row) }
    ensures low { IfSome result (λ tick. tick < 2 ^ 63) }
    ensures none { IfNone result ((tick : ℕ) → tick < 2 ^ 63 → IsReadyBy rows.now holds.now.all.items starts.now tick row → ⊥) }
{
    let mut tick = spawned(rows, starts, row)?;
    for own in rows.cowns(row) {
        tick = tick.max(allowed(rows, holds, fronts, row, *own)?);
    }
    Some(tick)
}
