// The rows that wait for a tick, or for a worker.

ghost use Rattle.std.specs.Prelude.{◌≡◌, ◌⊎◌, ℕ, ◌<◌, ◌≤◌, length, Some, IfOk, IfSome, IfNone, slice_get, slice_index};
ghost use Rattle.std.specs.BinaryHeap.{heap_items, IsHeap};
ghost use Rattle.boc_greedy.specs.Queues.{entry_order, IsIn, IsOnTop};
ghost use Rattle.boc_used_greedy.specs.Plans.{IsGathered, IsReady, row_order};

use std::alloc::AllocError;
use std::cmp::Reverse;
use std::collections::BinaryHeap;

/// Rows with the ticks at which they are ready, the earliest on top.
pub(crate) type Waiting = BinaryHeap<Reverse<(u64, u32)>>;

/// Rows that are ready, the one of the lowest number on top.
pub(crate) type Ready = BinaryHeap<Reverse<u32>>;

/// Returns the row that is ready first, with the tick at which it is, if there is one.
pub(crate) fn next_due(waiting: &Waiting) -> Option<(u64, u32)>
    requires { IsHeap entry_order (heap_items waiting.now) }
    ensures top { IfSome result (λ first. IsOnTop (heap_items waiting.now) first.0 first.1) }
    ensures least { IfSome result (λ first. (due r : ℕ) → IsIn (heap_items waiting.now) due r → first.0 ≤ due) }
    ensures none { IfNone result ((due r : ℕ) → IsIn (heap_items waiting.now) due r → ⊥) }
{
    let Reverse(first) = waiting.peek()?;
    Some(*first)
}

/// Returns the ready row of the lowest number, if there is one.
pub(crate) fn next_ready(ready: &Ready) -> Option<u32>
    requires { IsHeap row_order (heap_items ready.now) }
    ensures top { IfSome result (λ row. slice_get (heap_items ready.now) 0 ≡ Some (record { 0 = row })) }
    ensures least { IfSome result (λ row. (r : ℕ) → IsReady (heap_items ready.now) r → row ≤ r) }
    ensures none { IfNone result ((r : ℕ) → IsReady (heap_items ready.now) r → ⊥) }
{
    let Reverse(row) = ready.peek()?;
    Some(*row)
}

// Takes a row out that is ready by a tick, if there is one.
fn take_due(waiting: &mut Waiting, tick: u64) -> Option<u32>
    requires { IsHeap entry_order (heap_items waiting.old) }
    ensures heap { IsHeap entry_order (heap_items waiting.new) }
    ensures was { (due r : ℕ) → IsIn (heap_items waiting.new) due r → IsIn (heap_items waiting.old) due r }
    ensures taken { IfSome result (λ row. (due : ℕ) × (due ≤ tick) × IsIn (heap_items waiting.old) due row) }
    ensures stays { IfSome result (λ row. (due r : ℕ) → IsIn (heap_items waiting.old) due r → (r ≡ row) ⊎ IsIn (heap_items waiting.new) due r) }
    ensures fewer { IfSome result (λ _. length (heap_items waiting.new) < length (heap_items waiting.old)) }
    ensures none { IfNone result ((due r : ℕ) → IsIn (heap_items waiting.old) due r → tick < due) }
    ensures unchanged { IfNone result (heap_items waiting.new ≡ heap_items waiting.old) }
{
    let (due, row) = next_due(waiting)?;
    if due > tick {
        return None;
    }
    waiting.pop();
    Some(row)
}

/// Has all rows wait for a worker that are ready by a tick.
pub(crate) fn gather(waiting: &mut Waiting, ready: &mut Ready, tick: u64) -> Result<(), AllocError>
    requires waiting { IsHeap entry_order (heap_items waiting.old) }
    requires ready { IsHeap row_order (heap_items ready.old) }
    ensures { IfOk result (λ _. IsGathered tick (heap_items waiting.old) (heap_items ready.old) (heap_items waiting.new) (heap_items ready.new)) }
{
    while let Some(row) = take_due(waiting, tick) {
        ready.push(Reverse(row))?;
    }
    Ok(())
}

/// Returns the earliest of some ticks.
pub(crate) fn least_of(ticks: &[u64]) -> u64
    requires { 0 < length ticks.now }
    ensures least { (k : ℕ) → k < length ticks.now → result ≤ slice_index ticks.now k }
    ensures there { (k : ℕ) × (k < length ticks.now) × (result ≡ slice_index ticks.now k) }
{
    let mut least = ticks[0];
    for tick in ticks {
        least = least.min(*tick);
    }
    least
}

/// Returns the first place of a tick that has come by then.
pub(crate) fn first_by(ticks: &[u64], now: u64) -> usize
    requires { (k : ℕ) × (k < length ticks.now) × (slice_index ticks.now k ≤ now) }
    ensures there { result < length ticks.now }
    ensures come { slice_index ticks.now result ≤ now }
    ensures first { (k : ℕ) → k < result → now < slice_index ticks.now k }
{
    for (place, tick) in ticks.iter().enumerate() {
        if *tick <= now {
            return place;
        }
    }
    ticks.len()
}
