// Bars, packed into few lanes.

ghost use Rattle.std.specs.Prelude.{◌≡◌, ◌≤◌, ◌<◌, ◌^◌, ℕ, [], length, get_or, IfOk, OnOk};
ghost use Rattle.boc_bars.specs.Bars.{AreApart, AreBarsInSomeOrder};
ghost use Rattle.boc_bars.specs.Packing.{IsSound, Places};

use crate::bar::{Bar, Stretch, bars_of};
use std::alloc::{AllocError, Global};
use std::cmp::Reverse;
use std::collections::BinaryHeap;

/// Returns the bars of rows, those that start first in front, packed into lanes: of two in one lane the one in front
/// ends by the time that the other starts. `AllocError` says that memory was refused.
///
/// A bar takes the lane that has been free for longest, and a new one where none is free, so that there are few lanes; that is tested, and no promise.
pub fn packed(alloc: Global, rows: &[Stretch]) -> Result<Vec<Bar>, AllocError>
    ensures bars { IfOk result (λ bars. AreBarsInSomeOrder rows.now bars.items) }
    ensures apart { IfOk result (λ bars. AreApart bars.items) }
{
    let mut bars = bars_of(alloc, rows)?;
    bars.sort_unstable_by_key(|bar| (bar.start, bar.row));
    let mut packing = Packing::new(alloc);
    for bar in &bars {
        packing.place(*bar)?;
    }
    Ok(packing.bars)
}

/// The bars that have a lane, and when each lane is free.
#[derive(Drop)]
pub(crate) struct Packing {
    bars: Vec<Bar>,
    // The tick from which on each lane is free.
    free: Vec<u64>,
    // The lanes by the ticks at which they became free. Which lane is tried first is all that hangs on it.
    queue: BinaryHeap<Reverse<(u64, u32)>>,
}

impl Packing {
    // No bar, and no lane.
    fn new(alloc: Global) -> Packing
        ensures bars { result.bars.items ≡ [] }
        ensures sound { IsSound result }
    {
        Packing {
            bars: Vec::new(alloc),
            free: Vec::new(alloc),
            queue: BinaryHeap::new(alloc),
        }
    }

    // Gives a bar a lane that is free when it starts.
    fn place(&mut self, bar: Bar) -> Result<(), AllocError>
        ensures { OnOk result (Places self.old bar self.new) }
    {
        let lane = self.free_lane(bar.start)?;
        let free = later_of(bar.end, self.free[lane as usize]);
        self.free[lane as usize] = free;
        self.queue.push(Reverse((free, lane)))?;
        self.bars.push(Bar { lane, ..bar })?;
        Ok(())
    }

    // Returns a lane that is free at a tick: the one that has been free for longest, or else a new one.
    fn free_lane(&mut self, tick: u64) -> Result<u32, AllocError>
        ensures there { IfOk result (λ lane. lane < length self.new.free.items) }
        ensures free { IfOk result (λ lane. get_or self.new.free.items lane 0 ≤ tick) }
        ensures stay { OnOk result ((lane : ℕ) → get_or self.new.free.items lane 0 ≡ get_or self.old.free.items lane 0) }
        ensures bars { self.new.bars ≡ self.old.bars }
    {
        let Some(Reverse((_, first))) = self.queue.peek() else {
            return self.new_lane();
        };
        let lane = *first;
        if self
            .free
            .get(lane as usize)
            .is_some_and(|free| *free <= tick)
        {
            self.queue.pop();
            return Ok(lane);
        }
        self.new_lane()
    }

    // Returns a lane more, which is free from the start on.
    fn new_lane(&mut self) -> Result<u32, AllocError>
        ensures there { IfOk result (λ lane. lane < length self.new.free.items) }
        ensures free { IfOk result (λ lane. get_or self.new.free.items lane 0 ≡ 0) }
        ensures stay { OnOk result ((lane : ℕ) → get_or self.new.free.items lane 0 ≡ get_or self.old.free.items lane 0) }
        ensures bars { self.new.bars ≡ self.old.bars }
    {
        let lane = u32::try_from(self.free.len()).map_err(|_| AllocError)?;
        self.free.push(0)?;
        Ok(lane)
    }
}

// Returns the later of two ticks.
fn later_of(a: u64, b: u64) -> u64
    ensures first { a ≤ result }
    ensures second { b ≤ result }
{
    if a < b { b } else { a }
}
