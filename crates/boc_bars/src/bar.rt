// Bars, a lane for each.

ghost use Rattle.std.specs.Prelude.{◌<◌, All, IfOk};
ghost use Rattle.boc_bars.specs.Bars.{AreBars};

use std::alloc::{AllocError, Global};

/// From which tick on something runs, and up to which.
#[derive(Clone, Copy, PartialEq, Eq, Debug)]
pub struct Stretch {
    pub start: u64,
    pub end: u64,
}

/// When a row runs, in ticks, and the lane that it is drawn in. Rows and lanes count from 0.
#[derive(Clone, Copy, PartialEq, Eq, Debug)]
pub struct Bar {
    pub row: u32,
    pub start: u64,
    pub end: u64,
    pub lane: u32,
}

/// Returns the bars of rows, in their order, each in a lane of its own. `AllocError` says that memory was refused, or that rows are more than 32 bits count.
pub fn bars_of(alloc: Global, rows: &[Stretch]) -> Result<Vec<Bar>, AllocError>
    ensures { IfOk result (λ bars. AreBars rows.now bars.items) }
{
    let mut bars = Vec::with_capacity(alloc, rows.len())?;
    for number in 0..rows.len() {
        let row = u32::try_from(number).map_err(|_| AllocError)?;
        let Stretch { start, end } = rows[number];
        bars.push(Bar {
            row,
            start,
            end,
            lane: row,
        })?;
    }
    Ok(bars)
}

/// Returns how many lanes these bars need: one more than the greatest. It takes no memory.
pub fn lane_count(bars: &[Bar]) -> u64
    ensures { All (λ bar. bar.lane < result) bars.now }
{
    let mut count = 0;
    for bar in bars {
        if count <= bar.lane as u64 {
            count = bar.lane as u64 + 1;
        }
    }
    count
}
