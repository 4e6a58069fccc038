// Which row each row takes its worker over from.

ghost use Rattle.std.specs.Prelude.{◌≡◌, ◌<◌, ◌^◌, All, length, IfOk};
ghost use Rattle.boc_greedy_chain.specs.GreedyChains.{ArePredecessors};
ghost use Rattle.boc_greedy_chain.specs.Turns.{AreByStart, AreTurns, StartApart};

use std::alloc::{AllocError, Global};

/// When a row starts, and on which worker.
#[derive(Clone, Copy)]
pub(crate) struct Turn {
    pub(crate) start: u64,
    pub(crate) row: u32,
    pub(crate) worker: u32,
}

// Returns for each row when it starts, and on which worker. `AllocError` says that memory was refused.
fn turns_of(alloc: Global, starts: &[u64], workers: &[u32]) -> Result<Vec<Turn>, AllocError>
    requires few { length starts.now < 2 ^ 32 }
    requires whole { length workers.now ≡ length starts.now }
    ensures { IfOk result (λ turns. AreTurns starts.now workers.now turns.items) }
{
    let mut turns = Vec::with_capacity(alloc, starts.len())?;
    for (row, start) in starts.iter().enumerate() {
        turns.push_reserved(Turn {
            start: *start,
            row: row as u32,
            worker: workers[row],
        });
    }
    Ok(turns)
}

// Returns the same, those that start first first. `AllocError` says that memory was refused.
fn turns_by_start(alloc: Global, starts: &[u64], workers: &[u32]) -> Result<Vec<Turn>, AllocError>
    requires few { length starts.now < 2 ^ 32 }
    requires whole { length workers.now ≡ length starts.now }
    ensures { IfOk result (λ turns. AreByStart starts.now workers.now turns.items) }
{
    let mut turns = turns_of(alloc, starts, workers)?;
    turns.sort_unstable_by_key(|turn| (turn.start, turn.row));
    Ok(turns)
}

/// Returns for each row the one that had its worker before it, if any: of the rows on the same worker the last that starts sooner. The workers have the
/// numbers below `p`, and none gets two rows at one tick. `AllocError` says that memory was refused.
pub(crate) fn predecessors(
    alloc: Global,
    starts: &[u64],
    workers: &[u32],
    p: u32,
) -> Result<Vec<Option<u32>>, AllocError>
    requires few { length starts.now < 2 ^ 32 }
    requires whole { length workers.now ≡ length starts.now }
    requires below { All (λ w. w < p) workers.now }
    requires apart { StartApart starts.now workers.now }
    ensures { IfOk result (λ before. ArePredecessors starts.now workers.now before.items) }
{
    let turns = turns_by_start(alloc, starts, workers)?;
    let mut last = vec![in alloc; None; p as usize]?;
    let mut before = vec![in alloc; None; starts.len()]?;
    for turn in turns.as_slice() {
        before[turn.row as usize] = last[turn.worker as usize];
        last[turn.worker as usize] = Some(turn.row);
    }
    Ok(before)
}
