// The rows of a run on their workers, in the order in which each worker has them.

ghost use Rattle.std.specs.Prelude.{◌≡◌, ◌<◌, ◌^◌, ◌↔◌, IsTrue, IfOk, length};
ghost use Rattle.boc_busy.specs.Stints.{AreApart, AreInLine, AreStints, IsApart};

use std::alloc::{AllocError, Global};

/// A row on its worker, from its start to its end.
#[derive(Clone, Copy, PartialEq, Eq, Debug)]
pub struct Stint {
    /// The worker that has the row.
    pub worker: u32,
    /// The tick at which the row starts.
    pub start: u64,
    /// The tick at which the row ends.
    pub end: u64,
    /// The number of the row.
    pub row: u32,
}

// Returns the stints of rows that start and end so on these workers, in the order of the rows. `AllocError` says that memory was refused.
fn stints_of(
    alloc: Global,
    starts: &[u64],
    ends: &[u64],
    workers: &[u32],
) -> Result<Vec<Stint>, AllocError>
    requires few { length starts.now < 2 ^ 32 }
    requires ended { length ends.now ≡ length starts.now }
    requires served { length workers.now ≡ length starts.now }
    ensures { IfOk result (λ stints. AreStints starts.now ends.now workers.now stints.items) }
{
    let mut stints = Vec::with_capacity(alloc, starts.len())?;
    for row in 0..starts.len() {
        stints.push_reserved(Stint {
            worker: workers[row],
            start: starts[row],
            end: ends[row],
            row: row as u32,
        });
    }
    Ok(stints)
}

/// Returns the stints of rows that start and end so on these workers, those of one worker next to each other, in the order of their starts. `AllocError` says
/// that memory was refused.
pub(crate) fn in_line(
    alloc: Global,
    starts: &[u64],
    ends: &[u64],
    workers: &[u32],
) -> Result<Vec<Stint>, AllocError>
    requires few { length starts.now < 2 ^ 32 }
    requires ended { length ends.now ≡ length starts.now }
    requires served { length workers.now ≡ length starts.now }
    ensures { IfOk result (λ stints. AreInLine starts.now ends.now workers.now stints.items) }
{
    let mut stints = stints_of(alloc, starts, ends, workers)?;
    stints.sort_unstable_by_key(|stint| (stint.worker, stint.start));
    Ok(stints)
}

// Returns whether a stint has ended when another one of its worker starts.
fn is_apart(first: Stint, next: Stint) -> bool
    ensures { IsTrue result ↔ IsApart first next }
{
    first.worker != next.worker || first.end <= next.start
}

/// Returns whether each stint has ended when the next one starts, where both are of one worker.
pub(crate) fn are_apart(stints: &[Stint]) -> bool
    ensures { IsTrue result ↔ AreApart stints.now }
{
    for place in 1..stints.len() {
        if !is_apart(stints[place - 1], stints[place]) {
            return false;
        }
    }
    true
}
