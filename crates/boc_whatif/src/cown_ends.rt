// The ends of greedy plans without one cown after another.

ghost use Rattle.std.specs.Prelude.{◌<◌, ◌≤◌, IfOk};
ghost use Rattle.boc_runs.specs.Changes.{without};
ghost use Rattle.boc_runs.specs.Rows.{IsRows};
ghost use Rattle.boc_greedy.specs.AnyCown.{IsOfRows};
ghost use Rattle.boc_plans.specs.Sweeps.{IsGreedyEnd, IsGreedyCownSweep};
ghost use Rattle.boc_whatif.specs.Freed.{AreEndsWithout};

use boc_greedy::{AnyCown, greedy_end_without};
use boc_plans::sharing::SeenRows;
use boc_program::count::Workers;
use boc_program::limits::MOST_COWNS;
use boc_program::short::HeldCown;
use boc_progress::Progress;
use rayon::prelude::*;
use std::alloc::{AllocError, Global};
use std::thread::Threads;

// After this many cowns, which threads share out, it is reported how far the sweep is.
const STRETCH: usize = 16;

// Returns the ends for the cowns of a stretch, from one on, up to another one. Threads share them out.
fn ends_between(
    rt: &(impl Threads + Sync),
    alloc: Global,
    rows: &SeenRows,
    known: &AnyCown,
    workers: Workers,
    from: usize,
    to: usize,
) -> Result<Vec<u64>, AllocError>
    requires shape { IsRows rows.now }
    requires known { IsOfRows rows.now known.now }
    requires order { from ≤ to }
    requires few { to ≤ MOST_COWNS }
    ensures { IfOk result (λ ends. AreEndsWithout rows.now workers from to ends.items) }
{
    (from..to)
        .into_par_iter()
        .with_min_len(1)
        .map(
            |cown: usize| -> Result<u64, AllocError>
                requires { (cown < MOST_COWNS) × IsRows rows.now × IsOfRows rows.now known.now }
                ensures { IfOk result (IsGreedyEnd (without cown rows.entry.now) workers) }
            { greedy_end_without(alloc, rows, known, cown as HeldCown, workers) },
        )
        .collect::<Result<Vec<u64>, AllocError>>(rt, alloc)?
}

/// Returns for each of the given number of cowns the end of the greedy plan for the given number of workers of the rows without it. After each stretch of cowns
/// it is reported how many of them are done. `AllocError` says that memory was refused.
///
/// Each cown takes as much time as a plan of the rows from the start. Which of them wait for which, and for whose sake, is found once.
pub fn cown_ends(
    rt: &(impl Threads + Sync),
    alloc: Global,
    rows: &SeenRows,
    count: usize,
    workers: Workers,
    progress: &mut dyn Progress,
) -> Result<Vec<u64>, AllocError>
    requires shape { IsRows rows.now }
    requires few { count ≤ MOST_COWNS }
    ensures { IfOk result (λ ends. IsGreedyCownSweep rows.now workers count ends.items) }
{
    let known = AnyCown::of(alloc, rows)?;
    let mut all = Vec::with_capacity(alloc, count)?;
    let mut done = 0;
    while done < count {
        let next = count.min(done + STRETCH);
        let ends = ends_between(rt, alloc, rows, &known, workers, done, next)?;
        all.extend_from_slice(&ends)?;
        done = next;
        progress.done(done, count);
    }
    Ok(all)
}
