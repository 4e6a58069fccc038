// Greedy plans of rows of which a cown is left out.

ghost use Rattle.std.specs.Prelude.{IfOk};
ghost use Rattle.boc_runs.specs.Changes.{without};
ghost use Rattle.boc_runs.specs.Rows.{IsRows};
ghost use Rattle.boc_plans.specs.Sweeps.{IsGreedyEnd};
ghost use Rattle.boc_greedy.specs.AnyCown.{IsOfRows};

use crate::children::{Family, family_of};
use crate::entry::{finished, latest_end};
use crate::frontier::Frontier;
use crate::timed::TimedRows;
use boc_order::{CownLinks, followers_without, links_by_cown};
use boc_plans::sharing::SeenRows;
use boc_program::count::Workers;
use boc_program::short::HeldCown;
use std::alloc::{AllocError, Global};

/// What is known of rows, whichever of their cowns is left out: for whose sake each waits for which, and the spawns that it makes.
#[derive(Drop)]
pub struct AnyCown {
    pub(crate) links: CownLinks,
    pub(crate) family: Family,
}

impl AnyCown {
    /// Returns what is known of these rows. `AllocError` says that memory was refused.
    pub fn of(alloc: Global, rows: &SeenRows) -> Result<AnyCown, AllocError>
        requires { IsRows rows.now }
        ensures { IfOk result (IsOfRows rows.now) }
    {
        Ok(AnyCown {
            links: links_by_cown(alloc, rows)?,
            family: family_of(alloc, rows)?,
        })
    }
}

/// Returns the tick at which the greedy plan of the rows for p workers ends where no row has this cown. `AllocError` says that memory was refused.
///
/// No row is copied: those that wait for the sake of the cown are left out of the followers, in one pass over these.
pub fn greedy_end_without(
    alloc: Global,
    rows: &SeenRows,
    known: &AnyCown,
    cown: HeldCown,
    workers: Workers,
) -> Result<u64, AllocError>
    requires shape { IsRows rows.now }
    requires known { IsOfRows rows.now known.now }
    ensures { IfOk result (IsGreedyEnd (without cown rows.now) workers) }
{
    let followers = followers_without(alloc, rows, &known.links, cown)?;
    let rows = TimedRows::without(rows, cown);
    let frontier = Frontier::behind(alloc, &rows, &followers)?;
    let simulation = finished(alloc, &rows, frontier, &known.family, workers.number())?;
    Ok(latest_end(&rows, &simulation.starts))
}
