// What follows from each row, whatever the number of workers.

ghost use Rattle.std.specs.Prelude.{IfOk};
ghost use Rattle.boc_runs.specs.Rows.{IsRows};
ghost use Rattle.boc_order.specs.Waits.{AreWaits};
ghost use Rattle.boc_greedy.specs.Consequences.{AreConsequences};

use crate::children::{Family, family_of};
use boc_order::{Links, followers};
use boc_plans::sharing::SeenRows;
use std::alloc::{AllocError, Global};

/// What follows from each row: the rows that wait for it, and the spawns that it makes. It is the same for every number of
/// workers, so it is found once for the plans of them all.
#[derive(Drop)]
pub struct Consequences {
    /// The rows that wait for each row.
    pub(crate) followers: Links,
    /// What rows do while they are under way.
    pub(crate) family: Family,
}

impl Consequences {
    /// Returns what follows from each of the rows, which wait for these. `AllocError` says that memory was refused.
    pub fn of(alloc: Global, rows: &SeenRows, waits: &Links) -> Result<Consequences, AllocError>
        requires shape { IsRows rows.now }
        requires waits { AreWaits rows.now waits.now }
        ensures { IfOk result (λ c. AreConsequences rows.now waits.now c) }
    {
        Ok(Consequences {
            followers: followers(alloc, waits)?,
            family: family_of(alloc, rows)?,
        })
    }
}
