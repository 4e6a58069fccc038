// Which cowns of a program have to be left out one by one, and which of these stands for each cown.

ghost use Rattle.std.specs.Prelude.{◌≡◌, ◌+◌, ◌<◌, ◌≤◌, length, IfOk};
ghost use Rattle.boc_runs.specs.Rows.{IsRows};
ghost use Rattle.boc_sweep.specs.Passes.{TellHad, StandForAll};

use boc_plans::sharing::SeenRows;
use boc_program::limits::MOST_COWNS;
use boc_program::short::HeldCown;
use std::alloc::{AllocError, Global};

// The cowns that are left out one by one: each that a row has stands for itself, and of those that none has one stands for all, since the rows
// are the same without any of them. How few are left out is not promised, only that each cown has one that stands for it.
#[derive(Drop)]
pub(crate) struct Passes {
    pub(crate) cowns: Vec<HeldCown>,
    // For each cown of the program the place of the one that stands for it: itself, or the one that no row has.
    pub(crate) places: Vec<usize>,
}

// Reports on each cown of a row that a row has it.
fn tell_had(rows: &SeenRows, row: usize, had: &mut [bool])
    requires shape { IsRows rows.now }
    requires there { row < length rows.now }
    requires whole { length had.old ≡ MOST_COWNS }
    requires before { TellHad rows.now row had.old }
    ensures whole { length had.new ≡ MOST_COWNS }
    ensures told { TellHad rows.now (row + 1) had.new }
{
    for own in rows.cowns(row) {
        had[*own as usize] = true;
    }
}

// Returns for each cown whether a row has it. `AllocError` says that memory was refused.
fn all_had(alloc: Global, rows: &SeenRows) -> Result<Vec<bool>, AllocError>
    requires { IsRows rows.now }
    ensures whole { IfOk result (λ had. length had.items ≡ MOST_COWNS) }
    ensures told { IfOk result (λ had. TellHad rows.now (length rows.now) had.items) }
{
    let mut had = vec![in alloc; false; MOST_COWNS]?;
    for row in 0..rows.len() {
        tell_had(rows, row, &mut had);
    }
    Ok(had)
}

impl Passes {
    // Returns what has to be left out for the given number of cowns. `AllocError` says that memory was refused.
    pub(crate) fn new(alloc: Global, rows: &SeenRows, count: usize) -> Result<Passes, AllocError>
        requires shape { IsRows rows.now }
        requires few { count ≤ MOST_COWNS }
        ensures { IfOk result (λ passes. StandForAll rows.now count passes.cowns.items passes.places.items) }
    {
        let had = all_had(alloc, rows)?;
        let mut cowns = Vec::new(alloc);
        let mut places = Vec::new(alloc);
        // The place of the first one that no row has, if there is one so far.
        let mut idle = None;
        for cown in 0..count {
            match idle {
                Some(place) if !had[cown] => places.push(place)?,
                _ => {
                    if !had[cown] {
                        idle = Some(cowns.len());
                    }
                    places.push(cowns.len())?;
                    cowns.push(cown as HeldCown)?;
                }
            }
        }
        Ok(Passes { cowns, places })
    }
}
