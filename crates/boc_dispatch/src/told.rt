//! What is reported of the rows of a run.

ghost use Rattle.std.specs.Prelude.{◌≡◌, ◌<◌, ◌≤◌, ◌^◌, List, IfOk, MatchOption, length, slice_get};
ghost use Rattle.boc_runs.specs.Run.{Member};
ghost use Rattle.boc_eval.specs.Instances.{AreRight, AreRowsOf};
ghost use Rattle.boc_dispatch.specs.Told.{ArePlaced, LacksRow};

use boc_eval::{Instance, ToldRow};
use std::alloc::{AllocError, Global};

// Returns for each of `count` rows the place at which it is reported, and the number of all that is reported where it isn't.
fn places_of(alloc: Global, told: &[ToldRow], count: usize) -> Result<Vec<usize>, AllocError>
    ensures { IfOk result (λ places. ArePlaced told.now (length told.now) count places.items) }
{
    let mut places = Vec::new(alloc);
    places.resize(count, told.len())?;
    for (place, told) in told.iter().enumerate() {
        let row = told.row as usize;
        if row < count {
            places[row] = place;
        }
    }
    Ok(places)
}

/// Returns what each of `count` rows is, in the order of their numbers, by what is reported of them; or nothing where one of them isn't reported. `AllocError`
/// says that memory was refused.
pub fn rows_in_order(
    alloc: Global,
    told: &[ToldRow],
    count: usize,
) -> Result<Option<Vec<Instance>>, AllocError>
    ensures { IfOk result (λ found. MatchOption found
        (LacksRow told.now count)
        (λ rows. (run : List Member) → AreRight run told.now → length run ≡ count → AreRowsOf run rows.items)) }
{
    let places = places_of(alloc, told, count)?;
    let mut rows = Vec::with_capacity(alloc, count)?;
    for row in 0..count {
        let Some(told) = told.get(places[row]) else {
            return Ok(None);
        };
        rows.push(told.instance.duplicate())?;
    }
    Ok(Some(rows))
}
