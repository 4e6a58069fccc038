// Which remedy is the best in each run.

ghost use Rattle.std.specs.Prelude.{◌≡◌, ◌<◌, ◌≤◌, ◌^◌, IfOk, length, option_map, IfSome, slice_index_or, []};
ghost use Rattle.boc_many_runs.specs.Lines.{best_in_run, bests, brings_nearly, is_at, is_better, less_at, outdoes_in, races, times_best, within_at};

use crate::columns::Column;
use boc_remedies::Remedy;
use std::alloc::{AllocError, Global};

// Of four parts of what another one saves, this many are nearly as much.
const NEARLY: i128 = 3;

/// Returns whether one remedy saves nearly as much as another.
pub(crate) fn brings_nearly(less: i64, other: i64) -> bool
    ensures { result ≡ brings_nearly less other }
{
    i128::from(less) * 4 >= i128::from(other) * NEARLY
}

/// Returns whether the remedy at one place is within that at another.
pub(crate) fn is_within_at(remedies: &[Remedy], small: usize, large: usize) -> bool
    ensures { result ≡ within_at remedies.now small large }
{
    match (remedies.get(small), remedies.get(large)) {
        (Some(small), Some(large)) => small.is_within(large),
        _ => false,
    }
}

// Returns what the remedy at this place saves in the run of this number.
fn less_at(columns: &[Column], number: usize, place: usize) -> i64
    ensures { result ≡ less_at columns.now number place }
{
    match columns.get(place) {
        Some(column) => column.in_run(number),
        None => 0,
    }
}

// Returns whether another remedy, within the one at this place, saves nearly as much in a run.
fn outdoes_in(
    remedies: &[Remedy],
    columns: &[Column],
    number: usize,
    place: usize,
    other: usize,
) -> bool
    ensures { result ≡ outdoes_in remedies.now columns.now number place other }
{
    is_within_at(remedies, other, place)
        && brings_nearly(
            less_at(columns, number, other),
            less_at(columns, number, place),
        )
}

// Returns whether a remedy races in a run: it saves anything, and none within it saves nearly as much.
#[tactic(auto, using(crate::proofs::Ranges::any_at, crate::proofs::Ranges::any_range_more))]
fn races(remedies: &[Remedy], columns: &[Column], number: usize, place: usize) -> bool
    ensures { result ≡ races remedies.now columns.now number place }
{
    if less_at(columns, number, place) <= 0 {
        return false;
    }
    for other in 0..remedies.len() {
        if outdoes_in(remedies, columns, number, place, other) {
            return false;
        }
    }
    true
}

// Returns whether a remedy saves more than the best so far.
fn is_better(columns: &[Column], number: usize, best: Option<u32>, place: usize) -> bool
    ensures { result ≡ is_better columns.now number best place }
{
    match best {
        Some(best) => less_at(columns, number, best as usize) < less_at(columns, number, place),
        None => true,
    }
}

// Returns the place of the best remedy of a run: of those that race the one that saves most, and of equal ones the first.
#[tactic(auto, using(crate::proofs::Ranges::fold_range_more))]
fn best_in_run(remedies: &[Remedy], columns: &[Column], number: usize) -> Option<u32>
    requires { length remedies.now < 2 ^ 32 }
    ensures { result ≡ best_in_run remedies.now columns.now number }
{
    let mut best = None;
    for place in 0..remedies.len() {
        if is_better(columns, number, best, place) && races(remedies, columns, number, place) {
            best = Some(place as u32);
        }
    }
    best
}

/// Returns for each of the first runs, this many, the place of the best remedy, if any saves anything. `AllocError` says that memory was refused.
#[tactic(auto, using(crate::proofs::Ranges::map_range_more))]
pub(crate) fn bests_of(
    alloc: Global,
    remedies: &[Remedy],
    columns: &[Column],
    runs: usize,
) -> Result<Vec<Option<u32>>, AllocError>
    requires { length remedies.now < 2 ^ 32 }
    ensures { IfOk result (λ all. all.items ≡ bests remedies.now columns.now runs) }
{
    let mut all = Vec::with_capacity(alloc, runs)?;
    for number in 0..runs {
        all.push(best_in_run(remedies, columns, number))?;
    }
    Ok(all)
}

// Returns whether the best remedy of a run is that at this place.
fn is_at(place: usize, best: Option<u32>) -> bool
    ensures { result ≡ is_at place best }
{
    match best {
        Some(best) => best as usize == place,
        None => false,
    }
}

/// Returns in how many runs the remedy at this place is the best.
pub(crate) fn times_best(all: &[Option<u32>], place: usize) -> u64
    ensures { result ≡ times_best all.now place }
{
    let mut times = 0;
    for best in all {
        if is_at(place, *best) {
            times += 1;
        }
    }
    times
}
