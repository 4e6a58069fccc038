// What is reported of what remedies save in several runs.

ghost use Rattle.std.specs.Prelude.{◌≡◌, ◌<◌, ◌≤◌, ◌^◌, ℕ, [], All, IfOk, OnOk, length, slice_index_or};
ghost use Rattle.boc_remedies.specs.InOrder.{first_place};
ghost use Rattle.boc_many_runs.specs.Lines.{bests as bests_spec};
ghost use Rattle.boc_many_runs.specs.Lines.{AreLines, IsLineOf, goes_before, is_told, nearly_in_all, outdoes_in_all, ranked_line, told_places};

use crate::bests::{bests_of, brings_nearly, is_within_at, times_best};
use crate::columns::Column;
use crate::spread::signed_spread_of;
use boc_remedies::Remedy;
use std::alloc::{AllocError, Global};

/// What a remedy saves in several runs: by how much sooner they end, which is less than 0 where they end later. All but the last are ticks.
#[derive(Drop, Debug)]
pub struct Line {
    pub remedy: Remedy,
    pub least: i64,
    pub median: i64,
    pub most: i64,
    /// In how many runs it is the best.
    pub best_in: u64,
}

// Returns whether a remedy saves nearly as much as another in each of the first runs, this many.
#[tactic(auto, using(crate::proofs::Ranges::all_at, crate::proofs::Ranges::all_range_more))]
fn nearly_in_all(column: &Column, other: &Column, runs: usize) -> bool
    ensures { result ≡ nearly_in_all column.now other.now runs }
{
    for number in 0..runs {
        if !brings_nearly(column.in_run(number), other.in_run(number)) {
            return false;
        }
    }
    true
}

// Returns whether another remedy, within the one at this place, saves nearly as much in each run.
fn outdoes_in_all(
    remedies: &[Remedy],
    columns: &[Column],
    runs: usize,
    place: usize,
    other: usize,
) -> bool
    requires place { place < length columns.now }
    requires other { other < length columns.now }
    ensures { result ≡ outdoes_in_all remedies.now columns.now runs place other }
{
    is_within_at(remedies, other, place) && nearly_in_all(&columns[other], &columns[place], runs)
}

// Returns whether the remedy at this place is reported: none within it saves nearly as much in each run.
#[tactic(auto, using(crate::proofs::Ranges::any_at, crate::proofs::Ranges::any_range_more))]
fn is_told(remedies: &[Remedy], columns: &[Column], runs: usize, place: usize) -> bool
    requires whole { length columns.now ≡ length remedies.now }
    requires place { place < length columns.now }
    ensures { result ≡ is_told remedies.now columns.now runs place }
{
    for other in 0..remedies.len() {
        if outdoes_in_all(remedies, columns, runs, place, other) {
            return false;
        }
    }
    true
}

// Returns the places of the remedies that are reported. `AllocError` says that memory was refused.
fn told_places(
    alloc: Global,
    remedies: &[Remedy],
    columns: &[Column],
    runs: usize,
) -> Result<Vec<usize>, AllocError>
    requires { length columns.now ≡ length remedies.now }
    ensures are { IfOk result (λ places. places.items ≡ told_places remedies.now columns.now runs) }
    ensures there { IfOk result (λ places. All (λ place. place < length remedies.now) places.items) }
{
    let mut places = Vec::new(alloc);
    for place in 0..remedies.len() {
        if is_told(remedies, columns, runs, place) {
            places.push(place)?;
        }
    }
    Ok(places)
}

// Returns the line of the remedy at this place, where this is the place of the best one of each run. `AllocError` says that memory was refused.
fn line_at(
    alloc: Global,
    remedies: &[Remedy],
    columns: &[Column],
    bests: &[Option<u32>],
    place: usize,
) -> Result<Line, AllocError>
    requires whole { length columns.now ≡ length remedies.now }
    requires place { place < length remedies.now }
    requires some { 0 < length (slice_index_or columns.now place []) }
    ensures { IfOk result (λ line. (runs : ℕ) → bests.now ≡ bests_spec remedies.now columns.now runs
        → IsLineOf remedies.now columns.now runs place line) }
{
    let remedy = remedies[place].copy(alloc)?;
    let numbers = columns[place].numbers(alloc)?;
    let (least, median, most) = signed_spread_of(numbers);
    let best_in = times_best(bests, place);
    Ok(Line {
        remedy,
        least,
        median,
        most,
        best_in,
    })
}

// Returns whether a line goes before another: its median is more, or it is the best in more runs, or its most is more.
fn goes_before(own: &Line, other: &Line) -> bool
    ensures { result ≡ goes_before own.now other.now }
{
    if own.median != other.median {
        return other.median < own.median;
    }
    if own.best_in != other.best_in {
        return other.best_in < own.best_in;
    }
    other.most < own.most
}

// Returns how many lines at the front a line doesn't go before.
fn place_of(ranked: &[Line], own: &Line) -> usize
    ensures is { result ≡ first_place (goes_before own.now) ranked.now }
    ensures within { result ≤ length ranked.now }
{
    for (place, other) in ranked.iter().enumerate() {
        if goes_before(own, other) {
            return place;
        }
    }
    ranked.len()
}

// Inserts a line where it belongs.
fn rank(ranked: &mut Vec<Line>, own: Line) -> Result<(), AllocError>
    ensures { OnOk result (ranked.new.items ≡ ranked_line ranked.old.items own) }
{
    let place = place_of(ranked, &own);
    ranked.insert(place, own)?;
    Ok(())
}

/// Returns the lines of the remedies that are reported, in their order, where each column is of this many runs. `AllocError` says that memory was refused.
pub(crate) fn lines_of(
    alloc: Global,
    remedies: &[Remedy],
    columns: &[Column],
    runs: usize,
) -> Result<Vec<Line>, AllocError>
    requires whole { length columns.now ≡ length remedies.now }
    requires few { length remedies.now < 2 ^ 32 }
    requires some { 0 < runs }
    requires long { All (λ column. length column ≡ runs) columns.now }
    ensures { IfOk result (λ lines. AreLines remedies.now columns.now runs lines.items) }
{
    let bests = bests_of(alloc, remedies, columns, runs)?;
    let places = told_places(alloc, remedies, columns, runs)?;
    let mut lines = Vec::new(alloc);
    for place in &places {
        let line = line_at(alloc, remedies, columns, &bests, *place)?;
        rank(&mut lines, line)?;
    }
    Ok(lines)
}
