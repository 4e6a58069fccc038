// The search for a small closed set. No contract says what it finds: that is tested afterwards.

ghost use Rattle.boc_front_rows.specs.Rows.{AreIn, plains};

use crate::holding::{first_cowns, has, meets};
use boc_front_rows::{LiveRow, WishLists};
use boc_program::short::CownNo;
use boc_sharp_footprints::SharpFootprints;
use std::alloc::{AllocError, Global};

// A set of places that is made closed: its marks, the marked places not yet looked at, how many free rows were found in it, and whether one of
// them is before the place that it began with.
#[derive(Drop)]
struct Growing {
    marks: Vec<bool>,
    to_do: Vec<usize>,
    free: usize,
    earlier: bool,
}

// Marks a place, unless it is marked.
fn mark(set: &mut Growing, place: usize) -> Result<(), AllocError> {
    let marks = &mut set.marks[..];
    if let Some(old) = marks.get_mut(place) {
        if *old {
            return Ok(());
        }
        *old = true;
        set.to_do.push(place)?;
    }
    Ok(())
}

// Marks the rows that have a wish whose footprint has one of these cowns.
fn mark_meeting(
    set: &mut Growing,
    table: &SharpFootprints,
    lists: &WishLists,
    live: &[LiveRow],
    cowns: &[CownNo],
) -> Result<(), AllocError>
    requires { AreIn lists.now (plains live.now) }
{
    for (place, row) in live.iter().enumerate() {
        if !has(&set.marks, place) && meets(table, lists, cowns, row.wishes) {
            mark(set, place)?;
        }
    }
    Ok(())
}

// Marks one of the places before a row, unless one is marked.
fn mark_before(set: &mut Growing, before: &[u16]) -> Result<(), AllocError> {
    for place in before {
        if has(&set.marks, *place as usize) {
            return Ok(());
        }
    }
    match before {
        [] => Ok(()),
        [first, ..] => mark(set, *first as usize),
    }
}

// Marks what has to be in a set with the row at a place.
fn look_at(
    set: &mut Growing,
    table: &SharpFootprints,
    lists: &WishLists,
    live: &[LiveRow],
    start: usize,
    place: usize,
) -> Result<(), AllocError>
    requires { AreIn lists.now (plains live.now) }
{
    if place >= live.len() {
        return Ok(());
    }
    let row = &live[place];
    if row.before.is_empty() {
        set.free = set.free.saturating_add(1);
        set.earlier |= place < start;
        mark_meeting(set, table, lists, live, first_cowns(lists, row.wishes))
    } else {
        mark_before(set, &row.before)
    }
}

// Returns a set of the row at a place alone, not yet looked at.
fn alone(alloc: Global, many: usize, start: usize) -> Result<Growing, AllocError> {
    let mut set = Growing {
        marks: vec![in alloc; false; many]?,
        to_do: Vec::new(alloc),
        free: 0,
        earlier: false,
    };
    mark(&mut set, start)?;
    Ok(set)
}

// Returns a closed set with the row at a place, and how many of its rows are free. It returns none where as many are free as in another set, or where
// one of them is before the place: the set that began there is no greater.
fn closed_with(
    alloc: Global,
    table: &SharpFootprints,
    lists: &WishLists,
    live: &[LiveRow],
    start: usize,
    fewest: usize,
) -> Result<Option<Growing>, AllocError>
    requires { AreIn lists.now (plains live.now) }
{
    let mut set = alone(alloc, live.len(), start)?;
    for _ in 0..live.len() {
        let Some(place) = set.to_do.pop() else {
            break;
        };
        look_at(&mut set, table, lists, live, start, place)?;
        if set.earlier || set.free >= fewest {
            return Ok(None);
        }
    }
    Ok(Some(set))
}

/// Returns marks of a closed set: of those with a free row and what that needs, one with the fewest free rows.
pub(crate) fn least(
    alloc: Global,
    table: &SharpFootprints,
    lists: &WishLists,
    live: &[LiveRow],
) -> Result<Vec<bool>, AllocError>
    requires { AreIn lists.now (plains live.now) }
{
    let mut best = Vec::new(alloc);
    let mut fewest = usize::MAX;
    for (place, row) in live.iter().enumerate() {
        if fewest > 1
            && row.before.is_empty()
            && let Some(set) = closed_with(alloc, table, lists, live, place, fewest)?
        {
            fewest = set.free;
            best = set.marks;
        }
    }
    Ok(best)
}
