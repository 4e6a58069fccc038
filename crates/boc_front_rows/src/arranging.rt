// A front without the rows that have no wish.

ghost use Rattle.std.specs.Prelude.{◌≡◌, ◌<◌, ◌≤◌, ◌^◌, ◌++◌, [], ◌∷◌, if◌then◌else◌, length, IfOk, IsPermutation, OnOk, All, option_to_list};
ghost use Rattle.boc_fronts.specs.Steps.{IsArranged};
ghost use Rattle.boc_front_rows.specs.Orders.{AreMoved, IsMoved, done_of, kept_from, moved as moved_places, placed, places_of};
ghost use Rattle.boc_front_rows.specs.Rows.{AreIn, AreLow, plain, plains};
ghost use Rattle.boc_front_rows.specs.Seen.{front_of};

use crate::row::{Front, LiveRow};
use crate::wish_lists::WishLists;
use std::alloc::{AllocError, Global};
use std::cmp::Ordering;

// Returns for each row whether it has no wish.
fn done(alloc: Global, lists: &WishLists, live: &[LiveRow]) -> Result<Vec<bool>, AllocError>
    requires { AreIn lists.now (plains live.now) }
    ensures { IfOk result (λ done. done.items ≡ done_of lists.now (plains live.now)) }
{
    let mut done = Vec::new(alloc);
    for row in live {
        done.push(lists.is_empty(row.wishes))?;
    }
    Ok(done)
}

// Adds a place, unless its row has no wish.
fn keep(kept: &mut Vec<u16>, place: usize, done: bool) -> Result<(), AllocError>
    requires { place < 2 ^ 16 }
    ensures { OnOk result (kept.new.items ≡ kept.old.items ++ (if done then [] else place ∷ [])) }
{
    if !done {
        kept.push(place as u16)?;
    }
    Ok(())
}

// Compares the rows at two places by the numbers of their lists of wishes and then by their claims. Of rows that are alike the first is less.
fn compare(live: &[LiveRow], place: u16, other: u16) -> Ordering {
    let Some(row) = live.get(place as usize) else {
        return place.cmp(&other);
    };
    let Some(than) = live.get(other as usize) else {
        return place.cmp(&other);
    };
    row.wishes
        .cmp(&than.wishes)
        .then(row.claims.as_slice().cmp(than.claims.as_slice()))
        .then(place.cmp(&other))
}

// Returns the places of the rows that have a wish.
fn wishing(alloc: Global, done: &[bool]) -> Result<Vec<u16>, AllocError>
    requires { length done.now < 2 ^ 16 }
    ensures { IfOk result (λ kept. kept.items ≡ kept_from 0 done.now) }
{
    let mut kept = Vec::new(alloc);
    for (place, is_done) in done.iter().enumerate() {
        keep(&mut kept, place, *is_done)?;
    }
    Ok(kept)
}

// Returns the places of the rows that have a wish, sorted by the numbers of their lists of wishes and then by their claims. So fronts that differ only in the
// order in which these rows came are mostly equal.
fn kept(alloc: Global, done: &[bool], live: &[LiveRow]) -> Result<Vec<u16>, AllocError>
    requires { length done.now < 2 ^ 16 }
    ensures { IfOk result (λ kept. IsPermutation (kept_from 0 done.now) kept.items) }
{
    let mut kept = wishing(alloc, done)?;
    kept.sort_unstable_by(|place, other| compare(live, *place, *other));
    Ok(kept)
}

// Notes at each of these places its index among them.
fn place(places: &mut [Option<u16>], kept: &[u16])
    requires few { length kept.now < 2 ^ 16 }
    requires there { All (λ place. place < length places.old) kept.now }
    ensures { places.new ≡ placed 0 places.old kept.now }
{
    for (next, place) in kept.iter().enumerate() {
        places[*place as usize] = Some(next as u16);
    }
}

// Returns for each row its new place, if it is kept.
fn places(alloc: Global, done: &[bool], kept: &[u16]) -> Result<Vec<Option<u16>>, AllocError>
    requires few { length kept.now < 2 ^ 16 }
    requires there { All (λ place. place < length done.now) kept.now }
    ensures { IfOk result (λ places. places.items ≡ places_of (length done.now) kept.now) }
{
    let mut places = vec![in alloc; None; done.len()]?;
    place(&mut places, kept);
    Ok(places)
}

// Adds a place, if there is one.
fn add(after: &mut Vec<u16>, place: Option<u16>) -> Result<(), AllocError>
    ensures { OnOk result (after.new.items ≡ after.old.items ++ option_to_list place) }
{
    if let Some(place) = place {
        after.push(place)?;
    }
    Ok(())
}

// Returns the new places of the rows at these places that stay.
fn places_after(
    alloc: Global,
    places: &[Option<u16>],
    before: &[u16],
) -> Result<Vec<u16>, AllocError>
    requires { All (λ place. place < length places.now) before.now }
    ensures { IfOk result (λ after. after.items ≡ moved_places places.now before.now) }
{
    let mut after = Vec::new(alloc);
    for place in before {
        add(&mut after, places[*place as usize])?;
    }
    Ok(after)
}

// Returns these new places in rising order.
fn moved(alloc: Global, places: &[Option<u16>], before: &[u16]) -> Result<Vec<u16>, AllocError>
    requires { All (λ place. place < length places.now) before.now }
    ensures { IfOk result (λ after. IsPermutation (moved_places places.now before.now) after.items) }
{
    let mut after = places_after(alloc, places, before)?;
    after.sort_unstable();
    Ok(after)
}

// Returns a row that stays.
fn moved_row(alloc: Global, places: &[Option<u16>], row: &LiveRow) -> Result<LiveRow, AllocError>
    requires { All (λ place. place < length places.now) row.now.before.items }
    ensures { IfOk result (λ after. IsMoved places.now (plain row.now) (plain after)) }
{
    Ok(LiveRow {
        wishes: row.wishes,
        before: moved(alloc, places, &row.before)?,
        claims: Vec::from_slice(alloc, &row.claims)?,
    })
}

// Returns the rows at the places that are kept.
fn moved_rows(
    alloc: Global,
    places: &[Option<u16>],
    kept: &[u16],
    live: &[LiveRow],
) -> Result<Vec<LiveRow>, AllocError>
    requires low { AreLow (length places.now) (plains live.now) }
    requires there { All (λ place. place < length live.now) kept.now }
    ensures { IfOk result (λ rows. AreMoved places.now kept.now (plains live.now) (plains rows.items)) }
{
    let mut rows = Vec::new(alloc);
    for place in kept {
        let row = moved_row(alloc, places, &live[*place as usize])?;
        rows.push(row)?;
    }
    Ok(rows)
}

/// A front without the rows that had no wish, and the places that the others had.
#[derive(Drop, Debug)]
pub struct Arranged {
    pub front: Front,
    pub kept: Vec<u16>,
}

/// Returns a front without the rows that have no wish. The others are sorted, so that fronts that differ only in the order of their rows are mostly equal.
pub fn without_done(alloc: Global, lists: &WishLists, front: Front) -> Result<Arranged, AllocError>
    requires few { length front.live.items < 2 ^ 16 }
    requires there { AreIn lists.now (plains front.live.items) }
    requires low { AreLow (length front.live.items) (plains front.live.items) }
    ensures arranged { IfOk result (λ a. IsArranged (front_of lists.now front) a.kept.items (front_of lists.now a.front)) }
    ensures there { IfOk result (λ a. AreIn lists.now (plains a.front.live.items)) }
    ensures fewer { IfOk result (λ a. length a.front.live.items ≤ length front.live.items) }
{
    let Front { values, live } = front;
    let done = done(alloc, lists, &live)?;
    let kept = kept(alloc, &done, &live)?;
    let places = places(alloc, &done, &kept)?;
    let live = moved_rows(alloc, &places, &kept, &live)?;
    Ok(Arranged {
        front: Front { values, live },
        kept,
    })
}
