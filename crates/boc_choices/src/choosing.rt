// Places that a search may confine itself to.

ghost use Rattle.std.specs.Prelude.{◌≡◌, ◌<◌, ◌^◌, ◌++◌, [], ◌∷◌, ◌&&◌, if◌then◌else◌, length, replicate, true, IfOk, OnOk};
ghost use Rattle.boc_front_rows.specs.Rows.{AreIn, AreLow, plains};
ghost use Rattle.boc_front_rows.specs.Seen.{front_of};
ghost use Rattle.boc_choices.specs.Chosen.{AreChosen};
ghost use Rattle.boc_closed_sets.specs.Enough.{AreAllFree};
ghost use Rattle.boc_choices.specs.Holding.{free_marked as free_marked_spec};

use crate::holding::{all_may_stand, has};
use crate::least::least;
use boc_front_rows::{Front, LiveRow, WishLists};
use boc_sharp_footprints::SharpFootprints;
use std::alloc::{AllocError, Global};

// Adds a place, if it is one of those.
fn add(places: &mut Vec<u16>, place: usize, too: bool) -> Result<(), AllocError>
    requires { place < 2 ^ 16 }
    ensures { OnOk result (places.new.items ≡ places.old.items ++ (if too then place ∷ [] else [])) }
{
    if too {
        places.push(place as u16)?;
    }
    Ok(())
}

// Returns the places of the free rows that have a mark.
fn free_marked(alloc: Global, marks: &[bool], live: &[LiveRow]) -> Result<Vec<u16>, AllocError>
    requires { length live.now < 2 ^ 16 }
    ensures { IfOk result (λ places. places.items ≡ free_marked_spec marks.now 0 (plains live.now)) }
{
    let mut places = Vec::new(alloc);
    for (place, row) in live.iter().enumerate() {
        let too = has(marks, place) && row.before.is_empty();
        add(&mut places, place, too)?;
    }
    Ok(places)
}

// Returns as many marks.
fn all_marked(alloc: Global, many: usize) -> Result<Vec<bool>, AllocError>
    ensures { IfOk result (λ marks. marks.items ≡ replicate many true) }
{
    vec![in alloc; true; many]
}

// Returns the places of the free rows.
fn all_free(alloc: Global, lists: &WishLists, front: &Front) -> Result<Vec<u16>, AllocError>
    requires few { length front.now.live.items < 2 ^ 16 }
    requires low { AreLow (length front.now.live.items) (plains front.now.live.items) }
    ensures { IfOk result (λ places. AreAllFree (front_of lists.now front.now) places.items) }
{
    let _lists = lists;
    let marks = all_marked(alloc, front.live.len())?;
    let places = free_marked(alloc, &marks, &front.live)?;
    Ok(places)
}

/// Returns the places of a front at which a search may make its steps: the free ones of a set of live rows that is closed by the table, or all the free ones.
pub fn chosen_places(
    alloc: Global,
    table: &SharpFootprints,
    lists: &WishLists,
    front: &Front,
) -> Result<Vec<u16>, AllocError>
    requires few { length front.now.live.items < 2 ^ 16 }
    requires there { AreIn lists.now (plains front.now.live.items) }
    requires low { AreLow (length front.now.live.items) (plains front.now.live.items) }
    ensures { IfOk result (λ places. AreChosen table.now (front_of lists.now front.now) places.items) }
{
    let marks = least(alloc, table, lists, &front.live)?;
    let places = free_marked(alloc, &marks, &front.live)?;
    if !places.is_empty() && all_may_stand(table, lists, &front.live, &marks) {
        return Ok(places);
    }
    all_free(alloc, lists, front)
}
