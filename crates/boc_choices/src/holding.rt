// The test that a set of places is closed.

ghost use Rattle.std.specs.Prelude.{◌≡◌, ◌<◌, length};
ghost use Rattle.std.specs.List.{list_any};
ghost use Rattle.boc_front_rows.specs.Lists.{list_at, wished};
ghost use Rattle.boc_front_rows.specs.Rows.{AreIn, plain, plains};
ghost use Rattle.boc_footprints.specs.Spreading.{is_marked};
ghost use Rattle.boc_choices.specs.Holding.{
  all_may_stand as all_may_stand_spec,
  are_apart as are_apart_spec,
  first_cowns as first_cowns_spec,
  has_cown,
  may_stand as may_stand_spec,
  meets as meets_spec,
};

use boc_front_rows::{LiveRow, WishLists, Wished};
use boc_program::short::CownNo;
use boc_sharp_footprints::SharpFootprints;

/// Returns whether a place is marked.
pub(crate) fn has(marks: &[bool], place: usize) -> bool
    ensures { result ≡ is_marked marks.now place }
{
    marks.get(place).copied().unwrap_or(false)
}

// Returns whether a cown is in the footprint of a behaviour.
fn reaches_cown(table: &SharpFootprints, far: &Wished, cown: CownNo) -> bool
    ensures { result ≡ has_cown table.now (wished far.now) cown }
{
    far.cowns.contains(&cown) || table.reaches(far.kind, &far.args, cown)
}

// Returns whether one of these cowns is in the footprint of a behaviour.
fn meets_one(table: &SharpFootprints, cowns: &[CownNo], far: &Wished) -> bool
    ensures { result ≡ list_any (has_cown table.now (wished far.now)) cowns.now }
{
    for cown in cowns {
        if reaches_cown(table, far, *cown) {
            return true;
        }
    }
    false
}

/// Returns whether one of these cowns is in the footprint of a behaviour of a list.
pub(crate) fn meets(
    table: &SharpFootprints,
    lists: &WishLists,
    cowns: &[CownNo],
    list: usize,
) -> bool
    requires { list < length lists.now }
    ensures { result ≡ meets_spec table.now cowns.now (list_at lists.now list) }
{
    let mut list = list;
    while let Some((far, rest)) = lists.split(list) {
        if meets_one(table, cowns, far) {
            return true;
        }
        list = rest;
    }
    false
}

/// Returns the cowns of the first behaviour of a list, if there is one.
pub(crate) fn first_cowns(lists: &WishLists, list: usize) -> &[CownNo]
    requires { list < length lists.now }
    ensures { result.now ≡ first_cowns_spec (list_at lists.now list) }
{
    match lists.split(list) {
        None => &[],
        Some((first, _)) => first.cowns.as_slice(),
    }
}

// Returns whether the rows at places without a mark have no wish whose footprint has one of these cowns.
fn are_apart(
    table: &SharpFootprints,
    lists: &WishLists,
    live: &[LiveRow],
    marks: &[bool],
    cowns: &[CownNo],
) -> bool
    requires { AreIn lists.now (plains live.now) }
    ensures { result ≡ are_apart_spec table.now lists.now marks.now cowns.now 0 (plains live.now) }
{
    for (place, row) in live.iter().enumerate() {
        if !has(marks, place) && meets(table, lists, cowns, row.wishes) {
            return false;
        }
    }
    true
}

// Returns whether one of these places is marked.
fn has_one(marks: &[bool], places: &[u16]) -> bool
    ensures { result ≡ list_any (is_marked marks.now) places.now }
{
    for place in places {
        if has(marks, *place as usize) {
            return true;
        }
    }
    false
}

// Returns whether the place of a row may be marked.
fn may_stand(
    table: &SharpFootprints,
    lists: &WishLists,
    live: &[LiveRow],
    marks: &[bool],
    row: &LiveRow,
) -> bool
    requires there { AreIn lists.now (plains live.now) }
    requires row { row.now.wishes < length lists.now }
    ensures { result ≡ may_stand_spec table.now lists.now marks.now (plains live.now) (plain row.now) }
{
    if row.before.is_empty() {
        are_apart(table, lists, live, marks, first_cowns(lists, row.wishes))
    } else {
        has_one(marks, &row.before)
    }
}

/// Returns whether the place of each row at a marked place may be marked.
pub(crate) fn all_may_stand(
    table: &SharpFootprints,
    lists: &WishLists,
    live: &[LiveRow],
    marks: &[bool],
) -> bool
    requires { AreIn lists.now (plains live.now) }
    ensures { result ≡ all_may_stand_spec table.now lists.now marks.now (plains live.now) 0 (plains live.now) }
{
    for (place, row) in live.iter().enumerate() {
        if has(marks, place) && !may_stand(table, lists, live, marks, row) {
            return false;
        }
    }
    true
}
