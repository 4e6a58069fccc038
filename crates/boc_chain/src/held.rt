//! What was admitted at the slots of the plain lists.

ghost use Rattle.std.specs.Prelude.{◌≡◌, ℕ, ◌≢◌, ◌+◌, ◌<◌, ◌≤◌, ◌^◌, List, length, slice_set, slice_get, drop, Some, None, IfSome, IsSome, IsTrue, ◌↔◌, unwrap_or};
ghost use Rattle.boc_chain.specs.Chain.{cowns_of, exchanged_of, cown, one_more, times};
ghost use Rattle.boc_chain.specs.Kept.{place_at, place_of, awaits};
ghost use Rattle.std.specs.List.{sum_by};
ghost use Rattle.std.specs.Vec.{vec_len, vec_capacity};

use boc_program::short::{CownNo, Cowns};

/// What was admitted: the cowns, and how many of the requests were exchanged.
#[derive(Drop)]
pub struct Held {
    pub cowns: Cowns,
    pub exchanged: usize,
}

/// Returns the cown of request i at a slot.
pub fn cown_at(places: &[Option<Held>], slot: usize, i: usize) -> usize
    requires { i < length (cowns_of (place_at places.now slot)) }
    ensures { result ≡ cown (place_at places.now slot) i }
{
    match places.get(slot) {
        Some(Some(held)) => held.cowns[i] as usize,
        _ => unreachable!(),
    }
}

/// Counts one more request of the slot as exchanged.
pub fn count_exchange(places: &mut Vec<Option<Held>>, slot: usize)
    requires { exchanged_of (place_at places.old.items slot) < length (cowns_of (place_at places.old.items slot)) }
    ensures here { place_at places.new.items slot ≡ one_more (place_at places.old.items slot) }
    ensures others { (s : ℕ) → s ≢ slot → place_at places.new.items s ≡ place_at places.old.items s }
    ensures awaited { let place = place_at places.old.items slot in
        let c = cown place (exchanged_of place) in
        sum_by (awaits c) places.new.items + 1 ≡ sum_by (awaits c) places.old.items }
    ensures others_awaited { (c : ℕ) → sum_by (awaits c) places.new.items ≤ sum_by (awaits c) places.old.items }
{
    match &mut places[slot] {
        Some(held) => {
            let count = held.cowns.len();
            prove!(held.exchanged < count);
            held.exchanged += 1;
        }
        None => unreachable!(),
    }
}

// Returns how often a cown is in a list.
fn count_of(cowns: &[CownNo], c: CownNo) -> usize
    ensures { result ≡ times c cowns.now }
{
    let mut count = 0;
    for cown in cowns {
        if *cown == c {
            count += 1;
        }
    }
    count
}

// Returns how many requests of what is held are still to go into the list of a cown.
fn awaited_by(held: &Option<Held>, c: CownNo) -> usize
    ensures { result ≡ awaits c held.now }
{
    match held {
        Some(held) => match held.cowns.get(held.exchanged..) {
            Some(cowns) => count_of(cowns, c),
            None => 0,
        },
        None => 0,
    }
}

/// Returns how many requests are still to go into the list of a cown.
pub fn count_awaited(places: &[Option<Held>], c: CownNo) -> usize
    requires { sum_by (awaits c) places.now < 2 ^ 64 }
    ensures { result ≡ sum_by (awaits c) places.now }
{
    let mut count = 0;
    for held in places {
        count += awaited_by(held, c);
    }
    count
}

/// Returns whether nothing is held at a slot.
pub fn is_vacant(places: &[Option<Held>], slot: usize) -> bool
    ensures { IsTrue result ↔ (place_at places.now slot ≡ None) }
{
    !matches!(places.get(slot), Some(Some(_)))
}

/// Holds the cowns at a vacant slot.
pub fn hold(places: &mut Vec<Option<Held>>, slot: usize, cowns: Cowns)
    requires there { slot < length places.old.items }
    requires vacant { place_at places.old.items slot ≡ None }
    ensures here { place_at places.new.items slot ≡ Some (record { cowns = cowns.items; exchanged = 0 }) }
    ensures others { (s : ℕ) → s ≢ slot → place_at places.new.items s ≡ place_at places.old.items s }
    ensures awaited { (c : ℕ) → sum_by (awaits c) places.new.items ≡ sum_by (awaits c) places.old.items + times c cowns.items }
{
    places[slot] = Some(Held {
        cowns,
        exchanged: 0,
    });
}
