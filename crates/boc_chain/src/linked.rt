//! The requests of one behaviour, each linked to its neighbours.

ghost use Rattle.std.specs.Prelude.{◌≡◌, ◌≢◌, ◌==◌, ◌↔◌, ℕ, ◌<◌, ◌≤◌, List, length, position, Some, false, drop};
ghost use Rattle.std.specs.Option.{option_map};
ghost use Rattle.slab.specs.Slab.{slab_len};
ghost use Rattle.boc_chain.specs.Linked.{stored_in, stored, links, place_in, place_at, IsAt, IsSpelled, IsPlaced, Holds, Leads, passed};
ghost use Rattle.boc_chain.specs.Links.{next_of};
ghost use Rattle.boc_chain.specs.ShortLinks.{changed};
ghost use Rattle.boc_chain.specs.Chain.{cown, cowns_of, exchanged_of, one_more, times, settle_answer, after_settle};
ghost use Rattle.boc_chain.specs.declared.request.Request.{Request};
ghost use Rattle.boc_chain.specs.declared.request.Settled.TheVariants.{Blocked as SettleBlocked};

use crate::kept_links::Linked;
use crate::request::Settled;
use boc_program::short::CownNo;
use slab::Slab;

/// Names a request: the slot that it is at, and its place among those of the slot. It is kept small, since there are two for
/// each request.
#[derive(Clone, Copy, Debug, Default, PartialEq, Eq)]
pub struct Node {
    pub slot: u16,
    pub place: u8,
}

/// How one request is kept: the one before it in its list, until that leaves, and the one after it, once that
/// has settled.
#[derive(Clone, Copy, Debug, Default, PartialEq, Eq)]
pub struct Link {
    pub settled: bool,
    pub scheduled: bool,
    pub before: Option<Node>,
    pub next: Option<Node>,
}

/// A change of one part of a link.
#[derive(Clone, Copy, Debug)]
pub enum Change {
    /// The request has settled.
    Settle,
    /// The request is scheduled.
    Schedule,
    /// This one is after it.
    Next(Node),
    /// None is before it any more.
    Lead,
}

// What `kept_links` says by places, said by cowns, from which what is said of all slots below follows of itself. A call more
// costs nothing, since it is inlined.
impl Linked {
    // Adds the link of the next request.
    #[inline(always)]
    fn push(&mut self, link: Link)
        requires { exchanged_of (place_in (Some self.old)) < length (cowns_of (place_in (Some self.old))) }
        ensures here { let place = place_in (Some self.old) in
            ((d : ℕ) → times d (cowns_of place) ≤ 1) → stored_in (Some self.new) (cown place (exchanged_of place)) ≡ Some link }
        ensures others { let place = place_in (Some self.old) in
            (d : ℕ) → d ≢ cown place (exchanged_of place) → stored_in (Some self.new) d ≡ stored_in (Some self.old) d }
        ensures place { place_in (Some self.new) ≡ one_more (place_in (Some self.old)) }
    {
        self.add(link);
    }

    // Returns the link of the request at a place.
    #[inline(always)]
    fn link(&self, place: usize) -> Link
        requires { place < exchanged_of (place_in (Some self.now)) }
        ensures { (c : ℕ) → position (λ d. d == c) self.now.cowns.items ≡ Some place → stored_in (Some self.now) c
            ≡ Some result }
    {
        self.at(place)
    }

    // Changes the link at a place.
    #[inline(always)]
    fn alter(&mut self, place: usize, change: Change)
        requires { place < exchanged_of (place_in (Some self.old)) }
        ensures here { (c : ℕ) (l : Link) → position (λ d. d == c) self.old.cowns.items ≡ Some place → stored_in (Some self.old) c ≡ Some l
            → stored_in (Some self.new) c ≡ Some (changed change l) }
        ensures others { (c d : ℕ) → position (λ d. d == c) self.old.cowns.items ≡ Some place → d ≢ c
            → stored_in (Some self.new) d ≡ stored_in (Some self.old) d }
        ensures place { place_in (Some self.new) ≡ place_in (Some self.old) }
    {
        self.change(place, change);
    }
}

/// Settles a request.
pub fn settle_at(slots: &mut Slab<Linked>, node: Node) -> Settled
    requires { (c : ℕ) × ((xs : List Request) × Holds slots.old c node xs) }
    ensures answer { (c : ℕ) (xs : List Request) → Holds slots.old c node xs → result ≡ settle_answer node.slot xs }
    ensures spelled { (c : ℕ) (xs : List Request) → Holds slots.old c node xs
        → IsSpelled (links slots.new) c (after_settle node.slot xs) }
    ensures placed { (c : ℕ) (xs : List Request) → Holds slots.old c node xs → IsPlaced slots.new c (after_settle node.slot xs) }
    ensures other_cowns { (c s d : ℕ) (xs : List Request) → Holds slots.old c node xs → d ≢ c → stored slots.new s d
        ≡ stored slots.old s d }
    ensures places { (s : ℕ) → place_at slots.new s ≡ place_at slots.old s }
    ensures len { slab_len slots.new ≡ slab_len slots.old }
{
    let link = link_at(slots, node);
    match link.before {
        None => {
            change_link(slots, node, Change::Settle);
            Settled::Lone
        }
        Some(before) => {
            let ahead = link_at(slots, before);
            if ahead.scheduled {
                change_link(slots, before, Change::Next(node));
                change_link(slots, node, Change::Settle);
                Settled::Linked
            } else {
                Settled::Blocked
            }
        }
    }
}

/// Returns whether a request can be settled.
pub fn can_settle_at(slots: &Slab<Linked>, node: Node) -> bool
    requires { (c : ℕ) × ((xs : List Request) × Holds slots.now c node xs) }
    ensures { (c : ℕ) (xs : List Request) → Holds slots.now c node xs
        → (result ≡ false) ↔ (settle_answer node.slot xs ≡ SettleBlocked) }
{
    match link_at(slots, node).before {
        None => true,
        Some(before) => link_at(slots, before).scheduled,
    }
}

// Returns the slot of a request.
fn slot_of(node: Option<Node>) -> Option<usize>
    ensures { result ≡ option_map (λ n. n.slot) node }
{
    node.map(|node| node.slot as usize)
}

/// Returns the slot of the request that follows one at the front, where it has settled.
pub fn next_at(slots: &Slab<Linked>, node: Node) -> Option<usize>
    requires { (c : ℕ) × ((xs : List Request) × Leads slots.now c node xs) }
    ensures { (c : ℕ) (xs : List Request) → Leads slots.now c node xs → result ≡ next_of (drop 1 xs) }
{
    slot_of(link_at(slots, node).next)
}

/// Takes a request off the front where the next has settled, and answers the next.
pub fn pass_at(slots: &mut Slab<Linked>, node: Node) -> Option<usize>
    requires { (c : ℕ) × ((xs : List Request) × Leads slots.old c node xs) }
    ensures answer { (c : ℕ) (xs : List Request) → Leads slots.old c node xs → result ≡ next_of (drop 1 xs) }
    ensures spelled { (c : ℕ) (xs : List Request) → Leads slots.old c node xs → IsSpelled (links slots.new) c (passed xs) }
    ensures placed { (c : ℕ) (xs : List Request) → Leads slots.old c node xs → IsPlaced slots.new c (passed xs) }
    ensures other_cowns { (c s d : ℕ) (xs : List Request) → Leads slots.old c node xs → d ≢ c → stored slots.new s d
        ≡ stored slots.old s d }
    ensures places { (s : ℕ) → place_at slots.new s ≡ place_at slots.old s }
    ensures len { slab_len slots.new ≡ slab_len slots.old }
{
    match link_at(slots, node).next {
        Some(next) => {
            change_link(slots, next, Change::Lead);
            Some(next.slot as usize)
        }
        None => None,
    }
}

/// Adds the link of the next request to be exchanged.
pub fn push_link(slots: &mut Slab<Linked>, slot: usize, link: Link)
    requires { exchanged_of (place_at slots.old slot) < length (cowns_of (place_at slots.old slot)) }
    ensures here { let place = place_at slots.old slot in
        ((d : ℕ) → times d (cowns_of place) ≤ 1) → stored slots.new slot (cown place (exchanged_of place)) ≡ Some link }
    ensures other_slots { (s d : ℕ) → s ≢ slot → stored slots.new s d ≡ stored slots.old s d }
    ensures other_cowns { let place = place_at slots.old slot in
        (s d : ℕ) → d ≢ cown place (exchanged_of place) → stored slots.new s d ≡ stored slots.old s d }
    ensures place { place_at slots.new slot ≡ one_more (place_at slots.old slot) }
    ensures other_places { (s : ℕ) → s ≢ slot → place_at slots.new s ≡ place_at slots.old s }
    ensures len { slab_len slots.new ≡ slab_len slots.old }
{
    slots[slot].push(link);
}

/// Returns the cown of request i at a slot.
pub fn cown_at(slots: &Slab<Linked>, slot: usize, i: usize) -> CownNo
    requires { i < length (cowns_of (place_at slots.now slot)) }
    ensures { result ≡ cown (place_at slots.now slot) i }
{
    CownNo::from(slots[slot].cowns()[i])
}

/// Returns the link of a request. It is unpacked where it is called, so that only those parts are which the caller looks at.
#[inline(always)]
pub fn link_at(slots: &Slab<Linked>, node: Node) -> Link
    requires { node.place < exchanged_of (place_at slots.now node.slot) }
    ensures { (c : ℕ) → IsAt slots.now node c → stored slots.now node.slot c ≡ Some result }
{
    slots[node.slot as usize].link(node.place as usize)
}

/// Changes the link of a request.
#[inline(always)]
pub fn change_link(slots: &mut Slab<Linked>, node: Node, change: Change)
    requires { node.place < exchanged_of (place_at slots.old node.slot) }
    ensures here { (c : ℕ) (l : Link) → IsAt slots.old node c → stored slots.old node.slot c ≡ Some l → stored slots.new node.slot c ≡ Some (changed change l) }
    ensures other_slots { (s d : ℕ) → s ≢ node.slot → stored slots.new s d ≡ stored slots.old s d }
    ensures other_cowns { (c s d : ℕ) → IsAt slots.old node c → d ≢ c → stored slots.new s d ≡ stored slots.old s d }
    ensures places { (s : ℕ) → place_at slots.new s ≡ place_at slots.old s }
    ensures len { slab_len slots.new ≡ slab_len slots.old }
{
    slots[node.slot as usize].alter(node.place as usize, change);
}
