// Links as they are kept.

ghost use Rattle.std.specs.Prelude.{◌≡◌, None, false};
ghost use Rattle.boc_chain.specs.ShortLinks.{changed, has_before, has_next, has_settled, is_scheduled, node_if};

use crate::linked::{Change, Link, Node};
use std::marker::Model;

/// A link in eight bytes, since there are one or more for each behaviour that waits. Contracts see the link.
#[derive(Drop)]
pub struct ShortLink {
    marks: Marks,
    sides: Sides,
    before_place: u8,
    next_place: u8,
    before_slot: u16,
    next_slot: u16,
}

const _: () = prove!(size_of::<ShortLink>() == 8);

// What has become of a request.
#[derive(Clone, Copy)]
enum Marks {
    Neither,
    Settled,
    Scheduled,
    Both,
}

// Which of its neighbours a request knows.
#[derive(Clone, Copy)]
enum Sides {
    Neither,
    Before,
    Next,
    Both,
}

impl Model for ShortLink {
    ghost use Rattle.boc_chain.specs.declared.linked.Link.{Link};
    ghost use Rattle.boc_chain.specs.ShortLinks.{has_before, has_next, has_settled, is_scheduled, node_if};

    ghost Value = { Link };

    ghost view = { λ a. record {
      settled = has_settled a.marks;
      scheduled = is_scheduled a.marks;
      before = node_if (has_before a.sides) a.before_slot a.before_place;
      next = node_if (has_next a.sides) a.next_slot a.next_place;
    } };
}

impl Marks {
    // Returns the marks of a request that has settled or not, and is scheduled or not.
    #[inline(always)]
    fn of(settled: bool, scheduled: bool) -> Marks
        ensures settled { has_settled result ≡ settled }
        ensures scheduled { is_scheduled result ≡ scheduled }
    {
        match (settled, scheduled) {
            (false, false) => Marks::Neither,
            (true, false) => Marks::Settled,
            (false, true) => Marks::Scheduled,
            (true, true) => Marks::Both,
        }
    }

    // Returns whether the request has settled.
    #[inline(always)]
    fn has_settled(self) -> bool
        ensures { result ≡ has_settled self }
    {
        match self {
            Marks::Settled | Marks::Both => true,
            Marks::Neither | Marks::Scheduled => false,
        }
    }

    // Returns whether the request is scheduled.
    #[inline(always)]
    fn is_scheduled(self) -> bool
        ensures { result ≡ is_scheduled self }
    {
        match self {
            Marks::Scheduled | Marks::Both => true,
            Marks::Neither | Marks::Settled => false,
        }
    }
}

impl Sides {
    // Returns the sides of a request that knows the one before it or not, and the one after it or not.
    #[inline(always)]
    fn of(before: bool, next: bool) -> Sides
        ensures before { has_before result ≡ before }
        ensures next { has_next result ≡ next }
    {
        match (before, next) {
            (false, false) => Sides::Neither,
            (true, false) => Sides::Before,
            (false, true) => Sides::Next,
            (true, true) => Sides::Both,
        }
    }

    // Returns whether the request before it is known.
    #[inline(always)]
    fn has_before(self) -> bool
        ensures { result ≡ has_before self }
    {
        match self {
            Sides::Before | Sides::Both => true,
            Sides::Neither | Sides::Next => false,
        }
    }

    // Returns whether the request after it is known.
    #[inline(always)]
    fn has_next(self) -> bool
        ensures { result ≡ has_next self }
    {
        match self {
            Sides::Next | Sides::Both => true,
            Sides::Neither | Sides::Before => false,
        }
    }
}

// Returns whether there is a node, and its slot and its place.
#[inline(always)]
fn parts(node: Option<Node>) -> (bool, u16, u8)
    ensures { node_if result.0 result.1 result.2 ≡ node }
{
    match node {
        Some(node) => (true, node.slot, node.place),
        None => (false, 0, 0),
    }
}

// Returns the node of this slot and place, if there is one.
#[inline(always)]
fn node(is_there: bool, slot: u16, place: u8) -> Option<Node>
    ensures { result ≡ node_if is_there slot place }
{
    if is_there {
        Some(Node { slot, place })
    } else {
        None
    }
}

impl ShortLink {
    /// Returns this link.
    #[inline(always)]
    pub fn of(link: Link) -> ShortLink
        ensures { result ≡ link }
    {
        let (has_before, before_slot, before_place) = parts(link.before);
        let (has_next, next_slot, next_place) = parts(link.next);
        ShortLink {
            marks: Marks::of(link.settled, link.scheduled),
            sides: Sides::of(has_before, has_next),
            before_place,
            next_place,
            before_slot,
            next_slot,
        }
    }

    /// Returns the link.
    #[inline(always)]
    pub fn link(&self) -> Link
        ensures { result ≡ self.now }
    {
        Link {
            settled: self.marks.has_settled(),
            scheduled: self.marks.is_scheduled(),
            before: node(self.sides.has_before(), self.before_slot, self.before_place),
            next: node(self.sides.has_next(), self.next_slot, self.next_place),
        }
    }

    /// Changes one part of the link, and leaves the others where they are.
    #[inline(always)]
    pub fn change(&mut self, change: Change)
        ensures { self.new ≡ changed change self.old }
    {
        match change {
            Change::Settle => self.marks = Marks::of(true, self.marks.is_scheduled()),
            Change::Schedule => self.marks = Marks::of(self.marks.has_settled(), true),
            Change::Lead => self.sides = Sides::of(false, self.sides.has_next()),
            Change::Next(node) => {
                self.sides = Sides::of(self.sides.has_before(), true);
                self.next_slot = node.slot;
                self.next_place = node.place;
            }
        }
    }

    /// Returns what is where there is no link yet.
    pub fn blank() -> ShortLink
        ensures { result ≡ record { settled = false; scheduled = false; before = None; next = None } }
    {
        ShortLink::of(Link {
            settled: false,
            scheduled: false,
            before: None,
            next: None,
        })
    }
}
