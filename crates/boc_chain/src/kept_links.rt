// What a slot keeps of one behaviour.

ghost use Rattle.std.specs.Prelude.{◌≡◌, ◌<◌, ◌+◌, [], ◌∷◌, ◌++◌, ◌≤◌, length, slice_get, slice_set, Some, IfOk, IsOk};
ghost use Rattle.boc_chain.specs.KeptLinks.{HasPlaces, head_of, places_of, room_of};
ghost use Rattle.boc_chain.specs.ShortLinks.{changed};
ghost use Rattle.boc_chain.specs.declared.linked.Link.{Link};
ghost use Rattle.boc_program.specs.declared.limits.TheConstants.{MOST_HELD};

use crate::linked::{Change, Link};
use crate::short_link::ShortLink;
use boc_program::held::HeldCowns;
use boc_program::limits::MOST_HELD;
use boc_program::short::HeldCown;
use std::alloc::{AllocError, Global};
use std::marker::Model;

// As many links as a slot keeps in itself, and as many as it keeps with itself where it has to.
const FEW: usize = 2;

const REST: usize = MOST_HELD - FEW;

/// What was admitted: the cowns, and the links of the requests exchanged so far.
///
/// There is space for the link of each request, so that an exchange takes no memory. Many behaviours wait at once, and most
/// have at most two cowns, whose links are kept in the slot itself.
#[derive(Drop)]
pub struct Linked {
    kept: Kept,
}

const _: () = prove!(size_of::<Linked>() == 40);

#[derive(Drop)]
enum Kept {
    Few(Head),
    More(Head, Box<[ShortLink; REST]>),
}

// The cowns, and the first links. What comes after the links that are there is not looked at.
#[derive(Drop)]
struct Head {
    cowns: HeldCowns,
    // How many links there are, in the head and next to it.
    count: u8,
    first: [ShortLink; FEW],
}

impl Model for Linked {
    ghost use Rattle.boc_chain.specs.KeptLinks.{Linked, linked, IsKept};

    ghost Value = { Linked };

    ghost view = { λ a. linked a.kept };

    ghost invariant = { λ a. IsKept a.kept };
}

// Space for the links that are kept with a slot.
fn blanks() -> [ShortLink; REST] {
    [
        ShortLink::blank(),
        ShortLink::blank(),
        ShortLink::blank(),
        ShortLink::blank(),
        ShortLink::blank(),
        ShortLink::blank(),
    ]
}

impl Kept {
    // Returns the cowns, and the first links.
    #[inline(always)]
    fn head(&self) -> &Head
        ensures { result.now ≡ head_of self.now }
    {
        match self {
            Kept::Few(head) => head,
            Kept::More(head, _) => head,
        }
    }

    // Returns what is at a place.
    #[inline(always)]
    #[tactic(auto, using(crate::proofs::Keeping::first_at, crate::proofs::Keeping::rest_at))]
    fn at(&self, place: usize) -> Link
        requires there { place < room_of self.now }
        requires places { HasPlaces self.now }
        ensures { slice_get (places_of self.now) place ≡ Some result }
    {
        match self {
            Kept::Few(head) => head.first[place].link(),
            Kept::More(head, rest) => {
                if place < FEW {
                    head.first[place].link()
                } else {
                    rest[place - FEW].link()
                }
            }
        }
    }

    // Writes over what is at a place.
    #[inline(always)]
    #[tactic(auto, using(crate::proofs::Keeping::set_rest))]
    fn put(&mut self, place: usize, link: ShortLink)
        requires there { place < room_of self.old }
        requires has { HasPlaces self.old }
        ensures has { HasPlaces self.new }
        ensures places { places_of self.new ≡ slice_set (places_of self.old) place link }
        ensures room { room_of self.new ≡ room_of self.old }
        ensures cowns { (head_of self.new).cowns ≡ (head_of self.old).cowns }
        ensures count { (head_of self.new).count ≡ (head_of self.old).count }
    {
        match self {
            Kept::Few(head) => head.first[place] = link,
            Kept::More(head, rest) => {
                if place < FEW {
                    head.first[place] = link;
                } else {
                    rest[place - FEW] = link;
                }
            }
        }
    }

    // Changes what is at a place.
    #[inline(always)]
    fn change(&mut self, place: usize, change: Change)
        requires there { place < room_of self.old }
        requires has { HasPlaces self.old }
        ensures has { HasPlaces self.new }
        ensures places { (l : Link) → slice_get (places_of self.old) place ≡ Some l
            → places_of self.new ≡ slice_set (places_of self.old) place (changed change l) }
        ensures room { room_of self.new ≡ room_of self.old }
        ensures cowns { (head_of self.new).cowns ≡ (head_of self.old).cowns }
        ensures count { (head_of self.new).count ≡ (head_of self.old).count }
    {
        match self {
            Kept::Few(head) => head.first[place].change(change),
            Kept::More(head, rest) => {
                if place < FEW {
                    head.first[place].change(change);
                } else {
                    rest[place - FEW].change(change);
                }
            }
        }
    }

    // One more of the places has a link.
    #[inline(always)]
    fn count(&mut self)
        requires few { (head_of self.old).count < MOST_HELD }
        requires has { HasPlaces self.old }
        ensures has { HasPlaces self.new }
        ensures places { places_of self.new ≡ places_of self.old }
        ensures room { room_of self.new ≡ room_of self.old }
        ensures cowns { (head_of self.new).cowns ≡ (head_of self.old).cowns }
        ensures count { (head_of self.new).count ≡ (head_of self.old).count + 1 }
    {
        match self {
            Kept::Few(head) => head.count += 1,
            Kept::More(head, _) => head.count += 1,
        }
    }
}

impl Linked {
    /// Keeps these cowns, and no links. Space for more than two links takes memory; `AllocError` says that it was refused.
    #[inline]
    pub fn new(alloc: Global, cowns: HeldCowns) -> Result<Linked, AllocError>
        ensures cowns { IfOk result (λ l. l.cowns ≡ cowns) }
        ensures empty { IfOk result (λ l. l.links ≡ []) }
        ensures few { length cowns.items ≤ FEW → IsOk result }
    {
        let room = cowns.as_slice().len();
        let head = Head {
            cowns,
            count: 0,
            first: [ShortLink::blank(), ShortLink::blank()],
        };
        let kept = if room <= FEW {
            Kept::Few(head)
        } else {
            Kept::More(head, Box::new(alloc, blanks())?)
        };
        Ok(Linked { kept })
    }

    /// Returns the cowns, in the order of their requests.
    #[inline(always)]
    pub fn cowns(&self) -> &[HeldCown]
        ensures { result.now ≡ self.now.cowns.items }
    {
        self.kept.head().cowns.as_slice()
    }

    /// Returns the link at a place.
    #[inline(always)]
    pub fn at(&self, place: usize) -> Link
        requires { place < length self.now.links }
        ensures { slice_get self.now.links place ≡ Some result }
    {
        self.kept.at(place)
    }

    /// Changes the link at a place.
    #[inline(always)]
    pub fn change(&mut self, place: usize, change: Change)
        requires { place < length self.old.links }
        ensures links { (l : Link) → slice_get self.old.links place ≡ Some l → self.new.links ≡ slice_set self.old.links place (changed change l) }
        ensures cowns { self.new.cowns ≡ self.old.cowns }
        ensures length { length self.new.links ≡ length self.old.links }
    {
        self.kept.change(place, change);
    }

    /// Adds a link after the others.
    #[inline(always)]
    pub fn add(&mut self, link: Link)
        requires { length self.old.links < length self.old.cowns.items }
        ensures links { self.new.links ≡ self.old.links ++ link ∷ [] }
        ensures cowns { self.new.cowns ≡ self.old.cowns }
    {
        let place = self.kept.head().count as usize;
        self.kept.put(place, ShortLink::of(link));
        self.kept.count();
    }
}
