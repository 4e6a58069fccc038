//! Request chains kept as links.

ghost use Rattle.std.specs.Prelude.{◌≡◌, ℕ, ◌↔◌, IsTrue, Some, None, IfOk, replicate, length, ◌≤◌};
ghost use Rattle.boc_program.specs.declared.limits.TheConstants.{MOST_COWNS};
ghost use Rattle.slab.specs.Slab.{slab_len};
ghost use Rattle.std.specs.Option.{option_map};
ghost use Rattle.boc_chain.specs.Linked.{IsLinked, slot_at};
ghost use Rattle.boc_chain.specs.Props.{Spells-prop};
ghost use Rattle.std.proofs.Props.{props};

use crate::chains::Chains;
use crate::kept_links::Linked;
use crate::linked::{
    Change, Link, Node, can_settle_at, change_link, cown_at, next_at, pass_at, push_link, settle_at,
};
use crate::request::{Released, Settled, Slot};
use boc_program::held::HeldCowns;
use boc_program::limits::MOST_HELD;
use boc_program::short::{CownNo, Cowns};
use slab::Slab;
use std::alloc::{AllocError, Global};

/// For each cown its last request; each request knows its neighbours.
#[derive(Drop)]
pub struct LinkChains {
    last: Vec<Option<Node>>,
    slots: Slab<Linked>,
    peak: usize,
    ghost few: { length last.items ≤ MOST_COWNS },
    ghost linked: { IsLinked last.items slots peak } by { Prim.hlevel (props, Spells-prop) },
}

// Returns whether it is at this slot.
fn is_slot(last: Option<Node>, slot: usize) -> bool
    ensures { IsTrue result ↔ (option_map (λ n. n.slot) last ≡ Some slot) }
{
    match last {
        Some(last) => last.slot as usize == slot,
        None => false,
    }
}

// No last request, for each of the given number of cowns.
fn no_last(alloc: Global, cowns: usize) -> Result<Vec<Option<Node>>, AllocError>
    ensures { IfOk result (λ last. last.items ≡ replicate cowns None) }
{
    Ok(vec![in alloc; None; cowns]?)
}

// Returns the slot of a request, if there is one.
fn slot_in(node: Option<Node>) -> Option<Slot>
    ensures { result ≡ option_map slot_at (option_map (λ n. n.slot) node) }
{
    node.map(|node| Slot {
        index: node.slot as usize,
    })
}

impl LinkChains {
    ghost use Rattle.std.specs.Prelude.{IsSome, [], ◌<◌};
    ghost use Rattle.boc_chain.specs.Chain.{list, times, slots as slots_in};
    ghost use Rattle.boc_chain.specs.Links.{Spells, end_of};
    ghost use Rattle.boc_chain.specs.Linked.{links, last_of};
    ghost use Rattle.boc_chain.specs.LinkViews.{lists as link_lists, place as link_place, held, peak as link_peak};

    /// Makes chains of the given number of cowns, with no request. `AllocError` says that memory was refused.
    pub fn new(alloc: Global, cowns: usize) -> Result<LinkChains, AllocError>
        requires { cowns ≤ MOST_COWNS }
        ensures lists { IfOk result (λ chains. link_lists chains ≡ replicate cowns []) }
        ensures places { IfOk result (λ chains. (s : ℕ) → link_place chains s ≡ None) }
        ensures held { IfOk result (λ chains. held chains ≡ 0) }
        ensures peak { IfOk result (λ chains. link_peak chains ≡ 0) }
    {
        let last = no_last(alloc, cowns)?;
        Ok(LinkChains {
            last,
            slots: Slab::new(alloc),
            peak: 0,
        })
    }

    /// Proves how the links spell the lists: `last` is the end of each list, the link of each request has the slot
    /// before it and, exactly where that has settled, the slot after it, and the slot of each request is held.
    pub fn spells_lists(&self)
        ensures last { (c : ℕ) → c < length (link_lists self.now) → last_of self.now.last.items c
            ≡ end_of None (list (link_lists self.now) c) }
        ensures links { (c : ℕ) → c < length (link_lists self.now)
            → Spells (links self.now.slots) c None (list (link_lists self.now) c) }
        ensures held { (c s : ℕ) → c < length (link_lists self.now) → 0 < times s (slots_in (list (link_lists self.now) c))
            → IsSome (link_place self.now s) }
    {}

    /// Returns the greatest number of slots held at once so far.
    pub fn peak(&self) -> usize
        ensures peak { result ≡ link_peak self.now }
        ensures held { held self.now ≤ result }
    {
        self.peak
    }
}

impl Chains for LinkChains {
    ghost use Rattle.std.specs.Prelude.{◌≢◌, ◌<◌, ◌^◌, List, OnOk, OnErr, IsSome};
    ghost use Rattle.boc_chain.specs.Chain.{IsGranted, StandsIn, times, slots as slots_in, cowns_of, exchanged_of, one_more, list, list_for};
    ghost use Rattle.boc_chain.specs.Chain.{with_change, with_fresh, last_slot, settle_answer, after_settle, with_flagged, leave_answer, after_leave};
    ghost use Rattle.boc_chain.specs.LinkViews.{HasRoomFor, HoldsOneMore, HoldsAsMany, HoldsOneLess};
    ghost use Rattle.boc_chain.specs.LinkViews.{lists as link_lists, place as link_place};

    ghost lists = { link_lists };

    ghost place = { link_place };

    fn admit(&mut self, cowns: Cowns) -> Result<Slot, AllocError>
        requires distinct { (c : ℕ) → times c cowns.items ≤ 1 }
        requires in_range { (c : ℕ) → 0 < times c cowns.items → c < length (link_lists self.old) }
        ensures vacant { IfOk result (λ slot. link_place self.old slot.index ≡ None) }
        ensures low { IfOk result (λ slot. slot.index < 2 ^ 16) }
        ensures here { IfOk result (λ slot. link_place self.new slot.index ≡ Some (record { cowns = cowns.items; exchanged = 0 })) }
        ensures other_places { IfOk result (λ slot. (s : ℕ) → s ≢ slot.index → link_place self.new s ≡ link_place self.old s) }
        ensures err { OnErr result ((s : ℕ) → link_place self.new s ≡ link_place self.old s) }
        ensures lists { link_lists self.new ≡ link_lists self.old }
        ensures one_more { OnOk result (HoldsOneMore self.old self.new) }
        ensures as_many { OnErr result (HoldsAsMany self.old self.new) }
        ensures full { OnErr result (HasRoomFor cowns.items self.old → ⊥) }
    {
        let count = cowns.len();
        prove!(count <= MOST_HELD);
        // Links name slots in 16 bits, which is enough for as many behaviours as a run may have.
        if self.slots.vacant_key() > u16::MAX as usize {
            return Err(AllocError);
        }
        let linked = Linked::new(*self.last.allocator(), HeldCowns::of(&cowns))?;
        self.slots.reserve(1)?;
        let index = self.slots.insert_reserved(linked);
        self.peak = self.peak.max(self.slots.len());
        Ok(Slot { index })
    }

    fn swap(&mut self, slot: Slot, i: usize) -> Option<Slot>
        requires next { i ≡ exchanged_of (link_place self.old slot.index) }
        requires there { i < length (cowns_of (link_place self.old slot.index)) }
        ensures before { result ≡ last_slot (list_for (link_lists self.old) (link_place self.old slot.index) i) }
        ensures lists { link_lists self.new
            ≡ with_change (with_fresh slot.index) (link_lists self.old) (link_place self.old slot.index) i }
        ensures place { link_place self.new slot.index ≡ one_more (link_place self.old slot.index) }
        ensures other_places { (s : ℕ) → s ≢ slot.index → link_place self.new s ≡ link_place self.old s }
        ensures as_many { HoldsAsMany self.old self.new }
    {
        let c = cown_at(&self.slots, slot.index, i);
        let before = self.last[c as usize];
        push_link(
            &mut self.slots,
            slot.index,
            Link {
                settled: false,
                scheduled: false,
                before,
                next: None,
            },
        );
        self.last[c as usize] = Some(Node {
            slot: slot.index as u16,
            place: i as u8,
        });
        slot_in(before)
    }

    fn settle(&mut self, slot: Slot, i: usize) -> Settled
        requires there { i < length (cowns_of (link_place self.old slot.index)) }
        requires exchanged { StandsIn (list_for (link_lists self.old) (link_place self.old slot.index) i) slot.index }
        ensures answer { result ≡ settle_answer slot.index (list_for (link_lists self.old) (link_place self.old slot.index) i) }
        ensures lists { link_lists self.new
            ≡ with_change (after_settle slot.index) (link_lists self.old) (link_place self.old slot.index) i }
        ensures places { (s : ℕ) → link_place self.new s ≡ link_place self.old s }
        ensures as_many { HoldsAsMany self.old self.new }
    {
        settle_at(
            &mut self.slots,
            Node {
                slot: slot.index as u16,
                place: i as u8,
            },
        )
    }

    fn flag(&mut self, slot: Slot, i: usize)
        requires there { i < length (cowns_of (link_place self.old slot.index)) }
        requires exchanged { StandsIn (list_for (link_lists self.old) (link_place self.old slot.index) i) slot.index }
        ensures lists { link_lists self.new
            ≡ with_change (with_flagged slot.index) (link_lists self.old) (link_place self.old slot.index) i }
        ensures places { (s : ℕ) → link_place self.new s ≡ link_place self.old s }
        ensures as_many { HoldsAsMany self.old self.new }
    {
        let node = Node {
            slot: slot.index as u16,
            place: i as u8,
        };
        change_link(&mut self.slots, node, Change::Schedule);
    }

    fn leave(&mut self, slot: Slot, i: usize) -> Released
        requires there { i < length (cowns_of (link_place self.old slot.index)) }
        requires granted { IsGranted slot.index (list_for (link_lists self.old) (link_place self.old slot.index) i) }
        ensures answer { result ≡ leave_answer (list_for (link_lists self.old) (link_place self.old slot.index) i) }
        ensures lists { link_lists self.new ≡ with_change after_leave (link_lists self.old) (link_place self.old slot.index) i }
        ensures places { (s : ℕ) → link_place self.new s ≡ link_place self.old s }
        ensures as_many { HoldsAsMany self.old self.new }
    {
        let c = cown_at(&self.slots, slot.index, i);
        match pass_at(
            &mut self.slots,
            Node {
                slot: slot.index as u16,
                place: i as u8,
            },
        ) {
            Some(index) => Released::Passed(Slot { index }),
            None => {
                if is_slot(self.last[c as usize], slot.index) {
                    self.last[c as usize] = None;
                    Released::Unhooked
                } else {
                    Released::Blocked
                }
            }
        }
    }

    fn can_settle(&self, slot: Slot, i: usize) -> bool {
        can_settle_at(
            &self.slots,
            Node {
                slot: slot.index as u16,
                place: i as u8,
            },
        )
    }

    fn can_leave(&self, slot: Slot, i: usize) -> bool {
        let c = cown_at(&self.slots, slot.index, i);
        next_at(
            &self.slots,
            Node {
                slot: slot.index as u16,
                place: i as u8,
            },
        )
        .is_some()
            || is_slot(self.last[c as usize], slot.index)
    }

    fn dismiss(&mut self, slot: Slot)
        requires admitted { IsSome (link_place self.old slot.index) }
        requires empty { (c : ℕ) → times slot.index (slots_in (list (link_lists self.old) c)) ≡ 0 }
        ensures gone { link_place self.new slot.index ≡ None }
        ensures other_places { (s : ℕ) → s ≢ slot.index → link_place self.new s ≡ link_place self.old s }
        ensures lists { link_lists self.new ≡ link_lists self.old }
        ensures one_less { HoldsOneLess self.old self.new }
    {
        self.slots.remove(slot.index);
    }
}
