//! What each kind of request chains does.

use crate::request::{Released, Settled, Slot};
use boc_program::short::Cowns;
use std::alloc::AllocError;

/// Request chains.
///
/// What is admitted at a slot is the cowns of one behaviour, rising, and how many of its requests were exchanged.
/// Request i is for the cown at place i, from 0. It is in its cown's list from its exchange until it leaves.
/// Only `admit` takes memory.
pub trait Chains {
    ghost use Rattle.std.specs.Prelude.{◌≡◌, ◌≢◌, ◌↔◌, ℕ, ◌<◌, ◌≤◌, ◌^◌, false, List, length, Option, Some, None, IfOk, OnErr, IsSome};
    ghost use Rattle.boc_chain.specs.declared.request.Request.{Request};
    ghost use Rattle.boc_chain.specs.declared.request.Settled.TheVariants.{Blocked as SettleBlocked};
    ghost use Rattle.boc_chain.specs.declared.request.Released.TheVariants.{Blocked as LeaveBlocked};
    ghost use Rattle.boc_chain.specs.Chain.{Place, IsGranted, StandsIn, times, slots, cowns_of, exchanged_of, one_more, list, list_for};
    ghost use Rattle.boc_chain.specs.Chain.{with_change, with_fresh, last_slot, settle_answer, after_settle, with_flagged, leave_answer, after_leave};

    /// The requests of each cown, in order of exchange.
    ghost lists: { Self → List (List Request) };

    /// What was admitted at a slot.
    ghost place: { Self → ℕ → Option Place };

    /// Takes memory for the requests of one behaviour, and answers their slot, which was vacant. `AllocError` says that memory was
    /// refused, or that no slot of 16 bits is left; then nothing has changed.
    fn admit(&mut self, cowns: Cowns) -> Result<Slot, AllocError>
        requires distinct { (c : ℕ) → times c cowns.items ≤ 1 }
        requires in_range { (c : ℕ) → 0 < times c cowns.items → c < length (lists self.old) }
        ensures vacant { IfOk result (λ slot. place self.old slot.index ≡ None) }
        ensures low { IfOk result (λ slot. slot.index < 2 ^ 16) }
        ensures here { IfOk result (λ slot. place self.new slot.index ≡ Some (record { cowns = cowns.items; exchanged = 0 })) }
        ensures other_places { IfOk result (λ slot. (s : ℕ) → s ≢ slot.index → place self.new s ≡ place self.old s) }
        ensures err { OnErr result ((s : ℕ) → place self.new s ≡ place self.old s) }
        ensures lists { lists self.new ≡ lists self.old };

    /// Exchanges request i: it goes last in its cown's list. Answers the slot of the one before it there.
    fn swap(&mut self, slot: Slot, i: usize) -> Option<Slot>
        requires next { i ≡ exchanged_of (place self.old slot.index) }
        requires there { i < length (cowns_of (place self.old slot.index)) }
        ensures before { result ≡ last_slot (list_for (lists self.old) (place self.old slot.index) i) }
        ensures lists { lists self.new ≡ with_change (with_fresh slot.index) (lists self.old) (place self.old slot.index) i }
        ensures place { place self.new slot.index ≡ one_more (place self.old slot.index) }
        ensures other_places { (s : ℕ) → s ≢ slot.index → place self.new s ≡ place self.old s };

    /// Settles request i: with none before it, it is granted; else it is linked once the one before it is flagged.
    fn settle(&mut self, slot: Slot, i: usize) -> Settled
        requires there { i < length (cowns_of (place self.old slot.index)) }
        requires exchanged { StandsIn (list_for (lists self.old) (place self.old slot.index) i) slot.index }
        ensures answer { result ≡ settle_answer slot.index (list_for (lists self.old) (place self.old slot.index) i) }
        ensures lists { lists self.new ≡ with_change (after_settle slot.index) (lists self.old) (place self.old slot.index) i }
        ensures places { (s : ℕ) → place self.new s ≡ place self.old s };

    /// Marks request i: its behaviour is scheduled.
    fn flag(&mut self, slot: Slot, i: usize)
        requires there { i < length (cowns_of (place self.old slot.index)) }
        requires exchanged { StandsIn (list_for (lists self.old) (place self.old slot.index) i) slot.index }
        ensures lists { lists self.new ≡ with_change (with_flagged slot.index) (lists self.old) (place self.old slot.index) i }
        ensures places { (s : ℕ) → place self.new s ≡ place self.old s };

    /// Takes request i, which is granted, off the front. A successor that is linked is granted by that.
    fn leave(&mut self, slot: Slot, i: usize) -> Released
        requires there { i < length (cowns_of (place self.old slot.index)) }
        requires granted { IsGranted slot.index (list_for (lists self.old) (place self.old slot.index) i) }
        ensures answer { result ≡ leave_answer (list_for (lists self.old) (place self.old slot.index) i) }
        ensures lists { lists self.new ≡ with_change after_leave (lists self.old) (place self.old slot.index) i }
        ensures places { (s : ℕ) → place self.new s ≡ place self.old s };

    /// Returns whether `settle` would settle request i.
    fn can_settle(&self, slot: Slot, i: usize) -> bool
        requires there { i < length (cowns_of (place self.now slot.index)) }
        requires exchanged { StandsIn (list_for (lists self.now) (place self.now slot.index) i) slot.index }
        ensures blocked { let requests = list_for (lists self.now) (place self.now slot.index) i in
            (result ≡ false) ↔ (settle_answer slot.index requests ≡ SettleBlocked) };

    /// Returns whether `leave` would take request i off.
    fn can_leave(&self, slot: Slot, i: usize) -> bool
        requires there { i < length (cowns_of (place self.now slot.index)) }
        requires granted { IsGranted slot.index (list_for (lists self.now) (place self.now slot.index) i) }
        ensures blocked { let requests = list_for (lists self.now) (place self.now slot.index) i in
            (result ≡ false) ↔ (leave_answer requests ≡ LeaveBlocked) };

    /// Frees a slot, of which no request is in a list.
    fn dismiss(&mut self, slot: Slot)
        requires admitted { IsSome (place self.old slot.index) }
        requires empty { (c : ℕ) → times slot.index (slots (list (lists self.old) c)) ≡ 0 }
        ensures gone { place self.new slot.index ≡ None }
        ensures other_places { (s : ℕ) → s ≢ slot.index → place self.new s ≡ place self.old s }
        ensures lists { lists self.new ≡ lists self.old };
}
