//! Request chains kept as plain lists.

ghost use Rattle.std.specs.Prelude.{◌≡◌, ℕ, ◌+◌, ◌<◌, ◌≤◌, ◌^◌, All, [], replicate, length, map, slice_get, Some, None, IfOk, OnErr, OnOk};
ghost use Rattle.std.specs.List.{sum_by};
ghost use Rattle.std.specs.Vec.{vec_len, vec_capacity};
ghost use Rattle.boc_chain.specs.Chain.{times};
ghost use Rattle.boc_chain.specs.Kept.{IsKept, awaits, HasRoom, place_at};

use crate::chains::Chains;
use crate::held::{Held, count_awaited, count_exchange, cown_at, hold, is_vacant};
use crate::request::{Released, Request, Settled, Slot};
use crate::requests::{can_leave_in, can_settle_in, end_of, flag_in, leave_in, settle_in};
use crate::table::reach;
use boc_program::short::{CownNo, Cowns};
use slab::Slab;
use std::alloc::{AllocError, Global};

/// For each cown a plain list of requests.
#[derive(Drop)]
pub struct ListChains {
    lines: Vec<Vec<Request>>,
    places: Vec<Option<Held>>,
    // Gives the slots in the order in which any slab does that is filled and emptied by the same calls.
    keys: Slab<()>,
    ghost kept: { IsKept lines.items places.items },
}

// Makes room in the lists for one more request of each of these cowns.
fn make_room(
    lines: &mut Vec<Vec<Request>>,
    places: &[Option<Held>],
    cowns: &[CownNo],
) -> Result<(), AllocError>
    requires distinct { (c : ℕ) → times c cowns.now ≤ 1 }
    requires in_range { (c : ℕ) → 0 < times c cowns.now → c < length lines.old.items }
    requires room { HasRoom lines.old.items (λ c. sum_by (awaits c) places.now) }
    ensures ok { OnOk result (HasRoom lines.new.items (λ c. sum_by (awaits c) places.now + times c cowns.now)) }
    ensures err { OnErr result (HasRoom lines.new.items (λ c. sum_by (awaits c) places.now)) }
    ensures items { map (λ v. v.items) lines.new.items ≡ map (λ v. v.items) lines.old.items }
{
    for cown in cowns {
        let line = *cown as usize;
        let awaited = count_awaited(places, *cown);
        lines[line].reserve(awaited + 1)?;
    }
    Ok(())
}

// Returns the key that comes next, of 16 bits, where nothing is held at it.
fn next_vacant(keys: &Slab<()>, places: &[Option<Held>]) -> Result<usize, AllocError>
    ensures vacant { IfOk result (λ index. place_at places.now index ≡ None) }
    ensures low { IfOk result (λ index. index < 2 ^ 16) }
{
    let index = keys.vacant_key();
    if index > u16::MAX as usize || !is_vacant(places, index) {
        return Err(AllocError);
    }
    Ok(index)
}

impl ListChains {
    ghost use Rattle.boc_chain.specs.Views.{lists as plain_lists, place as plain_place};

    /// Makes chains of the given number of cowns, with no request.
    pub fn new(alloc: Global, cowns: usize) -> Result<ListChains, AllocError>
        ensures lists { IfOk result (λ chains. plain_lists chains ≡ replicate cowns []) }
        ensures places { IfOk result (λ chains. (s : ℕ) → plain_place chains s ≡ None) }
    {
        let mut lines = Vec::with_capacity(alloc, cowns)?;
        for _ in 0..cowns {
            lines.push_reserved(Vec::new(alloc));
        }
        Ok(ListChains {
            lines,
            places: Vec::new(alloc),
            keys: Slab::new(alloc),
        })
    }
}

impl Chains for ListChains {
    ghost use Rattle.boc_chain.specs.Views.{lists as plain_lists, place as plain_place};

    ghost lists = { plain_lists };

    ghost place = { plain_place };

    fn admit(&mut self, cowns: Cowns) -> Result<Slot, AllocError> {
        let index = next_vacant(&self.keys, &self.places)?;
        make_room(&mut self.lines, &self.places, &cowns)?;
        reach(&mut self.places, index)?;
        self.keys.insert(())?;
        hold(&mut self.places, index, cowns);
        Ok(Slot { index })
    }

    fn swap(&mut self, slot: Slot, i: usize) -> Option<Slot> {
        let c = cown_at(&self.places, slot.index, i);
        count_exchange(&mut self.places, slot.index);
        let line = &mut self.lines[c];
        let before = end_of(line);
        line.push_reserved(Request {
            slot: slot.index,
            settled: false,
            flagged: false,
        });
        before
    }

    fn settle(&mut self, slot: Slot, i: usize) -> Settled {
        let c = cown_at(&self.places, slot.index, i);
        settle_in(&mut self.lines[c], slot.index)
    }

    fn flag(&mut self, slot: Slot, i: usize) {
        let c = cown_at(&self.places, slot.index, i);
        flag_in(&mut self.lines[c], slot.index);
    }

    fn leave(&mut self, slot: Slot, i: usize) -> Released {
        let c = cown_at(&self.places, slot.index, i);
        leave_in(&mut self.lines[c])
    }

    fn can_settle(&self, slot: Slot, i: usize) -> bool {
        let c = cown_at(&self.places, slot.index, i);
        can_settle_in(&self.lines[c], slot.index)
    }

    fn can_leave(&self, slot: Slot, i: usize) -> bool {
        let c = cown_at(&self.places, slot.index, i);
        can_leave_in(&self.lines[c])
    }

    fn dismiss(&mut self, slot: Slot) {
        self.places[slot.index] = None;
        self.keys.try_remove(slot.index);
    }
}
