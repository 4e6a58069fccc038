//! Who can step.

ghost use Rattle.std.specs.Prelude.{◌≡◌, ◌↔◌, ◌<◌, IsTrue, Some, length};
ghost use Rattle.boc_runs.specs.machine.Movers.{CanAdvance, CanLeave, NobodyWorks};
ghost use Rattle.boc_dispatch.specs.Calls.{NamesMover};
ghost use Rattle.boc_dispatch.specs.Inside.{parts_of, underway, live_at, state, IsSoundRoster};
ghost use Rattle.boc_dispatch.specs.Moves.{MovesOrNot, MovesAtOrNot, NamesWorker};

use crate::calls::{Child, Leaving, Mover};
use crate::live::Live;
use crate::roster::{Enqueue, Roster};
use boc_chain::{Chains, Slot};
use boc_runs::stage::{Phase, Stage};

impl<'a, C: Chains + Drop> Roster<'a, C> {
    /// Returns a mover that can step, unless everything has ended.
    pub fn movable(&self) -> Option<Mover>
        requires { IsSoundRoster C.lists C.place self.now }
        ensures { NamesMover (underway (parts_of C.lists C.place self.now)) result }
    {
        match self.movable_worker() {
            Some(mover) => Some(mover),
            None => self.first_ready(),
        }
    }

    // Returns one of those that are being enqueued, run or leave, which can step.
    fn movable_worker(&self) -> Option<Mover>
        requires { IsSoundRoster C.lists C.place self.now }
        ensures { NamesWorker (parts_of C.lists C.place self.now) result }
    {
        for slot in 0..self.live.capacity() {
            if let Some(mover) = self.mover_at(slot) {
                return Some(mover);
            }
        }
        None
    }

    // Returns the behaviour at a slot, if it can step.
    fn mover_at(&self, slot: usize) -> Option<Mover>
        requires { IsSoundRoster C.lists C.place self.now }
        ensures { MovesAtOrNot (parts_of C.lists C.place self.now) slot result }
    {
        match self.live.get(slot) {
            Some(live) => self.mover_of(slot, live),
            None => None,
        }
    }

    // Returns the behaviour at a slot, which is this one, if it can step.
    fn mover_of(&self, slot: usize, live: &Live) -> Option<Mover>
        requires sound { IsSoundRoster C.lists C.place self.now }
        requires is { live_at (parts_of C.lists C.place self.now).live slot ≡ Some live.now }
        ensures { MovesOrNot (parts_of C.lists C.place self.now) live.now result }
    {
        let child = Child {
            number: live.number,
            row: live.parent,
        };
        match live.stage.stage() {
            Stage::Asking { request, exchanged } => {
                if exchanged && !self.chains.can_settle(Slot { index: slot }, request) {
                    None
                } else {
                    Some(Mover::Enqueuing(child))
                }
            }
            Stage::Recorded { row, phase } => match phase {
                Phase::Flagging(_) => Some(Mover::Enqueuing(child)),
                Phase::Owning => Some(Mover::Enqueuing(child)),
                Phase::Waiting => None,
                Phase::Ready => None,
                Phase::Running => {
                    if live.child.is_none() {
                        Some(Mover::Running(row))
                    } else {
                        None
                    }
                }
                Phase::Leaving(request) => {
                    if self.chains.can_leave(Slot { index: slot }, request) {
                        Some(Mover::Leaving(Leaving { row }))
                    } else {
                        None
                    }
                }
            },
        }
    }

    // Returns the first of the ready list, where no behaviour is at work.
    fn first_ready(&self) -> Option<Mover>
        requires sound { IsSoundRoster C.lists C.place self.now }
        requires idle { NobodyWorks (state (parts_of C.lists C.place self.now)) }
        ensures { NamesMover (underway (parts_of C.lists C.place self.now)) result }
    {
        let slot = *self.ready.front()?;
        let row = self.live[slot as usize].recorded_row();
        Some(Mover::Ready(row))
    }

    /// Returns whether there is an open enqueue with this token, whose next step isn't blocked.
    pub fn can_advance(&self, child: &Child) -> bool
        requires { IsSoundRoster C.lists C.place self.now }
        ensures { IsTrue result
            ↔ CanAdvance self.now.program.now (state (parts_of C.lists C.place self.now)) child.now.number child.now.row }
    {
        let Some(
            Enqueue {
                parent: _,
                slot,
                stage,
            },
        ) = self.enqueue_of(child)
        else {
            return false;
        };
        match stage {
            Stage::Asking { request, exchanged } => {
                let slot = Slot {
                    index: slot as usize,
                };
                !exchanged || self.chains.can_settle(slot, request)
            }
            Stage::Recorded { .. } => true,
        }
    }

    /// Returns whether there is a leaving behaviour with this token, whose next release isn't blocked.
    pub fn can_leave(&self, leaving: &Leaving) -> bool
        requires { IsSoundRoster C.lists C.place self.now }
        ensures { IsTrue result ↔ CanLeave (state (parts_of C.lists C.place self.now)) leaving.now.row }
    {
        match self.leaving(leaving.row) {
            Some((slot, request)) => self.chains.can_leave(Slot { index: slot }, request),
            None => false,
        }
    }
}
