//! The dispatcher: each call makes one step of the machine.

ghost use Rattle.boc_program.specs.Programs.{cown_count as cowns_of};
ghost use Rattle.std.specs.Prelude.{◌≡◌, ◌↔◌, ◌+◌, ◌^◌, ◌<◌, ℕ, [], None, IfOk, IsSome, IsTrue, false, map, replicate, slice_get};

use crate::calls::{Advanced, Child, FinishFault, Leaving, Left, Mover, OpenFault, Started};
use crate::live::wished_behaviour;
use crate::roster::{Enqueue, Roster};
use boc_chain::{Chains, LinkChains};
use boc_eval::{Frame, Outcome, Spare, ToldRow};
use boc_program::limits::MOST_ROWS;
use boc_program::program::Program;
use boc_registers::compiled::CompiledProgram;
use boc_runs::events::Events;
use boc_runs::record::Record;
use boc_runs::stage::{Phase, Stage};
use std::alloc::{AllocError, Global};
use std::marker::Model;

/// The dispatcher over linked chains.
pub type Dispatcher<'a> = Core<'a, LinkChains>;

/// The behaviours of a program under way, over chains of either kind.
#[derive(Drop)]
pub struct Core<'a, C: Chains + Drop> {
    roster: Roster<'a, C>,
}

/// Returns how many cowns a program has; chains are made for that many.
pub fn cown_count(program: &Program) -> usize
    ensures value { result ≡ cowns_of program.now.cowns }
{
    let cowns = program.cowns.as_slice();
    let mut count = 0;
    for cown in cowns {
        count += cown.members();
    }
    count
}

impl<'a> Core<'a, LinkChains> {
    ghost use Rattle.boc_runs.specs.machine.Steps.{opening_state};

    /// Returns the opening state of a program: main is opened, its spawn is recorded, and it is ready.
    pub fn new(
        alloc: Global,
        program: &'a CompiledProgram<'a>,
    ) -> Result<Dispatcher<'a>, AllocError>
        ensures { IfOk result (λ core. core ≡ record { program = program.now; state = opening_state program.now }) }
    {
        let chains = LinkChains::new(alloc, cown_count(program.program()))?;
        Core::over(alloc, program, chains)
    }
}

impl<'a, C: Chains + Drop> Model for Core<'a, C> {
    ghost use Rattle.boc_dispatch.specs.Underway.{Underway};
    ghost use Rattle.boc_dispatch.specs.Codes.{coded_underway};
    ghost use Rattle.std.specs.Coded.{codes};

    ghost Value = { Underway };

    ghost coded = { Prim.hlevel (codes, coded_underway) };

    ghost use Rattle.boc_dispatch.specs.Inside.{underway, parts_of, IsSoundRoster};

    ghost view = { λ a. underway (parts_of C.lists C.place a.roster) };

    ghost invariant = { λ a. IsSoundRoster C.lists C.place a.roster };
}

impl<'a, C: Chains + Drop> Core<'a, C> {
    ghost use Rattle.boc_program.specs.Programs.{cown_count};
    ghost use Rattle.boc_runs.specs.machine.Steps.{IsQuiet, opening_state, values};
    ghost use Rattle.boc_runs.specs.machine.Movers.{CanAdvance, CanLeave};
    ghost use Rattle.boc_runs.specs.machine.Sound.{IsSound};
    ghost use Rattle.boc_dispatch.specs.Told.{TellsRow};
    ghost use Rattle.boc_dispatch.specs.Calls.{Begins, BeginsFrame, OpensWish, AdvancesChild, FinishesRow, with_outcome, LeavesCown, NamesMover, EndsAsRecord};

    /// Returns the opening state over chains with no request: main is opened, its spawn is recorded, and it is ready.
    pub fn over(
        alloc: Global,
        program: &'a CompiledProgram<'a>,
        chains: C,
    ) -> Result<Core<'a, C>, AllocError>
        requires empty { C.lists chains ≡ replicate (cown_count program.now.cowns) [] }
        requires none { (slot : ℕ) → C.place chains slot ≡ None }
        ensures { IfOk result (λ core. core ≡ record { program = program.now; state = opening_state program.now }) }
    {
        Ok(Core {
            roster: Roster::over(alloc, program, chains)?,
        })
    }

    /// Starts the first behaviour of the ready list on the values that its cowns have now, and records its start.
    pub fn start(&mut self) -> Started<'a>
        ensures begins { Begins self.old result self.new }
        ensures sound { IsSound self.new.program self.new.state }
    {
        match self.roster.start() {
            Some(job) => Started::Job(job),
            None => {
                if self.is_quiet() {
                    Started::Quiet
                } else {
                    Started::NoneReady
                }
            }
        }
    }

    // Starts the first behaviour of the ready list, if there is one, on the memory of a body that has ended. Returns its row, and its body at its start.
    pub(crate) fn start_on(&mut self, spare: &mut Spare<'a>) -> Option<(u32, Frame<'a>)>
        requires { IsSome spare.old }
        ensures begins { BeginsFrame self.old result self.new }
    {
        self.roster.start_on(spare)
    }

    /// Opens the next wish of a running behaviour. All memory that the wished behaviour will ever need is taken here.
    pub fn open(&mut self, frame: &Frame<'a>, row: u32) -> Result<Child, OpenFault>
        ensures { OpensWish self.old frame.now row result self.new }
    {
        let Some(slot) = self
            .roster
            .running(row, frame.body(), frame.args(), frame.inputs())
        else {
            return Err(OpenFault::Stranger);
        };
        let Some(wish) = self.roster.next_wish(slot, row, frame) else {
            return Err(OpenFault::OutOfTurn);
        };
        if self.roster.opened as usize >= MOST_ROWS {
            return Err(OpenFault::Behaviours);
        }
        let alloc = *self.roster.homes.allocator();
        let Ok(child) = wished_behaviour(alloc, self.roster.opened, row, wish) else {
            return Err(OpenFault::Memory);
        };
        match self.roster.open(slot, row, child) {
            Ok(child) => Ok(child),
            Err(_) => Err(OpenFault::Memory),
        }
    }

    /// Makes the next step of an open enqueue: Swap, Settle, Flag or Own.
    pub fn advance(&mut self, child: &Child) -> Advanced
        ensures { AdvancesChild self.old child.now result self.new }
    {
        let Some(
            Enqueue {
                parent,
                slot,
                stage,
            },
        ) = self.roster.enqueue_of(child)
        else {
            return Advanced::Unknown;
        };
        match stage {
            Stage::Asking { request, exchanged } => {
                if exchanged {
                    self.roster.settle(parent, slot, request)
                } else {
                    self.roster.swap(slot as usize, request)
                }
            }
            Stage::Recorded { row, phase } => match phase {
                Phase::Flagging(request) => self.roster.flag(slot as usize, row, request),
                _ => self.roster.own(parent, slot, row),
            },
        }
    }

    /// Ends a running behaviour: writes its outputs to its cowns, and records its end. If it has cowns, they must be released then.
    pub fn finish(
        &mut self,
        row: u32,
        outcome: Outcome<'a>,
    ) -> Result<Option<Leaving>, (Outcome<'a>, FinishFault)>
        ensures { FinishesRow self.old row outcome.entry result self.new }
    {
        match self.finish_by(row, &outcome) {
            Ok(leaving) => Ok(leaving),
            Err(fault) => Err((outcome, fault)),
        }
    }

    // Does the same by an outcome that stays where it is, as it is large.
    pub(crate) fn finish_by(
        &mut self,
        row: u32,
        outcome: &Outcome<'a>,
    ) -> Result<Option<Leaving>, FinishFault>
        ensures { FinishesRow self.old row outcome.now (with_outcome outcome.now result) self.new }
    {
        let running = self
            .roster
            .running(row, outcome.body(), outcome.args(), outcome.inputs());
        let Some(slot) = running else {
            return Err(FinishFault::Stranger);
        };
        if !self.roster.has_spawned(slot, row, outcome.wishes()) {
            return Err(FinishFault::Busy);
        }
        if self.roster.finish(slot, row, outcome) {
            Ok(Some(Leaving { row }))
        } else {
            Ok(None)
        }
    }

    /// Returns what the behaviour of a running row is, whose body gave this.
    pub fn told(&self, row: u32, outcome: &Outcome<'a>) -> Option<ToldRow>
        ensures { TellsRow self.now row outcome.now result }
    {
        let running = self
            .roster
            .running(row, outcome.body(), outcome.args(), outcome.inputs());
        let Some(slot) = running else {
            return None;
        };
        Some(self.roster.told(slot, row))
    }

    /// Releases the next cown of a behaviour that has ended.
    pub fn leave(&mut self, leaving: &Leaving) -> Left
        ensures { LeavesCown self.old leaving.now result self.new }
    {
        match self.roster.leaving(leaving.row) {
            Some((slot, request)) => self.roster.leave(slot, leaving.row, request),
            None => Left::Unknown,
        }
    }

    /// Returns what has happened so far.
    pub fn log(&self) -> Events<'_>
        ensures { result ≡ self.now.state.log }
    {
        self.roster.log.events()
    }

    /// Returns the chains, whose lists are the queues: each slot stands for a behaviour's number.
    pub fn chains(&self) -> &C
        ensures { (number : ℕ → ℕ) × (map (λ requests. map (λ r. number r.slot) requests) (C.lists result.now) ≡ self.now.state.queues) }
    {
        &self.roster.chains
    }

    /// Returns the program.
    pub fn program(&self) -> &'a Program
        ensures value { result.now ≡ self.now.program }
        ensures sound { IsSound self.now.program self.now.state }
    {
        self.roster.program.program()
    }

    /// Returns the value of a cown, which changes only as behaviours end.
    pub fn value(&self, cown: u32) -> Option<i64>
        ensures { result ≡ slice_get (values self.now.program self.now.state) cown }
    {
        self.roster.values.get(cown as usize).copied()
    }

    /// Returns the values of the cowns, which change only as behaviours end.
    pub fn values(&self) -> &[i64]
        ensures { result.now ≡ values self.now.program self.now.state }
    {
        &self.roster.values
    }

    /// Returns whether every behaviour has ended and released its cowns.
    pub fn is_quiet(&self) -> bool
        ensures { IsTrue result ↔ IsQuiet self.now.state }
    {
        self.roster.gone == self.roster.opened
    }

    /// Returns whether the ready list has a behaviour, so that `start` starts one.
    pub fn has_ready(&self) -> bool
        ensures { (result ≡ false) ↔ (self.now.state.ready ≡ []) }
    {
        !self.roster.ready.is_empty()
    }

    /// Returns a mover that can step, or `None` exactly where it is quiet. It takes no memory.
    pub fn movable(&self) -> Option<Mover>
        ensures { NamesMover self.now result }
    {
        self.roster.movable()
    }

    /// Returns whether `advance` would make a step: there is an open enqueue with this token, and its next step isn't blocked.
    pub fn can_advance(&self, child: &Child) -> bool
        ensures { IsTrue result ↔ CanAdvance self.now.program self.now.state child.now.number child.now.row }
    {
        self.roster.can_advance(child)
    }

    /// Returns whether `leave` would make a step: there is a leaving behaviour with this token, and its next release isn't blocked.
    pub fn can_leave(&self, leaving: &Leaving) -> bool
        ensures { IsTrue result ↔ CanLeave self.now.state leaving.now.row }
    {
        self.roster.can_leave(leaving)
    }

    /// Returns how many steps were made.
    pub fn steps(&self) -> u64
        ensures value { result ≡ self.now.state.steps }
        ensures few { result + 1 < 2 ^ 64 }
    {
        self.roster.steps
    }

    /// Returns the record of the run if it is quiet, otherwise the dispatcher unchanged. It takes no memory.
    pub fn into_record(self) -> Result<Record, Core<'a, C>>
        ensures { EndsAsRecord self.entry result }
    {
        if !self.is_quiet() {
            return Err(self);
        }
        let Core { roster } = self;
        let Roster { log, .. } = roster;
        match log.into_record() {
            Ok(record) => Ok(record),
            Err(_) => unreachable!(),
        }
    }
}
