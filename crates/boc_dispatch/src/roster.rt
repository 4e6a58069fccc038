//! What the dispatcher has in hand, and how each step changes it.

ghost use Rattle.std.specs.Prelude.{◌≡◌, ◌≢◌, ◌+◌, ◌^◌, ◌<◌, ◌≤◌, ◌↔◌, ℕ, suc, [], None, Some, IfOk, IsTrue, IsSome, MatchOption, OnErr, OnOk, false, true, length, max};
ghost use Rattle.std.specs.Prelude.{replicate, vec_capacity};
ghost use Rattle.slab.specs.Slab.{HasRoomFor};
ghost use Rattle.std.specs.VecDeque.{deque_capacity};
ghost use Rattle.boc_dispatch.specs.Inside.{live_at};

use crate::calls::{Advanced, Child, Job, Left};
use crate::live::{Live, main_behaviour};
use boc_chain::{Chains, Released, Settled, Slot};
use boc_eval::{Frame, Instance, Outcome, Spare, SpawnWish, ToldRow};
use boc_program::body::Body;
use boc_program::short::{Args, Cowns, Input};
use boc_registers::compiled::CompiledProgram;
use boc_rules::RunLog;
use boc_runs::event::Event;
use boc_runs::stage::{Phase, Stage};
use boc_runs::step::Step;
use boc_runs::values::initial_values;
use slab::Slab;
use std::alloc::{AllocError, Global};
use std::collections::VecDeque;

/// The behaviours of a program under way, with their chains, and the log.
#[derive(Drop)]
pub struct Roster<'a, C: Chains + Drop> {
    pub program: &'a CompiledProgram<'a>,
    pub chains: C,
    /// The behaviours that aren't gone, each at the slot of its requests: its own slab and that of the requests give the same slots.
    pub live: Slab<Live>,
    /// The slot that the behaviour of each row has, or had.
    pub homes: Vec<u32>,
    /// The slots of the ready behaviours, in the order in which they will start.
    pub ready: VecDeque<u32>,
    /// The log, with capacity for each behaviour that was opened.
    pub log: RunLog,
    /// The values of the cowns.
    pub values: Vec<i64>,
    /// How many behaviours were opened, main among them.
    pub opened: u32,
    /// How many of them are gone.
    pub gone: u32,
    /// How many steps were made.
    pub steps: u64,
}

/// An open enqueue: the slots of the parent and of the child, and how far the child is.
pub struct Enqueue {
    pub parent: usize,
    pub slot: u32,
    pub stage: Stage,
}

// Links name slots in 16 bits, which is enough for as many behaviours as a run may have.
const MOST_SLOTS: usize = 1 << 16;

// Makes space for one more behaviour, and in the ready list for as many as the slab has capacity for. Returns the slot that comes next.
fn next_slot(live: &mut Slab<Live>, ready: &mut VecDeque<u32>) -> Result<usize, AllocError>
    ensures slots { live.new.slots ≡ live.old.slots }
    ensures next { IfOk result (λ slot. slot ≡ live.new.vacant_key) }
    ensures vacant { IfOk result (λ slot. live_at live.old.slots slot ≡ None) }
    ensures low { IfOk result (λ slot. slot < 2 ^ 16) }
    ensures room { OnOk result (HasRoomFor live.new 1) }
    ensures few { OnOk result (live.new.capacity ≤ 2 ^ 16) }
    ensures ready { ready.new.items ≡ ready.old.items }
    ensures ready_room { OnOk result (live.new.capacity ≤ deque_capacity ready.new) }
    ensures grows { deque_capacity ready.old ≤ deque_capacity ready.new }
{
    live.reserve(1)?;
    let room = live.capacity();
    ready.reserve(room.saturating_sub(ready.len()))?;
    let slot = live.vacant_key();
    // The slab has this capacity only for as many behaviours at once, of which a run has fewer.
    if room > MOST_SLOTS || slot >= MOST_SLOTS {
        return Err(AllocError);
    }
    Ok(slot)
}

ghost use Rattle.boc_chain.specs.Chain.{list, slots, times};

// Admits the cowns of a behaviour at the slot that its own slab gives next. The slab of the chains gives the same one, since both are filled and emptied by
// the same calls. Their contracts don't say so: with another one, this ends as if memory were refused.
fn admit_at<C: Chains>(chains: &mut C, slot: usize, cowns: Cowns) -> Result<(), AllocError>
    requires unused { (c s : ℕ) → C.place chains.old s ≡ None → times s (slots (list (C.lists chains.old) c)) ≡ 0 }
    requires distinct { (c : ℕ) → times c cowns.items ≤ 1 }
    requires in_range { (c : ℕ) → 0 < times c cowns.items → c < length (C.lists chains.old) }
    ensures here { OnOk result (C.place chains.new slot ≡ Some (record { cowns = cowns.items; exchanged = 0 })) }
    ensures other_places { OnOk result ((s : ℕ) → s ≢ slot → C.place chains.new s ≡ C.place chains.old s) }
    ensures err { OnErr result ((s : ℕ) → C.place chains.new s ≡ C.place chains.old s) }
    ensures lists { C.lists chains.new ≡ C.lists chains.old }
{
    let admitted = chains.admit(cowns)?;
    if admitted.index != slot {
        chains.dismiss(admitted);
        return Err(AllocError);
    }
    Ok(())
}

ghost use Rattle.boc_runs.specs.declared.event.Event.TheVariants.{End as EndEvent};

// Returns the end of a row, as its body ended.
fn end_event(row: u32, outcome: &Outcome) -> Event
    ensures { result ≡ EndEvent row outcome.now.ticks outcome.now.status (record { items = outcome.now.written }) }
{
    Event::End {
        row,
        ticks: outcome.ticks(),
        status: outcome.status(),
        written: Cowns::try_from(outcome.written().as_slice()).unwrap(),
    }
}

impl<'a, C: Chains + Drop> Roster<'a, C> {
    ghost use Rattle.boc_program.specs.declared.limits.TheConstants.{MOST_ROWS};
    ghost use Rattle.boc_runs.specs.declared.stage.Phase.TheVariants as phases;
    ghost use Rattle.boc_runs.specs.declared.stage.Stage.TheVariants.{Asking, Recorded};
    ghost use Rattle.boc_runs.specs.declared.step.Step.TheVariants as steps;
    ghost use Rattle.boc_program.specs.Programs.{cown_count};
    ghost use Rattle.boc_runs.specs.machine.Steps.{opening_state, members, Swaps, Flags, Owns};
    ghost use Rattle.boc_runs.specs.machine.Turns.{IsEnqueueOf};
    ghost use Rattle.boc_eval.specs.Frames.{last_wish_of};
    ghost use Rattle.boc_eval.specs.Wishes.{wish_of};
    ghost use Rattle.boc_dispatch.specs.declared.calls.Advanced.TheVariants as advanced;
    ghost use Rattle.boc_dispatch.specs.Calls.{IsHandedOut, IsNextWish, HasSpawnedAll, IsLeaving};
    ghost use Rattle.boc_eval.specs.Instances.{IsTrueOf};
    ghost use Rattle.boc_chain.specs.Chain.{times, slots, list};
    ghost use Rattle.boc_dispatch.specs.Inside.{parts_of, state, underway, IsSoundRoster, IsAtStage, IsStageAt, IsOfRow, HasInHand, GoesOn, IsNew};
    ghost use Rattle.boc_dispatch.specs.Grants.{MayBeGranted, with_granted, IsRemoved, IsReleased, LeftAs};
    ghost use Rattle.boc_dispatch.specs.Moves.{MayPut, Puts, vacated, MayRecord, Records, counted, StartsJob, StartsFrame, OpensChild, IsFoundEnqueue, SettlesNext};
    ghost use Rattle.boc_dispatch.specs.Moves.{EndsBehaviour, ReleasesNext, IsFoundLeaving};

    /// Opens main over chains with no request: its spawn is recorded, and it is ready.
    pub fn over(
        alloc: Global,
        program: &'a CompiledProgram<'a>,
        chains: C,
    ) -> Result<Roster<'a, C>, AllocError>
        requires empty { C.lists chains ≡ replicate (cown_count program.now.cowns) [] }
        requires none { (slot : ℕ) → C.place chains slot ≡ None }
        ensures sound { IfOk result (IsSoundRoster C.lists C.place) }
        ensures opening { IfOk result (λ m. state (parts_of C.lists C.place m) ≡ opening_state program.now) }
        ensures program { IfOk result (λ m. m.program.now ≡ program.now) }
    {
        let mut chains = chains;
        let values = initial_values(alloc, program.program().cowns.as_slice())?;
        let mut log = RunLog::new(alloc, values.len() as u32)?;
        log.make_room()?;
        let mut homes = Vec::with_capacity(alloc, 1)?;
        let mut live = Slab::new(alloc);
        let mut ready = VecDeque::new(alloc);
        let slot = next_slot(&mut live, &mut ready)?;
        admit_at(&mut chains, slot, Cowns::new())?;
        live.insert_reserved(main_behaviour());
        // Only `capacity` says that its slots are within its capacity.
        let room = live.capacity();
        prove!(slot < room);
        homes.push_reserved(slot as u32);
        ready.push_back_reserved(slot as u32);
        log.put(Event::Spawn {
            row: 0,
            parent: 0,
            offset: 0,
            cowns: Cowns::new(),
        });
        Ok(Roster {
            program,
            chains,
            live,
            homes,
            ready,
            log,
            values,
            opened: 1,
            gone: 0,
            steps: 0,
        })
    }

    /// Starts the first behaviour of the ready list, if there is one.
    pub fn start(&mut self) -> Option<Job<'a>>
        requires { IsSoundRoster C.lists C.place self.old }
        ensures sound { IsSoundRoster C.lists C.place self.new }
        ensures starts { StartsJob (parts_of C.lists C.place self.old) result (parts_of C.lists C.place self.new) }
    {
        let slot = self.ready.pop_front()?;
        let job = self.live[slot as usize].begin(self.program, &self.values);
        self.log.put(Event::Start { row: job.row });
        self.steps += 1;
        Some(job)
    }

    /// Starts the first behaviour of the ready list, if there is one, on the memory of a body that has ended. Returns its row, and its body at its start.
    pub fn start_on(&mut self, spare: &mut Spare<'a>) -> Option<(u32, Frame<'a>)>
        requires sound { IsSoundRoster C.lists C.place self.old }
        requires ready { IsSome spare.old }
        ensures sound { IsSoundRoster C.lists C.place self.new }
        ensures starts { StartsFrame (parts_of C.lists C.place self.old) result (parts_of C.lists C.place self.new) }
    {
        let first = self.ready.pop_front()?;
        let begun = self.live[first as usize].begin_on(self.program, &self.values, spare);
        self.log.put(Event::Start { row: begun.0 });
        self.steps += 1;
        Some(begun)
    }

    // Returns the slot of a row's behaviour, if that isn't gone.
    fn slot_of(&self, row: u32) -> Option<usize>
        requires { IsSoundRoster C.lists C.place self.now }
        ensures { MatchOption result
            ((slot : ℕ) → IsOfRow (parts_of C.lists C.place self.now) slot row → ⊥)
            (λ slot. IsOfRow (parts_of C.lists C.place self.now) slot row) }
    {
        let slot = *self.homes.get(row as usize)?;
        match self.live.get(slot as usize) {
            Some(live) if live.row() == Some(row) => Some(slot as usize),
            _ => None,
        }
    }

    /// Returns the slot of a row's behaviour, where that runs on this body, these arguments and inputs.
    pub fn running(&self, row: u32, body: &Body, args: &[i64], inputs: &[Input]) -> Option<usize>
        requires { IsSoundRoster C.lists C.place self.now }
        ensures { MatchOption result
            (IsHandedOut (underway (parts_of C.lists C.place self.now)) row body.now args.now inputs.now → ⊥)
            (λ slot. IsHandedOut (underway (parts_of C.lists C.place self.now)) row body.now args.now inputs.now
            × IsStageAt (parts_of C.lists C.place self.now) slot (Recorded row phases.Running)) }
    {
        let slot = self.slot_of(row)?;
        let live = &self.live[slot];
        if live.runs_on(
            self.program.program(),
            &self.values,
            row,
            body,
            args,
            inputs,
        ) {
            Some(slot)
        } else {
            None
        }
    }

    /// Returns the frame's last wish, where it is the next to be spawned of the behaviour at a slot, which runs, and nothing is being
    /// enqueued.
    pub fn next_wish<'f>(
        &self,
        slot: usize,
        row: u32,
        frame: &'f Frame<'a>,
    ) -> Option<&'f SpawnWish>
        requires sound { IsSoundRoster C.lists C.place self.now }
        requires runs { IsStageAt (parts_of C.lists C.place self.now) slot (Recorded row phases.Running) }
        ensures { MatchOption result
            (IsNextWish (underway (parts_of C.lists C.place self.now)) row frame.now.made → ⊥)
            (λ wish. IsNextWish (underway (parts_of C.lists C.place self.now)) row frame.now.made
            × HasInHand (parts_of C.lists C.place self.now) slot None
            × (Some (wish_of wish.now) ≡ last_wish_of frame.now)) }
    {
        if self.live[slot].opens_next(frame.wishes()) {
            frame.last_wish()
        } else {
            None
        }
    }

    /// Opens a child of the behaviour of a row, which is at a slot, as that wishes for it. All memory is taken here that the
    /// child will ever need.
    pub fn open(&mut self, slot: usize, row: u32, child: Live) -> Result<Child, AllocError>
        requires sound { IsSoundRoster C.lists C.place self.old }
        requires runs { IsStageAt (parts_of C.lists C.place self.old) slot (Recorded row phases.Running) }
        requires free { HasInHand (parts_of C.lists C.place self.old) slot None }
        requires new { IsNew (parts_of C.lists C.place self.old) row child }
        requires few { self.old.opened < MOST_ROWS }
        ensures sound { IsSoundRoster C.lists C.place self.new }
        ensures opens { OpensChild (parts_of C.lists C.place self.old) row result (parts_of C.lists C.place self.new) }
    {
        self.homes
            .reserve(self.opened as usize - self.homes.len() + 1)?;
        self.log.make_room()?;
        let own = next_slot(&mut self.live, &mut self.ready)?;
        admit_at(&mut self.chains, own, child.cowns.widened())?;
        self.live.insert_reserved(child);
        // As in `over`, this says that the slots are within the capacity.
        let room = self.live.capacity();
        prove!(own < room);
        Ok(self.put_child(slot, own as u32))
    }

    // Puts a child, which is at its slot, into the hand of the behaviour at a slot, whose wish it is.
    fn put_child(&mut self, parent: usize, slot: u32) -> Child
        requires { (child : Live) × (live_at self.old.live.slots slot ≡ Some child)
            × MayPut (vacated slot (parts_of C.lists C.place self.old)) (vec_capacity self.old.homes) parent slot child }
        ensures token { (child : Live) → live_at self.old.live.slots slot ≡ Some child
            → (result.number ≡ child.number) × (result.row ≡ child.parent) }
        ensures puts { (child this : Live) → live_at self.old.live.slots slot ≡ Some child → live_at self.old.live.slots parent ≡ Some this
            → Puts (vacated slot (parts_of C.lists C.place self.old)) parent slot child this (parts_of C.lists C.place self.new) }
        ensures homes { vec_capacity self.new.homes ≡ vec_capacity self.old.homes }
        ensures ready { deque_capacity self.new.ready ≡ deque_capacity self.old.ready }
    {
        let child = &self.live[slot as usize];
        let token = Child {
            number: child.number,
            row: child.parent,
        };
        let is_settled = child.cowns.as_slice().is_empty();
        self.live[parent].begin_child(slot);
        self.opened += 1;
        self.step_asking(parent, slot, is_settled);
        token
    }

    // Counts one step. Where the requests of the behaviour at a slot are all settled, its spawn is recorded by its parent's.
    fn step_asking(&mut self, parent: usize, slot: u32, is_settled: bool)
        requires fits { self.old.steps + 1 < 2 ^ 64 }
        requires may { is_settled ≡ true → MayRecord (parts_of C.lists C.place self.old) (vec_capacity self.old.homes) parent slot }
        ensures asks { is_settled ≡ false → parts_of C.lists C.place self.new ≡ counted (parts_of C.lists C.place self.old) }
        ensures records { is_settled ≡ true → Records (counted (parts_of C.lists C.place self.old)) parent slot (parts_of C.lists C.place self.new) }
        ensures homes { vec_capacity self.new.homes ≡ vec_capacity self.old.homes }
        ensures ready { deque_capacity self.new.ready ≡ deque_capacity self.old.ready }
    {
        self.steps += 1;
        if is_settled {
            self.record_spawn(parent, slot);
        }
    }

    // Records the spawn of the behaviour at a slot by its parent's.
    fn record_spawn(&mut self, parent: usize, slot: u32)
        requires { MayRecord (parts_of C.lists C.place self.old) (vec_capacity self.old.homes) parent slot }
        ensures records { Records (parts_of C.lists C.place self.old) parent slot (parts_of C.lists C.place self.new) }
        ensures homes { vec_capacity self.new.homes ≡ vec_capacity self.old.homes }
        ensures ready { deque_capacity self.new.ready ≡ deque_capacity self.old.ready }
    {
        self.live[parent].count_spawn();
        let row = self.homes.len() as u32;
        let event = self.live[slot as usize].record(row);
        self.log.put(event);
        self.homes.push_reserved(slot);
    }

    /// Returns the open enqueue with this token.
    pub fn enqueue_of(&self, child: &Child) -> Option<Enqueue>
        requires { IsSoundRoster C.lists C.place self.now }
        ensures { MatchOption result
            (IsEnqueueOf (state (parts_of C.lists C.place self.now)) child.now.number child.now.row → ⊥)
            (IsFoundEnqueue (parts_of C.lists C.place self.now) child.now.number child.now.row) }
    {
        let parent = self.slot_of(child.row)?;
        let slot = self.live[parent].child?;
        let live = &self.live[slot as usize];
        if live.number == child.number {
            Some(Enqueue {
                parent,
                slot,
                stage: live.stage.stage(),
            })
        } else {
            None
        }
    }

    /// Exchanges this request of the behaviour at a slot.
    pub fn swap(&mut self, slot: usize, request: usize) -> Advanced
        requires sound { IsSoundRoster C.lists C.place self.old }
        requires due { IsStageAt (parts_of C.lists C.place self.old) slot (Asking request false) }
        ensures sound { IsSoundRoster C.lists C.place self.new }
        ensures moved { result ≡ advanced.Moved (steps.Swap request) }
        ensures swaps { (l : Live) → IsAtStage (parts_of C.lists C.place self.old) slot l (Asking request false)
            → GoesOn (λ s t. Swaps s l.number request t) (parts_of C.lists C.place self.old) (parts_of C.lists C.place self.new) }
    {
        self.chains.swap(Slot { index: slot }, request);
        self.live[slot].ask(request);
        self.steps += 1;
        Advanced::Moved(Step::Swap(request))
    }

    /// Settles this request of the behaviour at a slot, unless that is blocked. With the last one its spawn is recorded.
    pub fn settle(&mut self, parent: usize, slot: u32, request: usize) -> Advanced
        requires sound { IsSoundRoster C.lists C.place self.old }
        requires due { IsStageAt (parts_of C.lists C.place self.old) slot (Asking request true) }
        requires held { HasInHand (parts_of C.lists C.place self.old) parent (Some slot) }
        ensures sound { IsSoundRoster C.lists C.place self.new }
        ensures settles { (l : Live) → IsAtStage (parts_of C.lists C.place self.old) slot l (Asking request true)
            → SettlesNext (parts_of C.lists C.place self.old) l.number request result (parts_of C.lists C.place self.new) }
    {
        let granted = match self.chains.settle(
            Slot {
                index: slot as usize,
            },
            request,
        ) {
            Settled::Blocked => return Advanced::Blocked,
            Settled::Lone => 1,
            Settled::Linked => 0,
        };
        let is_last = self.live[slot as usize].settle_next(request, granted);
        self.step_asking(parent, slot, is_last);
        Advanced::Moved(Step::Settle(request))
    }

    /// Flags this request of the behaviour at a slot.
    pub fn flag(&mut self, slot: usize, row: u32, request: usize) -> Advanced
        requires sound { IsSoundRoster C.lists C.place self.old }
        requires due { IsStageAt (parts_of C.lists C.place self.old) slot (Recorded row (phases.Flagging request)) }
        ensures sound { IsSoundRoster C.lists C.place self.new }
        ensures moved { result ≡ advanced.Moved (steps.Flag request) }
        ensures flags { (l : Live) → IsAtStage (parts_of C.lists C.place self.old) slot l (Recorded row (phases.Flagging request))
            → GoesOn (λ s t. Flags s l.number request t) (parts_of C.lists C.place self.old) (parts_of C.lists C.place self.new) }
    {
        self.chains.flag(Slot { index: slot }, request);
        self.live[slot].flag_next(row, request);
        self.steps += 1;
        Advanced::Moved(Step::Flag(request))
    }

    /// Ends the enqueue of the behaviour at a slot, which its parent has in hand: it is ready, or waits.
    pub fn own(&mut self, parent: usize, slot: u32, row: u32) -> Advanced
        requires sound { IsSoundRoster C.lists C.place self.old }
        requires due { IsStageAt (parts_of C.lists C.place self.old) slot (Recorded row phases.Owning) }
        requires held { HasInHand (parts_of C.lists C.place self.old) parent (Some slot) }
        ensures sound { IsSoundRoster C.lists C.place self.new }
        ensures enqueued { result ≡ advanced.Enqueued }
        ensures owns { (l : Live) → IsAtStage (parts_of C.lists C.place self.old) slot l (Recorded row phases.Owning)
            → GoesOn (λ s t. Owns s l.number t) (parts_of C.lists C.place self.old) (parts_of C.lists C.place self.new) }
    {
        self.live[parent].end_child();
        self.live[slot as usize].wait(row);
        self.grant(slot);
        self.steps += 1;
        Advanced::Enqueued
    }

    // Counts one thing less that the behaviour at a slot awaits. Where it awaits nothing more it joins the ready list.
    fn grant(&mut self, slot: u32)
        requires { MayBeGranted (parts_of C.lists C.place self.old) slot (deque_capacity self.old.ready) }
        ensures granted { parts_of C.lists C.place self.new ≡ with_granted slot (parts_of C.lists C.place self.old) }
        ensures rooms { (self.new.homes ≡ self.old.homes) × (deque_capacity self.new.ready ≡ deque_capacity self.old.ready) }
    {
        if self.live[slot as usize].grant_one() {
            self.ready.push_back_reserved(slot);
        }
    }

    /// Returns whether all of `wishes` wishes of the behaviour at a slot, which runs, were spawned, and nothing is being enqueued.
    pub fn has_spawned(&self, slot: usize, row: u32, wishes: u32) -> bool
        requires sound { IsSoundRoster C.lists C.place self.now }
        requires runs { IsStageAt (parts_of C.lists C.place self.now) slot (Recorded row phases.Running) }
        ensures { IsTrue result ↔ HasSpawnedAll (underway (parts_of C.lists C.place self.now)) row wishes }
    {
        self.live[slot].has_spawned(wishes)
    }

    /// Returns what the running behaviour of a row is, which is at a slot.
    pub fn told(&self, slot: usize, row: u32) -> ToldRow
        requires sound { IsSoundRoster C.lists C.place self.now }
        requires runs { IsStageAt (parts_of C.lists C.place self.now) slot (Recorded row phases.Running) }
        ensures row { result.row ≡ row }
        ensures told { IsTrueOf (members self.now.program.now (state (parts_of C.lists C.place self.now))) result }
    {
        let live = &self.live[slot];
        ToldRow {
            row,
            instance: Instance {
                kind: live.kind as usize,
                args: Args::try_from(live.args.as_slice()).unwrap(),
                cowns: live.params.widened(),
            },
        }
    }

    /// Ends the running behaviour of a row, which is at a slot, as its body did. Answers whether it has cowns to release.
    pub fn finish(&mut self, slot: usize, row: u32, outcome: &Outcome<'a>) -> bool
        requires sound { IsSoundRoster C.lists C.place self.old }
        requires runs { IsStageAt (parts_of C.lists C.place self.old) slot (Recorded row phases.Running) }
        requires handed { IsHandedOut (underway (parts_of C.lists C.place self.old)) row outcome.now.body outcome.now.args outcome.now.inputs }
        requires spawned { HasSpawnedAll (underway (parts_of C.lists C.place self.old)) row outcome.now.wishes }
        ensures sound { IsSoundRoster C.lists C.place self.new }
        ensures ends { (l : Live) → IsAtStage (parts_of C.lists C.place self.old) slot l (Recorded row phases.Running)
            → EndsBehaviour (parts_of C.lists C.place self.old) l.number row result (parts_of C.lists C.place self.new) }
    {
        let live = &mut self.live[slot];
        let has_cowns = live.end(row, &mut self.values, outcome.outputs());
        self.log.put(end_event(row, outcome));
        self.steps += 1;
        if has_cowns {
            return true;
        }
        self.remove(slot);
        false
    }

    // Removes the behaviour at a slot.
    fn remove(&mut self, slot: usize)
        requires there { IsSome (live_at self.old.live.slots slot) }
        requires admitted { IsSome (C.place self.old.chains slot) }
        requires empty { (c : ℕ) → times slot (slots (list (C.lists self.old.chains) c)) ≡ 0 }
        requires few { self.old.gone + 1 < 2 ^ 32 }
        ensures removed { IsRemoved (parts_of C.lists C.place self.old) slot (parts_of C.lists C.place self.new) }
        ensures rooms { (self.new.homes ≡ self.old.homes) × (self.new.ready ≡ self.old.ready) }
    {
        self.live.remove(slot);
        self.chains.dismiss(Slot { index: slot });
        self.gone += 1;
    }

    /// Returns the slot of a row's behaviour that releases its cowns, and which request it releases next.
    pub fn leaving(&self, row: u32) -> Option<(usize, usize)>
        requires { IsSoundRoster C.lists C.place self.now }
        ensures { MatchOption result
            (IsLeaving (state (parts_of C.lists C.place self.now)) row → ⊥)
            (λ found. IsFoundLeaving (parts_of C.lists C.place self.now) row found.0 found.1) }
    {
        let slot = self.slot_of(row)?;
        let request = self.live[slot].leaving(row)?;
        Some((slot, request))
    }

    /// Releases this request of the leaving behaviour of a row, which is at a slot, unless that is blocked.
    pub fn leave(&mut self, slot: usize, row: u32, request: usize) -> Left
        requires sound { IsSoundRoster C.lists C.place self.old }
        requires due { IsStageAt (parts_of C.lists C.place self.old) slot (Recorded row (phases.Leaving request)) }
        ensures sound { IsSoundRoster C.lists C.place self.new }
        ensures releases { (l : Live) → IsAtStage (parts_of C.lists C.place self.old) slot l (Recorded row (phases.Leaving request))
            → ReleasesNext (parts_of C.lists C.place self.old) l.number row result (parts_of C.lists C.place self.new) }
    {
        match self.chains.leave(Slot { index: slot }, request) {
            Released::Blocked => Left::Blocked,
            Released::Unhooked => self.leave_on(slot, row, request, Step::Unhook(request)),
            Released::Passed(next) => {
                self.grant(next.index as u32);
                self.leave_on(slot, row, request, Step::Pass(request))
            }
        }
    }

    // Notes that this step releases this request of the leaving behaviour of a row, which is at a slot: it goes on with the next one, or is gone.
    #[inline(always)]
    fn leave_on(&mut self, slot: usize, row: u32, request: usize, step: Step) -> Left
        requires { IsReleased slot row request (parts_of C.lists C.place self.old)
            (vec_capacity self.old.homes) (deque_capacity self.old.ready) }
        ensures sound { IsSoundRoster C.lists C.place self.new }
        ensures left { (l : Live) → live_at (parts_of C.lists C.place self.old).live slot ≡ Some l
            → LeftAs (parts_of C.lists C.place self.old) row l (suc request) step result (parts_of C.lists C.place self.new) }
    {
        self.steps += 1;
        if self.live[slot].leave_next(row, request) {
            self.remove(slot);
            Left::Gone(step)
        } else {
            Left::Moved(step)
        }
    }
}
