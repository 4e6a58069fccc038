// A run under way as it is judged, event by event.

ghost use Rattle.std.specs.Prelude.{◌≡◌, ◌+◌, ◌<◌, ◌≤◌, ◌↔◌, [], IfOk, IsTrue, MatchOption, MatchResult, length};

use crate::fault::RuleFault;
use crate::so_far::RunSoFar;
use boc_program::held::HeldCowns;
use boc_runs::event::{BrokenRule, Event};
use boc_runs::rows::{Row, Rows};
use std::alloc::{AllocError, Global};
use std::marker::Model;

/// The rows of a run so far, and what has become of each. They are those of events that keep the rules of runs over
/// a number of cowns, which is at most 256; the events themselves are not kept.
#[derive(Drop, Debug)]
pub struct Judge {
    run: RunSoFar,
}

impl Model for Judge {
    ghost use Rattle.boc_rules.specs.Course.{Course};

    ghost Value = { Course };

    ghost use Rattle.boc_rules.specs.SoFar.{so_far, IsRunSoFar, HasRooms};

    ghost view = { λ j. let v : Course = record { cowns = j.run.cowns; rows = so_far j.run; rooms = j.run.rooms } in v };

    ghost invariant = { λ j. IsRunSoFar j.run × HasRooms j.run };
}

impl Judge {
    ghost use Rattle.boc_program.specs.declared.limits.TheConstants.{MOST_COWNS};
    ghost use Rattle.boc_runs.specs.Legal.{entry_cowns, IsAllowed};
    ghost use Rattle.boc_runs.specs.Records.{AreRowsOf};
    ghost use Rattle.boc_rules.specs.Log.{HasRoomFor};
    ghost use Rattle.boc_rules.specs.Judges.{Judges};
    ghost use Rattle.boc_rules.specs.Course.{stepped, AreLegal, IsOver, Steps, GivesRows};

    /// Makes a judge of no rows yet, over this many cowns, and no space for any.
    pub fn new(alloc: Global, cowns: u32) -> Result<Judge, AllocError>
        requires { cowns ≤ MOST_COWNS }
        ensures { IfOk result (λ j. j ≡ record { cowns = cowns; rows = []; rooms = 0 }) }
    {
        Ok(Judge {
            run: RunSoFar::new(alloc, cowns)?,
        })
    }

    /// Takes the event if it keeps the rules, and otherwise answers the first rule that it breaks. Space is made
    /// for a spawn that finds none, and is refused only where the spawn keeps the rules. Nothing changes after a
    /// refusal. The time goes with the number of the event's cowns, amortised.
    #[inline(always)]
    pub fn take(&mut self, event: Event) -> Result<(), RuleFault>
        ensures { Steps self.old event result self.new }
    {
        if let Err(rule) = self.judge(&event) {
            return Err(RuleFault::Broken(rule));
        }
        if !self.has_room_for(&event) && self.make_room().is_err() {
            return Err(RuleFault::Memory);
        }
        self.put(event);
        Ok(())
    }

    /// Checks that the event keeps every rule, and otherwise returns the first that it breaks.
    #[inline(always)]
    pub fn judge(&self, event: &Event) -> Result<(), BrokenRule>
        ensures { Judges self.now.cowns self.now.rows event.now result }
    {
        self.run.judge(event)
    }

    /// Returns whether there is space for the event: each but a spawn has it since its row's spawn.
    pub fn has_room_for(&self, event: &Event) -> bool
        ensures { IsTrue result ↔ HasRoomFor self.now.rooms event.now }
    {
        match event {
            Event::Spawn { .. } => self.run.rooms > 0,
            Event::Start { .. } | Event::End { .. } => true,
        }
    }

    /// Makes space for one more row. Nothing changes where memory is refused. The time is constant, amortised.
    pub fn make_room(&mut self) -> Result<(), AllocError>
        ensures { MatchResult result (λ _. self.new ≡ record self.old { rooms = self.old.rooms + 1 }) (λ _. self.new ≡ self.old) }
    {
        self.run.make_room()
    }

    /// Takes an event that keeps the rules. For a spawn there must be room, which it takes. It takes no memory,
    /// and judges nothing.
    #[inline(always)]
    pub fn put(&mut self, event: Event)
        requires allowed { IsAllowed self.old.cowns self.old.rows event }
        requires room { HasRoomFor self.old.rooms event }
        ensures { self.new ≡ stepped self.old event }
    {
        self.run.accept(event);
    }

    /// Returns how many rows there are.
    pub fn count(&self) -> usize
        ensures { result ≡ length self.now.rows }
    {
        self.run.rows.len()
    }

    /// Returns how many rows there is space for that are not spawned yet.
    pub fn rooms(&self) -> usize
        ensures { result ≡ self.now.rooms }
    {
        self.run.rooms
    }

    /// Returns the cowns of a row, if it is there.
    pub fn cowns_of(&self, row: u32) -> Option<&HeldCowns>
        ensures { MatchOption result (length self.now.rows ≤ row) (λ cowns. (row < length self.now.rows) × (cowns.now.items ≡ entry_cowns self.now.rows row)) }
    {
        self.run.cowns_of(row)
    }

    /// Returns how many cowns there are.
    pub fn cowns(&self) -> u32
        ensures value { result ≡ self.now.cowns }
        ensures few { result ≤ MOST_COWNS }
        ensures legal { AreLegal self.now.cowns self.now.rows }
    {
        self.run.cowns
    }

    /// Returns the rows so far, of which one that hasn't ended has 0 ticks, the status `Done`, and wrote nothing.
    pub fn rows(&self) -> &[Row]
        ensures { AreRowsOf self.now.rows result.now }
    {
        self.run.rows.as_slice()
    }

    /// Returns whether there is a row, and every row has ended.
    pub fn is_complete(&self) -> bool
        ensures { IsTrue result ↔ IsOver self.now.rows }
    {
        self.run.is_complete()
    }

    /// Returns the rows of the run where it is complete; otherwise the judge comes back unchanged. It takes no memory.
    pub fn into_rows(self) -> Result<Rows, Judge>
        ensures { GivesRows self result }
    {
        if !self.run.is_complete() {
            return Err(self);
        }
        Ok(Rows::new(self.run.rows))
    }
}
