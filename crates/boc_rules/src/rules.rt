// A run under way, with its log, as its users see it.

ghost use Rattle.std.specs.Prelude.{◌≡◌, ◌+◌, ◌<◌, ◌≤◌, ◌↔◌, [], IfOk, IsTrue, MatchOption, MatchResult, length};

use crate::fault::RuleFault;
use crate::judge::Judge;
use crate::rows::make_events_room;
use boc_program::held::HeldCowns;
use boc_runs::event::Event;
use boc_runs::events::{Events, Happening};
use boc_runs::record::Record;
use std::alloc::{AllocError, Global};
use std::marker::Model;

/// The events of a run so far. They keep the rules of runs over a number of cowns, which is at most 256.
#[derive(Drop, Debug)]
pub struct Rules {
    judge: Judge,
    happenings: Vec<Happening>,
}

impl Model for Rules {
    ghost use Rattle.std.specs.Prelude.{vec_capacity};
    ghost use Rattle.boc_rules.specs.Log.{Log};

    ghost Value = { Log };

    ghost use Rattle.boc_rules.specs.Logged.{told_of, IsLogged};

    ghost view = { λ r. let v : Log = record { cowns = r.judge.cowns; events = told_of r.judge.rows r.happenings.items; rooms = r.judge.rooms } in v };

    ghost invariant = { λ r. IsLogged r.judge r.happenings.items (vec_capacity r.happenings) };
}

impl Rules {
    ghost use Rattle.boc_program.specs.declared.limits.TheConstants.{MOST_COWNS};
    ghost use Rattle.boc_runs.specs.Legal.{entries, entry_cowns, IsAllowed, IsLegal, IsComplete};
    ghost use Rattle.boc_rules.specs.Log.{HasRoomFor, grown};
    ghost use Rattle.boc_rules.specs.Course.{course_of};
    ghost use Rattle.boc_rules.specs.Rules.{Applies, Records};

    /// Makes rules of no rows yet, over this many cowns, and no space for any.
    pub fn new(alloc: Global, cowns: u32) -> Result<Rules, AllocError>
        requires { cowns ≤ MOST_COWNS }
        ensures { IfOk result (λ r. r ≡ record { cowns = cowns; events = []; rooms = 0 }) }
    {
        Ok(Rules {
            judge: Judge::new(alloc, cowns)?,
            happenings: Vec::new(alloc),
        })
    }

    /// Takes the event if it keeps the rules, and otherwise answers the first rule that it breaks. Space is made for
    /// a spawn that finds none, and is refused only where the spawn keeps the rules. Nothing changes after a
    /// refusal. The time goes with the number of the event's cowns, amortised.
    pub fn apply(&mut self, event: &Event) -> Result<(), RuleFault>
        ensures { Applies self.old event.now result self.new }
    {
        self.take(event.duplicate())
    }

    /// Does the same for an event that is handed over.
    pub fn take(&mut self, event: Event) -> Result<(), RuleFault>
        ensures { Applies self.old event result self.new }
    {
        if let Err(rule) = self.judge.judge(&event) {
            return Err(RuleFault::Broken(rule));
        }
        if !self.judge.has_room_for(&event) && self.make_room().is_err() {
            return Err(RuleFault::Memory);
        }
        self.put(event);
        Ok(())
    }

    /// Makes space for one more row: for its spawn, its start and its end. Nothing changes where memory is refused.
    /// The time is constant, amortised.
    pub fn make_room(&mut self) -> Result<(), AllocError>
        ensures { MatchResult result (λ _. self.new ≡ record self.old { rooms = self.old.rooms + 1 }) (λ _. self.new ≡ self.old) }
    {
        let rows = self.judge.count() + self.judge.rooms() + 1;
        make_events_room(&mut self.happenings, rows)?;
        self.judge.make_room()
    }

    /// Returns how many rows there is space for that are not spawned yet.
    pub fn rooms(&self) -> usize
        ensures { result ≡ self.now.rooms }
    {
        self.judge.rooms()
    }

    /// Puts an event that keeps the rules after the others. For a spawn there must be room, which it takes. It takes
    /// no memory, and judges nothing.
    pub fn put(&mut self, event: Event)
        requires allowed { IsAllowed self.old.cowns (entries self.old.events) event }
        requires room { HasRoomFor self.old.rooms event }
        ensures { self.new ≡ grown self.old event }
    {
        self.happenings.push_reserved(Happening::of(&event));
        self.judge.put(event);
    }

    /// Returns the run as it is judged, without its events.
    pub fn judge(&self) -> &Judge
        ensures { result.now ≡ course_of self.now }
    {
        &self.judge
    }

    /// Returns the cowns of a row, if it is there.
    pub fn cowns_of(&self, row: u32) -> Option<&HeldCowns>
        ensures { MatchOption result (length (entries self.now.events) ≤ row)
            (λ cowns. (row < length (entries self.now.events)) × (cowns.now.items ≡ entry_cowns (entries self.now.events) row)) }
    {
        self.judge.cowns_of(row)
    }

    /// Returns how many cowns there are.
    pub fn cowns(&self) -> u32
        ensures value { result ≡ self.now.cowns }
        ensures few { result ≤ MOST_COWNS }
        ensures legal { IsLegal self.now.cowns self.now.events }
    {
        self.judge.cowns()
    }

    /// Returns the events so far.
    pub fn events(&self) -> Events<'_>
        ensures value { result ≡ self.now.events }
        ensures legal { IsLegal self.now.cowns self.now.events }
    {
        Events::new(self.happenings.as_slice(), self.judge.rows())
    }

    /// Returns whether there is a row, and every row has ended.
    pub fn is_complete(&self) -> bool
        ensures { IsTrue result ↔ IsComplete self.now.events }
    {
        self.judge.is_complete()
    }

    /// Returns the record of the run where it is complete; otherwise the rules come back unchanged. It takes no memory.
    pub fn into_record(self) -> Result<Record, Rules>
        ensures { Records self result }
    {
        let cowns = self.judge.cowns();
        let happenings = self.happenings;
        match self.judge.into_rows() {
            Ok(rows) => Ok(Record::new(cowns, happenings, rows)),
            Err(judge) => Err(Rules { judge, happenings }),
        }
    }
}
