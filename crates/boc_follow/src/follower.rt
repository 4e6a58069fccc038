// A run of a program, followed event by event.

ghost use Rattle.std.specs.Prelude.{◌≡◌, ◌<◌, ◌≤◌, ◌↔◌, [], IfOk, IsTrue, MatchOption, OnOk, length, map, option_map, vec_len, vec_capacity};
ghost use Rattle.std.specs.Option.{option_copied};
ghost use Rattle.boc_follow.specs.declared.follower.TakeFault.TheVariants.{Memory};

use crate::row::{FollowedRow, child_of, end_row, put_child, start_row};
use boc_eval::{Instance, Spare, SpawnWish};
use boc_program::body::EndStatus;
use boc_program::program::Program;
use boc_program::short::{CownNo, Cowns};
use boc_registers::compiled::CompiledProgram;
use boc_rules::Rules;
use boc_runs::event::Event;
use boc_runs::events::Events;
use boc_runs::values::initial_values;
use std::alloc::{AllocError, Global};
use std::marker::Model;
use thiserror::Error;

/// Why an event is not taken.
#[derive(Clone, Copy, PartialEq, Eq, Debug, Error)]
pub enum TakeFault {
    /// The rule of runs does not allow it next.
    #[error("not allowed")]
    NotAllowed,
    /// It may come next, but memory ran out.
    #[error("out of memory")]
    Memory,
}

impl From<AllocError> for TakeFault {
    ghost from_gives = { λ _ fault. fault ≡ Memory };

    fn from(_error: AllocError) -> TakeFault {
        TakeFault::Memory
    }
}

/// A program, and the events so far of a run of it. It knows what each behaviour is, what those that run do, and the
/// values of the cowns.
#[derive(Drop)]
pub struct Follower<'a> {
    program: &'a CompiledProgram<'a>,
    rules: Rules,
    rows: Vec<FollowedRow>,
    values: Vec<i64>,
    spare: Spare<'a>,
}

impl<'a> Model for Follower<'a> {
    ghost use Rattle.boc_follow.specs.Following.{Following};
    ghost use Rattle.boc_follow.specs.Codes.{coded_following};
    ghost use Rattle.std.specs.Coded.{codes};

    ghost Value = { Following };

    ghost coded = { Prim.hlevel (codes, coded_following) };

    ghost use Rattle.boc_follow.specs.Following.{IsFollowing};

    ghost view = { λ f. let v : Following = record { program = f.program.now; log = f.rules.events } in v };

    ghost invariant = { λ f. IsFollowing f.program.now f.rules.cowns f.rules.events f.rows.items f.values.items };
}

// Makes space for one more row, if there is none.
fn make_room(rules: &mut Rules, rows: &mut Vec<FollowedRow>) -> Result<(), AllocError>
    ensures log { rules.new ≡ record rules.old { rooms = rules.new.rooms } }
    ensures rows { rows.new.items ≡ rows.old.items }
    ensures event_room { OnOk result (0 < rules.new.rooms) }
    ensures row_room { OnOk result (vec_len rows.new < vec_capacity rows.new) }
{
    rows.reserve(1)?;
    if rules.rooms() == 0 {
        rules.make_room()?;
    }
    Ok(())
}

impl<'a> Follower<'a> {
    ghost use Rattle.boc_runs.specs.declared.event.Event.TheVariants as events;
    ghost use Rattle.boc_program.specs.declared.limits.TheConstants.{MOST_ROWS};
    ghost use Rattle.boc_program.specs.Programs.{cown_count};
    ghost use Rattle.boc_runs.specs.Legal.{entries, IsAllowed};
    ghost use Rattle.boc_runs.specs.Run.{config_of, IsRun, IsWholeRun};
    ghost use Rattle.boc_eval.specs.Instances.{AreRowsOf, AreKnown, behaviour_in};
    ghost use Rattle.boc_eval.specs.Wishes.{wish_of};
    ghost use Rattle.boc_follow.specs.Standings.{standing_of, next_at};
    ghost use Rattle.boc_follow.specs.Takes.{Takes, IsSpawn, IsOfRow, IsEndOf, IsIdle};

    /// A run of a program with no events yet.
    pub fn new(alloc: Global, program: &'a CompiledProgram<'a>) -> Result<Follower<'a>, AllocError>
        ensures { IfOk result (λ f. f ≡ record { program = program.now; log = [] }) }
    {
        let values = initial_values(alloc, program.program().cowns.as_slice())?;
        let rules = Rules::new(alloc, values.len() as u32)?;
        Ok(Follower {
            program,
            rules,
            rows: Vec::new(alloc),
            values,
            spare: Spare::default(),
        })
    }

    /// Takes the event if it may come next. Nothing changes where it is not taken.
    pub fn take(&mut self, event: &Event) -> Result<(), TakeFault>
        ensures { Takes self.old event.now result self.new }
    {
        if self.rules.judge().judge(event).is_err() {
            return Err(TakeFault::NotAllowed);
        }
        match event {
            Event::Spawn {
                parent,
                offset,
                cowns,
                ..
            } => self.spawn(event, *parent, *offset, cowns),
            Event::Start { row } => self.start(event, *row),
            Event::End {
                row,
                ticks,
                status,
                written,
            } => self.end(event, *row, *ticks, *status, written),
        }
    }

    // Takes the spawn of a row, if its behaviour is the one that comes next.
    fn spawn(
        &mut self,
        event: &Event,
        parent: u32,
        offset: u32,
        cowns: &Cowns,
    ) -> Result<(), TakeFault>
        requires is { IsSpawn event.now parent offset cowns.now }
        requires allowed { IsAllowed (cown_count self.old.program.cowns) (entries self.old.log) event.now }
        ensures { Takes self.old event.now result self.new }
    {
        let Some(child) = child_of(&self.rows, parent, offset, cowns.as_slice()) else {
            return Err(TakeFault::NotAllowed);
        };
        make_room(&mut self.rules, &mut self.rows)?;
        self.rules.put(event.duplicate());
        put_child(&mut self.rows, parent, child);
        Ok(())
    }

    // Takes the start of a row, and finds what its body does.
    fn start(&mut self, event: &Event, row: u32) -> Result<(), TakeFault>
        requires is { event.now ≡ events.Start row }
        requires allowed { IsAllowed (cown_count self.old.program.cowns) (entries self.old.log) event.now }
        ensures { Takes self.old event.now result self.new }
    {
        let alloc = *self.rows.allocator();
        start_row(
            alloc,
            &mut self.spare,
            self.program,
            &mut self.rows,
            row,
            &self.values,
        )?;
        self.rules.put(event.duplicate());
        Ok(())
    }

    // Takes the end of a row, if its body ends so.
    fn end(
        &mut self,
        event: &Event,
        row: u32,
        ticks: u32,
        status: EndStatus,
        written: &Cowns,
    ) -> Result<(), TakeFault>
        requires is { event.now ≡ events.End row ticks status written.now }
        requires allowed { IsAllowed (cown_count self.old.program.cowns) (entries self.old.log) event.now }
        ensures { Takes self.old event.now result self.new }
    {
        if !self.rows[row as usize].ends_so(ticks, status, written.as_slice()) {
            return Err(TakeFault::NotAllowed);
        }
        self.rules.put(event.duplicate());
        end_row(&mut self.rows, row, &mut self.values);
        Ok(())
    }

    /// There is a row, and every row has ended: the events are a whole run of the program.
    pub fn is_complete(&self) -> bool
        ensures { IsTrue result ↔ IsWholeRun self.now.program self.now.log }
    {
        self.rules.is_complete()
    }

    /// The program.
    pub fn program(&self) -> &'a Program
        ensures value { result.now ≡ self.now.program }
        ensures run { IsRun self.now.program self.now.log }
    {
        self.program.program()
    }

    /// How many cowns the program has.
    pub fn cowns(&self) -> u32
        ensures { result ≡ cown_count self.now.program.cowns }
    {
        self.rules.cowns()
    }

    /// The events so far.
    pub fn events(&self) -> Events<'_>
        ensures value { result ≡ self.now.log }
        ensures run { IsRun self.now.program self.now.log }
    {
        self.rules.events()
    }

    /// The values of the cowns, in the order of their numbers. They change only as rows end.
    pub fn values(&self) -> &[i64]
        ensures { result.now ≡ (config_of self.now.program self.now.log).values }
    {
        &self.values
    }

    /// How many rows there are so far.
    pub fn rows(&self) -> usize
        ensures count { result ≡ length (config_of self.now.program self.now.log).members }
        ensures few { result ≤ MOST_ROWS }
    {
        self.rows.len()
    }

    /// Returns what a row is, if it is there.
    pub fn instance(&self, row: u32) -> Option<&Instance>
        ensures { MatchOption result
            (length (config_of self.now.program self.now.log).members ≤ row)
            (λ instance. IsOfRow (config_of self.now.program self.now.log).members row (behaviour_in instance.now)) }
    {
        let row = self.rows.get(row as usize)?;
        Some(&row.instance)
    }

    /// Returns what each row is, in the order of their numbers. `AllocError` says that memory was refused.
    pub fn instances(&self, alloc: Global) -> Result<Vec<Instance>, AllocError>
        ensures rows { IfOk result (λ rows. AreRowsOf (config_of self.now.program self.now.log).members rows.items) }
        ensures known { IfOk result (λ rows. AreKnown self.now.program rows.items) }
    {
        copies_of(alloc, &self.rows)
    }

    /// Returns the behaviour that a row spawns next, while it runs and has one left to spawn.
    pub fn next_wish(&self, row: u32) -> Option<&SpawnWish>
        ensures { option_map wish_of (option_copied result)
            ≡ next_at (map (standing_of self.now.program) (config_of self.now.program self.now.log).members) row }
    {
        self.rows.get(row as usize)?.next_wish()
    }

    /// Returns the end of a row by what its body does, while it runs.
    pub fn end_of(&self, row: u32) -> Option<Event>
        ensures { MatchOption result
            (IsIdle (map (standing_of self.now.program) (config_of self.now.program self.now.log).members) row)
            (IsEndOf (map (standing_of self.now.program) (config_of self.now.program self.now.log).members) row) }
    {
        let effect = self.rows.get(row as usize)?.effect.as_ref()?;
        Some(effect.end(row))
    }
}

// Returns what rows are.
fn copies_of(alloc: Global, rows: &[FollowedRow]) -> Result<Vec<Instance>, AllocError>
    ensures { IfOk result (λ copies. copies.items ≡ map (λ row. row.instance) rows.now) }
{
    let mut copies = Vec::with_capacity(alloc, rows.len())?;
    for row in 0..rows.len() {
        copies.push(rows[row].instance.duplicate())?;
    }
    Ok(copies)
}
