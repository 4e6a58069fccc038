// Steps from front to front.

ghost use Rattle.std.specs.Prelude.{◌≡◌, ◌+◌, ◌<◌, ◌^◌, [], ◌∷◌, length, map, IfOk, OnOk};
ghost use Rattle.boc_program.specs.declared.program.Program.{Program};
ghost use Rattle.boc_runs.specs.Serial.{behaviour_of};
ghost use Rattle.boc_eval.specs.Queue.{QueueFits};
ghost use Rattle.boc_eval.specs.Wishes.{wish_of};
ghost use Rattle.boc_fronts.specs.Fronts.{IsLayer};
ghost use Rattle.boc_fronts.specs.Steps.{IsOpening, IsStep};
ghost use Rattle.boc_front_rows.specs.Lists.{list_at, wished};
ghost use Rattle.boc_front_rows.specs.Rows.{AreIn, AreLow, plains};
ghost use Rattle.boc_front_rows.specs.Seen.{front_of};
ghost use Rattle.boc_all_ends.specs.Spreading.{AreToTry};
ghost use Rattle.boc_all_ends.specs.Tabled.{IsTableOf};
ghost use Rattle.boc_all_ends.specs.Stepping.{CanStep, Grows, IsKept, ListsFit, Opens, Steps, StepsSo, TakesTurn};

use crate::running::run_at_once;
use crate::turn::Turn;
use boc_choices::chosen_places;
use boc_eval::{Spare, SpawnWish};
use boc_front_rows::{Arranged, Front, LiveRow, WishLists, Wished, spawned, without_done};
use boc_program::short::{Args, Cowns};
use boc_registers::compiled::CompiledProgram;
use boc_runs::values::initial_values;
use boc_sharp_footprints::{SharpFootprints, sharp_footprints_of};
use std::alloc::{AllocError, Global};

/// What makes the steps of a program's fronts.
#[derive(Drop)]
pub struct Stepper<'a> {
    pub program: &'a CompiledProgram<'a>,
    pub lists: WishLists,
    footprints: SharpFootprints,
    spare: Spare<'a>,
    ghost footprint: { IsTableOf program.now footprints },
}

// Adds the list of these wishes, and returns its number.
fn add_wishes(lists: &mut WishLists, mut wishes: Vec<SpawnWish>) -> Result<usize, AllocError>
    ensures grows { OnOk result (Grows lists.old lists.new) }
    ensures there { IfOk result (λ list. list < length lists.new) }
    ensures list { IfOk result (λ list. list_at lists.new list ≡ map behaviour_of (map wish_of wishes.items)) }
    ensures fits { OnOk result ((p : Program) → ListsFit p lists.old → QueueFits p (map behaviour_of (map wish_of wishes.items)) → ListsFit p lists.new) }
{
    let mut list = lists.empty();
    while let Some(wish) = wishes.pop() {
        list = lists.push(wished_by(wish), list)?;
    }
    Ok(list)
}

// Returns the cowns once more.
fn duplicate(cowns: &Cowns) -> Cowns
    ensures { result.items ≡ cowns.now.items }
{
    Cowns::try_from(cowns.as_slice()).unwrap()
}

// Returns the behaviour of a wish.
fn wished_by(wish: SpawnWish) -> Wished
    ensures { wished result ≡ behaviour_of (wish_of wish) }
{
    let SpawnWish {
        kind,
        args,
        cowns,
        ..
    } = wish;
    Wished { kind, args, cowns }
}

impl<'a> Stepper<'a> {
    /// Returns what makes the steps of a program's fronts, before the first. `AllocError` says that memory was refused.
    pub fn new(alloc: Global, program: &'a CompiledProgram<'a>) -> Result<Stepper<'a>, AllocError>
        ensures program { IfOk result (λ s. s.program.now ≡ program.now) }
        ensures lists { IfOk result (λ s. s.lists ≡ [] ∷ []) }
    {
        let footprints = sharp_footprints_of(alloc, program.program())?;
        Ok(Stepper {
            program,
            lists: WishLists::new(alloc),
            footprints,
            spare: Spare::default(),
        })
    }

    // Runs main at once, and returns the front with main as the only live row.
    fn main_alone(&mut self, alloc: Global) -> Result<Front, AllocError>
        requires { ListsFit self.old.program.now self.old.lists }
        ensures opens { IfOk result (λ f. IsOpening self.new.program.now (front_of self.new.lists f)) }
        ensures kept { IfOk result (λ f. IsKept self.new.lists 1 f) }
        ensures program { self.new.program.now ≡ self.old.program.now }
        ensures fits { OnOk result (ListsFit self.new.program.now self.new.lists) }
    {
        let mut values = initial_values(alloc, self.program.program().cowns.as_slice())?;
        let main = Wished {
            kind: 0,
            args: Args::new(),
            cowns: Cowns::new(),
        };
        let wishes = run_at_once(alloc, self.program, &mut self.spare, &main, &mut values)?;
        let mut live = Vec::new(alloc);
        live.push(LiveRow {
            wishes: add_wishes(&mut self.lists, wishes)?,
            before: Vec::new(alloc),
            claims: Vec::new(alloc),
        })?;
        Ok(Front { values, live })
    }

    /// Returns the front after main's spawn, and the places that its live rows had with main as the only one.
    pub fn first_arranged(&mut self, alloc: Global) -> Result<Arranged, AllocError>
        requires { ListsFit self.old.program.now self.old.lists }
        ensures opens { IfOk result (λ a. Opens self.new.program.now self.new.lists a) }
        ensures kept { IfOk result (λ a. IsKept self.new.lists 1 a.front) }
        ensures program { self.new.program.now ≡ self.old.program.now }
        ensures fits { OnOk result (ListsFit self.new.program.now self.new.lists) }
    {
        let front = self.main_alone(alloc)?;
        let arranged = without_done(alloc, &self.lists, front)?;
        Ok(arranged)
    }

    /// Returns the front after main's spawn.
    pub fn first(&mut self, alloc: Global) -> Result<Front, AllocError>
        requires { ListsFit self.old.program.now self.old.lists }
        ensures layer { IfOk result (λ f. IsLayer self.new.program.now 1 (front_of self.new.lists f ∷ [])) }
        ensures kept { IfOk result (λ f. IsKept self.new.lists 1 f) }
        ensures program { self.new.program.now ≡ self.old.program.now }
        ensures fits { OnOk result (ListsFit self.new.program.now self.new.lists) }
    {
        let arranged = self.first_arranged(alloc)?;
        Ok(arranged.front)
    }

    // Runs the next behaviour of the row at a place at once on the values.
    fn turn(&mut self, alloc: Global, front: &Front, place: usize) -> Result<Turn, AllocError>
        requires can { CanStep self.old.program.now self.old.lists front.now place }
        requires fits { ListsFit self.old.program.now self.old.lists }
        ensures turn { IfOk result (λ t. TakesTurn self.new.program.now self.old.lists front.now place t) }
        ensures program { self.new.program.now ≡ self.old.program.now }
        ensures lists { self.new.lists ≡ self.old.lists }
    {
        let Some((wish, rest)) = self.lists.split(front.live[place].wishes) else {
            unreachable!()
        };
        let mut values = Vec::from_slice(alloc, &front.values)?;
        let wishes = run_at_once(alloc, self.program, &mut self.spare, wish, &mut values)?;
        Ok(Turn {
            rest,
            cowns: duplicate(&wish.cowns),
            wishes,
            values,
        })
    }

    // Returns the front after the next spawn of the row at a place, which may leave rows that have no wish.
    fn spawn(&mut self, alloc: Global, front: &Front, place: usize) -> Result<Front, AllocError>
        requires can { CanStep self.old.program.now self.old.lists front.now place }
        requires few { length front.now.live.items < 65535 }
        requires fits { ListsFit self.old.program.now self.old.lists }
        ensures step { IfOk result (λ g. IsStep self.new.program.now (front_of self.old.lists front.now) place (front_of self.new.lists g)) }
        ensures there { IfOk result (λ g. AreIn self.new.lists (plains g.live.items)) }
        ensures low { IfOk result (λ g. AreLow (length g.live.items) (plains g.live.items)) }
        ensures many { IfOk result (λ g. length g.live.items ≡ length front.now.live.items + 1) }
        ensures program { self.new.program.now ≡ self.old.program.now }
        ensures grows { OnOk result (Grows self.old.lists self.new.lists) }
        ensures fits { OnOk result (ListsFit self.new.program.now self.new.lists) }
    {
        let Turn {
            rest,
            cowns,
            wishes,
            values,
        } = self.turn(alloc, front, place)?;
        let wishes = add_wishes(&mut self.lists, wishes)?;
        let live = spawned(alloc, &front.live, &cowns, place, rest, wishes)?;
        Ok(Front { values, live })
    }

    /// Returns the places of a front at which a search is to make its steps: those of the free rows of a closed set, or of all free rows.
    pub fn places_to_try(&self, alloc: Global, front: &Front) -> Result<Vec<u16>, AllocError>
        requires few { length front.now.live.items < 2 ^ 16 }
        requires there { AreIn self.now.lists (plains front.now.live.items) }
        requires low { AreLow (length front.now.live.items) (plains front.now.live.items) }
        requires fits { ListsFit self.now.program.now self.now.lists }
        ensures { IfOk result (λ places. AreToTry self.now.program.now (front_of self.now.lists front.now) places.items) }
    {
        chosen_places(alloc, &self.footprints, &self.lists, front)
    }

    /// Returns the front after the next spawn of the row at a place, without rows that have no wish, and the places that the others had with the new row last.
    pub fn step_arranged(
        &mut self,
        alloc: Global,
        front: &Front,
        place: usize,
    ) -> Result<Arranged, AllocError>
        requires can { CanStep self.old.program.now self.old.lists front.now place }
        requires few { length front.now.live.items < 65535 }
        requires fits { ListsFit self.old.program.now self.old.lists }
        ensures steps { IfOk result (λ a. StepsSo self.new.program.now self.old.lists front.now place self.new.lists a) }
        ensures kept { IfOk result (λ a. IsKept self.new.lists (length front.now.live.items + 1) a.front) }
        ensures program { self.new.program.now ≡ self.old.program.now }
        ensures grows { OnOk result (Grows self.old.lists self.new.lists) }
        ensures fits { OnOk result (ListsFit self.new.program.now self.new.lists) }
    {
        let spawned = self.spawn(alloc, front, place)?;
        without_done(alloc, &self.lists, spawned)
    }

    /// Returns the front after the next spawn of the row at a place, without rows that have no wish.
    pub fn step(&mut self, alloc: Global, front: &Front, place: usize) -> Result<Front, AllocError>
        requires can { CanStep self.old.program.now self.old.lists front.now place }
        requires few { length front.now.live.items < 65535 }
        requires fits { ListsFit self.old.program.now self.old.lists }
        ensures steps { IfOk result (λ g. Steps self.new.program.now self.old.lists front.now place self.new.lists g) }
        ensures kept { IfOk result (λ g. IsKept self.new.lists (length front.now.live.items + 1) g) }
        ensures program { self.new.program.now ≡ self.old.program.now }
        ensures grows { OnOk result (Grows self.old.lists self.new.lists) }
        ensures fits { OnOk result (ListsFit self.new.program.now self.new.lists) }
    {
        let arranged = self.step_arranged(alloc, front, place)?;
        Ok(arranged.front)
    }
}
