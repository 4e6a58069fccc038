//! A program driven by a list of choices: any interleaving of its steps, made on one thread.

ghost use Rattle.std.specs.Prelude.{◌≡◌, ◌≢◌, ◌↔◌, ℕ, ◌<◌, [], None, Some, Err, IfOk, OnOk, IsTrue, MatchOption, map, replicate, slice_get};
ghost use Rattle.boc_dispatch.specs.declared.worker.Worker.{Worker};
ghost use Rattle.boc_dispatch.specs.Driving.{Drives, DrivesQuiet, EndsFor, HandFits, HasPlayed, row_for};

use crate::calls::{Mover, OpenFault, Tell};
use crate::dispatcher::{Core, Dispatcher, cown_count};
use crate::worker::{Refusal, Turn, Worker};
use boc_chain::{Chains, LinkChains};
use boc_eval::ToldRow;
use boc_program::limits::MOST_ROWS;
use boc_registers::compiled::CompiledProgram;
use std::alloc::{AllocError, Global};
use thiserror::Error;

// The text of a fault names this number.
const _: () = prove!(MOST_ROWS == 65_535);

/// Why a drive ends before its last choice.
#[derive(Clone, Copy, PartialEq, Eq, Debug, Error)]
pub enum DriveFault {
    /// The choice at this place is no worker's number.
    #[error("the choice at place {place} is no worker's number")]
    NoSuchWorker { place: usize },
    /// The run has as many behaviours as it may have, and one more was wished for.
    #[error("more than 65,535 behaviours")]
    Behaviours,
    /// Memory was refused.
    #[error("out of memory")]
    Memory,
}

impl From<AllocError> for DriveFault {
    ghost use Rattle.boc_dispatch.specs.declared.interleaving.DriveFault.TheVariants.{Memory};

    ghost from_gives = { λ _ fault. fault ≡ Memory };

    fn from(_error: AllocError) -> DriveFault {
        DriveFault::Memory
    }
}

ghost use Rattle.boc_runs.specs.machine.Sound.{IsSound};
ghost use Rattle.boc_runs.specs.machine.Turns.{TakesTurn};
ghost use Rattle.boc_program.specs.Programs.{cown_count as cowns_of};
ghost use Rattle.boc_dispatch.specs.declared.interleaving.DriveFault.{DriveFault};
ghost use Rattle.boc_dispatch.specs.declared.worker.Hand.TheVariants as hands;
ghost use Rattle.boc_runs.specs.machine.Steps.{members};
ghost use Rattle.boc_dispatch.specs.Calls.{HasNoRoom};
ghost use Rattle.boc_eval.specs.Instances.{AreRight};
ghost use Rattle.boc_dispatch.specs.Told.{TellsThinking};
ghost use Rattle.boc_dispatch.specs.Working.{row_in};

/// Drives a program with the given number of workers, of which none serves a row at first. Each choice is the number of a worker, which thinks if it has to,
/// and then makes one turn.
pub fn drive<'a>(
    alloc: Global,
    program: &'a CompiledProgram<'a>,
    workers: u32,
    choices: &[u16],
) -> Result<Dispatcher<'a>, DriveFault>
    ensures { Drives program.now workers choices.now result }
{
    let chains = LinkChains::new(alloc, cown_count(program.program()))?;
    drive_over(alloc, program, chains, workers, choices)
}

/// Does the same over chains of either kind.
pub fn drive_over<'a, C: Chains + Drop>(
    alloc: Global,
    program: &'a CompiledProgram<'a>,
    chains: C,
    workers: u32,
    choices: &[u16],
) -> Result<Core<'a, C>, DriveFault>
    requires empty { C.lists chains ≡ replicate (cowns_of program.now.cowns) [] }
    requires none { (slot : ℕ) → C.place chains slot ≡ None }
    ensures { Drives program.now workers choices.now result }
{
    match play(alloc, program, chains, workers, choices) {
        Ok((_, core)) => Ok(core),
        Err(fault) => Err(fault),
    }
}

/// Drives a program by the choices as `drive` does, and then on until it is quiet. Each further choice is the worker that
/// serves the mover that `movable` names, and makes a step; a row that is to start is started by the first worker that serves none.
pub fn drive_quiet<'a>(
    alloc: Global,
    program: &'a CompiledProgram<'a>,
    workers: u32,
    choices: &[u16],
) -> Result<Dispatcher<'a>, DriveFault>
    ensures { DrivesQuiet program.now workers choices.now result }
{
    let chains = LinkChains::new(alloc, cown_count(program.program()))?;
    drive_quiet_over(alloc, program, chains, workers, choices)
}

/// Does the same over chains of either kind.
pub fn drive_quiet_over<'a, C: Chains + Drop>(
    alloc: Global,
    program: &'a CompiledProgram<'a>,
    chains: C,
    workers: u32,
    choices: &[u16],
) -> Result<Core<'a, C>, DriveFault>
    requires empty { C.lists chains ≡ replicate (cowns_of program.now.cowns) [] }
    requires none { (slot : ℕ) → C.place chains slot ≡ None }
    ensures { DrivesQuiet program.now workers choices.now result }
{
    let (mut crew, mut core) = match play(alloc, program, chains, workers, choices) {
        Ok(at) => at,
        Err(fault) => return Err(fault),
    };
    while let Some(mover) = core.movable() {
        let Some(server) = server_of(&crew, mover) else {
            return Err(DriveFault::NoSuchWorker {
                place: choices.len(),
            });
        };
        take_turn(alloc, &mut crew[server], &mut core)?;
    }
    Ok(core)
}

// Returns the workers and the dispatcher after the turns of all choices.
fn play<'a, C: Chains + Drop>(
    alloc: Global,
    program: &'a CompiledProgram<'a>,
    chains: C,
    workers: u32,
    choices: &[u16],
) -> Result<(Vec<Worker<'a>>, Core<'a, C>), DriveFault>
    requires empty { C.lists chains ≡ replicate (cowns_of program.now.cowns) [] }
    requires none { (slot : ℕ) → C.place chains slot ≡ None }
    ensures { HasPlayed program.now workers choices.now result }
{
    let mut crew = idle_crew(alloc, workers)?;
    let mut core = Core::over(alloc, program, chains)?;
    for (place, choice) in choices.iter().enumerate() {
        let chosen = *choice as usize;
        if chosen >= crew.len() {
            return Err(DriveFault::NoSuchWorker { place });
        }
        take_turn(alloc, &mut crew[chosen], &mut core)?;
    }
    Ok((crew, core))
}

// Returns the first worker that serves this mover; or that serves no row, where a row is to start.
fn server_of(crew: &[Worker<'_>], mover: Mover) -> Option<usize>
    ensures { MatchOption result
        ((k : ℕ) (w : Worker) → slice_get crew.now k ≡ Some w → row_in w.hand ≢ row_for mover)
        (λ k. (w : Worker) × (slice_get crew.now k ≡ Some w) × (row_in w.hand ≡ row_for mover)
        × ((j : ℕ) → j < k → (v : Worker) → slice_get crew.now j ≡ Some v → row_in v.hand ≢ row_for mover)) }
{
    for (number, worker) in crew.iter().enumerate() {
        if serves(worker, mover) {
            return Some(number);
        }
    }
    None
}

// Returns whether a worker must take the turn of this mover.
fn serves(worker: &Worker<'_>, mover: Mover) -> bool
    ensures { IsTrue result ↔ (row_in worker.now.hand ≡ row_for mover) }
{
    let row = match mover {
        Mover::Ready(_) => None,
        Mover::Running(row) => Some(row),
        Mover::Enqueuing(child) => Some(child.row),
        Mover::Leaving(leaving) => Some(leaving.row),
    };
    worker.row() == row
}

/// Returns the given number of workers, which serve no row yet.
pub fn idle_crew<'a>(alloc: Global, workers: u32) -> Result<Vec<Worker<'a>>, AllocError>
    ensures { IfOk result (λ crew. map (λ worker. worker.hand) crew.items ≡ replicate workers hands.Nothing) }
{
    let mut crew = Vec::with_capacity(alloc, workers as usize)?;
    for number in 0..workers {
        crew.push_reserved(Worker::new(number));
    }
    Ok(crew)
}

/// Lets a worker think if it has to, and make one turn.
pub fn take_turn<'a, C: Chains + Drop>(
    alloc: Global,
    worker: &mut Worker<'a>,
    core: &mut Core<'a, C>,
) -> Result<(), DriveFault>
    requires sound { IsSound core.old.program core.old.state }
    requires fits { HandFits core.old worker.old.hand }
    ensures turn { OnOk result (TakesTurn core.old.program core.old.state (row_in worker.old.hand)
        core.new.state (row_in worker.new.hand)) }
    ensures program { OnOk result (core.new.program ≡ core.old.program) }
    ensures fits { OnOk result (HandFits core.new worker.new.hand) }
    ensures full { result ≡ Err DriveFault.Behaviours → HasNoRoom core.old (row_in worker.old.hand) }
    ensures served { (place : ℕ) → result ≢ Err (DriveFault.NoSuchWorker place) }
{
    let mut told = Vec::new(alloc);
    take_told_turn(alloc, worker, core, Tell::Nothing, &mut told)
}

/// Does the same. If the row's end comes next and what the row is has to be reported, the worker first appends that to what was reported before.
pub fn take_told_turn<'a, C: Chains + Drop>(
    alloc: Global,
    worker: &mut Worker<'a>,
    core: &mut Core<'a, C>,
    tell: Tell,
    told: &mut Vec<ToldRow>,
) -> Result<(), DriveFault>
    requires sound { IsSound core.old.program core.old.state }
    requires fits { HandFits core.old worker.old.hand }
    ensures turn { OnOk result (TakesTurn core.old.program core.old.state (row_in worker.old.hand)
        core.new.state (row_in worker.new.hand)) }
    ensures program { OnOk result (core.new.program ≡ core.old.program) }
    ensures fits { OnOk result (HandFits core.new worker.new.hand) }
    ensures told { OnOk result (TellsThinking tell core.old worker.old.hand told.old.items told.new.items) }
    ensures right { OnOk result (AreRight (members core.old.program core.old.state) told.old.items
        → AreRight (members core.new.program core.new.state) told.new.items) }
    ensures full { result ≡ Err DriveFault.Behaviours → HasNoRoom core.old (row_in worker.old.hand) }
    ensures served { (place : ℕ) → result ≢ Err (DriveFault.NoSuchWorker place) }
{
    worker.think(alloc)?;
    worker.tell_ending(core, tell, told)?;
    match worker.turn(core) {
        Turn::Moved(_) | Turn::Blocked | Turn::NoneReady | Turn::Quiet => Ok(()),
        Turn::Refused(refusal) => Err(fault_of(refusal)),
        Turn::Thinks => unreachable!(),
    }
}

// Returns the fault with which a drive ends where a call is refused for this.
fn fault_of(refusal: Refusal) -> DriveFault
    requires { (fault : DriveFault) × EndsFor refusal fault }
    ensures { EndsFor refusal result }
{
    match refusal {
        Refusal::Open(OpenFault::Behaviours) => DriveFault::Behaviours,
        Refusal::Open(OpenFault::Memory) => DriveFault::Memory,
        _ => unreachable!(),
    }
}
