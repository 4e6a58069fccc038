// A timed run, turn by turn.

ghost use Rattle.std.specs.Prelude.{◌≡◌, ◌≢◌, ◌<◌, ◌≤◌, ◌^◌, ℕ, [], Err, IfOk, OnOk};
ghost use Rattle.boc_program.specs.declared.limits.TheConstants.{MOST_RUNNERS};
ghost use Rattle.boc_runs.specs.Run.{config_of};
ghost use Rattle.boc_runs.specs.machine.Sound.{IsSound};
ghost use Rattle.boc_runs.specs.machine.Steps.{members};
ghost use Rattle.boc_runs.specs.machine.Turns.{TakesTurn};
ghost use Rattle.boc_eval.specs.Instances.{AreRight};
ghost use Rattle.boc_dispatch.specs.declared.interleaving.DriveFault.TheVariants.{NoSuchWorker};
ghost use Rattle.boc_dispatch.specs.Calls.{HasNoRoom};
ghost use Rattle.boc_dispatch.specs.Driving.{HandFits};
ghost use Rattle.boc_dispatch.specs.NextCalls.{TellsCallOf};
ghost use Rattle.boc_dispatch.specs.Working.{row_in};
ghost use Rattle.boc_timed.specs.declared.fault.TimedFault.TheVariants.{Behaviours};
ghost use Rattle.boc_timed.specs.Timed.{EndsBy, IsTimed, Plays};
ghost use Rattle.boc_timed.specs.Timetables.{IsEven, NotesStart};

use crate::fault::TimedFault;
use crate::timetable::Timetable;
use boc_clock::Clocks;
use boc_dispatch::{Dispatcher, DriveFault, Tell, Worker, idle_crew, take_told_turn};
use boc_draws::movers_of;
use boc_eval::ToldRow;
use boc_progress::Progress;
use boc_registers::compiled::CompiledProgram;
use boc_runs::record::Record;
use std::alloc::{AllocError, Global};

// Progress is reported once in this many steps.
const STRETCH: u64 = 256;

/// The record of a timed run, the values of the cowns at its end, how many steps were made, when rows started, and what they are.
#[derive(Drop)]
pub struct TimedRun {
    pub record: Record,
    pub values: Vec<i64>,
    pub steps: u64,
    /// When each row started, and on which worker.
    pub timetable: Timetable,
    /// What rows are, in the order in which they ended. A clause says that each of them is what is written here; which rows are here no clause says.
    pub told: Vec<ToldRow>,
}

/// Runs a program by the given number of virtual workers on this thread, which take ticks as time. Calls of the dispatcher take no time. A worker is busy with
/// a row from the row's start to its last release, and makes each call as many ticks after the start as the row's body has counted then. At each turn the
/// worker with the earliest time makes its step, of those that can move. At one time those that are busy come before those that are idle, and then smaller
/// numbers before greater ones. The run ends once all has finished; or by a fault, if that worker wishes for one behaviour too many. `tell` chooses the rows
/// whose behaviours are listed. `progress` receives at every 256th step how many are made, of a number that is not known.
pub fn timed_run(
    alloc: Global,
    program: &CompiledProgram<'_>,
    workers: u32,
    tell: Tell,
    progress: &mut dyn Progress,
) -> Result<TimedRun, TimedFault>
    requires { (1 ≤ workers) × (workers ≤ MOST_RUNNERS) }
    ensures timed { IsTimed program.now workers result }
    ensures told { IfOk result (λ d. AreRight (config_of program.now d.record.events).members d.told.items) }
    ensures even { IfOk result (λ d. IsEven d.timetable) }
{
    let mut told = Vec::new(alloc);
    let mut timetable = Timetable::new(alloc, workers);
    let core = play(
        alloc,
        program,
        workers,
        tell,
        &mut timetable,
        &mut told,
        progress,
    )?;
    let values = Vec::from_slice(alloc, core.values())?;
    let steps = core.steps();
    match core.into_record() {
        Ok(record) => {
            // For the proof alone, and free: that the record's rows are those of its events.
            let _rows = record.rows();
            Ok(TimedRun {
                record,
                values,
                steps,
                timetable,
                told,
            })
        }
        Err(_) => unreachable!(),
    }
}

// Returns the dispatcher once all has finished, after the turns of the workers that come first. What rows are is listed in the order of their ends, and when
// each started is noted.
fn play<'a>(
    alloc: Global,
    program: &'a CompiledProgram<'a>,
    workers: u32,
    tell: Tell,
    timetable: &mut Timetable,
    told: &mut Vec<ToldRow>,
    progress: &mut dyn Progress,
) -> Result<Dispatcher<'a>, TimedFault>
    requires workers { (1 ≤ workers) × (workers ≤ MOST_RUNNERS) }
    requires none_told { told.old.items ≡ [] }
    requires even { IsEven timetable.old }
    requires p_is { timetable.old.p ≡ workers }
    requires none_noted { timetable.old.starts.items ≡ [] }
    ensures plays { Plays program.now workers timetable.new result }
    ensures told { IfOk result (λ core. AreRight (members core.program core.state) told.new.items) }
    ensures even { IfOk result (λ core. IsEven timetable.new) }
{
    let mut clocks = Clocks::new();
    let mut crew = idle_crew(alloc, workers)?;
    let mut core = Dispatcher::new(alloc, program)?;
    'turns: while !core.is_quiet() {
        let made = core.steps();
        if made % STRETCH == 0 {
            progress.done(made as usize, 0);
        }
        let movers = movers_of(&crew, &core);
        let worker = movers[clocks.first(made, &movers)];
        let mover = &mut crew[worker as usize];
        let was_idle = mover.row().is_none();
        let call = match take_timed_turn(alloc, mover, &mut core, tell, told) {
            Ok(call) => call,
            Err(fault) => return Err(fault),
        };
        let row = mover.row();
        let time = clocks.time_of(worker);
        note_start(timetable, was_idle, row, time, worker)?;
        clocks.move_on(made, worker, row.is_some(), call);
    }
    let all = core.steps() as usize;
    progress.done(all, all);
    Ok(core)
}

// Notes when a worker starts the row that it serves, if it was idle.
fn note_start(
    timetable: &mut Timetable,
    was_idle: bool,
    row: Option<u32>,
    time: u64,
    worker: u32,
) -> Result<(), AllocError>
    requires even { IsEven timetable.old }
    requires low { time < 2 ^ 62 }
    ensures even { OnOk result (IsEven timetable.new) }
    ensures noted { OnOk result (NotesStart timetable.old was_idle row time worker timetable.new) }
{
    match row {
        Some(row) if was_idle => timetable.note(row, time, worker),
        _ => Ok(()),
    }
}

// Lets a worker make one turn, and think on to its next call; and returns at how many ticks of its row that is, where one begins.
fn take_timed_turn<'a>(
    alloc: Global,
    worker: &mut Worker<'a>,
    core: &mut Dispatcher<'a>,
    tell: Tell,
    told: &mut Vec<ToldRow>,
) -> Result<Option<u32>, TimedFault>
    requires sound { IsSound core.old.program core.old.state }
    requires fits { HandFits core.old worker.old.hand }
    ensures turn { IfOk result (λ call. TakesTurn core.old.program core.old.state (row_in worker.old.hand) core.new.state (row_in worker.new.hand)) }
    ensures program { IfOk result (λ call. core.new.program ≡ core.old.program) }
    ensures fits { IfOk result (λ call. HandFits core.new worker.new.hand) }
    ensures call { IfOk result (TellsCallOf core.new.program core.new.state (row_in worker.new.hand)) }
    ensures right { IfOk result (λ call. AreRight (members core.old.program core.old.state) told.old.items
        → AreRight (members core.new.program core.new.state) told.new.items) }
    ensures full { result ≡ Err Behaviours → HasNoRoom core.old (row_in worker.old.hand) }
{
    if let Err(fault) = take_told_turn(alloc, worker, core, tell, told) {
        return Err(fault_of(fault));
    }
    worker.think(alloc)?;
    Ok(worker.call_at())
}

// Returns the fault of a timed run where a turn has this one.
fn fault_of(fault: DriveFault) -> TimedFault
    requires { (place : ℕ) → fault ≢ NoSuchWorker place }
    ensures { EndsBy fault result }
{
    match fault {
        DriveFault::Behaviours => TimedFault::Behaviours,
        DriveFault::Memory => TimedFault::Memory,
        DriveFault::NoSuchWorker { place: _ } => unreachable!(),
    }
}
