// A draw.

ghost use Rattle.std.specs.Prelude.{◌≡◌, ◌≢◌, ℕ, ◌≤◌, [], IfOk};
ghost use Rattle.boc_program.specs.declared.limits.TheConstants.{MOST_RUNNERS};
ghost use Rattle.boc_runs.specs.Run.{config_of};
ghost use Rattle.boc_runs.specs.machine.Steps.{members};
ghost use Rattle.boc_eval.specs.Instances.{AreRight};
ghost use Rattle.boc_dispatch.specs.declared.interleaving.DriveFault.TheVariants.{NoSuchWorker};
ghost use Rattle.boc_draws.specs.Draws.{EndsBy, IsDraw, Plays};

use crate::fault::DrawFault;
use crate::movers::movers_of;
use crate::picker::Picker;
use crate::way::Way;
use boc_dispatch::{Dispatcher, DriveFault, Tell, idle_crew, take_told_turn};
use boc_eval::ToldRow;
use boc_progress::Progress;
use boc_registers::compiled::CompiledProgram;
use boc_runs::record::Record;
use std::alloc::Global;

// Progress is reported once in this many steps.
const STRETCH: u64 = 256;

/// The record of a run that was drawn, the values of the cowns at its end, how many steps were made, and what its rows are.
#[derive(Drop)]
pub struct Drawn {
    pub record: Record,
    pub values: Vec<i64>,
    pub steps: u64,
    /// What rows are, in the order in which they ended. A clause says that each row is what is said of it; which rows are there no clause says.
    pub told: Vec<ToldRow>,
}

/// Runs a program with this many virtual workers on this thread. At each turn one of those that can move is picked in this way, by
/// the words that the seed gives. It thinks where that comes next, and makes its step; and so on until all has ended. Where the one
/// that is picked can't make its step, since the run has as many behaviours as it may have, the draw ends by that fault.
/// `tell` chooses the rows of which the draw says what they are. `progress` receives at every 256th step how many are made, of a number that is not known.
pub fn draw(
    alloc: Global,
    program: &CompiledProgram<'_>,
    workers: u32,
    way: Way,
    seed: u64,
    tell: Tell,
    progress: &mut dyn Progress,
) -> Result<Drawn, DrawFault>
    requires { (1 ≤ workers) × (workers ≤ MOST_RUNNERS) }
    ensures draw { IsDraw program.now workers way seed result }
    ensures told { IfOk result (λ d. AreRight (config_of program.now d.record.events).members d.told.items) }
{
    let mut told = Vec::new(alloc);
    let core = play(
        alloc, program, workers, way, seed, tell, &mut told, progress,
    )?;
    let values = Vec::from_slice(alloc, core.values())?;
    let steps = core.steps();
    match core.into_record() {
        Ok(record) => {
            // For the proof alone, and free: that the record's rows are those that its events tell.
            let _rows = record.rows();
            Ok(Drawn {
                record,
                values,
                steps,
                told,
            })
        }
        Err(_) => unreachable!(),
    }
}

// Returns the dispatcher where all has ended, after the turns of all workers that are picked. What the chosen rows are is appended as they end.
fn play<'a>(
    alloc: Global,
    program: &'a CompiledProgram<'a>,
    workers: u32,
    way: Way,
    seed: u64,
    tell: Tell,
    told: &mut Vec<ToldRow>,
    progress: &mut dyn Progress,
) -> Result<Dispatcher<'a>, DrawFault>
    requires workers { (1 ≤ workers) × (workers ≤ MOST_RUNNERS) }
    requires none_told { told.old.items ≡ [] }
    ensures plays { Plays program.now workers way seed result }
    ensures told { IfOk result (λ core. AreRight (members core.program core.state) told.new.items) }
{
    let mut picker = Picker::new(way, workers, seed);
    let mut crew = idle_crew(alloc, workers)?;
    let mut core = Dispatcher::new(alloc, program)?;
    'turns: while !core.is_quiet() {
        let made = core.steps();
        if made % STRETCH == 0 {
            progress.done(made as usize, 0);
        }
        let movers = movers_of(&crew, &core);
        let worker = picker.pick(made, &movers);
        let mover = &mut crew[worker as usize];
        if let Err(fault) = take_told_turn(alloc, mover, &mut core, tell, told) {
            return Err(fault_of(fault));
        }
    }
    let all = core.steps() as usize;
    progress.done(all, all);
    Ok(core)
}

// The fault of a draw where a turn has this one.
fn fault_of(fault: DriveFault) -> DrawFault
    requires { (place : ℕ) → fault ≢ NoSuchWorker place }
    ensures { EndsBy fault result }
{
    match fault {
        DriveFault::Behaviours => DrawFault::Behaviours,
        DriveFault::Memory => DrawFault::Memory,
        DriveFault::NoSuchWorker { place: _ } => unreachable!(),
    }
}
