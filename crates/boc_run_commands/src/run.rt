// The command `run`.

ghost use Rattle.std.specs.Prelude.{◌≡◌, ◌<◌, ◌≤◌, length, None, IfErr, IfOk, MatchResult};
ghost use Rattle.std.specs.Option.{IsSomeAnd};
ghost use Rattle.boc_program.specs.declared.limits.TheConstants.{MOST_RUNNERS, MOST_TEXT};
ghost use Rattle.boc_runs.specs.Run.{config_of};
ghost use Rattle.boc_eval.specs.Instances.{AreRight};
ghost use Rattle.boc_run_commands.specs.Commands.{AnswersInput, Leaves, CountsSource, CountsSink, IsOfCourse, IsOfRun, IsOfTimed, RefusesRun};
ghost use Rattle.boc_run_commands.specs.Notes.{AreRunNotes, AreWanted, TellsRun};
ghost use Rattle.boc_run_commands.specs.Promises.{IsRunOf, IsRunOfText};
ghost use Rattle.boc_run_commands.specs.Schedules.{AreTimes, AreTimesBy, AreTimesText, FailsDrawn, IsDrawFault, IsDrawnBy, IsScheduled, IsScheduledText};
ghost use Rattle.boc_run_commands.specs.Schedules.{IsTimedBy};

use crate::fault::Fault;
use crate::notes::notes_on_run;
use crate::values::MOST_TAKEN;
use boc_busy::{TimedRows, timed_rows};
use boc_dispatch::Tell;
use boc_draws::{Depth, DrawFault, draw, way_of};
use boc_eval::ToldRow;
use boc_program::program::Program;
use boc_progress::Progress;
use boc_reader::read_listed;
use boc_record::write_record;
use boc_registers::compiled::CompiledProgram;
use boc_runs::record::Record;
use boc_text::{Sink, Source, read_all};
use boc_timed::{TimedRun, Timetable, timed_run};
use boc_words::{Runners, Schedule};
use boc_workers::{Gate, RunFault, run};
use std::alloc::Global;
use std::sync::Wait;
use std::thread::Threads;

/// Reads a program, runs it as the schedule says, by threads, as a seed draws or by workers that take ticks as time, and writes the record of the run. The
/// notes replace others, unless quiet is wanted.
///
/// A program text is refused only where it spells no program, for what is wrong with it and where. A run by threads is refused for having too many behaviours
/// only where the program can reach as many as there may be, with one more due; a gate that is always on holds no worker. A run that a seed draws is refused
/// only for having too many behaviours, and only where that very draw has, by these workers and at this depth, or the one by which the steps of the depth are
/// counted. A timed run is refused only where it has too many behaviours, or where its rows ran by no schedule of its workers that ends in time. No program is
/// known for which that is so. Nothing is written unless the whole answer is there. After a failing write a beginning of it went out. `progress` receives how
/// far a draw is; the gate sees the threads.
pub fn run_cmd<R: Threads + Wait + Sync, G: Gate, S: Source, W: Sink>(
    rt: &R,
    alloc: Global,
    schedule: Schedule,
    quiet: bool,
    gate: &G,
    progress: &mut dyn Progress,
    notes: &mut Vec<u8>,
    source: &mut S,
    sink: &mut W,
) -> Result<(), Fault>
    requires source { S.failures source.old < u64.MAX }
    requires sink { W.failures sink.old < u64.MAX }
    ensures written { Leaves (AnswersInput (TellsRun schedule quiet notes.new.items) (S.remaining source.old) (S.remaining source.new)) result
        (W.written sink.old) (W.written sink.new) }
    ensures refused { RefusesRun G.always_on schedule result (S.remaining source.old) (S.remaining source.new) }
    ensures source { CountsSource result (S.failures source.old) (S.failures source.new) }
    ensures sink { CountsSink result (W.failures sink.old) (W.failures sink.new) }
{
    let text = read_all(alloc, source, MOST_TAKEN)?;
    let noted = noted_run(rt, alloc, &text, schedule, quiet, gate, progress)?;
    *notes = noted.notes;
    write_record(alloc, &noted.record, sink)?;
    Ok(())
}

/// The record of a run, the notes on it, and when its rows ran, where ticks are time.
#[derive(Drop)]
pub(crate) struct NotedRun {
    pub(crate) record: Record,
    pub(crate) notes: Vec<u8>,
    pub(crate) times: Option<TimedRows>,
}

/// A run of the program that a text spells, by this schedule, with the notes on it.
pub(crate) fn noted_run<R: Threads + Wait + Sync, G: Gate>(
    rt: &R,
    alloc: Global,
    text: &[u8],
    schedule: Schedule,
    quiet: bool,
    gate: &G,
    progress: &mut dyn Progress,
) -> Result<NotedRun, Fault>
    ensures { MatchResult result
        (λ noted. IsRunOfText text.now noted.record × IsScheduledText text.now schedule noted.record
        × AreWanted quiet (AreRunNotes text.now noted.record) noted.notes.items × (length text.now ≤ MOST_TEXT)
        × AreTimesText text.now schedule noted.record.rows noted.times)
        (IsOfRun G.always_on schedule text.now) }
{
    let (program, defs) = read_listed(alloc, text)?;
    let tell = if quiet { Tell::Nothing } else { Tell::Faulted };
    let run = made_run(rt, alloc, &program, schedule, tell, gate, progress)?;
    let notes = notes_on_run(
        alloc,
        quiet,
        &program,
        defs,
        &run.record,
        &run.told,
        progress,
    )?;
    Ok(NotedRun {
        record: run.record,
        notes,
        times: run.times,
    })
}

/// A run of a program: its record, what it says of its rows, and when they ran, where ticks are time.
#[derive(Drop)]
pub(crate) struct MadeRun {
    pub(crate) record: Record,
    pub(crate) told: Vec<ToldRow>,
    pub(crate) times: Option<TimedRows>,
}

/// Returns a run of a program by this schedule. `tell` chooses the rows of which the run says what they are. Where ticks are time, it is
/// checked that the rows ran by a schedule that ends in time. If not, that is a fault; no program is known for which it is so.
pub(crate) fn made_run<R: Threads + Wait + Sync, G: Gate>(
    rt: &R,
    alloc: Global,
    program: &Program,
    schedule: Schedule,
    tell: Tell,
    gate: &G,
    progress: &mut dyn Progress,
) -> Result<MadeRun, Fault>
    ensures run { IfOk result (λ r. IsRunOf program.now r.record) }
    ensures scheduled { IfOk result (λ r. IsScheduled program.now schedule r.record) }
    ensures times { IfOk result (λ r. AreTimes program.now schedule r.record.rows r.times) }
    ensures told { IfOk result (λ r. AreRight (config_of program.now r.record.events).members r.told.items) }
    ensures failed { IfErr result (IsOfCourse G.always_on program.now schedule) }
{
    match schedule {
        Schedule::Threads(runners) => {
            let answer = run(rt, alloc, program, runners.number(), tell, gate)?;
            // For the proof alone, and free: that the record's rows are those of its events.
            let _rows = answer.record.rows();
            Ok(MadeRun {
                record: answer.record,
                told: answer.told,
                times: None,
            })
        }
        Schedule::Drawn {
            workers,
            seed,
            depth,
        } => {
            let made = drawn(alloc, program, workers, seed, depth, tell, progress)?;
            Ok(made)
        }
        Schedule::Timed(workers) => {
            let made = timed(alloc, program, workers.number(), tell, progress)?;
            Ok(made)
        }
    }
}

// Returns the run that a seed draws for these workers, at this depth where there is one.
fn drawn(
    alloc: Global,
    program: &Program,
    workers: Runners,
    seed: u64,
    depth: Option<Depth>,
    tell: Tell,
    progress: &mut dyn Progress,
) -> Result<MadeRun, RunFault>
    ensures run { IfOk result (λ r. IsRunOf program.now r.record) }
    ensures drawn { IfOk result (λ r. IsDrawnBy program.now workers seed depth r.record) }
    ensures times { IfOk result (λ r. r.times ≡ None) }
    ensures told { IfOk result (λ r. AreRight (config_of program.now r.record.events).members r.told.items) }
    ensures failed { IfErr result (FailsDrawn program.now workers seed depth) }
{
    match draw_at_depth(
        alloc,
        program,
        workers.number(),
        seed,
        depth,
        tell,
        progress,
    ) {
        Ok(made) => Ok(made),
        Err(DrawFault::Behaviours) => Err(RunFault::Behaviours),
        Err(DrawFault::Memory) => Err(RunFault::Memory),
    }
}

// The same, or how the draw ends.
fn draw_at_depth(
    alloc: Global,
    program: &Program,
    workers: u32,
    seed: u64,
    depth: Option<Depth>,
    tell: Tell,
    progress: &mut dyn Progress,
) -> Result<MadeRun, DrawFault>
    requires { (1 ≤ workers) × (workers ≤ MOST_RUNNERS) }
    ensures run { IfOk result (λ r. IsRunOf program.now r.record) }
    ensures drawn { IfOk result (λ r. IsDrawnBy program.now workers seed depth r.record) }
    ensures times { IfOk result (λ r. r.times ≡ None) }
    ensures told { IfOk result (λ r. AreRight (config_of program.now r.record.events).members r.told.items) }
    ensures failed { IfErr result (IsDrawFault program.now workers seed depth) }
{
    let compiled = CompiledProgram::new(alloc, program)?;
    let way = way_of(alloc, &compiled, workers, depth, progress)?;
    let drawn = draw(alloc, &compiled, workers, way, seed, tell, progress)?;
    Ok(MadeRun {
        record: drawn.record,
        told: drawn.told,
        times: None,
    })
}

// Returns the run of N workers that take ticks as time, and when its rows ran, if that is a schedule that ends in time.
fn timed(
    alloc: Global,
    program: &Program,
    workers: u32,
    tell: Tell,
    progress: &mut dyn Progress,
) -> Result<MadeRun, Fault>
    requires { (1 ≤ workers) × (workers ≤ MOST_RUNNERS) }
    ensures run { IfOk result (λ r. IsRunOf program.now r.record) }
    ensures timed { IfOk result (λ r. IsTimedBy program.now workers r.record) }
    ensures times { IfOk result (λ r. IsSomeAnd r.times (AreTimesBy program.now workers r.record.rows)) }
    ensures told { IfOk result (λ r. AreRight (config_of program.now r.record.events).members r.told.items) }
    ensures failed { IfErr result (IsOfTimed program.now workers) }
{
    let compiled = CompiledProgram::new(alloc, program)?;
    let run = timed_run(alloc, &compiled, workers, tell, progress)?;
    let TimedRun {
        record,
        timetable,
        told,
        ..
    } = run;
    let Timetable {
        starts,
        workers: on,
        ..
    } = timetable;
    match timed_rows(alloc, record.rows(), workers, starts, on)? {
        Some(times) => Ok(MadeRun {
            record,
            told,
            times: Some(times),
        }),
        None => Err(Fault::Unscheduled),
    }
}
