// The command `sweep`.

ghost use Rattle.std.specs.Prelude.{◌≡◌, ◌<◌, ◌≤◌, length, Err, IfOk, true};
ghost use Rattle.boc_program.specs.declared.limits.TheConstants.{MOST_ROWS};
ghost use Rattle.boc_plans.specs.Seen.{seen};
ghost use Rattle.boc_program.specs.declared.limits.TheConstants.{MOST_COWNS};
ghost use Rattle.boc_run_commands.specs.Answers.{AreSwept, IsSweepAnswer, first_of};
ghost use Rattle.boc_run_commands.specs.Commands.{AnswersInput, Leaves, CountsSource, CountsSink, RefusesRecord};
ghost use Rattle.boc_run_commands.specs.NamedRuns.{RefusesRenamed};
ghost use Rattle.boc_plan_commands.specs.ProgramInputs.{IsOfProgramRun, RefusesEither};
ghost use Rattle.boc_plan_commands.specs.SweepAnswers.{AnswersSweep, IsNamedSweep, IsRecordSweep, RefusesSweep, are_named};

use crate::best::best_cmd;
use crate::program_input::{Setting, Supplied, run_of_program};
use crate::swept_run::swept_run;
use boc_input::{TakesBack, program_taken};
use boc_plans::sharing::Sharing;
use boc_plans::sweep::Sweep;
use boc_progress::Progress;
use boc_record::read_counted;
use boc_report::write_sweep;
use boc_run_commands::Fault;
use boc_run_commands::measured::measured_run;
use boc_run_commands::named_run::renamed_record;
use boc_text::{Sink, Source};
use boc_whatif::WhatIf;
use boc_words::AskedSweep;
use boc_workers::Gate;
use std::alloc::{AllocError, Global};
use std::sync::Wait;
use std::thread::Threads;

/// Reads a program, which it runs, or the text of a record, as the first token says, and writes for each row, cown or spawn of the run the tick at
/// which all rows would end if that one alone were changed: if the row took the fewest ticks that it can, the cown imposed no order, or the row
/// were spawned as early as it can be. That is the end of the earliest plan, which is the span, or, where a number of workers is given, of the
/// greedy plan for them. Plans see the rows as they share cowns in this way. Where that is requested, it writes the soonest ones alone, this many at
/// most, and of equal ones those with the smallest numbers first; each with by how much it is sooner than the plan ends as it is. With names in the
/// file given with the input, or for a program of which the soonest ones are requested, each line has what the row or the cown is called.
///
/// A program is refused as by `run`; the text of a record at its first faulty line, and only where it is no record's; and a file as its kind is. Nothing is
/// written unless the whole answer is ready. After a failing write a beginning of it went out. The ends are found in threads, where there
/// are rows enough to be worth them; the ends of greedy plans take long, and `progress` receives how many are found.
pub fn sweep_cmd<R: Threads + Wait + Sync, G: Gate, S: TakesBack, W: Sink>(
    rt: &R,
    alloc: Global,
    asked: AskedSweep,
    supplied: Supplied,
    bytes: Vec<u8>,
    gate: &G,
    progress: &mut dyn Progress,
    source: &mut S,
    sink: &mut W,
) -> Result<(), Fault>
    requires source { S.failures source.old < u64.MAX }
    requires sink { W.failures sink.old < u64.MAX }
    ensures written { Leaves (AnswersInput (AnswersSweep asked supplied bytes.items) (S.remaining source.old) (S.remaining source.new)) result
        (W.written sink.old) (W.written sink.new) }
    ensures refused { RefusesEither (λ fault before. RefusesSweep {A = Unit {0}} supplied bytes.items (Err fault) before)
        (IsOfProgramRun G.always_on asked.schedule supplied bytes.items) result (S.remaining source.old) (S.remaining source.new) }
    ensures source { CountsSource result (S.failures source.old) (S.failures source.new) }
    ensures sink { CountsSink result (W.failures sink.old) (W.failures sink.new) }
{
    let named = are_named(&asked, supplied);
    let found = program_taken(alloc, source)?;
    let Some(text) = found else {
        return record_sweep(rt, alloc, asked, supplied, &bytes, progress, source, sink);
    };
    let setting = Setting {
        schedule: asked.schedule,
        supplied,
        bytes,
    };
    let run = run_of_program(rt, alloc, text, setting, gate, progress)?;
    let measured = measured_run(alloc, asked.typical, run)?;
    swept_run(rt, alloc, asked, named, measured, progress, sink)
}

// Returns whether the lines of a sweep over the run of a program have what their rows or cowns are called.
fn are_named(asked: &AskedSweep, supplied: Supplied) -> bool
    ensures { result ≡ are_named asked.now supplied }
{
    asked.best.is_some() || supplied == Supplied::Names
}

// Does the same with the text of a record, by the names in the file given with it, if it has such.
fn record_sweep<R: Threads + Sync, S: Source, W: Sink>(
    rt: &R,
    alloc: Global,
    asked: AskedSweep,
    supplied: Supplied,
    bytes: &[u8],
    progress: &mut dyn Progress,
    source: &mut S,
    sink: &mut W,
) -> Result<(), Fault>
    requires source { S.failures source.old < u64.MAX }
    requires sink { W.failures sink.old < u64.MAX }
    ensures written { Leaves (AnswersInput (IsRecordSweep asked supplied bytes.now) (S.remaining source.old) (S.remaining source.new)) result
        (W.written sink.old) (W.written sink.new) }
    ensures refused { RefusesSweep supplied bytes.now result (S.remaining source.old) }
    ensures source { CountsSource result (S.failures source.old) (S.failures source.new) }
    ensures sink { CountsSink result (W.failures sink.old) (W.failures sink.new) }
{
    match (supplied, asked.best) {
        (Supplied::Names, _) => named_sweep(rt, alloc, asked, bytes, progress, source, sink),
        (_, None) => plain_sweep(
            rt,
            alloc,
            &asked.over,
            asked.sharing,
            progress,
            source,
            sink,
        ),
        (_, Some(most)) => {
            best_cmd(
                rt,
                alloc,
                &asked.over,
                most,
                asked.sharing,
                progress,
                source,
                sink,
            )
        }
    }
}

// Does the same with the text of a record, by the names that a file gives to its rows and cowns.
fn named_sweep<R: Threads + Sync, S: Source, W: Sink>(
    rt: &R,
    alloc: Global,
    asked: AskedSweep,
    file: &[u8],
    progress: &mut dyn Progress,
    source: &mut S,
    sink: &mut W,
) -> Result<(), Fault>
    requires source { S.failures source.old < u64.MAX }
    requires sink { W.failures sink.old < u64.MAX }
    ensures written { Leaves (AnswersInput (IsNamedSweep asked file.now) (S.remaining source.old) (S.remaining source.new)) result
        (W.written sink.old) (W.written sink.new) }
    ensures refused { RefusesRenamed file.now result (S.remaining source.old) }
    ensures source { CountsSource result (S.failures source.old) (S.failures source.new) }
    ensures sink { CountsSink result (W.failures sink.old) (W.failures sink.new) }
{
    let run = renamed_record(alloc, source, file)?;
    let measured = measured_run(alloc, asked.typical, run)?;
    swept_run(rt, alloc, asked, true, measured, progress, sink)
}

// Reads the text of a record, and writes all lines of a sweep over its rows, by their numbers alone.
fn plain_sweep<R: Threads + Sync, S: Source, W: Sink>(
    rt: &R,
    alloc: Global,
    over: &Sweep,
    sharing: Sharing,
    progress: &mut dyn Progress,
    source: &mut S,
    sink: &mut W,
) -> Result<(), Fault>
    requires source { S.failures source.old < u64.MAX }
    requires sink { W.failures sink.old < u64.MAX }
    ensures written { Leaves (AnswersInput (IsSweepAnswer sharing over.now) (S.remaining source.old) (S.remaining source.new)) result
        (W.written sink.old) (W.written sink.new) }
    ensures refused { RefusesRecord result (S.remaining source.old) }
    ensures source { CountsSource result (S.failures source.old) (S.failures source.new) }
    ensures sink { CountsSink result (W.failures sink.old) (W.failures sink.new) }
{
    let (rows, count) = read_counted(alloc, source)?;
    let question = WhatIf::of(alloc, rows, sharing)?;
    let ends = ends_of(rt, alloc, over, count, &question, progress)?;
    write_sweep(alloc, first_number(over), &ends, sink)?;
    Ok(())
}

/// Returns the number of the first line: main is spawned by no row.
pub(crate) fn first_number(over: &Sweep) -> u32
    ensures { result ≡ first_of over.now }
{
    match over {
        Sweep::Ticks(_) | Sweep::Cowns(_) => 0,
        Sweep::Spawns => 1,
    }
}

/// Returns the ends of plans in which each row, each of the given number of cowns or each spawn in turn is changed.
pub(crate) fn ends_of<R: Threads + Sync>(
    rt: &R,
    alloc: Global,
    over: &Sweep,
    count: u32,
    question: &WhatIf,
    progress: &mut dyn Progress,
) -> Result<Vec<u64>, AllocError>
    requires { count ≤ MOST_COWNS }
    ensures swept { IfOk result (λ ends. AreSwept (seen question.now.sharing question.now.rows) count over.now ends.items) }
    ensures few { IfOk result (λ ends. length ends.items ≤ MOST_ROWS) }
{
    match over {
        Sweep::Ticks(None) => question.sweep(rt, alloc),
        Sweep::Ticks(Some(workers)) => question.greedy_sweep(rt, alloc, *workers, progress),
        Sweep::Cowns(None) => question.cown_sweep(rt, alloc, count as usize),
        Sweep::Cowns(Some(workers)) => {
            question.greedy_cown_sweep(rt, alloc, count as usize, *workers, progress)
        }
        Sweep::Spawns => question.spawn_sweep(alloc),
    }
}
