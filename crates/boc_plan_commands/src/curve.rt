// The command `curve`.

ghost use Rattle.std.specs.Prelude.{◌<◌, ℕ, Err};
ghost use Rattle.boc_run_commands.specs.Answers.{IsCurveAnswer, IsCurveTold};
ghost use Rattle.boc_run_commands.specs.Commands.{AnswersInput, Leaves, CountsSource, CountsSink, RefusesNothing, RefusesRecord};
ghost use Rattle.boc_plan_commands.specs.ProgramInputs.{IsCurveOf, IsOfProgramRun, RefusesEither};

use crate::program_input::{Setting, Supplied, run_of_program};
use boc_input::{TakesBack, program_taken};
use boc_plans::sharing::Sharing;
use boc_program::count::Workers;
use boc_progress::Progress;
use boc_record::read_rows;
use boc_report::curve_text;
use boc_run_commands::Fault;
use boc_run_commands::measured::measured_run;
use boc_run_commands::named_run::NamedRun;
use boc_runs::rows::Rows;
use boc_text::{Sink, Source, put_out};
use boc_whatif::WhatIf;
use boc_words::AskedCurve;
use boc_workers::Gate;
use std::alloc::Global;
use std::sync::Wait;
use std::thread::Threads;

/// Reads a program, which it runs, or the text of a record, as the first token says, and writes the work of the rows of the run, their span, and
/// for each number of workers up to the most the end of the greedy plan, the tick before which no plan of the given number of workers ends, and
/// the tick by which the greedy plan has ended. Plans see the rows as they share cowns in this way. `bytes` are those of the file given with the
/// input, if there is one.
///
/// A program is refused as by `run`; the text of a record at its first faulty line, and only where it is no record's; and a file as its kind is. Nothing is
/// written unless the whole answer is ready. After a failing write a beginning of it went out. The plans are made in threads. `progress` receives how far a
/// draw or the following of a record is.
pub fn curve_cmd<R: Threads + Wait + Sync, G: Gate, S: TakesBack, W: Sink>(
    rt: &R,
    alloc: Global,
    asked: AskedCurve,
    supplied: Supplied,
    bytes: Vec<u8>,
    gate: &G,
    progress: &mut dyn Progress,
    source: &mut S,
    sink: &mut W,
) -> Result<(), Fault>
    requires source { S.failures source.old < u64.MAX }
    requires sink { W.failures sink.old < u64.MAX }
    ensures written { Leaves (AnswersInput (IsCurveOf asked supplied bytes.items) (S.remaining source.old) (S.remaining source.new)) result
        (W.written sink.old) (W.written sink.new) }
    ensures refused { RefusesEither (λ fault before. RefusesRecord {A = Unit {0}} (Err fault) before)
        (IsOfProgramRun G.always_on asked.schedule supplied bytes.items) result (S.remaining source.old) (S.remaining source.new) }
    ensures source { CountsSource result (S.failures source.old) (S.failures source.new) }
    ensures sink { CountsSink result (W.failures sink.old) (W.failures sink.new) }
{
    let found = program_taken(alloc, source)?;
    let Some(text) = found else {
        return record_curve(rt, alloc, asked, source, sink);
    };
    let setting = Setting {
        schedule: asked.schedule,
        supplied,
        bytes,
    };
    let run = run_of_program(rt, alloc, text, setting, gate, progress)?;
    let NamedRun { rows, .. } = measured_run(alloc, asked.typical, run)?;
    curve_of(rt, alloc, asked.most, asked.sharing, rows, sink)
}

// Does the same with the text of a record.
fn record_curve<R: Threads + Sync, S: Source, W: Sink>(
    rt: &R,
    alloc: Global,
    asked: AskedCurve,
    source: &mut S,
    sink: &mut W,
) -> Result<(), Fault>
    requires source { S.failures source.old < u64.MAX }
    requires sink { W.failures sink.old < u64.MAX }
    ensures written { Leaves (AnswersInput (IsCurveAnswer asked.sharing asked.most) (S.remaining source.old) (S.remaining source.new)) result
        (W.written sink.old) (W.written sink.new) }
    ensures refused { RefusesRecord result (S.remaining source.old) }
    ensures source { CountsSource result (S.failures source.old) (S.failures source.new) }
    ensures sink { CountsSink result (W.failures sink.old) (W.failures sink.new) }
{
    let rows = read_rows(alloc, source)?;
    curve_of(rt, alloc, asked.most, asked.sharing, rows, sink)
}

// Writes the curve of some rows.
fn curve_of<R: Threads + Sync, W: Sink>(
    rt: &R,
    alloc: Global,
    most: Workers,
    sharing: Sharing,
    rows: Rows,
    sink: &mut W,
) -> Result<(), Fault>
    requires { W.failures sink.old < u64.MAX }
    ensures written { Leaves (IsCurveTold sharing most rows) result (W.written sink.old) (W.written sink.new) }
    ensures refused { RefusesNothing result }
    ensures source { (count : ℕ) → CountsSource result count count }
    ensures sink { CountsSink result (W.failures sink.old) (W.failures sink.new) }
{
    let question = WhatIf::of(alloc, rows, sharing)?;
    let points = question.curve(rt, alloc, most)?;
    let answer = curve_text(alloc, question.work(), question.span(), &points)?;
    put_out(sink, &answer)?;
    Ok(())
}
