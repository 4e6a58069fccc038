// The command `profile`.

ghost use Rattle.std.specs.Prelude.{◌<◌, Err};
ghost use Rattle.boc_run_commands.specs.Commands.{AnswersInput, Leaves, CountsSource, CountsSink, RefusesRecord};
ghost use Rattle.boc_run_commands.specs.Notes.{TellsProfile};
ghost use Rattle.boc_plan_commands.specs.Tells.{TellsProfileOf};
ghost use Rattle.boc_plan_commands.specs.ProgramInputs.{IsOfProgramRun, RefusesEither};

use crate::program_input::{Setting, Supplied, run_of_program};
use boc_input::{TakesBack, program_taken};
use boc_progress::Progress;
use boc_record::read_rows;
use boc_run_commands::Fault;
use boc_run_commands::measured::measured_run;
use boc_run_commands::named_run::NamedRun;
use boc_run_commands::notes::notes_on;
use boc_run_commands::report::report_on;
use boc_text::{Sink, Source};
use boc_words::AskedProfile;
use boc_workers::Gate;
use std::alloc::Global;
use std::sync::Wait;
use std::thread::Threads;

/// Reads a program, which it runs, or the text of a record, as the first token says. It writes the report on the rows of the run: their work,
/// the span, the chain of rows that holds the run back, and the earliest plan. Where a number of workers is given, the greedy plan for them
/// follows, with its end and the tick by which it has ended. The rows of plans are left out where they are not wanted. Plans see the rows as
/// they share cowns in this way. `bytes` are those of the file given with the input, if there is one. The notes replace others, unless quiet is wanted.
///
/// A program is refused as by `run`; the text of a record at its first faulty line, and only where it is no record's; and a file as its kind is. Nothing is
/// written unless the whole answer is ready. After a failing write a beginning of it went out. `progress` receives how far a draw or the following of a
/// record is.
pub fn profile_cmd<R: Threads + Wait + Sync, G: Gate, S: TakesBack, W: Sink>(
    rt: &R,
    alloc: Global,
    asked: AskedProfile,
    supplied: Supplied,
    bytes: Vec<u8>,
    gate: &G,
    progress: &mut dyn Progress,
    notes: &mut Vec<u8>,
    source: &mut S,
    sink: &mut W,
) -> Result<(), Fault>
    requires source { S.failures source.old < u64.MAX }
    requires sink { W.failures sink.old < u64.MAX }
    ensures written { Leaves (AnswersInput (TellsProfileOf asked supplied bytes.items notes.new.items) (S.remaining source.old) (S.remaining source.new)) result
        (W.written sink.old) (W.written sink.new) }
    ensures refused { RefusesEither (λ fault before. RefusesRecord {A = Unit {0}} (Err fault) before)
        (IsOfProgramRun G.always_on asked.schedule supplied bytes.items) result (S.remaining source.old) (S.remaining source.new) }
    ensures source { CountsSource result (S.failures source.old) (S.failures source.new) }
    ensures sink { CountsSink result (W.failures sink.old) (W.failures sink.new) }
{
    let found = program_taken(alloc, source)?;
    let Some(text) = found else {
        return record_profile(alloc, asked, notes, source, sink);
    };
    let setting = Setting {
        schedule: asked.schedule,
        supplied,
        bytes,
    };
    let run = run_of_program(rt, alloc, text, setting, gate, progress)?;
    let noted = notes_on(alloc, asked.quiet, &run.rows, &run.names.rows)?;
    *notes = noted;
    let NamedRun { rows, .. } = measured_run(alloc, asked.typical, run)?;
    report_on(alloc, asked.plans, rows, asked.sharing, sink)
}

// Does the same with the text of a record, whose rows have no names.
fn record_profile<S: Source, W: Sink>(
    alloc: Global,
    asked: AskedProfile,
    notes: &mut Vec<u8>,
    source: &mut S,
    sink: &mut W,
) -> Result<(), Fault>
    requires source { S.failures source.old < u64.MAX }
    requires sink { W.failures sink.old < u64.MAX }
    ensures written { Leaves (AnswersInput (TellsProfile asked.sharing asked.plans asked.quiet notes.new.items)
        (S.remaining source.old) (S.remaining source.new)) result (W.written sink.old) (W.written sink.new) }
    ensures refused { RefusesRecord result (S.remaining source.old) }
    ensures source { CountsSource result (S.failures source.old) (S.failures source.new) }
    ensures sink { CountsSink result (W.failures sink.old) (W.failures sink.new) }
{
    let rows = read_rows(alloc, source)?;
    let noted = notes_on(alloc, asked.quiet, &rows, &[])?;
    *notes = noted;
    report_on(alloc, asked.plans, rows, asked.sharing, sink)
}
