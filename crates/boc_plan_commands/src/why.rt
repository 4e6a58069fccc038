// The command `why`.

ghost use Rattle.std.specs.Prelude.{◌≡◌, ◌<◌, ◌≤◌, ℕ, List, Option, All, IfOk, MatchResult, length};
ghost use Rattle.std.specs.Option.{option_map};
ghost use Rattle.boc_program.specs.declared.limits.TheConstants.{MOST_COWNS, MOST_ROWS};
ghost use Rattle.boc_remedies.specs.Questions.{asked as asked_by};
ghost use Rattle.boc_run_commands.specs.Commands.{AnswersInput, Leaves, CountsSource, CountsSink};
ghost use Rattle.boc_run_commands.specs.Measured.{workers_measured};
ghost use Rattle.boc_run_commands.specs.NamedRuns.{AreFew, IsOfNamedRun, IsShort, RefusesNamedRun};
ghost use Rattle.boc_plan_commands.specs.Tells.{TellsWhy};
ghost use Rattle.boc_run_commands.specs.TimedAnswers.{end_of_times};
ghost use Rattle.boc_run_commands.specs.TimedNotes.{IsOther, workers_compared};
ghost use Rattle.boc_plan_commands.specs.WhyAnswers.{AreStepsTold, IsTold, IsWhyTold};

use crate::notes::{are_looked_at, notes_of};
use crate::order::other_order;
use boc_advice_report::{StepsTold, WhyTold, steps_text, why_text};
use boc_busy::TimedRows;
use boc_names::Names;
use boc_order::work;
use boc_program::count::Workers;
use boc_progress::Progress;
use boc_remedies::{Question, advise, ends_of, steps_of};
use boc_run_commands::Fault;
use boc_run_commands::measured::{measured_run, workers_measured};
use boc_run_commands::named_run::{NamedRun, Origin, named_run, taken};
use boc_run_commands::notes::Told;
use boc_run_commands::timed_note::{Other, other_run};
use boc_text::{Sink, Source, put_out};
use boc_why_report::TimedEnd;
use boc_words::{AskedWhy, RunFile};
use boc_workers::Gate;
use std::alloc::{AllocError, Global};
use std::sync::Wait;
use std::thread::Threads;

/// Reads a program, which it runs, or the text of a record, as its first word says, and writes why the rows of the run take as long as they do. That is the
/// chain that holds them back, its ticks by def and by link, what would move the end forward, a lower bound for any order on the cowns, and an order that
/// ends sooner, if one was found. For a number of workers, if one is given, it judges by the greedy plan. Where that is requested, it writes one change after
/// another instead. For a program whose workers take ticks as time, the first line has the end of the run. `bytes` are those of the file given with the
/// input, if there is one. The notes replace those in `notes`. If one thread runs a program, with no record of its run, and plans are for some workers, a last
/// note has the span of the timed run by as many workers, at most 16, where that is another one. The last note on a record says if rows that take very long
/// take more than a tenth of all ticks, unless each takes typical ticks.
///
/// A program is refused as by `run`, a record as by `profile`, and a file as its kind is. Nothing is written unless the whole answer is ready. After a failing
/// write a beginning of it went out. Plans are made in threads. The text of a record is taken into memory as a whole. `progress` receives how far
/// a draw or the following of a record is.
pub fn why_cmd<R: Threads + Wait + Sync, G: Gate, S: Source, W: Sink>(
    rt: &R,
    alloc: Global,
    asked: AskedWhy,
    file: &Option<RunFile>,
    bytes: Vec<u8>,
    gate: &G,
    progress: &mut dyn Progress,
    notes: &mut Vec<u8>,
    source: &mut S,
    sink: &mut W,
) -> Result<(), Fault>
    requires source { S.failures source.old < u64.MAX }
    requires sink { W.failures sink.old < u64.MAX }
    ensures written { Leaves (AnswersInput (TellsWhy asked file.now bytes.items notes.new.items) (S.remaining source.old) (S.remaining source.new)) result
        (W.written sink.old) (W.written sink.new) }
    ensures refused { RefusesNamedRun G.always_on asked.schedule file.now bytes.items result (S.remaining source.old) (S.remaining source.new) }
    ensures source { CountsSource result (S.failures source.old) (S.failures source.new) }
    ensures sink { CountsSink result (W.failures sink.old) (W.failures sink.new) }
{
    let text = taken(alloc, source)?;
    let told = why_told(rt, alloc, text, asked, file, bytes, gate, progress)?;
    let Told {
        text: answer,
        notes: noted,
    } = told;
    *notes = noted;
    put_out(sink, &answer)?;
    Ok(())
}

// Returns why the rows that an input reports on take as long as they do, and the notes on them.
fn why_told<R: Threads + Wait + Sync, G: Gate>(
    rt: &R,
    alloc: Global,
    text: Vec<u8>,
    asked: AskedWhy,
    file: &Option<RunFile>,
    bytes: Vec<u8>,
    gate: &G,
    progress: &mut dyn Progress,
) -> Result<Told, Fault>
    ensures { MatchResult result
        (λ told. TellsWhy asked file.now bytes.items told.notes.items text.items told.text.items × IsShort text.items)
        (IsOfNamedRun G.always_on asked.schedule file.now bytes.items text.items) }
{
    let other = other_asked(alloc, &asked, file, &text)?;
    let looked = are_looked_at(asked.typical, &text);
    let origin = Origin {
        schedule: asked.schedule,
        file,
        bytes,
    };
    let run = named_run(rt, alloc, text, origin, gate, progress)?;
    let notes = notes_of(
        alloc,
        asked.quiet,
        asked.sharing,
        looked,
        &run,
        &other,
        progress,
    )?;
    let measured = measured_run(alloc, asked.typical, run)?;
    let text = told(rt, alloc, &measured, asked)?;
    Ok(Told { text, notes })
}

// Returns the run with which the one of an input is compared, if any is.
fn other_asked(
    alloc: Global,
    asked: &AskedWhy,
    file: &Option<RunFile>,
    text: &[u8],
) -> Result<Option<Other>, AllocError>
    ensures { IfOk result
        (IsOther text.now (workers_compared asked.now.schedule (workers_measured asked.now.typical asked.now.workers) file.now)) }
{
    let workers = workers_measured(asked.typical, asked.workers);
    other_run(alloc, asked.schedule, workers, file, text)
}

// Returns what is reported of why the rows of a run take as long as they do, in their names; or, where that is requested, of one change after another.
fn told<R: Threads + Sync>(
    rt: &R,
    alloc: Global,
    run: &NamedRun,
    asked: AskedWhy,
) -> Result<Vec<u8>, AllocError>
    requires { AreFew run.now.rows run.now.names }
    ensures { IfOk result (λ text. IsTold run.now.rows run.now.names asked run.now.times text.items) }
{
    let question = Question {
        rows: &run.rows,
        defs: &run.names.defs,
        families: &run.names.families,
        sharing: asked.sharing,
        workers: asked.workers,
    };
    match asked.then {
        Some(most) => steps_told(rt, alloc, &run.names, &question, most),
        None => why_told_of(rt, alloc, run, &question, asked.all),
    }
}

// Returns what is reported of one change after another.
fn steps_told<R: Threads + Sync>(
    rt: &R,
    alloc: Global,
    names: &Names,
    question: &Question<'_>,
    most: u32,
) -> Result<Vec<u8>, AllocError>
    requires defs { length question.now.defs.now ≡ length question.now.rows.now }
    requires few_defs { All (λ d. d < MOST_ROWS) question.now.defs.now }
    requires few_cowns { length question.now.families.now ≤ MOST_COWNS }
    requires few_families { All (λ f. f < MOST_COWNS) question.now.families.now }
    ensures { IfOk result (λ text. AreStepsTold (asked_by question.now) names.now most text.items) }
{
    let now = ends_of(alloc, question.rows, question.sharing, question.workers)?;
    let steps = steps_of(rt, alloc, question, most)?;
    let told = StepsTold {
        rows: question.rows.as_slice().len(),
        work: work(question.rows.as_slice()),
        now,
        workers: number_of(question.workers),
        most,
        steps: &steps,
    };
    steps_text(alloc, names, &told)
}

// Returns how many workers there are, where a number of these is given.
fn number_of(workers: Option<Workers>) -> Option<u32>
    ensures { result ≡ workers }
{
    match workers {
        Some(workers) => Some(workers.number()),
        None => None,
    }
}

// Returns what is reported of why the rows of a run take as long as they do.
fn why_told_of<R: Threads + Sync>(
    rt: &R,
    alloc: Global,
    run: &NamedRun,
    question: &Question<'_>,
    all: bool,
) -> Result<Vec<u8>, AllocError>
    requires few { AreFew question.now.rows.now run.now.names }
    requires defs { length question.now.defs.now ≡ length question.now.rows.now }
    requires few_defs { All (λ d. d < MOST_ROWS) question.now.defs.now }
    requires few_cowns { length question.now.families.now ≤ MOST_COWNS }
    requires few_families { All (λ f. f < MOST_COWNS) question.now.families.now }
    ensures { IfOk result (λ text. IsWhyTold (asked_by question.now) run.now.names all (option_map end_of_times run.now.times) text.items) }
{
    let found = advise(rt, alloc, question)?;
    let order = other_order(alloc, question, found.why.profile.span)?;
    let told = WhyTold {
        why: &found.why,
        greedy: &found.greedy,
        advice: &found.advice,
        order,
        timed: end_of_times(&run.times),
    };
    why_text(alloc, &run.names, question.sharing, all, &told)
}

// Returns when a run was over, and by how many workers, where it is known when its rows ran.
fn end_of_times(times: &Option<TimedRows>) -> Option<TimedEnd>
    ensures { result ≡ option_map end_of_times times.now }
{
    match times {
        Some(times) => Some(TimedEnd {
            workers: times.p,
            tick: times.ends_at,
        }),
        None => None,
    }
}
