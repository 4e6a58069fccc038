// The command `cowns`.

ghost use Rattle.std.specs.Prelude.{◌≡◌, ◌<◌, ◌≤◌, ◌^◌, All, IfOk, MatchResult, length};
ghost use Rattle.boc_program.specs.declared.limits.TheConstants.{MOST_COWNS};
ghost use Rattle.boc_cowns.specs.Hot.{IsHotCowns};
ghost use Rattle.boc_remedies.specs.Questions.{asked as asked_by};
ghost use Rattle.boc_run_commands.specs.Commands.{AnswersInput, Leaves, CountsSource, CountsSink};
ghost use Rattle.boc_plan_commands.specs.CownsAnswers.{AreJudged, AreTold, IsJudgedText};
ghost use Rattle.boc_plan_commands.specs.Tells.{TellsCowns};
ghost use Rattle.boc_run_commands.specs.NamedRuns.{AreFew, IsOfNamedRun, IsShort, RefusesNamedRun};

use crate::notes::{are_looked_at, notes_of};
use crate::order::other_order;
use boc_advice_report::{ForWorkers, OtherOrder};
use boc_cowns::{HotCowns, hot_cowns};
use boc_cowns_report::{CownsTold, JudgedCown, JudgedTold, cowns_text, judged_cowns};
use boc_names::Names;
use boc_program::count::Workers;
use boc_progress::Progress;
use boc_remedies::{Question, Together, cowns_together};
use boc_run_commands::Fault;
use boc_run_commands::measured::{measured_run, workers_measured};
use boc_run_commands::named_run::{NamedRun, Origin, named_run, taken};
use boc_run_commands::notes::Told;
use boc_run_commands::timed_note::other_run;
use boc_text::{Sink, Source, put_out};
use boc_whatif::WhatIf;
use boc_words::{AskedCowns, RunFile};
use boc_workers::Gate;
use std::alloc::{AllocError, Global};
use std::sync::Wait;
use std::thread::Threads;

/// Reads a program, which it runs, or the text of a record, as its first word says, and writes how long each cown of the run is held, waited for and handed
/// on, and the span without it, those first that are held longest. Below that is whether the spawns hold the run back, or the load of a cown, or order
/// does. `bytes`, the notes, with those on the timed run and on rows that take very long, and `progress` are as for `why`.
///
/// A program is refused as by `run`, a record as by `profile`, and a file as its kind is. Nothing is written unless the whole answer is ready. After a failing
/// write a beginning of it went out. Plans are made in threads. The text of a record is taken into memory as a whole.
pub fn cowns_cmd<R: Threads + Wait + Sync, G: Gate, S: Source, W: Sink>(
    rt: &R,
    alloc: Global,
    asked: AskedCowns,
    file: &Option<RunFile>,
    bytes: Vec<u8>,
    gate: &G,
    progress: &mut dyn Progress,
    notes: &mut Vec<u8>,
    source: &mut S,
    sink: &mut W,
) -> Result<(), Fault>
    requires source { S.failures source.old < u64.MAX }
    requires sink { W.failures sink.old < u64.MAX }
    ensures written { Leaves (AnswersInput (TellsCowns asked file.now bytes.items notes.new.items) (S.remaining source.old) (S.remaining source.new)) result
        (W.written sink.old) (W.written sink.new) }
    ensures refused { RefusesNamedRun G.always_on asked.schedule file.now bytes.items result (S.remaining source.old) (S.remaining source.new) }
    ensures source { CountsSource result (S.failures source.old) (S.failures source.new) }
    ensures sink { CountsSink result (W.failures sink.old) (W.failures sink.new) }
{
    let text = taken(alloc, source)?;
    let told = cowns_told(rt, alloc, text, asked, file, bytes, gate, progress)?;
    let Told {
        text: answer,
        notes: noted,
    } = told;
    *notes = noted;
    put_out(sink, &answer)?;
    Ok(())
}

// Returns what is reported of the cowns of the run that an input reports on, and the notes on its rows.
fn cowns_told<R: Threads + Wait + Sync, G: Gate>(
    rt: &R,
    alloc: Global,
    text: Vec<u8>,
    asked: AskedCowns,
    file: &Option<RunFile>,
    bytes: Vec<u8>,
    gate: &G,
    progress: &mut dyn Progress,
) -> Result<Told, Fault>
    ensures { MatchResult result
        (λ told. TellsCowns asked file.now bytes.items told.notes.items text.items told.text.items × IsShort text.items)
        (IsOfNamedRun G.always_on asked.schedule file.now bytes.items text.items) }
{
    let workers = workers_measured(asked.typical, asked.workers);
    let other = other_run(alloc, asked.schedule, workers, file, &text)?;
    let looked = are_looked_at(asked.typical, &text);
    let origin = Origin {
        schedule: asked.schedule,
        file,
        bytes,
    };
    let run = named_run(rt, alloc, text, origin, gate, progress)?;
    let notes = notes_of(
        alloc,
        asked.quiet,
        asked.sharing,
        looked,
        &run,
        &other,
        progress,
    )?;
    let measured = measured_run(alloc, asked.typical, run)?;
    let text = told(rt, alloc, &measured, asked, progress)?;
    Ok(Told { text, notes })
}

// Returns what is reported of the cowns of a run, in their names.
fn told<R: Threads + Sync>(
    rt: &R,
    alloc: Global,
    run: &NamedRun,
    asked: AskedCowns,
    progress: &mut dyn Progress,
) -> Result<Vec<u8>, AllocError>
    requires { AreFew run.now.rows run.now.names }
    ensures { IfOk result (λ text. AreTold run.now.rows run.now.names asked text.items) }
{
    let names = &run.names;
    let question = Question {
        rows: &run.rows,
        defs: &names.defs,
        families: &names.families,
        sharing: asked.sharing,
        workers: asked.workers,
    };
    let count = question.families.len();
    let hot = hot_cowns(rt, alloc, &run.rows, asked.sharing, count as u32)?;
    let together = cowns_together(rt, alloc, &question, hot.span)?;
    let order = other_order(alloc, &question, hot.span)?;
    let told = told_for(&hot, None, &together, order);
    match asked.workers {
        Some(workers) => judged_text(
            rt, alloc, names, &question, workers, asked.top, &told, progress,
        ),
        None => cowns_text(alloc, names, asked.sharing, asked.top, &told),
    }
}

// Returns these parts of what is reported as one.
fn told_for<'a>(
    hot: &'a HotCowns,
    judged: Option<JudgedTold<'a>>,
    together: &'a [Together],
    order: Option<OtherOrder>,
) -> CownsTold<'a>
    ensures { result ≡ record { hot = hot.entry; judged = judged.entry; together = together.entry; order = order } }
{
    CownsTold {
        hot,
        judged,
        together,
        order,
    }
}

// Returns the same with the cowns as they are judged for this many workers.
fn judged_text<R: Threads + Sync>(
    rt: &R,
    alloc: Global,
    names: &Names,
    question: &Question<'_>,
    workers: Workers,
    most: Option<u32>,
    told: &CownsTold<'_>,
    progress: &mut dyn Progress,
) -> Result<Vec<u8>, AllocError>
    requires few { length question.now.families.now ≤ MOST_COWNS }
    requires hot { IsHotCowns question.now.rows.now question.now.sharing (length question.now.families.now) told.now.hot.now }
    requires low { All (λ own. own.held < 2 ^ 56) told.now.hot.now.cowns.items }
    requires some { 0 < told.now.hot.now.span }
    ensures { IfOk result (λ text. IsJudgedText (asked_by question.now) workers names.now most told.now text.items) }
{
    let (for_workers, cowns) = judged(rt, alloc, question, workers, told.hot, progress)?;
    let judged = Some(JudgedTold {
        workers: for_workers,
        cowns: &cowns,
    });
    let told = told_for(told.hot, judged, told.together, told.order);
    cowns_text(alloc, names, question.sharing, most, &told)
}

/// Returns what the rows take by the workers, and then the cowns by the ends of the greedy plans without them. `AllocError` says that memory was refused.
pub fn judged<R: Threads + Sync>(
    rt: &R,
    alloc: Global,
    question: &Question<'_>,
    workers: Workers,
    hot: &HotCowns,
    progress: &mut dyn Progress,
) -> Result<(ForWorkers, Vec<JudgedCown>), AllocError>
    requires few { length question.now.families.now ≤ MOST_COWNS }
    requires hot { IsHotCowns question.now.rows.now question.now.sharing (length question.now.families.now) hot.now }
    requires low { All (λ own. own.held < 2 ^ 56) hot.now.cowns.items }
    ensures judged { IfOk result (λ found. AreJudged (asked_by question.now) workers hot.now found.0 found.1.items) }
    ensures low { IfOk result (λ found. All (λ own. own.hot.held < 2 ^ 56) found.1.items) }
{
    let what_if = WhatIf::new(alloc, question.rows, question.sharing)?;
    let count = question.families.len();
    let ends = what_if.greedy_cown_sweep(rt, alloc, count, workers, progress)?;
    let cowns = judged_cowns(alloc, &hot.cowns, &ends)?;
    let for_workers = ForWorkers {
        p: workers.number(),
        work: what_if.work(),
        span: hot.span,
        end: what_if.greedy(alloc, workers)?.ends_at,
    };
    Ok((for_workers, cowns))
}
