// The command `time`.

ghost use Rattle.std.specs.Prelude.{◌≡◌, ◌<◌, ◌++◌, ℕ, List, length};
ghost use Rattle.boc_run_commands.specs.Commands.{AnswersInput, Leaves, CountsSource, CountsSink, RefusesNothing, RefusesRun};
ghost use Rattle.boc_plans.specs.Seen.{seen};
ghost use Rattle.boc_run_commands.specs.Notes.{TellsTime};
ghost use Rattle.boc_run_commands.specs.Promises.{IsTrueReport};
ghost use Rattle.boc_report.specs.Parts.{AreWhole, timed_part};

use crate::fault::Fault;
use crate::report::{greedy_for, report_on};
use crate::run::{NotedRun, noted_run};
use crate::values::MOST_TAKEN;
use boc_busy::TimedRows;
use boc_plans::sharing::Sharing;
use boc_progress::Progress;
use boc_report::write_timed_report;
use boc_runs::rows::Rows;
use boc_text::{Sink, Source, read_all};
use boc_whatif::WhatIf;
use boc_words::{AskedPlans, Schedule};
use boc_workers::Gate;
use std::alloc::Global;
use std::sync::Wait;
use std::thread::Threads;

/// Reads a program, runs it as the schedule says, as `run` does, and writes the report on the rows of the run, as the command `profile`
/// does for a record.
///
/// Whatever the order in which the threads make their steps, the rows are those of a run of the program, in which cowns are
/// exclusive. Plans see the rows as they share cowns in the way that is requested: the plan that is reported keeps their
/// spawn points and cown orders, each plan that keeps them starts no row earlier and ends no sooner, its end, the span and the
/// ticks of the chain are one number, and the greedy plan for p workers ends within the work divided by p, and the span.
///
/// For a timed run the part on when its rows ran follows, and on which workers. That is a schedule of its workers, which ends in time.
///
/// What is refused, what is noted, what is written and what `progress` receives is as for `run`.
pub fn time_cmd<R: Threads + Wait + Sync, G: Gate, S: Source, W: Sink>(
    rt: &R,
    alloc: Global,
    schedule: Schedule,
    plans: AskedPlans,
    sharing: Sharing,
    quiet: bool,
    gate: &G,
    progress: &mut dyn Progress,
    notes: &mut Vec<u8>,
    source: &mut S,
    sink: &mut W,
) -> Result<(), Fault>
    requires source { S.failures source.old < u64.MAX }
    requires sink { W.failures sink.old < u64.MAX }
    ensures written { Leaves (AnswersInput (TellsTime schedule sharing plans quiet notes.new.items) (S.remaining source.old) (S.remaining source.new)) result
        (W.written sink.old) (W.written sink.new) }
    ensures refused { RefusesRun G.always_on schedule result (S.remaining source.old) (S.remaining source.new) }
    ensures source { CountsSource result (S.failures source.old) (S.failures source.new) }
    ensures sink { CountsSink result (W.failures sink.old) (W.failures sink.new) }
{
    let text = read_all(alloc, source, MOST_TAKEN)?;
    let noted = noted_run(rt, alloc, &text, schedule, quiet, gate, progress)?;
    let NotedRun {
        record,
        notes: told,
        times,
    } = noted;
    *notes = told;
    let rows = record.into_rows();
    match times {
        None => true_report(alloc, plans, rows, sharing, sink),
        Some(times) => timed_report(alloc, plans, rows, sharing, &times, sink),
    }
}

// Writes the report on the rows of a timed run, with what its plans promise, and then when they ran.
fn timed_report<W: Sink>(
    alloc: Global,
    plans: AskedPlans,
    rows: Rows,
    sharing: Sharing,
    times: &TimedRows,
    sink: &mut W,
) -> Result<(), Fault>
    requires whole { AreWhole times.now }
    requires all { length times.now.starts.items ≡ length rows }
    requires sink { W.failures sink.old < u64.MAX }
    ensures written { Leaves (λ out. (report : List ℕ) × IsTrueReport (seen sharing rows) plans report
        × (out ≡ report ++ timed_part plans.unplanned times.now)) result (W.written sink.old) (W.written sink.new) }
    ensures refused { RefusesNothing result }
    ensures source { (count : ℕ) → CountsSource result count count }
    ensures sink { CountsSink result (W.failures sink.old) (W.failures sink.new) }
{
    let unplanned = plans.unplanned;
    // For the proof alone, and free: that they have the shape of rows.
    let _shape = rows.as_slice();
    let question = WhatIf::of(alloc, rows, sharing)?;
    let greedy = greedy_for(alloc, plans, &question)?;
    let profile = question.into_profile(alloc)?;
    write_timed_report(alloc, &profile, greedy.as_ref(), times, unplanned, sink)?;
    Ok(())
}

// Writes the report on some rows, with what its plans promise.
fn true_report<W: Sink>(
    alloc: Global,
    plans: AskedPlans,
    rows: Rows,
    sharing: Sharing,
    sink: &mut W,
) -> Result<(), Fault>
    requires { W.failures sink.old < u64.MAX }
    ensures written { Leaves (IsTrueReport (seen sharing rows) plans) result (W.written sink.old) (W.written sink.new) }
    ensures refused { RefusesNothing result }
    ensures source { (count : ℕ) → CountsSource result count count }
    ensures sink { CountsSink result (W.failures sink.old) (W.failures sink.new) }
{
    // For the proof alone, and free: that they have the shape of rows.
    let _shape = rows.as_slice();
    report_on(alloc, plans, rows, sharing, sink)
}
