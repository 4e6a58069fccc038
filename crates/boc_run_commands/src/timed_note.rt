// The note that a run in which ticks are time has another span.

ghost use Rattle.std.specs.Prelude.{◌≡◌, ◌++◌, ℕ, List, Option, IfOk, OnOk};
ghost use Rattle.boc_plans.specs.Greedy.{IsSpan};
ghost use Rattle.boc_plans.specs.Seen.{seen};
ghost use Rattle.boc_run_commands.specs.TimedNotes.{IsNoteFor, IsOther, IsTimedNote, IsTimedSpan, compared_for, timed_note, workers_compared};

use crate::named_run::RECORD_WORD;
use boc_dispatch::Tell;
use boc_order::waits_and_plan;
use boc_plans::sharing::{SeenRows, Sharing};
use boc_program::count::{Runners, Workers};
use boc_program::limits::MOST_RUNNERS;
use boc_progress::Progress;
use boc_reader::{ReadFaultKind, read_program};
use boc_registers::compiled::CompiledProgram;
use boc_runs::rows::Rows;
use boc_text::put_number;
use boc_timed::{TimedFault, timed_run};
use boc_words::{RunFile, Schedule};
use std::alloc::{AllocError, Global};

/// A run with which the one that is reported on is compared: that of the program that a text spells, by this many workers that take ticks as time.
#[derive(Drop)]
pub struct Other {
    pub text: Vec<u8>,
    pub workers: Runners,
}

// Returns with how many workers a run by these threads is compared, where plans are for these.
fn compared_for(threads: Runners, workers: Workers) -> Option<Runners>
    ensures { result ≡ compared_for threads workers }
{
    if threads.number() == 1 {
        Runners::new(workers.number().min(MOST_RUNNERS as u32))
    } else {
        None
    }
}

// Returns how many workers a run is compared with, if it is: that of one thread, where plans are for some workers, and no record of the run is given.
fn workers_compared(
    schedule: Schedule,
    workers: Option<Workers>,
    file: &Option<RunFile>,
) -> Option<Runners>
    ensures { result ≡ workers_compared schedule workers file.now }
{
    if let Some(RunFile::Record(_)) = file {
        return None;
    }
    let Some(workers) = workers else {
        return None;
    };
    match schedule {
        Schedule::Threads(runners) => compared_for(runners, workers),
        _ => None,
    }
}

/// Returns the run with which the one of an input is compared, if any is. That is so if the input is a program, which one thread runs, with no record of the
/// run, and if plans are for some workers: then it is the program's timed run by as many workers, at most 16. `AllocError` says that memory was refused.
pub fn other_run(
    alloc: Global,
    schedule: Schedule,
    workers: Option<Workers>,
    file: &Option<RunFile>,
    text: &[u8],
) -> Result<Option<Other>, AllocError>
    ensures { IfOk result (IsOther text.now (workers_compared schedule workers file.now)) }
{
    let Some(workers) = workers_compared(schedule, workers, file) else {
        return Ok(None);
    };
    if text.starts_with(RECORD_WORD) {
        return Ok(None);
    }
    let text = Vec::from_slice(alloc, text)?;
    Ok(Some(Other { text, workers }))
}

// Returns the span of rows, which share cowns in this way.
fn span_of(alloc: Global, rows: &Rows, sharing: Sharing) -> Result<u64, AllocError>
    ensures { IfOk result (IsSpan (seen sharing rows.now)) }
{
    let seen = SeenRows::new(rows, sharing);
    let (_, plan) = waits_and_plan(alloc, &seen)?;
    Ok(plan.span())
}

// Returns the span of the timed run of the program that a text spells; none where it spells none, or where that run has too many behaviours.
fn timed_span(
    alloc: Global,
    other: &Other,
    sharing: Sharing,
    progress: &mut dyn Progress,
) -> Result<Option<u64>, AllocError>
    ensures { IfOk result (IsTimedSpan other.now.text.items other.now.workers sharing) }
{
    let program = match read_program(alloc, &other.text) {
        Ok(program) => program,
        Err(fault) => {
            return match fault.kind {
                ReadFaultKind::Memory => Err(AllocError),
                _ => Ok(None),
            };
        }
    };
    let compiled = CompiledProgram::new(alloc, &program)?;
    let workers = other.workers.number();
    match timed_run(alloc, &compiled, workers, Tell::Nothing, progress) {
        Ok(run) => Ok(Some(span_of(alloc, run.record.rows(), sharing)?)),
        Err(TimedFault::Behaviours) => Ok(None),
        Err(TimedFault::Memory) => Err(AllocError),
    }
}

// Appends the note that the timed run by this many workers has this span.
fn put_timed_note(note: &mut Vec<u8>, workers: u64, span: u64) -> Result<(), AllocError>
    ensures { OnOk result (note.new.items ≡ note.old.items ++ timed_note workers span) }
{
    note.extend_from_slice(b"boc: note: timed on ")?;
    put_number(note, workers)?;
    note.extend_from_slice(b" workers the span is ")?;
    put_number(note, span)?;
    note.extend_from_slice(b": see --timed\n")?;
    Ok(())
}

// Returns the note on the rows of a run that the other run has another span; no text if it has the same, or if there is no such run.
fn note_on_other(
    alloc: Global,
    other: &Other,
    sharing: Sharing,
    rows: &Rows,
    progress: &mut dyn Progress,
) -> Result<Vec<u8>, AllocError>
    ensures { IfOk result (λ note. IsTimedNote other.now.text.items other.now.workers sharing rows.now note.items) }
{
    let span = span_of(alloc, rows, sharing)?;
    let mut note = Vec::new(alloc);
    if let Some(timed) = timed_span(alloc, other, sharing, progress)?
        && timed != span
    {
        put_timed_note(&mut note, u64::from(other.workers.number()), timed)?;
    }
    Ok(note)
}

/// Returns the note on the rows of a run that the run with which it is compared has another span, as rows share cowns in this way. There is no text if
/// it has the same, or if there is no such run. It takes what a draw of the program takes, and a plan of either run. `progress` receives how far the run is.
/// `AllocError` says that memory was refused.
pub fn timed_note_on(
    alloc: Global,
    other: &Option<Other>,
    sharing: Sharing,
    rows: &Rows,
    progress: &mut dyn Progress,
) -> Result<Vec<u8>, AllocError>
    ensures { IfOk result (λ note. (text : List ℕ) (workers : Option ℕ) → IsOther text workers other.now
        → IsNoteFor text workers sharing rows.now note.items) }
{
    match other {
        Some(other) => note_on_other(alloc, other, sharing, rows, progress),
        None => Ok(Vec::new(alloc)),
    }
}
