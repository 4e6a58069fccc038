// The command `compare`.

ghost use Rattle.std.specs.Prelude.{◌≡◌, ◌++◌, ◌&&◌, ◌<◌, IfOk, OnOk, MatchResult, unwrap_or};
ghost use Rattle.boc_run_commands.specs.Commands.{AnswersInput, Leaves, CountsSource, CountsSink};
ghost use Rattle.boc_run_commands.specs.NamedRuns.{IsShort};
ghost use Rattle.boc_several_commands.specs.Comparing.{AreNotesOf, IsComparedText, RefusesCompare, TellsCompare, IsOfCompare, notes_of_side};

use crate::side::{Sided, sided_of};
use boc_compare_report::{Compared, compare_text};
use boc_program::count::Workers;
use boc_progress::Progress;
use boc_run_commands::Fault;
use boc_run_commands::named_run::taken;
use boc_run_commands::notes::Told;
use boc_text::{Sink, Source, put_out};
use boc_words::{AskedCompare, CompareFiles};
use boc_workers::Gate;
use std::alloc::{AllocError, Global};
use std::sync::Wait;
use std::thread::Threads;

/// What is next to the first of two inputs: bytes as many as can matter, and none of what the words name no file for.
#[derive(Drop)]
pub struct Pair {
    /// The bytes of the second input.
    pub after: Vec<u8>,
    /// The bytes of the file with names for the first input.
    pub before_names: Vec<u8>,
    /// The bytes of the file with names for the second input.
    pub after_names: Vec<u8>,
}

impl Pair {
    /// Makes the pair of a command with one input.
    pub fn none(alloc: Global) -> Pair {
        Pair {
            after: Vec::new(alloc),
            before_names: Vec::new(alloc),
            after_names: Vec::new(alloc),
        }
    }
}

/// One of two inputs, with the file of names next to it.
#[derive(Clone, Copy, PartialEq, Eq, Debug)]
pub enum Which {
    Before,
    After,
}

/// Reads two inputs, each a program, which it runs, or the text of a record, as its first word says, and writes what has changed from the run of the first to
/// that of the second. These are their numbers, before and after, as they are and with typical ticks, the defs that weigh most on their chains, a line for
/// each def and each family of cowns, and by how much the ends change. Defs are left out where a record has no names.
///
/// The source gives the first input. Each input is refused as by `why`, the second only where the first is not, and `which` says which of the two a refusal is
/// of. The notes on behaviours that ended by a fault replace those in `notes`. Nothing is written unless the whole answer is ready. After a failing write a
/// beginning of it went out.
pub fn compare_cmd<R: Threads + Wait + Sync, G: Gate, S: Source, W: Sink>(
    rt: &R,
    alloc: Global,
    asked: AskedCompare,
    files: &CompareFiles,
    pair: Pair,
    gate: &G,
    progress: &mut dyn Progress,
    notes: &mut Vec<u8>,
    which: &mut Which,
    source: &mut S,
    sink: &mut W,
) -> Result<(), Fault>
    requires source { S.failures source.old < u64.MAX }
    requires sink { W.failures sink.old < u64.MAX }
    ensures written { Leaves (AnswersInput (TellsCompare asked files.now pair notes.new.items) (S.remaining source.old) (S.remaining source.new)) result
        (W.written sink.old) (W.written sink.new) }
    ensures refused { RefusesCompare G.always_on asked files.now pair which.new result (S.remaining source.old) (S.remaining source.new) }
    ensures source { CountsSource result (S.failures source.old) (S.failures source.new) }
    ensures sink { CountsSink result (W.failures sink.old) (W.failures sink.new) }
{
    let text = taken(alloc, source)?;
    let told = compared(rt, alloc, text, asked, files, pair, gate, progress, which)?;
    let Told {
        text: answer,
        notes: noted,
    } = told;
    *notes = noted;
    put_out(sink, &answer)?;
    Ok(())
}

// Returns what has changed from the run of one input to that of another, and the notes on both.
fn compared<R: Threads + Wait + Sync, G: Gate>(
    rt: &R,
    alloc: Global,
    text: Vec<u8>,
    asked: AskedCompare,
    files: &CompareFiles,
    pair: Pair,
    gate: &G,
    progress: &mut dyn Progress,
    which: &mut Which,
) -> Result<Told, Fault>
    ensures { MatchResult result
        (λ told. TellsCompare asked files.now pair told.notes.items text.items told.text.items × IsShort text.items)
        (IsOfCompare G.always_on asked files.now pair text.items which.new) }
{
    let Pair {
        after: after_text,
        before_names,
        after_names,
    } = pair;
    *which = Which::Before;
    let before = sided_of(
        rt,
        alloc,
        text,
        asked,
        &files.before_names,
        before_names,
        gate,
        progress,
    )?;
    *which = Which::After;
    let after = sided_of(
        rt,
        alloc,
        after_text,
        asked,
        &files.after_names,
        after_names,
        gate,
        progress,
    )?;
    Ok(told_of(alloc, asked, &before, &after)?)
}

// Returns what has changed from one run to another, and the notes on both.
fn told_of(
    alloc: Global,
    asked: AskedCompare,
    before: &Sided,
    after: &Sided,
) -> Result<Told, AllocError>
    ensures { IfOk result (λ told. IsComparedText asked before.now after.now told.text.items × AreNotesOf before.now after.now told.notes.items) }
{
    let own = Compared {
        before: &before.side,
        before_names: &before.names,
        after: &after.side,
        after_names: &after.names,
        named: both_named(before, after),
        typical: asked.typical,
        workers: count_of(asked.workers),
    };
    let text = compare_text(alloc, &own)?;
    let mut notes = Vec::new(alloc);
    put_notes(&mut notes, b"boc: note: in BEFORE:\n", &before.notes)?;
    put_notes(&mut notes, b"boc: note: in AFTER:\n", &after.notes)?;
    Ok(Told { text, notes })
}

// Returns whether the rows of both runs have names of their own.
fn both_named(before: &Sided, after: &Sided) -> bool
    ensures { result ≡ before.now.named && after.now.named }
{
    before.named && after.named
}

// Returns for how many workers ends are compared, and 0 where for none.
fn count_of(workers: Option<Workers>) -> u32
    ensures { result ≡ unwrap_or workers 0 }
{
    match workers {
        Some(workers) => workers.number(),
        None => 0,
    }
}

// Appends a line that says which of two runs it is, and the notes on it, if there are any.
fn put_notes(notes: &mut Vec<u8>, head: &[u8], own: &[u8]) -> Result<(), AllocError>
    ensures { OnOk result (notes.new.items ≡ notes.old.items ++ notes_of_side head.now own.now) }
{
    if own.is_empty() {
        return Ok(());
    }
    notes.extend_from_slice(head)?;
    notes.extend_from_slice(own)
}
