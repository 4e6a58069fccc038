// The command `cut`.

ghost use Rattle.std.specs.Prelude.{◌≡◌, ◌<◌, ℕ, List, Option, None, IfOk, IfErr};
ghost use Rattle.boc_run_commands.specs.Commands.{CountsSource, CountsSink, Leaves};
ghost use Rattle.boc_cut.specs.Cuts.{IsWindowOf, RefusesCut};
ghost use Rattle.boc_cut_commands.specs.CutAnswers.{IsCutAnswer, IsOfNames, IsOfWindow, RefusesWhole, RefusesWindow, is_device};
ghost use Rattle.boc_run_commands.specs.Faults.{is_source};

use crate::notes::notes_on_window;
use boc_cut::{CutFault, Window, cut, names_of};
use boc_progress::Progress;
use boc_record::write_record;
use boc_run_commands::{Fault, WindowFault};
use boc_stream::{LabelFault, LabelFaultKind};
use boc_text::{Counted, Sink, Source};
use boc_words::{AskedCut, CutNames};
use std::alloc::Global;

/// The most bytes that a file of names for a stream may have.
pub const MOST_STREAM_NAMES: usize = 1 << 26;

/// Reads a stream up to where its window has ended, and writes the record of the window. The notes replace others, unless quiet is wanted, and so do the names
/// of the window, where there are names for the stream: `beside` has their bytes.
///
/// A window is ordered as its stream is, and a record that has ended is its own window. Nothing is written unless the whole answer is ready. After a failing
/// write a beginning of it went out. `progress` receives how many rows were spawned so far.
pub fn cut_cmd<S: Source, W: Sink>(
    alloc: Global,
    asked: AskedCut,
    files: &Option<CutNames>,
    beside: &[u8],
    progress: &mut dyn Progress,
    notes: &mut Vec<u8>,
    names: &mut Vec<u8>,
    source: &mut S,
    sink: &mut W,
) -> Result<(), Fault>
    requires source { S.failures source.old < u64.MAX }
    requires sink { W.failures sink.old < u64.MAX }
    ensures written { Leaves (IsCutAnswer asked.from asked.rows (S.remaining source.old) (S.remaining source.new)) result
        (W.written sink.old) (W.written sink.new) }
    ensures refused { RefusesWindow result }
    ensures whole { asked.from ≡ 0 → asked.rows ≡ None → files.now ≡ None → IfErr result (λ fault. RefusesWhole fault (S.remaining source.old)) }
    ensures source { CountsSource result (S.failures source.old) (S.failures source.new) }
    ensures sink { CountsSink result (W.failures sink.old) (W.failures sink.new) }
{
    let window = window_cut(alloc, asked, progress, source)?;
    // That the record keeps the rules is in the contract of this call.
    let _cowns = window.record.cowns();
    if !asked.quiet {
        *notes = notes_on_window(alloc, asked, &window.notes)?;
    }
    if files.is_some() {
        *names = window_names(alloc, &window, beside)?;
    }
    write_record(alloc, &window.record, sink)?;
    Ok(())
}

// Returns the window that is requested.
fn window_cut<S: Source>(
    alloc: Global,
    asked: AskedCut,
    progress: &mut dyn Progress,
    source: &mut S,
) -> Result<Window, Fault>
    requires { S.failures source.old < u64.MAX }
    ensures window { IfOk result (λ window. IsWindowOf asked.from asked.rows (S.remaining source.old) (S.remaining source.new)
        window.record window.origins.items) }
    ensures refused { IfErr result IsOfWindow }
    ensures whole { asked.from ≡ 0 → asked.rows ≡ None → IfErr result (λ fault. RefusesWhole fault (S.remaining source.old)) }
    ensures source { CountsSource result (S.failures source.old) (S.failures source.new) }
{
    match cut(alloc, source, asked.from, rows_asked(asked), progress) {
        Ok(window) => Ok(window),
        Err(fault) => Err(fault_of_cut(fault)),
    }
}

// Returns how many rows are requested at most.
fn rows_asked(asked: AskedCut) -> Option<u64>
    ensures { result ≡ asked.rows }
{
    match asked.rows {
        Some(rows) => Some(u64::from(rows)),
        None => None,
    }
}

/// Returns the fault of a stream that no window was cut out of.
pub(crate) fn fault_of_cut(fault: CutFault) -> Fault
    ensures refused { IsOfWindow result }
    ensures source { is_source result ≡ is_device fault }
    ensures whole { (before : Option (List ℕ)) → RefusesCut fault before → RefusesWhole result before }
{
    match fault {
        CutFault::Stream(fault) => Fault::from(fault),
        CutFault::Broken(_) => Fault::Window(WindowFault::Unmade),
    }
}

// Returns the names of a window by those of its stream, which have these bytes. They are refused where there are more than there may be.
fn window_names(alloc: Global, window: &Window, bytes: &[u8]) -> Result<Vec<u8>, Fault>
    ensures { IfErr result IsOfNames }
{
    if bytes.len() > MOST_STREAM_NAMES {
        let line = bytes.iter().filter(|byte| **byte == b'\n').count() as u64;
        return Err(Fault::from(LabelFault {
            line: line + 1,
            kind: LabelFaultKind::TooMany,
        }));
    }
    let mut source = Counted::new(bytes);
    Ok(names_of(alloc, window, &mut source)?)
}
