// From a stream to a window of it.

ghost use Rattle.std.specs.Prelude.{◌≡◌, ◌<◌, false, IfOk, IfErr, None};
ghost use Rattle.boc_stream.specs.LongLines.{to_come};
ghost use Rattle.boc_cut.specs.Counting.{CountsCut, CountsFault};
ghost use Rattle.boc_cut.specs.Cuts.{CutsAs, IsWindowOf, RefusesCut};

use crate::follow::Stream;
use crate::table::Table;
use crate::whole::{Tried, follow_record, whole_window};
use crate::window::{Unmade, Window, window_of};
use boc_progress::Progress;
use boc_runs::event::BrokenRule;
use boc_stream::{StreamFault, StreamFaultKind};
use boc_text::Source;
use std::alloc::Global;
use thiserror::Error;

/// Why no window was cut.
#[derive(Clone, Copy, PartialEq, Eq, Debug, Error)]
pub enum CutFault {
    /// The stream has this wrong.
    #[error("{0}")]
    Stream(StreamFault),
    /// What was made is no record. It is not known to happen.
    #[error("the window is no record")]
    Broken(Option<BrokenRule>),
}

// Follows a stream until its window is whole. A stream that is a record, of which no part was asked for, is answered as one.
fn follow<S: Source>(
    alloc: Global,
    stream: &mut Stream,
    source: &mut S,
    table: &mut Table,
    progress: &mut dyn Progress,
) -> Result<Option<Window>, StreamFault>
    requires failures { S.failures source.old < u64.MAX }
    requires open { stream.old.lines.is_over ≡ false }
    ensures followed { CutsAs table.old.from table.old.asked result (to_come stream.old.lines (S.remaining source.old))
        (to_come stream.new.lines (S.remaining source.new))
        table.old.rows.items table.old.uses.items table.new.rows.items table.new.uses.items }
    ensures failures { CountsFault result (S.failures source.old) (S.failures source.new) }
{
    if table.is_part() {
        stream.follow(source, table, progress)?;
        return Ok(None);
    }
    follow_whole(alloc, stream, source, table, progress)
}

// Follows a stream of which no part was asked for.
fn follow_whole<S: Source>(
    alloc: Global,
    stream: &mut Stream,
    source: &mut S,
    table: &mut Table,
    progress: &mut dyn Progress,
) -> Result<Option<Window>, StreamFault>
    requires failures { S.failures source.old < u64.MAX }
    requires open { stream.old.lines.is_over ≡ false }
    ensures followed { CutsAs 0 None result (to_come stream.old.lines (S.remaining source.old)) (to_come stream.new.lines (S.remaining source.new))
        table.old.rows.items table.old.uses.items table.new.rows.items table.new.uses.items }
    ensures failures { CountsFault result (S.failures source.old) (S.failures source.new) }
{
    match follow_record(alloc, stream, source, table) {
        Ok(Tried::More) => {
            stream.follow(source, table, progress)?;
            Ok(None)
        }
        Ok(Tried::Over) => Ok(None),
        Ok(Tried::Record(record)) => match whole_window(alloc, record) {
            Ok(window) => Ok(Some(window)),
            Err(_) => Err(stream.fault(StreamFaultKind::Memory)),
        },
        Err(kind) => Err(stream.fault(kind)),
    }
}

/// Cuts a window out of a stream, from the row of a rank on, with at most the given number of rows that are spawned in it.
///
/// Ranks count the spawns of the stream from 0, and `rows` counts spawns from `from` on; where it is `None` the window has as many as fit
/// into a record. Rows that are alive at `from` are in the window too. Ticks of the record are ticks of the stream, divided by
/// `notes.divisor`. Progress is reported in rows that were spawned so far.
///
/// Rows of the window that share a cown share one in the stream, and are spawned there in the same order. A stream that is the text of a
/// record, of which no part is wanted, is its own window, and is refused only if memory or a device fails.
///
/// A fault has the line at which the stream is refused, counted from 1. Where memory is refused after reading, that is the last line read.
/// At most 65,536 bytes are read after the last line that is needed.
pub fn cut<S: Source>(
    alloc: Global,
    source: &mut S,
    from: u64,
    rows: Option<u64>,
    progress: &mut dyn Progress,
) -> Result<Window, CutFault>
    requires { S.failures source.old < u64.MAX }
    ensures window { IfOk result (λ window. IsWindowOf from rows (S.remaining source.old) (S.remaining source.new) window.record window.origins.items) }
    ensures fault { IfErr result (λ fault. from ≡ 0 → rows ≡ None → RefusesCut fault (S.remaining source.old)) }
    ensures failures { CountsCut result (S.failures source.old) (S.failures source.new) }
{
    let mut stream = Stream::new(alloc);
    let mut table = Table::new(alloc, from, rows);
    match follow(alloc, &mut stream, source, &mut table, progress) {
        Ok(None) => {}
        Ok(Some(window)) => {
            // That few bytes are taken in ahead is in the contract of this call.
            let _few = stream.ahead();
            progress.done(window.notes.rows, window.notes.rows);
            return Ok(window);
        }
        Err(fault) => return Err(CutFault::Stream(fault)),
    }
    let _ahead = stream.ahead();
    if !table.is_cut {
        return Err(CutFault::Stream(stream.fault(StreamFaultKind::BeyondEnd)));
    }
    match window_of(alloc, &table) {
        Ok(window) => {
            progress.done(table.rank as usize, table.rank as usize);
            Ok(window)
        }
        Err(Unmade::Memory) => Err(CutFault::Stream(stream.fault(StreamFaultKind::Memory))),
        Err(Unmade::Broken(rule)) => Err(CutFault::Broken(Some(rule))),
        Err(Unmade::Unended | Unmade::Unlike) => Err(CutFault::Broken(None)),
    }
}
