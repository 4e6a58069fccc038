// The lines of a sweep.

ghost use Rattle.std.specs.Prelude.{◌≡◌, ◌++◌, ◌+◌, ◌*◌, ◌<◌, ◌≤◌, ◌^◌, drop, length, slice_index, OnOk, IfOk, MatchResult};
ghost use Rattle.std.specs.Io.KnownBytes.{Appends};
ghost use Rattle.boc_report.specs.Texts.{sweep_line, sweep_lines};
ghost use Rattle.boc_text.specs.Outgoing.{IsUnused, Puts, size};
ghost use Rattle.boc_text.specs.Streams.{CountsFailure, StopsAt};
ghost use Rattle.boc_text.specs.Writing.{CountsWrite, Writes};
ghost use Rattle.boc_report.specs.declared.number_line.TheConstants.{MOST_LINES, MOST_PART};
ghost use Rattle.boc_report.specs.declared.sweep_lines.TheConstants.{MOST_SWEPT};
ghost use Rattle.boc_report.specs.declared.by_line.TheConstants.{MOST_LINE};

use crate::by_line::{Lines, put_lines};
use crate::number_line::MOST_FIELD;
use boc_text::{Bytes, Outgoing, Sink, Stopped, WriteFault, write_before};
use std::alloc::{AllocError, Global};

/// The most bytes of a line.
const MOST_SWEPT: usize = 2 * MOST_FIELD;

/// Writes the text of a sweep: a line for each row or cown from this one on, with its number and the span that goes with it. It goes out in
/// parts while it is formed; after a failing write a beginning of it went out. All memory is taken before the first part goes out.
pub fn write_sweep<W: Sink>(
    alloc: Global,
    first: u32,
    spans: &[u64],
    sink: &mut W,
) -> Result<(), WriteFault>
    requires few { length spans.now ≤ MOST_LINES }
    requires failures { W.failures sink.old < u64.MAX }
    ensures written { Writes (sweep_lines first spans.now) result (W.written sink.old) (W.written sink.new) }
    ensures failures { CountsWrite result (W.failures sink.old) (W.failures sink.new) }
{
    let mut out = Outgoing::new(alloc)?;
    send_sweep(&mut out, first, spans, sink)?;
    Ok(())
}

/// Returns the text of the same sweep, in memory.
pub fn sweep_text(alloc: Global, first: u32, spans: &[u64]) -> Result<Vec<u8>, AllocError>
    requires { length spans.now ≤ MOST_LINES }
    ensures { IfOk result (λ text. text.items ≡ sweep_lines first spans.now) }
{
    let mut text = Bytes::new(Vec::new(alloc));
    match write_sweep(alloc, first, spans, &mut text) {
        Ok(()) => Ok(text.bytes),
        Err(_) => Err(AllocError),
    }
}

// Sends the text of a sweep, of which nothing was formed yet.
fn send_sweep<W: Sink>(
    out: &mut Outgoing,
    first: u32,
    spans: &[u64],
    sink: &mut W,
) -> Result<(), Stopped>
    requires unused { IsUnused out.old }
    requires size { size out.old ≡ 0 }
    requires few { length spans.now ≤ MOST_LINES }
    requires failures { W.failures sink.old < u64.MAX }
    ensures sent { MatchResult result
        (λ _. Appends (W.written sink.old) (W.written sink.new) (sweep_lines first spans.now))
        (λ s. StopsAt s.gone (sweep_lines first spans.now) (W.written sink.old) (W.written sink.new)) }
    ensures failures { CountsFailure result (W.failures sink.old) (W.failures sink.new) }
{
    put_lines(out, &Swept { first, spans }, sink)?;
    out.send(sink)
}

// The spans of a sweep, a line for each, with its number counted from `first`.
#[derive(Clone, Copy)]
struct Swept<'a> {
    first: u32,
    spans: &'a [u64],
}

impl Lines for Swept<'_> {
    ghost count = { λ s. length s.spans.now };

    ghost line = { λ s i. sweep_line (s.first + i) (slice_index s.spans.now i) };

    fn len(&self) -> usize {
        self.spans.len()
    }

    fn line_before(&self, room: &mut [u8], place: usize, index: usize) -> usize {
        let number = u64::from(self.first) + index as u64;
        swept_before(room, place, number, self.spans[index])
    }
}

// Forms the line of a row or a cown in a sweep before what a room has from a place on, and says where it begins.
fn swept_before(room: &mut [u8], place: usize, number: u64, span: u64) -> usize
    requires room { (MOST_SWEPT ≤ place) × (place ≤ length room.old) }
    ensures written { drop result room.new ≡ sweep_line number span ++ drop place room.old }
    ensures near { (result ≤ place) × (place ≤ result + MOST_SWEPT) }
{
    let span_at = write_before(room, place, span, b'\n');
    write_before(room, span_at, number, b' ')
}
