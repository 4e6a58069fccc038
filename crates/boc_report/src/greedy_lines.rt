// The parts of a report on workers: the greedy plan, and the timed run.

ghost use Rattle.std.specs.Prelude.{◌≡◌, ◌++◌, ◌+◌, ◌*◌, ◌<◌, ◌≤◌, ◌^◌, Some, codes, drop, length, slice_index, OnOk};
ghost use Rattle.boc_report.specs.Texts.{bound_line, number_line, served_line, served_text, workers_text};
ghost use Rattle.boc_text.specs.Outgoing.{Puts, size};
ghost use Rattle.boc_text.specs.Streams.{CountsFailure};
ghost use Rattle.boc_report.specs.Parts.{AreWhole, IsWhole, part_of, timed_part};
ghost use Rattle.boc_report.specs.declared.number_line.TheConstants.{MOST_LINES, MOST_PART};
ghost use Rattle.boc_report.specs.declared.greedy_lines.TheConstants.{MOST_FRAME};
ghost use Rattle.boc_report.specs.declared.by_line.TheConstants.{MOST_LINE};

use crate::by_line::{Lines, put_lines};
use crate::number_line::{MOST_FIELD, number_before, word_before};
use boc_busy::TimedRows;
use boc_greedy::Greedy;
use boc_text::{Outgoing, Sink, Stopped, write_before};

/// The most bytes of the first line and of the last one.
const MOST_FRAME: usize = 2 * MOST_FIELD + 10;

/// Writes the greedy part of a report: the number of workers, each row with its worker, unless it is wanted without rows, and the end with its bound.
pub(crate) fn put_greedy<W: Sink>(
    out: &mut Outgoing,
    greedy: &Greedy,
    unplanned: bool,
    sink: &mut W,
) -> Result<(), Stopped>
    requires whole { IsWhole greedy.now }
    requires few { length greedy.now.starts.items ≤ MOST_LINES }
    requires size { size out.old ≤ MOST_PART }
    requires failures { W.failures sink.old < u64.MAX }
    ensures goes_on { Puts (part_of unplanned (Some greedy.now)) result out.old out.new (W.written sink.old) (W.written sink.new) }
    ensures size { OnOk result (size out.new ≤ size out.old + MOST_PART) }
    ensures failures { CountsFailure result (W.failures sink.old) (W.failures sink.new) }
{
    let served = ServedRows {
        p: greedy.p,
        starts: &greedy.starts,
        ends: &greedy.ends,
        workers: &greedy.workers,
        ends_at: greedy.ends_at,
        bound: greedy.bound,
    };
    put_served(out, b"greedy ", &served, unplanned, sink)
}

/// Writes the part of a report on a timed run: the number of workers, each row with its worker, unless it is wanted without rows, and the end with its bound.
pub(crate) fn put_timed<W: Sink>(
    out: &mut Outgoing,
    timed: &TimedRows,
    unplanned: bool,
    sink: &mut W,
) -> Result<(), Stopped>
    requires whole { AreWhole timed.now }
    requires few { length timed.now.starts.items ≤ MOST_LINES }
    requires size { size out.old ≤ 2 * MOST_PART }
    requires failures { W.failures sink.old < u64.MAX }
    ensures goes_on { Puts (timed_part unplanned timed.now) result out.old out.new (W.written sink.old) (W.written sink.new) }
    ensures size { OnOk result (size out.new ≤ size out.old + MOST_PART) }
    ensures failures { CountsFailure result (W.failures sink.old) (W.failures sink.new) }
{
    let served = ServedRows {
        p: timed.p,
        starts: &timed.starts,
        ends: &timed.ends,
        workers: &timed.workers,
        ends_at: timed.ends_at,
        bound: timed.bound,
    };
    put_served(out, b"timed ", &served, unplanned, sink)
}

// Writes a word and the number of workers, each row with its worker, unless it is wanted without rows, and the end with its bound.
fn put_served<W: Sink>(
    out: &mut Outgoing,
    word: &[u8],
    served: &ServedRows<'_>,
    unplanned: bool,
    sink: &mut W,
) -> Result<(), Stopped>
    requires word { length word.now ≤ 10 }
    requires few { length served.now.starts.now ≤ MOST_LINES }
    requires size { size out.old ≤ 2 * MOST_PART }
    requires failures { W.failures sink.old < u64.MAX }
    ensures goes_on { Puts (workers_text word.now unplanned served.now.p served.now.starts.now served.now.ends.now served.now.workers.now served.now.ends_at
        served.now.bound) result out.old out.new (W.written sink.old) (W.written sink.new) }
    ensures size { OnOk result (size out.new ≤ size out.old + MOST_PART) }
    ensures failures { CountsFailure result (W.failures sink.old) (W.failures sink.new) }
{
    let mut room = [0; MOST_FRAME];
    let begin = workers_before(&mut room, word, served.p);
    out.put(&room[begin..], sink)?;
    put_rows(out, served, unplanned, sink)?;
    let begin = bound_before(&mut room, served.ends_at, served.bound);
    out.put(&room[begin..], sink)
}

// Writes rows on workers, unless they are not wanted.
fn put_rows<W: Sink>(
    out: &mut Outgoing,
    served: &ServedRows<'_>,
    unplanned: bool,
    sink: &mut W,
) -> Result<(), Stopped>
    requires few { length served.now.starts.now ≤ MOST_LINES }
    requires size { size out.old ≤ 3 * MOST_PART }
    requires failures { W.failures sink.old < u64.MAX }
    ensures goes_on { Puts (served_text unplanned served.now.starts.now served.now.ends.now served.now.workers.now) result out.old out.new
        (W.written sink.old) (W.written sink.new) }
    ensures size { OnOk result (size out.new ≤ size out.old + MOST_LINE * length served.now.starts.now) }
    ensures failures { CountsFailure result (W.failures sink.old) (W.failures sink.new) }
{
    if unplanned {
        return Ok(());
    }
    put_lines(out, served, sink)
}

// Rows on workers, a line for each, between the number of workers and the end.
#[derive(Clone, Copy)]
struct ServedRows<'a> {
    p: u32,
    starts: &'a [u64],
    ends: &'a [u64],
    workers: &'a [u32],
    ends_at: u64,
    bound: u64,
    ghost same: { (length starts.now ≡ length ends.now) × (length starts.now ≡ length workers.now) },
}

impl Lines for ServedRows<'_> {
    ghost count = { λ p. length p.starts.now };

    ghost line = { λ p i. served_line i (slice_index p.starts.now i) (slice_index p.ends.now i) (slice_index p.workers.now i) };

    fn len(&self) -> usize {
        self.starts.len()
    }

    fn line_before(&self, room: &mut [u8], place: usize, index: usize) -> usize {
        served_before(
            room,
            place,
            index as u64,
            self.starts[index],
            self.ends[index],
            self.workers[index],
        )
    }
}

// Forms the line of a word and the number of workers at the end of a room, and says where it begins.
fn workers_before(room: &mut [u8], word: &[u8], workers: u32) -> usize
    requires room { length room.old ≡ MOST_FRAME }
    requires word { length word.now ≤ 10 }
    ensures written { drop result room.new ≡ number_line word.now workers }
    ensures within { result ≤ MOST_FRAME }
{
    number_before(room, MOST_FRAME, word, u64::from(workers))
}

// Forms the line of a row in a greedy plan before what a room has from a place on, and says where it begins.
fn served_before(
    room: &mut [u8],
    place: usize,
    row: u64,
    start: u64,
    end: u64,
    worker: u32,
) -> usize
    requires room { (MOST_LINE ≤ place) × (place ≤ length room.old) }
    ensures written { drop result room.new ≡ served_line row start end worker ++ drop place room.old }
    ensures near { (result ≤ place) × (place ≤ result + MOST_LINE) }
{
    let worker_at = write_before(room, place, u64::from(worker), b'\n');
    let end_at = write_before(room, worker_at, end, b' ');
    let start_at = write_before(room, end_at, start, b' ');
    write_before(room, start_at, row, b' ')
}

// Forms the line of the end of a greedy plan and its bound at the end of a room, and says where it begins.
fn bound_before(room: &mut [u8], end: u64, bound: u64) -> usize
    requires { length room.old ≡ MOST_FRAME }
    ensures written { drop result room.new ≡ bound_line end bound }
    ensures within { result ≤ MOST_FRAME }
{
    let bound_at = write_before(room, MOST_FRAME, bound, b'\n');
    let word_at = word_before(room, bound_at, b"bound ");
    let end_at = write_before(room, word_at, end, b' ');
    word_before(room, end_at, b"end ")
}
