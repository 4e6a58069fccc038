// Lines that are formed one before the other, and go out together.

ghost use Rattle.std.specs.Prelude.{◌≡◌, ◌++◌, ◌+◌, ◌-◌, ◌*◌, ◌<◌, ◌≤◌, ◌^◌, ℕ, List, drop, length, OnOk};
ghost use Rattle.boc_text.specs.Outgoing.{Puts, size};
ghost use Rattle.boc_text.specs.Streams.{CountsFailure};
ghost use Rattle.boc_report.specs.ByLine.{lines_from};
ghost use Rattle.boc_report.specs.declared.number_line.TheConstants.{MOST_LINES, MOST_PART, TOGETHER};
ghost use Rattle.boc_report.specs.declared.by_line.TheConstants.{LINES_ROOM, MOST_LINE};

use crate::number_line::{MOST_FIELD, TOGETHER};
use boc_text::{Outgoing, Sink, Stopped};

/// The most bytes of a line.
pub(crate) const MOST_LINE: usize = 4 * MOST_FIELD;

/// The size of the buffer in which lines are formed that go out together.
const LINES_ROOM: usize = TOGETHER * MOST_LINE;

/// Lines of one kind.
pub(crate) trait Lines {
    ghost count: { Self → ℕ };

    ghost line: { Self → ℕ → List ℕ };

    /// Returns how many lines there are.
    fn len(&self) -> usize
        ensures { result ≡ count self.now };

    /// Forms the line with this index before what a buffer has from a place on, and returns where it begins.
    fn line_before(&self, room: &mut [u8], place: usize, index: usize) -> usize
        requires there { index < count self.now }
        requires few { count self.now ≤ MOST_LINES }
        requires room { (MOST_LINE ≤ place) × (place ≤ length room.old) }
        ensures written { drop result room.new ≡ line self.now index ++ drop place room.old }
        ensures near { (result ≤ place) × (place ≤ result + MOST_LINE) };
}

/// Writes lines. Those that go out together are formed in a buffer that all share.
pub(crate) fn put_lines<L: Lines, W: Sink>(
    out: &mut Outgoing,
    lines: &L,
    sink: &mut W,
) -> Result<(), Stopped>
    requires few { L.count lines.now ≤ MOST_LINES }
    requires size { size out.old ≤ 3 * MOST_PART }
    requires failures { W.failures sink.old < u64.MAX }
    ensures goes_on { Puts (lines_from (L.line lines.now) 0 (L.count lines.now)) result out.old out.new (W.written sink.old) (W.written sink.new) }
    ensures size { OnOk result (size out.new ≤ size out.old + MOST_LINE * L.count lines.now) }
    ensures failures { CountsFailure result (W.failures sink.old) (W.failures sink.new) }
{
    let mut room = [0; LINES_ROOM];
    let count = lines.len();
    let mut first = 0;
    while first < count {
        let after = count.min(first + TOGETHER);
        let begin = lines_before(lines, &mut room, first, after);
        out.put(&room[begin..], sink)?;
        first = after;
    }
    Ok(())
}

// Forms the lines from one index on, up to another one, at the end of a buffer, and returns where they begin.
fn lines_before<L: Lines>(lines: &L, room: &mut [u8], first: usize, after: usize) -> usize
    requires room { length room.old ≡ LINES_ROOM }
    requires few { (first ≤ after) × (after ≤ first + TOGETHER) }
    requires there { (after ≤ L.count lines.now) × (L.count lines.now ≤ MOST_LINES) }
    ensures written { drop result room.new ≡ lines_from (L.line lines.now) first (after - first) }
    ensures near { (result ≤ LINES_ROOM) × (LINES_ROOM ≤ result + MOST_LINE * (after - first)) }
    ensures long { length room.new ≡ LINES_ROOM }
{
    let mut place = after;
    let mut begin = LINES_ROOM;
    while place > first {
        place -= 1;
        begin = lines.line_before(room, begin, place);
    }
    begin
}
