// From a record to its text.

ghost use Rattle.std.specs.Prelude.{◌≡◌, ◌<◌, ◌≤◌, ◌+◌, ◌*◌, [], ◌∷◌, ◌++◌, ℕ, List, Option, suc, codes, length, drop, take, ◌-◌, OnOk, OnErr, MatchResult};
ghost use Rattle.boc_record.specs.RecordTexts.{Second, field, fields, line, header, event_line, event_lines, record_text, status_number};
ghost use Rattle.std.specs.Io.KnownBytes.{Appends};
ghost use Rattle.boc_text.specs.Streams.{StopsAt};
ghost use Rattle.boc_text.specs.Outgoing.{IsOut, IsUnused, size};
ghost use Rattle.boc_text.specs.Writing.{Writes, CountsWrite};
ghost use Rattle.boc_record.specs.Writing.{PutsFirst};
ghost use Rattle.boc_record.specs.declared.text.TheConstants.{MOST_BYTES, MOST_EVENTS, MOST_FIELD};

use boc_program::body::EndStatus;
use boc_program::limits::{MOST_HELD, MOST_ROWS};
use boc_program::short::Cowns;
use boc_runs::event::Event;
use boc_runs::events::Events;
use boc_runs::record::Record;
use boc_text::{MOST_DIGITS, Outgoing, Sink, Stopped, WriteFault, write_before};
use std::alloc::{AllocError, Global};

/// The number of the version in which records are written, the second.
const WRITTEN_VERSION: u32 = 2;

// The most bytes of a number after a space.
const MOST_FIELD: usize = MOST_DIGITS + 1;

// The most bytes of a line. It has a mark, at most eleven numbers, and a line feed.
const MOST_BYTES: usize = 256;

// How many lines are formed one before the other, and go out together.
const TOGETHER: usize = 64;

// The buffer in which they are formed.
const ROOM: usize = TOGETHER * MOST_BYTES;

// The most events of a record: three for each row.
const MOST_EVENTS: usize = 3 * MOST_ROWS;

/// Writes the text of a record, in the second version. It goes out in parts while it is formed; after a failing write a beginning of
/// it went out. All memory is taken before the first part goes out.
pub fn write_record<W: Sink>(alloc: Global, record: &Record, sink: &mut W) -> Result<(), WriteFault>
    requires { W.failures sink.old < u64.MAX }
    ensures written { Writes (record_text Second «record».now.cowns «record».now.events) result (W.written sink.old) (W.written sink.new) }
    ensures failures { CountsWrite result (W.failures sink.old) (W.failures sink.new) }
{
    let mut text = Outgoing::new(alloc)?;
    send_record(&mut text, record, sink)?;
    Ok(())
}

// Sends the text of a record, of which nothing was formed yet.
fn send_record<W: Sink>(text: &mut Outgoing, record: &Record, sink: &mut W) -> Result<(), Stopped>
    requires unused { IsUnused text.old }
    requires size { size text.old ≡ 0 }
    requires failures { W.failures sink.old < u64.MAX }
    ensures sent { MatchResult result
        (λ _. Appends (W.written sink.old) (W.written sink.new) (record_text Second «record».now.cowns «record».now.events))
        (λ s. StopsAt s.gone (record_text Second «record».now.cowns «record».now.events) (W.written sink.old) (W.written sink.new)) }
    ensures failures { MatchResult result (λ _. W.failures sink.new ≡ W.failures sink.old) (λ _. W.failures sink.new ≡ W.failures sink.old + 1) }
{
    let mut room = [b'\n'; MOST_BYTES];
    let begin = header_before(&mut room, record.cowns());
    text.put(&room[begin..], sink)?;
    send_events(text, &record.events(), sink)?;
    text.put(b".\n", sink)?;
    text.send(sink)
}

// Appends the lines of events to a text that goes out. Those that go out together are formed in a space that all share.
fn send_events<W: Sink>(
    text: &mut Outgoing,
    events: &Events<'_>,
    sink: &mut W,
) -> Result<(), Stopped>
    requires few { length events.now ≤ MOST_EVENTS }
    requires size { size text.old ≤ MOST_BYTES }
    requires failures { W.failures sink.old < u64.MAX }
    ensures goes_on { (before : Option (List ℕ)) (start : List ℕ) → IsOut before (W.written sink.old) start text.old → MatchResult result
        (λ _. IsOut before (W.written sink.new) (start ++ event_lines Second events.now) text.new)
        (λ s. StopsAt s.gone (start ++ event_lines Second events.now) before (W.written sink.new)) }
    ensures size { OnOk result (size text.new ≤ MOST_BYTES + MOST_BYTES * length events.now) }
    ensures failures { MatchResult result (λ _. W.failures sink.new ≡ W.failures sink.old) (λ _. W.failures sink.new ≡ W.failures sink.old + 1) }
{
    let mut room = [b'\n'; ROOM];
    let mut first = 0;
    while first < events.len() {
        let behind = events.len().min(first + TOGETHER);
        let begin = lines_before(&mut room, events, first, behind);
        text.put(&room[begin..], sink)?;
        first = behind;
    }
    Ok(())
}

// Forms the lines of the events from a place on up to another at the end of a room, and says where they begin.
fn lines_before(room: &mut [u8], events: &Events<'_>, first: usize, behind: usize) -> usize
    requires room { length room.old ≡ ROOM }
    requires ordered { first ≤ behind }
    requires within { behind ≤ length events.now }
    requires few { behind ≤ first + TOGETHER }
    ensures written { drop result room.new ≡ event_lines Second (take (behind - first) (drop first events.now)) }
    ensures near { (result ≤ ROOM) × (ROOM ≤ result + MOST_BYTES * (behind - first)) }
    ensures long { length room.new ≡ ROOM }
{
    let mut place = behind;
    let mut begin = ROOM;
    while place > first {
        place -= 1;
        begin = line_before(room, begin, &events.get(place));
    }
    begin
}

/// Appends the lines of events to a text, as the second version of records has them. `AllocError` says that memory was refused;
/// then whole lines are there, those of the first events and not of all.
pub fn put_events(text: &mut Vec<u8>, events: &Events<'_>) -> Result<(), AllocError>
    ensures ok { OnOk result (text.new.items ≡ text.old.items ++ event_lines Second events.now) }
    ensures err { OnErr result (PutsFirst Second events.now text.old.items text.new.items) }
{
    let mut room = [b'\n'; MOST_BYTES];
    for place in 0..events.len() {
        put_event(text, &mut room, &events.get(place))?;
    }
    Ok(())
}

/// Appends the line of an event to a text, as the second version of records has it. Nothing of it is appended where memory is refused.
pub fn put_line(text: &mut Vec<u8>, event: &Event) -> Result<(), AllocError>
    ensures ok { OnOk result (text.new.items ≡ text.old.items ++ line (event_line Second event.now)) }
    ensures err { OnErr result (text.new.items ≡ text.old.items) }
{
    let mut room = [b'\n'; MOST_BYTES];
    put_event(text, &mut room, event)
}

// Appends the line of an event to a text. It is formed in a space that all lines share. Nothing of it is put where memory is
// refused.
fn put_event(text: &mut Vec<u8>, room: &mut [u8], event: &Event) -> Result<(), AllocError>
    requires { length room.old ≡ MOST_BYTES }
    ensures ok { OnOk result (text.new.items ≡ text.old.items ++ line (event_line Second event.now)) }
    ensures err { OnErr result (text.new.items ≡ text.old.items) }
{
    let begin = last_line_before(room, event);
    text.extend_from_slice(&room[begin..])
}

// Forms the first line of a record at the end of a room, and says where it begins.
fn header_before(room: &mut [u8], cowns: u32) -> usize
    requires { length room.old ≡ MOST_BYTES }
    ensures written { drop result room.new ≡ line (header Second cowns) }
    ensures within { result ≤ MOST_BYTES }
{
    let feed = end_line(room);
    let at = field_before(room, feed, cowns);
    let at = field_before(room, at, WRITTEN_VERSION);
    let at = mark_before(room, at, b'c');
    let at = mark_before(room, at, b'o');
    mark_before(room, at, b'b')
}

// Forms the line of an event at the end of a room, and says where it begins.
fn last_line_before(room: &mut [u8], event: &Event) -> usize
    requires { length room.old ≡ MOST_BYTES }
    ensures written { drop result room.new ≡ line (event_line Second event.now) }
    ensures within { result ≤ MOST_BYTES }
{
    line_before(room, MOST_BYTES, event)
}

// Forms the line of an event before what a room has from a place on, and says where it begins.
#[inline(always)]
fn line_before(room: &mut [u8], place: usize, event: &Event) -> usize
    requires room { (MOST_BYTES ≤ place) × (place ≤ length room.old) }
    ensures written { drop result room.new ≡ line (event_line Second event.now) ++ drop place room.old }
    ensures near { (result ≤ place) × (place ≤ result + MOST_BYTES) }
{
    let feed = mark_before(room, place, b'\n');
    match event {
        Event::Spawn {
            row,
            parent,
            offset,
            cowns,
        } => {
            let cowns_at = cowns_before(room, feed, cowns);
            three_before(room, cowns_at, b'+', *row, *parent, *offset)
        }
        Event::Start { row } => {
            let at = field_before(room, feed, *row);
            mark_before(room, at, b'>')
        }
        Event::End {
            row,
            ticks,
            status,
            written,
        } => {
            let written_at = cowns_before(room, feed, written);
            three_before(room, written_at, b'<', *row, *ticks, number_of(*status))
        }
    }
}

// Puts a line feed at the end of a room, and says where it is.
fn end_line(room: &mut [u8]) -> usize
    requires { length room.old ≡ MOST_BYTES }
    ensures last { suc result ≡ MOST_BYTES }
    ensures feed { drop result room.new ≡ codes "\n" }
{
    mark_before(room, MOST_BYTES, b'\n')
}

// Puts cowns before the line feed of a line, and says where they begin.
fn cowns_before(line: &mut [u8], feed: usize, cowns: &Cowns) -> usize
    requires room { (MOST_BYTES ≤ suc feed) × (feed < length line.old) }
    ensures written { drop result line.new ≡ fields cowns.now.items ++ drop feed line.old }
    ensures room { (4 * MOST_FIELD < result) × (result < length line.new) }
    ensures near { (result ≤ feed) × (feed ≤ result + MOST_FIELD * MOST_HELD) }
{
    let count = cowns.len();
    prove!(count <= MOST_HELD);
    fields_before(line, feed, cowns.as_slice())
}

// Puts a mark and three numbers before what a line has from a place on, and says where they begin.
fn three_before(
    line: &mut [u8],
    place: usize,
    mark: u8,
    first: u32,
    second: u32,
    third: u32,
) -> usize
    requires room { (4 * MOST_FIELD < place) × (place < length line.old) }
    ensures written { drop result line.new ≡ mark ∷ fields (first ∷ second ∷ third ∷ []) ++ drop place line.old }
    ensures near { (result ≤ place) × (place ≤ result + 4 * MOST_FIELD) }
{
    let at = field_before(line, place, third);
    let at = field_before(line, at, second);
    let at = field_before(line, at, first);
    mark_before(line, at, mark)
}

// Puts a mark before what a line has from a place on, and says where it is.
fn mark_before(line: &mut [u8], place: usize, mark: u8) -> usize
    requires room { (0 < place) × (place ≤ length line.old) }
    ensures written { drop result line.new ≡ mark ∷ drop place line.old }
    ensures near { suc result ≡ place }
{
    let at = place - 1;
    line[at] = mark;
    at
}

// Puts numbers, each after a space, before what a line has from a place on, and says where they begin.
fn fields_before(line: &mut [u8], place: usize, numbers: &[u32]) -> usize
    requires room { (MOST_FIELD * length numbers.now + MOST_FIELD < place) × (place < length line.old) }
    ensures written { drop result line.new ≡ fields numbers.now ++ drop place line.old }
    ensures near { (result ≤ place) × (place ≤ result + MOST_FIELD * length numbers.now) }
{
    match numbers {
        [] => place,
        [first, rest @ ..] => {
            let at = fields_before(line, place, rest);
            field_before(line, at, *first)
        }
    }
}

// Puts a number after a space before what a line has from a place on, and says where the space is.
fn field_before(line: &mut [u8], place: usize, number: u32) -> usize
    requires room { (MOST_FIELD < place) × (place < length line.old) }
    ensures written { drop result line.new ≡ field number ++ drop place line.old }
    ensures near { (result ≤ place) × (place ≤ result + MOST_FIELD) }
{
    let next = line[place];
    let at = write_before(line, place + 1, u64::from(number), next) - 1;
    line[at] = b' ';
    at
}

// Returns the number of a status.
fn number_of(status: EndStatus) -> u32
    ensures { result ≡ status_number status }
{
    match status {
        EndStatus::Done => 0,
        EndStatus::Overflow => 1,
        EndStatus::ZeroDivisor => 2,
        EndStatus::OutOfRange => 3,
        EndStatus::SameCown => 4,
        EndStatus::Negative => 5,
        EndStatus::TickCap => 6,
    }
}
