// The line of an event at the front of bytes that are taken in, read without looking for its end first. There are two
// readers of events: this one is the faster, and finds most; `line` has the others, with longer numbers or near the end of
// the bytes, and says which lines are none.

ghost use Rattle.std.specs.Prelude.{◌≡◌, ◌<◌, ◌≤◌, length, IfSome};
ghost use Rattle.boc_program.specs.declared.limits.TheConstants.{MOST_HELD};
ghost use Rattle.boc_record.specs.RecordTexts.{Version as Spelling, Second};
ghost use Rattle.boc_record.specs.Versions.{spelling};
ghost use Rattle.boc_record.specs.Fields.{IsFront};
ghost use Rattle.boc_record.specs.Ahead.{IsFieldAhead, AreFieldsAhead, TellsAhead, IsLineAhead};

use crate::line::status_of;
use crate::version::Version;
use boc_program::short::Cowns;
use boc_runs::event::Event;
use boc_text::MOST_LINE;

/// How many bytes are looked at: a sign, eleven fields of at most eight bytes, and as many again as a field and a byte.
const AHEAD: usize = 98;

/// One digit more than are read of a number.
const DIGITS: usize = 8;

// Returns how many digits are at the front of a text, and what they are worth, where there are at most seven.
#[inline(always)]
fn few_digits(text: &[u8]) -> Option<(usize, u32)>
    requires { 8 ≤ length text.now }
    ensures few { IfSome result (λ x. x.0 < 8) }
    ensures front { IfSome result (λ x. IsFront text.now x.0 x.1) }
{
    let mut value: u32 = 0;
    for i in 0..DIGITS {
        let byte = text[i];
        if !byte.is_ascii_digit() {
            return Some((i, value));
        }
        value = 10 * value + u32::from(byte - b'0');
    }
    None
}

// Returns the field at the front of a text, and what comes after it, where it has at most seven digits.
#[inline(always)]
fn field_ahead(text: &[u8]) -> Option<(u32, &[u8])>
    requires { 9 ≤ length text.now }
    ensures { IfSome result (λ x. IsFieldAhead text.now x.0 x.1.now) }
{
    if text[0] != b' ' {
        return None;
    }
    let after = &text[1..];
    let (len, value) = few_digits(after)?;
    if len == 0 {
        return None;
    }
    if after[0] == b'0' && len > 1 {
        return None;
    }
    Some((value, &after[len..]))
}

// Returns the cowns that are at the front of a text, up to a byte that is no space, and what comes after them.
fn cowns_ahead(text: &[u8]) -> Option<(Cowns, &[u8])>
    requires { 73 ≤ length text.now }
    ensures fields { IfSome result (λ x. AreFieldsAhead text.now x.0.items x.1.now) }
    ensures few { IfSome result (λ x. length x.0.items ≤ MOST_HELD) }
{
    let mut cowns = Cowns::new();
    let mut rest = text;
    while rest[0] == b' ' {
        if cowns.is_full() {
            return None;
        }
        let (cown, after) = field_ahead(rest)?;
        cowns.push(cown);
        rest = after;
    }
    Some((cowns, rest))
}

// Returns the spawn that the fields at the front of a text report, in any version, and what comes after them.
fn spawn_ahead(fields: &[u8]) -> Option<(Event, &[u8])>
    requires { 97 ≤ length fields.now }
    ensures { (v : Spelling) → IfSome result (λ x. TellsAhead v 43 fields.now x.0 x.1.now) }
{
    let (row, after_row) = field_ahead(fields)?;
    let (parent, after_parent) = field_ahead(after_row)?;
    let (offset, after_offset) = field_ahead(after_parent)?;
    let (cowns, rest) = cowns_ahead(after_offset)?;
    let event = Event::Spawn {
        row,
        parent,
        offset,
        cowns,
    };
    Some((event, rest))
}

// Returns the start that the field at the front of a text reports, in any version, and what comes after it.
fn start_ahead(fields: &[u8]) -> Option<(Event, &[u8])>
    requires { 97 ≤ length fields.now }
    ensures { (v : Spelling) → IfSome result (λ x. TellsAhead v 62 fields.now x.0 x.1.now) }
{
    let (row, rest) = field_ahead(fields)?;
    Some((Event::Start { row }, rest))
}

// Returns the end that the fields at the front of a text report in the second version, and what comes after them.
fn end_ahead(fields: &[u8]) -> Option<(Event, &[u8])>
    requires { 97 ≤ length fields.now }
    ensures { IfSome result (λ x. TellsAhead Second 60 fields.now x.0 x.1.now) }
{
    let (row, after_row) = field_ahead(fields)?;
    let (ticks, after_ticks) = field_ahead(after_row)?;
    let (number, after_number) = field_ahead(after_ticks)?;
    let (written, rest) = cowns_ahead(after_number)?;
    let status = status_of(number)?;
    let event = Event::End {
        row,
        ticks,
        status,
        written,
    };
    Some((event, rest))
}

// Returns the event that a sign and the fields at the front of a text report, and what comes after them.
fn told_ahead(sign: u8, fields: &[u8], version: Version) -> Option<(Event, &[u8])>
    requires { 97 ≤ length fields.now }
    ensures { IfSome result (λ x. TellsAhead (spelling version) sign fields.now x.0 x.1.now) }
{
    match sign {
        b'+' => spawn_ahead(fields),
        b'>' => start_ahead(fields),
        b'<' => match version {
            Version::First => None,
            Version::Second => end_ahead(fields),
        },
        _ => None,
    }
}

/// Returns the event whose line is at the front of bytes with its line feed, and how many bytes that line has. It need not
/// be found: a line with longer numbers, one near the end of the bytes and an end of the first version are not.
#[inline(always)]
pub fn event_ahead(bytes: &[u8], version: Version) -> Option<(Event, usize)>
    ensures { IfSome result (λ x. IsLineAhead (spelling version) bytes.now x.0 x.1) }
{
    if bytes.len() < AHEAD {
        return None;
    }
    let (event, rest) = told_ahead(bytes[0], &bytes[1..], version)?;
    let len = bytes.len() - rest.len();
    if rest[0] != b'\n' || len > MOST_LINE {
        return None;
    }
    Some((event, len))
}
