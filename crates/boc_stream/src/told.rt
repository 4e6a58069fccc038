// What a line of a stream reports.

ghost use Rattle.std.specs.Prelude.{◌≡◌, ◌<◌, ◌^◌, ◌++◌, ℕ, List, [], codes, false, IsTrue, IfOk, MatchOption};
ghost use Rattle.boc_record.specs.RecordTexts.{Version as Spelling, version_number, status_number};
ghost use Rattle.boc_program.specs.declared.body.EndStatus.{EndStatus};
ghost use Rattle.boc_stream.specs.declared.told.Told.{Told};
ghost use Rattle.boc_stream.specs.StreamFields.{IsShort, IsOfShorts};
ghost use Rattle.boc_stream.specs.StreamTexts.{spelling, stream_header, FollowsSign, SaysFront, Says, MayHave};

use crate::fields::{read_fields, split_field};
use boc_program::body::EndStatus;
use std::alloc::AllocError;

/// The version of a stream's lines. In the first an end does not say which cowns were written: it stands for all of its row.
#[derive(Clone, Copy, PartialEq, Eq, Debug)]
pub enum Version {
    First,
    Second,
}

/// What the first line says.
#[derive(Clone, Copy, Debug)]
pub struct Header {
    pub version: Version,
    pub cowns: u64,
}

/// What a line reports, without the cowns at its end.
#[derive(Clone, Copy, Debug)]
pub enum Told {
    Spawn {
        row: u64,
        parent: u64,
        offset: u64,
    },
    Start {
        row: u64,
    },
    End {
        row: u64,
        ticks: u64,
        status: EndStatus,
    },
    /// The line `.`.
    Last,
}

// Returns the version of a number.
fn version_of(number: u64) -> Option<Version>
    ensures { MatchOption result ((v : Spelling) → number ≡ version_number v → ⊥) (λ version. number ≡ version_number (spelling version)) }
{
    match number {
        1 => Some(Version::First),
        2 => Some(Version::Second),
        _ => None,
    }
}

// Returns what comes after the mark at the front of a first line.
fn after_mark(line: &[u8]) -> Option<&[u8]>
    ensures { MatchOption result ((rest : List ℕ) → line.now ≡ codes "boc" ++ rest → ⊥) (λ rest. line.now ≡ codes "boc" ++ rest.now) }
{
    match line {
        [b'b', b'o', b'c', rest @ ..] => Some(rest),
        _ => None,
    }
}

/// Returns what a line says that is a first one.
pub fn header_of(line: &[u8]) -> Option<Header>
    ensures { MatchOption result ((v : Spelling) (n : ℕ) → IsShort n → line.now ≡ stream_header v n → ⊥)
        (λ h. IsShort h.cowns × (line.now ≡ stream_header (spelling h.version) h.cowns)) }
{
    let (number, after_number) = split_field(after_mark(line)?)?;
    let (cowns, rest) = split_field(after_number)?;
    if !rest.is_empty() {
        return None;
    }
    let version = version_of(number)?;
    Some(Header { version, cowns })
}

// Returns the status of a number.
fn status_of(number: u64) -> Option<EndStatus>
    ensures { MatchOption result ((status : EndStatus) → number ≡ status_number status → ⊥) (λ status. number ≡ status_number status) }
{
    match number {
        0 => Some(EndStatus::Done),
        1 => Some(EndStatus::Overflow),
        2 => Some(EndStatus::ZeroDivisor),
        3 => Some(EndStatus::OutOfRange),
        4 => Some(EndStatus::SameCown),
        5 => Some(EndStatus::Negative),
        6 => Some(EndStatus::TickCap),
        _ => None,
    }
}

// Returns the spawn at the front of fields, and what comes after it: its cowns.
fn spawn_of(fields: &[u8]) -> Option<(Told, &[u8])>
    ensures { MatchOption result ((told : Told) (rest : List ℕ) → FollowsSign 43 fields.now told rest → ⊥) (λ p. FollowsSign 43 fields.now p.0 p.1.now) }
{
    let (row, after_row) = split_field(fields)?;
    let (parent, after_parent) = split_field(after_row)?;
    let (offset, cowns) = split_field(after_parent)?;
    Some((
        Told::Spawn {
            row,
            parent,
            offset,
        },
        cowns,
    ))
}

// Returns the end at the front of fields, and what comes after it: the cowns that were written.
fn end_of(fields: &[u8]) -> Option<(Told, &[u8])>
    ensures { MatchOption result ((told : Told) (rest : List ℕ) → FollowsSign 60 fields.now told rest → ⊥) (λ p. FollowsSign 60 fields.now p.0 p.1.now) }
{
    let (row, after_row) = split_field(fields)?;
    let (ticks, after_ticks) = split_field(after_row)?;
    let (number, written) = split_field(after_ticks)?;
    let status = status_of(number)?;
    Some((Told::End { row, ticks, status }, written))
}

// Returns the start at the front of fields, and what comes after it.
fn start_of(fields: &[u8]) -> Option<(Told, &[u8])>
    ensures { MatchOption result ((told : Told) (rest : List ℕ) → FollowsSign 62 fields.now told rest → ⊥) (λ p. FollowsSign 62 fields.now p.0 p.1.now) }
{
    let (row, rest) = split_field(fields)?;
    Some((Told::Start { row }, rest))
}

// Returns what the line `.` reports, if nothing or a field comes after it.
fn last_of(fields: &[u8]) -> Option<(Told, &[u8])>
    ensures { MatchOption result ((told : Told) (rest : List ℕ) → FollowsSign 46 fields.now told rest → ⊥) (λ p. FollowsSign 46 fields.now p.0 p.1.now) }
{
    if !fields.is_empty() && fields[0] != b' ' {
        return None;
    }
    Some((Told::Last, fields))
}

// Returns what a line reports, and the fields of its cowns.
fn parts_of(line: &[u8]) -> Option<(Told, &[u8])>
    ensures { MatchOption result ((told : Told) (rest : List ℕ) → SaysFront line.now told rest → ⊥) (λ p. SaysFront line.now p.0 p.1.now) }
{
    let (sign, fields) = line.split_first()?;
    match sign {
        b'+' => spawn_of(fields),
        b'>' => start_of(fields),
        b'<' => end_of(fields),
        b'.' => last_of(fields),
        _ => None,
    }
}

// Returns whether a line may have cowns.
fn may_have(told: Told, version: Version) -> bool
    ensures yes { IsTrue result → (cowns : List ℕ) → MayHave (spelling version) told cowns }
    ensures no { result ≡ false → (cowns : List ℕ) → MayHave (spelling version) told cowns → cowns ≡ [] }
{
    match told {
        Told::Spawn { .. } => true,
        Told::Start { .. } | Told::Last => false,
        Told::End { .. } => matches!(version, Version::Second),
    }
}

// Returns whether a line may have what comes at its end, if that is cowns.
fn has_form(told: Told, version: Version, fields: &[u8]) -> bool
    ensures yes { IsTrue result → (cowns : List ℕ) → IsOfShorts fields.now cowns → MayHave (spelling version) told cowns }
    ensures no { result ≡ false → (cowns : List ℕ) → IsOfShorts fields.now cowns → MayHave (spelling version) told cowns → ⊥ }
{
    if fields.is_empty() {
        return true;
    }
    may_have(told, version)
}

/// Returns what a line reports, if it is one of a stream, and puts its cowns in place of those that were there.
pub fn told_of(
    line: &[u8],
    version: Version,
    cowns: &mut Vec<u64>,
) -> Result<Option<Told>, AllocError>
    ensures { IfOk result (λ found. MatchOption found ((told : Told) (last : List ℕ) → Says (spelling version) line.now told last → ⊥)
        (λ told. Says (spelling version) line.now told cowns.new.items)) }
{
    let Some((told, fields)) = parts_of(line) else {
        return Ok(None);
    };
    if !has_form(told, version, fields) {
        return Ok(None);
    }
    if !read_fields(cowns, fields)? {
        return Ok(None);
    }
    Ok(Some(told))
}
