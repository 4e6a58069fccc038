// The lines of a record: each is read, or refused. Most lines of events are found by `ahead` before that.

ghost use Rattle.std.specs.Prelude.{◌≡◌, ◌≤◌, ◌++◌, ℕ, List, codes, length, MatchOption};
ghost use Rattle.boc_program.specs.declared.limits.TheConstants.{MOST_COWNS, MOST_HELD};
ghost use Rattle.boc_runs.specs.Legal.{entry_cowns, HasBounds};
ghost use Rattle.boc_record.specs.RecordTexts.{Version as Spelling, fields as fields_of, header, event_line, status_number, written_fields, IsHeader};
ghost use Rattle.boc_record.specs.RecordTexts.{IsEventLine, IsSpelt};
ghost use Rattle.boc_record.specs.Versions.{spelling};
ghost use Rattle.boc_record.specs.Fields.{AreSmall, Tells, TellsWritten};

use crate::fields::{cowns_of, split_field};
use crate::version::Version;
use boc_program::body::EndStatus;
use boc_program::limits::MOST_COWNS;
use boc_program::short::Cowns;
use boc_rules::Judge;
use boc_runs::event::Event;

/// Returns the version and the number of cowns that a first line reports.
pub fn version_and_cowns(line: &[u8]) -> Option<(Version, u32)>
    ensures { MatchOption result (IsHeader line.now → ⊥) (λ h. (h.1 ≤ MOST_COWNS) × (line.now ≡ header (spelling h.0) h.1)) }
{
    let (number, after_number) = split_field(after_mark(line)?)?;
    let (cowns, rest) = split_field(after_number)?;
    if !rest.is_empty() || cowns as usize > MOST_COWNS {
        return None;
    }
    Some((Version::of_number(number)?, cowns))
}

// Returns what comes after the mark at the front of a first line.
fn after_mark(line: &[u8]) -> Option<&[u8]>
    ensures { MatchOption result ((rest : List ℕ) → line.now ≡ codes "boc" ++ rest → ⊥) (λ rest. line.now ≡ codes "boc" ++ rest.now) }
{
    match line {
        [b'b', b'o', b'c', rest @ ..] => Some(rest),
        _ => None,
    }
}

/// Returns the event of a line that follows those of this run, in this version.
pub fn event_of_line(line: &[u8], version: Version, judge: &Judge) -> Option<Event>
    ensures { MatchOption result (IsEventLine (spelling version) line.now → ⊥)
        (λ event. HasBounds event × (line.now ≡ event_line (spelling version) event) × IsSpelt (spelling version) judge.now.rows event) }
{
    let (sign, fields) = line.split_first()?;
    match sign {
        b'+' => spawn_of(fields),
        b'>' => start_of(fields),
        b'<' => end_of(fields, version, judge),
        _ => None,
    }
}

// Returns the spawn that these fields report, in any version: a row, its parent, an offset and cowns.
fn spawn_of(fields: &[u8]) -> Option<Event>
    ensures { MatchOption result ((v : Spelling) (event : Event) → Tells v 43 fields.now event → ⊥) (λ event. (v : Spelling) → Tells v 43 fields.now event) }
{
    let (row, after_row) = split_field(fields)?;
    let (parent, after_parent) = split_field(after_row)?;
    let (offset, after_offset) = split_field(after_parent)?;
    let cowns = cowns_of(after_offset)?;
    Some(Event::Spawn {
        row,
        parent,
        offset,
        cowns,
    })
}

// Returns the start that these fields report, in any version: a row.
fn start_of(fields: &[u8]) -> Option<Event>
    ensures { MatchOption result ((v : Spelling) (event : Event) → Tells v 62 fields.now event → ⊥) (λ event. (v : Spelling) → Tells v 62 fields.now event) }
{
    let (row, after_row) = split_field(fields)?;
    if !after_row.is_empty() {
        return None;
    }
    Some(Event::Start { row })
}

// Returns the end that these fields report: a row, its ticks, its status and what it wrote.
fn end_of(fields: &[u8], version: Version, judge: &Judge) -> Option<Event>
    ensures { MatchOption result ((event : Event) → Tells (spelling version) 60 fields.now event → ⊥)
        (λ event. Tells (spelling version) 60 fields.now event × IsSpelt (spelling version) judge.now.rows event) }
{
    let (row, after_row) = split_field(fields)?;
    let (ticks, after_ticks) = split_field(after_row)?;
    let (number, after_number) = split_field(after_ticks)?;
    let written = written_of(after_number, row, version, judge)?;
    let status = status_of(number)?;
    Some(Event::End {
        row,
        ticks,
        status,
        written,
    })
}

// Returns what the last fields of a row's end say that it wrote. In the first version there are none, and they stand for all
// of its cowns.
fn written_of(fields: &[u8], row: u32, version: Version, judge: &Judge) -> Option<Cowns>
    ensures { MatchOption result ((written : List ℕ) → AreSmall written → length written ≤ MOST_HELD
        → fields.now ≡ fields_of (written_fields (spelling version) written) → ⊥)
        (λ written. TellsWritten (spelling version) judge.now.rows row fields.now written.items) }
{
    match version {
        Version::First if fields.is_empty() => Some(all_cowns_of(row, judge)),
        Version::First => None,
        Version::Second => cowns_of(fields),
    }
}

// Returns all cowns of a row; none where it isn't there.
fn all_cowns_of(row: u32, judge: &Judge) -> Cowns
    ensures all { result.items ≡ entry_cowns judge.now.rows row }
    ensures small { AreSmall result.items }
    ensures few { length result.items ≤ MOST_HELD }
{
    match judge.cowns_of(row) {
        Some(cowns) => cowns.widened(),
        None => Cowns::new(),
    }
}

// Returns the status of a number.
pub fn status_of(number: u32) -> Option<EndStatus>
    ensures { MatchOption result ((status : EndStatus) → number ≡ status_number status → ⊥) (λ status. number ≡ status_number status) }
{
    match number {
        0 => Some(EndStatus::Done),
        1 => Some(EndStatus::Overflow),
        2 => Some(EndStatus::ZeroDivisor),
        3 => Some(EndStatus::OutOfRange),
        4 => Some(EndStatus::SameCown),
        5 => Some(EndStatus::Negative),
        6 => Some(EndStatus::TickCap),
        _ => None,
    }
}
