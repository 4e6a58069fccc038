// A stream that is a record is its own window.

ghost use Rattle.std.specs.Prelude.{◌≡◌, ◌<◌, ◌≤◌, ◌^◌, ℕ, List, All, length, map, false, IfErr, IfOk, IfSome, OnOk, MatchOption};
ghost use Rattle.std.specs.Io.KnownBytes.{Keeps};
ghost use Rattle.boc_program.specs.declared.limits.TheConstants.{MOST_COWNS, MOST_HELD};
ghost use Rattle.boc_record.specs.RecordTexts.{Version as Spelling, IsSpelt};
ghost use Rattle.boc_record.specs.Fields.{IsLeftOut};
ghost use Rattle.boc_runs.specs.Legal.{entries, entry_cowns, HasBounds, IsComplete};
ghost use Rattle.boc_stream.specs.declared.told.Told.TheVariants.{Spawn, End};
ghost use Rattle.boc_stream.specs.LongLines.{to_come};
ghost use Rattle.boc_stream.specs.StreamTexts.{spelling};
ghost use Rattle.boc_cut.specs.Counting.{CountsPart, SparesSource};
ghost use Rattle.boc_cut.specs.Whole.{IsNoWhole, IsSmall, SaysEvent, SaysWritten, TakesEvent, AreSpawnedBy, TakesLine, StepsOn, BeginsAs, GivesUp, FollowsAs};
ghost use Rattle.boc_cut.specs.Whole.{EndsAs, FollowsOn, AreWholeOrigins};

use crate::follow::{Step, Stream, unread};
use crate::table::Table;
use crate::window::{Notes, Window};
use boc_program::body::EndStatus;
use boc_program::limits::MOST_COWNS;
use boc_program::short::Cowns;
use boc_rules::{RuleFault, Rules};
use boc_runs::event::Event;
use boc_runs::record::Record;
use boc_stream::{Header, StreamFaultKind, Told, Version, header_of, told_of};
use boc_text::Source;
use std::alloc::{AllocError, Global};

/// What a stream was, as far as it was followed as a record.
pub enum Tried {
    /// The text of a record.
    Record(Record),
    /// Something else: a table has what came of it so far, and there may be more.
    More,
    /// Something else, and there is no more.
    Over,
}

// Returns a number as an event has it, if it can.
fn short(number: u64) -> Option<u32>
    ensures { MatchOption result (number < 2 ^ 32 → ⊥) (λ n. (n ≡ number) × (n < 2 ^ 32)) }
{
    match u32::try_from(number) {
        Ok(short) => Some(short),
        Err(_) => None,
    }
}

// Returns numbers as an event has them, if it can.
fn short_cowns(numbers: &[u64]) -> Option<Cowns>
    ensures { MatchOption result (All (λ n. n < 2 ^ 32) numbers.now → length numbers.now ≤ MOST_HELD → ⊥)
        (λ cowns. (cowns.items ≡ numbers.now) × All (λ n. n < 2 ^ 32) cowns.items × (length cowns.items ≤ MOST_HELD)) }
{
    let mut cowns = Cowns::new();
    for number in numbers {
        if cowns.is_full() {
            return None;
        }
        cowns.push(short(*number)?);
    }
    Some(cowns)
}

// Returns all cowns of a row; none where it isn't there.
fn all_cowns_of(rules: &Rules, row: u32) -> Cowns
    ensures all { result.items ≡ entry_cowns (entries rules.now.events) row }
    ensures small { All (λ n. n < 2 ^ 32) result.items }
    ensures few { length result.items ≤ MOST_HELD }
{
    match rules.cowns_of(row) {
        Some(cowns) => cowns.widened(),
        None => Cowns::new(),
    }
}

// Returns the cowns that a row wrote: in the first version all of its own.
fn written_of(rules: &Rules, version: Version, row: u32, numbers: &[u64]) -> Option<Cowns>
    ensures { MatchOption result (All (λ n. n < 2 ^ 32) numbers.now → length numbers.now ≤ MOST_HELD → ⊥)
        (λ w. SaysWritten (spelling version) numbers.now w.items × All (λ n. n < 2 ^ 32) w.items × (length w.items ≤ MOST_HELD)
        × IsLeftOut (spelling version) (entries rules.now.events) row w.items) }
{
    match version {
        Version::First => Some(all_cowns_of(rules, row)),
        Version::Second => short_cowns(numbers),
    }
}

// Returns the spawn that a line reports, if a record can have it.
fn spawn_of(row: u64, parent: u64, offset: u64, numbers: &[u64]) -> Option<Event>
    ensures { (v : Spelling) → MatchOption result (IsSmall (Spawn row parent offset) numbers.now → ⊥)
        (λ event. HasBounds event × SaysEvent v (Spawn row parent offset) numbers.now event) }
{
    Some(Event::Spawn {
        row: short(row)?,
        parent: short(parent)?,
        offset: short(offset)?,
        cowns: short_cowns(numbers)?,
    })
}

// Returns the end that a line reports, if a record can have it.
fn end_of(
    rules: &Rules,
    version: Version,
    row: u64,
    ticks: u64,
    status: EndStatus,
    numbers: &[u64],
) -> Option<Event>
    ensures { MatchOption result (IsSmall (End row ticks status) numbers.now → ⊥)
        (λ event. HasBounds event × SaysEvent (spelling version) (End row ticks status) numbers.now event
        × IsSpelt (spelling version) (entries rules.now.events) event) }
{
    let row = short(row)?;
    Some(Event::End {
        row,
        ticks: short(ticks)?,
        status,
        written: written_of(rules, version, row, numbers)?,
    })
}

// Returns the event that a line reports, if a record can have it.
fn event_of(rules: &Rules, version: Version, told: Told, numbers: &[u64]) -> Option<Event>
    ensures { MatchOption result (IsSmall told numbers.now → ⊥)
        (λ event. HasBounds event × SaysEvent (spelling version) told numbers.now event × IsSpelt (spelling version) (entries rules.now.events) event) }
{
    match told {
        Told::Spawn {
            row,
            parent,
            offset,
        } => spawn_of(row, parent, offset, numbers),
        Told::Start { row } => Some(Event::Start { row: short(row)? }),
        Told::End { row, ticks, status } => end_of(rules, version, row, ticks, status, numbers),
        Told::Last => None,
    }
}

// Replaces numbers by cowns.
fn put_numbers(numbers: &mut Vec<u64>, cowns: &Cowns) -> Result<(), AllocError>
    ensures { OnOk result (numbers.new.items ≡ cowns.now.items) }
{
    numbers.clear();
    for cown in cowns.iter() {
        numbers.push(u64::from(*cown))?;
    }
    Ok(())
}

// Takes an event into a table.
fn take_event(
    table: &mut Table,
    event: &Event,
    numbers: &mut Vec<u64>,
) -> Result<(), StreamFaultKind>
    ensures { OnOk result (TakesEvent event.now table.old.rows.items table.old.uses.items table.new.rows.items table.new.uses.items) }
{
    match event {
        Event::Spawn {
            row,
            parent,
            offset,
            cowns,
        } => {
            let Ok(()) = put_numbers(numbers, cowns) else {
                return Err(StreamFaultKind::Memory);
            };
            table.spawn(
                u64::from(*row),
                u64::from(*parent),
                u64::from(*offset),
                numbers,
            )
        }
        Event::Start { row } => table.start(u64::from(*row)),
        Event::End {
            row,
            ticks,
            status,
            written,
        } => {
            let Ok(()) = put_numbers(numbers, written) else {
                return Err(StreamFaultKind::Memory);
            };
            table.end(u64::from(*row), u64::from(*ticks), *status, numbers)
        }
    }
}

// Takes the events of a run so far into a table.
fn replay(alloc: Global, rules: &Rules, table: &mut Table) -> Result<(), StreamFaultKind>
    ensures table { OnOk result (AreSpawnedBy rules.now.events table.old.rows.items table.old.uses.items table.new.rows.items table.new.uses.items) }
    ensures unread { IfErr result SparesSource }
{
    let mut numbers = Vec::new(alloc);
    let events = rules.events();
    for place in 0..events.len() {
        match take_event(table, &events.get(place), &mut numbers) {
            Ok(()) => {}
            Err(kind) => return Err(unread(kind)),
        }
    }
    Ok(())
}

// Takes what came of a stream so far into a table, with the line that was found last.
fn give_up(
    alloc: Global,
    stream: &mut Stream,
    rules: &Rules,
    table: &mut Table,
) -> Result<Step, StreamFaultKind>
    ensures lines { stream.new.lines ≡ stream.old.lines }
    ensures table { OnOk result (GivesUp rules.now.events stream.old.lines.line table.old.rows.items table.old.uses.items table.new.rows.items
        table.new.uses.items) }
    ensures unread { IfErr result SparesSource }
{
    replay(alloc, rules, table)?;
    let step = stream.take_line(table)?;
    stream.step();
    Ok(step)
}

// Returns that there may be more lines, or sees that nothing follows the last one.
fn look_on<S: Source>(
    stream: &mut Stream,
    source: &mut S,
    step: Step,
) -> Result<Tried, StreamFaultKind>
    requires failures { S.failures source.old < u64.MAX }
    ensures kept { IfOk result (λ tried. IsNoWhole tried × Keeps (to_come stream.old.lines (S.remaining source.old))
        (to_come stream.new.lines (S.remaining source.new))) }
    ensures failures { CountsPart result (S.failures source.old) (S.failures source.new) }
{
    if step != Step::Last {
        return Ok(Tried::More);
    }
    stream.finish(source)?;
    Ok(Tried::Over)
}

// Takes the first line of a stream. It says a number of cowns that a record can have, or a table has it.
fn begin<S: Source>(
    stream: &mut Stream,
    source: &mut S,
    table: &mut Table,
) -> Result<Option<Header>, StreamFaultKind>
    requires failures { S.failures source.old < u64.MAX }
    requires open { stream.old.lines.is_over ≡ false }
    ensures few { IfOk result (λ begun. IfSome begun (λ header. header.cowns ≤ MOST_COWNS)) }
    ensures begun { BeginsAs result (to_come stream.old.lines (S.remaining source.old)) (to_come stream.new.lines (S.remaining source.new))
        table.old.rows.items table.old.uses.items table.new.rows.items table.new.uses.items }
    ensures open { IfOk result (λ begun. IfSome begun (λ header. stream.new.lines.is_over ≡ false)) }
    ensures failures { CountsPart result (S.failures source.old) (S.failures source.new) }
{
    if !stream.next_line(source)? {
        return Ok(None);
    }
    let Some(header) = header_of(stream.lines.line()) else {
        stream.take_line(table)?;
        stream.step();
        return Ok(None);
    };
    table.begin(header);
    stream.step();
    if header.cowns <= MOST_COWNS as u64 {
        Ok(Some(header))
    } else {
        Ok(None)
    }
}

// Takes the line that was found last, if it is that of an event that keeps the rules of runs, and says whether it was. The line `.` is none.
fn take_event_line(
    stream: &mut Stream,
    rules: &mut Rules,
    version: Version,
) -> Result<bool, StreamFaultKind>
    ensures lines { stream.new.lines ≡ stream.old.lines }
    ensures taken { TakesLine (spelling version) stream.old.lines.line rules.old result rules.new }
    ensures unread { IfErr result SparesSource }
{
    let Ok(told) = told_of(stream.lines.line(), version, &mut stream.cowns) else {
        return Err(StreamFaultKind::Memory);
    };
    let Some(told) = told else {
        return Ok(false);
    };
    let Some(event) = event_of(rules, version, told, &stream.cowns) else {
        return Ok(false);
    };
    match rules.take(event) {
        Ok(()) => Ok(true),
        Err(RuleFault::Broken(_)) => Ok(false),
        Err(RuleFault::Memory) => Err(StreamFaultKind::Memory),
    }
}

/// What came next of a stream that was a record so far.
pub enum Next {
    /// An event, which was taken.
    Event,
    /// The line `.` of a complete run.
    Last,
    /// A line that is neither.
    Other,
    /// No line.
    End,
}

// Takes the next line, if it is an event's or the last one of a record.
fn next_event<S: Source>(
    stream: &mut Stream,
    source: &mut S,
    rules: &mut Rules,
    version: Version,
) -> Result<Next, StreamFaultKind>
    requires failures { S.failures source.old < u64.MAX }
    requires open { stream.old.lines.is_over ≡ false }
    ensures next { StepsOn (spelling version) rules.old result rules.new stream.new.lines.line (to_come stream.old.lines (S.remaining source.old))
        (to_come stream.new.lines (S.remaining source.new)) }
    ensures open { IfOk result (λ next. (next ≡ Next.End → ⊥) → stream.new.lines.is_over ≡ false) }
    ensures failures { CountsPart result (S.failures source.old) (S.failures source.new) }
{
    if !stream.next_line(source)? {
        return Ok(Next::End);
    }
    if stream.lines.line() == b".".as_slice() && rules.is_complete() {
        return Ok(Next::Last);
    }
    if take_event_line(stream, rules, version)? {
        Ok(Next::Event)
    } else {
        Ok(Next::Other)
    }
}

// Sees that nothing follows the last line of a record.
fn end_record<S: Source>(
    stream: &mut Stream,
    source: &mut S,
    rules: Rules,
) -> Result<Tried, StreamFaultKind>
    requires failures { S.failures source.old < u64.MAX }
    requires open { stream.old.lines.is_over ≡ false }
    requires complete { IsComplete rules.events }
    ensures record { EndsAs rules result (to_come stream.old.lines (S.remaining source.old)) (to_come stream.new.lines (S.remaining source.new)) }
    ensures failures { CountsPart result (S.failures source.old) (S.failures source.new) }
{
    stream.step();
    stream.finish(source)?;
    match rules.into_record() {
        Ok(record) => Ok(Tried::Record(record)),
        Err(_) => Ok(Tried::Over),
    }
}

// Follows the events of a stream after its first line.
fn follow_events<S: Source>(
    alloc: Global,
    header: Header,
    stream: &mut Stream,
    source: &mut S,
    table: &mut Table,
) -> Result<Tried, StreamFaultKind>
    requires failures { S.failures source.old < u64.MAX }
    requires open { stream.old.lines.is_over ≡ false }
    requires few { header.cowns ≤ MOST_COWNS }
    ensures tried { FollowsOn (spelling header.version) header.cowns result (to_come stream.old.lines (S.remaining source.old))
        (to_come stream.new.lines (S.remaining source.new)) table.old.rows.items table.old.uses.items table.new.rows.items table.new.uses.items }
    ensures failures { CountsPart result (S.failures source.old) (S.failures source.new) }
{
    let Ok(mut rules) = Rules::new(alloc, header.cowns as u32) else {
        return Err(StreamFaultKind::Memory);
    };
    loop {
        match next_event(stream, source, &mut rules, header.version)? {
            Next::Event => stream.step(),
            Next::Last => return end_record(stream, source, rules),
            Next::Other => {
                let step = give_up(alloc, stream, &rules, table)?;
                return look_on(stream, source, step);
            }
            Next::End => {
                replay(alloc, &rules, table)?;
                return Ok(Tried::Over);
            }
        }
    }
}

/// Follows a stream as long as it is the text of a record. Where it isn't, a table gets what came of it so far.
pub fn follow_record<S: Source>(
    alloc: Global,
    stream: &mut Stream,
    source: &mut S,
    table: &mut Table,
) -> Result<Tried, StreamFaultKind>
    requires failures { S.failures source.old < u64.MAX }
    requires open { stream.old.lines.is_over ≡ false }
    ensures tried { FollowsAs result (to_come stream.old.lines (S.remaining source.old)) (to_come stream.new.lines (S.remaining source.new))
        table.old.rows.items table.old.uses.items table.new.rows.items table.new.uses.items }
    ensures failures { CountsPart result (S.failures source.old) (S.failures source.new) }
{
    match begin(stream, source, table)? {
        Some(header) => follow_events(alloc, header, stream, source, table),
        None => Ok(Tried::More),
    }
}

/// Returns the window that is a whole record.
pub fn whole_window(alloc: Global, whole: Record) -> Result<Window, AllocError>
    ensures record { IfOk result (λ window. window.record ≡ whole) }
    ensures origins { IfOk result (λ window. AreWholeOrigins whole.rows window.origins.items) }
{
    let mut origins = Vec::new(alloc);
    let count = whole.rows().as_slice().len();
    for number in 0..count {
        origins.push(Some(number as u64))?;
    }
    let mut cowns = Vec::new(alloc);
    for cown in 0..whole.cowns() {
        cowns.push(u64::from(cown))?;
    }
    let notes = Notes::whole(count, cowns.len());
    Ok(Window {
        record: whole,
        origins,
        cowns,
        notes,
    })
}
