// From a text to its record, and to its rows.

ghost use Rattle.std.specs.Prelude.{◌≡◌, ◌<◌, ◌≤◌, length, false, IfOk, OnOk};
ghost use Rattle.boc_program.specs.declared.limits.TheConstants.{MOST_COWNS};
ghost use Rattle.boc_text.specs.declared.lines.TheConstants.{CAPACITY};
ghost use Rattle.boc_text.specs.Lines.{to_come};
ghost use Rattle.boc_record.specs.Versions.{spelling};
ghost use Rattle.boc_record.specs.Reading.{Reads, ReadsRows, ReadsCounted, ReadsRun, CountsRead};
ghost use Rattle.boc_record.specs.Reading.{CountsPart, ReadsItem, ReadsHeader, ReadsEnd, Finishes, StopsWithin};

use crate::ahead::event_ahead;
use crate::fault::{RecordFault, kind_of};
use crate::line::{event_of_line, version_and_cowns};
use crate::sink::EventSink;
use crate::verdict::RecordFaultKind;
use crate::version::Version;
use boc_rules::{Judge, Rules};
use boc_runs::event::Event;
use boc_runs::record::Record;
use boc_runs::rows::Rows;
use boc_text::{Found, Lines, Source};
use std::alloc::Global;

/// Reads a record, line by line, to the end of the source. The text is of the first version or of the second.
///
/// A text that is no record's is refused at its first faulty line. Lines have at most 80 bytes, without their
/// line feed.
pub fn read_record<S: Source>(alloc: Global, source: &mut S) -> Result<Record, RecordFault>
    requires { S.failures source.old < u64.MAX }
    ensures record_or_fault { Reads result (S.remaining source.old) (S.remaining source.new) }
    ensures failures { CountsRead result (S.failures source.old) (S.failures source.new) }
{
    let rules: Rules = read_run(alloc, source)?;
    Ok(rules.into_record().unwrap())
}

/// Reads the rows of a record. The text is read and judged as `read_record` does, and its events are not kept.
pub fn read_rows<S: Source>(alloc: Global, source: &mut S) -> Result<Rows, RecordFault>
    requires { S.failures source.old < u64.MAX }
    ensures rows_or_fault { ReadsRows result (S.remaining source.old) (S.remaining source.new) }
    ensures failures { CountsRead result (S.failures source.old) (S.failures source.new) }
{
    let judge: Judge = read_run(alloc, source)?;
    Ok(judge.into_rows().unwrap())
}

/// Reads the rows of a record as `read_rows` does, and how many cowns its first line names.
pub fn read_counted<S: Source>(alloc: Global, source: &mut S) -> Result<(Rows, u32), RecordFault>
    requires { S.failures source.old < u64.MAX }
    ensures counted_or_fault { ReadsCounted result (S.remaining source.old) (S.remaining source.new) }
    ensures few { IfOk result (λ read. read.1 ≤ MOST_COWNS) }
    ensures failures { CountsRead result (S.failures source.old) (S.failures source.new) }
{
    let judge: Judge = read_run(alloc, source)?;
    let cowns = judge.cowns();
    Ok((judge.into_rows().unwrap(), cowns))
}

// Hands the events of a record's text to a sink, one after the other.
fn read_run<S: Source, E: EventSink>(alloc: Global, source: &mut S) -> Result<E, RecordFault>
    requires { S.failures source.old < u64.MAX }
    ensures run_or_fault { ReadsRun E.cown_count E.has_taken result (S.remaining source.old) (S.remaining source.new) }
    ensures failures { CountsRead result (S.failures source.old) (S.failures source.new) }
{
    let mut lines = Lines::new();
    let (version, cowns) = match read_header(&mut lines, source) {
        Ok(header) => header,
        Err(kind) => return Err(RecordFault { line: 1, kind }),
    };
    let Ok(mut sink) = E::begin(alloc, cowns) else {
        let kind = RecordFaultKind::Memory;
        return Err(RecordFault { line: 1, kind });
    };
    let mut line = 2;
    loop {
        match next_item(&mut lines, source, version, sink.judge()) {
            Ok(Some(event)) => {
                if let Err(fault) = sink.hand_over(event) {
                    let kind = kind_of(fault);
                    return Err(RecordFault { line, kind });
                }
            }
            Ok(None) => {
                finish(line, sink.judge(), &mut lines, source)?;
                return Ok(sink);
            }
            Err(kind) => return Err(RecordFault { line, kind }),
        }
        line += 1;
    }
}

// Reads the first line, and gives its version and its number of cowns.
pub(crate) fn read_header<S: Source>(
    lines: &mut Lines,
    source: &mut S,
) -> Result<(Version, u32), RecordFaultKind>
    requires failures { S.failures source.old < u64.MAX }
    requires open { lines.old.is_over ≡ false }
    ensures header { ReadsHeader result (to_come lines.old (S.remaining source.old)) (to_come lines.new (S.remaining source.new)) }
    ensures within { StopsWithin result (to_come lines.old (S.remaining source.old)) (S.remaining source.new) }
    ensures open { OnOk result (lines.new.is_over ≡ false) }
    ensures ahead { length lines.new.buffered ≤ CAPACITY }
    ensures failures { CountsPart result (S.failures source.old) (S.failures source.new) }
{
    match lines.advance(source) {
        Found::Line => match version_and_cowns(lines.line()) {
            Some(header) => Ok(header),
            None => Err(RecordFaultKind::Header),
        },
        Found::TooLong => Err(RecordFaultKind::Header),
        Found::End | Found::Cut => Err(RecordFaultKind::Truncated),
        Found::Device => Err(RecordFaultKind::Device),
    }
}

// Reads the next line, in this version and after this run: an event, or `None` for the last line. It is read where its caller keeps it.
#[inline(always)]
pub(crate) fn next_item<S: Source>(
    lines: &mut Lines,
    source: &mut S,
    version: Version,
    judge: &Judge,
) -> Result<Option<Event>, RecordFaultKind>
    requires failures { S.failures source.old < u64.MAX }
    requires open { lines.old.is_over ≡ false }
    ensures item { ReadsItem (spelling version) judge.now.rows result (to_come lines.old (S.remaining source.old))
        (to_come lines.new (S.remaining source.new)) }
    ensures within { StopsWithin result (to_come lines.old (S.remaining source.old)) (S.remaining source.new) }
    ensures open { OnOk result (lines.new.is_over ≡ false) }
    ensures ahead { length lines.new.buffered ≤ CAPACITY }
    ensures failures { CountsPart result (S.failures source.old) (S.failures source.new) }
{
    if let Some((event, len)) = event_ahead(lines.buffered(), version) {
        lines.take_line(len);
        return Ok(Some(event));
    }
    match lines.advance(source) {
        Found::Line if lines.line() == b".".as_slice() => Ok(None),
        Found::Line => match event_of_line(lines.line(), version, judge) {
            Some(event) => Ok(Some(event)),
            None => Err(RecordFaultKind::Form),
        },
        Found::TooLong => Err(RecordFaultKind::Form),
        Found::End | Found::Cut => Err(RecordFaultKind::Truncated),
        Found::Device => Err(RecordFaultKind::Device),
    }
}

// Sees that the run is complete, the last line of which was read at this number, and that nothing follows it.
fn finish<S: Source>(
    line: u64,
    judge: &Judge,
    lines: &mut Lines,
    source: &mut S,
) -> Result<(), RecordFault>
    requires more { line < u64.MAX }
    requires failures { S.failures source.old < u64.MAX }
    requires open { lines.old.is_over ≡ false }
    ensures end { Finishes judge.now.rows line result (to_come lines.old (S.remaining source.old)) (S.remaining source.new) }
    ensures failures { CountsRead result (S.failures source.old) (S.failures source.new) }
{
    if !judge.is_complete() {
        let kind = RecordFaultKind::Unended;
        return Err(RecordFault { line, kind });
    }
    match read_end(lines, source) {
        Ok(()) => Ok(()),
        Err(kind) => Err(RecordFault {
            line: line + 1,
            kind,
        }),
    }
}

// Sees that nothing follows.
fn read_end<S: Source>(lines: &mut Lines, source: &mut S) -> Result<(), RecordFaultKind>
    requires failures { S.failures source.old < u64.MAX }
    requires open { lines.old.is_over ≡ false }
    ensures end { ReadsEnd result (to_come lines.old (S.remaining source.old)) (S.remaining source.new) }
    ensures failures { CountsPart result (S.failures source.old) (S.failures source.new) }
{
    match lines.advance(source) {
        Found::End => Ok(()),
        Found::Device => Err(RecordFaultKind::Device),
        Found::Line | Found::Cut | Found::TooLong => Err(RecordFaultKind::After),
    }
}
