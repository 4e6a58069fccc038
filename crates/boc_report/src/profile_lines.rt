// The report on the rows of a record.

ghost use Rattle.std.specs.Prelude.{◌≡◌, ◌∷◌, ◌++◌, ◌+◌, ◌*◌, ◌<◌, ◌≤◌, ◌^◌};
ghost use Rattle.std.specs.Prelude.{codes, drop, false, length, option_map, slice_index, OnOk, IfOk, IfSome, MatchResult};
ghost use Rattle.std.specs.Io.KnownBytes.{Appends};
ghost use Rattle.boc_report.specs.Texts.{report_head, report_text, step_line, step_lines, plan_line, plan_lines, plan_text, via_word};
ghost use Rattle.boc_text.specs.Outgoing.{IsUnused, Puts, size};
ghost use Rattle.boc_text.specs.Streams.{CountsFailure, StopsAt};
ghost use Rattle.boc_text.specs.Writing.{CountsWrite, Writes};
ghost use Rattle.boc_report.specs.Parts.{AreWhole, IsWhole, part_of, timed_part};
ghost use Rattle.boc_report.specs.declared.number_line.TheConstants.{MOST_LINES, MOST_PART};
ghost use Rattle.boc_report.specs.declared.profile_lines.TheConstants.{MOST_HEAD, MOST_STEP, MOST_ROW};
ghost use Rattle.boc_report.specs.declared.by_line.TheConstants.{MOST_LINE};

use crate::by_line::{Lines, put_lines};
use crate::greedy_lines::{put_greedy, put_timed};
use crate::number_line::{MOST_FIELD, number_before, word_before};
use boc_busy::TimedRows;
use boc_greedy::Greedy;
use boc_order::Profile;
use boc_plans::chain::{ChainStep, Via};
use boc_text::{Bytes, Outgoing, Sink, Stopped, WriteFault, write_before};
use std::alloc::{AllocError, Global};

/// The most bytes of the lines before the chain, and of `chain`.
const MOST_HEAD: usize = 3 * (MOST_FIELD + 5) + 6;

/// The most bytes of the line of a step.
const MOST_STEP: usize = 2 * MOST_FIELD + 6;

/// The most bytes of the line of a row in a plan.
const MOST_ROW: usize = 3 * MOST_FIELD;

/// Writes the report on a profile: how many rows, their work and the span, the chain, and the plan with each row's start and end, a
/// line each. Where there is a greedy plan, its part follows. Where a report is wanted without its plans, the rows of both are left out. The text goes out in
/// parts while it is formed; after a failing write a
/// beginning of it went out. All memory is taken before the first part goes out.
pub fn write_report<W: Sink>(
    alloc: Global,
    profile: &Profile,
    greedy: Option<&Greedy>,
    unplanned: bool,
    sink: &mut W,
) -> Result<(), WriteFault>
    requires plan { length profile.now.starts.items ≡ length profile.now.ends.items }
    requires greedy { IfSome greedy (λ g. IsWhole g.now) }
    requires few_steps { length profile.now.chain.steps.items ≤ MOST_LINES }
    requires few_rows { length profile.now.starts.items ≤ MOST_LINES }
    requires few_served { IfSome greedy (λ g. length g.now.starts.items ≤ MOST_LINES) }
    requires failures { W.failures sink.old < u64.MAX }
    ensures written { Writes
        (report_text unplanned profile.now.work profile.now.span profile.now.chain.steps.items profile.now.starts.items profile.now.ends.items
        ++ part_of unplanned (option_map (λ g. g.now) greedy.entry)) result (W.written sink.old) (W.written sink.new) }
    ensures failures { CountsWrite result (W.failures sink.old) (W.failures sink.new) }
{
    let mut out = Outgoing::new(alloc)?;
    send_report(&mut out, profile, greedy, unplanned, sink)?;
    Ok(())
}

/// Writes the same report on the rows of a timed run, and then the part on when they ran, and on which workers.
pub fn write_timed_report<W: Sink>(
    alloc: Global,
    profile: &Profile,
    greedy: Option<&Greedy>,
    timed: &TimedRows,
    unplanned: bool,
    sink: &mut W,
) -> Result<(), WriteFault>
    requires plan { length profile.now.starts.items ≡ length profile.now.ends.items }
    requires greedy { IfSome greedy (λ g. IsWhole g.now) }
    requires timed { AreWhole timed.now }
    requires few_steps { length profile.now.chain.steps.items ≤ MOST_LINES }
    requires few_rows { length profile.now.starts.items ≤ MOST_LINES }
    requires few_served { IfSome greedy (λ g. length g.now.starts.items ≤ MOST_LINES) }
    requires few_timed { length timed.now.starts.items ≤ MOST_LINES }
    requires failures { W.failures sink.old < u64.MAX }
    ensures written { Writes
        ((report_text unplanned profile.now.work profile.now.span profile.now.chain.steps.items profile.now.starts.items profile.now.ends.items
        ++ part_of unplanned (option_map (λ g. g.now) greedy.entry)) ++ timed_part unplanned timed.now) result (W.written sink.old) (W.written sink.new) }
    ensures failures { CountsWrite result (W.failures sink.old) (W.failures sink.new) }
{
    let mut out = Outgoing::new(alloc)?;
    send_timed_report(&mut out, profile, greedy, timed, unplanned, sink)?;
    Ok(())
}

// Sends the report on a timed run, of which nothing was formed yet.
fn send_timed_report<W: Sink>(
    out: &mut Outgoing,
    profile: &Profile,
    greedy: Option<&Greedy>,
    timed: &TimedRows,
    unplanned: bool,
    sink: &mut W,
) -> Result<(), Stopped>
    requires plan { length profile.now.starts.items ≡ length profile.now.ends.items }
    requires greedy { IfSome greedy (λ g. IsWhole g.now) }
    requires timed { AreWhole timed.now }
    requires few_steps { length profile.now.chain.steps.items ≤ MOST_LINES }
    requires few_rows { length profile.now.starts.items ≤ MOST_LINES }
    requires few_served { IfSome greedy (λ g. length g.now.starts.items ≤ MOST_LINES) }
    requires few_timed { length timed.now.starts.items ≤ MOST_LINES }
    requires unused { IsUnused out.old }
    requires size { size out.old ≡ 0 }
    requires failures { W.failures sink.old < u64.MAX }
    ensures sent { MatchResult result
        (λ _. Appends (W.written sink.old) (W.written sink.new)
        ((report_text unplanned profile.now.work profile.now.span profile.now.chain.steps.items profile.now.starts.items profile.now.ends.items
        ++ part_of unplanned (option_map (λ g. g.now) greedy.entry)) ++ timed_part unplanned timed.now))
        (λ s. StopsAt s.gone
        ((report_text unplanned profile.now.work profile.now.span profile.now.chain.steps.items profile.now.starts.items profile.now.ends.items
        ++ part_of unplanned (option_map (λ g. g.now) greedy.entry)) ++ timed_part unplanned timed.now) (W.written sink.old) (W.written sink.new)) }
    ensures failures { CountsFailure result (W.failures sink.old) (W.failures sink.new) }
{
    put_profile(out, profile, unplanned, sink)?;
    put_part(out, greedy, unplanned, sink)?;
    put_timed(out, timed, unplanned, sink)?;
    out.send(sink)
}

/// Returns the text of the same report, in memory.
pub fn profile_text(
    alloc: Global,
    profile: &Profile,
    greedy: Option<&Greedy>,
) -> Result<Vec<u8>, AllocError>
    requires plan { length profile.now.starts.items ≡ length profile.now.ends.items }
    requires greedy { IfSome greedy (λ g. IsWhole g.now) }
    requires few_steps { length profile.now.chain.steps.items ≤ MOST_LINES }
    requires few_rows { length profile.now.starts.items ≤ MOST_LINES }
    requires few_served { IfSome greedy (λ g. length g.now.starts.items ≤ MOST_LINES) }
    ensures { IfOk result (λ text. text.items
        ≡ report_text false profile.now.work profile.now.span profile.now.chain.steps.items profile.now.starts.items profile.now.ends.items
        ++ part_of false (option_map (λ g. g.now) greedy.entry)) }
{
    let mut text = Bytes::new(Vec::new(alloc));
    match write_report(alloc, profile, greedy, false, &mut text) {
        Ok(()) => Ok(text.bytes),
        Err(_) => Err(AllocError),
    }
}

// Sends the report on a profile, of which nothing was formed yet.
fn send_report<W: Sink>(
    out: &mut Outgoing,
    profile: &Profile,
    greedy: Option<&Greedy>,
    unplanned: bool,
    sink: &mut W,
) -> Result<(), Stopped>
    requires plan { length profile.now.starts.items ≡ length profile.now.ends.items }
    requires greedy { IfSome greedy (λ g. IsWhole g.now) }
    requires few_steps { length profile.now.chain.steps.items ≤ MOST_LINES }
    requires few_rows { length profile.now.starts.items ≤ MOST_LINES }
    requires few_served { IfSome greedy (λ g. length g.now.starts.items ≤ MOST_LINES) }
    requires unused { IsUnused out.old }
    requires size { size out.old ≡ 0 }
    requires failures { W.failures sink.old < u64.MAX }
    ensures sent { MatchResult result
        (λ _. Appends (W.written sink.old) (W.written sink.new)
        (report_text unplanned profile.now.work profile.now.span profile.now.chain.steps.items profile.now.starts.items profile.now.ends.items
        ++ part_of unplanned (option_map (λ g. g.now) greedy.entry)))
        (λ s. StopsAt s.gone
        (report_text unplanned profile.now.work profile.now.span profile.now.chain.steps.items profile.now.starts.items profile.now.ends.items
        ++ part_of unplanned (option_map (λ g. g.now) greedy.entry)) (W.written sink.old) (W.written sink.new)) }
    ensures failures { CountsFailure result (W.failures sink.old) (W.failures sink.new) }
{
    put_profile(out, profile, unplanned, sink)?;
    put_part(out, greedy, unplanned, sink)?;
    out.send(sink)
}

// Writes the greedy part of a report, where there is a greedy plan.
fn put_part<W: Sink>(
    out: &mut Outgoing,
    greedy: Option<&Greedy>,
    unplanned: bool,
    sink: &mut W,
) -> Result<(), Stopped>
    requires whole { IfSome greedy (λ g. IsWhole g.now) }
    requires few { IfSome greedy (λ g. length g.now.starts.items ≤ MOST_LINES) }
    requires size { size out.old ≤ MOST_PART }
    requires failures { W.failures sink.old < u64.MAX }
    ensures goes_on { Puts (part_of unplanned (option_map (λ g. g.now) greedy.entry)) result out.old out.new (W.written sink.old) (W.written sink.new) }
    ensures size { OnOk result (size out.new ≤ size out.old + MOST_PART) }
    ensures failures { CountsFailure result (W.failures sink.old) (W.failures sink.new) }
{
    match greedy {
        Some(greedy) => put_greedy(out, greedy, unplanned, sink),
        None => Ok(()),
    }
}

// Writes the report without a greedy part.
fn put_profile<W: Sink>(
    out: &mut Outgoing,
    profile: &Profile,
    unplanned: bool,
    sink: &mut W,
) -> Result<(), Stopped>
    requires plan { length profile.now.starts.items ≡ length profile.now.ends.items }
    requires few_steps { length profile.now.chain.steps.items ≤ MOST_LINES }
    requires few_rows { length profile.now.starts.items ≤ MOST_LINES }
    requires size { size out.old ≡ 0 }
    requires failures { W.failures sink.old < u64.MAX }
    ensures goes_on { Puts
        (report_text unplanned profile.now.work profile.now.span profile.now.chain.steps.items profile.now.starts.items profile.now.ends.items)
        result out.old out.new (W.written sink.old) (W.written sink.new) }
    ensures size { OnOk result (size out.new ≤ MOST_PART) }
    ensures failures { CountsFailure result (W.failures sink.old) (W.failures sink.new) }
{
    let mut room = [0; MOST_HEAD];
    let begin = head_before(&mut room, profile);
    out.put(&room[begin..], sink)?;
    put_steps(out, &profile.chain.steps, sink)?;
    put_rows(out, &profile.starts, &profile.ends, unplanned, sink)
}

// Writes the plan of a report, unless it is wanted without.
fn put_rows<W: Sink>(
    out: &mut Outgoing,
    starts: &[u64],
    ends: &[u64],
    unplanned: bool,
    sink: &mut W,
) -> Result<(), Stopped>
    requires lengths { length starts.now ≡ length ends.now }
    requires few { length starts.now ≤ MOST_LINES }
    requires size { size out.old + 5 ≤ MOST_PART }
    requires failures { W.failures sink.old < u64.MAX }
    ensures goes_on { Puts (plan_text unplanned starts.now ends.now) result out.old out.new (W.written sink.old) (W.written sink.new) }
    ensures size { OnOk result (size out.new ≤ size out.old + 5 + MOST_LINE * length starts.now) }
    ensures failures { CountsFailure result (W.failures sink.old) (W.failures sink.new) }
{
    if unplanned {
        return Ok(());
    }
    out.put(b"plan\n", sink)?;
    put_lines(out, &PlanRows { starts, ends }, sink)
}

// Forms the numbers of a report and the line before its chain at the end of a room, and says where they begin.
fn head_before(room: &mut [u8], profile: &Profile) -> usize
    requires { length room.old ≡ MOST_HEAD }
    ensures written { drop result room.new ≡ report_head (length profile.now.starts.items) profile.now.work profile.now.span ++ codes "chain\n" }
    ensures within { result ≤ MOST_HEAD }
{
    let chain_at = word_before(room, MOST_HEAD, b"chain\n");
    let span_at = number_before(room, chain_at, b"span ", profile.span);
    let work_at = number_before(room, span_at, b"work ", profile.work);
    number_before(room, work_at, b"rows ", profile.starts.len() as u64)
}

// Writes the lines of a chain's steps.
fn put_steps<W: Sink>(out: &mut Outgoing, steps: &[ChainStep], sink: &mut W) -> Result<(), Stopped>
    requires few { length steps.now ≤ MOST_LINES }
    requires size { size out.old ≤ MOST_PART }
    requires failures { W.failures sink.old < u64.MAX }
    ensures goes_on { Puts (step_lines steps.now) result out.old out.new (W.written sink.old) (W.written sink.new) }
    ensures size { OnOk result (size out.new ≤ size out.old + MOST_STEP * length steps.now) }
    ensures failures { CountsFailure result (W.failures sink.old) (W.failures sink.new) }
{
    let mut room = [0; MOST_STEP];
    for step in steps {
        let begin = step_before(&mut room, *step);
        out.put(&room[begin..], sink)?;
    }
    Ok(())
}

// Forms the line of a step at the end of a room, and says where it begins.
fn step_before(room: &mut [u8], step: ChainStep) -> usize
    requires { length room.old ≡ MOST_STEP }
    ensures written { drop result room.new ≡ step_line step }
    ensures within { result ≤ MOST_STEP }
{
    let weight_at = write_before(room, MOST_STEP, u64::from(step.weight), b'\n');
    let via_at = via_before(room, weight_at, step.via);
    write_before(room, via_at, u64::from(step.row), b' ')
}

// Puts what comes after the row of a step and a space before what a line has from a place on, and says where it begins.
fn via_before(line: &mut [u8], place: usize, via: Via) -> usize
    requires room { 6 ≤ place }
    requires within { place ≤ length line.old }
    ensures written { 32 ∷ drop result line.new ≡ via_word via ++ drop place line.old }
    ensures near { place ≤ result + 6 }
{
    match via {
        Via::Spawn => word_before(line, place, b"spawn "),
        Via::Order => word_before(line, place, b"order "),
        Via::Last => word_before(line, place, b"end "),
    }
}

// The rows of a plan, a line for each.
#[derive(Clone, Copy)]
struct PlanRows<'a> {
    starts: &'a [u64],
    ends: &'a [u64],
    ghost same: { length starts.now ≡ length ends.now },
}

impl Lines for PlanRows<'_> {
    ghost count = { λ p. length p.starts.now };

    ghost line = { λ p i. plan_line i (slice_index p.starts.now i) (slice_index p.ends.now i) };

    fn len(&self) -> usize {
        self.starts.len()
    }

    fn line_before(&self, room: &mut [u8], place: usize, index: usize) -> usize {
        row_before(
            room,
            place,
            index as u64,
            self.starts[index],
            self.ends[index],
        )
    }
}

// Forms the line of a row in a plan before what a room has from a place on, and says where it begins.
fn row_before(room: &mut [u8], place: usize, row: u64, start: u64, end: u64) -> usize
    requires room { (MOST_ROW ≤ place) × (place ≤ length room.old) }
    ensures written { drop result room.new ≡ plan_line row start end ++ drop place room.old }
    ensures near { (result ≤ place) × (place ≤ result + MOST_ROW) }
{
    let end_at = write_before(room, place, end, b'\n');
    let start_at = write_before(room, end_at, start, b' ');
    write_before(room, start_at, row, b' ')
}
