// The command `sweep` with its best lines alone, for a record without names.

ghost use Rattle.std.specs.Prelude.{◌≡◌, ◌++◌, ◌<◌, ◌^◌, All, IfOk, OnOk, take};
ghost use Rattle.boc_plans.specs.Seen.{seen};
ghost use Rattle.boc_plan_commands.specs.BestAnswers.{IsBestAnswer, IsUnswept, best_line, best_lines, gain_text, gains_text};
ghost use Rattle.boc_run_commands.specs.Commands.{AnswersInput, Leaves, CountsSource, CountsSink, RefusesRecord};

use crate::sweep::{ends_of, first_number};
use boc_plans::sharing::Sharing;
use boc_plans::sweep::Sweep;
use boc_progress::Progress;
use boc_record::read_counted;
use boc_run_commands::Fault;
use boc_text::{Sink, Source, put_number, put_out};
use boc_whatif::WhatIf;
use boc_why::{Placed, ranked};
use std::alloc::{AllocError, Global};
use std::thread::Threads;

/// Reads the text of a record, and writes of the ends that `sweep_cmd` reports the soonest ones, this many at most, and of equal ones those with the smallest
/// numbers first; each with its number, and by how much it is sooner than the plan ends as it is.
pub(crate) fn best_cmd<R: Threads + Sync, S: Source, W: Sink>(
    rt: &R,
    alloc: Global,
    over: &Sweep,
    most: u32,
    sharing: Sharing,
    progress: &mut dyn Progress,
    source: &mut S,
    sink: &mut W,
) -> Result<(), Fault>
    requires source { S.failures source.old < u64.MAX }
    requires sink { W.failures sink.old < u64.MAX }
    ensures written { Leaves (AnswersInput (IsBestAnswer sharing over.now most) (S.remaining source.old) (S.remaining source.new)) result
        (W.written sink.old) (W.written sink.new) }
    ensures refused { RefusesRecord result (S.remaining source.old) }
    ensures source { CountsSource result (S.failures source.old) (S.failures source.new) }
    ensures sink { CountsSink result (W.failures sink.old) (W.failures sink.new) }
{
    let (rows, count) = read_counted(alloc, source)?;
    let question = WhatIf::of(alloc, rows, sharing)?;
    let ends = ends_of(rt, alloc, over, count, &question, progress)?;
    let was = unswept(alloc, over, &question)?;
    let all = ranked(alloc, &ends)?;
    let text = best_text(alloc, was, first_number(over), &all, most)?;
    put_out(sink, &text)?;
    Ok(())
}

/// Returns where the plan of a sweep ends as it is.
pub(crate) fn unswept(alloc: Global, over: &Sweep, question: &WhatIf) -> Result<u64, AllocError>
    ensures { IfOk result (IsUnswept (seen question.now.sharing question.now.rows) over.now) }
{
    match over {
        Sweep::Ticks(Some(workers)) | Sweep::Cowns(Some(workers)) => {
            Ok(question.greedy(alloc, *workers)?.ends_at)
        }
        Sweep::Ticks(None) | Sweep::Cowns(None) | Sweep::Spawns => Ok(question.span()),
    }
}

// Returns the lines of the first of these ends, this many at most.
fn best_text(
    alloc: Global,
    was: u64,
    first: u32,
    all: &[Placed],
    most: u32,
) -> Result<Vec<u8>, AllocError>
    requires { All (λ p. p.place < 2 ^ 32) all.now }
    ensures { IfOk result (λ text. text.items ≡ best_lines was first (take most all.now)) }
{
    let best = all.split_at((most as usize).min(all.len())).0;
    let mut text = Vec::new(alloc);
    for own in best {
        put_best(
            &mut text,
            was,
            u64::from(first) + own.place as u64,
            own.span,
        )?;
    }
    Ok(text)
}

// Writes the line of an end.
fn put_best(text: &mut Vec<u8>, was: u64, number: u64, end: u64) -> Result<(), AllocError>
    ensures { OnOk result (text.new.items ≡ text.old.items ++ best_line was number end) }
{
    put_gains(text, was, number, end)?;
    text.push(b'\n')?;
    Ok(())
}

/// Writes the numbers in the line of an end.
pub(crate) fn put_gains(
    text: &mut Vec<u8>,
    was: u64,
    number: u64,
    end: u64,
) -> Result<(), AllocError>
    ensures { OnOk result (text.new.items ≡ text.old.items ++ gains_text was number end) }
{
    put_number(text, number)?;
    text.push(b' ')?;
    put_number(text, end)?;
    text.push(b' ')?;
    put_gain(text, was, end)
}

// By how much an end is sooner than it was.
fn put_gain(text: &mut Vec<u8>, was: u64, end: u64) -> Result<(), AllocError>
    ensures { OnOk result (text.new.items ≡ text.old.items ++ gain_text was end) }
{
    if was < end {
        text.push(b'-')?;
        put_number(text, end - was)
    } else {
        put_number(text, was - end)
    }
}
