// A sweep over the rows of a run that have names.

ghost use Rattle.std.specs.Prelude.{◌≡◌, ◌<◌, ◌≤◌, ◌^◌, ◌++◌, ℕ, All, IfOk, OnOk, codes, length, take};
ghost use Rattle.boc_names.specs.Names.{text_at, texts_of};
ghost use Rattle.boc_plans.specs.Seen.{seen};
ghost use Rattle.boc_program.specs.declared.limits.TheConstants.{MOST_COWNS, MOST_ROWS};
ghost use Rattle.std.specs.Option.{option_copied, option_map};
ghost use Rattle.boc_run_commands.specs.Commands.{Leaves, CountsSource, CountsSink, RefusesNothing};
ghost use Rattle.boc_run_commands.specs.NamedRuns.{AreFew};
ghost use Rattle.boc_plan_commands.specs.SweepAnswers.{IsAskedSweep, IsSwept, best_text, called_of, end_line, gain_line, lines_text, name_part};

use crate::best::{put_gains, unswept};
use crate::sweep::{ends_of, first_number};
use boc_names::Names;
use boc_plans::sweep::Sweep;
use boc_progress::Progress;
use boc_run_commands::Fault;
use boc_run_commands::named_run::NamedRun;
use boc_text::{Sink, put_number, put_out};
use boc_whatif::WhatIf;
use boc_why::{Placed, ranked};
use boc_words::AskedSweep;
use std::alloc::{AllocError, Global};
use std::thread::Threads;

/// Writes the lines of a sweep over the rows of a run, or the best ones, with what each row or cown is called where that is wanted.
pub(crate) fn swept_run<R: Threads + Sync, W: Sink>(
    rt: &R,
    alloc: Global,
    asked: AskedSweep,
    are_named: bool,
    run: NamedRun,
    progress: &mut dyn Progress,
    sink: &mut W,
) -> Result<(), Fault>
    requires few { AreFew run.rows run.names }
    requires sink { W.failures sink.old < u64.MAX }
    ensures written { Leaves (IsSwept run.rows run.names asked are_named) result (W.written sink.old) (W.written sink.new) }
    ensures refused { RefusesNothing result }
    ensures source { (count : ℕ) → CountsSource result count count }
    ensures sink { CountsSink result (W.failures sink.old) (W.failures sink.new) }
{
    let NamedRun { rows, names, .. } = run;
    let question = WhatIf::of(alloc, rows, asked.sharing)?;
    let text = swept_text(rt, alloc, asked, are_named, &question, &names, progress)?;
    put_out(sink, &text)?;
    Ok(())
}

// Returns the lines of a sweep over the rows of a question.
fn swept_text<R: Threads + Sync>(
    rt: &R,
    alloc: Global,
    asked: AskedSweep,
    are_named: bool,
    question: &WhatIf,
    names: &Names,
    progress: &mut dyn Progress,
) -> Result<Vec<u8>, AllocError>
    requires { AreFew question.now.rows names.now }
    ensures { IfOk result (λ text. IsAskedSweep (seen question.now.sharing question.now.rows) names.now asked are_named text.items) }
{
    let count = cown_count(names);
    let ends = ends_of(rt, alloc, &asked.over, count, question, progress)?;
    let first = first_number(&asked.over);
    let called = called_of(names, &asked.over, are_named);
    match asked.best {
        None => lines_text(alloc, first, &ends, called),
        Some(most) => {
            let was = unswept(alloc, &asked.over, question)?;
            let all = ranked(alloc, &ends)?;
            best_text(alloc, was, first, &all, most, called)
        }
    }
}

// Returns how many cowns have names.
fn cown_count(names: &Names) -> u32
    requires { length names.now.families.items ≤ MOST_COWNS }
    ensures { result ≡ length names.now.families.items }
{
    names.families.len() as u32
}

// Returns what the rows or the cowns that a sweep is over are called, where that is wanted.
fn called_of<'a>(names: &'a Names, over: &Sweep, are_named: bool) -> Option<&'a [Vec<u8>]>
    ensures { option_map texts_of (option_copied result) ≡ called_of names.now over.now are_named }
{
    if !are_named {
        return None;
    }
    match over {
        Sweep::Cowns(_) => Some(&names.cowns),
        Sweep::Ticks(_) | Sweep::Spawns => Some(&names.rows),
    }
}

// Returns the lines of all ends, from this number on.
fn lines_text(
    alloc: Global,
    first: u32,
    ends: &[u64],
    called: Option<&[Vec<u8>]>,
) -> Result<Vec<u8>, AllocError>
    requires { length ends.now ≤ MOST_ROWS }
    ensures { IfOk result (λ text. text.items ≡ lines_text first (option_map texts_of (option_copied called.entry)) ends.now) }
{
    let mut text = Vec::new(alloc);
    for (index, end) in ends.iter().enumerate() {
        let number = u64::from(first) + index as u64;
        put_end(&mut text, called, number, *end)?;
    }
    Ok(text)
}

// Returns the lines of the first of these ends, this many at most.
fn best_text(
    alloc: Global,
    was: u64,
    first: u32,
    all: &[Placed],
    most: u32,
    called: Option<&[Vec<u8>]>,
) -> Result<Vec<u8>, AllocError>
    requires { All (λ p. p.place < 2 ^ 32) all.now }
    ensures { IfOk result (λ text. text.items ≡ best_text was first (option_map texts_of (option_copied called.entry)) (take most all.now)) }
{
    let best = all.split_at((most as usize).min(all.len())).0;
    let mut text = Vec::new(alloc);
    for own in best {
        let number = u64::from(first) + own.place as u64;
        put_gain(&mut text, was, called, number, own.span)?;
    }
    Ok(text)
}

// Writes the line of an end.
fn put_end(
    text: &mut Vec<u8>,
    called: Option<&[Vec<u8>]>,
    number: u64,
    end: u64,
) -> Result<(), AllocError>
    ensures { OnOk result (text.new.items ≡ text.old.items ++ end_line (option_map texts_of (option_copied called.entry)) number end) }
{
    put_number(text, number)?;
    text.push(b' ')?;
    put_number(text, end)?;
    put_name(text, called, number)?;
    text.push(b'\n')?;
    Ok(())
}

// Writes the line of one of the best ends.
fn put_gain(
    text: &mut Vec<u8>,
    was: u64,
    called: Option<&[Vec<u8>]>,
    number: u64,
    end: u64,
) -> Result<(), AllocError>
    ensures { OnOk result (text.new.items ≡ text.old.items ++ gain_line was (option_map texts_of (option_copied called.entry)) number end) }
{
    put_gains(text, was, number, end)?;
    put_name(text, called, number)?;
    text.push(b'\n')?;
    Ok(())
}

// Writes a space and what a row or a cown with this number is called, where names are known.
fn put_name(text: &mut Vec<u8>, called: Option<&[Vec<u8>]>, number: u64) -> Result<(), AllocError>
    ensures { OnOk result (text.new.items ≡ text.old.items ++ name_part (option_map texts_of (option_copied called.entry)) number) }
{
    match called {
        Some(names) => put_one(text, names, number),
        None => Ok(()),
    }
}

// Writes a space and the name with this number, or only the space where there is none.
fn put_one(text: &mut Vec<u8>, names: &[Vec<u8>], number: u64) -> Result<(), AllocError>
    ensures { OnOk result (text.new.items ≡ text.old.items ++ codes " " ++ text_at (texts_of names.now) number) }
{
    text.push(b' ')?;
    if let Some(name) = names.get(number as usize) {
        text.extend_from_slice(name)?;
    }
    Ok(())
}
