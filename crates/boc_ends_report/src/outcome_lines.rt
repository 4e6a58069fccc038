// The text of the ends that a program reached.

ghost use Rattle.std.specs.Prelude.{◌≡◌, ◌++◌, OnOk, IfOk};
ghost use Rattle.std.specs.List.{All};
ghost use Rattle.boc_ends_report.specs.OutcomeTexts.{HasAllValues, bounds_line, outcome_text, outcome_texts, runs_line};
ghost use Rattle.boc_ends_report.specs.OutcomeTexts.{outcomes_text as outcomes_text_spec};

use crate::value_lines::put_cowns;
use boc_outcomes::{Bounds, Outcome, Outcomes};
use boc_program::cown::Cown;
use boc_text::put_number;
use std::alloc::{AllocError, Global};

/// Returns the text of the ends that a program with these cowns reached in the given number of runs: how many runs there were, the bounds of how many rows they
/// had and of their spans, and each end in its order, by how many runs reached it, the seed of the first of them, the bounds of their spans, and the text of
/// its values. `AllocError` says that memory was refused.
pub fn outcomes_text(
    alloc: Global,
    cowns: &[Cown],
    runs: u32,
    outcomes: &Outcomes,
) -> Result<Vec<u8>, AllocError>
    requires { All (HasAllValues cowns.now) outcomes.now.all.items }
    ensures { IfOk result (λ text. text.items ≡ outcomes_text_spec cowns.now runs outcomes.now) }
{
    let mut text = Vec::new(alloc);
    put_runs(&mut text, runs)?;
    put_bounds(&mut text, b"rows ", outcomes.rows)?;
    put_bounds(&mut text, b"spans ", outcomes.spans)?;
    put_outcomes(&mut text, cowns, &outcomes.all)?;
    Ok(text)
}

// Writes the line of how many runs there were.
fn put_runs(text: &mut Vec<u8>, runs: u32) -> Result<(), AllocError>
    ensures { OnOk result (text.new.items ≡ text.old.items ++ runs_line runs) }
{
    text.extend_from_slice(b"runs ")?;
    put_number(text, u64::from(runs))?;
    text.push(b'\n')?;
    Ok(())
}

// Writes a line of a word and the smallest and the greatest of some numbers.
fn put_bounds(text: &mut Vec<u8>, word: &[u8], bounds: Bounds) -> Result<(), AllocError>
    ensures { OnOk result (text.new.items ≡ text.old.items ++ bounds_line word.now bounds) }
{
    text.extend_from_slice(word)?;
    put_number(text, bounds.least)?;
    text.push(b' ')?;
    put_number(text, bounds.most)?;
    text.push(b'\n')?;
    Ok(())
}

// Writes the texts of ends, one after the other.
fn put_outcomes(text: &mut Vec<u8>, cowns: &[Cown], outcomes: &[Outcome]) -> Result<(), AllocError>
    requires { All (HasAllValues cowns.now) outcomes.now }
    ensures { OnOk result (text.new.items ≡ text.old.items ++ outcome_texts cowns.now outcomes.now) }
{
    for outcome in outcomes {
        put_outcome(text, cowns, outcome)?;
    }
    Ok(())
}

// Writes the text of an end: a line of its numbers, and those of its values.
fn put_outcome(text: &mut Vec<u8>, cowns: &[Cown], outcome: &Outcome) -> Result<(), AllocError>
    requires { HasAllValues cowns.now outcome.now }
    ensures { OnOk result (text.new.items ≡ text.old.items ++ outcome_text cowns.now outcome.now) }
{
    text.extend_from_slice(b"outcome ")?;
    put_number(text, u64::from(outcome.runs))?;
    text.extend_from_slice(b" seed ")?;
    put_number(text, outcome.seed)?;
    put_bounds(text, b" span ", outcome.spans)?;
    put_cowns(text, cowns, &outcome.values)
}
