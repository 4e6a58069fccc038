// What many runs say.

ghost use Rattle.std.specs.Prelude.{◌≡◌, ◌++◌, ◌-◌, IfOk, OnOk};
ghost use Rattle.boc_outcomes.specs.Samples.{seed_of};
ghost use Rattle.boc_many_runs_report.specs.ManyTexts.{IsManyText, bins_part, counts_text, ends_word, head_line, head_part, numbers_part, other_span};
ghost use Rattle.boc_many_runs_report.specs.ManyTexts.{runs_text, seeds_text, single_line};

use crate::bars::put_bins;
use crate::lines::put_remedies;
use crate::spreads::put_numbers;
use boc_many_runs::{Bin, ManyRuns, Spread};
use boc_names::Names;
use boc_outcomes::Asked;
use boc_text::put_number;
use std::alloc::{AllocError, Global};

/// What is requested of many runs.
#[derive(Clone, Copy)]
pub struct ManyTold {
    /// Which runs are drawn.
    pub asked: Asked,
    /// For how many workers greedy plans are made, if for any.
    pub plan_workers: Option<u32>,
}

// Appends to a text how many runs there are, and of how many workers.
fn put_counts(text: &mut Vec<u8>, runs: u32, workers: u32) -> Result<(), AllocError>
    ensures { OnOk result (text.new.items ≡ text.old.items ++ counts_text runs workers) }
{
    text.extend_from_slice(b"runs ")?;
    put_number(text, u64::from(runs))?;
    text.extend_from_slice(b"   workers ")?;
    put_number(text, u64::from(workers))
}

// Appends to a text by which seeds the runs are drawn: the first and the last.
fn put_seeds(text: &mut Vec<u8>, first: u64, last: u64) -> Result<(), AllocError>
    ensures { OnOk result (text.new.items ≡ text.old.items ++ seeds_text first last) }
{
    text.extend_from_slice(b"   seeds ")?;
    put_number(text, first)?;
    text.extend_from_slice(b"..")?;
    put_number(text, last)?;
    text.extend_from_slice(b"\n")
}

// Returns the seed of the last run.
fn last_seed(asked: &Asked) -> u64
    ensures { result ≡ seed_of asked.now.seed (asked.now.runs - 1) }
{
    asked.seed_of(asked.runs.saturating_sub(1))
}

// Appends to a text how many runs there are, of how many workers, and by which seeds.
fn put_head(text: &mut Vec<u8>, told: &ManyTold) -> Result<(), AllocError>
    ensures { OnOk result (text.new.items ≡ text.old.items ++ head_line told.now) }
{
    put_counts(text, told.asked.runs, told.asked.workers)?;
    put_seeds(text, told.asked.seed, last_seed(&told.asked))
}

// Appends to a text that the run with one worker has another span than any of the others.
fn put_other_span(text: &mut Vec<u8>, single: u64, word: &[u8]) -> Result<(), AllocError>
    ensures { OnOk result (text.new.items ≡ text.old.items ++ other_span single word.now) }
{
    text.extend_from_slice(b"the run on one worker has span ")?;
    put_number(text, single)?;
    text.extend_from_slice(b", ")?;
    text.extend_from_slice(word)?;
    text.extend_from_slice(b" than any of these\n")
}

// Appends the line of the run with one worker to a text, where its span is outside those of the others.
fn put_single(text: &mut Vec<u8>, single: u64, span: Spread) -> Result<(), AllocError>
    ensures { OnOk result (text.new.items ≡ text.old.items ++ single_line single span) }
{
    if span.most < single {
        return put_other_span(text, single, b"more");
    }
    if single < span.least {
        return put_other_span(text, single, b"less");
    }
    Ok(())
}

// Appends to a text which ends the histogram is of.
fn put_ends_word(text: &mut Vec<u8>, workers: Option<u32>) -> Result<(), AllocError>
    ensures { OnOk result (text.new.items ≡ text.old.items ++ ends_word workers) }
{
    let Some(workers) = workers else {
        return text.extend_from_slice(b"spans\n");
    };
    text.extend_from_slice(b"ends for ")?;
    put_number(text, u64::from(workers))?;
    text.extend_from_slice(b"\n")
}

// Appends to a text how many runs there are, of how many workers, and by which seeds, with an empty line below.
fn put_head_part(text: &mut Vec<u8>, told: &ManyTold) -> Result<(), AllocError>
    ensures { OnOk result (text.new.items ≡ text.old.items ++ head_part told.now) }
{
    put_head(text, told)?;
    text.extend_from_slice(b"\n")
}

// Appends the numbers of all runs to a text, and the run with one worker, where its span is outside, with an empty line below.
fn put_numbers_part(
    alloc: Global,
    text: &mut Vec<u8>,
    workers: Option<u32>,
    many: &ManyRuns,
) -> Result<(), AllocError>
    ensures { OnOk result (text.new.items ≡ text.old.items ++ numbers_part workers many.now) }
{
    put_numbers(alloc, text, workers, &many.spreads)?;
    put_single(text, many.single, many.spreads.span)?;
    text.extend_from_slice(b"\n")?;
    Ok(())
}

// Appends the histogram to a text, with an empty line below.
fn put_bins_part(
    alloc: Global,
    text: &mut Vec<u8>,
    workers: Option<u32>,
    bins: &[Bin],
) -> Result<(), AllocError>
    ensures { OnOk result (text.new.items ≡ text.old.items ++ bins_part workers bins.now) }
{
    put_ends_word(text, workers)?;
    put_bins(alloc, text, bins)?;
    text.extend_from_slice(b"\n")
}

// Appends to a text what is reported of the runs, before what remedies save.
fn put_runs(
    alloc: Global,
    text: &mut Vec<u8>,
    told: &ManyTold,
    many: &ManyRuns,
) -> Result<(), AllocError>
    ensures { OnOk result (text.new.items ≡ text.old.items ++ runs_text told.now many.now) }
{
    put_head_part(text, told)?;
    put_numbers_part(alloc, text, told.plan_workers, many)?;
    put_bins_part(alloc, text, told.plan_workers, &many.bins)?;
    Ok(())
}

/// Returns what many runs say. First are how many there are, of how many workers, and by which seeds, and the least, the median and the most of their numbers.
/// Then comes the span of the run with one worker, where it is outside, and a histogram of the ends by which the runs are judged. Last is what each remedy
/// saves in them. `AllocError` says that memory was refused.
pub fn many_text(
    alloc: Global,
    names: &Names,
    told: &ManyTold,
    many: &ManyRuns,
) -> Result<Vec<u8>, AllocError>
    ensures { IfOk result (λ text. IsManyText names.now told.now many.now text.items) }
{
    let mut text = Vec::new(alloc);
    put_runs(alloc, &mut text, told, many)?;
    put_remedies(alloc, &mut text, names, &many.lines)?;
    Ok(text)
}
