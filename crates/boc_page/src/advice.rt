// What would help, and what cowns cost.

ghost use Rattle.std.specs.Prelude.{◌≡◌, ◌++◌, IfOk, OnOk, map, take};
ghost use Rattle.boc_page.specs.Advice.{candidate_text, candidates_text, cown_line, cown_lines, hot_numbers};
ghost use Rattle.boc_page.specs.Advice.{joined_candidates, kind_text, more_candidates, remedy_name};
ghost use Rattle.boc_page.specs.declared.advice.TheConstants.{MOST_LISTED};

use crate::json::{put_key, put_string};
use boc_advice_report::put_families;
use boc_cowns::{HotCown, HotCowns};
use boc_names::{Names, text_at};
use boc_remedies::{Candidate, Remedy};
use boc_text::put_number;
use std::alloc::{AllocError, Global};

/// The most candidates that are listed, as `why` lists them.
pub const MOST_LISTED: usize = 20;

// Returns the kind of a remedy.
fn kind_of(remedy: &Remedy) -> &'static str
    ensures { result.now ≡ kind_text remedy.now }
{
    match remedy {
        Remedy::HalfCost(_) => "half",
        Remedy::NoOrder(_) => "without",
        Remedy::EarlySpawns(_) => "early",
    }
}

// Returns the name of the def that a remedy is for, or those of the families of cowns.
fn name_of(alloc: Global, names: &Names, remedy: &Remedy) -> Result<Vec<u8>, AllocError>
    ensures { IfOk result (λ name. name.items ≡ remedy_name names.now remedy.now) }
{
    let mut name = Vec::new(alloc);
    match remedy {
        Remedy::HalfCost(def) | Remedy::EarlySpawns(def) => {
            name.extend_from_slice(text_at(&names.def_names, *def as usize))?;
        }
        Remedy::NoOrder(families) => put_families(&mut name, names, families.as_slice())?,
    }
    Ok(name)
}

// Appends a candidate to a text: its kind, the name, the span and the end that it leaves.
fn put_candidate(
    alloc: Global,
    text: &mut Vec<u8>,
    names: &Names,
    own: &Candidate,
) -> Result<(), AllocError>
    ensures { OnOk result (text.new.items ≡ text.old.items ++ candidate_text names.now own.now) }
{
    let name = name_of(alloc, names, &own.remedy)?;
    text.push(b'[')?;
    put_string(text, kind_of(&own.remedy).as_bytes())?;
    text.push(b',')?;
    put_string(text, &name)?;
    text.push(b',')?;
    put_number(text, own.ends.span)?;
    text.push(b',')?;
    put_number(text, own.ends.judged())?;
    text.push(b']')?;
    Ok(())
}

// Appends candidates to others.
fn put_more_candidates(
    alloc: Global,
    text: &mut Vec<u8>,
    names: &Names,
    candidates: &[Candidate],
) -> Result<(), AllocError>
    ensures { OnOk result (text.new.items ≡ text.old.items ++ more_candidates names.now candidates.now) }
{
    for own in candidates {
        text.push(b',')?;
        put_candidate(alloc, text, names, own)?;
    }
    Ok(())
}

// Appends candidates to a text, with commas between them.
fn put_joined_candidates(
    alloc: Global,
    text: &mut Vec<u8>,
    names: &Names,
    candidates: &[Candidate],
) -> Result<(), AllocError>
    ensures { OnOk result (text.new.items ≡ text.old.items ++ joined_candidates names.now candidates.now) }
{
    match candidates {
        [] => Ok(()),
        [first, others @ ..] => {
            put_candidate(alloc, text, names, first)?;
            put_more_candidates(alloc, text, names, others)
        }
    }
}

// Returns the candidates that are listed.
fn listed(candidates: &[Candidate]) -> &[Candidate]
    ensures { result.now ≡ take MOST_LISTED candidates.now }
{
    &candidates[..candidates.len().min(MOST_LISTED)]
}

/// Appends the key of the candidates to a text, and the first of them.
#[tactic(auto, unfolding(crate::specs::Advice::candidates_text))]
pub(crate) fn put_candidates(
    alloc: Global,
    text: &mut Vec<u8>,
    names: &Names,
    candidates: &[Candidate],
) -> Result<(), AllocError>
    ensures { OnOk result (text.new.items ≡ text.old.items ++ candidates_text names.now (take MOST_LISTED candidates.now)) }
{
    put_key(text, b"candidates")?;
    text.push(b'[')?;
    put_joined_candidates(alloc, text, names, listed(candidates))?;
    text.push(b']')?;
    Ok(())
}

// Returns what a cown costs: how many rows have it, how many wrote it, for how long it is held, waited for and handed on, and the span without it.
fn hot_numbers(alloc: Global, own: &HotCown) -> Result<Vec<u64>, AllocError>
    ensures { IfOk result (λ numbers. numbers.items ≡ hot_numbers own.now) }
{
    Vec::from_slice(
        alloc,
        &[
            u64::from(own.rows),
            u64::from(own.wrote),
            own.held,
            own.waited,
            own.chain,
            own.without,
        ],
    )
}

// Returns the numbers of a cown, which come from the first of these that is about it. One that no row has costs nothing, and leaves the span as it is.
fn cown_line(
    alloc: Global,
    span: u64,
    cowns: &[HotCown],
    cown: usize,
) -> Result<Vec<u64>, AllocError>
    ensures { IfOk result (λ numbers. numbers.items ≡ cown_line span cowns.now cown) }
{
    for own in cowns {
        if usize::from(own.cown) == cown {
            return hot_numbers(alloc, own);
        }
    }
    Vec::from_slice(alloc, &[0, 0, 0, 0, 0, span])
}

/// Returns what each of this many cowns costs.
pub(crate) fn cown_table(
    alloc: Global,
    count: usize,
    hot: &HotCowns,
) -> Result<Vec<Vec<u64>>, AllocError>
    ensures { IfOk result (λ column. map (λ c. c.items) column.items ≡ cown_lines count hot.now) }
{
    let mut column = Vec::with_capacity(alloc, count)?;
    for cown in 0..count {
        column.push(cown_line(alloc, hot.span, &hot.cowns, cown)?)?;
    }
    Ok(column)
}
