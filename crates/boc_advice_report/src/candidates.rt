// The table of what would move the end forward.

ghost use Rattle.std.specs.Prelude.{◌≡◌, ◌++◌, ◌∷◌, [], IfOk, OnOk, length, map, take};
ghost use Rattle.boc_advice_report.specs.declared.candidates.TheConstants.{MOST_LISTED};
ghost use Rattle.boc_advice_report.specs.AdviceTexts.{candidate_name, candidate_texts, candidates_lines, candidates_table, end_saved, end_text, ends_texts};
ghost use Rattle.boc_advice_report.specs.AdviceTexts.{head_name, list_head, list_sides, more_line, no_numbers};

use crate::words::{more_text, put_remedy, saved_text};
use crate::workers::put_count;
use boc_names::Names;
use boc_remedies::{Candidate, Ends};
use boc_table::{Side, Table, put_table};
use boc_why_report::number;
use std::alloc::{AllocError, Global};

/// The most lines of a list. How many more there are is reported on a line after them.
pub(crate) const MOST_LISTED: usize = 20;

// The sides of the columns: a name, the span, and how much sooner that is.
const BY_SPAN: [Side; 3] = [Side::Left, Side::Right, Side::Right];

// The same, with the end of the greedy plan, and how much sooner that is, before the span.
const BY_END: [Side; 5] = [
    Side::Left,
    Side::Right,
    Side::Right,
    Side::Right,
    Side::Right,
];

/// Returns an empty table of names and ends, with greedy ends where there is one now.
pub(crate) fn ends_table(alloc: Global, now: Ends) -> Table
    ensures sides { result.sides ≡ list_sides now }
    ensures empty { result.lines ≡ [] }
{
    match now.greedy {
        Some(_) => Table::new(alloc, &BY_END),
        None => Table::new(alloc, &BY_SPAN),
    }
}

// Returns what is above the names of a list, under this word.
fn head_name(alloc: Global, word: &[u8], workers: Option<u32>) -> Result<Vec<u8>, AllocError>
    ensures { IfOk result (λ text. text.items ≡ head_name word.now workers) }
{
    let mut name = Vec::from_slice(alloc, word)?;
    if let Some(workers) = workers {
        name.extend_from_slice(b" for ")?;
        put_count(&mut name, workers)?;
    }
    Ok(name)
}

/// Puts what is above the columns of a list of changes, under this word.
pub(crate) fn put_list_head(
    alloc: Global,
    table: &mut Table,
    word: &[u8],
    workers: Option<u32>,
    now: Ends,
) -> Result<(), AllocError>
    requires { length table.old.sides ≡ length (list_sides now) }
    ensures { OnOk result (table.new ≡ record table.old { lines = table.old.lines ++ list_head word.now workers now ∷ [] }) }
{
    let name = head_name(alloc, word, workers)?;
    match now.greedy {
        Some(_) => table.put_line(&[&name, b"end", b"less", b"span", b"less"]),
        None => table.put_line(&[&name, b"span", b"less"]),
    }
}

/// Returns an end of a greedy plan, as a text; nothing where there is none.
pub(crate) fn end_text(alloc: Global, end: Option<u64>) -> Result<Vec<u8>, AllocError>
    ensures { IfOk result (λ text. text.items ≡ end_text end) }
{
    match end {
        Some(end) => number(alloc, end),
        None => Ok(Vec::new(alloc)),
    }
}

// Returns by how much an end of a greedy plan is sooner than it was; nothing where one of them isn't there.
fn end_saved(alloc: Global, was: Option<u64>, end: Option<u64>) -> Result<Vec<u8>, AllocError>
    ensures { IfOk result (λ text. text.items ≡ end_saved was end) }
{
    let (Some(was), Some(end)) = (was, end) else {
        return Ok(Vec::new(alloc));
    };
    saved_text(alloc, was, end)
}

/// Puts the line of a change into a table for these ends: its name, what it leaves, and how much sooner that is than it was.
pub(crate) fn put_ends(
    alloc: Global,
    table: &mut Table,
    name: &[u8],
    now: Ends,
    was: Ends,
    left: Ends,
) -> Result<(), AllocError>
    requires { length table.old.sides ≡ length (list_sides now) }
    ensures { OnOk result (table.new ≡ record table.old { lines = table.old.lines ++ ends_texts name.now now was left ∷ [] }) }
{
    let span = number(alloc, left.span)?;
    let span_saved = saved_text(alloc, was.span, left.span)?;
    if now.greedy.is_none() {
        return table.put_line(&[name, &span, &span_saved]);
    }
    let end = end_text(alloc, left.greedy)?;
    let saved = end_saved(alloc, was.greedy, left.greedy)?;
    table.put_line(&[name, &end, &saved, &span, &span_saved])
}

/// Puts how many more lines there are after the first ones of this many, where there are more.
pub(crate) fn put_more(
    alloc: Global,
    table: &mut Table,
    count: usize,
    now: Ends,
) -> Result<(), AllocError>
    requires { length table.old.sides ≡ length (list_sides now) }
    ensures { OnOk result (table.new ≡ record table.old { lines = table.old.lines ++ more_line count (no_numbers now) }) }
{
    if count <= MOST_LISTED {
        return Ok(());
    }
    let more = more_text(alloc, count - MOST_LISTED)?;
    match now.greedy {
        Some(_) => table.put_line(&[&more, &[], &[], &[], &[]]),
        None => table.put_line(&[&more, &[], &[]]),
    }
}

// Returns what a candidate is called in a list.
fn candidate_name(alloc: Global, names: &Names, own: &Candidate) -> Result<Vec<u8>, AllocError>
    ensures { IfOk result (λ text. text.items ≡ candidate_name names.now own.now) }
{
    let mut name = Vec::new(alloc);
    name.extend_from_slice(b"  ")?;
    put_remedy(&mut name, names, &own.remedy)?;
    Ok(name)
}

// Puts the line of a candidate.
fn put_candidate(
    alloc: Global,
    table: &mut Table,
    names: &Names,
    now: Ends,
    own: &Candidate,
) -> Result<(), AllocError>
    requires { length table.old.sides ≡ length (list_sides now) }
    ensures { OnOk result (table.new ≡ record table.old { lines = table.old.lines ++ candidate_texts names.now now own.now ∷ [] }) }
{
    let name = candidate_name(alloc, names, own)?;
    put_ends(alloc, table, &name, now, now, own.ends)
}

// Puts the lines of some candidates.
fn put_listed(
    alloc: Global,
    table: &mut Table,
    names: &Names,
    now: Ends,
    listed: &[Candidate],
) -> Result<(), AllocError>
    requires { length table.old.sides ≡ length (list_sides now) }
    ensures { OnOk result (table.new ≡ record table.old { lines = table.old.lines ++ map (candidate_texts names.now now) listed.now }) }
{
    for own in listed {
        put_candidate(alloc, table, names, now, own)?;
    }
    Ok(())
}

// Returns those of some candidates that are listed: the first.
fn first_candidates(candidates: &[Candidate]) -> &[Candidate]
    ensures { result.now ≡ take MOST_LISTED candidates.now }
{
    &candidates[..candidates.len().min(MOST_LISTED)]
}

// Returns the table of the candidates: the first 20, and how many more there are.
fn table_of(
    alloc: Global,
    names: &Names,
    workers: Option<u32>,
    now: Ends,
    candidates: &[Candidate],
) -> Result<Table, AllocError>
    ensures sides { IfOk result (λ table. table.sides ≡ list_sides now) }
    ensures lines { IfOk result (λ table. table.lines ≡ candidates_lines names.now workers now candidates.now) }
{
    let mut table = ends_table(alloc, now);
    put_list_head(alloc, &mut table, b"candidates", workers, now)?;
    put_listed(alloc, &mut table, names, now, first_candidates(candidates))?;
    put_more(alloc, &mut table, candidates.len(), now)?;
    Ok(table)
}

/// Appends the table of the candidates to a text: the first 20, and how many more there are; with what is left with each, and how much sooner that is.
pub(crate) fn put_candidates(
    alloc: Global,
    text: &mut Vec<u8>,
    names: &Names,
    workers: Option<u32>,
    now: Ends,
    candidates: &[Candidate],
) -> Result<(), AllocError>
    ensures { OnOk result (text.new.items ≡ text.old.items ++ candidates_table names.now workers now candidates.now) }
{
    let table = table_of(alloc, names, workers, now, candidates)?;
    put_table(text, &table)
}
