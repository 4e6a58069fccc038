// What is reported of runs of two programs that the same seeds draw.

ghost use Rattle.std.specs.Prelude.{◌≡◌, ◌++◌, ◌∷◌, [], IfOk, OnOk, length};
ghost use Rattle.boc_several_commands.specs.RunsTexts.{IsRunsText, both_line, change_text, ends_line, head_line, last_line, runs_lines, runs_sides, runs_table};
ghost use Rattle.boc_several_commands.specs.RunsTexts.{seeds_text, what_text};

use boc_compare_report::put_percent;
use boc_many_runs::{Spread, Spreads};
use boc_outcomes::Asked;
use boc_table::{Side, Table, put_table};
use boc_text::put_number;
use boc_why_report::number;
use std::alloc::{AllocError, Global};

/// Runs of two programs that the same seeds draw, and how they compare.
#[derive(Clone, Copy)]
pub struct RunsCompared {
    /// Which runs are drawn.
    pub asked: Asked,
    /// For how many workers greedy plans are made, if for any.
    pub plan_workers: Option<u32>,
    /// The spread of each number of the runs before.
    pub before: Spreads,
    /// The same after.
    pub after: Spreads,
    /// For how many seeds the end by which runs are judged is less after than before.
    pub less: u64,
    /// For how many it is the same.
    pub same: u64,
}

// A name, three numbers before, an arrow, three numbers after.
const SIDES: [Side; 8] = [
    Side::Left,
    Side::Right,
    Side::Right,
    Side::Right,
    Side::Left,
    Side::Right,
    Side::Right,
    Side::Right,
];

// Appends to a text how many runs of each program there are, of how many workers, and by which seeds.
fn put_head(text: &mut Vec<u8>, asked: &Asked) -> Result<(), AllocError>
    ensures { OnOk result (text.new.items ≡ text.old.items ++ head_line asked.now) }
{
    text.extend_from_slice(b"runs ")?;
    put_number(text, u64::from(asked.runs))?;
    text.extend_from_slice(b"   workers ")?;
    put_number(text, u64::from(asked.workers))?;
    text.extend_from_slice(b"   seeds ")?;
    put_number(text, asked.seed)?;
    text.extend_from_slice(b"..")?;
    put_number(text, asked.seed_of(asked.runs.saturating_sub(1)))?;
    text.extend_from_slice(b"\n\n")
}

// Puts the line of a number of both programs, by its name.
fn put_both(
    alloc: Global,
    table: &mut Table,
    name: &[u8],
    before: Spread,
    after: Spread,
) -> Result<(), AllocError>
    requires { length table.old.sides ≡ length runs_sides }
    ensures { OnOk result (table.new ≡ record table.old { lines = table.old.lines ++ both_line name.now before after ∷ [] }) }
{
    let least = number(alloc, before.least)?;
    let median = number(alloc, before.median)?;
    let most = number(alloc, before.most)?;
    let least_after = number(alloc, after.least)?;
    let median_after = number(alloc, after.median)?;
    let most_after = number(alloc, after.most)?;
    table.put_line(&[
        name,
        &least,
        &median,
        &most,
        b"",
        &least_after,
        &median_after,
        &most_after,
    ])
}

// Appends to a text by what runs are judged: by their spans, or by the ends for some workers.
fn put_what(text: &mut Vec<u8>, workers: Option<u32>) -> Result<(), AllocError>
    ensures { OnOk result (text.new.items ≡ text.old.items ++ what_text workers) }
{
    let Some(workers) = workers else {
        return text.extend_from_slice(b"span");
    };
    text.extend_from_slice(b"end for ")?;
    put_number(text, u64::from(workers))
}

// Puts the line of the ends for some workers, where a number of them is given.
fn put_ends(alloc: Global, table: &mut Table, told: &RunsCompared) -> Result<(), AllocError>
    requires { length table.old.sides ≡ length runs_sides }
    ensures { OnOk result (table.new ≡ record table.old
        { lines = table.old.lines ++ ends_line told.now.plan_workers told.now.before.end told.now.after.end }) }
{
    if told.plan_workers.is_none() {
        return Ok(());
    }
    let mut name = Vec::new(alloc);
    put_what(&mut name, told.plan_workers)?;
    put_both(alloc, table, &name, told.before.end, told.after.end)
}

// Returns the table of the numbers of both programs.
fn runs_table(alloc: Global, told: &RunsCompared) -> Result<Table, AllocError>
    ensures sides { IfOk result (λ table. table.sides ≡ runs_sides) }
    ensures lines { IfOk result (λ table. table.lines ≡ runs_lines told.now) }
{
    let RunsCompared { before, after, .. } = *told;
    let mut table = Table::new(alloc, &SIDES);
    table.put_line(&[
        b"", b"least", b"median", b"most", b"->", b"least", b"median", b"most",
    ])?;
    put_both(alloc, &mut table, b"rows", before.rows, after.rows)?;
    put_both(alloc, &mut table, b"work", before.work, after.work)?;
    put_both(alloc, &mut table, b"span", before.span, after.span)?;
    put_ends(alloc, &mut table, told)?;
    Ok(table)
}

// Appends the table of the numbers of both programs to a text.
fn put_runs_table(alloc: Global, text: &mut Vec<u8>, told: &RunsCompared) -> Result<(), AllocError>
    ensures { OnOk result (text.new.items ≡ text.old.items ++ runs_table told.now) }
{
    let table = runs_table(alloc, told)?;
    put_table(text, &table)
}

// Appends to a text by how much the median end changes.
fn put_change(text: &mut Vec<u8>, told: &RunsCompared) -> Result<(), AllocError>
    ensures { OnOk result (text.new.items ≡ text.old.items ++ change_text told.now) }
{
    text.extend_from_slice(b"the median ")?;
    put_what(text, told.plan_workers)?;
    text.extend_from_slice(b" is ")?;
    put_percent(text, told.before.end.median, told.after.end.median)
}

// Appends to a text for how many seeds of all the end is less, and for how many it is the same.
fn put_seeds(text: &mut Vec<u8>, less: u64, same: u64, runs: u64) -> Result<(), AllocError>
    ensures { OnOk result (text.new.items ≡ text.old.items ++ seeds_text less same runs) }
{
    text.extend_from_slice(b"; it is less in ")?;
    put_number(text, less)?;
    text.extend_from_slice(b" and the same in ")?;
    put_number(text, same)?;
    text.extend_from_slice(b" of ")?;
    put_number(text, runs)?;
    text.extend_from_slice(b" seeds\n")?;
    Ok(())
}

// Appends the last line to a text: by how much the median end changes, and for how many seeds it is less or the same.
fn put_last(text: &mut Vec<u8>, told: &RunsCompared) -> Result<(), AllocError>
    ensures { OnOk result (text.new.items ≡ text.old.items ++ last_line told.now) }
{
    put_change(text, told)?;
    put_seeds(text, told.less, told.same, u64::from(told.asked.runs))
}

/// Returns what is reported of the runs of two programs: how many there are of each, the least, the median and the most of their numbers, and by how much the
/// median end changes by which they are judged. `AllocError` says that memory was refused.
pub(crate) fn runs_text(alloc: Global, told: &RunsCompared) -> Result<Vec<u8>, AllocError>
    ensures { IfOk result (λ text. IsRunsText told.now text.items) }
{
    let mut text = Vec::new(alloc);
    put_head(&mut text, &told.asked)?;
    put_runs_table(alloc, &mut text, told)?;
    put_last(&mut text, told)?;
    Ok(text)
}
