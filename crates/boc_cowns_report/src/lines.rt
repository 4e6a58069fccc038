// The table of the cowns.

ghost use Rattle.std.specs.Prelude.{◌≡◌, ◌++◌, ◌∷◌, [], ◌<◌, ◌^◌, All, length, IfOk, OnOk};
ghost use Rattle.boc_names.specs.Names.{texts_of};
ghost use Rattle.boc_cowns_report.specs.CownsTexts.{cown_lines, cown_texts, cowns_head, cowns_sides, cowns_table, judged_of};
ghost use Rattle.boc_cowns_report.specs.CownsTexts.{judged_head, judged_lines, judged_sides, judged_table, judged_texts, number_texts, percent_text};
ghost use Rattle.boc_cowns_report.specs.CownsTexts.{texts_of_numbers, told_of};

use crate::judged::JudgedCown;
use boc_cowns::{HotCown, HotCowns};
use boc_names::{Names, text_at};
use boc_table::{Side, Table, put_table};
use boc_text::put_number;
use boc_why_report::number;
use std::alloc::{AllocError, Global};

// The sides of the columns.
const COWNS_SIDES: [Side; 8] = [
    Side::Left,
    Side::Right,
    Side::Right,
    Side::Right,
    Side::Right,
    Side::Right,
    Side::Right,
    Side::Right,
];

// Appends ticks in percent of the span to a text, rounded down.
fn put_percent(text: &mut Vec<u8>, ticks: u64, span: u64) -> Result<(), AllocError>
    requires low { ticks < 2 ^ 56 }
    requires some { 0 < span }
    ensures { OnOk result (text.new.items ≡ text.old.items ++ percent_text ticks span) }
{
    put_number(text, ticks * 100 / span)?;
    text.extend_from_slice(b"%")
}

// The same, and that of the end of the greedy plan.
const JUDGED_SIDES: [Side; 9] = [
    Side::Left,
    Side::Right,
    Side::Right,
    Side::Right,
    Side::Right,
    Side::Right,
    Side::Right,
    Side::Right,
    Side::Right,
];

// Ticks in percent of the span, rounded down.
fn percent_text(alloc: Global, ticks: u64, span: u64) -> Result<Vec<u8>, AllocError>
    requires low { ticks < 2 ^ 56 }
    requires some { 0 < span }
    ensures { IfOk result (λ text. text.items ≡ percent_text ticks span) }
{
    let mut text = Vec::new(alloc);
    put_percent(&mut text, ticks, span)?;
    Ok(text)
}

// The numbers of a cown's line, as texts.
#[derive(Drop)]
struct Numbers {
    rows: Vec<u8>,
    wrote: Vec<u8>,
    held: Vec<u8>,
    of_span: Vec<u8>,
    waited: Vec<u8>,
    chain: Vec<u8>,
    without: Vec<u8>,
}

// Returns the numbers of a cown's line.
fn numbers_of(alloc: Global, span: u64, hot: HotCown) -> Result<Numbers, AllocError>
    requires low { hot.held < 2 ^ 56 }
    requires some { 0 < span }
    ensures { IfOk result (λ numbers. texts_of_numbers numbers ≡ number_texts span hot) }
{
    Ok(Numbers {
        rows: number(alloc, u64::from(hot.rows))?,
        wrote: number(alloc, u64::from(hot.wrote))?,
        held: number(alloc, hot.held)?,
        of_span: percent_text(alloc, hot.held, span)?,
        waited: number(alloc, hot.waited)?,
        chain: number(alloc, hot.chain)?,
        without: number(alloc, hot.without)?,
    })
}

// Puts the line of a cown.
fn put_cown(
    alloc: Global,
    table: &mut Table,
    names: &Names,
    span: u64,
    hot: HotCown,
) -> Result<(), AllocError>
    requires columns { length table.old.sides ≡ 8 }
    requires low { hot.held < 2 ^ 56 }
    requires some { 0 < span }
    ensures { OnOk result (table.new ≡ record table.old { lines = table.old.lines ++ cown_texts names.now span hot ∷ [] }) }
{
    let own = numbers_of(alloc, span, hot)?;
    let name = text_at(&names.cowns, hot.cown as usize);
    table.put_line(&[
        name,
        &own.rows,
        &own.wrote,
        &own.held,
        &own.of_span,
        &own.waited,
        &own.chain,
        &own.without,
    ])
}

// Puts the lines of some cowns.
fn put_cowns(
    alloc: Global,
    table: &mut Table,
    names: &Names,
    span: u64,
    cowns: &[HotCown],
) -> Result<(), AllocError>
    requires columns { length table.old.sides ≡ 8 }
    requires low { All (λ c. c.held < 2 ^ 56) cowns.now }
    requires some { 0 < span }
    ensures { OnOk result (table.new ≡ record table.old { lines = table.old.lines ++ cown_lines names.now span cowns.now }) }
{
    for hot in cowns {
        put_cown(alloc, table, names, span, *hot)?;
    }
    Ok(())
}

/// Returns the cowns that are reported: all of them, or only the first ones.
pub(crate) fn told_of(most: Option<u32>, cowns: &[HotCown]) -> &[HotCown]
    ensures { result.now ≡ told_of most cowns.now }
{
    match most {
        Some(most) => &cowns[..cowns.len().min(most as usize)],
        None => cowns,
    }
}

// Writes what is above the columns.
fn put_head(table: &mut Table) -> Result<(), AllocError>
    requires { length table.old.sides ≡ 8 }
    ensures { OnOk result (table.new ≡ record table.old { lines = table.old.lines ++ cowns_head ∷ [] }) }
{
    table.put_line(&[
        b"cown", b"rows", b"wrote", b"held", b"of span", b"waited", b"chain", b"without",
    ])
}

// Returns the table of some cowns.
fn table_of(alloc: Global, names: &Names, span: u64, cowns: &[HotCown]) -> Result<Table, AllocError>
    requires low { All (λ c. c.held < 2 ^ 56) cowns.now }
    requires some { 0 < span }
    ensures sides { IfOk result (λ table. table.sides ≡ cowns_sides) }
    ensures lines { IfOk result (λ table. table.lines ≡ cowns_head ∷ cown_lines names.now span cowns.now) }
{
    let mut table = Table::new(alloc, &COWNS_SIDES);
    put_head(&mut table)?;
    put_cowns(alloc, &mut table, names, span, cowns)?;
    Ok(table)
}

/// Appends a line for each cown that is reported to a text.
pub(crate) fn put_cowns_table(
    alloc: Global,
    text: &mut Vec<u8>,
    names: &Names,
    most: Option<u32>,
    hot: &HotCowns,
) -> Result<(), AllocError>
    requires low { All (λ c. c.held < 2 ^ 56) hot.now.cowns.items }
    requires some { 0 < hot.now.span }
    ensures { OnOk result (text.new.items ≡ text.old.items ++ cowns_table names.now most hot.now) }
{
    let table = table_of(alloc, names, hot.span, told_of(most, &hot.cowns))?;
    put_table(text, &table)
}

// Puts the line of a cown with the end of the greedy plan without it.
fn put_judged(
    alloc: Global,
    table: &mut Table,
    names: &Names,
    span: u64,
    own: JudgedCown,
) -> Result<(), AllocError>
    requires columns { length table.old.sides ≡ 9 }
    requires low { own.hot.held < 2 ^ 56 }
    requires some { 0 < span }
    ensures { OnOk result (table.new ≡ record table.old { lines = table.old.lines ++ judged_texts names.now span own ∷ [] }) }
{
    let hot = numbers_of(alloc, span, own.hot)?;
    let end = number(alloc, own.end)?;
    let name = text_at(&names.cowns, own.hot.cown as usize);
    table.put_line(&[
        name,
        &hot.rows,
        &hot.wrote,
        &hot.held,
        &hot.of_span,
        &hot.waited,
        &hot.chain,
        &hot.without,
        &end,
    ])
}

/// Returns those of some cowns that are reported: all of them, or only the first ones.
pub(crate) fn judged_of(most: Option<u32>, cowns: &[JudgedCown]) -> &[JudgedCown]
    ensures { result.now ≡ judged_of most cowns.now }
{
    match most {
        Some(most) => &cowns[..cowns.len().min(most as usize)],
        None => cowns,
    }
}

// Puts the lines of some cowns with the ends of the greedy plans without them.
fn put_judged_lines(
    alloc: Global,
    table: &mut Table,
    names: &Names,
    span: u64,
    cowns: &[JudgedCown],
) -> Result<(), AllocError>
    requires columns { length table.old.sides ≡ 9 }
    requires low { All (λ own. own.hot.held < 2 ^ 56) cowns.now }
    requires some { 0 < span }
    ensures { OnOk result (table.new ≡ record table.old { lines = table.old.lines ++ judged_lines names.now span cowns.now }) }
{
    for own in cowns {
        put_judged(alloc, table, names, span, *own)?;
    }
    Ok(())
}

// Puts what is above the columns of that table.
fn put_judged_head(table: &mut Table) -> Result<(), AllocError>
    requires { length table.old.sides ≡ 9 }
    ensures { OnOk result (table.new ≡ record table.old { lines = table.old.lines ++ judged_head ∷ [] }) }
{
    table.put_line(&[
        b"cown",
        b"rows",
        b"wrote",
        b"held",
        b"of span",
        b"waited",
        b"chain",
        b"without",
        b"end without",
    ])
}

// Returns the table of some cowns with the ends of the greedy plans without them.
fn judged_table_of(
    alloc: Global,
    names: &Names,
    span: u64,
    cowns: &[JudgedCown],
) -> Result<Table, AllocError>
    requires low { All (λ own. own.hot.held < 2 ^ 56) cowns.now }
    requires some { 0 < span }
    ensures sides { IfOk result (λ table. table.sides ≡ judged_sides) }
    ensures lines { IfOk result (λ table. table.lines ≡ judged_head ∷ judged_lines names.now span cowns.now) }
{
    let mut table = Table::new(alloc, &JUDGED_SIDES);
    put_judged_head(&mut table)?;
    put_judged_lines(alloc, &mut table, names, span, cowns)?;
    Ok(table)
}

/// Appends a line for each cown that is reported to a text, with the end of the greedy plan without it.
pub(crate) fn put_judged_table(
    alloc: Global,
    text: &mut Vec<u8>,
    names: &Names,
    most: Option<u32>,
    span: u64,
    cowns: &[JudgedCown],
) -> Result<(), AllocError>
    requires low { All (λ own. own.hot.held < 2 ^ 56) cowns.now }
    requires some { 0 < span }
    ensures { OnOk result (text.new.items ≡ text.old.items ++ judged_table names.now most span cowns.now) }
{
    let table = judged_table_of(alloc, names, span, judged_of(most, cowns))?;
    put_table(text, &table)
}
