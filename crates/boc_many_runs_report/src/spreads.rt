// The table of the numbers of all runs.

ghost use Rattle.std.specs.Prelude.{◌≡◌, ◌++◌, ◌∷◌, [], IfOk, OnOk, length};
ghost use Rattle.boc_many_runs_report.specs.ManyTexts.{end_lines, number_sides, numbers_lines, numbers_table, spread_line};

use boc_many_runs::{Spread, Spreads};
use boc_table::{Side, Table, put_table};
use boc_text::put_number;
use boc_why_report::number;
use std::alloc::{AllocError, Global};

// A name, and three numbers.
const SIDES: [Side; 4] = [Side::Left, Side::Right, Side::Right, Side::Right];

// Puts the line of some numbers, by their name.
fn put_spread(
    alloc: Global,
    table: &mut Table,
    name: &[u8],
    spread: Spread,
) -> Result<(), AllocError>
    requires { length table.old.sides ≡ length number_sides }
    ensures { OnOk result (table.new ≡ record table.old { lines = table.old.lines ++ spread_line name.now spread ∷ [] }) }
{
    let least = number(alloc, spread.least)?;
    let median = number(alloc, spread.median)?;
    let most = number(alloc, spread.most)?;
    table.put_line(&[name, &least, &median, &most])
}

// Puts the line of the ends of greedy plans, where there are any.
fn put_end(
    alloc: Global,
    table: &mut Table,
    workers: Option<u32>,
    end: Spread,
) -> Result<(), AllocError>
    requires { length table.old.sides ≡ length number_sides }
    ensures { OnOk result (table.new ≡ record table.old { lines = table.old.lines ++ end_lines workers end }) }
{
    let Some(workers) = workers else {
        return Ok(());
    };
    let mut name = Vec::new(alloc);
    name.extend_from_slice(b"end for ")?;
    put_number(&mut name, u64::from(workers))?;
    put_spread(alloc, table, &name, end)
}

// Returns the table of the numbers of all runs.
fn table_of(alloc: Global, workers: Option<u32>, spreads: &Spreads) -> Result<Table, AllocError>
    ensures sides { IfOk result (λ table. table.sides ≡ number_sides) }
    ensures lines { IfOk result (λ table. table.lines ≡ numbers_lines workers spreads.now) }
{
    let mut table = Table::new(alloc, &SIDES);
    table.put_line(&[b"", b"least", b"median", b"most"])?;
    put_spread(alloc, &mut table, b"rows", spreads.rows)?;
    put_spread(alloc, &mut table, b"work", spreads.work)?;
    put_spread(alloc, &mut table, b"span", spreads.span)?;
    put_spread(alloc, &mut table, b"a better order", spreads.order)?;
    put_end(alloc, &mut table, workers, spreads.end)?;
    Ok(table)
}

/// Appends the table of the numbers of all runs to a text: the least, the median and the most of each.
pub(crate) fn put_numbers(
    alloc: Global,
    text: &mut Vec<u8>,
    workers: Option<u32>,
    spreads: &Spreads,
) -> Result<(), AllocError>
    ensures { OnOk result (text.new.items ≡ text.old.items ++ numbers_table workers spreads.now) }
{
    let table = table_of(alloc, workers, spreads)?;
    put_table(text, &table)
}
