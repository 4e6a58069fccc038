// The numbers of both runs, line by line.

ghost use Rattle.std.specs.Prelude.{◌≡◌, ◌++◌, ◌∷◌, [], length, IfOk, OnOk};
ghost use Rattle.boc_compare_report.specs.CompareTexts.{ends_lines, for_text, least_for, number_lines, number_texts, numbers_sides};
ghost use Rattle.boc_compare_report.specs.CompareTexts.{order_lines, plain_lines, times_lines, typical_lines};

use crate::words::change_text;
use boc_compare::{Side, Times};
use boc_table::{Side as Align, Table};
use boc_text::put_number;
use boc_why_report::number;
use std::alloc::{AllocError, Global};

/// The sides of the columns: a name, the number before, the number after, and by how much it changes.
pub(crate) const NUMBER_SIDES: [Align; 4] = [Align::Left, Align::Right, Align::Right, Align::Right];

// Puts the line of a number.
fn put_line(
    alloc: Global,
    table: &mut Table,
    name: &[u8],
    was: u64,
    now: u64,
) -> Result<(), AllocError>
    requires { length table.old.sides ≡ 4 }
    ensures { OnOk result (table.new ≡ record table.old { lines = table.old.lines ++ number_texts name.now was now ∷ [] }) }
{
    let change = change_text(alloc, was, now)?;
    let was = number(alloc, was)?;
    let now = number(alloc, now)?;
    table.put_line(&[name, &was, &now, &change])
}

// Returns a name that ends in a number of workers.
fn for_workers(alloc: Global, name: &[u8], workers: u32) -> Result<Vec<u8>, AllocError>
    ensures { IfOk result (λ text. text.items ≡ for_text name.now workers) }
{
    let mut text = Vec::from_slice(alloc, name)?;
    put_number(&mut text, u64::from(workers))?;
    Ok(text)
}

// Puts the line of the ends of the greedy plans, where a number of workers is given.
fn put_ends(
    alloc: Global,
    table: &mut Table,
    name: &[u8],
    workers: u32,
    was: Option<u64>,
    now: Option<u64>,
) -> Result<(), AllocError>
    requires { length table.old.sides ≡ 4 }
    ensures { OnOk result (table.new ≡ record table.old { lines = table.old.lines ++ ends_lines name.now workers was now }) }
{
    match (was, now) {
        (Some(was), Some(now)) => {
            let name = for_workers(alloc, name, workers)?;
            put_line(alloc, table, &name, was, now)
        }
        _ => Ok(()),
    }
}

// Returns a tick before which no plan for this number of workers ends: the later of each one's part of the work and the span.
fn least_for(times: Times, workers: u32) -> Option<u64>
    ensures { result ≡ least_for times workers }
{
    match times.end {
        Some(_) if workers > 0 => Some(times.work.div_ceil(u64::from(workers)).max(times.span)),
        _ => None,
    }
}

// Puts the lines of what the rows take.
fn put_times(
    alloc: Global,
    table: &mut Table,
    workers: u32,
    was: Times,
    now: Times,
) -> Result<(), AllocError>
    requires { length table.old.sides ≡ 4 }
    ensures { OnOk result (table.new ≡ record table.old { lines = table.old.lines ++ times_lines workers was now }) }
{
    put_line(alloc, table, b"work", was.work, now.work)?;
    put_line(alloc, table, b"span", was.span, now.span)?;
    put_ends(alloc, table, b"end for ", workers, was.end, now.end)?;
    let (least, least_now) = (least_for(was, workers), least_for(now, workers));
    put_ends(alloc, table, b"least for ", workers, least, least_now)
}

// Puts the lines of another order, and of the bound for any.
fn put_orders(alloc: Global, table: &mut Table, was: &Side, now: &Side) -> Result<(), AllocError>
    requires { length table.old.sides ≡ 4 }
    ensures { OnOk result (table.new ≡ record table.old { lines = table.old.lines ++ order_lines was.now now.now }) }
{
    put_line(
        alloc,
        table,
        b"a better order",
        was.order_end,
        now.order_end,
    )?;
    put_line(alloc, table, b"bound for any order", was.bound, now.bound)
}

// Puts the lines of what the rows take with typical ticks.
fn put_typical(
    alloc: Global,
    table: &mut Table,
    workers: u32,
    was: Times,
    now: Times,
) -> Result<(), AllocError>
    requires { length table.old.sides ≡ 4 }
    ensures { OnOk result (table.new ≡ record table.old { lines = table.old.lines ++ typical_lines workers was now }) }
{
    put_line(alloc, table, b"typical work", was.work, now.work)?;
    put_line(alloc, table, b"typical span", was.span, now.span)?;
    put_ends(alloc, table, b"typical end for ", workers, was.end, now.end)
}

// Puts the lines of the numbers of the rows as they are.
fn put_plain(
    alloc: Global,
    table: &mut Table,
    workers: u32,
    was: &Side,
    now: &Side,
) -> Result<(), AllocError>
    requires { length table.old.sides ≡ 4 }
    ensures { OnOk result (table.new ≡ record table.old { lines = table.old.lines ++ plain_lines workers was.now now.now }) }
{
    table.put_line(&[&[], b"before", b"after", &[]])?;
    put_line(alloc, table, b"rows", was.rows, now.rows)?;
    put_times(alloc, table, workers, was.times, now.times)?;
    put_orders(alloc, table, was, now)
}

/// Returns the table of the numbers: with typical ticks too, where that is requested.
pub(crate) fn numbers_table(
    alloc: Global,
    workers: u32,
    typical: bool,
    was: &Side,
    now: &Side,
) -> Result<Table, AllocError>
    ensures sides { IfOk result (λ table. table.sides ≡ numbers_sides) }
    ensures lines { IfOk result (λ table. table.lines ≡ number_lines workers typical was.now now.now) }
{
    let mut table = Table::new(alloc, &NUMBER_SIDES);
    put_plain(alloc, &mut table, workers, was, now)?;
    if typical {
        put_typical(alloc, &mut table, workers, was.typical, now.typical)?;
    }
    Ok(table)
}
