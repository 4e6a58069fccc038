// The table of what remedies save.

ghost use Rattle.std.specs.Prelude.{◌≡◌, ◌++◌, ◌∷◌, [], IfOk, OnOk, codes, length, map, take};
ghost use Rattle.std.specs.Fmt.{signed_decimal};
ghost use Rattle.boc_advice_report.specs.AdviceTexts.{remedy_text};
ghost use Rattle.boc_many_runs_report.specs.ManyTexts.{line_sides, more_lines, remedies_lines, remedies_table, remedy_line};

use boc_advice_report::put_remedy;
use boc_many_runs::Line;
use boc_names::Names;
use boc_remedies::Remedy;
use boc_table::{Side, Table, put_table};
use boc_text::{put_number, put_signed};
use boc_why_report::number;
use std::alloc::{AllocError, Global};

/// The most lines of the list. How many more there are is reported on a line after them.
const MOST_LISTED: usize = 20;

// A name, and four numbers.
const SIDES: [Side; 5] = [
    Side::Left,
    Side::Right,
    Side::Right,
    Side::Right,
    Side::Right,
];

// Returns a number that may be less than 0, as a text. `AllocError` says that memory was refused.
fn signed(alloc: Global, number: i64) -> Result<Vec<u8>, AllocError>
    ensures { IfOk result (λ text. text.items ≡ signed_decimal number) }
{
    let mut text = Vec::new(alloc);
    put_signed(&mut text, number)?;
    Ok(text)
}

// Returns what a remedy is called in the list. `AllocError` says that memory was refused.
fn remedy_name(alloc: Global, names: &Names, remedy: &Remedy) -> Result<Vec<u8>, AllocError>
    ensures { IfOk result (λ text. text.items ≡ codes "  " ++ remedy_text names.now remedy.now) }
{
    let mut name = Vec::new(alloc);
    name.extend_from_slice(b"  ")?;
    put_remedy(&mut name, names, remedy)?;
    Ok(name)
}

// Puts the line of a remedy.
fn put_remedy_line(
    alloc: Global,
    table: &mut Table,
    names: &Names,
    own: &Line,
) -> Result<(), AllocError>
    requires { length table.old.sides ≡ length line_sides }
    ensures { OnOk result (table.new ≡ record table.old { lines = table.old.lines ++ remedy_line names.now own.now ∷ [] }) }
{
    let name = remedy_name(alloc, names, &own.remedy)?;
    let least = signed(alloc, own.least)?;
    let median = signed(alloc, own.median)?;
    let most = signed(alloc, own.most)?;
    let best_in = number(alloc, own.best_in)?;
    table.put_line(&[&name, &least, &median, &most, &best_in])
}

// Puts the lines of some remedies.
fn put_listed(
    alloc: Global,
    table: &mut Table,
    names: &Names,
    listed: &[Line],
) -> Result<(), AllocError>
    requires { length table.old.sides ≡ length line_sides }
    ensures { OnOk result (table.new ≡ record table.old { lines = table.old.lines ++ map (remedy_line names.now) listed.now }) }
{
    for own in listed {
        put_remedy_line(alloc, table, names, own)?;
    }
    Ok(())
}

// Puts how many more lines there are after the first ones of this many, where there are more.
fn put_more(alloc: Global, table: &mut Table, count: usize) -> Result<(), AllocError>
    requires { length table.old.sides ≡ length line_sides }
    ensures { OnOk result (table.new ≡ record table.old { lines = table.old.lines ++ more_lines count }) }
{
    if count <= MOST_LISTED {
        return Ok(());
    }
    let mut more = Vec::new(alloc);
    more.extend_from_slice(b"  ")?;
    put_number(&mut more, (count - MOST_LISTED) as u64)?;
    more.extend_from_slice(b" more")?;
    table.put_line(&[&more, &[], &[], &[], &[]])
}

// Returns those of some lines that are listed: the first.
fn first_lines(lines: &[Line]) -> &[Line]
    ensures { result.now ≡ take MOST_LISTED lines.now }
{
    &lines[..lines.len().min(MOST_LISTED)]
}

// Returns the table of what remedies save: the first 20, and how many more there are.
fn table_of(alloc: Global, names: &Names, lines: &[Line]) -> Result<Table, AllocError>
    ensures sides { IfOk result (λ table. table.sides ≡ line_sides) }
    ensures lines { IfOk result (λ table. table.lines ≡ remedies_lines names.now lines.now) }
{
    let mut table = Table::new(alloc, &SIDES);
    table.put_line(&[b"candidates", b"least less", b"median", b"most", b"best in"])?;
    put_listed(alloc, &mut table, names, first_lines(lines))?;
    put_more(alloc, &mut table, lines.len())?;
    Ok(table)
}

/// Appends the table of what remedies save to a text: the first 20, and how many more there are.
pub(crate) fn put_remedies(
    alloc: Global,
    text: &mut Vec<u8>,
    names: &Names,
    lines: &[Line],
) -> Result<(), AllocError>
    ensures { OnOk result (text.new.items ≡ text.old.items ++ remedies_table names.now lines.now) }
{
    let table = table_of(alloc, names, lines)?;
    put_table(text, &table)
}
