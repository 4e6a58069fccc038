// The table of several cowns at once.

ghost use Rattle.std.specs.Prelude.{◌≡◌, ◌++◌, ◌∷◌, [], IfOk, OnOk, length, map, take};
ghost use Rattle.boc_advice_report.specs.declared.candidates.TheConstants.{MOST_LISTED};
ghost use Rattle.boc_advice_report.specs.AdviceTexts.{more_line, no_ends, set_text, sets_table, together_head, together_line, together_lines};
ghost use Rattle.boc_advice_report.specs.AdviceTexts.{together_sides, together_table};

use crate::candidates::{MOST_LISTED, end_text};
use crate::words::{more_text, put_families};
use boc_names::Names;
use boc_remedies::Together;
use boc_table::{Side, Table, put_table};
use boc_why_report::number;
use std::alloc::{AllocError, Global};

// The sides of the columns: a name, and the span.
const BY_SPAN: [Side; 2] = [Side::Left, Side::Right];

// The same, with the end of the greedy plan before the span.
const BY_END: [Side; 3] = [Side::Left, Side::Right, Side::Right];

// Returns what several cowns are called, after two blanks.
fn set_text(alloc: Global, names: &Names, own: &Together) -> Result<Vec<u8>, AllocError>
    ensures { IfOk result (λ text. text.items ≡ set_text names.now own.now) }
{
    let mut text = Vec::new(alloc);
    text.extend_from_slice(b"  ")?;
    match &own.families {
        Some(families) => put_families(&mut text, names, families.as_slice())?,
        None => text.extend_from_slice(b"every cown")?,
    }
    Ok(text)
}

// Puts the line of several cowns into a table, which has greedy ends where there is one.
fn put_set(
    alloc: Global,
    table: &mut Table,
    names: &Names,
    greedy: Option<u64>,
    own: &Together,
) -> Result<(), AllocError>
    requires { length table.old.sides ≡ length (together_sides greedy) }
    ensures { OnOk result (table.new ≡ record table.old { lines = table.old.lines ++ together_line names.now greedy own.now ∷ [] }) }
{
    let name = set_text(alloc, names, own)?;
    let span = number(alloc, own.ends.span)?;
    if greedy.is_none() {
        return table.put_line(&[&name, &span]);
    }
    let end = end_text(alloc, own.ends.greedy)?;
    table.put_line(&[&name, &end, &span])
}

// Returns an empty table of names and ends, with greedy ends where there is one.
fn empty_table(alloc: Global, greedy: Option<u64>) -> Table
    ensures sides { result.sides ≡ together_sides greedy }
    ensures empty { result.lines ≡ [] }
{
    match greedy {
        Some(_) => Table::new(alloc, &BY_END),
        None => Table::new(alloc, &BY_SPAN),
    }
}

// Puts what is above the columns.
fn put_head(table: &mut Table, greedy: Option<u64>) -> Result<(), AllocError>
    requires { length table.old.sides ≡ length (together_sides greedy) }
    ensures { OnOk result (table.new ≡ record table.old { lines = table.old.lines ++ together_head greedy ∷ [] }) }
{
    match greedy {
        Some(_) => table.put_line(&[b"several cowns at once", b"end without", b"without"]),
        None => table.put_line(&[b"several cowns at once", b"without"]),
    }
}

// Puts how many more lines there are after the first ones of this many, where there are more.
fn put_more(
    alloc: Global,
    table: &mut Table,
    count: usize,
    greedy: Option<u64>,
) -> Result<(), AllocError>
    requires { length table.old.sides ≡ length (together_sides greedy) }
    ensures { OnOk result (table.new ≡ record table.old { lines = table.old.lines ++ more_line count (no_ends greedy) }) }
{
    if count <= MOST_LISTED {
        return Ok(());
    }
    let more = more_text(alloc, count - MOST_LISTED)?;
    match greedy {
        Some(_) => table.put_line(&[&more, &[], &[]]),
        None => table.put_line(&[&more, &[]]),
    }
}

// Puts the lines of several cowns.
fn put_sets(
    alloc: Global,
    table: &mut Table,
    names: &Names,
    greedy: Option<u64>,
    listed: &[Together],
) -> Result<(), AllocError>
    requires { length table.old.sides ≡ length (together_sides greedy) }
    ensures { OnOk result (table.new ≡ record table.old { lines = table.old.lines ++ map (together_line names.now greedy) listed.now }) }
{
    for own in listed {
        put_set(alloc, table, names, greedy, own)?;
    }
    Ok(())
}

// Returns those of several cowns that are listed: the first.
fn first_sets(together: &[Together]) -> &[Together]
    ensures { result.now ≡ take MOST_LISTED together.now }
{
    &together[..together.len().min(MOST_LISTED)]
}

// Returns the table of several cowns: the first 20, and how many more there are. It has greedy ends where there is one.
fn table_of(
    alloc: Global,
    names: &Names,
    greedy: Option<u64>,
    together: &[Together],
) -> Result<Table, AllocError>
    ensures sides { IfOk result (λ table. table.sides ≡ together_sides greedy) }
    ensures lines { IfOk result (λ table. table.lines ≡ together_lines names.now greedy together.now) }
{
    let mut table = empty_table(alloc, greedy);
    put_head(&mut table, greedy)?;
    put_sets(alloc, &mut table, names, greedy, first_sets(together))?;
    put_more(alloc, &mut table, together.len(), greedy)?;
    Ok(table)
}

// Appends the table of several cowns at once to a text, with greedy ends where there is one.
fn put_sets_table(
    alloc: Global,
    text: &mut Vec<u8>,
    names: &Names,
    greedy: Option<u64>,
    together: &[Together],
) -> Result<(), AllocError>
    ensures { OnOk result (text.new.items ≡ text.old.items ++ sets_table names.now greedy together.now) }
{
    let table = table_of(alloc, names, greedy, together)?;
    put_table(text, &table)
}

/// Appends the table of several cowns at once to a text, where it has lines: the first 20, and how many more there are. Each has the ends of the rows without
/// their order, and the greedy plan's too, where the first has one. `AllocError` says that memory was refused.
pub fn put_together(
    alloc: Global,
    text: &mut Vec<u8>,
    names: &Names,
    together: &[Together],
) -> Result<(), AllocError>
    ensures { OnOk result (text.new.items ≡ text.old.items ++ together_table names.now together.now) }
{
    match together {
        [] => Ok(()),
        [first, ..] => put_sets_table(alloc, text, names, first.ends.greedy, together),
    }
}
