// The lines of a chain.

ghost use Rattle.std.specs.Prelude.{◌≡◌, ◌++◌, ◌∷◌, [], ◌<◌, ◌≤◌, All, decimal, length, map, slice_get, take, IfOk, OnOk};
ghost use Rattle.boc_why_report.specs.ChainTexts.{chain_foot, chain_head, chain_lines, chain_sides, chain_text, leg_texts, legs, step_texts};

use crate::words::then_text;
use boc_names::{Names, text_at};
use boc_plans::chain::ChainStep;
use boc_table::{Side, Table, put_table};
use boc_text::put_number;
use boc_why::{Link, Why};
use std::alloc::{AllocError, Global};

/// The sides of a chain's columns, of which the first is a margin.
pub(crate) const CHAIN_SIDES: [Side; 6] = [
    Side::Left,
    Side::Right,
    Side::Right,
    Side::Right,
    Side::Left,
    Side::Left,
];

/// Returns a number, as a text. `AllocError` says that memory was refused.
pub fn number(alloc: Global, number: u64) -> Result<Vec<u8>, AllocError>
    ensures { IfOk result (λ text. text.items ≡ decimal number) }
{
    let mut text = Vec::new(alloc);
    put_number(&mut text, number)?;
    Ok(text)
}

/// Puts the line of a step.
pub(crate) fn put_step(
    alloc: Global,
    table: &mut Table,
    names: &Names,
    starts: &[u64],
    step: ChainStep,
    link: &Link,
    next: Option<ChainStep>,
) -> Result<(), AllocError>
    requires columns { length table.old.sides ≡ 6 }
    requires there { step.row < length starts.now }
    ensures { OnOk result (table.new ≡ record table.old { lines = table.old.lines ++ step_texts names.now starts.now step link.now next ∷ [] }) }
{
    let tick = number(alloc, starts[step.row as usize])?;
    let ticks = number(alloc, u64::from(step.weight))?;
    let row = number(alloc, u64::from(step.row))?;
    let behaviour = text_at(&names.rows, step.row as usize);
    let then = then_text(alloc, names, link, next)?;
    table.put_line(&[&[], &tick, &ticks, &row, behaviour, &then])
}

/// Returns the step at a place, where there is one.
pub(crate) fn step_at(steps: &[ChainStep], place: usize) -> Option<ChainStep>
    ensures { result ≡ slice_get steps.now place }
{
    steps.get(place).copied()
}

/// Puts the lines of the first steps of a chain, this many of them.
pub(crate) fn put_steps(
    alloc: Global,
    table: &mut Table,
    names: &Names,
    starts: &[u64],
    steps: &[ChainStep],
    links: &[Link],
    count: usize,
) -> Result<(), AllocError>
    requires columns { length table.old.sides ≡ 6 }
    requires there { All (λ s. s.row < length starts.now) steps.now }
    requires whole { length links.now ≡ length steps.now }
    requires within { count ≤ length steps.now }
    ensures { OnOk result (table.new ≡ record table.old {
      lines = table.old.lines
          ++ map (leg_texts names.now starts.now) (take count (legs steps.now links.now));
    }) }
{
    for place in 0..count {
        let next = step_at(steps, place + 1);
        put_step(
            alloc,
            table,
            names,
            starts,
            steps[place],
            &links[place],
            next,
        )?;
    }
    Ok(())
}

/// Puts what is above a chain's columns.
pub(crate) fn put_head(table: &mut Table) -> Result<(), AllocError>
    requires { length table.old.sides ≡ 6 }
    ensures { OnOk result (table.new ≡ record table.old { lines = table.old.lines ++ chain_head ∷ [] }) }
{
    table.put_line(&[&[], b"tick", b"ticks", b"row", b"behaviour", b"then"])
}

/// Puts the tick at which all has ended.
pub(crate) fn put_foot(alloc: Global, table: &mut Table, span: u64) -> Result<(), AllocError>
    requires { length table.old.sides ≡ 6 }
    ensures { OnOk result (table.new ≡ record table.old { lines = table.old.lines ++ chain_foot span ∷ [] }) }
{
    let span = number(alloc, span)?;
    table.put_line(&[&[], &span, &[], &[], &[], &[]])
}

// Returns the table of the chain, a line for each step.
fn chain_table(alloc: Global, names: &Names, why: &Why) -> Result<Table, AllocError>
    requires there { All (λ s. s.row < length why.now.profile.starts.items) why.now.profile.chain.steps.items }
    requires whole { length why.now.links.items ≡ length why.now.profile.chain.steps.items }
    ensures sides { IfOk result (λ table. table.sides ≡ chain_sides) }
    ensures lines { IfOk result (λ table. table.lines ≡ chain_lines names.now why.now) }
{
    let profile = &why.profile;
    let steps = profile.chain.steps.as_slice();
    let mut table = Table::new(alloc, &CHAIN_SIDES);
    put_head(&mut table)?;
    let links = why.links.as_slice();
    put_steps(
        alloc,
        &mut table,
        names,
        &profile.starts,
        steps,
        links,
        steps.len(),
    )?;
    put_foot(alloc, &mut table, profile.span)?;
    Ok(table)
}

/// Returns the chain, a line for each step.
pub(crate) fn chain_text(alloc: Global, names: &Names, why: &Why) -> Result<Vec<u8>, AllocError>
    requires there { All (λ s. s.row < length why.now.profile.starts.items) why.now.profile.chain.steps.items }
    requires whole { length why.now.links.items ≡ length why.now.profile.chain.steps.items }
    ensures { IfOk result (λ text. text.items ≡ chain_text names.now why.now) }
{
    let table = chain_table(alloc, names, why)?;
    let mut text = Vec::new(alloc);
    text.extend_from_slice(b"chain\n")?;
    put_table(&mut text, &table)?;
    Ok(text)
}
