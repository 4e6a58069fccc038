// The lines of defs, or of families of cowns, before and after.

ghost use Rattle.std.specs.Prelude.{◌≡◌, ◌++◌, ◌∷◌, [], codes, length, take, IfOk, OnOk};
ghost use Rattle.boc_names.specs.Names.{texts_of};
ghost use Rattle.boc_compare_report.specs.PairTexts.{head_texts, is_new_text, more_lines, more_texts, name_text, numbers_of, pair_lines, pair_sides};
ghost use Rattle.boc_compare_report.specs.PairTexts.{pair_texts, pairs_lines, texts_of_numbers, words_of};

use boc_compare::{Pair, Totals};
use boc_names::text_at;
use boc_table::{Side, Table};
use boc_text::put_number;
use boc_why_report::number;
use std::alloc::{AllocError, Global};

// The most lines of a list. How many more there are is reported on a line after them.
const MOST_LISTED: usize = 20;

/// The sides of the columns: a name, four numbers before and after, and whether there is one of the name on both sides.
pub(crate) const PAIR_SIDES: [Side; 10] = [
    Side::Left,
    Side::Right,
    Side::Right,
    Side::Right,
    Side::Right,
    Side::Right,
    Side::Right,
    Side::Right,
    Side::Right,
    Side::Left,
];

/// What is written above the numbers of a table of pairs.
#[derive(Clone, Copy)]
pub(crate) struct Heads {
    pub name: &'static [u8],
    pub count: &'static [u8],
    pub ticks: &'static [u8],
    pub more: &'static [u8],
}

// The numbers of one side of a line, as texts.
#[derive(Drop)]
struct Numbers {
    count: Vec<u8>,
    ticks: Vec<u8>,
    more: Vec<u8>,
    chain: Vec<u8>,
}

// Returns a dash, as a text.
fn dash(alloc: Global) -> Result<Vec<u8>, AllocError>
    ensures { IfOk result (λ text. text.items ≡ codes "-") }
{
    Vec::from_slice(alloc, b"-")
}

// Returns the numbers of one side of a line, and dashes where it has none of the name.
fn numbers_of(alloc: Global, own: Option<Totals>) -> Result<Numbers, AllocError>
    ensures { IfOk result (λ numbers. texts_of_numbers numbers ≡ numbers_of own) }
{
    match own {
        Some(own) => Ok(Numbers {
            count: number(alloc, own.count)?,
            ticks: number(alloc, own.ticks)?,
            more: number(alloc, own.more)?,
            chain: number(alloc, own.chain)?,
        }),
        None => Ok(Numbers {
            count: dash(alloc)?,
            ticks: dash(alloc)?,
            more: dash(alloc)?,
            chain: dash(alloc)?,
        }),
    }
}

// Returns whether only one side has one of the name, and which.
fn is_new(pair: Pair) -> &'static [u8]
    ensures { result.now ≡ is_new_text pair }
{
    match (pair.before, pair.after) {
        (None, Some(_)) => b"new",
        (Some(_), None) => b"gone",
        _ => b"",
    }
}

// Returns the name of a pair, by the names of the side that has it.
fn name_of<'a>(pair: Pair, before: &'a [Vec<u8>], after: &'a [Vec<u8>]) -> &'a [u8]
    ensures { result.now ≡ name_text (texts_of before.now) (texts_of after.now) pair }
{
    match (pair.before, pair.after) {
        (Some(own), _) => text_at(before, own.key as usize),
        (None, Some(own)) => text_at(after, own.key as usize),
        (None, None) => &[],
    }
}

// Returns a name in a list.
fn listed(alloc: Global, name: &[u8]) -> Result<Vec<u8>, AllocError>
    ensures { IfOk result (λ text. text.items ≡ codes "  " ++ name.now) }
{
    let mut text = Vec::from_slice(alloc, b"  ")?;
    text.extend_from_slice(name)?;
    Ok(text)
}

// Puts the line of a pair.
fn put_pair(
    alloc: Global,
    table: &mut Table,
    pair: Pair,
    before: &[Vec<u8>],
    after: &[Vec<u8>],
) -> Result<(), AllocError>
    requires { length table.old.sides ≡ 10 }
    ensures { OnOk result (table.new ≡ record table.old { lines = table.old.lines ++ pair_texts (texts_of before.now) (texts_of after.now) pair ∷ [] }) }
{
    let name = listed(alloc, name_of(pair, before, after))?;
    let was = numbers_of(alloc, pair.before)?;
    let now = numbers_of(alloc, pair.after)?;
    table.put_line(&[
        &name,
        &was.count,
        &now.count,
        &was.ticks,
        &now.ticks,
        &was.more,
        &now.more,
        &was.chain,
        &now.chain,
        is_new(pair),
    ])
}

// Puts the line after a list that says how many more there are.
fn put_more(alloc: Global, table: &mut Table, count: usize) -> Result<(), AllocError>
    requires { length table.old.sides ≡ 10 }
    ensures { OnOk result (table.new ≡ record table.old { lines = table.old.lines ++ more_texts count ∷ [] }) }
{
    let mut text = Vec::from_slice(alloc, b"  ")?;
    put_number(&mut text, count as u64)?;
    text.extend_from_slice(b" more")?;
    table.put_line(&[&text, &[], &[], &[], &[], &[], &[], &[], &[], &[]])
}

// Puts the lines of some pairs.
fn put_all(
    alloc: Global,
    table: &mut Table,
    pairs: &[Pair],
    before: &[Vec<u8>],
    after: &[Vec<u8>],
) -> Result<(), AllocError>
    requires { length table.old.sides ≡ 10 }
    ensures { OnOk result (table.new ≡ record table.old { lines = table.old.lines ++ pair_lines (texts_of before.now) (texts_of after.now) pairs.now }) }
{
    for pair in pairs {
        put_pair(alloc, table, *pair, before, after)?;
    }
    Ok(())
}

// Puts how many more there are after the first lines of a list of this many, where it has more.
fn put_rest(alloc: Global, table: &mut Table, count: usize) -> Result<(), AllocError>
    requires { length table.old.sides ≡ 10 }
    ensures { OnOk result (table.new ≡ record table.old { lines = table.old.lines ++ more_lines count }) }
{
    if count > MOST_LISTED {
        put_more(alloc, table, count - MOST_LISTED)?;
    }
    Ok(())
}

// Puts what is written above the columns.
fn put_head(table: &mut Table, heads: Heads) -> Result<(), AllocError>
    requires { length table.old.sides ≡ 10 }
    ensures { OnOk result (table.new ≡ record table.old { lines = table.old.lines ++ head_texts (words_of heads) ∷ [] }) }
{
    table.put_line(&[
        heads.name,
        heads.count,
        b"now",
        heads.ticks,
        b"now",
        heads.more,
        b"now",
        b"chain",
        b"now",
        &[],
    ])
}

// Returns those of some pairs that are reported: the first.
fn first_pairs(pairs: &[Pair]) -> &[Pair]
    ensures { result.now ≡ take MOST_LISTED pairs.now }
{
    &pairs[..pairs.len().min(MOST_LISTED)]
}

/// Returns the table of the first 20 of some pairs, whose names these are, and how many more there are.
pub(crate) fn pairs_table(
    alloc: Global,
    heads: Heads,
    pairs: &[Pair],
    before: &[Vec<u8>],
    after: &[Vec<u8>],
) -> Result<Table, AllocError>
    ensures sides { IfOk result (λ table. table.sides ≡ pair_sides) }
    ensures lines { IfOk result (λ table. table.lines ≡ pairs_lines (words_of heads) (texts_of before.now) (texts_of after.now) pairs.now) }
{
    let mut table = Table::new(alloc, &PAIR_SIDES);
    put_head(&mut table, heads)?;
    put_all(alloc, &mut table, first_pairs(pairs), before, after)?;
    put_rest(alloc, &mut table, pairs.len())?;
    Ok(table)
}
