// What is reported in short of some rows before and after they change.

ghost use Rattle.std.specs.Prelude.{◌≡◌, ◌++◌, ◌∷◌, [], codes, decimal, length, IfOk, OnOk};
ghost use Rattle.boc_why_report.specs.ShortTexts.{chain_line, change_text, end_texts, greedy_texts, heaviest_text, more_shares, share_text, short_lines};
ghost use Rattle.boc_why_report.specs.ShortTexts.{short_sides, short_text, work_texts};

use crate::chain::number;
use boc_names::{Names, text_at};
use boc_table::{Side, Table, put_table};
use boc_text::put_number;
use boc_why::Share;
use std::alloc::{AllocError, Global};

/// What some rows take. All numbers are ticks.
#[derive(Drop, Debug)]
pub struct Outcome {
    /// The ticks of all rows together.
    pub work: u64,
    /// The end of the earliest plan.
    pub span: u64,
    /// The end of the greedy plan, where a number of workers is given.
    pub end: Option<u64>,
    /// The shares of the chain by def, those that weigh most first: a key is a def's number.
    pub by_def: Vec<Share>,
}

// How many shares of a chain are reported after the first. Two dots stand for the others.
const MOST_MORE: usize = 2;

// The sides of the columns.
const SHORT_SIDES: [Side; 4] = [Side::Left, Side::Right, Side::Right, Side::Right];

// Returns a number after a sign.
fn signed(alloc: Global, sign: u8, by: u64) -> Result<Vec<u8>, AllocError>
    ensures { IfOk result (λ text. text.items ≡ (sign ∷ []) ++ decimal by) }
{
    let mut text = Vec::new(alloc);
    text.push(sign)?;
    put_number(&mut text, by)?;
    Ok(text)
}

// By how much a number changes.
fn change_text(alloc: Global, was: u64, now: u64) -> Result<Vec<u8>, AllocError>
    ensures { IfOk result (λ text. text.items ≡ change_text was now) }
{
    if was < now {
        signed(alloc, b'+', now - was)
    } else if now < was {
        signed(alloc, b'-', was - now)
    } else {
        Ok(Vec::new(alloc))
    }
}

// Puts the line of the work.
fn put_work(alloc: Global, table: &mut Table, was: u64, now: u64) -> Result<(), AllocError>
    requires { length table.old.sides ≡ 4 }
    ensures { OnOk result (table.new ≡ record table.old { lines = table.old.lines ++ work_texts was now ∷ [] }) }
{
    let was = number(alloc, was)?;
    let now = number(alloc, now)?;
    table.put_line(&[b"work  ", &was, &now, &[]])
}

// Puts the line of an end.
fn put_end(
    alloc: Global,
    table: &mut Table,
    name: &[u8],
    was: u64,
    now: u64,
) -> Result<(), AllocError>
    requires { length table.old.sides ≡ 4 }
    ensures { OnOk result (table.new ≡ record table.old { lines = table.old.lines ++ end_texts name.now was now ∷ [] }) }
{
    let change = change_text(alloc, was, now)?;
    let was = number(alloc, was)?;
    let now = number(alloc, now)?;
    table.put_line(&[name, &was, &now, &change])
}

// Puts the line of the greedy plan's end, where there is one before and after.
fn put_greedy(
    alloc: Global,
    table: &mut Table,
    was: Option<u64>,
    now: Option<u64>,
) -> Result<(), AllocError>
    requires { length table.old.sides ≡ 4 }
    ensures { OnOk result (table.new ≡ record table.old { lines = table.old.lines ++ greedy_texts was now }) }
{
    match (was, now) {
        (Some(was), Some(now)) => put_end(alloc, table, b"end", was, now),
        _ => Ok(()),
    }
}

// Returns the table of the numbers.
fn short_table(alloc: Global, was: &Outcome, now: &Outcome) -> Result<Table, AllocError>
    ensures sides { IfOk result (λ table. table.sides ≡ short_sides) }
    ensures lines { IfOk result (λ table. table.lines ≡ short_lines was.now now.now) }
{
    let mut table = Table::new(alloc, &SHORT_SIDES);
    table.put_line(&[&[], b" was", b" now", b"    "])?;
    put_work(alloc, &mut table, was.work, now.work)?;
    put_end(alloc, &mut table, b"span", was.span, now.span)?;
    put_greedy(alloc, &mut table, was.end, now.end)?;
    Ok(table)
}

// Appends a share of a chain to a text.
fn put_share(text: &mut Vec<u8>, names: &Names, share: Share) -> Result<(), AllocError>
    ensures { OnOk result (text.new.items ≡ text.old.items ++ share_text names.now share) }
{
    text.extend_from_slice(text_at(&names.def_names, share.key as usize))?;
    text.push(b' ')?;
    put_number(text, share.ticks)
}

// Appends shares to others, at most this many.
fn put_more(
    text: &mut Vec<u8>,
    names: &Names,
    most: usize,
    shares: &[Share],
) -> Result<(), AllocError>
    ensures { OnOk result (text.new.items ≡ text.old.items ++ more_shares names.now most shares.now) }
{
    match shares {
        [] => Ok(()),
        [_, ..] if most == 0 => {
            text.extend_from_slice(b", ..")?;
            Ok(())
        }
        [first, others @ ..] => {
            text.extend_from_slice(b", ")?;
            put_share(text, names, *first)?;
            put_more(text, names, most - 1, others)
        }
    }
}

// Appends the shares of a chain that weigh most to a text.
fn put_heaviest(text: &mut Vec<u8>, names: &Names, shares: &[Share]) -> Result<(), AllocError>
    ensures { OnOk result (text.new.items ≡ text.old.items ++ heaviest_text names.now shares.now) }
{
    match shares {
        [] => Ok(()),
        [first, others @ ..] => {
            put_share(text, names, *first)?;
            put_more(text, names, MOST_MORE, others)
        }
    }
}

// Appends the line of the chain to a text.
fn put_chain(
    text: &mut Vec<u8>,
    names: &Names,
    was: &[Share],
    now: &[Share],
) -> Result<(), AllocError>
    ensures { OnOk result (text.new.items ≡ text.old.items ++ chain_line names.now was.now now.now) }
{
    text.extend_from_slice(b"chain    ")?;
    put_heaviest(text, names, was)?;
    text.extend_from_slice(b"   ->   ")?;
    put_heaviest(text, names, now)?;
    text.extend_from_slice(b"\n")
}

/// Returns what is reported in short of some rows before and after they change: their work, their span and the greedy plan's end, where both have one, and by
/// how much these two change; and the defs that weigh most on the chain before and after, with their ticks. Defs have these names. All numbers are ticks.
/// `AllocError` says that memory was refused.
pub fn short_text(
    alloc: Global,
    names: &Names,
    was: &Outcome,
    now: &Outcome,
) -> Result<Vec<u8>, AllocError>
    ensures { IfOk result (λ text. text.items ≡ short_text names.now was.now now.now) }
{
    let table = short_table(alloc, was, now)?;
    let mut text = Vec::new(alloc);
    put_table(&mut text, &table)?;
    put_chain(&mut text, names, &was.by_def, &now.by_def)?;
    Ok(text)
}
