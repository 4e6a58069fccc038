// The shares of a chain.

ghost use Rattle.std.specs.Prelude.{◌≡◌, ◌++◌, ◌<◌, All, length, map, take, IfOk, OnOk};
ghost use Rattle.boc_why_report.specs.declared.lists.TheConstants.{MOST_LISTED};
ghost use Rattle.boc_why_report.specs.WhyTexts.{at_most, beside, def_lines, entry_texts, link_lines, link_share_texts};
ghost use Rattle.boc_why_report.specs.WhyTexts.{more_line, more_texts, shares_lines, shares_sides, shares_text, texts_of_line};

use crate::chain::number;
use crate::words::link_text;
use boc_names::{Names, text_at};
use boc_table::{Side, Table, put_table};
use boc_text::put_number;
use boc_why::{Link, Share};
use std::alloc::{AllocError, Global};

// The most lines of a list. How many more there are is reported on a line after them.
const MOST_LISTED: usize = 20;

// The sides of the columns of two lists with each other.
const SHARES_SIDES: [Side; 7] = [
    Side::Left,
    Side::Right,
    Side::Right,
    Side::Left,
    Side::Left,
    Side::Right,
    Side::Right,
];

// A line of a list: a name, and two numbers.
#[derive(Drop)]
struct Line {
    name: Vec<u8>,
    first: Vec<u8>,
    second: Vec<u8>,
}

// Returns a name in a list, and two numbers.
fn entry(alloc: Global, name: &[u8], first: u64, second: u64) -> Result<Line, AllocError>
    ensures { IfOk result (λ line. texts_of_line line ≡ entry_texts name.now first second) }
{
    let mut text = Vec::new(alloc);
    text.extend_from_slice(b"  ")?;
    text.extend_from_slice(name)?;
    Ok(Line {
        name: text,
        first: number(alloc, first)?,
        second: number(alloc, second)?,
    })
}

// Returns the line after a list that says how many more there are.
fn more(alloc: Global, count: usize) -> Result<Line, AllocError>
    ensures { IfOk result (λ line. texts_of_line line ≡ more_texts count) }
{
    let mut text = Vec::new(alloc);
    text.extend_from_slice(b"  ")?;
    put_number(&mut text, count as u64)?;
    text.extend_from_slice(b" more")?;
    Ok(Line {
        name: text,
        first: Vec::new(alloc),
        second: Vec::new(alloc),
    })
}

// Puts how many more there are after the first lines of a list of this many, where it has more.
fn put_more(alloc: Global, lines: &mut Vec<Line>, count: usize) -> Result<(), AllocError>
    ensures { OnOk result (map texts_of_line lines.new.items ≡ map texts_of_line lines.old.items ++ more_line count) }
{
    if count > MOST_LISTED {
        lines.push(more(alloc, count - MOST_LISTED)?)?;
    }
    Ok(())
}

// Returns those of some shares that are reported: the first.
fn first_shares(shares: &[Share]) -> &[Share]
    ensures { result.now ≡ take MOST_LISTED shares.now }
{
    &shares[..shares.len().min(MOST_LISTED)]
}

// Returns the lines of the shares by def, at most this many.
fn def_lines(alloc: Global, names: &Names, shares: &[Share]) -> Result<Vec<Line>, AllocError>
    ensures { IfOk result (λ lines. map texts_of_line lines.items ≡ at_most (def_lines names.now shares.now)) }
{
    let mut lines = Vec::new(alloc);
    let listed = first_shares(shares);
    for share in listed {
        let name = text_at(&names.def_names, share.key as usize);
        lines.push(entry(alloc, name, share.ticks, u64::from(share.steps))?)?;
    }
    put_more(alloc, &mut lines, shares.len())?;
    Ok(lines)
}

// Returns the line of a share of a link.
fn link_line(alloc: Global, names: &Names, links: &[Link], share: Share) -> Result<Line, AllocError>
    requires { share.key < length links.now }
    ensures { IfOk result (λ line. texts_of_line line ≡ link_share_texts names.now links.now share) }
{
    let name = link_text(alloc, names, &links[share.key as usize])?;
    entry(alloc, &name, share.ticks, u64::from(share.steps))
}

// Returns the lines of the shares by link, at most this many.
fn link_lines(
    alloc: Global,
    names: &Names,
    links: &[Link],
    shares: &[Share],
) -> Result<Vec<Line>, AllocError>
    requires { All (λ s. s.key < length links.now) shares.now }
    ensures { IfOk result (λ lines. map texts_of_line lines.items ≡ at_most (link_lines names.now links.now shares.now)) }
{
    let mut lines = Vec::new(alloc);
    let listed = first_shares(shares);
    for share in listed {
        lines.push(link_line(alloc, names, links, *share)?)?;
    }
    put_more(alloc, &mut lines, shares.len())?;
    Ok(lines)
}

// Puts the lines of two lists with each other.
fn put_beside(table: &mut Table, left: &[Line], right: &[Line]) -> Result<(), AllocError>
    requires { length table.old.sides ≡ 7 }
    ensures { OnOk result (table.new ≡ record table.old {
      lines = table.old.lines
          ++ beside (map texts_of_line left.now) (map texts_of_line right.now);
    }) }
{
    match (left, right) {
        ([], []) => Ok(()),
        ([], [b, bs @ ..]) => {
            table.put_line(&[&[], &[], &[], &[], &b.name, &b.first, &b.second])?;
            put_beside(table, &[], bs)
        }
        ([a, rest @ ..], []) => {
            table.put_line(&[&a.name, &a.first, &a.second, &[], &[], &[], &[]])?;
            put_beside(table, rest, &[])
        }
        ([a, rest @ ..], [b, bs @ ..]) => {
            table.put_line(&[
                &a.name,
                &a.first,
                &a.second,
                &[],
                &b.name,
                &b.first,
                &b.second,
            ])?;
            put_beside(table, rest, bs)
        }
    }
}

/// The shares of a chain by def and by link, and what its links are.
#[derive(Clone, Copy)]
pub struct Shares<'a> {
    pub by_def: &'a [Share],
    /// A key is the first place of the chain with that link.
    pub by_link: &'a [Share],
    pub links: &'a [Link],
}

// Returns the table of the shares by def, and next to them those by link, with these words above them.
fn shares_table(
    alloc: Global,
    names: &Names,
    left: &[u8],
    right: &[u8],
    shares: &Shares<'_>,
) -> Result<Table, AllocError>
    requires { All (λ s. s.key < length shares.now.links.now) shares.now.by_link.now }
    ensures sides { IfOk result (λ table. table.sides ≡ shares_sides) }
    ensures lines { IfOk result (λ table. table.lines ≡ shares_lines names.now left.now right.now shares.now.by_def.now shares.now.links.now
        shares.now.by_link.now) }
{
    let defs = def_lines(alloc, names, shares.by_def)?;
    let links = link_lines(alloc, names, shares.links, shares.by_link)?;
    let mut table = Table::new(alloc, &SHARES_SIDES);
    table.put_line(&[left, b"ticks", b"rows", b"    ", right, b"ticks", b"links"])?;
    put_beside(&mut table, &defs, &links)?;
    Ok(table)
}

/// Appends the shares of a chain by def to a text, and next to them those by link, with these words above them. `AllocError` says that memory was refused.
pub fn put_shares(
    alloc: Global,
    text: &mut Vec<u8>,
    names: &Names,
    left: &[u8],
    right: &[u8],
    shares: &Shares<'_>,
) -> Result<(), AllocError>
    requires { All (λ s. s.key < length shares.now.links.now) shares.now.by_link.now }
    ensures { OnOk result (text.new.items ≡ text.old.items ++ shares_text names.now left.now right.now shares.now.by_def.now
        shares.now.links.now shares.now.by_link.now) }
{
    let table = shares_table(alloc, names, left, right, shares)?;
    put_table(text, &table)
}
