// The text of a table, from how its texts are stored.

ghost use Rattle.std.specs.Prelude.{◌≡◌, ◌++◌, ◌*◌, ◌<◌, ◌≤◌, ℕ, length, flat_map, take, drop, max, sum, slice_index, IfOk, OnOk};
ghost use Rattle.boc_table.specs.Tables.{blanks, line_text, padded, padded_texts, without_blanks_behind};
ghost use Rattle.boc_table.specs.Storage.{AreStored, lines_of, stored_widths, texts_of};

use crate::side::Side;
use std::alloc::{AllocError, Global};

/// Returns how wide each of the given number of columns is, of the given number of lines with texts of these lengths.
pub(crate) fn widths_of(
    alloc: Global,
    columns: usize,
    lines: usize,
    lens: &[usize],
) -> Result<Vec<usize>, AllocError>
    requires { length lens.now ≡ lines * columns }
    ensures { IfOk result (λ w. w.items ≡ stored_widths columns lines lens.now) }
{
    let mut widths = Vec::from_elem(alloc, 0, columns)?;
    let mut rest = lens;
    for _ in 0..lines {
        let (line, behind) = rest.split_at(columns);
        widen(&mut widths, line);
        rest = behind;
    }
    Ok(widths)
}

// Makes columns as wide as texts of these lengths, where they aren't.
fn widen(widths: &mut [usize], lens: &[usize])
    requires { length lens.now ≡ length widths.old }
    ensures { (column : ℕ) → column < length widths.old
        → slice_index widths.new column ≡ max (slice_index widths.old column) (slice_index lens.now column) }
{
    for column in 0..lens.len() {
        widths[column] = widths[column].max(lens[column]);
    }
}

/// Appends lines to a text. Their texts have these lengths, and are in `bytes` one after the other.
pub(crate) fn put_lines(
    text: &mut Vec<u8>,
    sides: &[Side],
    widths: &[usize],
    count: usize,
    lens: &[usize],
    bytes: &[u8],
) -> Result<(), AllocError>
    requires widths { length widths.now ≡ length sides.now }
    requires stored { AreStored count (length sides.now) lens.now bytes.now }
    ensures { OnOk result (text.new.items ≡ text.old.items
        ++ flat_map (line_text sides.now widths.now) (lines_of count (length sides.now) lens.now bytes.now)) }
{
    let mut lens = lens;
    let mut bytes = bytes;
    for _ in 0..count {
        let (line, behind) = lens.split_at(sides.len());
        bytes = put_line(text, sides, widths, line, bytes)?;
        lens = behind;
    }
    Ok(())
}

// Appends a line to a text. Its texts have these lengths, and are at the front of `bytes`, of which it gives what is after them.
fn put_line<'a>(
    text: &mut Vec<u8>,
    sides: &[Side],
    widths: &[usize],
    lens: &[usize],
    bytes: &'a [u8],
) -> Result<&'a [u8], AllocError>
    requires widths { length widths.now ≡ length sides.now }
    requires lens { length lens.now ≡ length sides.now }
    requires bytes { sum lens.now ≤ length bytes.now }
    ensures put { OnOk result (text.new.items ≡ text.old.items ++ line_text sides.now widths.now (texts_of lens.now bytes.now)) }
    ensures behind { IfOk result (λ rest. rest.now ≡ drop (sum lens.now) bytes.now) }
{
    let start = text.len();
    let mut bytes = bytes;
    for column in 0..sides.len() {
        let (cell, behind) = bytes.split_at(lens[column]);
        put_padded(text, sides[column], widths[column], cell)?;
        text.extend_from_slice(b"  ")?;
        bytes = behind;
    }
    cut_blanks(text, start);
    text.push(b'\n')?;
    Ok(bytes)
}

// Appends a text in its column to a text.
fn put_padded(text: &mut Vec<u8>, side: Side, width: usize, cell: &[u8]) -> Result<(), AllocError>
    ensures { OnOk result (text.new.items ≡ text.old.items ++ padded side width cell.now) }
{
    let gap = width.saturating_sub(cell.len());
    match side {
        Side::Left => {
            text.extend_from_slice(cell)?;
            put_blanks(text, gap)
        }
        Side::Right => {
            put_blanks(text, gap)?;
            text.extend_from_slice(cell)
        }
    }
}

fn put_blanks(text: &mut Vec<u8>, count: usize) -> Result<(), AllocError>
    ensures { OnOk result (text.new.items ≡ text.old.items ++ blanks count) }
{
    for _ in 0..count {
        text.push(b' ')?;
    }
    Ok(())
}

// Cuts off the blanks at the end of what a text has from a place on.
fn cut_blanks(text: &mut Vec<u8>, start: usize)
    requires { start ≤ length text.old.items }
    ensures { text.new.items ≡ take start text.old.items ++ without_blanks_behind (drop start text.old.items) }
{
    while text.len() > start && text[text.len() - 1] == b' ' {
        text.pop();
    }
}
