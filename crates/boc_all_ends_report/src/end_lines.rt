// The text of all ends of a program.

ghost use Rattle.std.specs.Prelude.{◌≡◌, ◌++◌, OnOk, IfOk};
ghost use Rattle.std.specs.List.{All};
ghost use Rattle.boc_all_ends_report.specs.EndTexts.{HasAllValues, bounds_line, end_text, end_texts, endless_line, fronts_line, rows_line, scope_line};
ghost use Rattle.boc_all_ends_report.specs.EndTexts.{ends_text as ends_text_spec};

use boc_all_ends::{End, Found};
use boc_ends_report::values_text;
use boc_program::cown::Cown;
use boc_text::put_number;
use std::alloc::{AllocError, Global};

/// Returns the text of a search of all ends of a program with these cowns. It says whether there are no other ends, or of how many rows whole runs have no
/// others; then the number of fronts and the bounds of rows of whole runs. It says if some run needs more rows than there may be, and lists each end with its
/// numbers of rows and its values. `AllocError` says that memory was refused.
pub fn ends_text(alloc: Global, cowns: &[Cown], found: &Found) -> Result<Vec<u8>, AllocError>
    requires { All (HasAllValues cowns.now) found.now.all.items }
    ensures { IfOk result (λ text. text.items ≡ ends_text_spec cowns.now found.now) }
{
    let mut text = Vec::new(alloc);
    put_scope(&mut text, found.whole, found.below)?;
    put_fronts(&mut text, found.fronts)?;
    put_bounds(&mut text, &found.all)?;
    put_endless(&mut text, found.whole && found.endless)?;
    put_ends(&mut text, alloc, cowns, &found.all)?;
    Ok(text)
}

// Writes the line of whether there are no other ends.
fn put_scope(text: &mut Vec<u8>, whole: bool, below: u32) -> Result<(), AllocError>
    ensures { OnOk result (text.new.items ≡ text.old.items ++ scope_line whole below) }
{
    if whole {
        text.extend_from_slice(b"all yes\n")?;
    } else {
        text.extend_from_slice(b"all below ")?;
        put_number(text, u64::from(below))?;
        text.push(b'\n')?;
    }
    Ok(())
}

// Writes the line of how many fronts were looked at.
fn put_fronts(text: &mut Vec<u8>, fronts: u32) -> Result<(), AllocError>
    ensures { OnOk result (text.new.items ≡ text.old.items ++ fronts_line fronts) }
{
    text.extend_from_slice(b"fronts ")?;
    put_number(text, u64::from(fronts))?;
    text.push(b'\n')?;
    Ok(())
}

// Writes what ends a line: the smallest and the greatest number of rows.
fn put_rows(text: &mut Vec<u8>, least: u32, most: u32) -> Result<(), AllocError>
    ensures { OnOk result (text.new.items ≡ text.old.items ++ rows_line least most) }
{
    text.extend_from_slice(b"rows ")?;
    put_number(text, u64::from(least))?;
    text.push(b' ')?;
    put_number(text, u64::from(most))?;
    text.push(b'\n')?;
    Ok(())
}

// Writes the line of the smallest and the greatest number of rows of all ends, if there is one.
fn put_bounds(text: &mut Vec<u8>, ends: &[End]) -> Result<(), AllocError>
    ensures { OnOk result (text.new.items ≡ text.old.items ++ bounds_line ends.now) }
{
    match ends {
        [] => Ok(()),
        [first, others @ ..] => {
            let mut least = first.least;
            let mut most = first.most;
            for end in others {
                least = least.min(end.least);
                most = most.max(end.most);
            }
            put_rows(text, least, most)
        }
    }
}

// Writes the line of runs that need more rows than there may be, if there are any.
fn put_endless(text: &mut Vec<u8>, endless: bool) -> Result<(), AllocError>
    ensures { OnOk result (text.new.items ≡ text.old.items ++ endless_line endless) }
{
    if endless {
        text.extend_from_slice(b"endless\n")?;
    }
    Ok(())
}

// Writes the texts of ends, one after the other, each with its number.
fn put_ends(
    text: &mut Vec<u8>,
    alloc: Global,
    cowns: &[Cown],
    ends: &[End],
) -> Result<(), AllocError>
    requires { All (HasAllValues cowns.now) ends.now }
    ensures { OnOk result (text.new.items ≡ text.old.items ++ end_texts cowns.now 1 ends.now) }
{
    let mut number: u64 = 1;
    for end in ends {
        put_end(text, alloc, cowns, number, end)?;
        number += 1;
    }
    Ok(())
}

// Writes the text of an end: a line of its number and its numbers of rows, and those of its values.
fn put_end(
    text: &mut Vec<u8>,
    alloc: Global,
    cowns: &[Cown],
    number: u64,
    end: &End,
) -> Result<(), AllocError>
    requires { HasAllValues cowns.now end.now }
    ensures { OnOk result (text.new.items ≡ text.old.items ++ end_text cowns.now number end.now) }
{
    text.extend_from_slice(b"end ")?;
    put_number(text, number)?;
    text.push(b' ')?;
    put_rows(text, end.least, end.most)?;
    let values = values_text(alloc, cowns, &end.values)?;
    text.extend_from_slice(&values)?;
    Ok(())
}
