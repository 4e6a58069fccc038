// The line of both chains, and the last line.

ghost use Rattle.std.specs.Prelude.{◌≡◌, ◌++◌, OnOk};
ghost use Rattle.boc_compare_report.specs.CompareTexts.{chains_text, ends_told, typical_told, verdict_text};
ghost use Rattle.boc_why_report.specs.ShortTexts.{heaviest_text, more_shares, share_text};

use crate::words::put_percent;
use boc_compare::Side;
use boc_names::{Names, text_at};
use boc_text::put_number;
use boc_why::Share;
use boc_why_report::workers_word;
use std::alloc::AllocError;

// How many shares of a chain are reported after the first. Two dots stand for the others.
const MOST_MORE: usize = 2;

// Appends a share of a chain to a text.
fn put_share(text: &mut Vec<u8>, names: &Names, share: Share) -> Result<(), AllocError>
    ensures { OnOk result (text.new.items ≡ text.old.items ++ share_text names.now share) }
{
    text.extend_from_slice(text_at(&names.def_names, share.key as usize))?;
    text.push(b' ')?;
    put_number(text, share.ticks)
}

// Appends shares to others, at most this many.
fn put_more(
    text: &mut Vec<u8>,
    names: &Names,
    most: usize,
    shares: &[Share],
) -> Result<(), AllocError>
    ensures { OnOk result (text.new.items ≡ text.old.items ++ more_shares names.now most shares.now) }
{
    match shares {
        [] => Ok(()),
        [_, ..] if most == 0 => {
            text.extend_from_slice(b", ..")?;
            Ok(())
        }
        [first, others @ ..] => {
            text.extend_from_slice(b", ")?;
            put_share(text, names, *first)?;
            put_more(text, names, most - 1, others)
        }
    }
}

// Appends the shares of a chain that weigh most to a text.
fn put_heaviest(text: &mut Vec<u8>, names: &Names, shares: &[Share]) -> Result<(), AllocError>
    ensures { OnOk result (text.new.items ≡ text.old.items ++ heaviest_text names.now shares.now) }
{
    match shares {
        [] => Ok(()),
        [first, others @ ..] => {
            put_share(text, names, *first)?;
            put_more(text, names, MOST_MORE, others)
        }
    }
}

/// Appends the line of the chains to a text: the defs that weigh most on each.
pub(crate) fn put_chains(
    text: &mut Vec<u8>,
    before: &Names,
    was: &[Share],
    after: &Names,
    now: &[Share],
) -> Result<(), AllocError>
    ensures { OnOk result (text.new.items ≡ text.old.items ++ chains_text before.now was.now after.now now.now) }
{
    text.extend_from_slice(b"chain  ")?;
    put_heaviest(text, before, was)?;
    text.extend_from_slice(b"  ->  ")?;
    put_heaviest(text, after, now)?;
    text.extend_from_slice(b"\n")
}

// Appends to a text by how much the span changes with typical ticks, where that is reported.
fn put_typical(text: &mut Vec<u8>, typical: bool, was: &Side, now: &Side) -> Result<(), AllocError>
    ensures { OnOk result (text.new.items ≡ text.old.items ++ typical_told typical was.now now.now) }
{
    if !typical {
        return Ok(());
    }
    text.extend_from_slice(b", with typical ticks ")?;
    put_percent(text, was.typical.span, now.typical.span)
}

// Appends to a text by how much the end for some workers changes, where a number of them is given.
fn put_end(text: &mut Vec<u8>, workers: u32, was: &Side, now: &Side) -> Result<(), AllocError>
    ensures { OnOk result (text.new.items ≡ text.old.items ++ ends_told workers was.now now.now) }
{
    let (Some(was), Some(now)) = (was.times.end, now.times.end) else {
        return Ok(());
    };
    text.extend_from_slice(b"; for ")?;
    put_number(text, u64::from(workers))?;
    text.extend_from_slice(workers_word(workers).as_bytes())?;
    text.extend_from_slice(b" the end is ")?;
    put_percent(text, was, now)
}

/// Appends the last line to a text: by how much the ends change, in percent of those before.
pub(crate) fn put_verdict(
    text: &mut Vec<u8>,
    workers: u32,
    typical: bool,
    was: &Side,
    now: &Side,
) -> Result<(), AllocError>
    ensures { OnOk result (text.new.items ≡ text.old.items ++ verdict_text workers typical was.now now.now) }
{
    text.extend_from_slice(b"the span is ")?;
    put_percent(text, was.times.span, now.times.span)?;
    put_typical(text, typical, was, now)?;
    put_end(text, workers, was, now)?;
    text.extend_from_slice(b"\n")
}
