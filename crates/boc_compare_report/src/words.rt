// Changes in words.

ghost use Rattle.std.specs.Prelude.{◌≡◌, ◌++◌, ◌∷◌, [], IfOk, OnOk, decimal};
ghost use Rattle.boc_why_report.specs.ShortTexts.{change_text};
ghost use Rattle.boc_compare_report.specs.CompareTexts.{less_or_more, part_of_100, part_text, percent_text};

use boc_text::put_number;
use itoa::Buffer;
use std::alloc::{AllocError, Global};

// Returns a number after a sign.
fn signed(alloc: Global, sign: u8, by: u64) -> Result<Vec<u8>, AllocError>
    ensures { IfOk result (λ text. text.items ≡ (sign ∷ []) ++ decimal by) }
{
    let mut text = Vec::new(alloc);
    text.push(sign)?;
    put_number(&mut text, by)?;
    Ok(text)
}

/// Returns by how much a number changes; nothing where it stays.
pub(crate) fn change_text(alloc: Global, was: u64, now: u64) -> Result<Vec<u8>, AllocError>
    ensures { IfOk result (λ text. text.items ≡ change_text was now) }
{
    if was < now {
        signed(alloc, b'+', now - was)
    } else if now < was {
        signed(alloc, b'-', was - now)
    } else {
        Ok(Vec::new(alloc))
    }
}

// Returns by how many percent of the first number it changes, rounded down.
fn part_of_100(was: u64, now: u64) -> u128
    ensures { result ≡ part_of_100 was now }
{
    let by = was.max(now) - was.min(now);
    u128::from(by) * 100 / u128::from(was.max(1))
}

// Appends percents to a text.
fn put_part(text: &mut Vec<u8>, part: u128) -> Result<(), AllocError>
    ensures { OnOk result (text.new.items ≡ text.old.items ++ part_text part) }
{
    if part == 0 {
        return text.extend_from_slice(b"less than 1%");
    }
    text.extend_from_slice(Buffer::new().format(part).as_bytes())?;
    text.extend_from_slice(b"%")
}

// Returns which way a number changes.
fn less_or_more(was: u64, now: u64) -> &'static str
    ensures { result.now ≡ less_or_more was now }
{
    if now < was { " less" } else { " more" }
}

/// Appends by how much a number changes to a text, in percent of what it was. `AllocError` says that memory was refused.
pub fn put_percent(text: &mut Vec<u8>, was: u64, now: u64) -> Result<(), AllocError>
    ensures { OnOk result (text.new.items ≡ text.old.items ++ percent_text was now) }
{
    if was == now {
        return text.extend_from_slice(b"the same");
    }
    put_part(text, part_of_100(was, now))?;
    text.extend_from_slice(less_or_more(was, now).as_bytes())
}
