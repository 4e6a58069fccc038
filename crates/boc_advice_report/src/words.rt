// What remedies are called, and how much they save.

ghost use Rattle.std.specs.Prelude.{◌≡◌, ◌++◌, IfOk, OnOk};
ghost use Rattle.boc_advice_report.specs.AdviceTexts.{families_text, more_families, more_text, remedy_text, saved_text};

use boc_names::{Names, text_at};
use boc_remedies::Remedy;
use boc_text::put_number;
use std::alloc::{AllocError, Global};

// Appends families to others, by their names.
fn put_more_families(text: &mut Vec<u8>, names: &Names, families: &[u32]) -> Result<(), AllocError>
    ensures { OnOk result (text.new.items ≡ text.old.items ++ more_families names.now families.now) }
{
    for family in families {
        text.extend_from_slice(b" and ")?;
        text.extend_from_slice(text_at(&names.family_names, *family as usize))?;
    }
    Ok(())
}

/// Appends families to a text, by their names. `AllocError` says that memory was refused.
pub fn put_families(text: &mut Vec<u8>, names: &Names, families: &[u32]) -> Result<(), AllocError>
    ensures { OnOk result (text.new.items ≡ text.old.items ++ families_text names.now families.now) }
{
    match families {
        [] => Ok(()),
        [first, others @ ..] => {
            text.extend_from_slice(text_at(&names.family_names, *first as usize))?;
            put_more_families(text, names, others)
        }
    }
}

/// Appends to a text what a remedy is called. `AllocError` says that memory was refused.
pub fn put_remedy(text: &mut Vec<u8>, names: &Names, remedy: &Remedy) -> Result<(), AllocError>
    ensures { OnOk result (text.new.items ≡ text.old.items ++ remedy_text names.now remedy.now) }
{
    match remedy {
        Remedy::HalfCost(def) => {
            text.extend_from_slice(text_at(&names.def_names, *def as usize))?;
            text.extend_from_slice(b" at 1/2")
        }
        Remedy::NoOrder(families) => {
            text.extend_from_slice(b"without ")?;
            put_families(text, names, families.as_slice())
        }
        Remedy::EarlySpawns(def) => {
            text.extend_from_slice(b"early spawns by ")?;
            text.extend_from_slice(text_at(&names.def_names, *def as usize))?;
            Ok(())
        }
    }
}

/// Returns by how much an end is sooner than it was: a number, with a sign where it is later.
pub(crate) fn saved_text(alloc: Global, was: u64, now: u64) -> Result<Vec<u8>, AllocError>
    ensures { IfOk result (λ text. text.items ≡ saved_text was now) }
{
    let mut text = Vec::new(alloc);
    if was < now {
        text.push(b'-')?;
        put_number(&mut text, now - was)?;
    } else {
        put_number(&mut text, was - now)?;
    }
    Ok(text)
}

/// Returns how many more lines there are than are reported.
pub(crate) fn more_text(alloc: Global, count: usize) -> Result<Vec<u8>, AllocError>
    ensures { IfOk result (λ text. text.items ≡ more_text count) }
{
    let mut text = Vec::new(alloc);
    text.extend_from_slice(b"  ")?;
    put_number(&mut text, count as u64)?;
    text.extend_from_slice(b" more")?;
    Ok(text)
}
