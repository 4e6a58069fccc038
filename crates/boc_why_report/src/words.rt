// What links are called.

ghost use Rattle.std.specs.Prelude.{◌≡◌, ◌++◌, IfOk, OnOk, decimal};
ghost use Rattle.boc_names.specs.Names.{texts_of};
ghost use Rattle.boc_why_report.specs.ChainTexts.{handed_text, link_text, more_handed, then_text};

use boc_names::{Names, text_at};
use boc_plans::chain::ChainStep;
use boc_program::short::HeldCown;
use boc_text::put_number;
use boc_why::Link;
use std::alloc::{AllocError, Global};

// Appends cowns to others, by their names.
fn put_more_handed(
    text: &mut Vec<u8>,
    names: &[Vec<u8>],
    cowns: &[HeldCown],
) -> Result<(), AllocError>
    ensures { OnOk result (text.new.items ≡ text.old.items ++ more_handed (texts_of names.now) cowns.now) }
{
    match cowns {
        [] => Ok(()),
        [first, others @ ..] => {
            text.extend_from_slice(b" and ")?;
            text.extend_from_slice(text_at(names, *first as usize))?;
            put_more_handed(text, names, others)
        }
    }
}

/// Appends to a text cowns that are handed on, by their names.
pub(crate) fn put_handed(
    text: &mut Vec<u8>,
    names: &[Vec<u8>],
    cowns: &[HeldCown],
) -> Result<(), AllocError>
    ensures { OnOk result (text.new.items ≡ text.old.items ++ handed_text (texts_of names.now) cowns.now) }
{
    match cowns {
        [] => Ok(()),
        [first, others @ ..] => {
            text.extend_from_slice(text_at(names, *first as usize))?;
            put_more_handed(text, names, others)
        }
    }
}

/// Returns what a link is called. `AllocError` says that memory was refused.
pub fn link_text(alloc: Global, names: &Names, link: &Link) -> Result<Vec<u8>, AllocError>
    ensures { IfOk result (λ text. text.items ≡ link_text names.now link.now) }
{
    let mut text = Vec::new(alloc);
    match link {
        Link::SpawnBy(def) => {
            text.extend_from_slice(b"spawn by ")?;
            text.extend_from_slice(text_at(&names.def_names, *def as usize))?;
        }
        Link::Hands(cowns) => put_handed(&mut text, &names.cowns, cowns.as_slice())?,
        Link::Frees => text.extend_from_slice(b"worker")?,
        Link::Ends => text.extend_from_slice(b"end")?,
    }
    Ok(text)
}

// Appends to a text the row that goes on.
fn put_next(text: &mut Vec<u8>, word: &str, next: ChainStep) -> Result<(), AllocError>
    ensures { OnOk result (text.new.items ≡ text.old.items ++ word.now ++ decimal next.row) }
{
    text.extend_from_slice(word.as_bytes())?;
    put_number(text, u64::from(next.row))
}

/// Returns what a row of a chain does before the next one goes on.
pub(crate) fn then_text(
    alloc: Global,
    names: &Names,
    link: &Link,
    next: Option<ChainStep>,
) -> Result<Vec<u8>, AllocError>
    ensures { IfOk result (λ text. text.items ≡ then_text names.now link.now next) }
{
    let mut text = Vec::new(alloc);
    match (link, next) {
        (Link::SpawnBy(_), Some(next)) => put_next(&mut text, "spawns row ", next)?,
        (Link::Hands(cowns), Some(next)) => {
            text.extend_from_slice(b"hands ")?;
            put_handed(&mut text, &names.cowns, cowns.as_slice())?;
            put_next(&mut text, " to row ", next)?;
        }
        (Link::Ends, _) => text.extend_from_slice(b"ends")?,
        (Link::Frees, _) | (Link::SpawnBy(_) | Link::Hands(_), None) => {}
    }
    Ok(text)
}
