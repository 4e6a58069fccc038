// Names laid over others.

ghost use Rattle.std.specs.Prelude.{◌≡◌, ◌<◌, length, map, slice_get, IfOk, MatchResult};
ghost use Rattle.boc_names.specs.Names.{texts_of};
ghost use Rattle.boc_names.specs.NamesFile.{names_at};
ghost use Rattle.boc_names.specs.Laying.{AreUnnamed, Calls, IsRefusal};

use crate::entry::Called;
use crate::fault::NamesFaultKind;
use crate::texts::{copied, text_at};
use std::alloc::{AllocError, Global};

/// What a row or a cown is called, and the group that it is in: a row's def, or a cown's family.
#[derive(Drop, Debug)]
pub(crate) struct Thing {
    pub text: Vec<u8>,
    pub group: Vec<u8>,
    /// The file has named it.
    pub is_named: bool,
}

// Returns the name of the group of the thing at a place, where things have these numbers.
fn group_name(
    alloc: Global,
    names: &[Vec<u8>],
    numbers: &[u32],
    place: usize,
) -> Result<Vec<u8>, AllocError>
    requires { place < length numbers.now }
    ensures { IfOk result (λ name. slice_get (names_at (texts_of names.now) numbers.now) place ≡ Some name.items) }
{
    copied(alloc, text_at(names, numbers[place] as usize))
}

/// Returns things that no file has named: they are called so, and the group of each has the name that is at its number.
pub(crate) fn unnamed(
    alloc: Global,
    texts: Vec<Vec<u8>>,
    numbers: &[u32],
    names: &[Vec<u8>],
) -> Result<Vec<Thing>, AllocError>
    requires { length numbers.now ≡ length texts.items }
    ensures { IfOk result (λ things. AreUnnamed (texts_of texts.items) (names_at (texts_of names.now) numbers.now) things.items) }
{
    let mut things = Vec::new(alloc);
    let mut place = 0;
    for text in texts {
        let group = group_name(alloc, names, numbers, place)?;
        things.push(Thing {
            text,
            group,
            is_named: false,
        })?;
        place += 1;
    }
    Ok(things)
}

/// Gives the thing with this number this name. Where there is none, `missing` is refused.
pub(crate) fn call(
    things: &mut Vec<Thing>,
    number: u32,
    called: Called,
    missing: NamesFaultKind,
) -> Result<(), NamesFaultKind>
    ensures { MatchResult result (λ done. Calls number called things.old.items things.new.items) (IsRefusal number missing things.old.items) }
{
    let place = number as usize;
    if place >= things.len() {
        return Err(missing);
    }
    if things[place].is_named {
        return Err(NamesFaultKind::Twice);
    }
    things[place] = Thing {
        text: called.text,
        group: called.group,
        is_named: true,
    };
    Ok(())
}

/// Returns what things are called, and the names of their groups.
pub(crate) fn parted(
    alloc: Global,
    things: Vec<Thing>,
) -> Result<(Vec<Vec<u8>>, Vec<Vec<u8>>), AllocError>
    ensures texts { IfOk result (λ parts. texts_of parts.0.items ≡ map (λ thing. thing.text.items) things.items) }
    ensures groups { IfOk result (λ parts. texts_of parts.1.items ≡ map (λ thing. thing.group.items) things.items) }
{
    let mut texts = Vec::new(alloc);
    let mut groups = Vec::new(alloc);
    for thing in things {
        texts.push(thing.text)?;
        groups.push(thing.group)?;
    }
    Ok((texts, groups))
}
