// Texts that are alike, in one group.

ghost use Rattle.std.specs.Prelude.{◌≡◌, ◌<◌, ◌^◌, length, IfOk};
ghost use Rattle.boc_names.specs.Names.{texts_of};
ghost use Rattle.boc_names.specs.Grouping.{IsGrouping};
ghost use Rattle.boc_names.specs.Laying.{KnowsNames, TakesName};

use crate::texts::copied;
use std::alloc::{AllocError, Global};
use std::collections::BTreeMap;

/// The groups of texts that are alike.
#[derive(Drop, Debug)]
pub(crate) struct Groups {
    /// For each text the number of its group.
    pub numbers: Vec<u32>,
    /// What the texts of each group are.
    pub names: Vec<Vec<u8>>,
}

// Returns the number of the group of a text, where the groups with these names are known. A new group takes the next number.
fn number_of<'a>(
    alloc: Global,
    seen: &mut BTreeMap<&'a [u8], u32>,
    names: &mut Vec<Vec<u8>>,
    text: &'a [u8],
) -> Result<u32, AllocError>
    requires few { length names.old.items < 2 ^ 32 }
    requires known { KnowsNames seen.old (texts_of names.old.items) }
    ensures takes { IfOk result (λ number. TakesName (texts_of names.old.items) text.now number (texts_of names.new.items)) }
    ensures knows { IfOk result (λ number. KnowsNames seen.new (texts_of names.new.items)) }
{
    if let Some(number) = seen.get(&text).copied() {
        return Ok(number);
    }
    let number = names.len() as u32;
    names.push(copied(alloc, text)?)?;
    seen.insert(text, number)?;
    Ok(number)
}

/// Puts texts that are alike in one group. The groups are numbered as they come first.
pub(crate) fn grouped(alloc: Global, texts: &[Vec<u8>]) -> Result<Groups, AllocError>
    requires { length texts.now < 2 ^ 32 }
    ensures { IfOk result (λ groups. IsGrouping (texts_of texts.now) groups.numbers.items (texts_of groups.names.items)) }
{
    let mut seen = BTreeMap::new(alloc);
    let mut names = Vec::new(alloc);
    let mut numbers = Vec::new(alloc);
    for text in texts {
        numbers.push(number_of(alloc, &mut seen, &mut names, text)?)?;
    }
    Ok(Groups { numbers, names })
}
