// What goes with what by name.

ghost use Rattle.std.specs.Prelude.{◌≡◌, ◌++◌, IfOk, OnOk};
ghost use Rattle.boc_names.specs.Names.{texts_of};
ghost use Rattle.boc_compare.specs.Pairing.{AreChanges, chain_of, paired, ticks_of};
ghost use Rattle.boc_compare.specs.ByName.{KnowsFirst, PutsFirst, alone, known, known_after, unknown_before};

use crate::totals::Totals;
use boc_names::text_at;
use std::alloc::{AllocError, Global};
use std::cmp::Reverse;
use std::collections::BTreeMap;

/// What is known of a def or a family of one name before and after; None where a run has none of that name.
#[derive(Clone, Copy, PartialEq, Eq, Debug)]
pub struct Pair {
    pub before: Option<Totals>,
    pub after: Option<Totals>,
}

// Returns the first totals of this name, if there are any.
fn known<'a>(named: &BTreeMap<&'a [u8], Totals>, name: &'a [u8]) -> Option<Totals>
    ensures { result ≡ known named.now name.now }
{
    named.get(&name).copied()
}

// Puts the totals under their name, unless others have it already.
fn put_first<'a>(
    named: &mut BTreeMap<&'a [u8], Totals>,
    name: &'a [u8],
    own: Totals,
) -> Result<(), AllocError>
    ensures { OnOk result (PutsFirst named.old name.now own named.new) }
{
    if known(named, name).is_some() {
        return Ok(());
    }
    named.insert(name, own)?;
    Ok(())
}

// Returns the first totals of each name.
fn by_name<'a>(
    alloc: Global,
    list: &[Totals],
    names: &'a [Vec<u8>],
) -> Result<BTreeMap<&'a [u8], Totals>, AllocError>
    ensures { IfOk result (KnowsFirst (texts_of names.now) list.now) }
{
    let mut named = BTreeMap::new(alloc);
    for own in list {
        put_first(&mut named, text_at(names, own.key as usize), *own)?;
    }
    Ok(named)
}

// Puts each of those before with what is of its name after.
fn put_before<'a>(
    pairs: &mut Vec<Pair>,
    before: &[Totals],
    names: &'a [Vec<u8>],
    after: &BTreeMap<&'a [u8], Totals>,
) -> Result<(), AllocError>
    ensures { OnOk result (pairs.new.items ≡ pairs.old.items ++ known_after (texts_of names.now) before.now after.now) }
{
    for own in before {
        let other = known(after, text_at(names, own.key as usize));
        pairs.push(Pair {
            before: Some(*own),
            after: other,
        })?;
    }
    Ok(())
}

// Puts one after, unless others before have its name.
fn put_unknown(pairs: &mut Vec<Pair>, own: Totals, other: Option<Totals>) -> Result<(), AllocError>
    ensures { OnOk result (pairs.new.items ≡ pairs.old.items ++ alone own other) }
{
    if other.is_some() {
        return Ok(());
    }
    pairs.push(Pair {
        before: None,
        after: Some(own),
    })?;
    Ok(())
}

// Puts those after whose names none before has.
fn put_new<'a>(
    pairs: &mut Vec<Pair>,
    after: &[Totals],
    names: &'a [Vec<u8>],
    before: &BTreeMap<&'a [u8], Totals>,
) -> Result<(), AllocError>
    ensures { OnOk result (pairs.new.items ≡ pairs.old.items ++ unknown_before (texts_of names.now) after.now before.now) }
{
    for own in after {
        let other = known(before, text_at(names, own.key as usize));
        put_unknown(pairs, *own, other)?;
    }
    Ok(())
}

// Returns what is known of each name of either side, as they come.
fn paired<'a>(
    alloc: Global,
    before: &[Totals],
    before_names: &'a [Vec<u8>],
    after: &[Totals],
    after_names: &'a [Vec<u8>],
) -> Result<Vec<Pair>, AllocError>
    ensures { IfOk result (λ pairs. pairs.items ≡ paired before.now (texts_of before_names.now) after.now (texts_of after_names.now)) }
{
    let mut pairs = Vec::new(alloc);
    let named = by_name(alloc, after, after_names)?;
    put_before(&mut pairs, before, before_names, &named)?;
    let named = by_name(alloc, before, before_names)?;
    put_new(&mut pairs, after, after_names, &named)?;
    Ok(pairs)
}

// Returns the greater ticks on the chain of either side.
fn chain_of(pair: Pair) -> u64
    ensures { result ≡ chain_of pair }
{
    let before = pair.before.map_or(0, |own| own.chain);
    before.max(pair.after.map_or(0, |own| own.chain))
}

// Returns the greater ticks of either side.
fn ticks_of(pair: Pair) -> u64
    ensures { result ≡ ticks_of pair }
{
    let before = pair.before.map_or(0, |own| own.ticks);
    before.max(pair.after.map_or(0, |own| own.ticks))
}

/// Returns what is known of each name of either side, before and after. Those come first whose greater ticks on the chain are most, then those whose greater
/// ticks are most, then as they come: those before in their order, and then those that are only after. A key of totals is the place of its name. `AllocError`
/// says that memory was refused.
pub fn changes<'a>(
    alloc: Global,
    before: &[Totals],
    before_names: &'a [Vec<u8>],
    after: &[Totals],
    after_names: &'a [Vec<u8>],
) -> Result<Vec<Pair>, AllocError>
    ensures { IfOk result (λ pairs. AreChanges before.now (texts_of before_names.now) after.now (texts_of after_names.now) pairs.items) }
{
    let mut pairs = paired(alloc, before, before_names, after, after_names)?;
    pairs.sort_by_key(|own| (Reverse(chain_of(*own)), Reverse(ticks_of(*own))))?;
    Ok(pairs)
}
