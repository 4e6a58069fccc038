// The families of the cowns that links of a chain hand on together.

ghost use Rattle.std.specs.Prelude.{◌≡◌, ◌≤◌, [], IfOk, OnOk, filter_map, length, map, option_to_list};
ghost use Rattle.std.specs.List.{fold};
ghost use Rattle.boc_remedies.specs.InOrder.{first_place};
ghost use Rattle.boc_remedies.specs.LinkSets.{kept_with, link_sets, weighed_at, weighs_more};

use crate::families::Families;
use boc_why::{Link, Share};
use std::alloc::{AllocError, Global};

/// This many link sets of a chain are tried at most.
pub(crate) const MOST_SETS: usize = 20;

// A set of families, and the ticks that the links weigh that hand on cowns of just these.
#[derive(Drop)]
struct Weighed {
    families: Families,
    ticks: u64,
}

// Returns whether a set weighs more than another, or as much and comes first.
fn weighs_more(own: &Weighed, other: &Weighed) -> bool
    ensures { result ≡ weighs_more own.now other.now }
{
    other.ticks < own.ticks
        || own.ticks == other.ticks && own.families.comes_before(&other.families)
}

// Returns how many of the sets at the front weigh no less than this one.
fn place_of(best: &[Weighed], own: &Weighed) -> usize
    ensures is { result ≡ first_place (weighs_more own.now) best.now }
    ensures within { result ≤ length best.now }
{
    for (place, other) in best.iter().enumerate() {
        if weighs_more(own, other) {
            return place;
        }
    }
    best.len()
}

// Puts a set among the heaviest, which it may drop out of at once.
fn keep(best: &mut Vec<Weighed>, own: Weighed) -> Result<(), AllocError>
    ensures { OnOk result (best.new.items ≡ kept_with best.old.items own) }
{
    let place = place_of(best, &own);
    best.insert(place, own)?;
    best.truncate(MOST_SETS);
    Ok(())
}

// Returns the families of the cowns that a link hands on, if it hands any, with what such links weigh. `AllocError` says that memory was refused.
fn weighed_at(
    alloc: Global,
    families: &[u32],
    links: &[Link],
    share: &Share,
) -> Result<Option<Weighed>, AllocError>
    ensures { IfOk result (λ own. own ≡ weighed_at families.now links.now share.now) }
{
    match links.get(share.key as usize) {
        Some(Link::Hands(cowns)) => Ok(Some(Weighed {
            families: Families::of(alloc, cowns.as_slice(), families)?,
            ticks: share.ticks,
        })),
        _ => Ok(None),
    }
}

// Puts a set among the heaviest, if there is one.
fn keep_some(best: &mut Vec<Weighed>, own: Option<Weighed>) -> Result<(), AllocError>
    ensures { OnOk result (best.new.items ≡ fold kept_with best.old.items (option_to_list own)) }
{
    match own {
        Some(own) => keep(best, own),
        None => Ok(()),
    }
}

// Returns the heaviest sets that links of a chain hand on. `AllocError` says that memory was refused.
fn heaviest(
    alloc: Global,
    families: &[u32],
    links: &[Link],
    by_set: &[Share],
) -> Result<Vec<Weighed>, AllocError>
    ensures { IfOk result (λ best. best.items ≡ fold kept_with [] (filter_map (weighed_at families.now links.now) by_set.now)) }
{
    let mut best = Vec::new(alloc);
    for share in by_set {
        let own = weighed_at(alloc, families, links, share)?;
        keep_some(&mut best, own)?;
    }
    Ok(best)
}

/// Returns the link sets of a chain, the first 20: the families of the cowns that each of its links hands on, each set once. Those come first whose links
/// weigh most together, and of equal ones the one that comes first, where lower families come first. `by_set` are the shares of the chain by set, and each cown
/// belongs to the family at its place. `AllocError` says that memory was refused.
pub(crate) fn link_sets(
    alloc: Global,
    families: &[u32],
    links: &[Link],
    by_set: &[Share],
) -> Result<Vec<Families>, AllocError>
    ensures { IfOk result (λ sets. sets.items ≡ link_sets families.now links.now by_set.now) }
{
    let best = heaviest(alloc, families, links, by_set)?;
    let mut sets = Vec::new(alloc);
    for own in &best {
        sets.push(own.families.copy(alloc)?)?;
    }
    Ok(sets)
}
