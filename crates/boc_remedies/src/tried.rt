// What is tried for some chains.

ghost use Rattle.std.specs.Prelude.{◌≡◌, ◌++◌, ◌∷◌, [], IfOk, OnOk, filter_map, map, option_to_list, slice_get, take};
ghost use Rattle.std.specs.List.{fold, list_any};
ghost use Rattle.boc_remedies.specs.declared.remedy.Remedy.TheVariants.{HalfCost, NoOrder, EarlySpawns};
ghost use Rattle.boc_remedies.specs.Chains.{known};
ghost use Rattle.boc_remedies.specs.declared.tried.TheConstants.{MOST_TRIED};
ghost use Rattle.boc_remedies.specs.Families.{is_same_set, joined};
ghost use Rattle.boc_remedies.specs.Tried.{added, added_set, defs_of_all, handed_by, handed_families, handed_of, heaviest_of, of_several, several_of};
ghost use Rattle.boc_remedies.specs.Tried.{sets_tried, spawner_of, spawners_of, tried};

use crate::chain::Route;
use crate::families::Families;
use crate::link_sets::link_sets;
use crate::remedy::Remedy;
use boc_program::short::HeldCown;
use boc_why::{Link, Share};
use std::alloc::{AllocError, Global};

/// Of a chain, this many defs at most are tried at half their cost, and this many with earlier spawns.
pub(crate) const MOST_TRIED: usize = 20;

// Appends a number to others, unless it is among them.
fn add(list: &mut Vec<u32>, number: u32) -> Result<(), AllocError>
    ensures { OnOk result (list.new.items ≡ added list.old.items number) }
{
    if !list.contains(&number) {
        list.push(number)?;
    }
    Ok(())
}

// Appends several.
fn add_all(list: &mut Vec<u32>, numbers: &[u32]) -> Result<(), AllocError>
    ensures { OnOk result (list.new.items ≡ fold added list.old.items numbers.now) }
{
    for number in numbers {
        add(list, *number)?;
    }
    Ok(())
}

// Returns whether a set is among some.
pub(crate) fn has_set(sets: &[Families], set: &Families) -> bool
    ensures { result ≡ list_any (λ own. is_same_set own set.now) sets.now }
{
    for own in sets {
        if own.is(set) {
            return true;
        }
    }
    false
}

/// Appends a set to others, unless it is among them.
pub(crate) fn add_set(sets: &mut Vec<Families>, set: Families) -> Result<(), AllocError>
    ensures { OnOk result (sets.new.items ≡ added_set sets.old.items set) }
{
    if !has_set(sets, &set) {
        sets.push(set)?;
    }
    Ok(())
}

/// Appends several.
pub(crate) fn add_sets(
    alloc: Global,
    sets: &mut Vec<Families>,
    more: &[Families],
) -> Result<(), AllocError>
    ensures { OnOk result (sets.new.items ≡ fold added_set sets.old.items more.now) }
{
    for set in more {
        add_set(sets, set.copy(alloc)?)?;
    }
    Ok(())
}

// Returns the first shares, as many as are tried.
fn first_shares(shares: &[Share]) -> &[Share]
    ensures { result.now ≡ take MOST_TRIED shares.now }
{
    &shares[..shares.len().min(MOST_TRIED)]
}

// Returns the first numbers, as many as are tried.
fn first_numbers(numbers: &[u32]) -> &[u32]
    ensures { result.now ≡ take MOST_TRIED numbers.now }
{
    &numbers[..numbers.len().min(MOST_TRIED)]
}

// Returns the keys of shares. `AllocError` says that memory was refused.
fn keys_of(alloc: Global, shares: &[Share]) -> Result<Vec<u32>, AllocError>
    ensures { IfOk result (λ keys. keys.items ≡ map (λ s. s.key) shares.now) }
{
    let mut keys = Vec::new(alloc);
    for share in shares {
        keys.push(share.key)?;
    }
    Ok(keys)
}

// Returns the defs that weigh most in each of some chains, each once, in their order. `AllocError` says that memory was refused.
fn heaviest_defs(alloc: Global, routes: &[Route<'_>]) -> Result<Vec<u32>, AllocError>
    ensures { IfOk result (λ defs. defs.items ≡ defs_of_all heaviest_of (map known routes.now)) }
{
    let mut defs = Vec::new(alloc);
    for route in routes {
        let keys = keys_of(alloc, first_shares(route.by_def))?;
        add_all(&mut defs, &keys)?;
    }
    Ok(defs)
}

// Returns the def that spawns by the link at a place, if there is one and it is a spawn.
fn spawner_at(links: &[Link], place: u32) -> Option<u32>
    ensures { result ≡ spawner_of (slice_get links.now place) }
{
    match links.get(place as usize) {
        Some(Link::SpawnBy(def)) => Some(*def),
        _ => None,
    }
}

// Appends a number to others, if there is one.
fn push_some(list: &mut Vec<u32>, number: Option<u32>) -> Result<(), AllocError>
    ensures { OnOk result (list.new.items ≡ list.old.items ++ option_to_list number) }
{
    match number {
        Some(number) => Ok(list.push(number)?),
        None => Ok(()),
    }
}

// Returns the defs that spawn by the links of some shares. `AllocError` says that memory was refused.
fn spawners(alloc: Global, links: &[Link], by_link: &[Share]) -> Result<Vec<u32>, AllocError>
    ensures { IfOk result (λ defs. defs.items ≡ filter_map (λ s. spawner_of (slice_get links.now s.key)) by_link.now) }
{
    let mut defs = Vec::new(alloc);
    for share in by_link {
        push_some(&mut defs, spawner_at(links, share.key))?;
    }
    Ok(defs)
}

// Returns the defs whose spawns weigh most in each of some chains, each once, in their order. `AllocError` says that memory was refused.
fn heaviest_spawners(alloc: Global, routes: &[Route<'_>]) -> Result<Vec<u32>, AllocError>
    ensures { IfOk result (λ defs. defs.items ≡ defs_of_all spawners_of (map known routes.now)) }
{
    let mut defs = Vec::new(alloc);
    for route in routes {
        let all = spawners(alloc, route.links, route.by_link)?;
        add_all(&mut defs, first_numbers(&all))?;
    }
    Ok(defs)
}

// Puts the families of some cowns into a set.
fn put_cowns(set: &mut Families, cowns: &[HeldCown], families: &[u32]) -> Result<(), AllocError>
    ensures { OnOk result (set.new ≡ joined set.old (filter_map (slice_get families.now) cowns.now)) }
{
    for cown in cowns {
        set.put_family_of(*cown, families)?;
    }
    Ok(())
}

// Puts the families of the cowns into a set that a link hands on.
fn put_handed(
    set: &mut Families,
    links: &[Link],
    place: u32,
    families: &[u32],
) -> Result<(), AllocError>
    ensures { OnOk result (set.new ≡ joined set.old (handed_by families.now (slice_get links.now place))) }
{
    match links.get(place as usize) {
        Some(Link::Hands(cowns)) => put_cowns(set, cowns.as_slice(), families),
        _ => Ok(()),
    }
}

// Puts the families of the cowns into a set that a chain hands on.
fn put_handed_of(set: &mut Families, route: &Route<'_>, families: &[u32]) -> Result<(), AllocError>
    ensures { OnOk result (set.new ≡ joined set.old (handed_of families.now (known route.now))) }
{
    for share in route.by_link {
        put_handed(set, route.links, share.key, families)?;
    }
    Ok(())
}

/// Returns the families of the cowns that some chains hand on, where each cown belongs to the family at its place. `AllocError` says that memory was refused.
pub(crate) fn handed_families(
    alloc: Global,
    routes: &[Route<'_>],
    families: &[u32],
) -> Result<Families, AllocError>
    ensures { IfOk result (λ set. set ≡ handed_families families.now (map known routes.now)) }
{
    let mut set = Families::none(alloc);
    for route in routes {
        put_handed_of(&mut set, route, families)?;
    }
    Ok(set)
}

/// Returns those of some sets that have two or more families. `AllocError` says that memory was refused.
pub(crate) fn of_several(alloc: Global, sets: &[Families]) -> Result<Vec<Families>, AllocError>
    ensures { IfOk result (λ several. several.items ≡ of_several sets.now) }
{
    let mut several = Vec::new(alloc);
    for set in sets {
        if set.as_slice().len() > 1 {
            several.push(set.copy(alloc)?)?;
        }
    }
    Ok(several)
}

// Returns the link sets of two or more of a chain. `AllocError` says that memory was refused.
fn several_of(
    alloc: Global,
    route: &Route<'_>,
    families: &[u32],
) -> Result<Vec<Families>, AllocError>
    ensures { IfOk result (λ sets. sets.items ≡ several_of families.now (known route.now)) }
{
    let sets = link_sets(alloc, families, route.links, &route.by_set)?;
    of_several(alloc, &sets)
}

// Returns each family of a set as a set of its own. `AllocError` says that memory was refused.
fn single_sets(alloc: Global, families: &[u32]) -> Result<Vec<Families>, AllocError>
    ensures { IfOk result (λ sets. sets.items ≡ map (λ f. f ∷ []) families.now) }
{
    let mut sets = Vec::new(alloc);
    for family in families {
        sets.push(Families::one(alloc, *family)?)?;
    }
    Ok(sets)
}

// Returns the sets of cowns that are tried: each family that some chain hands on, and then the link sets of two or more of each chain, each once, in their
// order. `AllocError` says that memory was refused.
fn sets_tried(
    alloc: Global,
    routes: &[Route<'_>],
    families: &[u32],
) -> Result<Vec<Families>, AllocError>
    ensures { IfOk result (λ sets. sets.items ≡ sets_tried families.now (map known routes.now)) }
{
    let handed = handed_families(alloc, routes, families)?;
    let mut sets = single_sets(alloc, handed.as_slice())?;
    for route in routes {
        let more = several_of(alloc, route, families)?;
        add_sets(alloc, &mut sets, &more)?;
    }
    Ok(sets)
}

// Appends each def at half its cost.
fn push_half_costs(tried: &mut Vec<Remedy>, defs: &[u32]) -> Result<(), AllocError>
    ensures { OnOk result (tried.new.items ≡ tried.old.items ++ map HalfCost defs.now) }
{
    for def in defs {
        tried.push(Remedy::HalfCost(*def))?;
    }
    Ok(())
}

// Appends each set without its order.
fn push_no_orders(
    alloc: Global,
    tried: &mut Vec<Remedy>,
    sets: &[Families],
) -> Result<(), AllocError>
    ensures { OnOk result (tried.new.items ≡ tried.old.items ++ map NoOrder sets.now) }
{
    for set in sets {
        tried.push(Remedy::NoOrder(set.copy(alloc)?))?;
    }
    Ok(())
}

// Appends each def with earlier spawns.
fn push_early_spawns(tried: &mut Vec<Remedy>, defs: &[u32]) -> Result<(), AllocError>
    ensures { OnOk result (tried.new.items ≡ tried.old.items ++ map EarlySpawns defs.now) }
{
    for def in defs {
        tried.push(Remedy::EarlySpawns(*def))?;
    }
    Ok(())
}

/// Returns what is tried for some chains, in this order. First are the defs that weigh most in each at half their cost. Then come the families that any hands
/// on, and the link sets of each, without their order. Last are earlier spawns of the defs that weigh most by their spawns in each. Each is tried once, and
/// each cown belongs to the family at its place. `AllocError` says that memory was refused.
pub fn remedies_for(
    alloc: Global,
    routes: &[Route<'_>],
    families: &[u32],
) -> Result<Vec<Remedy>, AllocError>
    ensures { IfOk result (λ all. all.items ≡ tried families.now (map known routes.now)) }
{
    let heaviest = heaviest_defs(alloc, routes)?;
    let sets = sets_tried(alloc, routes, families)?;
    let spawners = heaviest_spawners(alloc, routes)?;
    let mut all = Vec::new(alloc);
    push_half_costs(&mut all, &heaviest)?;
    push_no_orders(alloc, &mut all, &sets)?;
    push_early_spawns(&mut all, &spawners)?;
    Ok(all)
}
