// What is known of a chain of some rows.

ghost use Rattle.std.specs.Prelude.{◌≡◌, ◌<◌, ◌≤◌, All, IfOk, IfSome, length, map};
ghost use Rattle.boc_program.specs.declared.limits.TheConstants.{MOST_COWNS, MOST_HELD, MOST_ROWS};
ghost use Rattle.boc_remedies.specs.Chains.{AreChains, AreSharesBySet, IsKnownOf, IsKnownOfGreedy, family_link, known};

use crate::families::Families;
use crate::greedy_why::{GreedyWhy, greedy_weights};
use boc_program::held::HeldCowns;
use boc_program::short::Cowns;
use boc_why::{Link, Share, Why, shares_by_link, weights_of};
use std::alloc::{AllocError, Global};

/// What is known of a chain of some rows.
#[derive(Drop)]
pub struct Route<'a> {
    /// What leads on from each step.
    pub links: &'a [Link],
    /// Its shares by def: a key is a def's number.
    pub by_def: &'a [Share],
    /// Its shares by link: a key is the first place with that link.
    pub by_link: &'a [Share],
    /// Its shares by the families of the cowns that a link hands on: a key is the first place at which cowns of these families are handed on.
    pub by_set: Vec<Share>,
}

// Returns families as a row's cowns are kept.
fn held(families: &[u32]) -> HeldCowns
    requires few { length families.now ≤ MOST_HELD }
    requires low { All (λ f. f < MOST_COWNS) families.now }
    ensures { result.items ≡ families.now }
{
    let mut cowns = Cowns::new();
    for family in families {
        cowns.push(*family);
    }
    HeldCowns::of(&cowns)
}

// Returns a link with families instead of its cowns. `AllocError` says that memory was refused.
fn family_link(alloc: Global, link: &Link, families: &[u32]) -> Result<Link, AllocError>
    requires few_families { All (λ f. f < MOST_COWNS) families.now }
    ensures { IfOk result (λ own. own ≡ family_link families.now link.now) }
{
    match link {
        Link::SpawnBy(def) => Ok(Link::SpawnBy(*def)),
        Link::Hands(cowns) => {
            let set = Families::of(alloc, cowns.as_slice(), families)?;
            Ok(Link::Hands(held(set.as_slice())))
        }
        Link::Frees => Ok(Link::Frees),
        Link::Ends => Ok(Link::Ends),
    }
}

// Returns all links with families instead of their cowns. `AllocError` says that memory was refused.
fn family_links(alloc: Global, links: &[Link], families: &[u32]) -> Result<Vec<Link>, AllocError>
    requires few_families { All (λ f. f < MOST_COWNS) families.now }
    ensures { IfOk result (λ all. all.items ≡ map (family_link families.now) links.now) }
{
    let mut all = Vec::new(alloc);
    for link in links {
        all.push(family_link(alloc, link, families)?)?;
    }
    Ok(all)
}

/// Returns the shares of a chain by the families of the cowns that its links hand on, whose steps have these weights. Each cown belongs to the family at its
/// place. `AllocError` says that memory was refused.
pub(crate) fn shares_by_set(
    alloc: Global,
    links: &[Link],
    weights: &[u32],
    families: &[u32],
) -> Result<Vec<Share>, AllocError>
    requires few_families { All (λ f. f < MOST_COWNS) families.now }
    requires whole { length links.now ≡ length weights.now }
    requires few { length weights.now ≤ MOST_ROWS }
    ensures { IfOk result (λ shares. AreSharesBySet families.now links.now weights.now shares.items) }
{
    let links = family_links(alloc, links, families)?;
    shares_by_link(alloc, &links, weights)
}

// Returns what is known of the chain of the earliest plan. `AllocError` says that memory was refused.
fn route_of<'a>(alloc: Global, why: &'a Why, families: &[u32]) -> Result<Route<'a>, AllocError>
    requires few_families { All (λ f. f < MOST_COWNS) families.now }
    requires whole { length why.now.links.items ≡ length why.now.profile.chain.steps.items }
    requires few { length why.now.profile.chain.steps.items ≤ MOST_ROWS }
    ensures { IfOk result (λ route. IsKnownOf families.now why.now (known route)) }
{
    let weights = weights_of(alloc, &why.profile.chain.steps)?;
    let by_set = shares_by_set(alloc, &why.links, &weights, families)?;
    Ok(Route {
        links: &why.links,
        by_def: &why.by_def,
        by_link: &why.by_link,
        by_set,
    })
}

// Returns what is known of the chain of the greedy plan. `AllocError` says that memory was refused.
fn greedy_route_of<'a>(
    alloc: Global,
    why: &'a GreedyWhy,
    families: &[u32],
) -> Result<Route<'a>, AllocError>
    requires few_families { All (λ f. f < MOST_COWNS) families.now }
    requires whole { length why.now.links.items ≡ length why.now.steps.items }
    requires few { length why.now.steps.items ≤ MOST_ROWS }
    ensures { IfOk result (λ route. IsKnownOfGreedy families.now why.now (known route)) }
{
    let weights = greedy_weights(alloc, &why.steps)?;
    let by_set = shares_by_set(alloc, &why.links, &weights, families)?;
    Ok(Route {
        links: &why.links,
        by_def: &why.by_def,
        by_link: &why.by_link,
        by_set,
    })
}

/// Returns what is known of the chain of the earliest plan, and of that of the greedy plan, if there is one. Each cown belongs to the family at its place.
/// `AllocError` says that memory was refused.
pub fn routes_of<'a>(
    alloc: Global,
    why: &'a Why,
    greedy: &'a Option<GreedyWhy>,
    families: &[u32],
) -> Result<Vec<Route<'a>>, AllocError>
    requires few_families { All (λ f. f < MOST_COWNS) families.now }
    requires whole { length why.now.links.items ≡ length why.now.profile.chain.steps.items }
    requires few { length why.now.profile.chain.steps.items ≤ MOST_ROWS }
    requires greedy { IfSome greedy.now (λ g. (length g.links.items ≡ length g.steps.items) × (length g.steps.items ≤ MOST_ROWS)) }
    ensures { IfOk result (λ routes. AreChains families.now why.now greedy.now (map known routes.items)) }
{
    let mut routes = Vec::new(alloc);
    routes.push(route_of(alloc, why, families)?)?;
    if let Some(greedy) = greedy {
        routes.push(greedy_route_of(alloc, greedy, families)?)?;
    }
    Ok(routes)
}
