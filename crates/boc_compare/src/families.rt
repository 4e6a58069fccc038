// What is known of each family of cowns of a run.

ghost use Rattle.std.specs.Prelude.{◌≡◌, ◌==◌, ◌+◌, ◌<◌, ◌≤◌, ◌^◌, All, IfOk, cond, count_by, length};
ghost use Rattle.std.specs.List.{list_any};
ghost use Rattle.boc_program.specs.declared.limits.TheConstants.{MOST_COWNS, MOST_ROWS};
ghost use Rattle.boc_compare.specs.Totalled.{AreOfFamilies, IsOfFamily, handed_by, hands_any, held_in, is_of, most_held, waited_by};

use crate::keys::each_once;
use crate::totals::Totals;
use boc_cowns::HotCown;
use boc_program::limits::MOST_COWNS;
use boc_program::short::HeldCown;
use boc_why::Link;
use std::alloc::{AllocError, Global};

// Returns whether a cown belongs to a family.
fn is_of(families: &[u32], family: u32, cown: HeldCown) -> bool
    ensures { result ≡ is_of families.now family cown }
{
    match families.get(cown as usize) {
        Some(own) => *own == family,
        None => false,
    }
}

// Returns the ticks, with more where the test holds.
fn add_if(ticks: u64, holds: bool, more: u64) -> u64
    requires { ticks + more < 2 ^ 64 }
    ensures { result ≡ ticks + cond holds more 0 }
{
    if holds { ticks + more } else { ticks }
}

// Returns how many cowns a family has.
fn members(families: &[u32], family: u32) -> u64
    requires { length families.now ≤ MOST_COWNS }
    ensures { result ≡ count_by (λ f. f == family) families.now }
{
    let mut count = 0;
    for own in families {
        count = add_if(count, *own == family, 1);
    }
    count
}

// Returns for how long a cown is held, where it is of the family.
fn held_in(families: &[u32], family: u32, hot: &HotCown) -> u64
    ensures { result ≡ held_in families.now family hot.now }
{
    if is_of(families, family, hot.cown) {
        hot.held
    } else {
        0
    }
}

// Returns for how long that cown of the family is held that is held longest.
fn most_held(families: &[u32], family: u32, cowns: &[HotCown]) -> u64
    ensures { result ≡ most_held families.now family cowns.now }
{
    let mut most = 0_u64;
    for hot in cowns {
        most = most.max(held_in(families, family, hot));
    }
    most
}

// Returns for how long rows wait for cowns of the family.
fn waited_by(families: &[u32], family: u32, cowns: &[HotCown]) -> u64
    requires few { length cowns.now ≤ MOST_COWNS }
    requires low { All (λ hot. hot.waited < 2 ^ 56) cowns.now }
    ensures { result ≡ waited_by families.now family cowns.now }
{
    let mut waited = 0;
    for hot in cowns {
        waited = add_if(waited, is_of(families, family, hot.cown), hot.waited);
    }
    waited
}

// Returns whether any of these cowns belongs to a family.
fn any_of(families: &[u32], family: u32, cowns: &[HeldCown]) -> bool
    ensures { result ≡ list_any (is_of families.now family) cowns.now }
{
    for cown in cowns {
        if is_of(families, family, *cown) {
            return true;
        }
    }
    false
}

// Returns whether a link hands on a cown of the family.
fn hands_any(families: &[u32], family: u32, link: &Link) -> bool
    ensures { result ≡ hands_any families.now family link.now }
{
    match link {
        Link::Hands(cowns) => any_of(families, family, cowns.as_slice()),
        _ => false,
    }
}

// Returns what the links weigh that hand on any cown of the family.
fn handed_by(families: &[u32], family: u32, links: &[Link], weights: &[u32]) -> u64
    requires whole { length links.now ≡ length weights.now }
    requires few { length weights.now ≤ MOST_ROWS }
    ensures { result ≡ handed_by families.now family links.now weights.now }
{
    let mut ticks = 0;
    for (place, link) in links.iter().enumerate() {
        let own = u64::from(weights[place]);
        ticks = add_if(ticks, hands_any(families, family, link), own);
    }
    ticks
}

// Returns what is known of a family.
fn of_family(
    cowns: &[HotCown],
    links: &[Link],
    weights: &[u32],
    families: &[u32],
    family: u32,
) -> Totals
    requires few { length families.now ≤ MOST_COWNS }
    requires few_cowns { length cowns.now ≤ MOST_COWNS }
    requires low { All (λ hot. hot.waited < 2 ^ 56) cowns.now }
    requires whole { length links.now ≡ length weights.now }
    requires few_steps { length weights.now ≤ MOST_ROWS }
    ensures key { result.key ≡ family }
    ensures is { IsOfFamily families.now cowns.now links.now weights.now result }
{
    Totals {
        key: family,
        count: members(families, family),
        ticks: most_held(families, family, cowns),
        more: waited_by(families, family, cowns),
        chain: handed_by(families, family, links, weights),
    }
}

/// Returns what is known of each family of cowns, in the order of their first cowns: how many cowns it has, and how long the one is held that is held longest.
/// It also says how long rows wait for them, and what links of the chain weigh that hand on any of them. Each cown belongs to the family at its place.
/// `AllocError` says that memory was refused.
///
/// It looks through the cowns and the links once for each family.
pub(crate) fn family_totals(
    alloc: Global,
    cowns: &[HotCown],
    links: &[Link],
    weights: &[u32],
    families: &[u32],
) -> Result<Vec<Totals>, AllocError>
    requires few { length families.now ≤ MOST_COWNS }
    requires few_families { All (λ f. f < MOST_COWNS) families.now }
    requires few_cowns { length cowns.now ≤ MOST_COWNS }
    requires low { All (λ hot. hot.waited < 2 ^ 56) cowns.now }
    requires whole { length links.now ≡ length weights.now }
    requires few_steps { length weights.now ≤ MOST_ROWS }
    ensures { IfOk result (λ list. AreOfFamilies families.now cowns.now links.now weights.now list.items) }
{
    let keys = each_once(alloc, families, MOST_COWNS)?;
    let mut list = Vec::with_capacity(alloc, keys.len())?;
    for key in &keys {
        list.push(of_family(cowns, links, weights, families, *key))?;
    }
    Ok(list)
}
