// What leads on from each row of a chain to the next one, and where the same link comes first.

ghost use Rattle.std.specs.Prelude.{◌≡◌, ◌<◌, ◌≤◌, ◌+◌, ◌==◌, ℕ, length, if◌then◌else◌, IfOk, All, slice_get};
ghost use Rattle.std.specs.Option.{unwrap_or};
ghost use Rattle.std.specs.Ordering.{nat_cmp};
ghost use Rattle.std.specs.BTreeMap as tree;
ghost use Rattle.boc_program.specs.declared.limits.TheConstants.{MOST_COWNS, MOST_HELD, MOST_ROWS};
ghost use Rattle.boc_runs.specs.Rows.{IsRows};
ghost use Rattle.boc_plans.specs.Chains.{IsChain, IsLink};
ghost use Rattle.boc_why.specs.Shares.{LinkSays, AreLinks, AreFirsts};
ghost use Rattle.boc_why.specs.LinkCodes.{cowns_code, IsCode, AreCodes, AreFirstPlaces};

use boc_order::handed;
use boc_plans::chain::{ChainStep, Via};
use boc_plans::sharing::SeenRows;
use boc_program::held::HeldCowns;
use boc_program::limits::MOST_COWNS;
use boc_program::short::{CownNo, Cowns, HeldCown};
use std::alloc::{AllocError, Global};
use std::collections::BTreeMap;

/// What leads on from a row of a chain to the next one.
#[derive(Drop, Debug)]
pub enum Link {
    /// It spawns the next row. The number is that of its def.
    SpawnBy(u32),
    /// It hands these cowns to the next row, rising.
    Hands(HeldCowns),
    /// It ends, and leaves its worker to the next row.
    Frees,
    /// It ends, and all rows with it.
    Ends,
}

// Returns what leads on from a step, where `next` is the step after it.
fn link_of(rows: &SeenRows, defs: &[u32], step: ChainStep, next: Option<ChainStep>) -> Link
    requires shape { IsRows rows.now }
    requires defs { length defs.now ≡ length rows.now }
    requires holds { IsLink rows.now step next }
    ensures { LinkSays rows.now defs.now step.row step.via next result }
{
    match (step.via, next) {
        (Via::Spawn, _) => Link::SpawnBy(defs[step.row as usize]),
        (Via::Order, Some(next)) => {
            Link::Hands(handed(rows, step.row as usize, next.row as usize))
        }
        _ => Link::Ends,
    }
}

// Returns the step after the one at this place, if any.
fn step_after(steps: &[ChainStep], place: usize) -> Option<ChainStep>
    requires { place < length steps.now }
    ensures { result ≡ slice_get steps.now (place + 1) }
{
    steps.get(place + 1).copied()
}

/// Returns for each step of a chain what leads on from it to the next one. `AllocError` says that memory was refused.
pub fn links_of(
    alloc: Global,
    rows: &SeenRows,
    defs: &[u32],
    steps: &[ChainStep],
) -> Result<Vec<Link>, AllocError>
    requires shape { IsRows rows.now }
    requires defs { length defs.now ≡ length rows.now }
    requires chain { IsChain rows.now steps.now }
    ensures { IfOk result (λ links. AreLinks rows.now defs.now steps.now links.items) }
{
    let mut links = Vec::new(alloc);
    for (place, step) in steps.iter().enumerate() {
        links.push(link_of(rows, defs, *step, step_after(steps, place)))?;
    }
    Ok(links)
}

// Cowns as one number.
fn code_of_cowns(cowns: &[HeldCown]) -> u128
    requires { length cowns.now ≤ MOST_HELD }
    ensures is { result ≡ cowns_code cowns.now }
    ensures bytes { All (λ c. c < MOST_COWNS) cowns.now }
{
    match cowns {
        [] => 1,
        [first, others @ ..] => u128::from(*first) + MOST_COWNS as u128 * code_of_cowns(others),
    }
}

// Returns a link as one number.
fn code_of(link: &Link) -> u128
    ensures { IsCode link.now result }
{
    match link {
        Link::SpawnBy(def) => 2 * u128::from(*def) + 3,
        Link::Hands(cowns) => 2 * code_of_cowns(cowns.as_slice()),
        Link::Frees => 1,
        Link::Ends => 0,
    }
}

// Returns each link's number.
fn codes_of(alloc: Global, links: &[Link]) -> Result<Vec<u128>, AllocError>
    ensures { IfOk result (λ codes. AreCodes links.now codes.items) }
{
    let mut codes = Vec::new(alloc);
    for link in links {
        codes.push(code_of(link))?;
    }
    Ok(codes)
}

// Returns the place at which a number was seen first, which is this one if it was not seen before.
fn first_seen(seen: &mut BTreeMap<u128, u32>, code: u128, place: u32) -> Result<u32, AllocError>
    ensures first { IfOk result (λ first. first ≡ unwrap_or (tree.get nat_cmp seen.old code) place) }
    ensures seen { IfOk result (λ first. (q : ℕ) → tree.get nat_cmp seen.new q ≡ (if q == code then Some first else tree.get nat_cmp seen.old q)) }
{
    if let Some(first) = seen.get(&code) {
        return Ok(*first);
    }
    seen.insert(code, place)?;
    Ok(place)
}

// Returns for each number the first place at which it is.
fn first_places(alloc: Global, codes: &[u128]) -> Result<Vec<u32>, AllocError>
    requires { length codes.now ≤ MOST_ROWS }
    ensures { IfOk result (λ firsts. AreFirstPlaces codes.now firsts.items) }
{
    let mut seen = BTreeMap::new(alloc);
    let mut firsts = Vec::new(alloc);
    for (place, code) in codes.iter().enumerate() {
        firsts.push(first_seen(&mut seen, *code, place as u32)?)?;
    }
    Ok(firsts)
}

/// Returns for each link the first place at which the same one is. `AllocError` says that memory was refused.
///
/// It takes memory that grows with the number of links, and little more time.
pub fn firsts(alloc: Global, links: &[Link]) -> Result<Vec<u32>, AllocError>
    requires few { length links.now ≤ MOST_ROWS }
    ensures { IfOk result (λ firsts. AreFirsts links.now firsts.items) }
{
    first_places(alloc, codes_of(alloc, links)?.as_slice())
}
