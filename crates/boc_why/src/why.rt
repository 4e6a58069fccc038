// Why some rows take as long as they do.

ghost use Rattle.std.specs.Prelude.{◌≡◌, ◌<◌, ◌≤◌, All, IfOk, length};
ghost use Rattle.boc_program.specs.declared.limits.TheConstants.{MOST_COWNS, MOST_ROWS};
ghost use Rattle.boc_why.specs.Why.{IsWhy};
ghost use Rattle.boc_why.specs.WhySteps.{AreSharesByDef, AreSharesByLink};

use crate::links::{Link, firsts, links_of};
use crate::shares::{Share, defs_of, shares_of, weights_of};
use boc_order::{Least, Profile, least_end, profile};
use boc_plans::chain::ChainStep;
use boc_plans::sharing::{SeenRows, Sharing};
use boc_program::limits::MOST_ROWS;
use boc_runs::rows::Rows;
use std::alloc::{AllocError, Global};

/// Why some rows take as long as they do. All times are ticks.
#[derive(Drop, Debug)]
pub struct Why {
    /// The work, the span, the earliest plan, and the chain that holds the rows back.
    pub profile: Profile,
    /// What leads on from each step of the chain.
    pub links: Vec<Link>,
    /// The shares of the chain by def: a key is a def's number.
    pub by_def: Vec<Share>,
    /// The shares of the chain by link: a key is the first place of the chain with that link.
    pub by_link: Vec<Share>,
    /// A lower bound for any order on the cowns.
    pub least: Least,
}

/// Returns the shares of a chain by the defs of its rows, as `shares_of` has them: a key is a def's number. These are the defs of all rows. `AllocError` says
/// that memory was refused.
pub fn shares_by_def(
    alloc: Global,
    defs: &[u32],
    steps: &[ChainStep],
) -> Result<Vec<Share>, AllocError>
    requires there { All (λ s. s.row < length defs.now) steps.now }
    requires few_defs { All (λ d. d < MOST_ROWS) defs.now }
    requires few { length steps.now ≤ MOST_ROWS }
    ensures { IfOk result (λ shares. AreSharesByDef defs.now steps.now shares.items) }
{
    let keys = defs_of(alloc, defs, steps)?;
    let weights = weights_of(alloc, steps)?;
    shares_of(alloc, &keys, &weights, MOST_ROWS)
}

/// Returns the shares of a chain by its links, whose steps have these weights: a key is the first place of the chain with that link. `AllocError` says that
/// memory was refused.
pub fn shares_by_link(
    alloc: Global,
    links: &[Link],
    weights: &[u32],
) -> Result<Vec<Share>, AllocError>
    requires whole { length links.now ≡ length weights.now }
    requires few { length weights.now ≤ MOST_ROWS }
    ensures are { IfOk result (λ shares. AreSharesByLink links.now weights.now shares.items) }
    ensures keys { IfOk result (λ shares. All (λ s. s.key < length links.now) shares.items) }
{
    let keys = firsts(alloc, links)?;
    shares_of(alloc, &keys, weights, links.len())
}

/// Returns why some rows take as long as they do: the chain that holds them back, what leads on from each of its steps, its shares by def and by link, and a
/// lower bound for any order on the first cowns, this many. These are the defs of the rows. `AllocError` says that memory was refused.
///
/// It takes memory and time that grow with the number of rows and their cowns.
pub fn why_of(
    alloc: Global,
    rows: &Rows,
    sharing: Sharing,
    defs: &[u32],
    cowns: usize,
) -> Result<Why, AllocError>
    requires defs { length defs.now ≡ length rows.now }
    requires few_defs { All (λ d. d < MOST_ROWS) defs.now }
    requires cowns { cowns ≤ MOST_COWNS }
    ensures why { IfOk result (IsWhy rows.now sharing defs.now cowns) }
    ensures there { IfOk result (λ w. All (λ s. s.row < length w.profile.starts.items) w.profile.chain.steps.items) }
    ensures whole { IfOk result (λ w. length w.links.items ≡ length w.profile.chain.steps.items) }
    ensures keys { IfOk result (λ w. All (λ s. s.key < length w.links.items) w.by_link.items) }
{
    let seen = SeenRows::new(rows, sharing);
    let profile = profile(alloc, rows, sharing)?;
    let steps = &profile.chain.steps;
    let links = links_of(alloc, &seen, defs, steps)?;
    let by_def = shares_by_def(alloc, defs, steps)?;
    let weights = weights_of(alloc, steps)?;
    let by_link = shares_by_link(alloc, &links, &weights)?;
    let least = least_end(alloc, &seen, cowns)?;
    Ok(Why {
        profile,
        links,
        by_def,
        by_link,
        least,
    })
}
