// Why a greedy plan takes as long as it does.

ghost use Rattle.std.specs.Prelude.{◌≡◌, ◌↔◌, ◌+◌, ◌<◌, ◌≤◌, All, IfOk, IsTrue, Some, length, slice_get};
ghost use Rattle.boc_program.specs.declared.limits.TheConstants.{MOST_ROWS};
ghost use Rattle.boc_runs.specs.Rows.{IsRows};
ghost use Rattle.boc_plans.specs.Seen.{seen};
ghost use Rattle.boc_greedy_chain.specs.declared.chain.GreedyStep.{GreedyStep};
ghost use Rattle.boc_remedies.specs.GreedyWhys.{AreGreedyLinks, IsGreedyLink, IsGreedyWhy, IsSameChain, IsSameStep, defs_at, greedy_weights};

use boc_greedy::{Consequences, greedy_over};
use boc_greedy_chain::{GreedyStep, Tie, greedy_chain};
use boc_order::{handed, waits_and_plan, work};
use boc_plans::chain::{ChainStep, Via};
use boc_plans::sharing::{SeenRows, Sharing};
use boc_program::count::Workers;
use boc_program::limits::MOST_ROWS;
use boc_runs::rows::Rows;
use boc_why::{Link, Share, shares_by_link, shares_of};
use std::alloc::{AllocError, Global};

/// Why a greedy plan takes as long as it does. All times are ticks.
#[derive(Drop, Debug)]
pub struct GreedyWhy {
    /// How many workers there are.
    pub p: u32,
    /// The end of the plan.
    pub end: u64,
    /// The chain of the plan.
    pub steps: Vec<GreedyStep>,
    /// What leads on from each step of the chain.
    pub links: Vec<Link>,
    /// The shares of the chain by def: a key is a def's number.
    pub by_def: Vec<Share>,
    /// The shares of the chain by link: a key is the first place of the chain with that link.
    pub by_link: Vec<Share>,
}

// Returns what leads on from a step, where `next` is the step after it.
fn link_of(rows: &SeenRows, defs: &[u32], step: GreedyStep, next: Option<GreedyStep>) -> Link
    requires shape { IsRows rows.now }
    requires defs { length defs.now ≡ length rows.now }
    requires there { step.row < length rows.now }
    requires next { (n : GreedyStep) → next ≡ Some n → n.row < length rows.now }
    ensures { IsGreedyLink rows.now defs.now step next result }
{
    match (step.tie, next) {
        (Tie::Spawn, _) => Link::SpawnBy(defs[step.row as usize]),
        (Tie::Order, Some(next)) => {
            Link::Hands(handed(rows, step.row as usize, next.row as usize))
        }
        (Tie::Worker, _) => Link::Frees,
        _ => Link::Ends,
    }
}

// Returns the step after the one at this place, if any.
fn step_after(steps: &[GreedyStep], place: usize) -> Option<GreedyStep>
    requires { place < length steps.now }
    ensures { result ≡ slice_get steps.now (place + 1) }
{
    steps.get(place + 1).copied()
}

// Returns for each step of a chain what leads on from it. `AllocError` says that memory was refused.
fn greedy_links(
    alloc: Global,
    rows: &SeenRows,
    defs: &[u32],
    steps: &[GreedyStep],
) -> Result<Vec<Link>, AllocError>
    requires shape { IsRows rows.now }
    requires defs { length defs.now ≡ length rows.now }
    requires there { All (λ s. s.row < length rows.now) steps.now }
    ensures { IfOk result (λ links. AreGreedyLinks rows.now defs.now steps.now links.items) }
{
    let mut links = Vec::new(alloc);
    for (place, step) in steps.iter().enumerate() {
        links.push(link_of(rows, defs, *step, step_after(steps, place)))?;
    }
    Ok(links)
}

// Returns the def of each step's row. `AllocError` says that memory was refused.
fn defs_at(alloc: Global, defs: &[u32], steps: &[GreedyStep]) -> Result<Vec<u32>, AllocError>
    requires { All (λ s. s.row < length defs.now) steps.now }
    ensures { IfOk result (λ keys. keys.items ≡ defs_at defs.now steps.now) }
{
    let mut keys = Vec::new(alloc);
    for step in steps {
        keys.push(defs[step.row as usize])?;
    }
    Ok(keys)
}

/// Returns the ticks that each step weighs. `AllocError` says that memory was refused.
pub(crate) fn greedy_weights(alloc: Global, steps: &[GreedyStep]) -> Result<Vec<u32>, AllocError>
    ensures { IfOk result (λ weights. weights.items ≡ greedy_weights steps.now) }
{
    let mut weights = Vec::new(alloc);
    for step in steps {
        weights.push(step.weight)?;
    }
    Ok(weights)
}

/// Returns why the greedy plan of some rows for p workers takes as long as it does: its end, its chain, what leads on from each step of that, and its shares by
/// def and by link. These are the defs of the rows. `AllocError` says that memory was refused.
///
/// It takes memory and time that grow with the number of rows and their cowns, and little more time.
pub fn greedy_why_of(
    alloc: Global,
    rows: &Rows,
    sharing: Sharing,
    defs: &[u32],
    workers: Workers,
) -> Result<GreedyWhy, AllocError>
    requires defs { length defs.now ≡ length rows.now }
    requires few_defs { All (λ d. d < MOST_ROWS) defs.now }
    ensures why { IfOk result (IsGreedyWhy (seen sharing rows.now) workers defs.now) }
    ensures keys { IfOk result (λ w. All (λ s. s.key < length w.links.items) w.by_link.items) }
    ensures few { IfOk result (λ w. (length w.links.items ≡ length w.steps.items) × (length w.steps.items ≤ MOST_ROWS)) }
{
    let work = work(rows.as_slice());
    let seen = SeenRows::new(rows, sharing);
    let (waits, plan) = waits_and_plan(alloc, &seen)?;
    let consequences = Consequences::of(alloc, &seen, &waits)?;
    let greedy = greedy_over(
        alloc,
        &seen,
        &waits,
        &consequences,
        workers,
        work,
        plan.span(),
    )?;
    let steps = greedy_chain(alloc, &seen, &waits, &greedy)?;
    let links = greedy_links(alloc, &seen, defs, &steps)?;
    let weights = greedy_weights(alloc, &steps)?;
    let by_def = shares_of(alloc, &defs_at(alloc, defs, &steps)?, &weights, MOST_ROWS)?;
    let by_link = shares_by_link(alloc, &links, &weights)?;
    Ok(GreedyWhy {
        p: greedy.p,
        end: greedy.ends_at,
        steps,
        links,
        by_def,
        by_link,
    })
}

// Returns whether a step of the earliest plan's chain and one of the greedy plan's are the same.
fn is_same_step(step: ChainStep, other: GreedyStep) -> bool
    ensures { IsTrue result ↔ IsSameStep step other }
{
    let is_same_link = match (step.via, other.tie) {
        (Via::Spawn, Tie::Spawn) | (Via::Order, Tie::Order) | (Via::Last, Tie::Last) => true,
        _ => false,
    };
    is_same_link && step.row == other.row && step.weight == other.weight
}

/// Returns whether the chain of the earliest plan and that of the greedy one are the same, step by step.
pub fn is_same_chain(steps: &[ChainStep], others: &[GreedyStep]) -> bool
    ensures { IsTrue result ↔ IsSameChain steps.now others.now }
{
    let [step, steps @ ..] = steps else {
        return others.is_empty();
    };
    let [other, others @ ..] = others else {
        return false;
    };
    is_same_step(*step, *other) && is_same_chain(steps, others)
}
