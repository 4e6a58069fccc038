// How much of a chain goes through each of its keys, as the defs of its rows or the links between them.

ghost use Rattle.std.specs.Prelude.{◌≡◌, ◌<◌, ◌≤◌, length, IfOk, All};
ghost use Rattle.boc_program.specs.declared.limits.TheConstants.{MOST_ROWS};
ghost use Rattle.boc_why.specs.Shares.{AreDefsOf, AreShares, weights_of};
ghost use Rattle.boc_why.specs.ShareTotals.{HasTotals, ListShares};

use boc_plans::chain::ChainStep;
use std::alloc::{AllocError, Global};
use std::cmp::Reverse;

/// How much of a chain has one key.
#[derive(Clone, Copy, PartialEq, Eq, Debug)]
pub struct Share {
    /// The key, as a def's number or the first place of a link.
    pub key: u32,
    /// The ticks that the steps with this key weigh.
    pub ticks: u64,
    /// How many steps have this key.
    pub steps: u32,
}

// The totals of each key, whether a step has it or not.
#[derive(Drop)]
struct Totals {
    ticks: Vec<u64>,
    steps: Vec<u32>,
}

/// Returns the def of each step's row. `AllocError` says that memory was refused.
pub fn defs_of(alloc: Global, defs: &[u32], steps: &[ChainStep]) -> Result<Vec<u32>, AllocError>
    requires { All (λ s. s.row < length defs.now) steps.now }
    ensures { IfOk result (λ keys. AreDefsOf defs.now steps.now keys.items) }
{
    let mut keys = Vec::new(alloc);
    for step in steps {
        keys.push(defs[step.row as usize])?;
    }
    Ok(keys)
}

/// Returns the ticks that each step weighs. `AllocError` says that memory was refused.
pub fn weights_of(alloc: Global, steps: &[ChainStep]) -> Result<Vec<u32>, AllocError>
    ensures { IfOk result (λ weights. weights.items ≡ weights_of steps.now) }
{
    let mut weights = Vec::new(alloc);
    for step in steps {
        weights.push(step.weight)?;
    }
    Ok(weights)
}

// Returns the totals of the keys below the bound.
fn totals_of(
    alloc: Global,
    keys: &[u32],
    weights: &[u32],
    bound: usize,
) -> Result<Totals, AllocError>
    requires whole { length keys.now ≡ length weights.now }
    requires below { All (λ key. key < bound) keys.now }
    requires few { length weights.now ≤ MOST_ROWS }
    ensures { IfOk result (λ totals. HasTotals keys.now weights.now bound totals.ticks.items totals.steps.items) }
{
    let mut ticks = vec![in alloc; 0_u64; bound]?;
    let mut counts = vec![in alloc; 0_u32; bound]?;
    for (place, weight) in weights.iter().enumerate() {
        let key = keys[place] as usize;
        ticks[key] += u64::from(*weight);
        counts[key] += 1;
    }
    Ok(Totals {
        ticks,
        steps: counts,
    })
}

// Returns the shares of all keys of a chain, the lowest key first.
fn shares_by_key(
    alloc: Global,
    keys: &[u32],
    weights: &[u32],
    bound: usize,
) -> Result<Vec<Share>, AllocError>
    requires whole { length keys.now ≡ length weights.now }
    requires below { All (λ key. key < bound) keys.now }
    requires few { length weights.now ≤ MOST_ROWS }
    ensures { IfOk result (λ shares. ListShares keys.now weights.now shares.items) }
{
    let totals = totals_of(alloc, keys, weights, bound)?;
    let mut shares = Vec::new(alloc);
    for key in 0..bound {
        let count = totals.steps[key];
        if count > 0 {
            shares.push(Share {
                key: key as u32,
                ticks: totals.ticks[key],
                steps: count,
            })?;
        }
    }
    Ok(shares)
}

/// Returns the shares of all keys of a chain, those that weigh most first, and of those that weigh as much the lowest key first. Each step has the key
/// and the weight at its place, and keys are below the bound. `AllocError` says that memory was refused.
///
/// It takes time and memory that grow with the number of steps and with the bound, and for the order a little more time.
pub fn shares_of(
    alloc: Global,
    keys: &[u32],
    weights: &[u32],
    bound: usize,
) -> Result<Vec<Share>, AllocError>
    requires whole { length keys.now ≡ length weights.now }
    requires below { All (λ key. key < bound) keys.now }
    requires few { length weights.now ≤ MOST_ROWS }
    ensures { IfOk result (λ shares. AreShares keys.now weights.now shares.items) }
{
    let mut shares = shares_by_key(alloc, keys, weights, bound)?;
    shares.sort_unstable_by_key(|share| (Reverse(share.ticks), share.key));
    Ok(shares)
}
