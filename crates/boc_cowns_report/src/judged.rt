// Cowns by the ends of greedy plans without them.

ghost use Rattle.std.specs.Prelude.{◌≡◌, ◌<◌, ◌≤◌, ℕ, All, IfOk, OnOk, length, nat_lt};
ghost use Rattle.boc_remedies.specs.InOrder.{first_place};
ghost use Rattle.boc_cowns_report.specs.Judged.{judged_by, judged_cowns, judged_with};

use boc_cowns::HotCown;
use std::alloc::{AllocError, Global};

/// What is known of a cown, and the end of the greedy plan without it.
#[derive(Clone, Copy, PartialEq, Eq, Debug)]
pub struct JudgedCown {
    pub hot: HotCown,
    /// The end of the greedy plan that the rows would have if the cown imposed no order, in ticks.
    pub end: u64,
}

// Returns how many of the cowns at the front leave as much as this one or less.
fn place_of(judged: &[JudgedCown], own: JudgedCown) -> usize
    ensures is { result ≡ first_place (λ j. nat_lt own.end j.end) judged.now }
    ensures within { result ≤ length judged.now }
{
    for (place, other) in judged.iter().enumerate() {
        if own.end < other.end {
            return place;
        }
    }
    judged.len()
}

// Puts a cown after those that leave as much or less.
fn rank(judged: &mut Vec<JudgedCown>, own: JudgedCown) -> Result<(), AllocError>
    ensures { OnOk result (judged.new.items ≡ judged_with judged.old.items own) }
{
    let place = place_of(judged, own);
    judged.insert(place, own)?;
    Ok(())
}

// Returns a cown with the end of the plan without it.
fn judged_by(ends: &[u64], own: HotCown) -> JudgedCown
    requires { own.cown < length ends.now }
    ensures { result ≡ judged_by ends.now own }
{
    JudgedCown {
        hot: own,
        end: ends[own.cown as usize],
    }
}

/// Returns each cown with the end of the greedy plan without it, which is at its number: those that leave the soonest end first, and of equal ones the first.
/// `AllocError` says that memory was refused.
pub fn judged_cowns(
    alloc: Global,
    cowns: &[HotCown],
    ends: &[u64],
) -> Result<Vec<JudgedCown>, AllocError>
    requires there { All (λ own. own.cown < length ends.now) cowns.now }
    ensures judged { IfOk result (λ judged. judged.items ≡ judged_cowns ends.now cowns.now) }
    ensures low { IfOk result (λ judged. (bound : ℕ) → All (λ own. own.held < bound) cowns.now → All (λ own. own.hot.held < bound) judged.items) }
{
    let mut judged = Vec::new(alloc);
    for own in cowns {
        rank(&mut judged, judged_by(ends, *own))?;
    }
    Ok(judged)
}
