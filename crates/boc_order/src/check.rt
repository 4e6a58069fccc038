// The test of a chain, and the cowns that a row hands to another.

ghost use Rattle.std.specs.Prelude.{◌≡◌, ℕ, ◌<◌, ◌↔◌, length, IfOk, IfErr, IsTrue, Contains, ◌+◌, slice_get};
ghost use Rattle.boc_runs.specs.Rows.{IsRows, cowns_of};
ghost use Rattle.boc_plans.specs.Seen.{seen};
ghost use Rattle.boc_plans.specs.Plans.{IsChild, ConflictOn, Ordered, NoneEndsBefore};
ghost use Rattle.boc_plans.specs.Chains.{IsLink, IsChain, IsFirstFalse, weight_of};
ghost use Rattle.boc_order.specs.Handed.{AreHanded};

use boc_plans::chain::{Chain, ChainStep, Via};
use boc_plans::sharing::{SeenRows, Sharing};
use boc_program::held::HeldCowns;
use boc_program::short::{CownNo, Cowns, HeldCown};
use boc_runs::rows::Rows;

/// Returns whether two rows conflict on a cown of the first: both have it, and one of them wrote it.
pub fn conflict_on(rows: &SeenRows, cown: HeldCown, a: usize, b: usize) -> bool
    requires first { a < length rows.now }
    requires second { b < length rows.now }
    requires own { Contains (cowns_of rows.now a) cown }
    ensures { IsTrue result ↔ ConflictOn rows.now cown a b }
{
    if !rows.cowns(b).contains(&cown) {
        return false;
    }
    rows.writes(a, cown) || rows.writes(b, cown)
}

/// Returns the cowns over which row a is ordered before row b, rising. It takes no memory.
pub fn handed(rows: &SeenRows, a: usize, b: usize) -> HeldCowns
    requires shape { IsRows rows.now }
    requires first { a < length rows.now }
    requires second { b < length rows.now }
    ensures { AreHanded rows.now a b result.items }
{
    let mut handed = Cowns::new();
    for own in rows.held(a).as_slice() {
        if conflict_on(rows, *own, a, b) {
            handed.push(CownNo::from(*own));
        }
    }
    HeldCowns::of(&handed)
}

// Returns whether two rows conflict on some cown.
fn conflict(rows: &SeenRows, a: usize, b: usize) -> bool
    requires first { a < length rows.now }
    requires second { b < length rows.now }
    ensures { IsTrue result ↔ ((c : ℕ) × ConflictOn rows.now c a b) }
{
    for cown in rows.cowns(a) {
        if conflict_on(rows, *cown, a, b) {
            return true;
        }
    }
    false
}

// Returns whether row b comes after row a, and conflicts with it on a cown.
fn are_ordered(rows: &SeenRows, a: u32, b: u32) -> bool
    requires { a < length rows.now }
    ensures { IsTrue result ↔ Ordered rows.now a b }
{
    if b as usize >= rows.len() {
        return false;
    }
    a < b && conflict(rows, a as usize, b as usize)
}

// Returns whether row b is a child of row a.
fn is_child(rows: &SeenRows, a: u32, b: u32) -> bool
    ensures { IsTrue result ↔ IsChild rows.now a b }
{
    if b == 0 || b as usize >= rows.len() {
        return false;
    }
    rows.parent(b as usize) == a
}

// Returns whether the link of the step holds, where `next` is the step after it.
fn is_link(rows: &SeenRows, step: ChainStep, next: Option<ChainStep>) -> bool
    requires { IsRows rows.now }
    ensures { IsTrue result ↔ IsLink rows.now step next }
{
    if step.row as usize >= rows.len() {
        return false;
    }
    let ticks = rows.ticks(step.row as usize);
    match (step.via, next) {
        (Via::Last, None) => step.weight == ticks,
        (Via::Spawn, Some(next)) => {
            is_child(rows, step.row, next.row) && rows.offset(next.row as usize) == step.weight
        }
        (Via::Order, Some(next)) => are_ordered(rows, step.row, next.row) && step.weight == ticks,
        _ => false,
    }
}

// Returns whether the step at this place holds, where `next` is the step after it.
fn holds(rows: &SeenRows, place: usize, step: ChainStep, next: Option<ChainStep>) -> bool
    requires { IsRows rows.now }
    ensures { IsTrue result ↔ ((place ≡ 0 → step.row ≡ 0) × IsLink rows.now step next) }
{
    (place != 0 || step.row == 0) && is_link(rows, step, next)
}

// Returns the step after the one at this place, if any.
fn step_after(steps: &[ChainStep], place: usize) -> Option<ChainStep>
    requires { place < length steps.now }
    ensures { result ≡ slice_get steps.now (place + 1) }
{
    steps.get(place + 1).copied()
}

/// Returns the weight of the chain in ticks, if it is one; else the place of its first false step, and 0 if it is empty.
///
/// The first step of a chain is row 0. A spawn leads to a child of the step's row and weighs the child's offset.
/// An order leads to a later row that shares a cown with the step's row, and weighs that row's ticks; where reads are
/// shared, one of the two wrote such a cown. The last step weighs its row's ticks. Each plan that keeps, with however
/// many workers, ends at this weight or later.
///
/// It takes no memory, and time that grows with the number of steps.
pub fn check_chain(rows: &Rows, chain: &Chain, sharing: Sharing) -> Result<u64, usize>
    ensures chain { IfOk result (λ w. IsChain (seen sharing rows.now) chain.now.steps.items) }
    ensures weight { IfOk result (λ w. w ≡ weight_of chain.now.steps.items) }
    ensures no_chain { IfErr result (λ place. IsChain (seen sharing rows.now) chain.now.steps.items → ⊥) }
    ensures first_false { IfErr result (λ place. IsFirstFalse (seen sharing rows.now) chain.now.steps.items place) }
    ensures no_sooner { IfOk result (λ w. NoneEndsBefore (seen sharing rows.now) w) }
{
    check_steps(&SeenRows::new(rows, sharing), chain.steps.as_slice())
}

// Returns the weight of these steps, if they make a chain; else the place of the first false one.
fn check_steps(rows: &SeenRows, steps: &[ChainStep]) -> Result<u64, usize>
    requires { IsRows rows.now }
    ensures chain { IfOk result (λ w. IsChain rows.now steps.now) }
    ensures weight { IfOk result (λ w. w ≡ weight_of steps.now) }
    ensures no_chain { IfErr result (λ place. IsChain rows.now steps.now → ⊥) }
    ensures first_false { IfErr result (λ place. IsFirstFalse rows.now steps.now place) }
    ensures no_sooner { IfOk result (λ w. NoneEndsBefore rows.now w) }
{
    let mut weight = 0;
    for (place, step) in steps.iter().enumerate() {
        let next = step_after(steps, place);
        if !holds(rows, place, *step, next) {
            return Err(place);
        }
        weight += u64::from(step.weight);
    }
    if steps.is_empty() {
        return Err(0);
    }
    Ok(weight)
}
