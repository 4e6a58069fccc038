// What one statement does that has no block in it.

ghost use Rattle.std.specs.Prelude.{◌≡◌, ◌+◌, ◌<◌, ◌≤◌, ℕ, ℤ, List, IsTrue, length, map, nat_le, if◌then◌else◌, slice_set};
ghost use Rattle.boc_program.specs.declared.limits.TheConstants.{MOST_HELD, MOST_TICKS};
ghost use Rattle.boc_program.specs.memory.View.{slot_expr_of, cown_ref_of};
ghost use Rattle.boc_program.specs.Resolved.{expr_fits, every, ref_fits};
ghost use Rattle.boc_program.specs.Syntax.{Done, Assign as AssignThen, Work as WorkThen, When as WhenThen};
ghost use Rattle.boc_program.specs.Meaning.{State, as_count, cowns_held};
ghost use Rattle.boc_registers.specs.Values.{if_any};
ghost use Rattle.boc_uses.specs.Uses.{SlotUse, Using, code_uses, evaluated, paid};
ghost use Rattle.boc_uses.specs.Noting.{noted_all, noted_then, noted_with, standing};

use crate::named::{all_differ, name_all};
use crate::reading::{Reading, value_all, value_of};
use crate::uses::{Use, Way, note};
use boc_program::body::{CownRef, Expr};
use boc_program::limits::MOST_TICKS;
use boc_program::short::{Cowns, Input};

/// Counts ticks, unless that would pass the most, and returns whether it did.
#[inline(always)]
pub(crate) fn charge(count: u64, ticks: &mut u32) -> bool
    requires { ticks.old ≤ MOST_TICKS }
    ensures counts { result ≡ nat_le (ticks.old + count) MOST_TICKS }
    ensures ticks { ticks.new ≡ (if result then ticks.old + count else ticks.old) }
    ensures few { ticks.new ≤ MOST_TICKS }
{
    if count > u64::from(MOST_TICKS - *ticks) {
        return false;
    }
    *ticks += count as u32;
    true
}

/// Returns a number of ticks or turns, if it is one.
#[inline(always)]
pub(crate) fn count_of(number: i64) -> Option<u64>
    ensures { result ≡ if_any (as_count number) }
{
    u64::try_from(number).ok()
}

// Returns what an expression is worth, if no fault cuts it short, and notes what it reads at this tick.
#[inline(always)]
fn evaluate(
    expr: &Expr,
    own: Option<usize>,
    params: usize,
    slots: &[i64],
    tick: u32,
    uses: &mut [Option<Use>],
) -> Option<i64>
    requires { IsTrue (expr_fits (length slots.now) (slot_expr_of expr.now)) }
    ensures { (held : List ℕ) (go : ℤ → List SlotUse) → noted_all params uses.old (evaluated own (slot_expr_of expr.now) (standing held slots.now tick) go)
        ≡ noted_with result params uses.new go }
{
    match value_of(expr, slots, &Reading { params, tick, own }, uses) {
        Ok(value) => Some(value),
        Err(_) => None,
    }
}

/// Counts a tick, and then evaluates an expression.
#[inline(always)]
pub(crate) fn begin(
    expr: &Expr,
    own: Option<usize>,
    params: usize,
    slots: &[i64],
    ticks: &mut u32,
    uses: &mut [Option<Use>],
) -> Option<i64>
    requires fits { IsTrue (expr_fits (length slots.now) (slot_expr_of expr.now)) }
    requires ticks { ticks.old ≤ MOST_TICKS }
    ensures few { ticks.new ≤ MOST_TICKS }
    ensures used { (held : List ℕ) (go : ℤ → Using) →
        noted_all params uses.old (paid 1 (standing held slots.now ticks.old) (λ s. evaluated own (slot_expr_of expr.now) s (λ v. go v s)))
        ≡ noted_with result params uses.new (λ v. go v (standing held slots.now ticks.new)) }
{
    if !charge(1, ticks) {
        return None;
    }
    evaluate(expr, own, params, slots, *ticks, uses)
}

// Puts an item into its place.
#[inline(always)]
fn put<T: Copy>(items: &mut [T], at: usize, item: &T)
    requires { at < length items.old }
    ensures { items.new ≡ slice_set items.old at item.now }
{
    items[at] = *item;
}

/// Does an assignment, and returns whether the body goes on.
pub(crate) fn assign(
    slot: usize,
    expr: &Expr,
    params: usize,
    slots: &mut [i64],
    ticks: &mut u32,
    uses: &mut [Option<Use>],
) -> bool
    requires slot { slot < length slots.old }
    requires fits { IsTrue (expr_fits (length slots.old) (slot_expr_of expr.now)) }
    requires ticks { ticks.old ≤ MOST_TICKS }
    ensures few { ticks.new ≤ MOST_TICKS }
    ensures long { length slots.new ≡ length slots.old }
    ensures used { (held : List ℕ) (next : Using) →
        noted_all params uses.old (code_uses (AssignThen slot (slot_expr_of expr.now) Done) (standing held slots.old ticks.old) next)
        ≡ noted_then result params uses.new (next (standing held slots.new ticks.new)) }
{
    match begin(expr, Some(slot), params, slots, ticks, uses) {
        None => false,
        Some(value) => {
            put(slots, slot, &value);
            note(uses, params, slot, *ticks, Way::Writing);
            true
        }
    }
}

/// Does the ticks that an expression says, and returns whether the body goes on.
pub(crate) fn work(
    expr: &Expr,
    params: usize,
    slots: &[i64],
    ticks: &mut u32,
    uses: &mut [Option<Use>],
) -> bool
    requires fits { IsTrue (expr_fits (length slots.now) (slot_expr_of expr.now)) }
    requires ticks { ticks.old ≤ MOST_TICKS }
    ensures few { ticks.new ≤ MOST_TICKS }
    ensures used { (held : List ℕ) (next : Using) →
        noted_all params uses.old (code_uses (WorkThen (slot_expr_of expr.now) Done) (standing held slots.now ticks.old) next)
        ≡ noted_then result params uses.new (next (standing held slots.now ticks.new)) }
{
    match evaluate(expr, None, params, slots, *ticks, uses) {
        None => false,
        Some(value) => match count_of(value) {
            None => false,
            Some(count) => charge(count, ticks),
        },
    }
}

/// Evaluates the arguments of a `when` and the cowns that it names, and returns whether the body goes on.
pub(crate) fn wish(
    args: &[Expr],
    references: &[CownRef],
    inputs: &[Input],
    params: usize,
    slots: &[i64],
    ticks: &mut u32,
    uses: &mut [Option<Use>],
) -> bool
    requires few { length references.now ≤ MOST_HELD }
    requires args { IsTrue (every (map (expr_fits (length slots.now)) (map slot_expr_of args.now))) }
    requires references { IsTrue (every (map (ref_fits (record { slots = length slots.now; cowns = length inputs.now })) (map cown_ref_of references.now))) }
    requires ticks { ticks.old ≤ MOST_TICKS }
    ensures few { ticks.new ≤ MOST_TICKS }
    ensures used { (kind : ℕ) (next : Using) →
        noted_all params uses.old (code_uses (WhenThen kind (map slot_expr_of args.now) (map cown_ref_of references.now) Done)
        (standing (cowns_held inputs.now) slots.now ticks.old) next)
        ≡ noted_then result params uses.new (next (standing (cowns_held inputs.now) slots.now ticks.new)) }
{
    if !charge(1, ticks) {
        return false;
    }
    let reading = Reading {
        params,
        tick: *ticks,
        own: None,
    };
    if !value_all(args, slots, &reading, uses) {
        return false;
    }
    let mut cowns = Cowns::new();
    name_all(references, inputs, slots, &reading, uses, &mut cowns) && all_differ(&cowns)
}
