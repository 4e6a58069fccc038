// What is known of expressions where some slots are known.

ghost use Rattle.std.specs.Prelude.{◌≡◌, IfOk, slice_set};
ghost use Rattle.boc_program.specs.memory.View.{slot_expr_of};
ghost use Rattle.boc_sharp_footprints.specs.Known.{
  known as known_spec,
  known_at,
  known_at_start as known_at_start_spec,
  may_fail as may_fail_spec,
  may_hold as may_hold_spec,
};

use boc_program::body::Expr;
use boc_registers::operators::{applied, negated};
use std::alloc::{AllocError, Global};

// Returns what is known of a slot.
fn known_slot(slots: &[Option<i64>], slot: usize) -> Option<i64>
    ensures { result ≡ known_at slots.now slot }
{
    if slot < slots.len() {
        slots[slot]
    } else {
        None
    }
}

/// Returns what is known of the value of an expression.
pub(crate) fn known(expr: &Expr, slots: &[Option<i64>]) -> Option<i64>
    ensures { result ≡ known_spec (slot_expr_of expr.now) slots.now }
{
    match expr {
        Expr::Number(number) => Some(*number),
        Expr::Slot(slot) => known_slot(slots, *slot),
        Expr::Negate(inner) => negated(known(inner, slots)?).ok(),
        Expr::Binary(operator, left, right) => {
            applied(*operator, known(left, slots)?, known(right, slots)?).ok()
        }
    }
}

/// Returns whether a condition may hold, where this is known of its value.
pub(crate) fn may_hold(value: Option<i64>) -> bool
    ensures { result ≡ may_hold_spec value }
{
    match value {
        None => true,
        Some(number) => number != 0,
    }
}

/// Returns whether a condition may fail, where this is known of its value.
pub(crate) fn may_fail(value: Option<i64>) -> bool
    ensures { result ≡ may_fail_spec value }
{
    match value {
        None => true,
        Some(number) => number == 0,
    }
}

/// Sets what is known of a slot, if it is there.
pub(crate) fn set_known(slots: &mut [Option<i64>], slot: usize, value: Option<i64>)
    ensures { slots.new ≡ slice_set slots.old slot value }
{
    if slot < slots.len() {
        slots[slot] = value;
    }
}

/// Returns what is known as a body starts: of its slots only this one is.
pub(crate) fn known_at_start(
    alloc: Global,
    slots: usize,
    place: usize,
    value: u32,
) -> Result<Vec<Option<i64>>, AllocError>
    ensures { IfOk result (λ known. known.items ≡ known_at_start_spec slots place value) }
{
    let mut known = vec![in alloc; None; slots]?;
    set_known(&mut known, place, Some(i64::from(value)));
    Ok(known)
}
