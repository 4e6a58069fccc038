// What expressions are worth, and which cowns a `when` names.

ghost use Rattle.std.specs.Prelude.{◌≡◌, ℕ, List, Ok, map, is_ok, nat_eq, pos, slice_index, slice_index_or};
ghost use Rattle.std.specs.List.{list_any};
ghost use Rattle.boc_program.specs.memory.View.{cown_ref_of, slot_expr_of};
ghost use Rattle.boc_program.specs.Value.{then_value, value, values};
ghost use Rattle.boc_program.specs.Meaning.{as_count, cown_of, cowns_of, distinct, is_zero, member};

use boc_program::body::{CownRef, EndStatus, Expr};
use boc_program::short::CownNo;
use boc_registers::operators::{applied, negated};

/// Returns what an expression is worth where the slots have these values, or its fault. A slot that isn't there has 0.
pub(crate) fn value(expr: &Expr, slots: &[i64]) -> Result<i64, EndStatus>
    ensures { result ≡ value (slot_expr_of expr.now) slots.now }
{
    match expr {
        Expr::Number(number) => Ok(*number),
        Expr::Slot(slot) => Ok(slot_at(slots, *slot)),
        Expr::Negate(inner) => negated(value(inner, slots)?),
        Expr::Binary(operator, left, right) => {
            applied(*operator, value(left, slots)?, value(right, slots)?)
        }
    }
}

// Returns the value of a slot, or 0 where there is none.
fn slot_at(slots: &[i64], slot: usize) -> i64
    ensures { result ≡ slice_index_or slots.now slot (pos 0) }
{
    if slot < slots.len() { slots[slot] } else { 0 }
}

/// Returns the number of ticks or of turns that an expression is worth, or its fault.
pub(crate) fn count(expr: &Expr, slots: &[i64]) -> Result<u64, EndStatus>
    ensures { result ≡ then_value (value (slot_expr_of expr.now) slots.now) as_count }
{
    let number = value(expr, slots)?;
    if number < 0 {
        return Err(EndStatus::Negative);
    }
    Ok(number as u64)
}

/// Returns whether a number is 0.
pub(crate) fn is_zero(number: &i64) -> bool
    ensures { result ≡ is_zero number.now }
{
    *number == 0
}

/// Returns whether each of these expressions has a value.
pub(crate) fn have_values(exprs: &[Expr], slots: &[i64]) -> bool
    ensures { result ≡ is_ok (values (map slot_expr_of exprs.now) slots.now) }
{
    match exprs {
        [] => true,
        [first, rest @ ..] => value(first, slots).is_ok() && have_values(rest, slots),
    }
}

/// Returns whether each of these names a cown, and no two the same.
pub(crate) fn names_cowns(references: &[CownRef], held: &[CownNo], slots: &[i64]) -> bool
    ensures { (ticks : ℕ) → result ≡ is_ok (then_value
        (cowns_of (map cown_ref_of references.now) (record { held = held.now; slots = slots.now; ticks = ticks })) distinct) }
{
    match references {
        [] => true,
        [first, rest @ ..] => match cown_of(first, held, slots) {
            Ok(cown) => {
                let twice = names_cown(rest, cown, held, slots);
                names_cowns(rest, held, slots) && !twice
            }
            Err(_) => false,
        },
    }
}

// Returns whether one of these, which all name cowns, names this cown.
fn names_cown(references: &[CownRef], cown: u64, held: &[CownNo], slots: &[i64]) -> bool
    ensures { (ticks : ℕ) → (cowns : List ℕ)
        → cowns_of (map cown_ref_of references.now) (record { held = held.now; slots = slots.now; ticks = ticks }) ≡ Ok cowns
        → result ≡ list_any (λ other. nat_eq other cown) cowns }
{
    match references {
        [] => false,
        [first, rest @ ..] => match cown_of(first, held, slots) {
            Ok(other) => other == cown || names_cown(rest, cown, held, slots),
            Err(_) => false,
        },
    }
}

// Returns the cown that a reference names, or its fault. A parameter that isn't there has cown 0.
fn cown_of(reference: &CownRef, held: &[CownNo], slots: &[i64]) -> Result<u64, EndStatus>
    ensures { (ticks : ℕ) → result ≡ cown_of (cown_ref_of reference.now) (record { held = held.now; slots = slots.now; ticks = ticks }) }
{
    match reference {
        CownRef::Held(parameter) => Ok(held_at(held, *parameter)),
        CownRef::Single(cown) => Ok(u64::from(*cown)),
        CownRef::Member { first, size, index } => member(*first, *size, value(index, slots)?),
    }
}

// Returns the cown of a parameter, or 0 where there is none.
fn held_at(held: &[CownNo], parameter: usize) -> u64
    ensures { result ≡ slice_index held.now parameter }
{
    if parameter < held.len() {
        u64::from(held[parameter])
    } else {
        0
    }
}

// Returns the number of a member of an array of cowns.
fn member(first: CownNo, size: u32, index: i64) -> Result<u64, EndStatus>
    ensures { result ≡ member first size index }
{
    if 0 <= index && index < i64::from(size) {
        Ok(u64::from(first) + index as u64)
    } else {
        Err(EndStatus::OutOfRange)
    }
}
