// What expressions are worth, and the uses that they make.

ghost use Rattle.std.specs.Prelude.{◌≡◌, IsTrue, length, map};
ghost use Rattle.boc_program.specs.memory.View.{slot_expr_of};
ghost use Rattle.boc_program.specs.Resolved.{expr_fits, every};
ghost use Rattle.boc_program.specs.Value.{value as value_spec, values};
ghost use Rattle.boc_uses.specs.Uses.{all_slots_read, reads, slots_read};
ghost use Rattle.boc_uses.specs.Noting.{has_value, noted_all};

use crate::uses::{Use, note, way_of};
use boc_program::body::{EndStatus, Expr};
use boc_registers::operators::{applied, negated};

/// How a statement reads: the number of value parameters, which come before the cown parameters, the tick, and the slot that it assigns to, if any.
#[derive(Clone, Copy, Debug)]
pub(crate) struct Reading {
    pub params: usize,
    pub tick: u32,
    pub own: Option<usize>,
}

/// Returns what an expression is worth, and notes what it reads until then.
pub(crate) fn value_of(
    expr: &Expr,
    slots: &[i64],
    reading: &Reading,
    uses: &mut [Option<Use>],
) -> Result<i64, EndStatus>
    requires { IsTrue (expr_fits (length slots.now) (slot_expr_of expr.now)) }
    ensures value { result ≡ value_spec (slot_expr_of expr.now) slots.now }
    ensures uses { uses.new ≡ noted_all reading.now.params uses.old (reads reading.now.tick reading.now.own (slots_read (slot_expr_of expr.now) slots.now)) }
{
    match expr {
        Expr::Number(number) => Ok(*number),
        Expr::Slot(slot) => {
            note(
                uses,
                reading.params,
                *slot,
                reading.tick,
                way_of(reading.own, *slot),
            );
            Ok(slots[*slot])
        }
        Expr::Negate(inner) => negated(value_of(inner, slots, reading, uses)?),
        Expr::Binary(operator, left, right) => {
            let left = value_of(left, slots, reading, uses)?;
            let right = value_of(right, slots, reading, uses)?;
            applied(*operator, left, right)
        }
    }
}

/// Evaluates expressions from left to right, notes what they read, and returns whether each has a value.
pub(crate) fn value_all(
    exprs: &[Expr],
    slots: &[i64],
    reading: &Reading,
    uses: &mut [Option<Use>],
) -> bool
    requires { IsTrue (every (map (expr_fits (length slots.now)) (map slot_expr_of exprs.now))) }
    ensures value { result ≡ has_value (values (map slot_expr_of exprs.now) slots.now) }
    ensures uses { uses.new ≡ noted_all reading.now.params uses.old
        (reads reading.now.tick reading.now.own (all_slots_read (map slot_expr_of exprs.now) slots.now)) }
{
    match exprs {
        [] => true,
        [first, rest @ ..] => match value_of(first, slots, reading, uses) {
            Ok(_) => value_all(rest, slots, reading, uses),
            Err(_) => false,
        },
    }
}
