// What an evaluation starts with.

ghost use Rattle.std.specs.Prelude.{◌≡◌, ◌+◌, ◌-◌, ◌≤◌, ◌++◌, IfOk, OnOk, None, length, pos, replicate};
ghost use Rattle.boc_program.specs.declared.limits.TheConstants.{MOST_HELD};
ghost use Rattle.boc_program.specs.Meaning.{start_slots as start_slots_spec, values_held};

use crate::uses::Uses;
use boc_program::short::Input;
use std::alloc::{AllocError, Global};

// Puts the values of inputs after the others.
fn push_values(slots: &mut Vec<i64>, inputs: &[Input]) -> Result<(), AllocError>
    ensures { OnOk result (slots.new.items ≡ slots.old.items ++ values_held inputs.now) }
{
    for input in inputs {
        slots.push(input.value)?;
    }
    Ok(())
}

// Puts this many zeros after the others.
#[tactic(auto, using(crate::proofs::Growing::then_one_more))]
fn push_zeros(slots: &mut Vec<i64>, count: usize) -> Result<(), AllocError>
    ensures { OnOk result (slots.new.items ≡ slots.old.items ++ replicate count (pos 0)) }
{
    for _ in 0..count {
        slots.push(0)?;
    }
    Ok(())
}

/// Returns the slots of a body at its start. Fails only where memory runs out.
pub(crate) fn start_slots(
    alloc: Global,
    args: &[i64],
    inputs: &[Input],
    slots: usize,
) -> Result<Vec<i64>, AllocError>
    requires { length args.now + length inputs.now ≤ slots }
    ensures { IfOk result (λ values. values.items ≡ start_slots_spec args.now (values_held inputs.now) slots) }
{
    let mut values = Vec::new(alloc);
    values.extend_from_slice(args)?;
    push_values(&mut values, inputs)?;
    push_zeros(&mut values, slots - args.len() - inputs.len())?;
    Ok(values)
}

/// Returns that none of this many cowns is used yet.
#[tactic(auto, using(crate::proofs::Growing::replicate_more))]
pub(crate) fn unused(count: usize) -> Uses
    requires { count ≤ MOST_HELD }
    ensures { result.items ≡ replicate count None }
{
    let mut uses = Uses::new();
    for _ in 0..count {
        uses.push(None);
    }
    uses
}
