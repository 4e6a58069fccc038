//! The values of cowns: at the start of a program, as a behaviour starts, and as it ends.

ghost use Rattle.std.specs.Prelude.{◌≡◌, ◌≤◌, length, IfOk};
ghost use Rattle.boc_program.specs.declared.limits.TheConstants.{MOST_COWNS, MOST_HELD};
ghost use Rattle.boc_program.specs.Programs.{cown_count, initial_values as initial};
ghost use Rattle.boc_program.specs.Signatures.{AllBelow};
ghost use Rattle.boc_runs.specs.Serial.{after_outputs, inputs_of as inputs};

use boc_program::cown::Cown;
use boc_program::short::{CownNo, Input, Inputs};
use std::alloc::{AllocError, Global};

/// Returns the values of a program's cowns at the start, in the order of their numbers.
pub fn initial_values(alloc: Global, cowns: &[Cown]) -> Result<Vec<i64>, AllocError>
    requires { cown_count cowns.now ≤ MOST_COWNS }
    ensures { IfOk result (λ v. v.items ≡ initial cowns.now) }
{
    let mut values = Vec::new(alloc);
    for cown in cowns {
        let end = values.len() + cown.members();
        values.resize(end, cown.initial)?;
    }
    Ok(values)
}

/// Returns the cowns of a behaviour with their current values.
pub fn inputs_of(cowns: &[CownNo], values: &[i64]) -> Inputs
    requires few { length cowns.now ≤ MOST_HELD }
    requires below { AllBelow (length values.now) cowns.now }
    ensures { result.items ≡ inputs cowns.now values.now }
{
    let mut inputs = Inputs::new();
    for cown in cowns {
        inputs.push(Input {
            cown: *cown,
            value: values[*cown as usize],
        });
    }
    inputs
}

/// Writes a behaviour's outputs to its cowns, each to its own.
pub fn write_outputs(values: &mut [i64], cowns: &[CownNo], outputs: &[i64])
    requires below { AllBelow (length values.old) cowns.now }
    requires both { length cowns.now ≡ length outputs.now }
    ensures { values.new ≡ after_outputs values.old cowns.now outputs.now }
{
    for (i, cown) in cowns.iter().enumerate() {
        values[*cown as usize] = outputs[i];
    }
}
