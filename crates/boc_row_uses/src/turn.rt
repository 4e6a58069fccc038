// A behaviour that runs at once.

ghost use Rattle.std.specs.Prelude.{◌≡◌, ◌++◌, true, length, IfOk, OnOk};
ghost use Rattle.boc_program.specs.Meaning.{meaning};
ghost use Rattle.boc_program.specs.Programs.{cown_count};
ghost use Rattle.boc_runs.specs.Serial.{inputs_of as inputs_on};
ghost use Rattle.boc_eval.specs.Frames.{wishes_of};
ghost use Rattle.boc_eval.specs.Instances.{behaviour_in};
ghost use Rattle.boc_eval.specs.Queue.{BehaviourFits};
ghost use Rattle.boc_row_uses.specs.RowUses.{behaviour_uses};
ghost use Rattle.boc_row_uses.specs.InTurn.{values_after};

use crate::ordered::put_ordered;
use arrayvec::ArrayVec;
use boc_eval::{Frame, Instance, Spare};
use boc_program::limits::MOST_HELD;
use boc_program::short::Input;
use boc_registers::compiled::{CompiledBody, CompiledProgram};
use boc_runs::values::{inputs_of, write_outputs};
use boc_uses::{Use, uses_of};
use std::alloc::{AllocError, Global};

// The values of a body's cown parameters where it ends.
type Outputs = ArrayVec<i64, MOST_HELD>;

// Goes on to the end of a body.
fn go_to_end(frame: &mut Frame<'_>)
    ensures { frame.new ≡ record frame.old { made = length (wishes_of frame.old); ended = true } }
{
    while frame.go_on() {}
}

// Returns what a body leaves in its cowns, on these arguments and inputs.
fn outputs_of<'a>(
    alloc: Global,
    spare: &mut Spare<'a>,
    body: CompiledBody<'a>,
    args: &[i64],
    inputs: &[Input],
) -> Result<Outputs, AllocError>
    requires args { length args.now ≡ body.params }
    requires inputs { length inputs.now ≡ body.cown_params }
    ensures { IfOk result (λ outputs. outputs.items ≡ (meaning body.entry args.now inputs.now).outputs) }
{
    let mut frame = Frame::renewed(alloc, spare, body, args, inputs)?;
    go_to_end(&mut frame);
    let outcome = frame.into_outcome();
    let outputs = Outputs::try_from(outcome.outputs()).unwrap();
    outcome.leave(spare);
    Ok(outputs)
}

/// Runs a behaviour at once on these values, and puts its uses of its cowns after the others. `AllocError` says that memory was refused.
pub(crate) fn take_turn<'a>(
    alloc: Global,
    spare: &mut Spare<'a>,
    program: &'a CompiledProgram<'a>,
    instance: &Instance,
    values: &mut [i64],
    uses: &mut Vec<Option<Use>>,
) -> Result<(), AllocError>
    requires fits { BehaviourFits program.now (behaviour_in instance.now) }
    requires values { length values.old ≡ cown_count program.now.cowns }
    ensures long { length values.new ≡ length values.old }
    ensures values { OnOk result (values.new ≡ values_after program.now (behaviour_in instance.now) values.old) }
    ensures uses { OnOk result (uses.new.items ≡ uses.old.items
        ++ behaviour_uses program.now (behaviour_in instance.now) (inputs_on instance.now.cowns.items values.old)) }
{
    // What needs no cowns uses none, and leaves their values.
    if instance.cowns.is_empty() {
        return Ok(());
    }
    let body = program.body(instance.kind);
    let inputs = inputs_of(&instance.cowns, values);
    let own = uses_of(alloc, body.body(), &instance.args, &inputs)?;
    put_ordered(uses, &instance.cowns, &own)?;
    let outputs = outputs_of(alloc, spare, body, &instance.args, &inputs)?;
    write_outputs(values, &instance.cowns, &outputs);
    Ok(())
}
