// A behaviour that runs at once on the values of the cowns.

ghost use Rattle.std.specs.Prelude.{◌≡◌, false, true, length, map, IfOk, OnOk};
ghost use Rattle.boc_program.specs.Meaning.{meaning};
ghost use Rattle.boc_program.specs.Programs.{cown_count};
ghost use Rattle.boc_runs.specs.Serial.{after_outputs};
ghost use Rattle.boc_eval.specs.Frames.{wishes_of as all_wishes};
ghost use Rattle.boc_eval.specs.Queue.{BehaviourFits};
ghost use Rattle.boc_eval.specs.Wishes.{wish_of};
ghost use Rattle.boc_front_rows.specs.Lists.{wished};
ghost use Rattle.boc_all_ends.specs.Runs.{meant_at};

use arrayvec::ArrayVec;
use boc_eval::{Frame, Spare, SpawnWish, Stop};
use boc_front_rows::Wished;
use boc_program::limits::MOST_HELD;
use boc_program::short::Input;
use boc_registers::compiled::{CompiledBody, CompiledProgram};
use boc_runs::values::{inputs_of, write_outputs};
use std::alloc::{AllocError, Global};

// The wishes of a body that has ended, and the values of its cown parameters there.
#[derive(Drop)]
struct Ended {
    wishes: Vec<SpawnWish>,
    outputs: ArrayVec<i64, MOST_HELD>,
}

// Returns the wishes of a body that is at its start, which then has ended.
fn wishes_of(alloc: Global, frame: &mut Frame<'_>) -> Result<Vec<SpawnWish>, AllocError>
    requires fresh { frame.old.made ≡ 0 }
    requires begun { frame.old.ended ≡ false }
    ensures wishes { IfOk result (λ wishes. map wish_of wishes.items ≡ all_wishes frame.old) }
    ensures ended { OnOk result (frame.new ≡ record frame.old { made = length (all_wishes frame.old); ended = true }) }
{
    let mut wishes = Vec::new(alloc);
    while let Stop::Wants(wish) = frame.run() {
        wishes.push(wish)?;
    }
    Ok(wishes)
}

// Runs a body on these arguments and inputs.
fn run_body<'a>(
    alloc: Global,
    spare: &mut Spare<'a>,
    body: CompiledBody<'a>,
    args: &[i64],
    inputs: &[Input],
) -> Result<Ended, AllocError>
    requires args { length args.now ≡ body.params }
    requires inputs { length inputs.now ≡ body.cown_params }
    ensures wishes { IfOk result (λ end. map wish_of end.wishes.items ≡ (meaning body.entry args.now inputs.now).wishes) }
    ensures outputs { IfOk result (λ end. end.outputs.items ≡ (meaning body.entry args.now inputs.now).outputs) }
{
    let mut frame = Frame::renewed(alloc, spare, body, args, inputs)?;
    let wishes = wishes_of(alloc, &mut frame)?;
    let outcome = frame.into_outcome();
    let outputs = ArrayVec::try_from(outcome.outputs()).unwrap();
    outcome.leave(spare);
    Ok(Ended { wishes, outputs })
}

/// Runs a behaviour at once on the values of the cowns, writes its outputs to them, and returns its wishes in their order.
pub fn run_at_once<'a>(
    alloc: Global,
    program: &'a CompiledProgram<'a>,
    spare: &mut Spare<'a>,
    behaviour: &Wished,
    values: &mut [i64],
) -> Result<Vec<SpawnWish>, AllocError>
    requires fits { BehaviourFits program.now (wished behaviour.now) }
    requires long { length values.old ≡ cown_count program.now.cowns }
    ensures wishes { IfOk result (λ ws. map wish_of ws.items ≡ (meant_at program.now (wished behaviour.now) values.old).wishes) }
    ensures values { OnOk result (values.new ≡ after_outputs values.old behaviour.now.cowns.items
        (meant_at program.now (wished behaviour.now) values.old).outputs) }
{
    let inputs = inputs_of(&behaviour.cowns, values);
    let body = program.body(behaviour.kind);
    let Ended { wishes, outputs } = run_body(alloc, spare, body, &behaviour.args, &inputs)?;
    write_outputs(values, &behaviour.cowns, &outputs);
    Ok(wishes)
}
