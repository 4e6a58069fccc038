// The way in which the workers of a program's draws are picked.

ghost use Rattle.std.specs.Prelude.{◌≤◌};
ghost use Rattle.boc_program.specs.declared.limits.TheConstants.{MOST_RUNNERS};
ghost use Rattle.boc_draws.specs.Ways.{AnswersWay};

use crate::drawing::draw;
use crate::fault::DrawFault;
use crate::way::Way;
use boc_dispatch::Tell;
use boc_program::count::Depth;
use boc_progress::Progress;
use boc_registers::compiled::CompiledProgram;
use std::alloc::Global;

/// Returns the way in which this many workers of a program are picked: at random among all that can move; or, where a depth is given, by random
/// priorities of this depth, with falls before as many steps as these workers make when they are picked at random among all by the seed 0. So the way is a
/// function of the program, the workers and the depth, and a seed repeats its run by them. Where that draw ends by a fault, that is the answer.
/// `progress` receives that draw's steps.
pub fn way_of(
    alloc: Global,
    program: &CompiledProgram<'_>,
    workers: u32,
    depth: Option<Depth>,
    progress: &mut dyn Progress,
) -> Result<Way, DrawFault>
    requires { (1 ≤ workers) × (workers ≤ MOST_RUNNERS) }
    ensures { AnswersWay program.now workers depth result }
{
    let Some(depth) = depth else {
        return Ok(Way::Uniform);
    };
    let drawn = draw(
        alloc,
        program,
        workers,
        Way::Uniform,
        0,
        Tell::Nothing,
        progress,
    )?;
    Ok(Way::Priorities {
        depth,
        steps: drawn.steps,
    })
}
