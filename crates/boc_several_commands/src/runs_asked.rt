// Which runs of a program are drawn.

ghost use Rattle.std.specs.Prelude.{◌≡◌};
ghost use Rattle.boc_draws.specs.Ways.{AnswersWay};
ghost use Rattle.boc_outcomes.specs.Samples.{IsAsked};
ghost use Rattle.boc_run_commands.specs.OutcomesAnswers.{drawn_in};

use boc_draws::{DrawFault, Way, way_of};
use boc_outcomes::Asked;
use boc_program::count::Workers;
use boc_progress::Progress;
use boc_registers::compiled::CompiledProgram;
use boc_words::AskedDraws;
use std::alloc::Global;

/// Returns the way in which workers are picked in the runs that are requested. Where the draw that counts the steps for it ends by a fault, that is the answer.
pub(crate) fn way_asked(
    alloc: Global,
    program: &CompiledProgram<'_>,
    draws: AskedDraws,
    progress: &mut dyn Progress,
) -> Result<Way, DrawFault>
    ensures { AnswersWay program.now draws.workers draws.depth result }
{
    way_of(
        alloc,
        program,
        draws.workers.number(),
        draws.depth,
        progress,
    )
}

/// Returns the runs that are requested, drawn in this way.
pub(crate) fn drawn_in(draws: AskedDraws, way: Way) -> Asked
    ensures asked { IsAsked result }
    ensures is { result ≡ drawn_in draws way }
{
    Asked {
        runs: draws.runs.number(),
        seed: draws.seed,
        workers: draws.workers.number(),
        way,
    }
}

/// Returns how many workers there are, where a number of these is given.
pub(crate) fn number_of(workers: Option<Workers>) -> Option<u32>
    ensures { result ≡ workers }
{
    match workers {
        Some(workers) => Some(workers.number()),
        None => None,
    }
}
