// Many draws, round by round.

ghost use Rattle.std.specs.Prelude.{◌<◌, ◌≤◌};
ghost use Rattle.boc_outcomes.specs.Samples.{IsAsked};
ghost use Rattle.boc_outcomes.specs.Tallies.{AnswersAsked};

use crate::asked::Asked;
use crate::sampling::sampled_between;
use crate::tally::{Outcomes, Tally};
use boc_draws::DrawFault;
use boc_progress::Progress;
use boc_registers::compiled::CompiledProgram;
use std::alloc::Global;
use std::thread::Threads;

// The most draws of a round. Threads share out the draws of a round. Then what they reached is added to the tally, and the number of draws that are done
// is reported.
const ROUND: u32 = 2_048;

// Returns the number of draws that are done after the next round. The first round is one draw, and each has twice as many as the last one up to `ROUND`.
// So a program of which each run is refused takes one run to be refused.
fn round_end(done: u32, runs: u32) -> u32
    requires { done < runs }
    ensures after { done < result }
    ensures within { result ≤ runs }
{
    let most = if done < ROUND { done + 1 } else { ROUND };
    let left = runs - done;
    done + most.min(left)
}

/// Returns the ends that a program reaches in the given number of draws: the most frequent first, and of those that are as frequent the one that came first.
/// After each round of draws the number of draws that are done is reported. If a draw has no space for a behaviour, that is the answer, and the draws of
/// further rounds are not made.
///
/// Threads share out the draws. Each takes as much memory as a run, and what is kept grows with the number of different ends.
pub fn outcomes_of(
    rt: &(impl Threads + Sync),
    alloc: Global,
    program: &CompiledProgram<'_>,
    asked: &Asked,
    progress: &mut dyn Progress,
) -> Result<Outcomes, DrawFault>
    requires { IsAsked asked.now }
    ensures { AnswersAsked program.now asked.now result }
{
    let mut tally = Tally::new(alloc);
    let mut done = 0;
    while done < asked.runs {
        let next = round_end(done, asked.runs);
        let all = sampled_between(rt, alloc, program, asked, done, next)?;
        tally.add_all(alloc, asked, done, &all)?;
        done = next;
        progress.done(done as usize, asked.runs as usize);
    }
    Ok(tally.in_order())
}
