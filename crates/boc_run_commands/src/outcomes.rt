// The command `outcomes`.

ghost use Rattle.std.specs.Prelude.{◌≡◌, ◌<◌, ◌≤◌, length, MatchResult};
ghost use Rattle.boc_program.specs.declared.limits.TheConstants.{MOST_TEXT};
ghost use Rattle.boc_run_commands.specs.Commands.{AnswersInput, Leaves, CountsSource, CountsSink};
ghost use Rattle.boc_run_commands.specs.OutcomesAnswers.{IsOfDraws, IsOutcomesAnswer, RefusesDraws};

use crate::fault::Fault;
use crate::values::MOST_TAKEN;
use boc_draws::way_of;
use boc_ends_report::outcomes_text;
use boc_outcomes::{Asked, outcomes_of};
use boc_progress::Progress;
use boc_reader::read_listed;
use boc_registers::compiled::CompiledProgram;
use boc_text::{Sink, Source, put_out, read_all};
use boc_words::AskedDraws;
use std::alloc::Global;
use std::thread::Threads;

/// Reads a program, draws the runs of it that are asked for, and writes the ends that they reach: how often each, and by which seed first.
///
/// A program text is refused only where it spells no program, for what is wrong with it and where, and draws only where one of them has
/// too many behaviours. Nothing is written unless the whole answer is ready. After a failing write a beginning of it went out. Threads share
/// out the draws, and `progress` receives how many are done.
pub fn outcomes_cmd<R: Threads + Sync, S: Source, W: Sink>(
    rt: &R,
    alloc: Global,
    draws: AskedDraws,
    progress: &mut dyn Progress,
    source: &mut S,
    sink: &mut W,
) -> Result<(), Fault>
    requires source { S.failures source.old < u64.MAX }
    requires sink { W.failures sink.old < u64.MAX }
    ensures written { Leaves (AnswersInput (IsOutcomesAnswer draws) (S.remaining source.old) (S.remaining source.new)) result (W.written sink.old)
        (W.written sink.new) }
    ensures refused { RefusesDraws draws result (S.remaining source.old) (S.remaining source.new) }
    ensures source { CountsSource result (S.failures source.old) (S.failures source.new) }
    ensures sink { CountsSink result (W.failures sink.old) (W.failures sink.new) }
{
    let text = read_all(alloc, source, MOST_TAKEN)?;
    let answer = outcomes_told(rt, alloc, &text, draws, progress)?;
    put_out(sink, &answer)?;
    Ok(())
}

// Returns the text of the ends that runs reach which are drawn of the program that a text spells.
fn outcomes_told<R: Threads + Sync>(
    rt: &R,
    alloc: Global,
    text: &[u8],
    draws: AskedDraws,
    progress: &mut dyn Progress,
) -> Result<Vec<u8>, Fault>
    ensures { MatchResult result (λ answer. IsOutcomesAnswer draws text.now answer.items × (length text.now ≤ MOST_TEXT)) (IsOfDraws draws text.now) }
{
    let (program, _) = read_listed(alloc, text)?;
    let workers = draws.workers.number();
    let compiled = CompiledProgram::new(alloc, &program)?;
    let way = way_of(alloc, &compiled, workers, draws.depth, progress)?;
    let asked = Asked {
        runs: draws.runs.number(),
        seed: draws.seed,
        workers,
        way,
    };
    let outcomes = outcomes_of(rt, alloc, &compiled, &asked, progress)?;
    let answer = outcomes_text(alloc, program.cowns.as_slice(), asked.runs, &outcomes)?;
    Ok(answer)
}
