// The command `compare` where it reports on many runs of two programs.

ghost use Rattle.std.specs.Prelude.{◌≡◌, ◌<◌, ◌≤◌, IfOk, MatchResult, length};
ghost use Rattle.boc_program.specs.declared.limits.TheConstants.{MOST_TEXT};
ghost use Rattle.boc_run_commands.specs.Commands.{AnswersInput, Leaves, CountsSource, CountsSink};
ghost use Rattle.boc_several_commands.specs.CompareRuns.{AreDrawn, AreRunsCompared, IsCompareRunsAnswer, IsDrawnSide, IsOfCompareRuns};
ghost use Rattle.boc_several_commands.specs.CompareRuns.{IsOfDrawing, IsOfDrawn, RefusesCompareRuns, less_count, same_count};

use crate::compare::Which;
use crate::runs_asked::{drawn_in, number_of, way_asked};
use crate::runs_text::{RunsCompared, runs_text};
use crate::why_runs::MOST_TAKEN;
use boc_many_runs::{Judging, Numbers, numbers_of_runs, spreads_of};
use boc_outcomes::Asked;
use boc_program::program::Program;
use boc_progress::Progress;
use boc_reader::read_listed;
use boc_registers::compiled::CompiledProgram;
use boc_run_commands::Fault;
use boc_text::{Sink, Source, put_out, read_all};
use boc_words::AskedRuns;
use std::alloc::{AllocError, Global};
use std::thread::Threads;

// The runs that are drawn of one of two programs.
#[derive(Drop)]
pub struct DrawnSide {
    pub asked: Asked,
    pub numbers: Vec<Numbers>,
}

/// Reads two programs, draws the runs of each that are asked for, by the same seeds, and writes how they compare. That is the least, the median and the most
/// of their numbers, by how much the median end changes by which they are judged, and for how many seeds it is less or the same.
///
/// The source gives the first program, and the bytes are those of the second. Each is refused as by `why` for many runs, the second only where the first is
/// not, and `which` says which of the two a refusal is of. Nothing is written unless the whole answer is ready. After a failing write a beginning of it went
/// out. Threads share out the runs, and `progress` receives how many of a program are done.
pub fn compare_runs_cmd<R: Threads + Sync, S: Source, W: Sink>(
    rt: &R,
    alloc: Global,
    asked: AskedRuns,
    after: &[u8],
    progress: &mut dyn Progress,
    which: &mut Which,
    source: &mut S,
    sink: &mut W,
) -> Result<(), Fault>
    requires source { S.failures source.old < u64.MAX }
    requires sink { W.failures sink.old < u64.MAX }
    ensures written { Leaves (AnswersInput (IsCompareRunsAnswer asked after.now) (S.remaining source.old) (S.remaining source.new)) result
        (W.written sink.old) (W.written sink.new) }
    ensures refused { RefusesCompareRuns asked after.now which.new result (S.remaining source.old) (S.remaining source.new) }
    ensures source { CountsSource result (S.failures source.old) (S.failures source.new) }
    ensures sink { CountsSink result (W.failures sink.old) (W.failures sink.new) }
{
    let text = read_all(alloc, source, MOST_TAKEN)?;
    let answer = runs_compared(rt, alloc, &text, asked, after, progress, which)?;
    put_out(sink, &answer)?;
    Ok(())
}

// Returns the text of how the runs of two programs compare.
fn runs_compared<R: Threads + Sync>(
    rt: &R,
    alloc: Global,
    text: &[u8],
    asked: AskedRuns,
    after: &[u8],
    progress: &mut dyn Progress,
    which: &mut Which,
) -> Result<Vec<u8>, Fault>
    ensures { MatchResult result (λ answer. IsCompareRunsAnswer asked after.now text.now answer.items × (length text.now ≤ MOST_TEXT))
        (IsOfCompareRuns asked after.now text.now which.new) }
{
    *which = Which::Before;
    let before = drawn_side(rt, alloc, text, &asked, progress)?;
    *which = Which::After;
    let after = drawn_side(rt, alloc, after, &asked, progress)?;
    let answer = told_of(alloc, &asked, &before, &after)?;
    Ok(answer)
}

// Returns the runs that are drawn of the program which a text spells.
fn drawn_side<R: Threads + Sync>(
    rt: &R,
    alloc: Global,
    text: &[u8],
    asked: &AskedRuns,
    progress: &mut dyn Progress,
) -> Result<DrawnSide, Fault>
    ensures drawn { MatchResult result (λ side. IsDrawnSide asked.now text.now side × (length text.now ≤ MOST_TEXT)) (IsOfDrawn asked.now text.now) }
    ensures some { IfOk result (λ side. 0 < length side.numbers.items) }
{
    let (program, _) = read_listed(alloc, text)?;
    drawn_of(rt, alloc, &program, asked, progress)
}

// Returns the runs that are drawn of a program.
fn drawn_of<R: Threads + Sync>(
    rt: &R,
    alloc: Global,
    program: &Program,
    asked: &AskedRuns,
    progress: &mut dyn Progress,
) -> Result<DrawnSide, Fault>
    ensures drawn { MatchResult result (AreDrawn program.now asked.now) (IsOfDrawing program.now asked.now) }
    ensures some { IfOk result (λ side. 0 < length side.numbers.items) }
{
    let compiled = CompiledProgram::new(alloc, program)?;
    let way = way_asked(alloc, &compiled, asked.draws, progress)?;
    let draws = drawn_in(asked.draws, way);
    let judging = Judging {
        families: &[],
        sharing: asked.sharing,
        workers: asked.workers,
    };
    let numbers = numbers_of_runs(rt, alloc, &compiled, &draws, &judging, progress)?;
    Ok(DrawnSide {
        asked: draws,
        numbers,
    })
}

// Returns for how many seeds the end by which runs are judged is less after than before, and for how many it is the same.
fn counts_of(before: &[Numbers], after: &[Numbers]) -> (u64, u64)
    requires { length before.now ≡ length after.now }
    ensures less { result.0 ≡ less_count before.now after.now }
    ensures same { result.1 ≡ same_count before.now after.now }
{
    let mut less: u64 = 0;
    let mut same: u64 = 0;
    for (place, was) in before.iter().enumerate() {
        let now = after[place];
        if now.end < was.end {
            less += 1;
        } else if now.end == was.end {
            same += 1;
        }
    }
    (less, same)
}

// Returns how the runs of two programs compare, as a text.
fn told_of(
    alloc: Global,
    asked: &AskedRuns,
    before: &DrawnSide,
    after: &DrawnSide,
) -> Result<Vec<u8>, AllocError>
    requires some { 0 < length before.now.numbers.items }
    requires both { length before.now.numbers.items ≡ length after.now.numbers.items }
    ensures { IfOk result (λ text. AreRunsCompared asked.now before.now after.now text.items) }
{
    let was = before.numbers.as_slice();
    let now = after.numbers.as_slice();
    let (less, same) = counts_of(was, now);
    let told = RunsCompared {
        asked: before.asked,
        plan_workers: number_of(asked.workers),
        before: spreads_of(alloc, was)?,
        after: spreads_of(alloc, now)?,
        less,
        same,
    };
    runs_text(alloc, &told)
}
