// What many runs say.

ghost use Rattle.std.specs.Prelude.{◌≡◌, ◌<◌, ◌≤◌, All, IfOk, length};
ghost use Rattle.boc_program.specs.declared.limits.TheConstants.{MOST_COWNS};
ghost use Rattle.boc_outcomes.specs.Samples.{IsAsked};
ghost use Rattle.boc_many_runs.specs.declared.counted.TheConstants.{MOST_JUDGED};
ghost use Rattle.boc_many_runs.specs.Many.{AnswersMany, IsToldOf};
ghost use Rattle.boc_many_runs.specs.Runs.{manner};

use crate::bins::{Bin, bins_of};
use crate::columns::Column;
use crate::counted::most_tried;
use crate::first_pass::first_pass;
use crate::judging::Judging;
use crate::lines::{Line, lines_of};
use crate::many_numbers::{Spreads, numbers_by, spreads_of};
use crate::second_pass::second_pass;
use crate::seen::{Numbers, Which};
use crate::single::single_span;
use boc_draws::DrawFault;
use boc_outcomes::Asked;
use boc_progress::Progress;
use boc_registers::compiled::CompiledProgram;
use boc_remedies::Remedy;
use std::alloc::{AllocError, Global};
use std::thread::Threads;

/// What many runs say. All times are ticks.
#[derive(Drop, Debug)]
pub struct ManyRuns {
    /// How many runs there are.
    pub runs: u32,
    /// The spread of each of their numbers.
    pub spreads: Spreads,
    /// The span of the run with one worker.
    pub single: u64,
    /// A histogram of the ends by which they are judged.
    pub bins: Vec<Bin>,
    /// What each remedy saves that is reported, in their order.
    pub lines: Vec<Line>,
}

// Returns what runs with these numbers say, where each remedy saves what its column has. `AllocError` says that memory was refused.
fn told_of(
    alloc: Global,
    runs: u32,
    numbers: &[Numbers],
    remedies: &[Remedy],
    columns: &[Column],
    single: u64,
) -> Result<ManyRuns, AllocError>
    requires all { length numbers.now ≡ runs }
    requires some { 0 < runs }
    requires whole { length columns.now ≡ length remedies.now }
    requires few { length remedies.now ≤ MOST_JUDGED }
    requires long { All (λ column. length column ≡ runs) columns.now }
    ensures told { IfOk result (IsToldOf runs numbers.now remedies.now columns.now) }
    ensures single { IfOk result (λ many. many.single ≡ single) }
{
    let spreads = spreads_of(alloc, numbers)?;
    let ends = numbers_by(alloc, numbers, Which::End)?;
    let bins = bins_of(alloc, &ends, spreads.end.least, spreads.end.most)?;
    let lines = lines_of(alloc, remedies, columns, runs as usize)?;
    Ok(ManyRuns {
        runs,
        spreads,
        single,
        bins,
        lines,
    })
}

/// Returns what many runs of a program say that seeds draw: the spread of their numbers, a histogram of the ends by which they are judged, and what each
/// remedy saves in all of them that is tried in one. Of these the first 60 are judged, those that most runs try first. Each is planned again in each run. The
/// span of the run with one worker is reported with them. Where a draw has no space for a behaviour, that is the answer.
///
/// Threads share out the runs, which are drawn twice, and `progress` receives after each round how many are done. What is kept grows with the number of
/// different remedies. For each run it has 56 bytes more, and eight for each remedy that is judged.
pub fn many_runs(
    rt: &(impl Threads + Sync),
    alloc: Global,
    program: &CompiledProgram<'_>,
    asked: &Asked,
    judging: &Judging<'_>,
    progress: &mut dyn Progress,
) -> Result<ManyRuns, DrawFault>
    requires asked { IsAsked asked.now }
    requires few { length judging.now.families.now ≤ MOST_COWNS }
    requires few_families { All (λ f. f < MOST_COWNS) judging.now.families.now }
    ensures { AnswersMany program.now asked.now (manner judging.now) result }
{
    let single = single_span(alloc, program, judging.sharing)?;
    let pass = first_pass(rt, alloc, program, asked, judging, progress)?;
    let remedies = most_tried(alloc, &pass.counted)?;
    let columns = second_pass(rt, alloc, program, asked, judging, &remedies, progress)?;
    let many = told_of(
        alloc,
        asked.runs,
        &pass.numbers,
        &remedies,
        &columns,
        single,
    )?;
    Ok(many)
}
