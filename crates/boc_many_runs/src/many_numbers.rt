// The numbers of many runs, and their spreads.

ghost use Rattle.std.specs.Prelude.{◌≡◌, ◌<◌, ◌≤◌, IfOk, MatchResult, length, map};
ghost use Rattle.boc_outcomes.specs.Samples.{IsAsked};
ghost use Rattle.boc_many_runs.specs.Many.{AreNumbersTold};
ghost use Rattle.boc_many_runs.specs.Passes.{HasNoRoomIn};
ghost use Rattle.boc_many_runs.specs.Runs.{AreNumbersDrawn, AreNumbersOfRuns, IsRound, manner, number_of};
ghost use Rattle.boc_many_runs.specs.Spreads.{IsSpread};

use crate::drawn::drawn_run;
use crate::first_pass::ROUND;
use crate::judging::Judging;
use crate::seen::{Numbers, Which, numbers_of};
use crate::spread::{Spread, spread_of};
use boc_draws::DrawFault;
use boc_outcomes::Asked;
use boc_progress::Progress;
use boc_registers::compiled::CompiledProgram;
use boc_remedies::Question;
use rayon::prelude::*;
use std::alloc::{AllocError, Global};
use std::thread::Threads;

/// The spread of each number of many runs. All but the first are ticks.
#[derive(Clone, Copy, PartialEq, Eq, Debug)]
pub struct Spreads {
    /// How many rows they have.
    pub rows: Spread,
    /// The ticks of all rows together.
    pub work: Spread,
    /// The ends of the earliest plans.
    pub span: Spread,
    /// The ends by which they are judged: those of the greedy plans, where a number of workers is given, else the spans.
    pub end: Spread,
    /// The ends of the eager plans, in which whatever can start does.
    pub order: Spread,
}

/// Returns one of the numbers of each run. `AllocError` says that memory was refused.
pub(crate) fn numbers_by(
    alloc: Global,
    all: &[Numbers],
    which: Which,
) -> Result<Vec<u64>, AllocError>
    ensures { IfOk result (λ numbers. numbers.items ≡ map (number_of which) all.now) }
{
    let mut numbers = Vec::with_capacity(alloc, all.len())?;
    for own in all {
        numbers.push(own.get(which))?;
    }
    Ok(numbers)
}

// Returns the spread of one of the numbers of all runs. `AllocError` says that memory was refused.
fn spread_by(alloc: Global, all: &[Numbers], which: Which) -> Result<Spread, AllocError>
    requires { 0 < length all.now }
    ensures { IfOk result (IsSpread (map (number_of which) all.now)) }
{
    Ok(spread_of(numbers_by(alloc, all, which)?))
}

/// Returns the spread of each number of some runs: of rows, work, span, end and order. `AllocError` says that memory was refused.
pub fn spreads_of(alloc: Global, all: &[Numbers]) -> Result<Spreads, AllocError>
    requires { 0 < length all.now }
    ensures { IfOk result (AreNumbersTold all.now) }
{
    Ok(Spreads {
        rows: spread_by(alloc, all, Which::Rows)?,
        work: spread_by(alloc, all, Which::Work)?,
        span: spread_by(alloc, all, Which::Span)?,
        end: spread_by(alloc, all, Which::End)?,
        order: spread_by(alloc, all, Which::Order)?,
    })
}

// Returns the numbers of the run of this number.
fn numbers_in(
    alloc: Global,
    program: &CompiledProgram<'_>,
    asked: &Asked,
    judging: &Judging<'_>,
    number: u32,
) -> Result<Numbers, DrawFault>
    requires { IsAsked asked.now }
    ensures { AreNumbersDrawn program.now asked.now (manner judging.now) number result }
{
    let run = drawn_run(alloc, program, asked, number)?;
    let question = Question {
        rows: &run.rows,
        defs: &run.defs,
        families: judging.families,
        sharing: judging.sharing,
        workers: judging.workers,
    };
    let numbers = numbers_of(alloc, &question)?;
    Ok(numbers)
}

// Returns the numbers of the runs from one number on, up to another one, in their order. Threads share them out.
fn numbers_between(
    rt: &(impl Threads + Sync),
    alloc: Global,
    program: &CompiledProgram<'_>,
    asked: &Asked,
    judging: &Judging<'_>,
    from: u32,
    to: u32,
) -> Result<Vec<Numbers>, DrawFault>
    requires asked { IsAsked asked.now }
    requires order { from ≤ to }
    ensures { IsRound (AreNumbersDrawn program.now asked.now (manner judging.now)) from to result }
{
    (from..to)
        .into_par_iter()
        .with_min_len(1)
        .map(
            |number: u32| -> Result<Numbers, DrawFault>
                requires { IsAsked asked.now }
                ensures { AreNumbersDrawn program.entry.now asked.entry.now (manner judging.entry.now) number result }
            { numbers_in(alloc, program, asked, judging, number) },
        )
        .collect::<Result<Vec<Numbers>, DrawFault>>(rt, alloc)?
}

/// Returns the numbers of each of the given number of runs, in the order of their seeds. Where a draw has no space for a behaviour, that is the answer.
///
/// Threads share out the runs, and `progress` receives after each round how many are done. Kept are 40 bytes for each run.
pub fn numbers_of_runs(
    rt: &(impl Threads + Sync),
    alloc: Global,
    program: &CompiledProgram<'_>,
    asked: &Asked,
    judging: &Judging<'_>,
    progress: &mut dyn Progress,
) -> Result<Vec<Numbers>, DrawFault>
    requires { IsAsked asked.now }
    ensures { MatchResult result (λ all. AreNumbersOfRuns program.now asked.now (manner judging.now) asked.now.runs all.items)
        (HasNoRoomIn program.now asked.now) }
{
    let runs = asked.runs as usize;
    let mut all = Vec::with_capacity(alloc, runs)?;
    let mut done = 0;
    while done < asked.runs {
        let next = asked.runs.min(done + ROUND);
        let more = numbers_between(rt, alloc, program, asked, judging, done, next)?;
        all.extend_from_slice(&more)?;
        done = next;
        progress.done(done as usize, runs);
    }
    Ok(all)
}
