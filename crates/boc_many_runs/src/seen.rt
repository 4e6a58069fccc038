// The numbers of each run, and what is tried in it.

ghost use Rattle.std.specs.Prelude.{◌≡◌, ◌<◌, ◌≤◌, All, IfOk, IfSome, length};
ghost use Rattle.boc_program.specs.declared.limits.TheConstants.{MOST_COWNS, MOST_ROWS};
ghost use Rattle.boc_remedies.specs.Questions.{asked as asked_by};
ghost use Rattle.boc_remedies.specs.Steps.{IsGreedyAsked};
ghost use Rattle.boc_outcomes.specs.Samples.{IsAsked};
ghost use Rattle.boc_many_runs.specs.Runs.{AreNumbersOf, AreTriedIn, IsRound, IsSeen, manner};

use crate::drawn::drawn_run;
use crate::judging::Judging;
use boc_draws::DrawFault;
use boc_eager::eager_plan;
use boc_order::work;
use boc_outcomes::Asked;
use boc_registers::compiled::CompiledProgram;
use boc_remedies::{GreedyWhy, Question, Remedy, ends_of, greedy_why_of, remedies_for, routes_of};
use boc_why::why_of;
use rayon::prelude::*;
use std::alloc::{AllocError, Global};
use std::thread::Threads;

/// The numbers of a run. All but the first are ticks.
#[derive(Clone, Copy, PartialEq, Eq, Debug)]
pub struct Numbers {
    /// How many rows there are.
    pub rows: u64,
    /// The ticks of all rows together.
    pub work: u64,
    /// The end of the earliest plan.
    pub span: u64,
    /// The end by which the run is judged: that of the greedy plan, where a number of workers is given, else the span.
    pub end: u64,
    /// The end of the eager plan, in which whatever can start does.
    pub order: u64,
}

/// One of the numbers of a run.
#[derive(Clone, Copy, PartialEq, Eq, Debug)]
pub(crate) enum Which {
    Rows,
    Work,
    Span,
    End,
    Order,
}

impl Numbers {
    ghost use Rattle.boc_many_runs.specs.Runs.{number_of};

    /// Returns one of the numbers.
    pub(crate) fn get(&self, which: Which) -> u64
        ensures { result ≡ number_of which self.now }
    {
        match which {
            Which::Rows => self.rows,
            Which::Work => self.work,
            Which::Span => self.span,
            Which::End => self.end,
            Which::Order => self.order,
        }
    }
}

/// The numbers of a run, and what is tried in it.
#[derive(Drop)]
pub(crate) struct Seen {
    pub numbers: Numbers,
    pub tried: Vec<Remedy>,
}

/// Returns the numbers of a run. `AllocError` says that memory was refused.
pub(crate) fn numbers_of(alloc: Global, question: &Question<'_>) -> Result<Numbers, AllocError>
    ensures { IfOk result (AreNumbersOf (asked_by question.now)) }
{
    let rows = question.rows.as_slice();
    let ends = ends_of(alloc, question.rows, question.sharing, question.workers)?;
    let eager = eager_plan(alloc, question.rows, question.sharing)?;
    Ok(Numbers {
        rows: rows.len() as u64,
        work: work(rows),
        span: ends.span,
        end: ends.judged(),
        order: eager.end,
    })
}

// Returns why the greedy plan of a run takes as long as it does, where a number of workers is given. `AllocError` says that memory was refused.
fn greedy_asked(alloc: Global, question: &Question<'_>) -> Result<Option<GreedyWhy>, AllocError>
    requires defs { length question.now.defs.now ≡ length question.now.rows.now }
    requires few_defs { All (λ d. d < MOST_ROWS) question.now.defs.now }
    ensures asked { IfOk result (IsGreedyAsked (asked_by question.now) question.now.workers) }
    ensures few { IfOk result (λ greedy. IfSome greedy (λ g. (length g.links.items ≡ length g.steps.items) × (length g.steps.items ≤ MOST_ROWS))) }
{
    let Question {
        rows,
        defs,
        sharing,
        workers,
        ..
    } = *question;
    match workers {
        Some(workers) => Ok(Some(greedy_why_of(alloc, rows, sharing, defs, workers)?)),
        None => Ok(None),
    }
}

// Returns what is tried in a run: what is tried for its chains. `AllocError` says that memory was refused.
fn tried_in(alloc: Global, question: &Question<'_>) -> Result<Vec<Remedy>, AllocError>
    requires defs { length question.now.defs.now ≡ length question.now.rows.now }
    requires few_defs { All (λ d. d < MOST_ROWS) question.now.defs.now }
    requires few { length question.now.families.now ≤ MOST_COWNS }
    requires few_families { All (λ f. f < MOST_COWNS) question.now.families.now }
    ensures { IfOk result (λ all. AreTriedIn (asked_by question.now) all.items) }
{
    let Question {
        rows,
        defs,
        families,
        sharing,
        ..
    } = *question;
    let why = why_of(alloc, rows, sharing, defs, families.len())?;
    let greedy = greedy_asked(alloc, question)?;
    let routes = routes_of(alloc, &why, &greedy, families)?;
    remedies_for(alloc, &routes, families)
}

// Returns the numbers of the run of this number, and what is tried in it.
fn seen_of(
    alloc: Global,
    program: &CompiledProgram<'_>,
    asked: &Asked,
    judging: &Judging<'_>,
    number: u32,
) -> Result<Seen, DrawFault>
    requires asked { IsAsked asked.now }
    requires few { length judging.now.families.now ≤ MOST_COWNS }
    requires few_families { All (λ f. f < MOST_COWNS) judging.now.families.now }
    ensures { IsSeen program.now asked.now (manner judging.now) number result }
{
    let run = drawn_run(alloc, program, asked, number)?;
    let question = Question {
        rows: &run.rows,
        defs: &run.defs,
        families: judging.families,
        sharing: judging.sharing,
        workers: judging.workers,
    };
    let numbers = numbers_of(alloc, &question)?;
    let tried = tried_in(alloc, &question)?;
    Ok(Seen { numbers, tried })
}

/// Returns the numbers of the runs from one number on, up to another one, and what is tried in each, in their order. Threads share them out.
pub(crate) fn seen_between(
    rt: &(impl Threads + Sync),
    alloc: Global,
    program: &CompiledProgram<'_>,
    asked: &Asked,
    judging: &Judging<'_>,
    from: u32,
    to: u32,
) -> Result<Vec<Seen>, DrawFault>
    requires asked { IsAsked asked.now }
    requires few { length judging.now.families.now ≤ MOST_COWNS }
    requires few_families { All (λ f. f < MOST_COWNS) judging.now.families.now }
    requires order { from ≤ to }
    ensures { IsRound (IsSeen program.now asked.now (manner judging.now)) from to result }
{
    (from..to)
        .into_par_iter()
        .with_min_len(1)
        .map(
            |number: u32| -> Result<Seen, DrawFault>
                requires { IsAsked asked.now × (length judging.now.families.now ≤ MOST_COWNS) × All (λ f. f < MOST_COWNS) judging.now.families.now }
                ensures { IsSeen program.entry.now asked.entry.now (manner judging.entry.now) number result }
            { seen_of(alloc, program, asked, judging, number) },
        )
        .collect::<Result<Vec<Seen>, DrawFault>>(rt, alloc)?
}
