// What remedies save in runs.

ghost use Rattle.std.specs.Prelude.{◌≡◌, ◌≤◌, ◌<◌, ◌^◌, pos, ◌-ℤ◌, IfOk, length};
ghost use Rattle.boc_program.specs.declared.limits.TheConstants.{MOST_COWNS};
ghost use Rattle.boc_plans.specs.Seen.{seen};
ghost use Rattle.boc_remedies.specs.Ends.{AreEnds, AreEndsAfter, judged};
ghost use Rattle.boc_remedies.specs.Questions.{asked as asked_by};
ghost use Rattle.boc_outcomes.specs.Samples.{IsAsked};
ghost use Rattle.boc_many_runs.specs.Runs.{AreBrought, AreBroughtBy, Brings, IsRound, manner};

use crate::drawn::drawn_run;
use crate::judging::Judging;
use boc_draws::DrawFault;
use boc_outcomes::Asked;
use boc_registers::compiled::CompiledProgram;
use boc_remedies::{Ends, Question, Remedy, ends_of};
use boc_why::rows_with;
use rayon::prelude::*;
use std::alloc::{AllocError, Global};
use std::thread::Threads;

// Returns when the rows of a run end with a remedy. `AllocError` says that memory was refused.
fn ends_after(alloc: Global, question: &Question<'_>, remedy: &Remedy) -> Result<Ends, AllocError>
    requires defs { length question.now.defs.now ≡ length question.now.rows.now }
    requires few { length question.now.families.now ≤ MOST_COWNS }
    ensures { IfOk result (AreEndsAfter (asked_by question.now) remedy.now) }
{
    let cause = remedy.cause(alloc, question.families)?;
    let rows = rows_with(alloc, question.rows, question.defs, &cause)?;
    ends_of(alloc, &rows, question.sharing, question.workers)
}

// Returns by how much an end is sooner than it was.
fn less_of(was: u64, end: u64) -> i64
    requires was { was < 2 ^ 63 }
    requires end { end < 2 ^ 63 }
    ensures { result ≡ pos was -ℤ pos end }
{
    was as i64 - end as i64
}

// Returns by how much sooner the rows of a run end with a remedy, where they end so as they are. `AllocError` says that memory was refused.
fn brought_by(
    alloc: Global,
    question: &Question<'_>,
    now: Ends,
    remedy: &Remedy,
) -> Result<i64, AllocError>
    requires defs { length question.now.defs.now ≡ length question.now.rows.now }
    requires few { length question.now.families.now ≤ MOST_COWNS }
    requires now { AreEnds (seen question.now.sharing question.now.rows.now) question.now.workers now }
    requires low { judged now < 2 ^ 63 }
    ensures { IfOk result (Brings (asked_by question.now) remedy.now) }
{
    let left = ends_after(alloc, question, remedy)?;
    Ok(less_of(now.judged(), left.judged()))
}

// Returns by how much sooner the rows of a run end with each of some remedies. `AllocError` says that memory was refused.
fn all_brought(
    alloc: Global,
    question: &Question<'_>,
    remedies: &[Remedy],
) -> Result<Vec<i64>, AllocError>
    requires defs { length question.now.defs.now ≡ length question.now.rows.now }
    requires few { length question.now.families.now ≤ MOST_COWNS }
    ensures { IfOk result (λ all. AreBroughtBy (asked_by question.now) remedies.now all.items) }
{
    // For the proof alone, and free: that they have the shape of rows.
    let _shape = question.rows.as_slice();
    let now = ends_of(alloc, question.rows, question.sharing, question.workers)?;
    let mut all = Vec::with_capacity(alloc, remedies.len())?;
    for remedy in remedies {
        all.push(brought_by(alloc, question, now, remedy)?)?;
    }
    Ok(all)
}

// Returns what each of some remedies saves in the run of this number.
fn brought_in(
    alloc: Global,
    program: &CompiledProgram<'_>,
    asked: &Asked,
    judging: &Judging<'_>,
    remedies: &[Remedy],
    number: u32,
) -> Result<Vec<i64>, DrawFault>
    requires asked { IsAsked asked.now }
    requires few { length judging.now.families.now ≤ MOST_COWNS }
    ensures { AreBrought program.now asked.now (manner judging.now) remedies.now number result }
{
    let run = drawn_run(alloc, program, asked, number)?;
    let question = Question {
        rows: &run.rows,
        defs: &run.defs,
        families: judging.families,
        sharing: judging.sharing,
        workers: judging.workers,
    };
    let all = all_brought(alloc, &question, remedies)?;
    Ok(all)
}

/// Returns what each of some remedies saves in the runs from one number on, up to another one, in their order. Threads share the runs out.
pub(crate) fn brought_between(
    rt: &(impl Threads + Sync),
    alloc: Global,
    program: &CompiledProgram<'_>,
    asked: &Asked,
    judging: &Judging<'_>,
    remedies: &[Remedy],
    from: u32,
    to: u32,
) -> Result<Vec<Vec<i64>>, DrawFault>
    requires asked { IsAsked asked.now }
    requires few { length judging.now.families.now ≤ MOST_COWNS }
    requires order { from ≤ to }
    ensures { IsRound (AreBrought program.now asked.now (manner judging.now) remedies.now) from to result }
{
    (from..to)
        .into_par_iter()
        .with_min_len(1)
        .map(
            |number: u32| -> Result<Vec<i64>, DrawFault>
                requires { IsAsked asked.now × (length judging.now.families.now ≤ MOST_COWNS) }
                ensures { AreBrought program.entry.now asked.entry.now (manner judging.entry.now) remedies.entry.now number result }
            { brought_in(alloc, program, asked, judging, remedies, number) },
        )
        .collect::<Result<Vec<Vec<i64>>, DrawFault>>(rt, alloc)?
}
