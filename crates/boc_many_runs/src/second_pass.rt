// What remedies save in all runs.

ghost use Rattle.std.specs.Prelude.{◌≤◌, MatchResult, length};
ghost use Rattle.boc_program.specs.declared.limits.TheConstants.{MOST_COWNS};
ghost use Rattle.boc_outcomes.specs.Samples.{IsAsked};
ghost use Rattle.boc_many_runs.specs.Passes.{HasNoRoomIn};
ghost use Rattle.boc_many_runs.specs.Runs.{AreColumns, manner};

use crate::brought::brought_between;
use crate::columns::{Column, empty_columns, push_runs};
use crate::first_pass::ROUND;
use crate::judging::Judging;
use boc_draws::DrawFault;
use boc_outcomes::Asked;
use boc_progress::Progress;
use boc_registers::compiled::CompiledProgram;
use boc_remedies::Remedy;
use std::alloc::Global;
use std::thread::Threads;

/// Returns what each of some remedies saves in all runs, which are drawn again. `progress` receives after each round how many are done of both passes.
pub(crate) fn second_pass(
    rt: &(impl Threads + Sync),
    alloc: Global,
    program: &CompiledProgram<'_>,
    asked: &Asked,
    judging: &Judging<'_>,
    remedies: &[Remedy],
    progress: &mut dyn Progress,
) -> Result<Vec<Column>, DrawFault>
    requires asked { IsAsked asked.now }
    requires few { length judging.now.families.now ≤ MOST_COWNS }
    ensures { MatchResult result (λ columns. AreColumns program.now asked.now (manner judging.now) remedies.now asked.now.runs columns.items)
        (HasNoRoomIn program.now asked.now) }
{
    let runs = asked.runs as usize;
    let mut columns = empty_columns(alloc, remedies.len(), runs)?;
    let mut done = 0;
    while done < asked.runs {
        let next = asked.runs.min(done + ROUND);
        let all = brought_between(rt, alloc, program, asked, judging, remedies, done, next)?;
        push_runs(&mut columns, &all)?;
        done = next;
        progress.done(runs + done as usize, 2 * runs);
    }
    Ok(columns)
}
