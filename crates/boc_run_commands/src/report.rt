// The report on some rows.

ghost use Rattle.std.specs.Prelude.{◌≡◌, ◌<◌, ◌≤◌, ℕ, None, length, IfOk, IfSome};
ghost use Rattle.boc_report.specs.Parts.{IsWhole, part_of};
ghost use Rattle.boc_run_commands.specs.Answers.{IsAskedPart, IsReport};
ghost use Rattle.boc_plans.specs.Seen.{seen};
ghost use Rattle.boc_run_commands.specs.Commands.{Leaves, CountsSource, CountsSink, RefusesNothing};

use crate::fault::Fault;
use boc_greedy::Greedy;
use boc_order::profile;
use boc_plans::sharing::Sharing;
use boc_report::{MOST_LINES, write_report};
use boc_runs::rows::Rows;
use boc_text::Sink;
use boc_whatif::WhatIf;
use boc_words::AskedPlans;
use std::alloc::{AllocError, Global};

// Writes the report on some rows, without a greedy part, where none is requested.
fn plain_report<W: Sink>(
    alloc: Global,
    plans: AskedPlans,
    rows: &Rows,
    sharing: Sharing,
    sink: &mut W,
) -> Result<(), Fault>
    requires none { plans.workers ≡ None }
    requires sink { W.failures sink.old < u64.MAX }
    ensures written { Leaves (IsReport (seen sharing rows.now) plans) result (W.written sink.old) (W.written sink.new) }
    ensures refused { RefusesNothing result }
    ensures source { (count : ℕ) → CountsSource result count count }
    ensures sink { CountsSink result (W.failures sink.old) (W.failures sink.new) }
{
    let unplanned = plans.unplanned;
    let profile = profile(alloc, rows, sharing)?;
    write_report(alloc, &profile, None, unplanned, sink)?;
    Ok(())
}

// Writes the report on some rows, with these plans.
pub fn report_on<W: Sink>(
    alloc: Global,
    plans: AskedPlans,
    rows: Rows,
    sharing: Sharing,
    sink: &mut W,
) -> Result<(), Fault>
    requires { W.failures sink.old < u64.MAX }
    ensures written { Leaves (IsReport (seen sharing rows) plans) result (W.written sink.old) (W.written sink.new) }
    ensures refused { RefusesNothing result }
    ensures source { (count : ℕ) → CountsSource result count count }
    ensures sink { CountsSink result (W.failures sink.old) (W.failures sink.new) }
{
    let workers = plans.workers;
    match workers {
        None => plain_report(alloc, plans, &rows, sharing, sink),
        Some(_) => {
            // What each row waits for is found once for both parts.
            let question = WhatIf::of(alloc, rows, sharing)?;
            report_after(alloc, plans, question, sink)
        }
    }
}

// Writes the same report on the rows that a question has, and uses the question up.
pub fn report_after<W: Sink>(
    alloc: Global,
    plans: AskedPlans,
    question: WhatIf,
    sink: &mut W,
) -> Result<(), Fault>
    requires { W.failures sink.old < u64.MAX }
    ensures written { Leaves (IsReport (seen question.sharing question.rows) plans) result (W.written sink.old) (W.written sink.new) }
    ensures refused { RefusesNothing result }
    ensures source { (count : ℕ) → CountsSource result count count }
    ensures sink { CountsSink result (W.failures sink.old) (W.failures sink.new) }
{
    let unplanned = plans.unplanned;
    let greedy = greedy_for(alloc, plans, &question)?;
    let profile = question.into_profile(alloc)?;
    write_report(alloc, &profile, greedy.as_ref(), unplanned, sink)?;
    Ok(())
}

// Returns the greedy plan for the workers that were asked for. Without such there is none.
pub(crate) fn greedy_for(
    alloc: Global,
    plans: AskedPlans,
    question: &WhatIf,
) -> Result<Option<Greedy>, AllocError>
    ensures part { IfOk result (λ greedy. IsAskedPart (seen question.now.sharing question.now.rows) plans (part_of plans.unplanned greedy)) }
    ensures whole { IfOk result (λ greedy. IfSome greedy IsWhole) }
    ensures few { IfOk result (λ greedy. IfSome greedy (λ g. length g.starts.items ≤ MOST_LINES)) }
{
    let workers = plans.workers;
    match workers {
        Some(workers) => Ok(Some(question.greedy(alloc, workers)?)),
        None => Ok(None),
    }
}
