// The run with one worker.

ghost use Rattle.boc_many_runs.specs.Runs.{IsSingleDrawn};

use boc_dispatch::Tell;
use boc_draws::{DrawFault, Way, draw};
use boc_order::waits_and_plan;
use boc_plans::sharing::{SeenRows, Sharing};
use boc_progress::Silent;
use boc_registers::compiled::CompiledProgram;
use std::alloc::Global;

/// Returns the span of the run with one worker, which no seed changes.
pub(crate) fn single_span(
    alloc: Global,
    program: &CompiledProgram<'_>,
    sharing: Sharing,
) -> Result<u64, DrawFault>
    ensures { IsSingleDrawn program.now sharing result }
{
    let drawn = draw(
        alloc,
        program,
        1,
        Way::Uniform,
        0,
        Tell::Nothing,
        &mut Silent,
    )?;
    let rows = SeenRows::new(drawn.record.rows(), sharing);
    let (_, plan) = waits_and_plan(alloc, &rows)?;
    Ok(plan.span())
}
