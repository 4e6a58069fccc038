// What one draw ends with, and what those of a round end with.

ghost use Rattle.std.specs.Prelude.{◌≤◌};
ghost use Rattle.boc_outcomes.specs.Samples.{IsAsked, IsRound, IsSampled};

use crate::asked::Asked;
use boc_dispatch::Tell;
use boc_draws::{DrawFault, draw};
use boc_order::waits_and_plan;
use boc_plans::sharing::{SeenRows, Sharing};
use boc_progress::Silent;
use boc_registers::compiled::CompiledProgram;
use rayon::prelude::*;
use std::alloc::Global;
use std::thread::Threads;

/// What one draw ended with.
#[derive(Drop)]
pub(crate) struct Sampled {
    /// The values of the cowns at the end.
    pub values: Vec<i64>,
    /// How many rows there are.
    pub rows: u32,
    /// Their span, as cowns are exclusive.
    pub span: u64,
}

// Returns what the draw of this number ends with.
fn draw_sample(
    alloc: Global,
    program: &CompiledProgram<'_>,
    asked: &Asked,
    number: u32,
) -> Result<Sampled, DrawFault>
    requires { IsAsked asked.now }
    ensures { IsSampled program.now asked.now number result }
{
    let drawn = draw(
        alloc,
        program,
        asked.workers,
        asked.way,
        asked.seed_of(number),
        Tell::Nothing,
        &mut Silent,
    )?;
    let rows = SeenRows::new(drawn.record.rows(), Sharing::Exclusive);
    let (_, plan) = waits_and_plan(alloc, &rows)?;
    Ok(Sampled {
        rows: rows.len() as u32,
        span: plan.span(),
        values: drawn.values,
    })
}

/// Returns what the draws from one number on, up to another one, end with, in their order. Threads share them out.
pub(crate) fn sampled_between(
    rt: &(impl Threads + Sync),
    alloc: Global,
    program: &CompiledProgram<'_>,
    asked: &Asked,
    from: u32,
    to: u32,
) -> Result<Vec<Sampled>, DrawFault>
    requires asked { IsAsked asked.now }
    requires order { from ≤ to }
    ensures { IsRound program.now asked.now from to result }
{
    (from..to)
        .into_par_iter()
        .with_min_len(1)
        .map(
            |number: u32| -> Result<Sampled, DrawFault>
                requires { IsAsked asked.now }
                ensures { IsSampled program.entry.now asked.entry.now number result }
            { draw_sample(alloc, program, asked, number) },
        )
        .collect::<Result<Vec<Sampled>, DrawFault>>(rt, alloc)?
}
