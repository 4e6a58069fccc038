// The columns of plans.

ghost use Rattle.std.specs.Prelude.{◌≡◌, IfOk, map};
ghost use Rattle.boc_page.specs.Columns.{point_numbers};

use boc_greedy::CurvePoint;
use boc_plans::chain::ChainStep;
use std::alloc::{AllocError, Global};

/// Returns numbers of 32 bits as numbers of 64.
pub(crate) fn widened(alloc: Global, numbers: &[u32]) -> Result<Vec<u64>, AllocError>
    ensures { IfOk result (λ column. column.items ≡ numbers.now) }
{
    let mut column = Vec::with_capacity(alloc, numbers.len())?;
    for number in numbers {
        column.push(u64::from(*number))?;
    }
    Ok(column)
}

/// Returns the rows of a chain.
pub(crate) fn chain_rows(alloc: Global, steps: &[ChainStep]) -> Result<Vec<u64>, AllocError>
    ensures { IfOk result (λ column. column.items ≡ map (λ s. s.row) steps.now) }
{
    let mut column = Vec::with_capacity(alloc, steps.len())?;
    for step in steps {
        column.push(u64::from(step.row))?;
    }
    Ok(column)
}

/// Returns of each point of a curve the end of the greedy plan, the tick before which no plan ends, and the bound.
pub(crate) fn curve(alloc: Global, points: &[CurvePoint]) -> Result<Vec<Vec<u64>>, AllocError>
    ensures { IfOk result (λ column. map (λ p. p.items) column.items ≡ map point_numbers points.now) }
{
    let mut column = Vec::with_capacity(alloc, points.len())?;
    for point in points {
        column.push(Vec::from_slice(alloc, &[point.end, point.low, point.bound])?)?;
    }
    Ok(column)
}
