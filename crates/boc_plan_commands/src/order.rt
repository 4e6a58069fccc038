// Another order of the behaviours.

ghost use Rattle.std.specs.Prelude.{IfOk};
ghost use Rattle.boc_plans.specs.Greedy.{IsSpan};
ghost use Rattle.boc_plans.specs.Seen.{seen};
ghost use Rattle.boc_plan_commands.specs.OrderAnswers.{IsOtherOrder};

use boc_advice_report::OtherOrder;
use boc_eager::{eager_plan, first_swap};
use boc_plans::sharing::SeenRows;
use boc_remedies::Question;
use std::alloc::{AllocError, Global};

/// Returns the order in which whatever can start does, with where it first goes otherwise than the rows, where it ends before their span. `AllocError` says
/// that memory was refused.
pub fn other_order(
    alloc: Global,
    question: &Question<'_>,
    span: u64,
) -> Result<Option<OtherOrder>, AllocError>
    requires { IsSpan (seen question.now.sharing question.now.rows.now) span }
    ensures { IfOk result (IsOtherOrder (seen question.now.sharing question.now.rows.now) span) }
{
    let plan = eager_plan(alloc, question.rows, question.sharing)?;
    if plan.end >= span {
        return Ok(None);
    }
    let seen = SeenRows::new(question.rows, question.sharing);
    match first_swap(alloc, &seen, &plan.starts)? {
        Some(swap) => Ok(Some(OtherOrder {
            end: plan.end,
            swap,
        })),
        None => Ok(None),
    }
}
