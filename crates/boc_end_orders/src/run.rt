// A run that reaches an end.

ghost use Rattle.std.specs.Prelude.{IfOk};
ghost use Rattle.boc_all_ends.specs.Ends.{IsEnd};
ghost use Rattle.boc_end_orders.specs.Runs.{ComesTo};

use crate::search::order_to;
use boc_all_ends::End;
use boc_follow::Follower;
use boc_play::play;
use boc_registers::compiled::CompiledProgram;
use std::alloc::{AllocError, Global};

/// Returns a whole run of a program that reaches this end, with the smallest number of rows. `AllocError` says that memory was refused.
pub fn run_to<'a>(
    alloc: Global,
    program: &'a CompiledProgram<'a>,
    end: &End,
) -> Result<Follower<'a>, AllocError>
    requires { IsEnd program.now end.now.least end.now.values.items }
    ensures { IfOk result (ComesTo program.now end.now) }
{
    let order = order_to(alloc, program, &end.values, end.least)?;
    let run = play(alloc, program, &order)?;
    Ok(run)
}
