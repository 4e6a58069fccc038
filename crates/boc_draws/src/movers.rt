//! Who can move.

ghost use Rattle.std.specs.Prelude.{◌≤◌, length};
ghost use Rattle.boc_program.specs.declared.limits.TheConstants.{MOST_RUNNERS};
ghost use Rattle.boc_runs.specs.machine.Sound.{IsSound};
ghost use Rattle.boc_dispatch.specs.Driving.{IsCrew};
ghost use Rattle.boc_draws.specs.Draws.{AreMovers, stands_at};

use arrayvec::ArrayVec;
use boc_dispatch::{Dispatcher, Worker};
use boc_program::limits::MOST_RUNNERS;

/// Returns the numbers of the workers of a crew that can move, in rising order. A crew has at most [`MOST_RUNNERS`] workers, and what they have in hand is what
/// the dispatcher handed out.
pub fn movers_of<'a>(crew: &[Worker<'a>], core: &Dispatcher<'a>) -> ArrayVec<u32, MOST_RUNNERS>
    requires few { length crew.now ≤ MOST_RUNNERS }
    requires sound { IsSound core.now.program core.now.state }
    requires fits { IsCrew core.now crew.now }
    ensures { AreMovers core.now.program (stands_at core.now crew.now) result.items }
{
    let mut movers = ArrayVec::new();
    for (number, worker) in crew.iter().enumerate() {
        if worker.can_move(core) {
            movers.push(number as u32);
        }
    }
    movers
}
