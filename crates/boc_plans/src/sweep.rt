//! What a sweep changes of the rows.

use boc_program::count::Workers;

/// What a sweep changes of the rows, one after another, and for how many workers it plans. Where that is not said it asks for the span, the
/// end of the earliest plan; else for the end of the greedy plan.
#[derive(Clone, Copy, PartialEq, Eq, Debug)]
pub enum Sweep {
    /// Each row in turn takes the fewest ticks that it can.
    Ticks(Option<Workers>),
    /// Each cown in turn imposes no order.
    Cowns(Option<Workers>),
    /// Each row but main in turn is spawned as early as it can be.
    Spawns,
}
