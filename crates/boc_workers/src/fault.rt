// Why a run fails.

use boc_program::limits::MOST_ROWS;
use thiserror::Error;

// The text of a fault names this number.
const _: () = prove!(MOST_ROWS == 65_535);

/// Why a run gives no record. The numbers 1 to 6 stand for these faults in this order.
#[derive(Clone, Copy, PartialEq, Eq, Debug, Error)]
pub enum RunFault {
    /// Memory was refused.
    #[error("out of memory")]
    Memory,
    /// The run has as many behaviours as it may have, and wants one more.
    #[error("more than 65,535 behaviours")]
    Behaviours,
    /// A gate stopped a worker.
    #[error("a gate stopped a worker")]
    Held,
    /// A thread could not be started.
    #[error("a thread could not be started")]
    NoThread,
    /// The dispatcher doesn't know what a worker came with, or its program isn't the one that was passed.
    #[error("the dispatcher doesn't know what a worker came with")]
    Stranger,
    /// All workers have ended, and some behaviour isn't gone yet.
    #[error("all workers have ended, and some behaviour isn't gone yet")]
    Unfinished,
}
