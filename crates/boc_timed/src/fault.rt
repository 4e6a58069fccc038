//! Why a program has no timed run.

ghost use Rattle.std.specs.Prelude.{◌≡◌};

use boc_program::limits::MOST_ROWS;
use std::alloc::AllocError;
use thiserror::Error;

// This many are named in the text of a fault.
const _: () = prove!(MOST_ROWS == 65_535);

/// Why a program has no timed run by some workers.
#[derive(Clone, Copy, PartialEq, Eq, Debug, Error)]
pub enum TimedFault {
    /// The run has as many behaviours as it may have, and the worker that comes next wishes for one more.
    #[error("more than 65,535 behaviours")]
    Behaviours,
    /// Memory was refused.
    #[error("out of memory")]
    Memory,
}

impl From<AllocError> for TimedFault {
    ghost use Rattle.boc_timed.specs.declared.fault.TimedFault.TheVariants.{Memory};

    ghost from_gives = { λ _ fault. fault ≡ Memory };

    fn from(_error: AllocError) -> TimedFault {
        TimedFault::Memory
    }
}
