//! Why a draw gives no run.

ghost use Rattle.std.specs.Prelude.{◌≡◌};

use boc_program::limits::MOST_ROWS;
use std::alloc::AllocError;
use thiserror::Error;

// This many are named in the text of a fault.
const _: () = prove!(MOST_ROWS == 65_535);

/// Why a draw gives no run.
#[derive(Clone, Copy, PartialEq, Eq, Debug, Error)]
pub enum DrawFault {
    /// The run has as many behaviours as it may have, and the worker that was picked wishes for one more.
    #[error("more than 65,535 behaviours")]
    Behaviours,
    /// Memory was refused.
    #[error("out of memory")]
    Memory,
}

impl From<AllocError> for DrawFault {
    ghost use Rattle.boc_draws.specs.declared.fault.DrawFault.TheVariants.{Memory};

    ghost from_gives = { λ _ fault. fault ≡ Memory };

    fn from(_error: AllocError) -> DrawFault {
        DrawFault::Memory
    }
}
