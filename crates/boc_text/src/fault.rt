//! Why a text was not written.

ghost use Rattle.std.specs.Prelude.{◌≡◌};

use crate::whole::Stopped;
use std::alloc::{AllocError, AllocFailed};
use thiserror::Error;

/// Why a text was not written.
#[derive(Clone, Copy, PartialEq, Eq, Debug, Error)]
pub enum WriteFault {
    /// Memory was refused, and nothing went out.
    #[error("out of memory")]
    Memory,
    /// The sink failed, after the first `gone` bytes of the text.
    #[error("the sink failed after {gone} bytes")]
    Device { gone: usize },
}

impl From<AllocError> for WriteFault {
    ghost use Rattle.boc_text.specs.declared.fault.WriteFault.TheVariants.{Memory};

    ghost from_gives = { λ _ f. f ≡ Memory };

    fn from(_error: AllocError) -> WriteFault {
        WriteFault::Memory
    }
}

impl<T: Drop> From<AllocFailed<T>> for WriteFault {
    ghost use Rattle.boc_text.specs.declared.fault.WriteFault.TheVariants.{Memory};

    ghost from_gives = { λ _ f. f ≡ Memory };

    fn from(_error: AllocFailed<T>) -> WriteFault {
        WriteFault::Memory
    }
}

impl From<Stopped> for WriteFault {
    ghost use Rattle.boc_text.specs.declared.fault.WriteFault.TheVariants.{Device};

    ghost from_gives = { λ s f. f ≡ Device s.gone };

    fn from(stopped: Stopped) -> WriteFault {
        WriteFault::Device { gone: stopped.gone }
    }
}
