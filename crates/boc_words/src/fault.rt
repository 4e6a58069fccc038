// Why the words of a command line were refused.

use std::alloc::{AllocError, AllocFailed};
use thiserror::Error;

/// Why words were refused. Its text is for standard error.
#[derive(Debug, Drop, Error)]
pub enum WordsFault {
    /// The parser refuses the words, with its own text.
    #[error("{0}")]
    Parser(clap::Error),
    /// A word that should be an edit, `ROW=TICKS`, `ROW@OFFSET`, `ROW=K/D` or `DEF=K/D`, and is none; edits are counted from 1.
    #[error("boc: edit {number}: not ROW=TICKS\n     an edit is ROW=TICKS, ROW@OFFSET, ROW=K/D or DEF=K/D")]
    EditWord { number: usize },
    /// Memory was refused.
    #[error("boc: memory")]
    Memory,
}

impl From<AllocError> for WordsFault {
    ghost use Rattle.std.specs.Prelude.{◌≡◌};
    ghost use Rattle.boc_words.specs.declared.fault.WordsFault.TheVariants.{Memory};

    ghost from_gives = { λ _ f. f ≡ Memory };

    fn from(_error: AllocError) -> WordsFault {
        WordsFault::Memory
    }
}

impl<T: Drop> From<AllocFailed<T>> for WordsFault {
    ghost use Rattle.std.specs.Prelude.{◌≡◌};
    ghost use Rattle.boc_words.specs.declared.fault.WordsFault.TheVariants.{Memory};

    ghost from_gives = { λ _ f. f ≡ Memory };

    fn from(_error: AllocFailed<T>) -> WordsFault {
        WordsFault::Memory
    }
}
