// Why the text of a file of names was not read.

ghost use Rattle.std.specs.Prelude.{◌≡◌};
ghost use Rattle.boc_names.specs.Said.{kind_line};

use std::alloc::{AllocError, AllocFailed};
use thiserror::Error;

/// What is wrong with a line of a file of names. The numbers 1 to 7 stand for these in this order.
#[derive(Clone, Copy, PartialEq, Eq, Debug)]
pub enum NamesFaultKind {
    /// The text ends within the line: there is no line feed after it.
    Cut,
    /// The line is longer than 80 bytes, or the text is longer than it may be with this line.
    TooLong,
    /// The line isn't `@ COWN NAME` or `= ROW NAME [ARG ..]`, isn't empty and doesn't begin with `#`.
    Form,
    /// There is no row with this number.
    NoRow,
    /// There is no cown with this number.
    NoCown,
    /// A line before this one names the same row or cown.
    Twice,
    /// Memory was refused.
    Memory,
}

impl NamesFaultKind {
    /// Returns the number and the name of a kind, as they are displayed.
    pub fn text(self) -> &'static str
        ensures { result.now ≡ kind_line self }
    {
        match self {
            NamesFaultKind::Cut => "1 Cut",
            NamesFaultKind::TooLong => "2 TooLong",
            NamesFaultKind::Form => "3 Form",
            NamesFaultKind::NoRow => "4 NoRow",
            NamesFaultKind::NoCown => "5 NoCown",
            NamesFaultKind::Twice => "6 Twice",
            NamesFaultKind::Memory => "7 Memory",
        }
    }
}

impl From<AllocError> for NamesFaultKind {
    ghost use Rattle.boc_names.specs.declared.fault.NamesFaultKind.TheVariants.{Memory};

    ghost from_gives = { λ _ kind. kind ≡ Memory };

    fn from(_error: AllocError) -> NamesFaultKind {
        NamesFaultKind::Memory
    }
}

impl<T: Drop> From<AllocFailed<T>> for NamesFaultKind {
    ghost use Rattle.boc_names.specs.declared.fault.NamesFaultKind.TheVariants.{Memory};

    ghost from_gives = { λ _ kind. kind ≡ Memory };

    fn from(_error: AllocFailed<T>) -> NamesFaultKind {
        NamesFaultKind::Memory
    }
}

/// Why a text was refused as a file of names: its first faulty line, counted from 1, and what is wrong with it. Where memory was refused the line
/// says nothing.
#[derive(Clone, Copy, PartialEq, Eq, Debug, Error)]
#[error("line {line}: {}", .kind.text())]
pub struct NamesFault {
    pub line: u64,
    pub kind: NamesFaultKind,
}

impl From<AllocError> for NamesFault {
    ghost use Rattle.boc_names.specs.declared.fault.NamesFaultKind.TheVariants.{Memory};

    ghost from_gives = { λ _ fault. fault.kind ≡ Memory };

    fn from(_error: AllocError) -> NamesFault {
        NamesFault {
            line: 0,
            kind: NamesFaultKind::Memory,
        }
    }
}
