// Why a text was refused.

use std::alloc::{AllocError, AllocFailed};
use thiserror::Error;

/// Why a pass over a text stopped: memory was refused, or there is a fault of this kind, whose first
/// byte is at this place. Where names are judged, the place is how many names come before the wrong one.
#[derive(Clone, Copy, PartialEq, Eq, Debug)]
pub enum Fault<K> {
    Memory,
    At(K, usize),
}

impl<K> From<AllocError> for Fault<K> {
    ghost use Rattle.std.specs.Prelude.{◌≡◌};
    ghost use Rattle.boc_reader.specs.declared.fault.Fault.TheVariants.{Memory};

    ghost from_gives = { λ _ e. e ≡ Memory };

    fn from(_error: AllocError) -> Fault<K> {
        Fault::Memory
    }
}

impl<K, T: Drop> From<AllocFailed<T>> for Fault<K> {
    ghost use Rattle.std.specs.Prelude.{◌≡◌};
    ghost use Rattle.boc_reader.specs.declared.fault.Fault.TheVariants.{Memory};

    ghost from_gives = { λ _ e. e ≡ Memory };

    fn from(_error: AllocFailed<T>) -> Fault<K> {
        Fault::Memory
    }
}

/// Why names don't resolve: memory was refused, or one of them is wrong.
#[derive(Clone, Copy, PartialEq, Eq, Debug)]
pub enum Unresolved {
    Memory,
    WrongName,
}

impl From<AllocError> for Unresolved {
    ghost use Rattle.std.specs.Prelude.{◌≡◌};
    ghost use Rattle.boc_reader.specs.declared.fault.Unresolved.TheVariants.{Memory};

    ghost from_gives = { λ _ e. e ≡ Memory };

    fn from(_error: AllocError) -> Unresolved {
        Unresolved::Memory
    }
}

impl<T: Drop> From<AllocFailed<T>> for Unresolved {
    ghost use Rattle.std.specs.Prelude.{◌≡◌};
    ghost use Rattle.boc_reader.specs.declared.fault.Unresolved.TheVariants.{Memory};

    ghost from_gives = { λ _ e. e ≡ Memory };

    fn from(_error: AllocFailed<T>) -> Unresolved {
        Unresolved::Memory
    }
}

/// What is wrong with a token.
#[derive(Clone, Copy, PartialEq, Eq, Debug)]
pub enum TokenFault {
    NotAscii,
    BadToken,
    NumberTooLarge,
}

/// What is wrong with the shape of a text.
#[derive(Clone, Copy, PartialEq, Eq, Debug)]
pub enum ShapeFault {
    Unexpected,
    TooMany,
}

/// What is wrong with a name.
#[derive(Clone, Copy, PartialEq, Eq, Debug)]
pub enum NameFault {
    UnknownName,
    NameTaken,
    WrongCount,
}

/// What is wrong with a text.
#[derive(Clone, Copy, PartialEq, Eq, Debug, Error)]
#[error("{}", self.text())]
pub enum ReadFaultKind {
    /// A byte from 128 on.
    NotAscii,
    /// Bytes that form no token.
    BadToken,
    /// A token, or the end of the text, that the grammar doesn't allow there, or an array of size 0.
    Unexpected,
    /// A number above 9,223,372,036,854,775,807.
    NumberTooLarge,
    /// A name that isn't in scope in that use.
    UnknownName,
    /// A declaration of a name that is in scope already.
    NameTaken,
    /// A `when` with another number of arguments or cowns than its def takes, an array without an
    /// index, or an index on what is no array.
    WrongCount,
    /// More cowns, defs, nodes, parameters or arguments than are allowed.
    TooMany,
    /// More than 65,536 bytes. The line is that of the first byte too many.
    TooLong,
    /// Memory was refused. The line is 0.
    Memory,
}

impl ReadFaultKind {
    ghost use Rattle.std.specs.Prelude.{◌≡◌};
    ghost use Rattle.boc_reader.specs.FaultTexts.{kind_text};

    /// Returns its number and its name, as they are displayed.
    pub fn text(&self) -> &'static str
        ensures { result.now ≡ kind_text self.now }
    {
        match self {
            ReadFaultKind::NotAscii => "1 NotAscii",
            ReadFaultKind::BadToken => "2 BadToken",
            ReadFaultKind::Unexpected => "3 Unexpected",
            ReadFaultKind::NumberTooLarge => "4 NumberTooLarge",
            ReadFaultKind::UnknownName => "5 UnknownName",
            ReadFaultKind::NameTaken => "6 NameTaken",
            ReadFaultKind::WrongCount => "7 WrongCount",
            ReadFaultKind::TooMany => "8 TooMany",
            ReadFaultKind::TooLong => "9 TooLong",
            ReadFaultKind::Memory => "10 Memory",
        }
    }
}

/// Why a text was refused, in which line, counted from 1, and at which byte of the text, counted from 0. Where memory was refused, both are 0.
#[derive(Clone, Copy, PartialEq, Eq, Debug, Error)]
#[error("line {line}: {kind}")]
pub struct ReadFault {
    pub line: u32,
    pub at: u32,
    pub kind: ReadFaultKind,
}
