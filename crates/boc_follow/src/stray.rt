// Why a record is not that of a run of a program.

ghost use Rattle.std.specs.Prelude.{◌≡◌};
ghost use Rattle.boc_follow.specs.Strays.{kind_line};
ghost use Rattle.boc_follow.specs.declared.stray.StrayFaultKind.TheVariants.{Memory};

use std::alloc::AllocError;
use thiserror::Error;

/// How a record diverges from a program. The numbers 15 to 18 stand for these in this order: they follow those of what can be wrong with a record's text.
#[derive(Clone, Copy, PartialEq, Eq, Debug)]
pub enum StrayFaultKind {
    /// The record is of another number of cowns than the program has.
    OtherCowns,
    /// The spawned row isn't what its parent's body spawns next: it has another offset or other cowns, or nothing is left to spawn.
    NotNextSpawn,
    /// The row's body ends otherwise: with other ticks, another status or other written cowns, or only after a further spawn.
    NotItsEnd,
    /// Memory was refused.
    Memory,
}

/// Why a record is not that of a run of a program: the first line of its text that diverges from the program, counted from 1, and how it does. The first line
/// reports the cowns, and each event has a line after it. Where memory was refused the line is 0.
#[derive(Clone, Copy, PartialEq, Eq, Debug, Error)]
#[error("line {line}: {}", kind_text(*.kind))]
pub struct StrayFault {
    pub line: u64,
    pub kind: StrayFaultKind,
}

// The number and the name of a kind.
fn kind_text(kind: StrayFaultKind) -> &'static str
    ensures { result.now ≡ kind_line kind }
{
    match kind {
        StrayFaultKind::OtherCowns => "15 OtherCowns",
        StrayFaultKind::NotNextSpawn => "16 NotNextSpawn",
        StrayFaultKind::NotItsEnd => "17 NotItsEnd",
        StrayFaultKind::Memory => "18 Memory",
    }
}

impl StrayFault {
    /// The number and the name of how the record diverges, as they are displayed.
    pub fn kind_text(&self) -> &'static str
        ensures { result.now ≡ kind_line self.now.kind }
    {
        kind_text(self.kind)
    }
}

impl From<AllocError> for StrayFault {
    ghost from_gives = { λ _ fault. fault ≡ record { line = 0; kind = Memory } };

    fn from(_error: AllocError) -> StrayFault {
        StrayFault {
            line: 0,
            kind: StrayFaultKind::Memory,
        }
    }
}
