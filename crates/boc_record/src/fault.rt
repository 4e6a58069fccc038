// Why a record was not read.

ghost use Rattle.std.specs.Prelude.{◌≡◌};
ghost use Rattle.boc_record.specs.Faults.{kind_line};
ghost use Rattle.boc_record.specs.Reading.{kind_of_fault};

use crate::verdict::RecordFaultKind;
use boc_rules::RuleFault;
use boc_runs::event::BrokenRule;
use thiserror::Error;

/// Why a text was refused as a record: its first faulty line, counted from 1, and what is wrong with it.
#[derive(Clone, Copy, PartialEq, Eq, Debug, Error)]
#[error("line {line}: {}", kind_text(*.kind))]
pub struct RecordFault {
    pub line: u64,
    pub kind: RecordFaultKind,
}

// Returns the number and the name of a kind.
fn kind_text(kind: RecordFaultKind) -> &'static str
    ensures { result.now ≡ kind_line kind }
{
    match kind {
        RecordFaultKind::Header => "1 Header",
        RecordFaultKind::Form => "2 Form",
        RecordFaultKind::NumberNotNext => "3 NumberNotNext",
        RecordFaultKind::ParentNotRunning => "4 ParentNotRunning",
        RecordFaultKind::Offset => "5 Offset",
        RecordFaultKind::Cowns => "6 Cowns",
        RecordFaultKind::StartNotAllowed => "7 StartNotAllowed",
        RecordFaultKind::EndNotAllowed => "8 EndNotAllowed",
        RecordFaultKind::TooMany => "9 TooMany",
        RecordFaultKind::Unended => "10 Unended",
        RecordFaultKind::Truncated => "11 Truncated",
        RecordFaultKind::After => "12 After",
        RecordFaultKind::Memory => "13 Memory",
        RecordFaultKind::Device => "14 Device",
    }
}

impl RecordFault {
    /// Returns the number and the name of what is wrong, as they are displayed.
    pub fn kind_text(&self) -> &'static str
        ensures { result.now ≡ kind_line self.now.kind }
    {
        kind_text(self.kind)
    }
}

/// Returns what a line has wrong whose event is refused.
pub fn kind_of(fault: RuleFault) -> RecordFaultKind
    ensures { result ≡ kind_of_fault fault }
{
    match fault {
        RuleFault::Broken(BrokenRule::NumberNotNext) => RecordFaultKind::NumberNotNext,
        RuleFault::Broken(BrokenRule::ParentNotRunning) => RecordFaultKind::ParentNotRunning,
        RuleFault::Broken(BrokenRule::Offset) => RecordFaultKind::Offset,
        RuleFault::Broken(BrokenRule::Cowns) => RecordFaultKind::Cowns,
        RuleFault::Broken(BrokenRule::StartNotAllowed) => RecordFaultKind::StartNotAllowed,
        RuleFault::Broken(BrokenRule::EndNotAllowed) => RecordFaultKind::EndNotAllowed,
        RuleFault::Broken(BrokenRule::TooMany) => RecordFaultKind::TooMany,
        RuleFault::Memory => RecordFaultKind::Memory,
    }
}
