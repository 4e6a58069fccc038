// What can be wrong with a stream, and with a file of names for it.

ghost use Rattle.std.specs.Prelude.{◌≡◌};
ghost use Rattle.boc_stream.specs.Faults.{stream_kind_line, label_kind_line};

use thiserror::Error;

/// What is wrong with a stream. The numbers up to 14 are those of the same faults of a record.
#[derive(Clone, Copy, PartialEq, Eq, Debug)]
pub enum StreamFaultKind {
    /// A line has none of the forms of a stream's lines, or a number of more than 18 digits.
    Form,
    /// A spawned row's number isn't above those before it.
    NumberNotNext,
    /// The parent of a spawned row isn't running.
    ParentNotRunning,
    /// The offset of a spawned row isn't above that of its parent's last child, or not at least 1.
    Offset,
    /// The cowns of a spawned row don't rise strictly, or aren't below the number of cowns that the first line says.
    Cowns,
    /// The row that starts isn't pending, or shares a cown with a running or an earlier pending one.
    StartNotAllowed,
    /// The row that ends isn't running, or its ticks are none or below its last child's offset, or what it wrote doesn't
    /// rise or isn't among its cowns.
    EndNotAllowed,
    /// The line `.` comes before any row, or while a row is pending or running.
    Unended,
    /// The stream ends within a line.
    Truncated,
    /// There is a byte after the line `.`.
    After,
    /// Memory was refused.
    Memory,
    /// The source failed.
    Device,
    /// A line has more than 4,096 bytes.
    LongLine,
    /// More rows are alive than a record can have: more than 65,534 where a window begins, or 262,144 before that.
    ManyAlive,
    /// The rows that are alive, and those of the window, have more than 1,048,576 cowns together.
    ManyCowns,
    /// The stream ends before the rank at which the window begins.
    BeyondEnd,
}

/// Why a stream was refused: its first faulty line, counted from 1, and what is wrong with it.
#[derive(Clone, Copy, PartialEq, Eq, Debug, Error)]
#[error("line {line}: {}", .kind.text())]
pub struct StreamFault {
    pub line: u64,
    pub kind: StreamFaultKind,
}

impl StreamFaultKind {
    /// Returns the number and the name of a kind, as they are displayed: at most 18 bytes.
    pub fn text(self) -> &'static str
        ensures { result.now ≡ stream_kind_line self }
    {
        match self {
            StreamFaultKind::Form => "2 Form",
            StreamFaultKind::NumberNotNext => "3 NumberNotNext",
            StreamFaultKind::ParentNotRunning => "4 ParentNotRunning",
            StreamFaultKind::Offset => "5 Offset",
            StreamFaultKind::Cowns => "6 Cowns",
            StreamFaultKind::StartNotAllowed => "7 StartNotAllowed",
            StreamFaultKind::EndNotAllowed => "8 EndNotAllowed",
            StreamFaultKind::Unended => "10 Unended",
            StreamFaultKind::Truncated => "11 Truncated",
            StreamFaultKind::After => "12 After",
            StreamFaultKind::Memory => "13 Memory",
            StreamFaultKind::Device => "14 Device",
            StreamFaultKind::LongLine => "18 LongLine",
            StreamFaultKind::ManyAlive => "19 ManyAlive",
            StreamFaultKind::ManyCowns => "20 ManyCowns",
            StreamFaultKind::BeyondEnd => "21 BeyondEnd",
        }
    }
}

/// What is wrong with a line of a file of names for a stream. The numbers up to 7 are those of the same faults of a file for a record.
#[derive(Clone, Copy, PartialEq, Eq, Debug)]
pub enum LabelFaultKind {
    /// The text ends within the line.
    Cut,
    /// The line has more than 80 bytes.
    TooLong,
    /// The line isn't `@ COWN NAME` or `= ROW NAME [ARG ..]`, isn't empty and doesn't begin with `#`.
    Form,
    /// A line before this one names the same row or cown of the window.
    Twice,
    /// Memory was refused.
    Memory,
    /// The source failed.
    Device,
    /// The file has more bytes than are read. Who bounds them sets this: no function of this crate does.
    TooMany,
}

impl LabelFaultKind {
    /// Returns the number and the name of a kind, as they are displayed: at most 9 bytes.
    pub fn text(self) -> &'static str
        ensures { result.now ≡ label_kind_line self }
    {
        match self {
            LabelFaultKind::Cut => "1 Cut",
            LabelFaultKind::TooLong => "2 TooLong",
            LabelFaultKind::Form => "3 Form",
            LabelFaultKind::Twice => "6 Twice",
            LabelFaultKind::Memory => "7 Memory",
            LabelFaultKind::Device => "8 Device",
            LabelFaultKind::TooMany => "9 TooMany",
        }
    }
}

/// Why names were not read: the first faulty line, counted from 1, and what is wrong with it. Where memory was refused the line says nothing.
#[derive(Clone, Copy, PartialEq, Eq, Debug, Error)]
#[error("line {line}: {}", .kind.text())]
pub struct LabelFault {
    pub line: u64,
    pub kind: LabelFaultKind,
}
