// What can be wrong with the text of a record.

/// What is wrong with the text of a record. The numbers 1 to 14 stand for these in this order.
#[derive(Clone, Copy, PartialEq, Eq, Debug)]
pub enum RecordFaultKind {
    /// The first line isn't `boc 1 COWNS` or `boc 2 COWNS`, COWNS from 0 to 256, or is longer than 80 bytes.
    Header,
    /// Another line has none of the forms of a record's lines, or is longer than 80 bytes.
    Form,
    /// A spawned row hasn't the next number.
    NumberNotNext,
    /// The parent of a spawned row isn't running.
    ParentNotRunning,
    /// The offset of a spawned row isn't above that of its parent's last child, or not 1 to 1,000,000.
    Offset,
    /// The cowns of a spawned row don't rise strictly, or aren't there.
    Cowns,
    /// The row that starts isn't pending, or shares a cown with a running or an earlier pending one.
    StartNotAllowed,
    /// The row that ends isn't running, or its ticks aren't 1 to 1,000,000 or are below its last child's offset, or what it
    /// wrote doesn't rise or isn't among its cowns.
    EndNotAllowed,
    /// A row more than a run may have.
    TooMany,
    /// The line `.` is before any row, or while a row is pending or running.
    Unended,
    /// The input ends before the line feed of the line `.`.
    Truncated,
    /// There is a byte after the line `.`.
    After,
    /// Memory was refused.
    Memory,
    /// The source failed.
    Device,
}
