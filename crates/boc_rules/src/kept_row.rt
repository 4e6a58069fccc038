// How far a row of a run has come.

/// What has become of a row.
#[derive(Clone, Copy, PartialEq, Eq, Debug)]
pub enum Life {
    Pending,
    Running,
    Ended,
}

/// What is kept of a row until its run has ended.
#[derive(Drop, Debug)]
pub struct KeptRow {
    pub life: Life,
    /// The offset of its last child; 0 where it has none.
    pub last: u32,
    /// Where the rows before it on its cowns begin among those found, and where they end.
    pub from: u32,
    pub to: u32,
}
