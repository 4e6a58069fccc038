// Rows that wait for the same, of which one is in front.

ghost use Rattle.std.specs.Prelude.{◌≡◌, [], None, IfOk, IfSome, IfNone};
ghost use Rattle.boc_eager.specs.Lines.{IsJoined, IsLeft, IsLastLeft};

use std::alloc::{AllocError, Global};
use std::collections::BTreeSet;

/// Rows that wait for the same. One is in front, and the others have higher numbers.
#[derive(Drop)]
pub(crate) struct Line {
    /// The row in front, if there is one.
    pub(crate) front: Option<u32>,
    /// The other rows.
    pub(crate) behind: BTreeSet<u32>,
}

impl Line {
    /// Makes a line without rows.
    pub(crate) fn new(alloc: Global) -> Line
        ensures front { result.front ≡ None }
        ensures behind { result.behind.keys ≡ [] }
    {
        Line {
            front: None,
            behind: BTreeSet::new(alloc),
        }
    }

    /// Puts a row in line: after the one in front if that has a lower number, else in front. Returns whether it is in front. `AllocError` says that
    /// memory was refused.
    pub(crate) fn join(&mut self, row: u32) -> Result<bool, AllocError>
        ensures { IfOk result (IsJoined self.old self.new row) }
    {
        if let Some(front) = self.front
            && front < row
        {
            self.behind.insert(row)?;
            return Ok(false);
        }
        self.front = Some(row);
        Ok(true)
    }

    /// Removes a row. If it is in front, the lowest of the others moves to the front, and is returned.
    pub(crate) fn leave(&mut self, row: u32) -> Option<u32>
        ensures some { IfSome result (IsLeft self.old self.new row) }
        ensures none { IfNone result (IsLastLeft self.old self.new row) }
    {
        if self.front != Some(row) {
            return None;
        }
        self.front = self.behind.pop_first();
        self.front
    }
}
