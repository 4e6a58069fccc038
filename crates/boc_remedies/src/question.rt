// The question about some rows.

use boc_plans::sharing::Sharing;
use boc_program::count::Workers;
use boc_runs::rows::Rows;

/// Some rows, what they are called by numbers, and how they are judged.
#[derive(Clone, Copy)]
pub struct Question<'a> {
    pub rows: &'a Rows,
    /// The def of each row.
    pub defs: &'a [u32],
    /// The family of each cown: an array, or the cown alone.
    pub families: &'a [u32],
    /// How rows share cowns in plans.
    pub sharing: Sharing,
    /// For how many workers greedy plans are made, if for any.
    pub workers: Option<Workers>,
}
