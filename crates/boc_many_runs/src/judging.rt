// How runs are judged.

use boc_plans::sharing::Sharing;
use boc_program::count::Workers;

/// How runs are judged.
#[derive(Clone, Copy)]
pub struct Judging<'a> {
    /// The family of each cown: an array, or the cown alone.
    pub families: &'a [u32],
    /// How rows share cowns in plans.
    pub sharing: Sharing,
    /// For how many workers greedy plans are made, if for any.
    pub workers: Option<Workers>,
}
