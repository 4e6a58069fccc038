// The result of a turn of a row.

use boc_eval::SpawnWish;
use boc_program::short::Cowns;

// The wishes of a behaviour that ran at once, its cowns, the values then, and the list of wishes that is left to its parent.
#[derive(Drop)]
pub(crate) struct Turn {
    pub rest: usize,
    pub cowns: Cowns,
    pub wishes: Vec<SpawnWish>,
    pub values: Vec<i64>,
}
