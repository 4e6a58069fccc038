// Fronts and their live rows.

use boc_program::short::CownNo;

/// A row that has a wish which is no row yet.
#[derive(PartialEq, Eq, Hash, Drop, Debug)]
pub struct LiveRow {
    /// The list of these wishes.
    pub wishes: usize,
    /// The places of the live rows that are before it, in rising order.
    pub before: Vec<u16>,
    /// The cowns that it claims, in rising order.
    pub claims: Vec<CownNo>,
}

/// What of the beginning of a run matters for the rest of it: the cowns' values, and the rows that have a wish.
#[derive(PartialEq, Eq, Hash, Drop, Debug)]
pub struct Front {
    pub values: Vec<i64>,
    pub live: Vec<LiveRow>,
}
