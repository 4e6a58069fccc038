//! The live rows of a front as code: the lists of their wishes, which rows are before a new one, and the rows without those that have no wish.
#![tactic(auto)]

mod arranging;
mod claiming;
pub mod laws;
mod row;
mod wish_lists;

pub use arranging::{Arranged, without_done};
pub use claiming::spawned;
pub use row::{Front, LiveRow};
pub use wish_lists::{WishLists, Wished};
