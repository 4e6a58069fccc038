//! Which cowns hold some rows back: for each cown how many rows have it and for how long, what rows wait for it, what of the chain goes through it, and
//! the span that would be left if it imposed no order.
#![tactic(auto)]

mod columns;
mod hot;
pub mod laws;
mod totals;

pub use hot::{HotCown, HotCowns, hot_cowns};
