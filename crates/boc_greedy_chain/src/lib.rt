//! The chain of a greedy plan: back from the row that ends last, for each row what it started after, up to main. It is the spawn of the row, the end of a row
//! that it is ordered after, or the end of the row whose worker it takes.
#![tactic(auto)]

mod chain;
pub mod laws;
mod takes;

pub use chain::{GreedyStep, Tie, greedy_chain};
