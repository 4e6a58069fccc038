//! The text of what many runs of a program say, in the names of the program.
#![tactic(auto)]

mod bars;
pub mod laws;
mod lines;
mod spreads;
mod told;

pub use told::{ManyTold, many_text};
