//! What is reported of two runs, before and after, in the names of their programs.
#![tactic(auto)]

pub mod laws;
mod lines;
mod numbers;
mod pairs;
mod told;
mod words;

pub use told::{Compared, compare_text};
pub use words::put_percent;
