//! Plans in which no worker is idle while a row that is ready waits, and the test of when the rows of a run ran.
#![tactic(auto)]

mod keeping;
pub mod laws;
mod stints;
mod timed;

pub use timed::{TimedRows, timed_rows};
