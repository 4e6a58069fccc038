//! Clocks of workers that take ticks as time: when each makes its next step, and which of them comes first.
#![tactic(auto)]

mod clocks;
pub mod laws;

pub use clocks::{Clocks, MOST_STEPS};
