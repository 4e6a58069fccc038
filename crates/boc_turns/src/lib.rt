//! When a run ends if some cowns are held only while they are used: from a row's first use of the cown to its last.
#![tactic(auto)]

mod coming;
mod course;
pub mod laws;
mod pace;
mod ticks;
mod used;

pub use ticks::ticks_used;
pub use used::{marks_of, used_end};
