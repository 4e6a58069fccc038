//! Reports how far a long computation is.
#![tactic(auto)]

mod progress;

pub use progress::{Progress, Silent};
