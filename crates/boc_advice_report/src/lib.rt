//! What is reported of what would move the end of some rows forward, in the names of their program.
#![tactic(auto)]

mod candidates;
pub mod laws;
mod order;
mod steps;
mod together;
mod told;
mod words;
mod workers;

pub use order::{OtherOrder, put_other_order};
pub use steps::{StepsTold, steps_text};
pub use together::put_together;
pub use told::{WhyTold, why_text};
pub use words::{put_families, put_remedy};
pub use workers::{ForWorkers, put_verdict, put_workers};
