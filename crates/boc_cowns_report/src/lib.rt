//! What is reported of the cowns that hold some rows back, in the names of their program.
#![tactic(auto)]

mod judged;
pub mod laws;
mod lines;
mod told;
mod verdict;

pub use judged::{JudgedCown, judged_cowns};
pub use told::{CownsTold, JudgedTold, cowns_text};
pub use verdict::{put_shared, put_verdict};
