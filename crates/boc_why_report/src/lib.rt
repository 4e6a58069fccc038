//! What is reported of the chain that holds some rows back, in the names of their program.
#![tactic(auto)]

mod chain;
mod folded;
pub mod laws;
mod lists;
mod short;
mod told;
mod words;

pub use chain::number;
pub use lists::{Shares, put_shares};
pub use short::{Outcome, short_text};
pub use told::{TimedEnd, put_chain, put_head, put_least, workers_word};
pub use words::link_text;
