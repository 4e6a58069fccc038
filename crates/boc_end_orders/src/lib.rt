//! A run that reaches one of the ends of a program, and its record.
#![tactic(auto)]

mod recording;
mod run;
mod search;
mod trail;

pub use recording::record_to;
pub use run::run_to;
