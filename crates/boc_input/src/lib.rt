//! Whether an input is a program or the record of a run, by its first token, and a source that takes bytes back.
#![tactic(auto)]

mod ahead;
mod first_token;
mod taken;

pub use ahead::{Ahead, TakesBack};
pub use first_token::begins_program;
pub use taken::{MOST_TAKEN, program_taken};
