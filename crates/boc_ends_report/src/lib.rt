//! The texts of what runs end with.
#![tactic(auto)]

pub mod laws;
mod outcome_lines;
mod value_lines;

pub use outcome_lines::outcomes_text;
pub use value_lines::values_text;
