//! The text of all ends of a program.
#![tactic(auto)]

mod end_lines;
pub mod laws;

pub use end_lines::ends_text;
