//! The ticks that each statement of a program takes in a run, and each line of its text.
#![tactic(auto)]

mod along;
mod by_line;
pub mod laws;
mod lines;
mod numbers;
mod replay;
mod sizes;
mod values;
mod walk;

pub use along::behaviours_along;
pub use by_line::{LineTicks, ticks_by_line};
pub use lines::lines_of_statements;
pub use replay::{StatementTicks, ticks_by_statement};
