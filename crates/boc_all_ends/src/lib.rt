//! All ends of a program: a search of the fronts of its runs, layer by layer, with a proof that it misses none.
#![tactic(auto)]

mod ends;
mod found;
pub mod laws;
mod running;
mod search;
mod stepper;
mod turn;

pub use found::{End, Found};
pub use search::all_ends;
pub use stepper::Stepper;
