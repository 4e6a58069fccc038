//! Another order of the behaviours of some rows: the eager plan, in which whatever can start does, and where it first goes otherwise than the rows.
#![tactic(auto)]

mod course;
mod kinds;
pub mod laws;
mod line;
mod place;
mod plan;
mod steps;
mod swap;

pub use plan::{Eager, eager_plan};
pub use swap::{Swap, first_swap};
