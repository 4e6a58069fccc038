//! Two runs, before and after: what is known of each, and what goes with what by name.
#![tactic(auto)]

mod defs;
mod families;
mod keys;
pub mod laws;
mod pairs;
mod side;
mod totals;

pub use pairs::{Pair, changes};
pub use side::{Side, Times, side_of, times_of};
pub use totals::Totals;
