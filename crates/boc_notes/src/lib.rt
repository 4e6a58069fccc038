//! The notes on behaviours that ended by a fault.
//!
//! At most ten are reported one by one, each on a line of its own, and of the others how many they are.
#![tactic(auto)]

mod note;
mod rows;
mod serial;
mod told;

pub use rows::{faulted_rows, notes_on_rows};
pub use serial::notes_on_serial;
pub use told::notes_on_told;
