//! How a body uses the cowns that it holds: the ticks of its first and last use of each, and whether it needs the value.
#![tactic(auto)]

pub mod laws;
mod named;
mod reading;
mod started;
mod steps;
mod uses;
mod walk;

pub use uses::{Use, Uses, Way};
pub use walk::uses_of;
