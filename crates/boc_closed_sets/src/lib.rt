//! Fewer fronts that have all ends.
#![tactic(auto)]

pub mod laws;
