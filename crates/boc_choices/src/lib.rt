//! Places of a front that a search may confine itself to: the free ones of a closed set of live rows.
#![tactic(auto)]

mod choosing;
mod holding;
pub mod laws;
mod least;

pub use choosing::chosen_places;
