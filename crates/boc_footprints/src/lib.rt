//! Footprints: which cowns the descendants of a behaviour may have, by its kind.
#![tactic(auto)]

pub mod laws;
mod naming;
mod spreading;
mod table;

pub use table::{Footprints, footprints_of};
