//! The bars of a plan's picture: when each row runs, and the lane that it is drawn in.
#![tactic(auto)]

mod bar;
mod packing;

pub use bar::{Bar, Stretch, bars_of, lane_count};
pub use packing::packed;
