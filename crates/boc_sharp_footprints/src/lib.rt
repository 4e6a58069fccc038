//! Sharp footprints: which cowns the descendants of a behaviour may have, by its kind and the value of one of its arguments.
#![tactic(auto)]

mod closing;
mod following;
mod growing;
mod known;
pub mod laws;
mod making;
mod referring;
mod table;
mod tracing;

pub use making::sharp_footprints_of;
pub use table::SharpFootprints;
