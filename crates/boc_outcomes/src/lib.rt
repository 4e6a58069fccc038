//! What ends a program reaches in many draws: each distinct list of values that the cowns have at the end, how often it came, the seed
//! that repeats it, and the spans of the runs that ended so.
#![tactic(auto)]

mod asked;
mod bounds;
mod drawing_all;
pub mod laws;
mod sampling;
mod tally;

pub use asked::Asked;
pub use bounds::Bounds;
pub use drawing_all::outcomes_of;
pub use tally::{Outcome, Outcomes};
