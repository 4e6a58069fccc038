//! What p workers would make of some rows: the greedy plan, the tick before which no plan ends, and that by which the greedy one has ended.
//!
//! The simulation jumps from one tick at which something can change to the next. Its time grows with the number of
//! rows and of their cowns.
#![tactic(auto)]

mod any_cown;
mod bits;
mod children;
mod consequences;
mod course;
mod entry;
mod frontier;
pub mod laws;
mod plan;
mod points;
mod row_set;
mod simulation;
mod timed;

pub use any_cown::{AnyCown, greedy_end_without};
pub use consequences::Consequences;
pub use course::{Course, course_to, end_from};
pub use entry::{greedy, greedy_end, greedy_over};
pub use plan::Greedy;
pub use points::{CurvePoint, curve, curve_over};
