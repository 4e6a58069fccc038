//! Timed runs: the run of a program by virtual workers on one thread that take ticks as time. It is a function of the program and the number of workers.
#![tactic(auto)]

mod fault;
pub mod laws;
mod timetable;
mod timing;

pub use fault::TimedFault;
pub use timetable::Timetable;
pub use timing::{TimedRun, timed_run};
