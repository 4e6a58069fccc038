//! Follows a run of a program event by event, and decides whether a record is that of a run of it.
//!
//! A `Follower` begins with no events, and takes each event that the rule of runs allows next. At each place it knows of every row which
//! behaviour it is, with its arguments and its cowns, and the values of all cowns. `follow_record` takes the events of a whole record, and says
//! of one that is of no run of the program on which line of its text it diverges first, and how.
#![tactic(auto)]

mod effect;
mod follower;
pub mod laws;
mod recorded;
mod row;
mod stray;

pub use follower::{Follower, TakeFault};
pub use recorded::follow_record;
pub use stray::{StrayFault, StrayFaultKind};
