//! The machine of the runtime: behaviours go step by step from their Open to their last release, and what happens becomes a log.
#![tactic(auto)]

mod calls;
mod dispatcher;
mod interleaving;
mod kept_args;
mod kept_stage;
pub mod laws;
mod live;
mod movers;
mod moves;
mod roster;
mod told;
mod worker;

pub use boc_runs::step::Step;
pub use calls::{
    Advanced, Child, FinishFault, Job, Leaving, Left, Mover, OpenFault, Started, Tell,
};
pub use dispatcher::{Core, Dispatcher, cown_count};
pub use interleaving::{
    DriveFault, drive, drive_over, drive_quiet, drive_quiet_over, idle_crew, take_told_turn,
    take_turn,
};
pub use told::rows_in_order;
pub use worker::{Refusal, Turn, Worker};
