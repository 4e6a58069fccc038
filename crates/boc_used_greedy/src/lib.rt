//! When p workers end a run if some cowns are held only while they are used: the greedy plan, in which no body waits for a turn.
#![tactic(auto)]

mod entry;
mod fronts;
mod holds;
pub mod laws;
mod plan;
mod queues;
mod ready;
mod users;

pub use entry::used_greedy_end;
