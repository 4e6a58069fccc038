//! Runs: events and the rules that they keep, rows and records, the serial run, and the machine whose steps a dispatcher makes.
#![tactic(auto)]

pub mod event;
pub mod events;
pub mod laws;
pub mod record;
pub mod rows;
pub mod shape;
pub mod siblings;
pub mod stage;
pub mod step;
pub mod values;
