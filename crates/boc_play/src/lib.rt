//! A run of a program whose rows are spawned in a given order.
#![tactic(auto)]

mod playing;
mod waiting;

pub use playing::play;
