//! How the rows of a run use the cowns that they hold: for each cown of each row the ticks of its first and last use, and whether the row needs its value.
#![tactic(auto)]

pub mod laws;
mod ordered;
mod rows;
mod turn;

pub use rows::row_uses;
