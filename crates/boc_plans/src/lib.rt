//! Plans: rows as plans see them, the earliest plan and its chains, greedy plans, and rows that are changed.
#![tactic(auto)]

pub mod chain;
pub mod edit;
pub mod sharing;
pub mod sweep;
