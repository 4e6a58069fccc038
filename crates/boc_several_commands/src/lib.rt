//! The commands that take several runs: what has changed from one run to another, and what many runs of a program say.
#![tactic(auto)]

mod compare;
mod compare_runs;
pub mod laws;
mod program_names;
mod runs_asked;
mod runs_text;
mod side;
mod why_runs;

pub use compare::{Pair, Which, compare_cmd};
pub use compare_runs::compare_runs_cmd;
pub use why_runs::{RunsTold, runs_told, why_runs_cmd};
