//! Programs: what a body says and means, how blocks are stored in memory, and the parts of programs.
//!
//! The types keep the limits of the language, and that every name is resolved. `specs/` has the definitions.
#![tactic(auto)]

pub mod body;
mod calls;
mod cells;
mod check;
pub mod count;
pub mod cown;
pub mod cowns;
mod equality;
pub mod held;
pub mod laws;
pub mod limits;
pub mod lists;
pub mod program;
mod same;
pub mod script;
pub mod short;
pub mod text;
