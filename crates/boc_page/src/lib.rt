//! The data block of a page: one object of JSON with the columns of a run, its plans, and what would help.
//!
//! No byte below 32, no `<`, `>` or `&` is in it, whatever the names of rows and cowns are, so no text in it ends the element that holds it; and there is one
//! text that it can be.
#![tactic(auto)]

mod advice;
mod block;
mod defs;
mod json;
pub mod laws;
mod plans;
mod rows;

pub use advice::MOST_LISTED;
pub use block::{Block, LineTicks, data_block};
pub use defs::{Defs, defs_of};
