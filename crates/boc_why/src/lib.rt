//! Why a run takes as long as it does: what leads on from each row of the chain that holds it back, how much of the chain goes through each def and
//! each link, a lower bound for any order in which they get their cowns, and the rows without what some of it costs.
#![tactic(auto)]

mod causes;
pub mod laws;
mod links;
mod ranking;
mod shares;
mod why;

pub use causes::{Cause, def_edits, halve, rows_with, spawn_early, without_all};
pub use links::{Link, firsts, links_of};
pub use ranking::{Placed, ranked};
pub use shares::{Share, defs_of, shares_of, weights_of};
pub use why::{Why, shares_by_def, shares_by_link, why_of};
