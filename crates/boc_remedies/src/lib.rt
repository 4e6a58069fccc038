//! What would move the end of some rows forward, and how much is left then: for as many workers as rows, and where that is asked, for a given number of
//! workers too. Sets of cowns that links of the chain hand on together are tried as single ones are, and further ones are looked for.
#![tactic(auto)]

mod advice;
mod candidates;
mod chain;
mod ends;
mod families;
mod greedy_why;
pub mod laws;
mod link_sets;
mod looked_at;
mod question;
mod remedy;
mod steps;
mod together;
mod tried;

pub use advice::{Advice, Advised, advise};
pub use candidates::{Candidate, told};
pub use chain::{Route, routes_of};
pub use ends::{Ends, all_ends, ends_of};
pub use families::Families;
pub use greedy_why::{GreedyWhy, greedy_why_of, is_same_chain};
pub use looked_at::LookedAt;
pub use question::Question;
pub use remedy::Remedy;
pub use steps::steps_of;
pub use together::{Together, all_together, best_sets, cowns_together};
pub use tried::remedies_for;
