//! The rules of runs, kept event by event.
//!
//! A run under way is kept in three ways, each for one use. `Judge` judges each event and keeps the rows alone; it is a `RunSoFar`,
//! which has what is looked up for that, under the promise that its rows are of events that keep the rules. `Rules` is a judge
//! and the events, for who wants the record. `RunLog` has rows and events and nothing to look up, for who knows that each event
//! is allowed: it judges nothing, and so is faster and smaller.
#![tactic(auto)]

mod allowed;
mod before;
mod fault;
mod judge;
mod kept_row;
mod rows;
mod rules;
mod run_log;
mod so_far;

pub use fault::RuleFault;
pub use judge::Judge;
pub use rules::Rules;
pub use run_log::RunLog;
