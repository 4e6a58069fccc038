//! The earliest plan of a record's rows, the chain of rows that costs as many ticks as that plan, and a lower bound for any order of the cowns.
#![tactic(auto)]

mod analysis;
mod check;
mod cown_links;
mod following;
mod gathering;
mod latest;
pub mod laws;
mod least;
mod links;
mod plan;
mod report;
mod starts;

pub use analysis::{profile, work};
pub use check::{check_chain, conflict_on, handed};
pub use cown_links::{CownLinks, followers_without, links_by_cown};
pub use following::{followers, times_linked};
pub use least::{Busiest, Least, SpawnPlan, busiest_of, least_end, loads_of, spawn_plan};
pub use links::Links;
pub use plan::{Earliest, last_end, spawned_at, waits_and_plan};
pub use report::Profile;
pub use starts::first_starts;
