//! What many drawn runs of a program say: the least, the median and the most of their numbers, and of what each change that is tried in any of them saves in
//! all of them.
#![tactic(auto)]

mod bests;
mod bins;
mod brought;
mod columns;
mod counted;
mod drawn;
mod first_pass;
mod judging;
pub mod laws;
mod lines;
mod many;
mod many_numbers;
mod second_pass;
mod seen;
mod single;
mod spread;

pub use bins::Bin;
pub use judging::Judging;
pub use lines::Line;
pub use many::{ManyRuns, many_runs};
pub use many_numbers::{Spreads, numbers_of_runs, spreads_of};
pub use seen::Numbers;
pub use spread::Spread;
