//! The commands that search for all ends of a program, over any source and sink.
#![tactic(auto)]

mod all_ends;
mod end_run;

pub use all_ends::all_ends_cmd;
pub use end_run::end_run_cmd;
