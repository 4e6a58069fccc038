//! The words of a command line, and what they ask for.
#![tactic(auto)]

mod arguments;
mod asked;
mod commands;
mod edit_word;
mod fault;
mod schedule;
mod version;
mod words;

pub use asked::{
    AskedChanges, AskedCompare, AskedCown, AskedCowns, AskedCurve, AskedCut, AskedDraws, AskedEdit,
    AskedPlans, AskedProfile, AskedRuns, AskedSweep, AskedWhy, CompareFiles, CutNames, EndNumber,
    MostFronts, RunFile, WhatIfFile,
};
pub use boc_program::count::{Runners, Runs};
pub use fault::WordsFault;
pub use schedule::Schedule;
pub use version::VERSION;
pub use words::{Command, CommandLine, not_text, read_words};
