//! Every command of `boc` over any source and sink, and laws of their answers.
#![tactic(auto)]

mod command;
pub mod laws;
pub mod laws_of_names;

pub use command::{file_named, run_command};

// The commands of each kind.
pub use boc_all_ends_commands::{all_ends_cmd, end_run_cmd};
pub use boc_cut_commands::{MOST_STREAM_NAMES, cut_cmd, tiles_cmd};
pub use boc_plan_commands::{
    Setting, Supplied, Supposed, cowns_cmd, curve_cmd, profile_cmd, sweep_cmd, whatif_cmd,
    whatif_report, why_cmd,
};
pub use boc_run_commands::{
    EndFault, Fault, FileFault, InputFault, Line, NamedRun, Origin, Want, WindowFault,
    check_against_cmd, check_cmd, outcomes_cmd, run_cmd, time_cmd, values_after_cmd, values_cmd,
};
pub use boc_several_commands::{Pair, Which, compare_cmd, compare_runs_cmd, why_runs_cmd};
// What receives how far a command is.
pub use boc_progress::{Progress, Silent};
// What the words of a command line ask for.
pub use boc_words::{
    AskedChanges, AskedCompare, AskedCown, AskedCowns, AskedCurve, AskedCut, AskedDraws, AskedEdit,
    AskedPlans, AskedProfile, AskedRuns, AskedSweep, AskedWhy, Command, CommandLine, CompareFiles,
    CutNames, EndNumber, MostFronts, RunFile, Runners, Runs, Schedule, VERSION, WhatIfFile,
    WordsFault, not_text, read_words,
};
