// What words of a command line name.

use crate::arguments::MOST_FRONTS;
use crate::schedule::Schedule;
use boc_plans::edit::{Edit, Part};
use boc_plans::sharing::Sharing;
use boc_plans::sweep::Sweep;
use boc_program::count::{Count, Depth, Runners, Runs, Workers};
use boc_program::short::CownNo;

/// The most fronts that a search of all ends looks at.
pub type MostFronts = Count<MOST_FRONTS>;

/// The number of an end among those that a search has found, counted from 1.
pub type EndNumber = Count<MOST_FRONTS>;

/// An edit that the words ask for.
#[derive(Drop, Debug)]
pub enum AskedEdit {
    /// The edit of a row.
    Row(Edit),
    /// Each row of the def with this name costs this part of its ticks.
    Def { name: String, part: Part },
}

/// A cown that the words leave out.
#[derive(Drop, Debug)]
pub enum AskedCown {
    /// The one with this number.
    Number(CownNo),
    /// Each one with this name, and those of the array with it.
    Name(String),
}

/// What `whatif` changes of a run, in this order.
#[derive(Drop, Debug)]
pub struct AskedChanges {
    /// Whether each row takes the median ticks of its def.
    pub typical: bool,
    /// The cowns that are left out.
    pub cowns: Vec<AskedCown>,
    /// The names of the defs whose behaviours spawn early.
    pub early: Vec<String>,
    /// The edits of rows.
    pub edits: Vec<AskedEdit>,
}

/// Which plans a report has.
#[derive(Clone, Copy, PartialEq, Eq, Debug)]
pub struct AskedPlans {
    /// For how many workers it has the greedy plan too, where it has one.
    pub workers: Option<Workers>,
    /// Whether the rows of its plans are left out.
    pub unplanned: bool,
}

/// The options of `profile`, without the file given with its input.
#[derive(Clone, Copy, Debug)]
pub struct AskedProfile {
    /// How the input is run, if it is a program.
    pub schedule: Schedule,
    /// Which plans the report has.
    pub plans: AskedPlans,
    /// How rows share cowns in plans.
    pub sharing: Sharing,
    /// Whether each row takes the median ticks of its def.
    pub typical: bool,
    /// Whether notes are left out.
    pub quiet: bool,
}

/// The options of `curve`, without the file given with its input.
#[derive(Clone, Copy, Debug)]
pub struct AskedCurve {
    /// How the input is run, if it is a program.
    pub schedule: Schedule,
    /// Up to how many workers it goes.
    pub most: Workers,
    /// How rows share cowns in plans.
    pub sharing: Sharing,
    /// Whether each row takes the median ticks of its def.
    pub typical: bool,
}

/// The options of `sweep`, without the file given with its input.
#[derive(Clone, Copy, Debug)]
pub struct AskedSweep {
    /// How the input is run, if it is a program.
    pub schedule: Schedule,
    /// What it changes, one after another.
    pub over: Sweep,
    /// How rows share cowns in plans.
    pub sharing: Sharing,
    /// Whether each row takes the median ticks of its def.
    pub typical: bool,
    /// How many of its best lines it prints, if not all.
    pub best: Option<u32>,
}

/// The options of `why`, without the file given with its input.
#[derive(Clone, Copy, Debug)]
pub struct AskedWhy {
    /// How the input is run, if it is a program.
    pub schedule: Schedule,
    /// For how many workers it judges, if for any.
    pub workers: Option<Workers>,
    /// How rows share cowns in plans.
    pub sharing: Sharing,
    /// Whether each row takes the median ticks of its def.
    pub typical: bool,
    /// Whether each row of the chain has a line of its own.
    pub all: bool,
    /// How many changes are reported at most, one on top of the other, if that is requested.
    pub then: Option<u32>,
    /// Whether notes are left out.
    pub quiet: bool,
}

/// The options of `cowns`, without the file given with its input.
#[derive(Clone, Copy, Debug)]
pub struct AskedCowns {
    /// How the input is run, if it is a program.
    pub schedule: Schedule,
    /// For how many workers it judges, if for any.
    pub workers: Option<Workers>,
    /// How rows share cowns in plans.
    pub sharing: Sharing,
    /// Whether each row takes the median ticks of its def.
    pub typical: bool,
    /// How many cowns are listed at most, if there is a limit.
    pub top: Option<u32>,
    /// Whether notes are left out.
    pub quiet: bool,
}

/// The options of `compare`, without the files that it reads.
#[derive(Clone, Copy, Debug)]
pub struct AskedCompare {
    /// How an input is run, if it is a program.
    pub schedule: Schedule,
    /// For how many workers greedy plans are made, if for any.
    pub workers: Option<Workers>,
    /// How rows share cowns in plans.
    pub sharing: Sharing,
    /// Whether each row takes the median ticks of its def.
    pub typical: bool,
    /// Whether notes are left out.
    pub quiet: bool,
}

/// The files that `compare` reads next to its first input.
#[derive(Drop, Debug)]
pub struct CompareFiles {
    /// The path of the second input, which is `-` if that is standard input.
    pub after: String,
    /// The file with names for the first input, if there is one. It is never a record.
    pub before_names: Option<RunFile>,
    /// The file with names for the second input, if there is one. It is never a record.
    pub after_names: Option<RunFile>,
}

/// The options of `cut`, without the files of names.
#[derive(Clone, Copy, Debug)]
pub struct AskedCut {
    /// The rank among the spawns, counted from 0, of the row at which the window begins.
    pub from: u64,
    /// How many rows that are spawned in the window it has at most, if there is a limit.
    pub rows: Option<u32>,
    /// Whether notes are left out.
    pub quiet: bool,
}

/// The files of names of `cut`.
#[derive(Drop, Debug)]
pub struct CutNames {
    /// The path of the file with the names for the stream.
    pub names: String,
    /// The path of the file that the names for the window are written to.
    pub out_names: String,
}

/// The options of `why` and of `compare` that report on many runs of a program.
#[derive(Clone, Copy, Debug)]
pub struct AskedRuns {
    /// Which runs are drawn.
    pub draws: AskedDraws,
    /// For how many workers runs are judged, if for any.
    pub workers: Option<Workers>,
    /// How rows share cowns in plans.
    pub sharing: Sharing,
    /// Whether notes are left out.
    pub quiet: bool,
}

/// A file given with an input that is a program or a record.
#[derive(Drop, Debug)]
pub enum RunFile {
    /// The record of the run of the program that comes in.
    Record(String),
    /// The names of rows and cowns.
    Names(String),
}

/// A file given with the input of `whatif`.
#[derive(Drop, Debug)]
pub enum WhatIfFile {
    /// The program that the record which comes in is of.
    Program(String),
    /// The record of the run of the program that comes in.
    Record(String),
    /// The names of rows and cowns.
    Names(String),
}

/// How many runs to draw, and how. The first has this seed, and each other one the next. The worker that moves next is picked at random among those that can,
/// or by random priorities if there is a depth.
#[derive(Clone, Copy, PartialEq, Eq, Debug)]
pub struct AskedDraws {
    pub runs: Runs,
    pub seed: u64,
    pub workers: Runners,
    pub depth: Option<Depth>,
}
