//! The limits of the language, of runs and of plans, which code and definitions take from here.

/// The most bytes of a program text.
pub const MOST_TEXT: usize = 65_536;

/// The most cowns of a program; an array counts its members.
pub const MOST_COWNS: usize = 256;

/// The most defs of a program, main not counted.
pub const MOST_DEFS: usize = 64;

/// The most bodies of a program: main and the defs.
pub const MOST_BODIES: usize = MOST_DEFS + 1;

/// The most nodes of a body.
pub const MOST_NODES: usize = 1_000;

/// The most value arguments of a behaviour.
pub const MOST_ARGUMENTS: usize = 8;

/// The most cowns of a behaviour.
pub const MOST_HELD: usize = 8;

/// The most slots of a body: its parameters, and at most one local for each of its nodes.
pub const MOST_SLOTS: usize = MOST_ARGUMENTS + MOST_HELD + MOST_NODES;

/// The most ticks of a behaviour.
pub const MOST_TICKS: u32 = 1_000_000;

/// The most behaviours of a run, main included: each has a row.
pub const MOST_ROWS: usize = 65_535;

/// The most workers that run a program.
pub const MOST_RUNNERS: usize = 16;

/// The greatest depth of random priorities.
pub const MOST_DEPTH: u32 = 16;

/// The most draws.
pub const MOST_RUNS: u32 = 1_000_000;

/// The most workers of a greedy plan.
pub const MOST_WORKERS: u32 = 64;

/// The greatest numerator and denominator of the part that a row's cost is set to.
pub const MOST_PART: u32 = 1_000;
