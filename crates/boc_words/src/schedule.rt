// How a program is run.

use boc_program::count::{Depth, Runners};

/// How a program is run.
#[derive(Clone, Copy, PartialEq, Eq, Debug)]
pub enum Schedule {
    /// By the given number of threads.
    Threads(Runners),
    /// As the given number of workers on one thread, of which the one that moves next is picked by a seed: at random among all that can, or by random
    /// priorities of this depth.
    Drawn {
        workers: Runners,
        seed: u64,
        depth: Option<Depth>,
    },
    /// As the given number of workers on one thread that take ticks as time.
    Timed(Runners),
}
