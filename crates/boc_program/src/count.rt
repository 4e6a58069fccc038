//! Numbers from 1 to a limit.

ghost use Rattle.std.specs.Prelude.{◌≡◌, ◌<◌, ◌≤◌, ◌↔◌, IsSome, IfSome};

use crate::limits::{MOST_DEPTH, MOST_RUNNERS, MOST_RUNS, MOST_WORKERS};
use std::marker::Model;

/// A number from 1 to `MOST`.
#[derive(Clone, Copy, PartialEq, Eq, Debug)]
pub struct Count<const MOST: u32> {
    number: u32,
}

// The most workers that run a program, as counts have it.
const RUNNERS: u32 = MOST_RUNNERS as u32;

/// The depth of random priorities.
pub type Depth = Count<MOST_DEPTH>;

/// The number of workers that run a program, each in a thread of its own.
pub type Runners = Count<RUNNERS>;

/// The number of runs that are drawn.
pub type Runs = Count<MOST_RUNS>;

/// The number of workers of a greedy plan.
pub type Workers = Count<MOST_WORKERS>;

impl<const MOST: u32> Model for Count<MOST> {
    ghost use Rattle.std.specs.Prelude.{ℕ, ◌<◌, ◌≤◌};

    ghost Value = { ℕ };

    ghost view = { λ c. c.number };

    ghost invariant = { λ c. (0 < c.number) × (c.number ≤ MOST) };

    ghost inverse = { λ n. record { number = n } };
}

impl<const MOST: u32> Count<MOST> {
    /// Returns this number as a count, if it is one from 1 to `MOST`.
    pub fn new(number: u32) -> Option<Count<MOST>>
        ensures valid { IsSome result ↔ ((0 < number) × (number ≤ MOST)) }
        ensures value { IfSome result (λ c. c ≡ number) }
    {
        if (1..=MOST).contains(&number) {
            Some(Count { number })
        } else {
            None
        }
    }

    /// Returns the number.
    pub fn number(self) -> u32
        ensures value { result ≡ self.entry }
        ensures some { 0 < self.entry }
        ensures few { self.entry ≤ MOST }
    {
        self.number
    }
}
