// Edits of rows, and what can be wrong with one.

ghost use Rattle.std.specs.Prelude.{◌≡◌, ◌<◌, ◌≤◌, ◌↔◌, IsSome, IfSome};

use boc_program::limits::MOST_PART;
use std::marker::Model;
use thiserror::Error;

/// A part of a cost: a numerator and a denominator, each from 1 to 1,000. Contracts see it as a `Fraction`.
#[derive(Clone, Copy, PartialEq, Eq, Debug)]
pub struct Part {
    over: u32,
    under: u32,
}

impl Model for Part {
    ghost use Rattle.std.specs.Prelude.{◌<◌, ◌≤◌};
    ghost use Rattle.boc_program.specs.declared.limits.TheConstants.{MOST_PART};
    ghost use Rattle.boc_plans.specs.Fractions.{Fraction};

    ghost Value = { Fraction };

    ghost view = { λ p. record { over = p.over; under = p.under } };

    ghost invariant = { λ p. (0 < p.over) × (p.over ≤ MOST_PART) × (0 < p.under) × (p.under ≤ MOST_PART) };

    ghost inverse = { λ f. record { over = f.over; under = f.under } };
}

impl Part {
    /// Returns this part, if both numbers are from 1 to 1,000.
    pub fn new(over: u32, under: u32) -> Option<Part>
        ensures valid { IsSome result ↔ ((0 < over) × (over ≤ MOST_PART) × (0 < under) × (under ≤ MOST_PART)) }
        ensures over { IfSome result (λ part. part.over ≡ over) }
        ensures under { IfSome result (λ part. part.under ≡ under) }
    {
        let valid = 1..=MOST_PART;
        if valid.contains(&over) && valid.contains(&under) {
            Some(Part { over, under })
        } else {
            None
        }
    }

    /// Returns the numerator.
    pub fn over(self) -> u32
        ensures value { result ≡ self.over }
        ensures some { 0 < self.over }
        ensures few { self.over ≤ MOST_PART }
    {
        self.over
    }

    /// Returns the denominator.
    pub fn under(self) -> u32
        ensures value { result ≡ self.under }
        ensures some { 0 < self.under }
        ensures few { self.under ≤ MOST_PART }
    {
        self.under
    }
}

/// What of a row is to change.
#[derive(Clone, Copy, PartialEq, Eq, Debug)]
pub enum Change {
    /// It takes this many ticks.
    Ticks(u32),
    /// It is spawned at this tick of its parent.
    Offset(u32),
    /// It costs this part of what it did, and spawns its children this much sooner or later.
    Cost(Part),
}

/// A row that is to change, and how.
#[derive(Clone, Copy, PartialEq, Eq, Debug)]
pub struct Edit {
    /// The number of the row.
    pub row: u32,
    /// What of it is to change.
    pub change: Change,
}

/// Why a row cannot be changed so; of several reasons the first that holds.
#[derive(Clone, Copy, PartialEq, Eq, Debug, Error)]
pub enum EditFault {
    /// There is no such row.
    #[error("there is no such row")]
    NoRow,
    /// The ticks are 0, or below the offset of the row's last child.
    #[error("the ticks are fewer than 1, or than the row had counted at its last spawn")]
    BelowSpawn,
    /// The ticks are above 1,000,000, or would be.
    #[error("the ticks are more than 1,000,000")]
    TooManyTicks,
    /// The row is main, which no row spawned.
    #[error("main has no parent")]
    NoParent,
    /// The offset isn't above the earlier sibling's, or isn't below the later sibling's, or is above the parent's ticks, or is 0.
    #[error("the offset is not between those of the row's siblings, or is more than its parent's ticks")]
    NotBetween,
}
