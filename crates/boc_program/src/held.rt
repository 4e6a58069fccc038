//! The cowns of a row, in bytes.

ghost use Rattle.std.specs.Prelude.{◌≡◌, ◌<◌, ◌≤◌, ◌==◌, ◌++◌, ◌∷◌, [], cond, not, length, All, MatchOption};
ghost use Rattle.boc_program.specs.declared.limits.TheConstants.{MOST_COWNS, MOST_HELD};
ghost use Rattle.boc_program.specs.Cowns.{freed};

use crate::limits::{MOST_COWNS, MOST_HELD};
use crate::short::{CownNo, Cowns, HeldCown};
use std::marker::Model;

/// At most eight cowns, each below 256, a byte for each. Contracts see them as those of `Cowns`.
#[derive(Drop, Debug)]
pub struct HeldCowns {
    /// The cowns come first. What comes after them is not looked at.
    numbers: [HeldCown; MOST_HELD],
    /// How many cowns there are.
    count: u8,
}

impl Model for HeldCowns {
    ghost use Rattle.std.specs.Prelude.{ℕ, ◌≤◌, take};
    ghost use Rattle.arrayvec.specs.ArrayVec.{ArrayVec};
    ghost use Rattle.boc_program.specs.declared.limits.TheConstants.{MOST_HELD};

    ghost Value = { ArrayVec ℕ };

    ghost view = { λ a. record { items = take a.count a.numbers } };

    ghost invariant = { λ a. a.count ≤ MOST_HELD };
}

// Appends a cown to others, unless it is the one that is left out.
fn put_unless(kept: &mut Cowns, number: HeldCown, cown: HeldCown)
    requires { length kept.old.items < MOST_HELD }
    ensures { kept.new.items ≡ kept.old.items ++ cond (not (number == cown)) (number ∷ []) [] }
{
    if number != cown {
        kept.push(CownNo::from(number));
    }
}

impl HeldCowns {
    /// Makes a list of no cowns.
    pub fn new() -> HeldCowns
        ensures { result.items ≡ [] }
    {
        HeldCowns {
            numbers: [0; MOST_HELD],
            count: 0,
        }
    }

    /// Keeps these cowns, in their order.
    pub fn of(cowns: &Cowns) -> HeldCowns
        requires { All (λ c. c < MOST_COWNS) cowns.now.items }
        ensures { result ≡ cowns.now }
    {
        let mut numbers = [0; MOST_HELD];
        for (place, cown) in cowns.iter().enumerate() {
            numbers[place] = *cown as HeldCown;
        }
        HeldCowns {
            numbers,
            count: cowns.len() as u8,
        }
    }

    /// Keeps these cowns, in their order, unless one of them has no byte.
    pub fn try_of(cowns: &Cowns) -> Option<HeldCowns>
        ensures { MatchOption result
            (All (λ c. c < MOST_COWNS) cowns.now.items → ⊥)
            (λ held. held ≡ cowns.now) }
    {
        if cowns.iter().all(|cown| (*cown as usize) < MOST_COWNS) {
            Some(HeldCowns::of(cowns))
        } else {
            None
        }
    }

    /// Returns the same cowns once more.
    pub fn duplicate(&self) -> HeldCowns
        ensures { result ≡ self.now }
    {
        HeldCowns {
            numbers: self.numbers,
            count: self.count,
        }
    }

    /// Returns these cowns except one, in their order.
    pub fn without(&self, cown: HeldCown) -> HeldCowns
        ensures { result ≡ freed cown self.now }
    {
        let mut kept = Cowns::new();
        for number in self.as_slice() {
            put_unless(&mut kept, *number, cown);
        }
        HeldCowns::of(&kept)
    }

    /// Returns the cowns, in their order.
    pub fn as_slice(&self) -> &[HeldCown]
        ensures value { result.now ≡ self.now.items }
        ensures few { length result.now ≤ MOST_HELD }
    {
        &self.numbers[..self.count as usize]
    }

    /// Returns the same cowns, as an event has them.
    pub fn widened(&self) -> Cowns
        ensures same { result ≡ self.now }
        ensures small { All (λ c. c < MOST_COWNS) result.items }
    {
        let mut cowns = Cowns::new();
        for cown in self.as_slice() {
            cowns.push(CownNo::from(*cown));
        }
        cowns
    }
}
