//! What draws are requested.

ghost use Rattle.std.specs.Prelude.{◌≡◌};

use boc_draws::Way;

/// The given number of draws, of which the first has this seed and each other one the next, by the given number of workers, of which the one that moves next
/// is picked in this way.
#[derive(Clone, Copy, PartialEq, Eq, Debug)]
pub struct Asked {
    /// From 1 to 1,000,000.
    pub runs: u32,
    pub seed: u64,
    /// From 1 to 16.
    pub workers: u32,
    pub way: Way,
}

impl Asked {
    ghost use Rattle.boc_outcomes.specs.Samples.{seed_of};

    /// Returns the seed of the draw of this number, counted from 0. After the greatest of 64 bits comes 0.
    pub fn seed_of(&self, number: u32) -> u64
        ensures { result ≡ seed_of self.now.seed number }
    {
        self.seed.wrapping_add(u64::from(number))
    }
}
