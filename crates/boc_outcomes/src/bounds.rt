//! The smallest and the greatest of some numbers.

ghost use Rattle.std.specs.Prelude.{◌≡◌};
ghost use Rattle.boc_outcomes.specs.Tallies.{widened};

/// The smallest and the greatest of some numbers.
#[derive(Clone, Copy, PartialEq, Eq, Debug)]
pub struct Bounds {
    pub least: u64,
    pub most: u64,
}

impl Bounds {
    ghost use Rattle.std.specs.Prelude.{Some, None};

    /// Returns the bounds of this number alone.
    pub fn of(number: u64) -> Bounds
        ensures { result ≡ widened None number }
    {
        Bounds {
            least: number,
            most: number,
        }
    }

    /// Returns the bounds of one number more.
    pub fn with(self, number: u64) -> Bounds
        ensures { result ≡ widened (Some self) number }
    {
        Bounds {
            least: self.least.min(number),
            most: self.most.max(number),
        }
    }
}

/// Returns the bounds of one number more, where there may be none before it.
pub(crate) fn widen(bounds: Option<Bounds>, number: u64) -> Bounds
    ensures { result ≡ widened bounds number }
{
    match bounds {
        None => Bounds::of(number),
        Some(bounds) => bounds.with(number),
    }
}
