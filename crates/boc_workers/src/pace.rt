// How long a worker has to wait for the lock.

ghost use Rattle.std.specs.Prelude.{◌≡◌, ◌≤◌, ◌<◌, ◌+◌, ◌*◌, ◌^◌, ◌↔◌, true, false};

// A worker that has waited long this often is slow. It bears twice as many long waits, up to the second number, each time that the others missed it.
const LEAST_WAITS: u32 = 8;

const MOST_WAITS: u32 = 4096;

/// How often a worker has waited long for the lock, and how often it may before it is slow.
#[derive(Drop)]
pub(crate) struct Pace {
    waits: u32,
    most: u32,
}

impl Pace {
    /// Returns the pace of a worker that has not waited yet.
    pub(crate) fn new() -> Pace
        ensures { (result.waits ≡ 0) × (result.most ≡ 8) }
    {
        Pace {
            waits: 0,
            most: LEAST_WAITS,
        }
    }

    /// Counts a long wait.
    pub(crate) fn count(&mut self)
        ensures waits { self.old.waits + 1 < 2 ^ 32 → self.new.waits ≡ self.old.waits + 1 }
        ensures most { self.new.most ≡ self.old.most }
    {
        self.waits = self.waits.saturating_add(1);
    }

    /// Returns whether there were as many long waits as the worker bears.
    pub(crate) fn is_slow(&self) -> bool
        ensures { (result ≡ true) ↔ (self.now.most ≤ self.now.waits) }
    {
        self.waits >= self.most
    }

    /// Begins to count again. A worker that was missed bears twice as many long waits from now on, unless it bears the most already.
    pub(crate) fn begin_again(&mut self, was_missed: bool)
        ensures waits { self.new.waits ≡ 0 }
        ensures missed { was_missed ≡ true → self.old.most < 4096 → self.new.most ≡ self.old.most * 2 }
        ensures most { was_missed ≡ true → 4096 ≤ self.old.most → self.new.most ≡ self.old.most }
        ensures same { was_missed ≡ false → self.new.most ≡ self.old.most }
    {
        self.waits = 0;
        if was_missed && self.most < MOST_WAITS {
            self.most *= 2;
        }
    }
}
