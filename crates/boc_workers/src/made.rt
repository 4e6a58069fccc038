// What one worker made.

ghost use Rattle.std.specs.Prelude.{◌≡◌, ◌+◌, ◌^◌, ◌<◌};

use std::sync::ledger::{Book, Ledger, Share};

/// How many steps a worker made, and its share of the ledger, which has this amount.
#[derive(Drop)]
pub struct Made<L: Ledger> {
    count: u64,
    share: Share<L>,
    pub ghost one_part: { share.parts ≡ 1 },
    pub ghost equal: { share.amount ≡ count },
}

impl<L: Ledger> Made<L> {
    /// Returns a worker's count of no steps, with its share.
    pub fn new(share: Share<L>) -> Made<L>
        requires { (share.parts ≡ 1) × (share.amount ≡ 0) }
        ensures { result.count ≡ 0 }
    {
        Made { count: 0, share }
    }

    /// Returns how many steps were made.
    pub fn count(&self) -> u64
        ensures { result ≡ self.now.count }
    {
        self.count
    }

    // Enters one step into the book.
    pub(crate) fn enter(&mut self, book: &mut Book<L>)
        requires { book.old.total + 1 < 2 ^ 64 }
        ensures total { book.new.total ≡ book.old.total + 1 }
        ensures count { self.new.count ≡ self.old.count + 1 }
    {
        let Made { count, share } = self;
        book.audit(share);
        book.add(share, 1);
        *count += 1;
    }

    // Returns the count, and the share.
    pub(crate) fn into_parts(self) -> (u64, Share<L>)
        ensures parts { result.1.parts ≡ 1 }
        ensures amount { result.1.amount ≡ result.0 }
    {
        let Made { count, share } = self;
        (count, share)
    }
}
