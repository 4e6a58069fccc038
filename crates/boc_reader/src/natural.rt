// The numbers of program texts.

ghost use Rattle.std.specs.Prelude.{◌≡◌, ◌<◌, ◌^◌, if◌then◌else◌, pos, neg_ℤ};

/// A number of a text, which fits 63 bits.
#[derive(Clone, Copy, PartialEq, Eq, Debug)]
pub struct Natural {
    pub value: u64,
    pub ghost small: { value < 2 ^ 63 },
}

impl Natural {
    /// Returns the number, after a minus or not.
    pub fn signed(self, negative: bool) -> i64
        ensures { result ≡ (if negative then neg_ℤ (pos self.value) else pos self.value) }
    {
        let value = self.value as i64;
        if negative { -value } else { value }
    }
}
