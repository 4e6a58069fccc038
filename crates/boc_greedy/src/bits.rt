// Single bits of a word.

ghost use Rattle.std.specs.Prelude.{◌≡◌, ◌≢◌, ℕ, ◌<◌};
ghost use Rattle.std.specs.Int.{bit_at};

/// Returns the word with this bit set.
pub fn with_bit(word: u64, bit: u32) -> u64
    requires { bit < 64 }
    ensures set { bit_at result bit ≡ 1 }
    ensures others { (i : ℕ) → i ≢ bit → bit_at result i ≡ bit_at word i }
{
    word | (1 << bit)
}

/// Returns the word with this bit cleared.
pub fn without_bit(word: u64, bit: u32) -> u64
    requires { bit < 64 }
    ensures cleared { bit_at result bit ≡ 0 }
    ensures others { (i : ℕ) → i ≢ bit → bit_at result i ≡ bit_at word i }
{
    word & !(1 << bit)
}
