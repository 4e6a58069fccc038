//! Numbers as decimal text.

ghost use Rattle.std.specs.Prelude.{◌≡◌, ◌++◌, ◌+◌, ◌∷◌, ◌<◌, ◌≤◌, ◌^◌, ℕ, decimal, drop, length, OnOk, OnErr, MatchOption};
ghost use Rattle.std.specs.Fmt.{signed_decimal};
ghost use Rattle.boc_text.specs.declared.decimal.TheConstants.{MOST_DIGITS};
ghost use Rattle.std.specs.Str.Parse.{AllDigits, digits_value};

use itoa::{Buffer, write_digits};
use std::alloc::AllocError;

/// The most digits of a number of 64 bits.
pub const MOST_DIGITS: usize = 20;

/// Puts a number after the text. After a refusal of memory the text is as before.
pub fn put_number(text: &mut Vec<u8>, number: u64) -> Result<(), AllocError>
    ensures ok { OnOk result (text.new.items ≡ text.old.items ++ decimal number) }
    ensures err { OnErr result (text.new.items ≡ text.old.items) }
{
    text.extend_from_slice(Buffer::new().format(number).as_bytes())
}

/// Puts a number after the text, with a minus before a negative one. After a refusal of memory
/// the text is as before.
pub fn put_signed(text: &mut Vec<u8>, value: i64) -> Result<(), AllocError>
    ensures ok { OnOk result (text.new.items ≡ text.old.items ++ signed_decimal value) }
    ensures err { OnErr result (text.new.items ≡ text.old.items) }
{
    text.extend_from_slice(Buffer::new().format(value).as_bytes())
}

/// Writes a number before what a line has from a place on, with a byte between them, and says where it begins.
pub fn write_before(line: &mut [u8], place: usize, number: u64, between: u8) -> usize
    requires room { MOST_DIGITS < place }
    requires within { place ≤ length line.old }
    ensures written { drop result line.new ≡ decimal number ++ between ∷ drop place line.old }
    ensures before { result < place }
    ensures near { place ≤ result + MOST_DIGITS + 1 }
{
    let end = place - 1;
    line[end] = between;
    write_digits(number, line, end)
}

// Returns the number that digits are worth.
fn value_of(digits: &[u8]) -> Option<u32>
    ensures { MatchOption result ((n : ℕ) → n < 2 ^ 32 → digits.now ≡ decimal n → ⊥)
        (λ n. (n < 2 ^ 32) × AllDigits 10 digits.now × (digits_value 10 digits.now ≡ n)) }
{
    let mut number: u32 = 0;
    for byte in digits {
        if !byte.is_ascii_digit() {
            return None;
        }
        number = number
            .checked_mul(10)?
            .checked_add(u32::from(*byte - b'0'))?;
    }
    Some(number)
}

/// Returns the number that a decimal text is: `0`, or digits of which the first is no `0`, and at most
/// 4,294,967,295. No other text is a number.
pub fn read_number(bytes: &[u8]) -> Option<u32>
    ensures { MatchOption result ((n : ℕ) → n < 2 ^ 32 → bytes.now ≡ decimal n → ⊥) (λ n. bytes.now ≡ decimal n) }
{
    if bytes.is_empty() {
        return None;
    }
    if bytes[0] == b'0' && bytes.len() > 1 {
        return None;
    }
    value_of(bytes)
}
