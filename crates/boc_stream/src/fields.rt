// The fields of a line: numbers, each after a space.

ghost use Rattle.std.specs.Prelude.{◌≡◌, ◌++◌, ℕ, List, IfOk, MatchOption};
ghost use Rattle.std.specs.Bool.{OnTrue, OnFalse};
ghost use Rattle.boc_stream.specs.StreamFields.{IsShortFront, IsShortField, IsOfShorts};

use std::alloc::AllocError;

/// The most digits of a number in a stream.
pub const MOST_DIGITS: usize = 18;

// Returns how many digits are at the front of a text, eighteen at most, and what they are worth.
fn front_digits(text: &[u8]) -> (usize, u64)
    ensures { IsShortFront text.now result.0 result.1 }
{
    let most = text.len().min(MOST_DIGITS);
    let mut value: u64 = 0;
    for i in 0..most {
        let byte = text[i];
        if !byte.is_ascii_digit() {
            return (i, value);
        }
        value = 10 * value + u64::from(byte - b'0');
    }
    (most, value)
}

/// Returns the field at the front of a text, and what comes after it.
pub fn split_field(text: &[u8]) -> Option<(u64, &[u8])>
    ensures { MatchOption result ((n : ℕ) (rest : List ℕ) → IsShortField text.now n rest → ⊥) (λ x. IsShortField text.now x.0 x.1.now) }
{
    let (first, after) = text.split_first()?;
    if *first != b' ' {
        return None;
    }
    let (len, value) = front_digits(after);
    if len == 0 {
        return None;
    }
    if after[0] == b'0' && len > 1 {
        return None;
    }
    let rest = &after[len..];
    if !rest.is_empty() && rest[0] != b' ' {
        return None;
    }
    Some((value, rest))
}

/// Puts the fields of a text in place of numbers, and says whether the text is fields and nothing else.
pub fn read_fields(numbers: &mut Vec<u64>, text: &[u8]) -> Result<bool, AllocError>
    ensures all { IfOk result (λ is_all. OnTrue is_all (IsOfShorts text.now numbers.new.items)) }
    ensures none { IfOk result (λ is_all. OnFalse is_all ((ns : List ℕ) → IsOfShorts text.now ns → ⊥)) }
{
    numbers.clear();
    let mut rest = text;
    while !rest.is_empty() {
        let Some((number, after)) = split_field(rest) else {
            return Ok(false);
        };
        numbers.push(number)?;
        rest = after;
    }
    Ok(true)
}
