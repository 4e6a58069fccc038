// The fields of a line: numbers, each after a space.

ghost use Rattle.std.specs.Prelude.{◌≡◌, ◌≤◌, ◌^◌, ◌<◌, ◌++◌, [], ℕ, List, All, length, MatchOption};
ghost use Rattle.boc_program.specs.declared.limits.TheConstants.{MOST_HELD};
ghost use Rattle.boc_record.specs.RecordTexts.{fields as fields_of};
ghost use Rattle.boc_record.specs.Fields.{IsFront, IsField, AreSmall};

use boc_program::short::Cowns;

/// The most digits of a number of 32 bits.
const MOST_DIGITS: usize = 10;

// Returns how many digits are at the front of a text, ten at most, and what they are worth.
fn front_digits(text: &[u8]) -> (usize, u64)
    ensures { IsFront text.now result.0 result.1 }
{
    let most = text.len().min(MOST_DIGITS);
    let mut value: u64 = 0;
    for i in 0..most {
        let byte = text[i];
        if !byte.is_ascii_digit() {
            return (i, value);
        }
        value = 10 * value + u64::from(byte - b'0');
    }
    (most, value)
}

/// Returns the field at the front of a text, and what comes after it.
pub fn split_field(text: &[u8]) -> Option<(u32, &[u8])>
    ensures { MatchOption result ((n : ℕ) (rest : List ℕ) → IsField text.now n rest → ⊥) (λ x. IsField text.now x.0 x.1.now) }
{
    let (first, after) = text.split_first()?;
    if *first != b' ' {
        return None;
    }
    let (len, value) = front_digits(after);
    if len == 0 {
        return None;
    }
    if after[0] == b'0' && len > 1 {
        return None;
    }
    let rest = &after[len..];
    if !rest.is_empty() && rest[0] != b' ' {
        return None;
    }
    if value > u64::from(u32::MAX) {
        return None;
    }
    Some((value as u32, rest))
}

/// Returns the cowns of a text of at most eight fields.
pub fn cowns_of(text: &[u8]) -> Option<Cowns>
    ensures { MatchOption result ((ns : List ℕ) → AreSmall ns → length ns ≤ MOST_HELD → text.now ≡ fields_of ns → ⊥)
        (λ v. AreSmall v.items × (length v.items ≤ MOST_HELD) × (text.now ≡ fields_of v.items)) }
{
    let mut cowns = Cowns::new();
    let mut rest = text;
    while !rest.is_empty() {
        let (cown, after) = split_field(rest)?;
        if cowns.is_full() {
            return None;
        }
        cowns.push(cown);
        rest = after;
    }
    Some(cowns)
}
