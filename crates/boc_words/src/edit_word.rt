// The words of edits.

ghost use Rattle.std.specs.Prelude.{◌≡◌, ◌<◌, ◌⊎◌, ◌↔◌, ◌∷◌, ◌++◌, ◌^◌, ℕ, List, IfNone, IfOk, IfSome, IsTrue, MatchOption, decimal};
ghost use Rattle.boc_plans.specs.Fractions.{Fraction};
ghost use Rattle.boc_words.specs.EditWords.{HasOther, IsCostWord, IsEditWord, IsPart, IsWritable, cost_word, edit_word, is_edit};

use crate::asked::AskedEdit;
use boc_plans::edit::{Change, Edit, Part};
use boc_text::read_number;
use std::alloc::{AllocError, Global};

// Returns whether a word looks like an edit: it has an equals sign or an at sign.
pub(crate) fn is_edit(word: &str) -> bool
    ensures { result ≡ is_edit word.now }
{
    word.as_bytes()
        .iter()
        .any(|byte| *byte == b'=' || *byte == b'@')
}

// Returns the edit that a word is: `ROW=TICKS`, `ROW@OFFSET` or `ROW=K/D`, of plain decimals, K and D from 1 to 1,000 and the others up to
// 4,294,967,295, or `DEF=K/D`, of a name that is not of digits alone. A name may have equals signs: the last one of the word parts it from the part. No other
// word is an edit.
pub(crate) fn edit_of(alloc: Global, word: &str) -> Result<Option<AskedEdit>, AllocError>
    ensures none { IfOk result (λ edit. IfNone edit (IsEditWord word.now → ⊥)) }
    ensures word { IfOk result (λ edit. IfSome edit (λ e. word.now ≡ edit_word e)) }
    ensures writable { IfOk result (λ edit. IfSome edit IsWritable) }
{
    if let Some((row, ticks)) = numbers_around(word, '=') {
        let change = Change::Ticks(ticks);
        return Ok(Some(AskedEdit::Row(Edit { row, change })));
    }
    if let Some((row, offset)) = numbers_around(word, '@') {
        let change = Change::Offset(offset);
        return Ok(Some(AskedEdit::Row(Edit { row, change })));
    }
    cost_edit(alloc, word)
}

// Returns the edit that a word `ROW=K/D` or `DEF=K/D` is.
fn cost_edit(alloc: Global, word: &str) -> Result<Option<AskedEdit>, AllocError>
    ensures none { IfOk result (λ edit. IfNone edit (IsCostWord word.now → ⊥)) }
    ensures word { IfOk result (λ edit. IfSome edit (λ e. word.now ≡ edit_word e)) }
    ensures writable { IfOk result (λ edit. IfSome edit IsWritable) }
{
    let Some((subject, part)) = subject_and_part(word) else {
        return Ok(None);
    };
    if let Some(row) = read_number(subject.as_bytes()) {
        let change = Change::Cost(part);
        return Ok(Some(AskedEdit::Row(Edit { row, change })));
    }
    if !is_name(subject) {
        return Ok(None);
    }
    let name = String::from_str(alloc, subject)?;
    Ok(Some(AskedEdit::Def { name, part }))
}

// Returns what is before the last equals sign of a word, and the part after it, where the word is no more than that.
fn subject_and_part(word: &str) -> Option<(&str, Part)>
    ensures { MatchOption result
        ((subject : List ℕ) (part : Fraction) → IsPart part → word.now ≡ cost_word subject part → ⊥)
        (λ found. IsPart found.1 × (word.now ≡ cost_word found.0.now found.1)) }
{
    let (subject, part) = word.rsplit_once('=')?;
    let (over, under) = numbers_around(part, '/')?;
    Some((subject, Part::new(over, under)?))
}

// Returns whether a text is more than digits.
fn is_name(text: &str) -> bool
    ensures { IsTrue result ↔ HasOther text.now }
{
    text.as_bytes().iter().any(|byte| !byte.is_ascii_digit())
}

// Returns the two plain decimals up to 4,294,967,295 round the sign, where the word is no more than that. The sign is no digit.
fn numbers_around(word: &str, sign: char) -> Option<(u32, u32)>
    requires ascii { sign < 128 }
    requires no_digit { (sign < 48) ⊎ (57 < sign) }
    ensures { MatchOption result
        ((first second : ℕ) → first < 2 ^ 32 → second < 2 ^ 32 → word.now ≡ decimal first ++ (sign ∷ decimal second) → ⊥)
        (λ numbers. word.now ≡ decimal numbers.0 ++ (sign ∷ decimal numbers.1)) }
{
    let (first, second) = word.split_once(sign)?;
    let first = read_number(first.as_bytes())?;
    let second = read_number(second.as_bytes())?;
    Some((first, second))
}
