// A token that isn't allowed where it is, or the end of a text.

use crate::allowed::{Allowed, NAME, NUMBER};
use crate::hint::{is_open, put_hint};
use crate::spot::{Spot, Word};
use boc_reader::Expected;
use boc_said::place::is_first_word;
use boc_said::said::{Part, Said, Told};
use boc_said::view::{line_number, put_place};

// The most tokens that are reported as allowed.
const MOST_TOLD: usize = 3;

/// Writes what isn't allowed at a place, and what is.
pub(crate) fn put_unexpected(said: &mut Said, spot: Spot<'_>) -> Told {
    if is_size(spot) {
        put_place(said, spot.text, spot.at)?;
        return said.words("an array has 1 to 256 members");
    }
    let Some(expected) = Expected::of_text(said.alloc, spot.text)? else {
        return Ok(());
    };
    let allowed = Allowed::of(said.alloc, &expected)?;
    put_at(said, spot, &allowed)
}

// Writes what isn't allowed at a place where this is.
fn put_at(said: &mut Said, spot: Spot<'_>, allowed: &Allowed) -> Told {
    let ends_line = allowed.has(b";") && is_on_later_line(spot);
    if ends_line && is_open(spot.front) && begins_statement(spot) {
        put_place(said, spot.text, spot.at)?;
        put_found(said, spot)?;
        return said.words("this list is not closed: a list is `(values; cowns)`");
    }
    if let Some(last) = spot.front.last()
        && (ends_line || allowed.lacks_semicolon && ends_statement(spot))
    {
        put_place(said, spot.text, last.at.saturating_add(last.bytes.len()))?;
        let parts = [Part::Quote(last.bytes), spot.line(last.at)];
        return said.tell("a `;` is missing after {} on line {}", &parts);
    }
    put_place(said, spot.text, spot.at)?;
    put_found(said, spot)?;
    let ends_no_block = spot.rest.is_empty() || is_first_word(spot.after(0));
    if ends_no_block && allowed.has(b"}") && opens_more(spot.words) {
        return put_open(said, spot);
    }
    put_allowed(said, spot, allowed)?;
    put_hint(said, spot, allowed)
}

// Returns whether the word before a place is on an earlier line.
fn is_on_later_line(spot: Spot<'_>) -> bool {
    let line = line_number(spot.text, spot.at);
    spot.front
        .last()
        .is_some_and(|last| line_number(spot.text, last.at) < line)
}

// Returns whether the word at a place begins a statement, or ends a block.
fn begins_statement(spot: Spot<'_>) -> bool {
    let is_name = spot.rest.first().is_some_and(Word::is_name);
    is_name && spot.follows(1, "=") || spot.follows(0, "}") || spot.has_keyword(0)
}

// Returns whether a statement or a block ended before the word at a place. An `if` after a value is rather meant as one.
fn ends_statement(spot: Spot<'_>) -> bool {
    spot.follows(0, "}") || spot.has_keyword(0) && !spot.follows(0, "if else")
}

// Returns whether the text has more braces that begin a block than such as end one.
fn opens_more(words: &[Word<'_>]) -> bool {
    let begun = words.iter().filter(|word| word.is("{")).count();
    let ended = words.iter().filter(|word| word.is("}")).count();
    begun > ended
}

// Writes which blocks before a place are not closed.
#[rattlefmt::skip]
fn put_open(said: &mut Said, spot: Spot<'_>) -> Told {
    let mut closed: usize = 0;
    let mut count: u64 = 0;
    // Where the innermost of them begins, and the outermost.
    let (mut first, mut last) = (0, 0);
    for word in spot.front.iter().rev() {
        if word.is("{") && closed == 0 {
            first = if count == 0 { word.at } else { first };
            last = word.at;
            count = count.saturating_add(1);
        }
        closed = word.depth(closed, "}", "{");
    }
    if count == 1 {
        return said.tell("the block that begins on line {} is not closed: a `}` is missing", &[spot.line(first)]);
    }
    let words = "{} blocks are not closed: the innermost begins on line {}, the outermost on line {}";
    said.tell(words, &[Part::Number(count), spot.line(first), spot.line(last)])
}

// Returns whether the word is the size of an array, which is reported only where it is 0.
fn is_size(spot: Spot<'_>) -> bool {
    let named = spot.front.iter().rev().nth(1).is_some_and(Word::is_name);
    named && spot.follows(0, "0") && spot.precedes(0, "[") && spot.precedes(2, "cown")
}

// Writes what was found, and after what.
#[rattlefmt::skip]
fn put_found(said: &mut Said, spot: Spot<'_>) -> Told {
    let found = Part::Quote(spot.after(0));
    let is_end = spot.rest.is_empty();
    let Some(last) = spot.front.last() else {
        return if is_end {
            said.words("the program has no tokens")
        } else {
            said.tell("a program can't begin with {}", &[found])
        };
    };
    let (before, line) = (Part::Quote(last.bytes), spot.line(last.at));
    if is_end {
        return said.tell("the program can't end after {} on line {}", &[before, line]);
    }
    said.tell("{} can't follow {} on line {}", &[found, before, line])
}

// Writes what is expected instead of the word at a place.
fn put_allowed(said: &mut Said, spot: Spot<'_>, allowed: &Allowed) -> Told {
    let wants_name = allowed.has(NAME) && !allowed.has(NUMBER) && !allowed.has(b"let");
    if wants_name && spot.has_keyword(0) {
        let words = "expected a name; {} is a keyword";
        return said.tell(words, &[Part::Quote(spot.after(0))]);
    }
    let words = match allowed.tokens.len() {
        0 => "a program ends with main's block",
        1 => "expected {}",
        2 => "expected one of: {}, {}",
        MOST_TOLD => "expected one of: {}, {}, {}",
        _ => "expected one of: {}, {}, {}, ..",
    };
    let mut told = Vec::new(said.alloc);
    for token in allowed.tokens.iter().take(MOST_TOLD) {
        told.push(token.told())?;
    }
    said.tell(words, &told)
}
