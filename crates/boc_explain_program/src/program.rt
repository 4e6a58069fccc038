// Faults of program texts.

use crate::counted::{put_too_many, put_wrong_count};
use crate::named::{put_taken, put_unknown};
use crate::shaped::put_unexpected;
use crate::spot::{Spot, is_among, words_of};
use boc_reader::{ReadFault, ReadFaultKind as Kind};
use boc_said::place::{
    Place, Text, has_start, looks_like_names, looks_like_record, put_names_file, put_nothing,
    put_pair,
};
use boc_said::said::Part::{Hex, Number, Quote, Words};
use boc_said::said::{Explained, Said, Told, first_case};
use boc_said::view::{first_line, last_line, put_place};
use std::alloc::Global;

/// Returns what is reported of a program text after the line of its fault. There is nothing to report where the place of the fault wasn't kept.
pub fn explain_program(
    alloc: Global,
    text: Text<'_>,
    place: Place<'_>,
    fault: ReadFault,
) -> Explained {
    let mut said = Said::new(alloc);
    said.set_place(u64::from(fault.line), 1);
    put_text(&mut said, text, place, fault)?;
    said.into_text(text.name)
}

fn put_text(said: &mut Said, text: Text<'_>, place: Place<'_>, fault: ReadFault) -> Told {
    let at = fault.at as usize;
    if text.bytes.is_empty() && text.whole {
        put_nothing(said, text)
    } else if looks_like_record(text.bytes) {
        put_record(said, place)
    } else if looks_like_names(text.bytes) {
        put_names_file(said)
    } else if has_start(text.bytes) {
        said.words("this looks like a record, but its first line is not `boc 2 COWNS`")
    } else if at <= text.bytes.len() {
        put_fault(said, text.bytes, fault.kind, at)
    } else {
        Ok(())
    }
}

// Writes that a record is where a program is wanted.
fn put_record(said: &mut Said, place: Place<'_>) -> Told {
    if place.is_of_pair() {
        return put_pair(said, place, true);
    }
    let words =
        "this looks like a record; {} reads programs: check, profile, whatif, curve, sweep, why, cowns and compare read records";
    said.tell(words, &[Words(place.command)])
}

fn put_fault(said: &mut Said, text: &[u8], kind: Kind, at: usize) -> Told {
    match kind {
        Kind::TooLong => said.words("a program text has at most 65536 bytes"),
        Kind::Memory => Ok(()),
        Kind::NotAscii | Kind::BadToken | Kind::NumberTooLarge => {
            put_place(said, text, at)?;
            let (front, rest) = text.split_at(at.min(text.len()));
            put_no_token(said, kind, front, rest)
        }
        _ => {
            let words = words_of(said.alloc, text)?;
            put_word(said, kind, Spot::new(text, &words, at))
        }
    }
}

// Writes about a fault of the word at a place.
fn put_word(said: &mut Said, kind: Kind, spot: Spot<'_>) -> Told {
    if kind == Kind::Unexpected {
        return put_unexpected(said, spot);
    }
    put_place(said, spot.text, spot.at)?;
    match kind {
        Kind::UnknownName => put_unknown(said, spot),
        Kind::NameTaken => put_taken(said, spot),
        Kind::WrongCount => put_wrong_count(said, spot),
        _ => put_too_many(said, spot),
    }
}

// Returns whether names, keywords and numbers are made of such bytes.
fn is_name_byte(byte: u8) -> bool {
    byte.is_ascii_alphanumeric() || byte == b'_'
}

// Writes about bytes after this front that form no token: a number that is none, a name that is too long, or a byte that begins none.
#[rattlefmt::skip]
fn put_no_token(said: &mut Said, kind: Kind, front: &[u8], rest: &[u8]) -> Told {
    let size = rest.iter().take_while(|byte| is_name_byte(**byte)).count();
    let (run, _) = rest.split_at(size.min(rest.len()));
    let first = rest.first().copied().unwrap_or(0);
    let is_sign = first.is_ascii_graphic() && run.is_empty();
    if kind == Kind::BadToken && is_sign {
        return put_sign(said, first, front, rest);
    }
    let is_decimal = run.iter().all(u8::is_ascii_digit);
    let of_byte = first_case(&[
        (kind == Kind::NotAscii, "the byte {} is not ASCII; programs are ASCII, their comments too"),
        (!first.is_ascii_graphic(), "the byte {} is not a token"),
    ]);
    let of_run = first_case(&[
        (kind == Kind::NumberTooLarge, "{} is above 9223372036854775807, the largest number"),
        (first == b'0' && is_decimal, "{}: a number can't begin with 0, except 0 itself"),
        (first.is_ascii_digit(), "{}: a number has only digits, and a name can't begin with one"),
    ]);
    match (of_byte, of_run) {
        (Some(words), _) => said.tell(words, &[Hex(first)]),
        (None, Some(words)) => said.tell(words, &[Quote(run)]),
        (None, None) => said.tell("{}: a name has at most 32 bytes, and this one has {}", &[Quote(run), Number(size as u64)]),
    }
}

// Writes about a sign between this front and the rest, which it begins, and what is written instead of it here.
fn put_sign(said: &mut Said, sign: u8, front: &[u8], rest: &[u8]) -> Told {
    let (bytes, behind) = rest.split_at(rest.len().min(1));
    let instead = if sign == b':' {
        colon_words(front, behind)
    } else {
        other_words(sign, front, behind)
    };
    let parts = [Quote(bytes), Words(instead.unwrap_or(""))];
    said.tell("{} is not a token{}", &parts)
}

// After such a word a block begins, here or in other languages.
const OPENING: &str = "if repeat else main while for elif";

const BLOCK: &str = ": a block is `{ .. }`";

const ENDED: &str = ": a statement ends with `;`";

// Returns what is written here instead of what a colon between these bytes is in other languages.
#[rattlefmt::skip]
fn colon_words(front: &[u8], behind: &[u8]) -> Option<&'static str> {
    let line = in_block(last_line(front));
    let next = behind.first().copied().unwrap_or(b'\n');
    let then = behind.get(1).copied().unwrap_or(b'\n');
    first_case(&[
        (next == b'=' && front.ends_with(b"="), ": compare two values with `==`"),
        (next == b'=', ": declare a local with `let NAME = ..;`, and change it with `NAME = ..;`"),
        (has_word(line, OPENING), BLOCK),
        (has_word(line, "when") && is_list_open(line), ": a spawn is `when NAME(values; cowns);`"),
        (has_word(line, "def") && line.contains(&b')') && !opens_block(behind), BLOCK),
        (next == b'\n' || next == b'\r', ENDED),
        (next == b' ' && then.is_ascii_alphabetic(), ": there are no types, all values are integers"),
    ])
}

// Returns what comes after the last brace of a line.
fn in_block(line: &[u8]) -> &[u8] {
    let mut parts = line.rsplit(|byte| matches!(*byte, b'{' | b'}'));
    parts.next().unwrap_or(line)
}

// Returns whether a block begins on the line of which these bytes are the rest.
fn opens_block(rest: &[u8]) -> bool {
    first_line(rest).contains(&b'{')
}

// Returns whether the last parenthesis of a line is one that opens.
fn is_list_open(line: &[u8]) -> bool {
    let last = line.iter().rev().find(|byte| matches!(**byte, b'(' | b')'));
    last == Some(&b'(')
}

// Returns whether a line has one of these words, separated by blanks.
fn has_word(line: &[u8], words: &str) -> bool {
    let mut found = line.split(|byte| !is_name_byte(*byte));
    found.any(|word| is_among(word, words))
}

// Returns what is written here instead of what this sign between these bytes is in other languages.
#[rattlefmt::skip]
fn other_words(sign: u8, front: &[u8], behind: &[u8]) -> Option<&'static str> {
    let last = front.last().copied().unwrap_or(b'\n');
    let next = behind.first().copied().unwrap_or(b'\n');
    let (is_behind_name, is_before_name) = (is_name_byte(last), is_name_byte(next));
    let is_not = sign == b'!';
    let is_quote = sign == b'\'';
    if sign == b'.' {
        return dot_words(front, last, next);
    }
    first_case(&[
        (sign == b'&' && next == b'&', ": write `and` as a product, `(x == 1) * (y == 2)`, of which both sides are evaluated"),
        (sign == b'|' && next == b'|', ": write `or` as a sum, `(x == 1) + (y == 2)`, of which both sides are evaluated"),
        (is_not && last == b'=', ": `x != y` is 1 if they differ"),
        ((is_not || is_quote || sign == b'?') && is_behind_name, ""),
        (is_not && (is_before_name || next == b'('), ": `x == 0` is 1 if x is 0, else 0"),
        (is_quote || sign == b'"', ": there are no strings, all values are integers"),
        (sign == b'?', ": an `if` is a statement, not a value: `if .. { .. } else { .. }`"),
    ])
}

// Returns what is written here instead of what a dot after this front, between these two bytes, is in other languages.
#[rattlefmt::skip]
fn dot_words(front: &[u8], last: u8, next: u8) -> Option<&'static str> {
    let is_of_number = last.is_ascii_digit() || next.is_ascii_digit() && !is_name_byte(last);
    first_case(&[
        (next == b'.' && has_word(last_line(front), "for"), ": the only loop is `repeat N { .. }`"),
        (is_of_number, ": values are integers"),
        (is_name_byte(last) && is_name_byte(next), ": a name has no members"),
        (next == b'\n' || next == b'\r', ENDED),
    ])
}
