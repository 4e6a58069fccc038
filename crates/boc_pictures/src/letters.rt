// A letter for each def.

use crate::columns::longest_word;
use crate::spelling::Spelling;
use crate::subject::Subject;
use crate::written::Written;
use std::alloc::{AllocError, Global};

// The letters and digits that stand for defs whose own are taken.
const OTHERS: &[u8] = b"abcdefghijklmnopqrstuvwxyzABCDEFGHIJKLMNOPQRSTUVWXYZ0123456789";

// The most bytes of the name of a def.
const MOST_NAME: usize = 40;

// What stands for a letter where none is free.
const NO_LETTER: u8 = b'*';

// Returns the first of these letters that is not taken.
fn first_free(letters: &[u8], taken: &[u8]) -> u8 {
    for letter in letters {
        if !taken.contains(letter) {
            return *letter;
        }
    }
    NO_LETTER
}

// Returns the letter of a def: its first one, small or great, or another one.
fn letter_of(name: &[u8], taken: &[u8]) -> u8 {
    let first = match name.first() {
        Some(first) => *first,
        None => NO_LETTER,
    };
    if !first.is_ascii_alphanumeric() {
        return first_free(OTHERS, taken);
    }
    let own = [first.to_ascii_lowercase(), first.to_ascii_uppercase()];
    match first_free(&own, taken) {
        NO_LETTER => first_free(OTHERS, taken),
        letter => letter,
    }
}

/// Returns a letter for each def of these names, or none at all where there are more defs than letters.
pub(crate) fn letters(alloc: Global, names: &[Vec<u8>]) -> Result<Vec<u8>, AllocError> {
    let mut letters = Vec::new(alloc);
    if names.len() > OTHERS.len() {
        return Ok(letters);
    }
    for name in names {
        let letter = letter_of(name, &letters);
        letters.push(letter)?;
    }
    Ok(letters)
}

/// Returns what stands for a row: the letter of its def, or, where there are no letters, `#` on the chain, and `=` elsewhere.
pub(crate) fn mark_of(letters: &[u8], subject: &Subject, row: u32) -> u8 {
    match letters.get(subject.def(row)) {
        Some(letter) => *letter,
        None if subject.is_on_chain(row) => b'#',
        None => b'=',
    }
}

/// Puts what marks stand for, each name so that it fits into a line of the given number of columns.
pub(crate) fn put_key(text: &mut Written, subject: &Subject, letters: &[u8], width: usize) {
    if letters.is_empty() {
        text.put("; # on the chain, = other rows");
        return;
    }
    // A comma follows it.
    let most = longest_word(width).saturating_sub(1).min(MOST_NAME);
    let mut first = true;
    for (letter, name) in letters.iter().zip(&subject.names.def_names) {
        text.put(if first { "; " } else { ", " });
        text.push(*letter);
        text.push(b' ');
        Spelling::Text.put(text, name, most);
        first = false;
    }
}
