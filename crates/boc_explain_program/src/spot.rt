// A place in the words of a program text: its tokens, as bytes.

use crate::declared::{Thing, next_thing, thing_of};
use boc_reader::{Token, read_tokens};
use boc_said::said::Part;
use boc_said::view::line_number;
use std::alloc::{AllocError, Global};

/// A token of a text, and the place of its first byte.
#[derive(Clone, Copy)]
pub(crate) struct Word<'a> {
    pub(crate) bytes: &'a [u8],
    pub(crate) at: usize,
    /// What it is declared as here, if it is a name that is.
    pub(crate) thing: Option<Thing>,
    token: Token<'a>,
}

impl Word<'_> {
    /// Says whether it is one of these, separated by blanks.
    pub(crate) fn is(&self, these: &str) -> bool {
        is_among(self.bytes, these)
    }

    /// Says whether it is a name, and no keyword.
    pub(crate) fn is_name(&self) -> bool {
        matches!(self.token, Token::Name(_))
    }

    /// Returns how many brackets are open after this word, where this number of them is open before it. One of these opens a bracket, or closes it.
    pub(crate) fn depth(&self, before: usize, begin: &str, end: &str) -> usize {
        if self.is(begin) {
            before.saturating_add(1)
        } else if self.is(end) {
            before.saturating_sub(1)
        } else {
            before
        }
    }

    /// Says whether it is a keyword.
    pub(crate) fn is_keyword(&self) -> bool {
        matches!(self.token, Token::Keyword(_))
    }
}

/// Returns whether a word is one of these, separated by blanks. Where a text has no word, that one is empty.
pub(crate) fn is_among(word: &[u8], these: &str) -> bool {
    let mut these = these.as_bytes().split(|byte| *byte == b' ');
    these.any(|one| one == word)
}

/// A place in a text.
#[derive(Clone, Copy)]
pub(crate) struct Spot<'a> {
    pub(crate) text: &'a [u8],
    /// All words of the text, those before the place, and those from it on.
    pub(crate) words: &'a [Word<'a>],
    pub(crate) front: &'a [Word<'a>],
    pub(crate) rest: &'a [Word<'a>],
    pub(crate) at: usize,
}

impl<'a> Spot<'a> {
    /// Returns the place at this byte of a text that has these words.
    pub(crate) fn new(text: &'a [u8], words: &'a [Word<'a>], at: usize) -> Spot<'a> {
        let count = words.iter().take_while(|word| word.at < at).count();
        let (front, rest) = words.split_at(count.min(words.len()));
        Spot {
            text,
            words,
            front,
            rest,
            at,
        }
    }

    /// Returns the word that follows the place after this number of words, or nothing at the end of the text.
    pub(crate) fn after(self, skipped: usize) -> &'a [u8] {
        self.rest.get(skipped).map_or(b"", |word| word.bytes)
    }

    /// Returns the word before the place, with this number of words between, or nothing at the beginning of the text.
    pub(crate) fn before(self, skipped: usize) -> &'a [u8] {
        let mut before = self.front.iter().rev();
        before.nth(skipped).map_or(b"", |word| word.bytes)
    }

    /// Says whether the word that follows the place after this number of words is one of these.
    pub(crate) fn follows(self, skipped: usize, these: &str) -> bool {
        is_among(self.after(skipped), these)
    }

    /// Says whether the word before the place, with this number of words between, is one of these.
    pub(crate) fn precedes(self, skipped: usize, these: &str) -> bool {
        is_among(self.before(skipped), these)
    }

    /// Says whether the last word before the place that is one of these is this one.
    pub(crate) fn is_behind(self, word: &str, these: &str) -> bool {
        let last = self.front.iter().rev().find(|before| before.is(these));
        last.is_some_and(|last| last.is(word))
    }

    /// Says whether the word that follows the place after this number of words is a keyword.
    pub(crate) fn has_keyword(self, skipped: usize) -> bool {
        self.rest.get(skipped).is_some_and(Word::is_keyword)
    }

    /// Returns the line of this byte of the text, as a part of a line.
    pub(crate) fn line(self, at: usize) -> Part<'a> {
        Part::Number(line_number(self.text, at))
    }
}

/// Returns the words of a text in their order, or none where something in the text is no token.
pub(crate) fn words_of(alloc: Global, text: &[u8]) -> Result<Vec<Word<'_>>, AllocError> {
    let mut words = Vec::new(alloc);
    let Some(tokens) = read_tokens(alloc, text)? else {
        return Ok(words);
    };
    let mut next = None;
    for (place, placed) in tokens.iter().enumerate() {
        if let Some(bytes) = text.get(placed.at..placed.end) {
            let behind = tokens.get(place.saturating_add(1)).map(|it| it.token);
            let (at, token) = (placed.at, placed.token);
            let thing = thing_of(next, token, behind);
            words.push(Word {
                bytes,
                at,
                thing,
                token,
            })?;
            next = next_thing(next, token);
        }
    }
    Ok(words)
}
