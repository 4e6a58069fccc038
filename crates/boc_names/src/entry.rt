// One line of a file of names, and what it says.

ghost use Rattle.std.specs.Prelude.{◌≡◌, ◌==◌, ◌<◌, ℕ, List, length, position, IfOk, MatchOption, MatchResult};
ghost use Rattle.std.specs.Char.{is_ascii_graphic};
ghost use Rattle.std.specs.List.{list_all};
ghost use Rattle.boc_names.specs.NamesFile.{base_len, family_text, more_words, row_text};
ghost use Rattle.boc_names.specs.Said.{BreaksAt, IsNext, IsNumbered, IsOfCown, IsOfLine, IsOfRow, IsOfSplit, IsOfWords, PutsWords, SaysCown, SaysLine};
ghost use Rattle.boc_names.specs.Said.{SaysRow, SaysWords, Splits};

use crate::fault::NamesFaultKind;
use crate::texts::copied;
use boc_text::{MOST_LINE, read_number};
use memchr::memchr;
use std::alloc::{AllocError, Global};

/// What a thing is called, and the group that it is in: a row's def, or a cown's family.
#[derive(Drop, Debug)]
pub(crate) struct Called {
    pub text: Vec<u8>,
    pub group: Vec<u8>,
}

/// What a line says.
#[derive(Drop, Debug)]
pub(crate) enum Said {
    /// Nothing.
    Nothing,
    /// The row with this number is called so.
    OfRow(u32, Called),
    /// The cown with this number is called so.
    OfCown(u32, Called),
}

/// Returns the first line of a text, and what is after its line feed.
pub(crate) fn split_line(text: &[u8]) -> Result<(&[u8], &[u8]), NamesFaultKind>
    requires { 0 < length text.now }
    ensures { MatchResult result (λ parts. Splits text.now parts.0.now parts.1.now) (IsOfSplit text.now) }
{
    let most = text.len().min(MOST_LINE + 1);
    match memchr(b'\n', &text[..most]) {
        Some(end) => Ok((&text[..end], &text[end + 1..])),
        None if most > MOST_LINE => Err(NamesFaultKind::TooLong),
        None => Err(NamesFaultKind::Cut),
    }
}

// Returns how many bytes come before the first blank.
fn unbroken(text: &[u8]) -> usize
    ensures { BreaksAt text.now result }
{
    match memchr(b' ', text) {
        Some(len) => len,
        None => text.len(),
    }
}

// Returns whether all bytes are printed, and none is a blank.
fn is_printed(text: &[u8]) -> bool
    ensures { result ≡ list_all is_ascii_graphic text.now }
{
    text.iter().all(|byte| byte.is_ascii_graphic())
}

// Returns the word at the front of a text, after a blank, and what is after the word.
fn next_word(text: &[u8]) -> Option<(&[u8], &[u8])>
    ensures { MatchOption result ((word rest : List ℕ) → IsNext text.now word rest → ⊥) (λ parts. IsNext text.now parts.0.now parts.1.now) }
{
    let (first, after) = text.split_first()?;
    if *first != b' ' {
        return None;
    }
    let (word, rest) = after.split_at(unbroken(after));
    if word.is_empty() || !is_printed(word) {
        return None;
    }
    Some((word, rest))
}

// Returns the number and the name at the front of a text, and what is after them.
fn numbered_name(text: &[u8]) -> Option<(u32, &[u8], &[u8])>
    ensures { MatchOption result ((number : ℕ) (name rest : List ℕ) → IsNumbered text.now number name rest → ⊥)
        (λ parts. IsNumbered text.now parts.0 parts.1.now parts.2.now) }
{
    let (digits, after) = next_word(text)?;
    let number = read_number(digits)?;
    let (name, rest) = next_word(after)?;
    Some((number, name, rest))
}

// Appends words to others, each after a blank.
fn put_words(text: &mut Vec<u8>, words: &[u8]) -> Result<(), NamesFaultKind>
    ensures { MatchResult result (λ done. PutsWords words.now text.old.items text.new.items) (IsOfWords words.now) }
{
    if words.is_empty() {
        return Ok(());
    }
    let Some((word, others)) = next_word(words) else {
        return Err(NamesFaultKind::Form);
    };
    text.extend_from_slice(b", ")?;
    text.extend_from_slice(word)?;
    put_words(text, others)
}

// Returns what a row is called that has this name and arguments, each of which comes after a blank.
fn row_called(alloc: Global, name: &[u8], args: &[u8]) -> Result<Vec<u8>, NamesFaultKind>
    ensures { MatchResult result (λ text. SaysWords name.now args.now text.items) (IsOfWords args.now) }
{
    let mut text = copied(alloc, name)?;
    if args.is_empty() {
        return Ok(text);
    }
    let Some((first, others)) = next_word(args) else {
        return Err(NamesFaultKind::Form);
    };
    text.push(b'(')?;
    text.extend_from_slice(first)?;
    put_words(&mut text, others)?;
    text.push(b')')?;
    Ok(text)
}

// Returns what a line says of a row, after its `=`.
fn said_of_row(alloc: Global, text: &[u8]) -> Result<(u32, Called), NamesFaultKind>
    ensures { MatchResult result (λ said. SaysRow text.now said.0 said.1) (IsOfRow text.now) }
{
    let Some((row, name, args)) = numbered_name(text) else {
        return Err(NamesFaultKind::Form);
    };
    let text = row_called(alloc, name, args)?;
    let group = copied(alloc, name)?;
    Ok((row, Called { text, group }))
}

// Returns where the first `[` of a text is.
fn bracket_of(text: &[u8]) -> Option<usize>
    ensures { result ≡ position (λ b. b == 91) text.now }
{
    text.iter().position(|byte| *byte == b'[')
}

// Returns how many bytes of the name of an array's member come before its index.
fn base_len(name: &[u8]) -> Option<usize>
    ensures { result ≡ base_len name.now }
{
    let (_, others) = name.split_first()?;
    if !others.ends_with(b"]") {
        return None;
    }
    let len = bracket_of(others)?;
    Some(len + 1)
}

// Returns the name of the family of a cown with this name.
fn family_text(alloc: Global, name: &[u8]) -> Result<Vec<u8>, AllocError>
    ensures { IfOk result (λ text. text.items ≡ family_text name.now) }
{
    match base_len(name) {
        None => copied(alloc, name),
        Some(len) => {
            let mut text = copied(alloc, &name[..len])?;
            text.extend_from_slice(b"[*]")?;
            Ok(text)
        }
    }
}

// Returns what a line says of a cown, after its `@`.
fn said_of_cown(alloc: Global, text: &[u8]) -> Result<(u32, Called), NamesFaultKind>
    ensures { MatchResult result (λ said. SaysCown text.now said.0 said.1) (IsOfCown text.now) }
{
    let Some((cown, name, rest)) = numbered_name(text) else {
        return Err(NamesFaultKind::Form);
    };
    if !rest.is_empty() {
        return Err(NamesFaultKind::Form);
    }
    let text = copied(alloc, name)?;
    let group = family_text(alloc, name)?;
    Ok((cown, Called { text, group }))
}

/// Returns what a line says.
pub(crate) fn said_of(alloc: Global, line: &[u8]) -> Result<Said, NamesFaultKind>
    ensures { MatchResult result (SaysLine line.now) (IsOfLine line.now) }
{
    let Some((first, text)) = line.split_first() else {
        return Ok(Said::Nothing);
    };
    match first {
        b'#' => Ok(Said::Nothing),
        b'=' => {
            let (row, called) = said_of_row(alloc, text)?;
            Ok(Said::OfRow(row, called))
        }
        b'@' => {
            let (cown, called) = said_of_cown(alloc, text)?;
            Ok(Said::OfCown(cown, called))
        }
        _ => Err(NamesFaultKind::Form),
    }
}
