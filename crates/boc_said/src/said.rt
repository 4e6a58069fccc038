// The lines of an explanation as they are formed.

ghost use Rattle.std.specs.Prelude.{◌≡◌, [], All, IfOk, OnOk, string_bytes};
ghost use Rattle.std.specs.Option.{option_copied};
ghost use Rattle.boc_said.specs.Lines.{IsPrintable, IsShort, IsHeaded, AreLines, AreLinesOf};
ghost use Rattle.boc_said.specs.declared.said.TheConstants.{MOST_WIDTH};

use itoa::Buffer;
use std::alloc::{AllocError, Global};
use std::marker::Model;

// Each line begins with this, except one that begins with the name of a file.
const INDENT: &str = "     ";

// The most bytes of a line, and of one after its indent.
const MOST_LINE: usize = 160;

const MOST_WIDTH: usize = 155;

/// The most bytes of a text that are shown in quotes.
pub const MOST_QUOTE: usize = 64;

const DIGITS: &[u8] = b"0123456789ABCDEF";

/// What a function that appends lines returns.
pub type Told = Result<(), AllocError>;

/// What a function that forms a whole explanation returns: its lines, each with its line feed.
pub type Explained = Result<String, AllocError>;

/// A part of a line.
#[derive(Clone, Copy)]
pub enum Part<'a> {
    /// Words of the explanation's own.
    Words(&'a str),
    /// A number, in plain decimals.
    Number(u64),
    /// A byte, in hexadecimal.
    Hex(u8),
    /// So many things of this name.
    Many(u64, &'a str),
    /// Bytes of a text, in quotes; the first of them where they are many.
    Quote(&'a [u8]),
    /// Bytes of a text as they stand.
    Bytes(&'a [u8]),
}

/// Returns the words of the first of these cases that holds.
pub fn first_case<'a>(cases: &[(bool, &'a str)]) -> Option<&'a str> {
    let (_, words) = cases.iter().find(|case| case.0)?;
    Some(*words)
}

// How a byte is shown: a tab outside quotes as a blank, and any other that can't be printed as `?`.
fn shown(byte: u8, is_quoted: bool) -> char
    ensures { IsPrintable result }
{
    match byte {
        b'\t' if !is_quoted => ' ',
        0x20..0x7f => char::from(byte),
        _ => '?',
    }
}

// Appends bytes as they are shown, as far as there is space for them.
fn put(line: &mut String, bytes: &[u8], is_quoted: bool) -> Told
    requires { IsShort MOST_WIDTH (string_bytes line.old) }
    ensures { IsShort MOST_WIDTH (string_bytes line.new) }
{
    for byte in bytes {
        if line.len() < MOST_WIDTH {
            line.push(shown(*byte, is_quoted))?;
        }
    }
    Ok(())
}

// Appends a part of a line, as far as there is space for it.
fn put_part(line: &mut String, part: Part<'_>) -> Told
    requires { IsShort MOST_WIDTH (string_bytes line.old) }
    ensures { IsShort MOST_WIDTH (string_bytes line.new) }
{
    match part {
        Part::Words(words) => put(line, words.as_bytes(), false),
        Part::Number(number) => put(line, Buffer::new().format(number).as_bytes(), false),
        Part::Hex(byte) => {
            let (high, low) = (usize::from(byte >> 4), usize::from(byte & 15));
            put(line, &[b'0', b'x', DIGITS[high], DIGITS[low]], false)
        }
        Part::Many(number, name) => {
            put(line, Buffer::new().format(number).as_bytes(), false)?;
            put(line, b" ", false)?;
            put(line, name.as_bytes(), false)?;
            put(line, if number == 1 { b"" } else { b"s" }, false)
        }
        Part::Quote(bytes) => {
            put(line, b"`", false)?;
            put(line, &bytes[..bytes.len().min(MOST_QUOTE)], true)?;
            let end: &[u8] = if bytes.len() > MOST_QUOTE {
                b"..`"
            } else {
                b"`"
            };
            put(line, end, false)
        }
        Part::Bytes(bytes) => put(line, bytes, false),
    }
}

// A line without its indent that begins so: the words, with a part instead of each `{}`, and the parts that are left after them. What doesn't fit is
// left out.
fn formed(alloc: Global, begin: &str, words: &str, parts: &[Part<'_>]) -> Result<String, AllocError>
    requires { IsShort MOST_WIDTH begin.now }
    ensures { IfOk result (λ line. IsShort MOST_WIDTH (string_bytes line)) }
{
    let mut line = String::from_str(alloc, begin)?;
    let mut parts = parts.iter();
    for piece in words.split("{}") {
        put(&mut line, piece.as_bytes(), false)?;
        if let Some(part) = parts.next() {
            put_part(&mut line, *part)?;
        }
    }
    for part in parts {
        put_part(&mut line, *part)?;
    }
    Ok(line)
}

// Appends lines to a text, each after its indent.
fn put_lines(text: &mut String, lines: &[String]) -> Told
    requires lines { All (λ l. IsShort MOST_WIDTH (string_bytes l)) lines.now }
    requires text { AreLines (string_bytes text.old) }
    ensures { OnOk result (AreLines (string_bytes text.new)) }
{
    for line in lines {
        put_line(text, line)?;
    }
    Ok(())
}

// Appends a line to a text, after its indent.
fn put_line(text: &mut String, line: &str) -> Told
    requires line { IsShort MOST_WIDTH line.now }
    requires text { AreLines (string_bytes text.old) }
    ensures { OnOk result (AreLines (string_bytes text.new)) }
{
    text.push_str(INDENT)?;
    text.push_str(line)?;
    text.push_str("\n")?;
    Ok(())
}

// The first message of a file with this name, after the place of its fault; on the next line where both together are too long.
fn headed(alloc: Global, name: &str, place: &str, message: &str) -> Result<String, AllocError>
    requires place { IsShort MOST_WIDTH place.now }
    requires message { IsShort MOST_WIDTH message.now }
    ensures { IfOk result (λ text. IsHeaded name.now (string_bytes text)) }
{
    let mut text = String::from_str(alloc, name)?;
    text.push_str(place)?;
    let size = name.len().saturating_add(place.len() + 1 + message.len());
    text.push_str(if size > MOST_LINE { "\n     " } else { " " })?;
    text.push_str(message)?;
    text.push_str("\n")?;
    Ok(text)
}

/// The lines so far. Each is printable ASCII, and has at most 160 bytes with its indent.
#[derive(Drop)]
pub struct Said {
    /// Where they are allocated.
    pub alloc: Global,
    // The lines without their indents, and which of them is the first message.
    lines: Vec<String>,
    first: Option<usize>,
    // The line and the column of the fault in its file, both counted from 1.
    place: (u64, u64),
    // What lines about the subject begin with.
    subject: String,
}

impl Model for Said {
    ghost use Rattle.std.specs.Prelude.{List, ℕ, All, map, string_bytes};
    ghost use Rattle.boc_said.specs.Lines.{IsShort};
    ghost use Rattle.boc_said.specs.declared.said.TheConstants.{MOST_WIDTH};

    ghost Value = { List (List ℕ) };

    ghost view = { λ s. map string_bytes s.lines.items };

    ghost invariant = { λ s. All (λ l. IsShort MOST_WIDTH (string_bytes l)) s.lines.items × IsShort MOST_WIDTH (string_bytes s.subject) };
}

impl Said {
    /// Returns no lines yet, of a fault on the first line of a text.
    pub fn new(alloc: Global) -> Said
        ensures { result ≡ [] }
    {
        Said {
            alloc,
            lines: Vec::new(alloc),
            first: None,
            place: (1, 1),
            subject: String::new(alloc),
        }
    }

    /// Sets the place of the fault in its file: the line and the column, both counted from 1.
    pub fn set_place(&mut self, line: u64, column: usize)
        ensures { self.new ≡ self.old }
    {
        self.place = (line, column as u64);
    }

    /// Sets the column of the fault in its line.
    pub fn set_column(&mut self, column: usize)
        ensures { self.new ≡ self.old }
    {
        self.place.1 = column as u64;
    }

    /// Sets what the lines are about: a faulty line or word.
    pub fn set_subject(&mut self, subject: &[u8]) -> Told {
        self.subject = formed(self.alloc, "", "{}: ", &[Part::Quote(subject)])?;
        Ok(())
    }

    /// Appends a line about the subject, which it begins with, as `tell` does.
    pub fn about(&mut self, words: &str, parts: &[Part<'_>]) -> Told {
        let line = formed(self.alloc, &self.subject, words, parts)?;
        self.message(line)
    }

    /// Appends a line of these words, as `tell` does.
    pub fn words(&mut self, words: &str) -> Told {
        self.tell(words, &[])
    }

    /// Appends a line of these words, with a part instead of each `{}`, and the parts that are left after them. The first one of a named file comes before
    /// the lines that are shown of it, and begins with its place there.
    pub fn tell(&mut self, words: &str, parts: &[Part<'_>]) -> Told {
        let line = formed(self.alloc, "", words, parts)?;
        self.message(line)
    }

    // Appends a line that is a message.
    fn message(&mut self, line: String) -> Told
        requires { IsShort MOST_WIDTH (string_bytes line) }
    {
        if self.first.is_none() {
            self.first = Some(self.lines.len());
        }
        self.lines.push(line)?;
        Ok(())
    }

    /// Appends a line of these parts, which shows a text. What doesn't fit in a line is left out.
    pub fn shown(&mut self, parts: &[Part<'_>]) -> Told {
        let line = formed(self.alloc, "", "", parts)?;
        self.lines.push(line)?;
        Ok(())
    }

    /// Returns the lines, each with its line feed. Where the file with the fault has a name, the first message begins with it.
    pub fn into_text(self, name: Option<&str>) -> Result<String, AllocError>
        ensures { IfOk result (λ text. AreLinesOf (option_copied name.entry) (string_bytes text)) }
    {
        let mut rest = String::new(self.alloc);
        let (Some(name), Some(first)) = (name, self.first) else {
            put_lines(&mut rest, &self.lines)?;
            return Ok(rest);
        };
        let (before, others) = self.lines.split_at(first.min(self.lines.len()));
        put_lines(&mut rest, before)?;
        let Some((message, behind)) = others.split_first() else {
            return Ok(rest);
        };
        put_lines(&mut rest, behind)?;
        let (line, column) = self.place;
        let parts = [Part::Number(line), Part::Number(column)];
        let place = formed(self.alloc, "", ":{}:{}:", &parts)?;
        let mut text = headed(self.alloc, name, &place, message)?;
        text.push_str(&rest)?;
        Ok(text)
    }
}
