// The names of a window's rows and cowns, by the names that a file gives to those of the stream.

ghost use Rattle.std.specs.Prelude.{◌≡◌, ◌<◌, OnOk};

use crate::lists::{is_set, mark};
use crate::window::Window;
use boc_stream::{LabelFault, LabelFaultKind};
use boc_text::{Found, Lines, MOST_LINE, Source, put_number};
use std::alloc::{AllocError, Global};

/// A line of names: whether it is a row's, a number of the stream, and the name after it.
#[derive(Clone, Copy)]
struct Label<'a> {
    is_row: bool,
    number: u64,
    name: &'a [u8],
}

/// Names of a window as they are written, and which of its rows and cowns have one.
#[derive(Drop)]
struct Labels {
    text: Vec<u8>,
    rows: Vec<bool>,
    cowns: Vec<bool>,
}

// Returns the number at the front of a text, and what comes after it and a space.
fn number_and_rest(text: &[u8]) -> Option<(u64, &[u8])> {
    let mut number: u64 = 0;
    for (place, byte) in text.iter().enumerate() {
        if *byte == b' ' {
            let is_plain = place > 0 && (place == 1 || text[0] != b'0');
            return if is_plain {
                Some((number, &text[place + 1..]))
            } else {
                None
            };
        }
        if !byte.is_ascii_digit() {
            return None;
        }
        number = number
            .checked_mul(10)?
            .checked_add(u64::from(*byte - b'0'))?;
    }
    None
}

// Returns whether a text is words of printable bytes with one space between them.
fn are_words(text: &[u8]) -> bool {
    let mut was_space = true;
    for byte in text {
        if *byte == b' ' {
            if was_space {
                return false;
            }
            was_space = true;
        } else if byte.is_ascii_graphic() {
            was_space = false;
        } else {
            return false;
        }
    }
    !was_space
}

// Returns what a line names, if it has the form of one that does.
fn label_of(line: &[u8]) -> Option<Label<'_>> {
    let (is_row, rest) = match line {
        [b'=', b' ', rest @ ..] => (true, rest),
        [b'@', b' ', rest @ ..] => (false, rest),
        _ => return None,
    };
    let (number, name) = number_and_rest(rest)?;
    if !are_words(name) || !is_row && name.contains(&b' ') {
        return None;
    }
    Some(Label {
        is_row,
        number,
        name,
    })
}

// Returns how many bytes of a name fit after a number, so that no argument is cut.
fn fitting(name: &[u8], room: usize) -> usize {
    if name.len() <= room {
        return name.len();
    }
    let mut last = room;
    for (place, byte) in name.iter().enumerate().take(room.saturating_add(1)) {
        if *byte == b' ' {
            last = place;
        }
    }
    last
}

// Returns the row of a window that is this one of the stream. Rows of the stream are in its order, except the first row after helpers.
fn row_of(window: &Window, number: u64) -> Option<usize> {
    if let Some(Some(first)) = window.origins.first() {
        if *first == number {
            return Some(0);
        }
    }
    match window.origins.split_first() {
        Some((_, others)) => match others.binary_search(&Some(number)) {
            Ok(place) => Some(place.saturating_add(1)),
            Err(_) => None,
        },
        None => None,
    }
}

// Returns the cown of a window that is this one of the stream.
fn cown_of(window: &Window, number: u64) -> Option<usize> {
    match window.cowns.binary_search(&number) {
        Ok(cown) => Some(cown),
        Err(_) => None,
    }
}

// Sets a mark, and says that it was not set.
fn mark_new(marks: &mut [bool], number: usize) -> bool {
    if is_set(marks, number) {
        return false;
    }
    mark(marks, number);
    true
}

impl Labels {
    // Returns no names yet, for these numbers of rows and cowns.
    fn new(alloc: Global, rows: usize, cowns: usize) -> Result<Labels, AllocError> {
        let mut labels = Labels {
            text: Vec::new(alloc),
            rows: Vec::with_capacity(alloc, rows)?,
            cowns: Vec::with_capacity(alloc, cowns)?,
        };
        for _ in 0..rows {
            labels.rows.push(false)?;
        }
        for _ in 0..cowns {
            labels.cowns.push(false)?;
        }
        Ok(labels)
    }

    // Appends a line. If a name is too long after its number, its last arguments are left out, or its end.
    fn put(&mut self, sign: u8, number: usize, name: &[u8]) -> Result<(), AllocError> {
        let start = self.text.len();
        self.text.extend_from_slice(&[sign, b' '])?;
        put_number(&mut self.text, number as u64)?;
        self.text.push(b' ')?;
        let taken = self.text.len().saturating_sub(start);
        let count = fitting(name, MOST_LINE.saturating_sub(taken)).min(name.len());
        self.text.extend_from_slice(&name[..count])?;
        self.text.push(b'\n')?;
        Ok(())
    }

    // Takes what a line names, if that is in the window.
    fn take(&mut self, window: &Window, label: Label<'_>) -> Result<(), LabelFaultKind> {
        let found = if label.is_row {
            row_of(window, label.number)
        } else {
            cown_of(window, label.number)
        };
        let Some(number) = found else {
            return Ok(());
        };
        let is_new = if label.is_row {
            mark_new(&mut self.rows, number)
        } else {
            mark_new(&mut self.cowns, number)
        };
        if !is_new {
            return Err(LabelFaultKind::Twice);
        }
        let sign = if label.is_row { b'=' } else { b'@' };
        match self.put(sign, number, label.name) {
            Ok(()) => Ok(()),
            Err(_) => Err(LabelFaultKind::Memory),
        }
    }

    // Takes the line of a file.
    fn take_line(&mut self, window: &Window, line: &[u8]) -> Result<(), LabelFaultKind> {
        if line.is_empty() || line[0] == b'#' {
            return Ok(());
        }
        match label_of(line) {
            Some(label) => self.take(window, label),
            None => Err(LabelFaultKind::Form),
        }
    }

    // Names what has no name by its number in the stream, and rows that are none of it `outside`.
    fn put_numbers(&mut self, window: &Window) -> Result<(), AllocError> {
        for (number, cown) in window.cowns.iter().enumerate() {
            if !is_set(&self.cowns, number) {
                self.text.extend_from_slice(b"@ ")?;
                put_number(&mut self.text, number as u64)?;
                self.text.extend_from_slice(b" cown_")?;
                put_number(&mut self.text, *cown)?;
                self.text.push(b'\n')?;
            }
        }
        for (number, origin) in window.origins.iter().enumerate() {
            match origin {
                Some(row) if !is_set(&self.rows, number) => {
                    self.text.extend_from_slice(b"= ")?;
                    put_number(&mut self.text, number as u64)?;
                    self.text.extend_from_slice(b" row_")?;
                    put_number(&mut self.text, *row)?;
                    self.text.push(b'\n')?;
                }
                Some(_) => {}
                None => self.put(b'=', number, b"outside")?,
            }
        }
        Ok(())
    }
}

// Reads all lines of a file of names.
fn read<S: Source>(labels: &mut Labels, window: &Window, source: &mut S) -> Result<(), LabelFault>
    requires { S.failures source.old < u64.MAX }
    ensures failures { OnOk result (S.failures source.new ≡ S.failures source.old) }
{
    let mut lines = Lines::new();
    for line in 1..u64::MAX {
        let done = match lines.advance(source) {
            Found::Line => labels.take_line(window, lines.line()),
            Found::End => return Ok(()),
            Found::Cut => Err(LabelFaultKind::Cut),
            Found::TooLong => Err(LabelFaultKind::TooLong),
            Found::Device => Err(LabelFaultKind::Device),
        };
        if let Err(kind) = done {
            return Err(LabelFault { line, kind });
        }
    }
    Ok(())
}

/// Returns the text of a file of names for a window, by a file of names for its stream. What has no name there is named by its number in
/// the stream, as `row_7` and `cown_7`, and a row that is none of the stream is called `outside`.
///
/// Lines of rows and cowns that are not in the window are skipped. A fault has the number of the faulty line, counted from 1; where memory
/// is refused it is 1 or that of a line.
pub fn names_of<S: Source>(
    alloc: Global,
    window: &Window,
    source: &mut S,
) -> Result<Vec<u8>, LabelFault>
    requires { S.failures source.old < u64.MAX }
    ensures failures { OnOk result (S.failures source.new ≡ S.failures source.old) }
{
    let memory = LabelFault {
        line: 1,
        kind: LabelFaultKind::Memory,
    };
    let Ok(mut labels) = Labels::new(alloc, window.origins.len(), window.cowns.len()) else {
        return Err(memory);
    };
    read(&mut labels, window, source)?;
    match labels.put_numbers(window) {
        Ok(()) => Ok(labels.text),
        Err(_) => Err(memory),
    }
}
