// A place in a text, as it is shown: its line, and a caret under it.

use crate::said::{Part, Said, Told};

// How much of a line is shown before a place, and how much from it on, each with two dots where it is cut. They are 120 bytes together.
const MOST_FRONT: usize = 70;

const MOST_BACK: usize = 50;

const DOTS: &[u8] = b"..";

// What is before a caret at most.
const BLANKS: &[u8] = &[b' '; MOST_FRONT];

/// Puts the line in which a byte is, cut to 120 bytes round the place, and a line with a caret under it.
pub fn put_place(said: &mut Said, text: &[u8], at: usize) -> Told {
    let (front, back) = text.split_at(at.min(text.len()));
    let (front, back) = (last_line(front), first_line(back));
    said.set_place(line_number(text, at), front.len().saturating_add(1));
    let (before, front) = if front.len() > MOST_FRONT {
        let kept = MOST_FRONT - DOTS.len();
        (DOTS, front.split_at(front.len() - kept).1)
    } else {
        (b"".as_slice(), front)
    };
    let (back, behind) = if back.len() > MOST_BACK {
        (back.split_at(MOST_BACK - DOTS.len()).0, DOTS)
    } else {
        (back, b"".as_slice())
    };
    said.shown(&[before, front, back, behind].map(Part::Bytes))?;
    let column = before.len().saturating_add(front.len());
    let (blanks, _) = BLANKS.split_at(column.min(BLANKS.len()));
    said.shown(&[Part::Bytes(blanks), Part::Words("^")])
}

/// Returns what is after the last line feed.
pub fn last_line(text: &[u8]) -> &[u8] {
    text.rsplit(|byte| *byte == b'\n').next().unwrap_or(text)
}

/// Returns what is before the first line feed, and of a carriage return before it.
pub fn first_line(text: &[u8]) -> &[u8] {
    let line = text.split(|byte| *byte == b'\n').next().unwrap_or(text);
    line.strip_suffix(b"\r").unwrap_or(line)
}

/// Returns the number of the line in which a byte is, counted from 1.
pub fn line_number(text: &[u8], at: usize) -> u64 {
    let (front, _) = text.split_at(at.min(text.len()));
    let feeds = front.iter().filter(|byte| **byte == b'\n').count();
    (feeds as u64).saturating_add(1)
}
