// Ticks as columns of a text.

use crate::spelling::Spelling;
use crate::written::Written;
use std::alloc::{AllocError, Global};

/// The given number of ticks to a column, up to an end.
#[derive(Clone, Copy, Debug)]
pub(crate) struct Columns {
    ticks: u64,
    end: u64,
}

impl Columns {
    /// Makes columns of as few ticks as go into at most this many of them.
    pub(crate) fn new(end: u64, most: usize) -> Columns {
        let most = (most as u64).max(1);
        let ticks = up(end, most).max(1);
        Columns { ticks, end }
    }

    /// Puts how many ticks a column takes.
    pub(crate) fn put_scale(self, text: &mut Written) {
        text.put("1 column = ");
        text.put_number(self.ticks);
        text.put(if self.ticks == 1 { " tick" } else { " ticks" });
    }

    /// Returns how many columns there are.
    pub(crate) fn count(self) -> usize {
        up(self.end, self.ticks) as usize
    }

    /// Returns a line of blanks.
    pub(crate) fn line(self, alloc: Global) -> Result<Vec<u8>, AllocError> {
        vec![in alloc; b' '; self.count()]
    }

    /// Paints the columns into which ticks from one on up to another one fall.
    pub(crate) fn paint(self, line: &mut [u8], from: u64, to: u64, mark: u8) {
        let first = (from / self.ticks.max(1)) as usize;
        let past = up(to, self.ticks) as usize;
        for cell in line.iter_mut().take(past).skip(first) {
            *cell = mark;
        }
    }

    /// Counts the columns into which ticks from one on up to another one fall.
    pub(crate) fn count_in(self, counts: &mut [u64], from: u64, to: u64) {
        let first = (from / self.ticks.max(1)) as usize;
        let past = up(to, self.ticks) as usize;
        for cell in counts.iter_mut().take(past).skip(first) {
            *cell = cell.saturating_add(1);
        }
    }
}

/// Returns a number divided by another one, rounded up.
pub(crate) fn up(number: u64, by: u64) -> u64 {
    let by = by.max(1);
    let whole = number / by;
    if number % by == 0 {
        whole
    } else {
        whole.saturating_add(1)
    }
}

/// Returns a part of a whole in percents, rounded down.
pub(crate) fn percent(part: u64, whole: u64) -> u64 {
    part.saturating_mul(100) / whole.max(1)
}

// How many blanks the rest of a folded line begins with.
const INDENT: usize = 2;

/// Returns the most columns that a word of a folded line takes, where lines have this many.
pub(crate) fn longest_word(width: usize) -> usize {
    width.saturating_sub(INDENT)
}

/// Puts a line of words in the given number of columns: where they don't fit, it goes on in a further line. A word that is longer than `longest_word` is there
/// whole.
pub(crate) fn put_folded(text: &mut Written, line: &[u8], width: usize) {
    let mut column: usize = 0;
    let mut blanks: usize = 0;
    for word in line.split(|byte| *byte == b' ') {
        if word.is_empty() {
            blanks = blanks.saturating_add(1);
            continue;
        }
        let gap = if column == 0 {
            0
        } else {
            blanks.saturating_add(1)
        };
        let past = column.saturating_add(gap).saturating_add(word.len());
        if column > 0 && past > width {
            text.push(b'\n');
            column = INDENT;
            put_blanks(text, INDENT);
        } else {
            column = column.saturating_add(gap);
            put_blanks(text, gap);
        }
        text.put_bytes(word);
        column = column.saturating_add(word.len());
        blanks = 0;
    }
    text.push(b'\n');
}

// Puts this many blanks.
fn put_blanks(text: &mut Written, count: usize) {
    for _ in 0..count {
        text.push(b' ');
    }
}

/// Puts a line of cells between bars.
pub(crate) fn put_line(text: &mut Written, line: &[u8]) {
    text.push(b'|');
    text.put_bytes(line);
    text.push(b'|');
}

/// Puts a name, as much of it as goes into the given number of columns, and blanks up to there, and one more.
pub(crate) fn put_label(text: &mut Written, name: &[u8], width: usize) {
    let before = text.len();
    Spelling::Text.put(text, name, width);
    let taken = text.len().saturating_sub(before);
    put_blanks(text, width.saturating_sub(taken));
    text.push(b' ');
}

/// Puts a number, with blanks before it up to the given number of columns.
pub(crate) fn put_right(text: &mut Written, number: u64, width: usize) {
    put_blanks(text, width.saturating_sub(digits(number)));
    text.put_number(number);
}

/// Puts a part of a whole in percents, in a column of its own.
pub(crate) fn put_busy(text: &mut Written, part: u64, whole: u64) {
    text.push(b' ');
    put_right(text, percent(part, whole), 3);
    text.put("%\n");
}

/// Returns how many digits a number has.
pub(crate) fn digits(number: u64) -> usize {
    let mut digits: usize = 1;
    let mut rest = number / 10;
    for _ in 0..20 {
        if rest == 0 {
            break;
        }
        digits = digits.saturating_add(1);
        rest /= 10;
    }
    digits
}
