// How many bytes of an input can matter, or of a file given with it.

use boc_names::MOST_NAMES;
use boc_program::limits::{MOST_ROWS, MOST_TEXT};
use boc_said::place::Beside;
use boc_text::MOST_LINE;
use std::fs::{File, Files};
use std::io::{self, Read};

// The most bytes of a line with its line feed.
const MOST_FED: usize = MOST_LINE + 1;

// The most bytes of a record: its first line, the spawn, the start and the end of each row, and its last line.
const MOST_RECORD: usize = (3 * MOST_ROWS + 2) * MOST_FED;

/// How many bytes of an input can matter: of a record, since it may be longer than a program. Whatever comes after them, the answer is the same.
///
/// Before a record's first faulty line are lines that a record may have. So that line is within as many bytes as a record may have, up to its
/// line feed or its 81st byte, or it begins right after them, and its first byte is too much.
pub const MOST_INPUT: u64 = MOST_RECORD as u64 + 1;

// Returns the same of a file given with an input. A program that has one byte more than it may have is refused for that. The line of names that goes beyond as
// many bytes as they may have begins within these or right after them, and says by 81 bytes what it is.
fn most_beside(kind: Beside) -> u64 {
    match kind {
        Beside::Program => MOST_TEXT as u64 + 1,
        Beside::Record => MOST_INPUT,
        Beside::Names => (MOST_NAMES + MOST_FED) as u64,
    }
}

/// Returns the bytes of the file with this path, as many as can matter where it is read as this: what it has after them stays unread.
pub fn read_beside<R: Files + AllocGlobal>(
    rt: &R,
    path: &str,
    kind: Beside,
) -> io::Result<Vec<u8>> {
    read_up_to(rt, path, most_beside(kind))
}

/// Returns the first bytes of the file with this path, this many at most.
pub fn read_up_to<R: Files + AllocGlobal>(rt: &R, path: &str, most: u64) -> io::Result<Vec<u8>> {
    let mut bytes = Vec::new(rt.alloc());
    File::open(rt, path)?.take(most).read_to_end(&mut bytes)?;
    Ok(bytes)
}

/// Returns the bytes of a second input, as many as can matter: of the file with this path, or of standard input where it is `-`.
pub fn read_second(rt: HostRuntime, path: &str) -> io::Result<Vec<u8>> {
    if path != "-" {
        return read_beside(&rt, path, Beside::Record);
    }
    let mut bytes = Vec::new(rt.alloc());
    rt.stdin().take(MOST_INPUT).read_to_end(&mut bytes)?;
    Ok(bytes)
}
