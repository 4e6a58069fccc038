// Lines that are formed from their end on, in a room.

ghost use Rattle.std.specs.Prelude.{◌≡◌, ◌++◌, ◌+◌, ◌≤◌, drop, length};
ghost use Rattle.boc_report.specs.Texts.{number_line};
ghost use Rattle.boc_report.specs.declared.number_line.TheConstants.{MOST_FIELD};

use boc_text::{MOST_DIGITS, write_before};

/// The most bytes of a number, and one after it.
pub(crate) const MOST_FIELD: usize = MOST_DIGITS + 1;

/// How many lines of rows are formed one before the other, and go out together.
pub(crate) const TOGETHER: usize = 64;

/// The most lines of one kind that a report or a sweep can have. The bytes of this many can be counted.
pub const MOST_LINES: usize = 1 << 32;

/// The most bytes of a report without its greedy part, of a greedy part, and of a sweep.
pub(crate) const MOST_PART: usize = 1 << 40;

/// Puts a word before what a line has from a place on, and says where it begins.
pub(crate) fn word_before(line: &mut [u8], place: usize, word: &[u8]) -> usize
    requires room { length word.now ≤ place }
    requires within { place ≤ length line.old }
    ensures written { drop result line.new ≡ word.now ++ drop place line.old }
    ensures near { result + length word.now ≡ place }
{
    let at = place - word.len();
    line[at..place].copy_from_slice(word);
    at
}

/// Puts a line of a word and a number before what a room has from a place on, and says where it begins.
pub(crate) fn number_before(room: &mut [u8], place: usize, word: &[u8], number: u64) -> usize
    requires room { MOST_FIELD + length word.now ≤ place }
    requires within { place ≤ length room.old }
    ensures written { drop result room.new ≡ number_line word.now number ++ drop place room.old }
    ensures near { place ≤ result + MOST_FIELD + length word.now }
{
    let at = write_before(room, place, number, b'\n');
    word_before(room, at, word)
}
