// The input: a reader whose bytes are kept as they come, for who explains a fault in them.

ghost use Rattle.std.specs.Prelude.{◌≡◌};

use boc_program::limits::MOST_ROWS;
use boc_said::place::{Text, looks_like_record};
use boc_text::{Failed, MOST_LINE, Source};
use std::alloc::Global;
use std::io::{self, Read};

// The most lines of a record up to its first fault: the first line, the spawn, the start and the end of each row, the line `.`, and that of the fault.
const MOST_LINES: usize = 3 * MOST_ROWS + 3;

// How many bytes are kept at most: a record up to its first fault, each of its lines with a line feed. So all that is reported of a fault in a record can be
// found in what is kept, wherever it is.
const MOST_KEPT: usize = MOST_LINES * (MOST_LINE + 1);

/// Bytes that are kept, as far as they are few enough, and memory was there for them.
#[derive(Drop)]
pub struct Kept {
    bytes: Vec<u8>,
    is_whole: bool,
}

impl Kept {
    /// No bytes yet.
    pub fn new(alloc: Global) -> Kept {
        Kept {
            bytes: Vec::new(alloc),
            is_whole: true,
        }
    }

    /// The bytes.
    pub fn as_slice(&self) -> &[u8] {
        &self.bytes
    }

    /// The bytes as a text, which comes from the file with this name, if it comes from one.
    pub fn text<'a>(&'a self, name: Option<&'a str>) -> Text<'a> {
        Text {
            bytes: &self.bytes,
            whole: self.is_whole,
            name,
        }
    }

    /// These are all that were to be kept.
    pub fn is_whole(&self) -> bool {
        self.is_whole
    }

    /// Puts bytes after the others. From where some are left out, none are kept any more.
    pub fn keep(&mut self, bytes: &[u8]) {
        let room = MOST_KEPT.saturating_sub(self.bytes.len());
        let (front, _) = bytes.split_at(room.min(bytes.len()));
        let is_kept = self.is_whole && self.bytes.extend_from_slice(front).is_ok();
        self.is_whole = is_kept && front.len() == bytes.len();
    }
}

/// A reader as a source, with a count of its failures, what it gave, and the error of the last failure.
#[derive(Drop)]
pub struct Input<T> {
    pub inner: T,
    pub failures: u64,
    kept: Kept,
    error: Option<io::Error>,
}

impl<T> Input<T> {
    /// A reader that has not been read yet, and has not failed.
    pub fn new(alloc: Global, inner: T) -> Input<T>
        ensures inner { result.inner ≡ inner }
        ensures failures { result.failures ≡ 0 }
    {
        Input {
            inner,
            failures: 0,
            kept: Kept::new(alloc),
            error: None,
        }
    }
}

impl<T: Drop> Input<T> {
    /// What was given begins as the text of a record does.
    pub fn is_of_record(&self) -> bool {
        looks_like_record(self.kept.as_slice())
    }

    /// What was given, and the error of the last failure, if there was one.
    pub fn into_parts(self) -> (Kept, Option<io::Error>) {
        (self.kept, self.error)
    }
}

impl<T: Read> Source for Input<T> {
    ghost remaining = { λ i. T.remaining i.inner };

    ghost failures = { λ i. i.failures };

    fn read(&mut self, buffer: &mut [u8]) -> Result<usize, Failed> {
        match self.inner.read(buffer) {
            Ok(count) => {
                self.kept.keep(&buffer[..count]);
                Ok(count)
            }
            Err(error) => {
                self.failures += 1;
                self.error = Some(error);
                Err(Failed)
            }
        }
    }
}
