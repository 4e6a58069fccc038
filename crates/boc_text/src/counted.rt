//! Readers and writers of the library, as sources and sinks.

ghost use Rattle.std.specs.Prelude.{◌≡◌};

use crate::stream::{Failed, Sink, Source};
use std::io::{Read, Write};

/// A reader or a writer, with a count of its failures.
///
/// The library's contracts say what a call did to the bytes, where those are known, and not whether it was to
/// fail. So contracts tie the count to the answers of this type, and these to the bytes that moved. That a call which
/// moves no bytes, or bytes that no contract knows, answers as the reader's or the writer's own did is shown by tests
/// alone, in both directions.
#[derive(Drop)]
pub struct Counted<T> {
    pub inner: T,
    pub failures: u64,
}

impl<T> Counted<T> {
    /// Returns a reader or a writer that has not failed yet.
    pub fn new(inner: T) -> Counted<T>
        ensures inner { result.inner ≡ inner }
        ensures failures { result.failures ≡ 0 }
    {
        Counted { inner, failures: 0 }
    }
}

impl<T: Read> Source for Counted<T> {
    ghost remaining = { λ c. T.remaining c.inner };

    ghost failures = { λ c. c.failures };

    fn read(&mut self, buffer: &mut [u8]) -> Result<usize, Failed> {
        match self.inner.read(buffer) {
            Ok(count) => Ok(count),
            Err(_) => {
                self.failures += 1;
                Err(Failed)
            }
        }
    }
}

impl<T: Write> Sink for Counted<T> {
    ghost written = { λ c. T.contents c.inner };

    ghost failures = { λ c. c.failures };

    fn write(&mut self, bytes: &[u8]) -> Result<usize, Failed> {
        match self.inner.write(bytes) {
            Ok(count) if count > 0 || bytes.is_empty() => Ok(count),
            _ => {
                self.failures += 1;
                Err(Failed)
            }
        }
    }
}
