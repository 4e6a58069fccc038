// Where an answer goes.

ghost use Rattle.std.specs.Prelude.{◌≡◌, ℕ, List, None};

use boc_text::{Failed, Sink};
use std::alloc::Global;
use std::io::Write;

/// A writer as a sink, with a count of its failures. What is written may be held back in memory first.
#[derive(Drop)]
pub struct Output<T> {
    inner: T,
    held: Option<Vec<u8>>,
    failures: u64,
}

impl<T> Output<T> {
    /// Returns a sink that has not failed yet, and holds back what is written if that is so.
    pub fn new(alloc: Global, inner: T, holds: bool) -> Output<T>
        ensures { result.failures ≡ 0 }
    {
        let held = if holds { Some(Vec::new(alloc)) } else { None };
        Output {
            inner,
            held,
            failures: 0,
        }
    }

    /// Returns the writer, and what was held back.
    pub fn into_parts(self) -> (T, Option<Vec<u8>>) {
        (self.inner, self.held)
    }
}

impl<T: Write> Sink for Output<T> {
    ghost written = { λ o. None };

    ghost failures = { λ o. o.failures };

    fn write(&mut self, bytes: &[u8]) -> Result<usize, Failed> {
        let done = match &mut self.held {
            Some(held) => held.extend_from_slice(bytes).is_ok(),
            None => {
                return match self.inner.write(bytes) {
                    Ok(count) if count > 0 || bytes.is_empty() => Ok(count),
                    _ => {
                        self.failures += 1;
                        Err(Failed)
                    }
                };
            }
        };
        if done {
            return Ok(bytes.len());
        }
        self.failures += 1;
        Err(Failed)
    }
}
