// A source that takes bytes back.

ghost use Rattle.std.specs.Prelude.{◌≡◌, ◌<◌, [], drop, OnOk};
ghost use Rattle.std.specs.Io.{ReadsAtMost};
ghost use Rattle.std.specs.Io.KnownBytes.{ReadConsumes, prepend_known};
ghost use Rattle.boc_text.specs.Streams.{CountsFailure};

use boc_text::{Bytes, Failed, Source};
use std::alloc::{AllocError, Global};

/// A source that takes back bytes which it gave, to give them once more.
pub trait TakesBack: Source {
    /// Takes bytes back: they come next, before all that were still to come.
    fn take_back(&mut self, front: Vec<u8>) -> Result<(), AllocError>
        ensures bytes { OnOk result (Self.remaining self.new ≡ prepend_known front.items (Self.remaining self.old)) }
        ensures failures { Self.failures self.new ≡ Self.failures self.old };
}

/// A source, and before the bytes that it still has those that were taken back.
#[derive(Drop)]
pub struct Ahead<S> {
    front: Bytes,
    rest: S,
}

impl<S: Source> Ahead<S> {
    /// Returns a source that took nothing back yet.
    pub fn new(alloc: Global, rest: S) -> Ahead<S>
        ensures rest { result.rest ≡ rest }
        ensures front { drop result.front.taken result.front.bytes.items ≡ [] }
    {
        Ahead {
            front: Bytes::new(Vec::new(alloc)),
            rest,
        }
    }

    /// Returns the source.
    pub fn inner(&self) -> &S
        ensures { result.now ≡ self.now.rest }
    {
        &self.rest
    }

    /// Returns the source, without the bytes that were taken back.
    pub fn into_inner(self) -> S
        ensures { result ≡ self.rest }
    {
        self.rest
    }
}

impl<S: Source> Source for Ahead<S> {
    ghost remaining = { λ a. prepend_known (drop a.front.taken a.front.bytes.items) (S.remaining a.rest) };

    ghost failures = { λ a. S.failures a.rest };

    fn read(&mut self, buffer: &mut [u8]) -> Result<usize, Failed> {
        if self.front.taken < self.front.bytes.len() {
            return self.front.read(buffer);
        }
        self.rest.read(buffer)
    }
}

impl<S: Source> TakesBack for Ahead<S> {
    fn take_back(&mut self, front: Vec<u8>) -> Result<(), AllocError> {
        let mut front = front;
        front.extend_from_slice(&self.front.bytes[self.front.taken..])?;
        self.front = Bytes::new(front);
        Ok(())
    }
}
