//! Sources and sinks that fail once.

ghost use Rattle.std.specs.Prelude.{◌≡◌, ◌+◌, ◌-◌, ◌<◌, ◌≤◌, ◌↔◌, IsTrue, IsErr, IfOk};
ghost use Rattle.std.specs.Io.{ReadsAtMost};
ghost use Rattle.std.specs.Io.KnownBytes.{ReadConsumes};
ghost use Rattle.boc_text.specs.Streams.{CountsFailure, WritesSome, CountsCall};

use crate::stream::{Failed, Sink, Source};

/// A source or a sink whose k-th call fails. Every other call passes at most `most` bytes.
#[derive(Drop, Debug)]
pub struct FailAt<T> {
    pub inner: T,
    /// How many calls there are to the one that fails, itself included; 0 once it failed.
    pub calls_left: u64,
    pub most: usize,
    pub failures: u64,
    pub ghost passes_some: { 1 ≤ most },
}

impl<T> FailAt<T> {
    /// Fails at its `k`-th call, counted from 1; at none, where `k` is 0.
    pub fn new(inner: T, k: u64, most: usize) -> FailAt<T>
        requires { 1 ≤ most }
        ensures inner { result.inner ≡ inner }
        ensures calls { result.calls_left ≡ k }
        ensures most { result.most ≡ most }
        ensures failures { result.failures ≡ 0 }
    {
        FailAt {
            inner,
            calls_left: k,
            most,
            failures: 0,
        }
    }

    // Counts a call, and says that it is the one that fails.
    fn fails_now(&mut self) -> bool
        ensures fails { IsTrue result ↔ (self.old.calls_left ≡ 1) }
        ensures calls { self.new.calls_left ≡ self.old.calls_left - 1 }
        ensures inner { self.new.inner ≡ self.old.inner }
        ensures most { self.new.most ≡ self.old.most }
        ensures failures { self.new.failures ≡ self.old.failures }
    {
        let fails = self.calls_left == 1;
        self.calls_left = self.calls_left.saturating_sub(1);
        fails
    }
}

impl<T: Source> Source for FailAt<T> {
    ghost remaining = { λ f. T.remaining f.inner };

    ghost failures = { λ f. T.failures f.inner + f.failures };

    fn read(&mut self, buffer: &mut [u8]) -> Result<usize, Failed>
        requires { T.failures self.old.inner + self.old.failures < u64.MAX }
        ensures bound { ReadsAtMost result buffer.new }
        ensures bytes { ReadConsumes (T.remaining self.old.inner) (T.remaining self.new.inner) result buffer.new }
        ensures failures { CountsFailure result (T.failures self.old.inner + self.old.failures) (T.failures self.new.inner + self.new.failures) }

        // The k-th call fails, and does nothing else; each other one passes.
        ensures call { CountsCall self.old.calls_left self.new.calls_left self.old.failures self.new.failures }
        ensures fails { self.old.calls_left ≡ 1 → IsErr result × (self.new.inner ≡ self.old.inner) }
        ensures few { IfOk result (λ n. n ≤ self.old.most) }
        ensures most { self.new.most ≡ self.old.most }
    {
        if self.fails_now() {
            self.failures += 1;
            return Err(Failed);
        }
        let most = self.most.min(buffer.len());
        self.inner.read(&mut buffer[..most])
    }
}

impl<T: Sink> Sink for FailAt<T> {
    ghost written = { λ f. T.written f.inner };

    ghost failures = { λ f. T.failures f.inner + f.failures };

    fn write(&mut self, bytes: &[u8]) -> Result<usize, Failed>
        requires { T.failures self.old.inner + self.old.failures < u64.MAX }
        ensures bytes { WritesSome (T.written self.old.inner) (T.written self.new.inner) result bytes.now }
        ensures failures { CountsFailure result (T.failures self.old.inner + self.old.failures) (T.failures self.new.inner + self.new.failures) }

        // The k-th call fails, and does nothing else; each other one passes.
        ensures call { CountsCall self.old.calls_left self.new.calls_left self.old.failures self.new.failures }
        ensures fails { self.old.calls_left ≡ 1 → IsErr result × (self.new.inner ≡ self.old.inner) }
        ensures few { IfOk result (λ n. n ≤ self.old.most) }
        ensures most { self.new.most ≡ self.old.most }
    {
        if self.fails_now() {
            self.failures += 1;
            return Err(Failed);
        }
        let most = self.most.min(bytes.len());
        self.inner.write(&bytes[..most])
    }
}
