//! Memory as a source and as a sink.

ghost use Rattle.std.specs.Prelude.{◌≡◌, ◌+◌, ◌<◌, ◌≤◌, length, drop, min, Some, IsOk, IfOk, vec_len, vec_capacity};
ghost use Rattle.std.specs.Io.{ReadsAtMost};
ghost use Rattle.std.specs.Io.KnownBytes.{ReadConsumes};
ghost use Rattle.boc_text.specs.Streams.{CountsFailure, WritesSome};

use crate::stream::{Failed, Sink, Source};

/// Bytes in memory: reads take them from the front on, and writes put more after them.
#[derive(Drop, Debug)]
pub struct Bytes {
    pub bytes: Vec<u8>,
    pub taken: usize,
    pub failures: u64,
    pub ghost within: { taken ≤ length bytes.items },
}

impl Bytes {
    /// Makes a source of these bytes, none of which is taken yet.
    pub fn new(bytes: Vec<u8>) -> Bytes
        ensures bytes { result.bytes ≡ bytes }
        ensures taken { result.taken ≡ 0 }
        ensures failures { result.failures ≡ 0 }
    {
        Bytes {
            bytes,
            taken: 0,
            failures: 0,
        }
    }
}

impl Source for Bytes {
    ghost remaining = { λ b. Some (drop b.taken b.bytes.items) };

    ghost failures = { λ b. b.failures };

    /// Takes as many bytes as are left and as the buffer has space for. It never fails.
    fn read(&mut self, buffer: &mut [u8]) -> Result<usize, Failed>
        ensures bound { ReadsAtMost result buffer.new }
        ensures bytes { ReadConsumes (Some (drop self.old.taken self.old.bytes.items)) (Some (drop self.new.taken self.new.bytes.items)) result buffer.new }
        ensures failures { CountsFailure result self.old.failures self.new.failures }
        ensures never_fails { IsOk result }
        ensures most { IfOk result (λ n. n ≡ min (length (drop self.old.taken self.old.bytes.items)) (length buffer.old)) }
        ensures kept { self.new.bytes ≡ self.old.bytes }
    {
        let rest = &self.bytes[self.taken..];
        let count = rest.len().min(buffer.len());
        buffer[..count].copy_from_slice(&rest[..count]);
        self.taken += count;
        Ok(count)
    }
}

impl Sink for Bytes {
    ghost written = { λ b. Some b.bytes.items };

    ghost failures = { λ b. b.failures };

    /// Puts all of the bytes after those that are there. It fails only where more memory is requested, and
    /// refused: where the bytes fit in the buffer that the vector has, it never fails.
    fn write(&mut self, bytes: &[u8]) -> Result<usize, Failed>
        requires { self.old.failures < u64.MAX }
        ensures bytes { WritesSome (Some self.old.bytes.items) (Some self.new.bytes.items) result bytes.now }
        ensures failures { CountsFailure result self.old.failures self.new.failures }
        ensures fits { vec_len self.old.bytes + length bytes.now ≤ vec_capacity self.old.bytes → IsOk result }
        ensures all { IfOk result (λ n. n ≡ length bytes.now) }
        ensures taken { self.new.taken ≡ self.old.taken }
    {
        match self.bytes.extend_from_slice(bytes) {
            Ok(()) => Ok(bytes.len()),
            Err(_) => {
                self.failures += 1;
                Err(Failed)
            }
        }
    }
}
