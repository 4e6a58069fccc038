//! Where input comes from, and where output goes.

ghost use Rattle.std.specs.Prelude.{◌≡◌, ℕ, List, ◌<◌, Option};
ghost use Rattle.std.specs.Io.{ReadsAtMost};
ghost use Rattle.std.specs.Io.KnownBytes.{ReadConsumes};
ghost use Rattle.boc_text.specs.Streams.{CountsFailure, WritesSome};

/// A reader or a writer failed.
#[derive(Clone, Copy, PartialEq, Eq, Debug)]
pub struct Failed;

/// Bytes that come in.
///
/// Contracts know the bytes that are still to come, where the type says them, and how many calls
/// have failed so far.
pub trait Source {
    ghost remaining: { Self → Option (List ℕ) };

    ghost failures: { Self → ℕ };

    /// Takes the next bytes into the front of the buffer, and says how many. None, where the buffer
    /// has space, means that no more bytes come.
    fn read(&mut self, buffer: &mut [u8]) -> Result<usize, Failed>
        requires { failures self.old < u64.MAX }
        ensures bound { ReadsAtMost result buffer.new }
        ensures bytes { ReadConsumes (remaining self.old) (remaining self.new) result buffer.new }
        ensures failures { CountsFailure result (failures self.old) (failures self.new) };
}

/// Bytes that go out.
///
/// Contracts know the bytes that went out, where the type says them, and how many calls have failed
/// so far.
pub trait Sink {
    ghost written: { Self → Option (List ℕ) };

    ghost failures: { Self → ℕ };

    /// Sends the first of the bytes, and says how many: at least one, where there are any.
    fn write(&mut self, bytes: &[u8]) -> Result<usize, Failed>
        requires { failures self.old < u64.MAX }
        ensures bytes { WritesSome (written self.old) (written self.new) result bytes.now }
        ensures failures { CountsFailure result (failures self.old) (failures self.new) };
}
