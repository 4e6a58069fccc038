//! A text that goes out while it is formed.

ghost use Rattle.std.specs.Prelude.{◌≡◌, ◌+◌, ◌<◌, ◌≤◌, ◌^◌, ◌++◌, List, ℕ, Option, length, IfOk, OnOk, OnErr, MatchResult, vec_capacity};
ghost use Rattle.std.specs.Io.KnownBytes.{Appends};
ghost use Rattle.boc_text.specs.Streams.{StopsAt, CountsFailure};
ghost use Rattle.boc_text.specs.declared.outgoing.TheConstants.{ROOM};

use crate::stream::Sink;
use crate::whole::{Stopped, put_out};
use std::alloc::{AllocError, Global};

/// How many bytes are held back at most before they go out.
pub const ROOM: usize = 64 * 1024;

/// The end of a text that goes out while it is formed. What went out takes no space any more.
#[derive(Drop)]
pub struct Outgoing {
    // What hasn't gone out yet.
    part: Vec<u8>,
    // How many bytes went out before it.
    gone: usize,
    ghost room: { ROOM ≤ vec_capacity part },
}

impl Outgoing {
    ghost use Rattle.boc_text.specs.Outgoing.{IsOut, IsUnused, size};

    /// Makes an outgoing text that is empty yet. `AllocError` says that memory was refused. No more is requested later.
    pub fn new(alloc: Global) -> Result<Outgoing, AllocError>
        ensures unused { IfOk result IsUnused }
        ensures size { IfOk result (λ o. size o ≡ 0) }
    {
        Ok(Outgoing {
            part: Vec::with_capacity(alloc, ROOM)?,
            gone: 0,
        })
    }

    /// Puts bytes after the text. Where there is no space for them, what hasn't gone out yet goes out first. Where the sink
    /// fails, the bytes are not put, and the text stays as it was, with all that it held back.
    pub fn put<W: Sink>(&mut self, bytes: &[u8], sink: &mut W) -> Result<(), Stopped>
        requires few { length bytes.now ≤ ROOM }
        requires bound { size self.old + length bytes.now < 2 ^ 64 }
        requires failures { W.failures sink.old < u64.MAX }
        ensures goes_on { (before : Option (List ℕ)) (text : List ℕ) → IsOut before (W.written sink.old) text self.old → MatchResult result
            (λ _. IsOut before (W.written sink.new) (text ++ bytes.now) self.new)
            (λ s. StopsAt s.gone text before (W.written sink.new)) }
        ensures size { OnOk result (size self.new ≡ size self.old + length bytes.now) }
        ensures stays { OnErr result (self.new ≡ self.old) }
        ensures failures { CountsFailure result (W.failures sink.old) (W.failures sink.new) }
    {
        if self.part.capacity() - self.part.len() < bytes.len() {
            self.send(sink)?;
            self.gone += self.part.len();
            self.part.clear();
        }
        let put = self.part.extend_from_slice(bytes);
        prove!(put.is_ok());
        Ok(())
    }

    /// Sends what hasn't gone out yet.
    pub fn send<W: Sink>(&self, sink: &mut W) -> Result<(), Stopped>
        requires bound { size self.now < 2 ^ 64 }
        requires failures { W.failures sink.old < u64.MAX }
        ensures sent { (before : Option (List ℕ)) (text : List ℕ) → IsOut before (W.written sink.old) text self.now → MatchResult result
            (λ _. Appends before (W.written sink.new) text)
            (λ s. StopsAt s.gone text before (W.written sink.new)) }
        ensures failures { CountsFailure result (W.failures sink.old) (W.failures sink.new) }
    {
        match put_out(sink, &self.part) {
            Ok(()) => Ok(()),
            Err(stopped) => Err(Stopped {
                gone: self.gone + stopped.gone,
            }),
        }
    }
}
