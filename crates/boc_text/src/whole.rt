//! The whole of an input, and the whole of an output.

ghost use Rattle.std.specs.Prelude.{◌≡◌, ◌+◌, ◌<◌, ◌≤◌, length, take, MatchResult, IfOk, OnOk, OnErr, IfErr};
ghost use Rattle.std.specs.Io.KnownBytes.{Consumes, IsAtEnd, Appends};
ghost use Rattle.boc_text.specs.Streams.{ReadsWhole, StopsAt, CountsDevice};

use crate::stream::{Failed, Sink, Source};
use std::alloc::{AllocError, AllocFailed, Global};
use thiserror::Error;

/// Why an input could not be taken in.
#[derive(Clone, Copy, PartialEq, Eq, Debug, Error)]
pub enum TextFault {
    /// Memory was refused.
    #[error("out of memory")]
    Memory,
    /// The source failed.
    #[error("the source failed")]
    Device,
}

impl From<AllocError> for TextFault {
    ghost use Rattle.std.specs.Prelude.{◌≡◌};
    ghost use Rattle.boc_text.specs.declared.whole.TextFault.TheVariants.{Memory};

    ghost from_gives = { λ _ e. e ≡ Memory };

    fn from(_error: AllocError) -> TextFault {
        TextFault::Memory
    }
}

/// An output stopped after its first `gone` bytes.
#[derive(Clone, Copy, PartialEq, Eq, Debug)]
pub struct Stopped {
    pub gone: usize,
}

/// How many bytes are asked for at once.
const CHUNK: usize = 4096;

/// Returns at most `limit` bytes of a source, in the order in which they come. What it has beyond them stays
/// unread. Fewer come only where the source has no more.
pub fn read_all<S: Source>(
    alloc: Global,
    source: &mut S,
    limit: usize,
) -> Result<Vec<u8>, TextFault>
    requires { S.failures source.old < u64.MAX }
    ensures text { IfOk result (λ v. ReadsWhole (S.remaining source.old) (S.remaining source.new) v.items limit) }
    ensures failures { CountsDevice result (S.failures source.old) (S.failures source.new) }
{
    let mut text = Vec::new(alloc);
    let mut chunk = [0; CHUNK];
    while text.len() < limit {
        let wanted = CHUNK.min(limit - text.len());
        match source.read(&mut chunk[..wanted]) {
            Ok(0) => return Ok(text),
            Ok(count) => text.extend_from_slice(&chunk[..count])?,
            Err(Failed) => return Err(TextFault::Device),
        }
    }
    Ok(text)
}

/// Sends all of the bytes.
pub fn put_out<W: Sink>(sink: &mut W, bytes: &[u8]) -> Result<(), Stopped>
    requires { W.failures sink.old < u64.MAX }
    ensures ok { OnOk result (Appends (W.written sink.old) (W.written sink.new) bytes.now) }
    ensures stopped { IfErr result (λ s. StopsAt s.gone bytes.now (W.written sink.old) (W.written sink.new)) }
    ensures failures { MatchResult result (λ _. W.failures sink.new ≡ W.failures sink.old) (λ _. W.failures sink.new ≡ W.failures sink.old + 1) }
{
    let mut rest = bytes;
    while !rest.is_empty() {
        match sink.write(rest) {
            Ok(count) => rest = &rest[count..],
            Err(Failed) => {
                return Err(Stopped {
                    gone: bytes.len() - rest.len(),
                });
            }
        }
    }
    Ok(())
}
