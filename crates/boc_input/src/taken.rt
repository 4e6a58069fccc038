// What is taken of an input that may be a program.

ghost use Rattle.std.specs.Prelude.{◌≡◌, ◌<◌, IfOk};
ghost use Rattle.boc_text.specs.Streams.{CountsDevice};
ghost use Rattle.boc_input.specs.Taken.{ReadsFront, TakesProgram};

use crate::ahead::TakesBack;
use crate::first_token::{begins_program, is_told};
use boc_program::limits::MOST_TEXT;
use boc_text::{Failed, Source, TextFault, read_all};
use std::alloc::Global;

/// One byte more than a program text may have: no more are taken of it.
pub const MOST_TAKEN: usize = MOST_TEXT + 1;

// How many bytes are asked for at once.
const CHUNK: usize = 4096;

// Returns the first bytes of a source, until it is known whether it begins as a program does.
fn front<S: Source>(alloc: Global, source: &mut S) -> Result<Vec<u8>, TextFault>
    requires { S.failures source.old < u64.MAX }
    ensures text { IfOk result (λ v. ReadsFront (S.remaining source.old) (S.remaining source.new) v.items) }
    ensures failures { CountsDevice result (S.failures source.old) (S.failures source.new) }
{
    let mut text = Vec::new(alloc);
    let mut chunk = [0; CHUNK];
    while text.len() < MOST_TAKEN && !is_told(&text) {
        let wanted = CHUNK.min(MOST_TAKEN - text.len());
        match source.read(&mut chunk[..wanted]) {
            Ok(0) => return Ok(text),
            Ok(count) => text.extend_from_slice(&chunk[..count])?,
            Err(Failed) => return Err(TextFault::Device),
        }
    }
    Ok(text)
}

/// Takes the text of a program, as much as there may be of one. Of an input that begins otherwise nothing is taken.
///
/// What is read to find that out, at most as much as there may be of a program, the source takes back.
pub fn program_taken<S: TakesBack>(
    alloc: Global,
    source: &mut S,
) -> Result<Option<Vec<u8>>, TextFault>
    requires { S.failures source.old < u64.MAX }
    ensures taken { IfOk result (λ found. TakesProgram found (S.remaining source.old) (S.remaining source.new)) }
    ensures failures { CountsDevice result (S.failures source.old) (S.failures source.new) }
{
    let mut text = front(alloc, source)?;
    if !begins_program(&text) {
        source.take_back(text)?;
        return Ok(None);
    }
    // Where the first token has no end, no more bytes come, or there are enough of them.
    if is_told(&text) {
        let rest = read_all(alloc, source, MOST_TAKEN - text.len())?;
        text.extend_from_slice(&rest)?;
    }
    Ok(Some(text))
}
