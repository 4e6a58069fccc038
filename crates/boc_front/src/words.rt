// The words of a command line.

use boc_commands::{WordsFault, not_text};
use std::env::{self, Env};
use std::io;

/// Returns the words of the command line, the program's own name first. One that is no text is refused.
pub fn words_given<R: Env + AllocGlobal>(rt: &R) -> Result<Vec<String>, WordsFault> {
    let args = match env::args(rt) {
        Ok(args) => args,
        Err(error) if error.kind() == io::ErrorKind::OutOfMemory => return Err(WordsFault::Memory),
        Err(_) => return Err(not_text(rt.alloc())),
    };
    let mut words = Vec::new(rt.alloc());
    for word in args {
        words.push(word)?;
    }
    Ok(words)
}
