// What is reported below the line of a fault.

use crate::wanted::Wanted;
use boc_commands::{Fault, RunFile};
use boc_explain::Kept;
use boc_explain_program::explain_behaviours;
use boc_front::{Sources, drawn_at_depth, explain_input};
use boc_said::place::Beside;
use boc_workers::RunFault;
use std::alloc::{AllocError, Global};

/// Returns the lines below that of a fault, each with its line feed, where these were the input and the file given with it. There may be none.
pub(crate) fn explained<'a>(
    alloc: Global,
    fault: &Fault,
    wanted: &'a Wanted,
    input: &'a Kept,
    beside: &'a Kept,
) -> Result<String, AllocError> {
    let (beside_path, kind) = match &wanted.file {
        Some(RunFile::Record(path)) => (Some(path.as_str()), Some(Beside::Record)),
        Some(RunFile::Names(path)) => (Some(path.as_str()), Some(Beside::Names)),
        None => (None, None),
    };
    let sources = Sources {
        command: wanted.picture.command(),
        input,
        input_path: wanted.input.as_ref().map(String::as_str),
        beside,
        beside_path,
        kind,
    };
    match fault {
        Fault::Input(fault) => explain_input(alloc, *fault, sources),
        Fault::Run(RunFault::Behaviours) if input.is_whole() => {
            explain_behaviours(alloc, input.as_slice(), drawn_at_depth(&wanted.schedule))
        }
        _ => Ok(String::new(alloc)),
    }
}
