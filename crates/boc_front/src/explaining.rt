// The lines below that of a fault in an input, or in the file given with it.

use crate::printing::printed;
use boc_commands::{FileFault, InputFault, Schedule};
use boc_explain::{Kept, explain_names, explain_record, explain_stray};
use boc_explain_program::{AtDepth, explain_program};
use boc_said::place::{Beside, Place};
use std::alloc::{AllocError, Global};

/// What a command reads, and where from.
#[derive(Clone, Copy)]
pub struct Sources<'a> {
    pub command: &'a str,
    pub input: &'a Kept,
    /// The path of the input's file; none where it is standard input.
    pub input_path: Option<&'a str>,
    pub beside: &'a Kept,
    /// The path of the file given with the input, if there is one.
    pub beside_path: Option<&'a str>,
    /// What that file is.
    pub kind: Option<Beside>,
}

impl<'a> Sources<'a> {
    // Returns where the input comes from, or the file given with it.
    fn place(self, is_beside: bool) -> Place<'a> {
        let other = if is_beside { self.input } else { self.beside };
        Place {
            command: self.command,
            beside: self.kind,
            is_beside,
            other: other.as_slice(),
        }
    }
}

/// Returns the lines below that of a fault in an input, or in the file given with it, each with its line feed. There may be none.
pub fn explain_input(
    alloc: Global,
    fault: InputFault,
    sources: Sources<'_>,
) -> Result<String, AllocError> {
    let input_name = name_of(alloc, sources.input_path)?;
    let beside_name = name_of(alloc, sources.beside_path)?;
    let input = sources.input.text(input_name.as_ref().map(String::as_str));
    let beside = sources
        .beside
        .text(beside_name.as_ref().map(String::as_str));
    match fault {
        InputFault::Program(fault) => explain_program(alloc, input, sources.place(false), fault),
        InputFault::Record(fault) => explain_record(alloc, input, sources.place(false), fault),
        InputFault::Stray(fault) => explain_stray(alloc, input, beside, fault),
        InputFault::Beside(FileFault::Program(fault)) => explain_program(
            alloc,
            beside,
            sources.place(true),
            fault,
        ),
        InputFault::Beside(FileFault::Record(fault)) => explain_record(
            alloc,
            beside,
            sources.place(true),
            fault,
        ),
        InputFault::Beside(FileFault::Stray(fault)) => explain_stray(alloc, beside, input, fault),
        InputFault::Beside(FileFault::Names(fault)) => explain_names(alloc, beside, input, fault),
        InputFault::Cown { .. }
        | InputFault::Early { .. }
        | InputFault::Edit { .. }
        | InputFault::Def { .. } => Ok(String::new(alloc)),
    }
}

// Returns the name of a file with this path, as it is printed.
fn name_of(alloc: Global, path: Option<&str>) -> Result<Option<String>, AllocError> {
    match path {
        Some(path) => Ok(Some(printed(alloc, path)?)),
        None => Ok(None),
    }
}

/// Returns how runs are drawn by a schedule, if they are drawn at a depth.
pub fn drawn_at_depth(schedule: &Schedule) -> Option<AtDepth> {
    let (workers, depth) = match schedule {
        Schedule::Drawn { workers, depth, .. } => (*workers, *depth),
        Schedule::Threads(_) | Schedule::Timed(_) => return None,
    };
    Some(AtDepth {
        workers: workers.number(),
        depth: depth?,
    })
}
