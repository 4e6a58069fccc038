// Why a program ends without its answer.

use crate::printing::printed;
use boc_commands::{Fault, Want, WordsFault};
use std::alloc::AllocError;
use std::io;

// The status if a file can't be read, as if a device fails.
const NO_FILE: u8 = 5;

/// Why a program ends without its answer.
#[derive(Drop)]
pub enum Stop {
    /// The words, the input or the run were refused, or a device failed. Lines that explain it may follow.
    Fault {
        fault: Fault,
        more: Option<String>,
    },
    /// A file that the words name can't be read. Its path is printable, and a line may follow that says how the words name it.
    File {
        path: String,
        error: io::Error,
        more: Option<&'static str>,
    },
}

impl From<Fault> for Stop {
    fn from(fault: Fault) -> Stop {
        Stop::Fault { fault, more: None }
    }
}

impl From<WordsFault> for Stop {
    fn from(fault: WordsFault) -> Stop {
        Stop::from(Fault::from(fault))
    }
}

impl From<AllocError> for Stop {
    fn from(error: AllocError) -> Stop {
        Stop::from(Fault::from(error))
    }
}

impl Stop {
    /// Makes the stop of a file with this path that can't be read. `more` is the line that follows, if any.
    pub fn of_file(
        rt: HostRuntime,
        path: &str,
        error: io::Error,
        more: Option<&'static str>,
    ) -> Stop {
        if error.kind() == io::ErrorKind::OutOfMemory {
            return Stop::from(Fault::Means(Want::Memory));
        }
        match printed(rt.alloc(), path) {
            Ok(path) => Stop::File { path, error, more },
            Err(error) => Stop::from(error),
        }
    }

    // Returns the status of the program.
    fn status(&self) -> u8 {
        match self {
            Stop::Fault { fault, .. } => fault.status(),
            Stop::File { .. } => NO_FILE,
        }
    }

    // Writes to standard error why the program of this name ends. A failing write is ignored.
    fn report(&self, rt: HostRuntime, program: &str) {
        match self {
            Stop::File { path, error, more } => {
                let _ = eprintln!(rt; "{program}: {path}: {error}");
                if let Some(more) = more {
                    let _ = eprintln!(rt; "{more}");
                }
            }
            Stop::Fault { fault, more } => {
                let _ = match fault.own_line() {
                    Some(line) => eprintln!(rt; "{line}"),
                    // The parser's text ends its own lines.
                    None => eprint!(rt; "{fault}"),
                };
                if let Some(more) = more {
                    let _ = eprint!(rt; "{more}");
                }
            }
        }
    }
}

/// Returns the status of the program of this name, and reports why it ended without its answer, if it did.
pub fn ended(rt: HostRuntime, program: &str, done: Result<(), Stop>) -> u8 {
    match done {
        Ok(()) => 0,
        Err(stop) => {
            stop.report(rt, program);
            stop.status()
        }
    }
}
