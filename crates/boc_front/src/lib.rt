//! What the programs `boc` and `boc-view` do alike around a command: they take the words of a command line and a file given with an input, report words and
//! paths by bytes that are printed, explain a fault of what they read, show how far a command is, note where words say nothing
//! of what was done, and report why there is no answer.
#![tactic(auto)]

mod beside;
mod explaining;
mod given;
mod meter;
mod output;
mod printing;
mod stop;
mod watch;
mod words;

pub use beside::{MOST_INPUT, read_beside, read_second, read_up_to};
pub use explaining::{Sources, drawn_at_depth, explain_input};
pub use given::{Given, idle_file_note, idle_note, idle_note_beside};
pub use meter::Meter;
pub use output::Output;
pub use printing::{printed, printed_words};
pub use stop::{Stop, ended};
pub use watch::Watch;
pub use words::words_given;

/// How many bytes of stack a program works on, so that none runs out if the system gives the first thread few. The deepest nesting takes less than 2 MB.
pub const STACK: usize = 4 * 1024 * 1024;
