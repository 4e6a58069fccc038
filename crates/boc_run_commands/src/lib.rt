//! The commands that run a program or check a record, over any source and sink, the faults of every command, and the run that a command reports on.
#![tactic(auto)]

mod beside;
mod check;
mod check_against;
mod fault;
pub mod measured;
pub mod named_run;
pub mod notes;
mod outcomes;
pub mod report;
mod run;
mod time;
pub mod timed_note;
mod values;
mod values_after;

pub use check::check_cmd;
pub use check_against::check_against_cmd;
pub use fault::{EndFault, Fault, FileFault, InputFault, Line, Want, WindowFault};
pub use named_run::{NamedRun, Origin};
pub use outcomes::outcomes_cmd;
pub use run::run_cmd;
pub use time::time_cmd;
pub use values::values_cmd;
pub use values_after::values_after_cmd;
