//! What the rows and the cowns of a run are called.
//!
//! The names come from the program, or, where a run has none, they are numbers. A file may name rows and cowns, whatever they are called without it.
#![tactic(auto)]

mod behaviours;
mod entry;
mod fault;
mod file;
mod grouping;
mod held;
mod laws;
mod names;
mod overlay;
mod texts;

pub use behaviours::behaviour_text;
pub use fault::{NamesFault, NamesFaultKind};
pub use file::{MOST_NAMES, read_names};
pub use held::CownNames;
pub use laws::file_has_one_reading;
pub use names::{Names, def_names, names_of_run, numbers_as_names};
pub use texts::text_at;
