//! The lines below the line of a fault of a record, of names, of an edit or of a command line.
//!
//! An explanation is found from the fault and the text only, after the fact, and changes no answer: if memory runs out, there is none.
#![tactic(auto)]

mod broken;
mod command_words;
mod edit;
mod formed;
mod kept;
mod left;
mod missing;
mod names;
mod record;
mod run;
mod stray;

use boc_program::limits::{MOST_COWNS, MOST_HELD, MOST_PART, MOST_ROWS, MOST_TICKS};

// These numbers are named in the lines.
const _: () = prove!(MOST_COWNS == 256 && MOST_HELD == 8 && MOST_PART == 1_000);

const _: () = prove!(MOST_ROWS == 65_535 && MOST_TICKS == 1_000_000);

pub use command_words::{explain_edit_word, explain_words};
pub use edit::{Asked, explain_edit, explain_edit_of_run};
pub use kept::{Input, Kept};
pub use missing::{explain_cown, explain_def};
pub use names::{Naming, explain_names};
pub use record::explain_record;
pub use stray::explain_stray;
