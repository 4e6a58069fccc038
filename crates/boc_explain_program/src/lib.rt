//! The lines below the line of a fault of a program: the place in the text, the names in it, and what is expected there; or which spawns make a run too large.
//!
//! An explanation is found from the fault and the text only, after the fact, and changes no answer: if memory runs out, there is none.
#![tactic(auto)]

mod allowed;
mod counted;
mod declared;
mod hint;
mod named;
mod program;
mod shaped;
mod spawning;
mod spot;

use boc_program::limits::{
    MOST_ARGUMENTS, MOST_COWNS, MOST_DEFS, MOST_HELD, MOST_NODES, MOST_ROWS,
};

// The lines name these limits.
const _: () = prove!(MOST_ARGUMENTS == 8 && MOST_HELD == 8 && MOST_DEFS == 64);

const _: () = prove!(MOST_COWNS == 256 && MOST_NODES == 1_000 && MOST_ROWS == 65_535);

pub use program::explain_program;
pub use spawning::{AtDepth, explain_behaviours};
