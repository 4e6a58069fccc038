//! Laws of the dispatcher's machine: whatever steps are made, in whatever order, the log stays a run of the program.
//!
//! The machine itself is defined in `boc_runs`. Here are no other functions than the laws, whose contracts say what is
//! proved of it, and the proofs, which the dispatcher's cite.
#![tactic(auto)]

pub mod laws;
