//! The commands that report on the plans of a run, over any source and sink: its profile, its curve, sweeps, changes, and what holds it back.
#![tactic(auto)]

mod best;
mod cowns;
mod curve;
mod meant;
mod notes;
pub mod order;
mod profile;
pub mod program_input;
mod sweep;
mod swept_run;
mod whatif;
mod why;

pub use cowns::{cowns_cmd, judged};
pub use curve::curve_cmd;
pub use profile::profile_cmd;
pub use program_input::{Setting, Supplied};
pub use sweep::sweep_cmd;
pub use whatif::{Supposed, whatif_cmd, whatif_report};
pub use why::why_cmd;
