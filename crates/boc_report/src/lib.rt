//! The texts of reports.
#![tactic(auto)]

mod by_line;
mod curve_lines;
mod greedy_lines;
mod number_line;
mod profile_lines;
mod sweep_lines;

pub use curve_lines::curve_text;
pub use number_line::MOST_LINES;
pub use profile_lines::{profile_text, write_report, write_timed_report};
pub use sweep_lines::{sweep_text, write_sweep};
