//! Runs under way in which no row runs: which rows could start, and which rows wait for a row.
//!
//! A row could start if it is pending and is the first of each of its cowns' queues. In a run in which no row runs and one is pending there is such a row: the
//! lowest-numbered pending one. So if a runtime does nothing there, it lost a wake-up.
#![tactic(auto)]

mod laws;
mod life;
mod marks;
mod stalled;

pub use laws::some_row_could_start;
pub use life::{could_start, is_pending, is_running};
pub use stalled::{none_runs, rows_that_could_start, rows_that_wait_for};
