//! What a finished run would be worth if some of its behaviours took other ticks or were spawned at others, or if a cown imposed no order.
//!
//! A caller edits rows one after another, and asks for the work, the span, the profile and the greedy
//! plan of what came of it, for the curve of the greedy plans of more and more workers, or for a sweep: for each row at
//! the fewest ticks that it can take, or for each cown if it imposed no order, the span, or the end of the greedy plan; or for each row
//! the span if it were spawned as early as it can be. All of these are of plans in which rows share cowns as was said at the start.
//!
//! An edit takes no memory, and time that grows with the number of rows after its own: it computes its row and those
//! after it again. Several edits that are made at once take time that grows with the children of their rows, and compute the lowest of
//! their rows and those after it again, once. A sweep for spans computes no row again, and takes little more time than
//! a plan. One for the ends of greedy plans makes for each row the rest of a plan: up to where the first of the rows that are
//! left would be over their plans are the same, and that part is made once.
#![tactic(auto)]

mod cown_ends;
mod edits;
pub mod laws;
mod least_ends;
mod what_if;

pub use boc_progress::{Progress, Silent};
pub use edits::Unfit;
pub use what_if::WhatIf;
