//! The spans of a run with one row after another changed, for all rows in one pass: each row at the fewest ticks that it
//! can take, or spawned as early as it can be.
//!
//! A row whose ticks change is a cut: each way from main's start to the end of all leads over it, by the row itself, by a
//! spawn, or by a wait for an earlier row. The heaviest way to a link's begin is the earliest plan; the heaviest way
//! from its end on is a tail, found from the last row back. Neither changes with the row's ticks, so the span is the
//! weight of the heaviest way over the cut.
//!
//! With a row's spawn the cut is just before the row's start: the row's own links are after it, and the links to the
//! row's start lead over it.
//!
//! Most rows keep the span of all: those that have no ticks to lose, and those over whose ticks no heaviest way leads. These are seen at once, since a
//! tail from the start of main is as heavy as the span. The others are chosen, and a link is looked at only where it leads over the cut of a chosen
//! row, and is heavier than the least of what these rows have without it. A row's spawn is judged in the same way.
//!
//! The spans that the rows would have if one cown after another imposed no order take a pass over the rows for every four cowns: a row is placed
//! by the latest ends of those before it that need its other cowns. Cowns that no row has have one span.
#![tactic(auto)]

mod chosen;
mod freed;
mod lanes;
mod lasts;
mod passes;
mod spawns;
mod sweeping;
mod tails;
mod windows;

pub use freed::cown_sweep;
pub use lasts::{last_children, least_ticks};
pub use spawns::spawn_sweep;
pub use sweeping::sweep;
