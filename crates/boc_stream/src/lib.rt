//! Streams of record lines without limits, read as they come.
//!
//! A stream has the lines of a record, and none of a record's limits: any rows in rising order, any cowns, any number of
//! cowns of a row, any ticks. Its first line may be left out, and so may its last: it may stop anywhere between two lines.
#![tactic(auto)]

mod fault;
mod fields;
mod lines;
mod told;

pub use fault::{LabelFault, LabelFaultKind, StreamFault, StreamFaultKind};
pub use fields::MOST_DIGITS;
pub use lines::{CAPACITY, Found, LongLines, MOST_LINE};
pub use told::{Header, Told, Version, header_of, told_of};
