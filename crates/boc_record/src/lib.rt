//! The text of records, both ways.
//!
//! A record's text has a first line `boc 2 COWNS`, a line for each event, and the last line `.`: `+ ROW PARENT
//! OFFSET COWN ..` is a spawn, `> ROW` a start, and `< ROW TICKS STATUS COWN ..` an end, with the cowns that the
//! row wrote. Every line ends with a line feed, fields come after one space each, and numbers are plain decimals.
//! This is the second version of the text, in which records are written, and a record has one such text. In the
//! first version, which is read as well, the first line is `boc 1 COWNS`, and ends have no cowns: each row is
//! taken to have written all of its own.
#![tactic(auto)]

mod ahead;
mod fault;
mod fields;
mod first;
mod laws;
mod line;
mod read;
mod sink;
mod text;
mod verdict;
mod version;

pub use boc_text::WriteFault;
pub use fault::RecordFault;
pub use first::read_first;
pub use laws::{record_has_one_text, text_is_of_one_record};
pub use read::{read_counted, read_record, read_rows};
pub use text::{put_events, put_line, write_record};
pub use verdict::RecordFaultKind;
