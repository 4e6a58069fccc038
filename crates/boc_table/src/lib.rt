//! Texts in columns.
//!
//! A `Table` is lines of texts, one for each column, and `put_table` Appends it to a text: each column as wide as the widest of its
//! texts, with two blanks between columns and none at the end of a line.
#![tactic(auto)]

mod put;
mod side;
mod table;

pub use side::Side;
pub use table::{Table, put_table};
