//! Cuts a window out of a stream of record lines, as a record.
//!
//! A stream is followed as it comes: in memory are the rows that are alive, and from the cut on those of the window.
#![tactic(auto)]

mod choice;
mod cutting;
mod fans;
mod follow;
mod index;
mod labels;
mod laws;
mod lists;
mod made;
mod origins;
mod scale;
mod table;
mod tiling;
mod twins;
mod users;
mod weights;
mod whole;
mod window;

pub use boc_progress::{Progress, Silent};
pub use cutting::{CutFault, cut};
pub use labels::names_of;
pub use laws::window_has_order_of_stream;
pub use tiling::{Tile, tiles};
pub use window::{Notes, Window};
