//! The commands that cut windows out of streams, over any source and sink.
#![tactic(auto)]

mod cut;
mod notes;
mod tiles;

pub use cut::{MOST_STREAM_NAMES, cut_cmd};
pub use tiles::tiles_cmd;
