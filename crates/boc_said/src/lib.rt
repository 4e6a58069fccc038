//! How the lines below that of a fault are formed, which text a fault is in, and a place in it as it is shown.
//!
//! Each line is printable ASCII, begins with five blanks, and has at most 160 bytes. If the text comes from a file, the first message comes first, and begins
//! with `FILE:LINE:COLUMN:` instead of the blanks; if both together exceed 160 bytes, it has the next line, so that no name is cut.
#![tactic(auto)]

pub mod place;
pub mod said;
pub mod view;
