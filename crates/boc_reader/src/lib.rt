//! Program texts, read in three passes over the whole of them: tokens, shape, names.
#![tactic(auto)]

mod cursor;
mod expected;
mod fault;
mod level;
mod lex;
mod lines;
mod listing;
mod names;
mod natural;
mod parse;
mod read;
mod room;
mod shape;
mod stray;
mod terminal;
mod token;
mod wanted;

pub use expected::Expected;
pub use fault::{ReadFault, ReadFaultKind};
pub use lex::read_tokens;
pub use listing::{DefListing, one_listing};
pub use natural::Natural;
pub use read::{names_are_judged, read_listed, read_program, refused_is_none};
pub use terminal::{Keyword, Sign};
pub use token::{Placed, Token};
