// The tokens of a text, with their places.

use crate::natural::Natural;
use crate::terminal::{Keyword, Sign};

/// A token. A name is the part of the text that spells it.
#[derive(Clone, Copy, Debug)]
pub enum Token<'a> {
    Name(&'a str),
    Number(Natural),
    Keyword(Keyword),
    Sign(Sign),
}

/// A token, the place of its first byte, and the first place after it.
#[derive(Clone, Copy, Debug)]
pub struct Placed<'a> {
    pub token: Token<'a>,
    pub at: usize,
    pub end: usize,
}
