// What names of a text are declared as.

use crate::spot::{Spot, Word};
use boc_reader::{Keyword, Sign, Token};

/// What a name is declared as.
#[derive(Clone, Copy, PartialEq, Eq)]
pub(crate) enum Thing {
    Cown,
    Array,
    Def,
    Parameter,
    CownParameter,
    Local,
}

impl Thing {
    /// Returns what it is called.
    pub(crate) fn called(self) -> &'static str {
        match self {
            Thing::Cown => "a cown",
            Thing::Array => "an array of cowns",
            Thing::Def => "a def",
            Thing::Parameter => "a value parameter",
            Thing::CownParameter => "a cown parameter",
            Thing::Local => "a `let`",
        }
    }

    /// Says whether it is a cown of the program.
    pub(crate) fn is_cown(self) -> bool {
        matches!(self, Thing::Cown | Thing::Array)
    }

    // Says whether it is declared in a body.
    fn is_of_body(self) -> bool {
        !self.is_cown() && self != Thing::Def
    }
}

/// Returns what a name after this token is declared as, where the token itself would have been declared as this if it were a name.
pub(crate) fn next_thing(thing: Option<Thing>, token: Token<'_>) -> Option<Thing> {
    match (token, thing) {
        (Token::Keyword(Keyword::Cown), _) => Some(Thing::Cown),
        (Token::Keyword(Keyword::Def), _) => Some(Thing::Def),
        (Token::Keyword(Keyword::Let), _) => Some(Thing::Local),
        (Token::Sign(Sign::Close), _) => None,
        (Token::Sign(Sign::Semicolon), Some(Thing::Parameter)) => Some(Thing::CownParameter),
        (Token::Sign(Sign::Semicolon), _) => None,
        (_, Some(Thing::Def)) => Some(Thing::Parameter),
        (_, Some(Thing::Parameter | Thing::CownParameter)) => thing,
        _ => None,
    }
}

/// Returns what a token is declared as before this other one, where a name would be declared as this.
pub(crate) fn thing_of(
    next: Option<Thing>,
    token: Token<'_>,
    behind: Option<Token<'_>>,
) -> Option<Thing> {
    match (token, next, behind) {
        (Token::Name(_), Some(Thing::Cown), Some(Token::Sign(Sign::OpenIndex))) => {
            Some(Thing::Array)
        }
        (Token::Name(_), _, _) => next,
        _ => None,
    }
}

/// Returns how many of these parameters the def at this place has, among the words of a text.
pub(crate) fn count_taken(words: &[Word<'_>], at: usize, thing: Thing) -> u64 {
    let mut count: u64 = 0;
    let mut is_own = false;
    for word in words {
        if word.thing == Some(Thing::Def) {
            is_own = word.at == at;
        }
        if is_own && word.thing == Some(thing) {
            count = count.saturating_add(1);
        }
    }
    count
}

/// Finds where and as what else the name at a place is declared: first among the parameters and locals of its body, or else first among the cowns and defs.
pub(crate) fn other_of(spot: Spot<'_>, body_first: bool) -> Option<(usize, Thing)> {
    let begin = spot.front.iter().rev().find(|word| word.is("def main"));
    let end = spot.rest.iter().find(|word| word.is("def main"));
    let begin = begin.map_or(0, |word| word.at);
    let end = end.map_or(usize::MAX, |word| word.at);
    let mut of_top = None;
    let mut of_body = None;
    for word in spot.words {
        if let Some(thing) = word.thing
            && word.bytes == spot.after(0)
            && word.at != spot.at
        {
            if !thing.is_of_body() {
                of_top = of_top.or(Some((word.at, thing)));
            } else if begin <= word.at && word.at < end {
                of_body = of_body.or(Some((word.at, thing)));
            }
        }
    }
    if body_first {
        of_body.or(of_top)
    } else {
        of_top.or(of_body)
    }
}
