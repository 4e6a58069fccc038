// Names that aren't in scope, and names that are taken.

use crate::declared::{Thing, other_of};
use crate::spot::Spot;
use boc_said::said::Part::{Bytes, Quote, Words};
use boc_said::said::{Said, Told, first_case};

/// What a name stands for at a place.
#[derive(Clone, Copy, PartialEq, Eq)]
enum Use {
    /// A def, after `when`.
    Def,
    /// A cown of a `when`.
    Cown,
    /// A value of a `when`.
    Argument,
    /// A value elsewhere.
    Value,
}

/// Writes what a name that isn't in scope is elsewhere.
pub(crate) fn put_unknown(said: &mut Said, spot: Spot<'_>) -> Told {
    let wanted = use_of(spot);
    let name = Quote(spot.after(0));
    let Some((at, thing)) = other_of(spot, false) else {
        let words = match wanted {
            Use::Def => "no def is called {}",
            Use::Cown => "no cown is called {}",
            Use::Argument | Use::Value => "no parameter or `let` of this body is called {}",
        };
        said.tell(words, &[name])?;
        return put_undeclared(said, spot);
    };
    let words = if at > spot.at && thing == Thing::Local {
        "{} is {}, declared only later, on line {}"
    } else {
        "{} is {}, declared on line {}"
    };
    said.tell(words, &[name, Words(thing.called()), spot.line(at)])?;
    let is_main = spot.is_behind("main", "def main");
    said.words(wanted_words(wanted, thing, is_main))
}

// Writes, for a name that isn't declared anywhere, how a local is, where it is written, or what truth is.
fn put_undeclared(said: &mut Said, spot: Spot<'_>) -> Told {
    if spot.precedes(0, "; { }") && spot.follows(1, "=") {
        said.tell(
            "declare a local with `let {} = ..;`",
            &[Bytes(spot.after(0))],
        )
    } else if spot.follows(0, "true false True False") {
        said.words("values are integers: a comparison is 1 if it holds, else 0")
    } else {
        Ok(())
    }
}

// Returns what is wanted instead of what a name is.
#[rattlefmt::skip]
fn wanted_words(wanted: Use, other: Thing, is_main: bool) -> &'static str {
    let is_cown = other.is_cown();
    let words = first_case(&[
        (wanted == Use::Def, "a `when` takes the name of a def"),
        (wanted == Use::Cown, "a `when` takes cowns of the program or cown parameters after its `;`"),
        (is_cown && is_main, "main has no cowns: read and write them in a def that main spawns with `when`"),
        (is_cown && wanted == Use::Argument, "a `when` takes numbers before its `;`: a body reads a cown through its parameter"),
        (is_cown, "a body reads and writes a cown only through a parameter: pass it in the `when` that spawns the body"),
        (other == Thing::Def, "only a `when` can name a def"),
    ]);
    words.unwrap_or("a `let` is in scope after its statement, until the end of its block")
}

// Returns what the name at a place stands for. It is a cown of a `when` after the semicolon in its parentheses.
fn use_of(spot: Spot<'_>) -> Use {
    if spot.precedes(0, "when") {
        return Use::Def;
    }
    let mut before = spot.front.iter().rev();
    let mut depth: usize = 0;
    let mut in_cowns = false;
    while let Some(word) = before.next() {
        if word.is("{ }") || depth == 0 && word.is("( [") {
            let is_list = word.is("(") && before.nth(1).is_some_and(|word| word.is("when"));
            return match (is_list, in_cowns) {
                (true, true) => Use::Cown,
                (true, false) => Use::Argument,
                _ => Use::Value,
            };
        }
        in_cowns |= depth == 0 && word.is(";");
        depth = word.depth(depth, ") ]", "( [");
    }
    Use::Value
}

/// Writes what has a name that is taken.
pub(crate) fn put_taken(said: &mut Said, spot: Spot<'_>) -> Told {
    let Some((at, thing)) = other_of(spot, false) else {
        return Ok(());
    };
    let taking = match spot.before(0) {
        b"cown" => "a cown",
        b"def" => "a def",
        b"let" => "a `let`",
        _ => "a parameter",
    };
    let (name, called) = (Quote(spot.after(0)), Words(thing.called()));
    let words = "{} is {}, declared on line {}; {} can't have its name";
    said.tell(words, &[name, called, spot.line(at), Words(taking)])
}
