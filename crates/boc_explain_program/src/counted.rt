// Other numbers of arguments, cowns and indices than are asked for, and more of something than there may be.

use crate::declared::{Thing, count_taken, other_of};
use crate::spot::{Spot, Word};
use boc_program::limits::MOST_ARGUMENTS;
use boc_said::said::Part::{Bytes, Many, Number, Quote, Words};
use boc_said::said::{Said, Told, first_case};

/// Writes what a def takes and what it is given, or whether a cown takes an index.
pub(crate) fn put_wrong_count(said: &mut Said, spot: Spot<'_>) -> Told {
    let Some((at, thing)) = other_of(spot, true) else {
        return Ok(());
    };
    let (name, line) = (Quote(spot.after(0)), spot.line(at));
    if thing == Thing::Def {
        let [given, held] = given_behind(spot.rest);
        let arguments = Many(count_taken(spot.words, at, Thing::Parameter), "argument");
        let cowns = Many(count_taken(spot.words, at, Thing::CownParameter), "cown");
        let words = "{}, declared on line {}, takes {} and {}, but is given {} and {}";
        let parts = [name, line, arguments, cowns, Number(given), Number(held)];
        return said.tell(words, &parts);
    }
    if thing == Thing::Array {
        let words = "{} is an array, declared on line {}: it needs an index, such as `{}[0]`";
        return said.tell(words, &[name, line, Bytes(spot.after(0))]);
    }
    let words = "{} is {}, declared on line {}, not an array: it takes no index";
    said.tell(words, &[name, Words(thing.called()), line])
}

// Returns how many arguments and cowns a `when` gives to the def whose name is the first of these words.
fn given_behind(rest: &[Word<'_>]) -> [u64; 2] {
    let mut arguments: u64 = 0;
    let mut cowns: u64 = 0;
    let mut in_cowns = false;
    let mut depth: usize = 0;
    // Nothing comes after the last sign that ends an argument.
    let mut fresh = true;
    for word in rest.iter().skip(1) {
        let is_end = depth == 1 && word.is("; ,");
        if word.is(")") && depth <= 1 {
            break;
        }
        if depth > 0 && fresh && !is_end {
            if in_cowns {
                cowns = cowns.saturating_add(1);
            } else {
                arguments = arguments.saturating_add(1);
            }
        }
        fresh = is_end || depth == 0;
        in_cowns |= is_end && word.is(";");
        depth = word.depth(depth, "( [", ") ]");
    }
    [arguments, cowns]
}

/// Writes which limit is passed at a place, and what can be done about it.
#[rattlefmt::skip]
pub(crate) fn put_too_many(said: &mut Said, spot: Spot<'_>) -> Told {
    let is_def = spot.follows(0, "def");
    let is_cown = spot.precedes(0, "cown") || spot.precedes(2, "cown");
    // A behaviour has as many cowns as values.
    let is_list = commas_before(spot.front) == MOST_ARGUMENTS;
    let limit = first_case(&[
        (is_def, "a program has at most 64 defs"),
        (is_cown, "a program has at most 256 cowns, members of arrays included"),
        (is_list, "a def has at most 8 value parameters and 8 cown parameters, and a `when` as many arguments"),
    ]);
    let nodes = "a body has at most 1000 nodes: statements, numbers, names, operators, parentheses and cowns of `when`s";
    let way_out = first_case(&[
        (is_def, "merge some of them: pass a value that says which one is meant, and choose with `if`"),
        (is_cown, "use one cown for several that are always held together: the order of behaviours stays the same"),
    ]);
    let handed_on = "move some of it to another behaviour: spawn that with `when`; it runs later, over cowns of its own";
    said.words(limit.unwrap_or(nodes))?;
    said.words(way_out.unwrap_or(handed_on))
}

// Returns how many commas of its list come before the place after these words.
fn commas_before(front: &[Word<'_>]) -> usize {
    let mut depth: usize = 0;
    let mut commas: usize = 0;
    for word in front.iter().rev() {
        if depth == 0 && word.is("( [ ; { }") {
            break;
        }
        if depth == 0 && word.is(",") {
            commas = commas.saturating_add(1);
        }
        depth = word.depth(depth, ") ]", "( [");
    }
    commas
}
