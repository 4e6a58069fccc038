// Hints for what other languages write: what this one has instead, if a token isn't allowed.

use self::Only::{
    Always, Array, Block, Closed, Condition, Declared, Fourth, Has, Lead, NoDef, NoThird, Number,
    Unnumbered,
};
use self::shared::*;
use crate::allowed::Allowed;
use crate::spot::{Spot, Word};
use boc_said::said::{Part, Said, Told, first_case};

// A hint and when it applies: the word before the place, the one found there, and the next one are each among those listed, with a blank between them,
// and a missing one is empty.
struct Rule(&'static str, &'static str, &'static str, Only, &'static str);

// In a rule, matches each word.
const ANY: &str = "..";

// What else a rule requires.
#[derive(Clone, Copy)]
enum Only {
    // Nothing.
    Always,
    // This is the word two words earlier.
    Lead(&'static str),
    // This is the fourth word, counted from the one found.
    Fourth(&'static str),
    // The third word, counted from the one found, is another one.
    NoThird(&'static str),
    // This token is allowed.
    Has(&'static str),
    // An array may be declared.
    Array,
    // The word before the place is no number.
    Unnumbered,
    // Nor is it, and the text declares it with this keyword.
    Declared(&'static str),
    // The text declares no def of this name.
    NoDef,
    // Each earlier parenthesis is closed.
    Closed,
    // It is in the condition of an `if`.
    Condition,
    // It is in the condition of an `if`, after a number.
    Number,
    // A block is allowed, and none begins before the statement ends.
    Block,
}

// Hints of several rules.
#[rattlefmt::skip]
mod shared {
    pub(super) const ELSE_IF: &str = "an `else` takes a block: `else { if .. { .. } }`";
    pub(super) const COMMENT: &str = "a comment begins with `#` and ends with its line";
    pub(super) const COWNS_BEHIND: &str = "values come first, then a `;`, then cowns: `(x, y; a, b)`, or `(; a, b)` without values";
    pub(super) const COWNS_FIRST: &str = "declare cowns before the defs: `cown NAME = 0;`";
    pub(super) const MAIN_ALONE: &str = "write `main { .. }` on its own, after the defs";
    pub(super) const NAMES_ALONE: &str = "parameters are only names: those after the `;` are cowns";
    pub(super) const IF_STATEMENT: &str = "an `if` is a statement, not a value: `if .. { .. } else { .. }`";
    pub(super) const BLOCK: &str = "a block is `{ .. }`";
    pub(super) const COWN_OUTSIDE: &str = "declare a cown outside the bodies: `cown NAME = 0;`";
    pub(super) const IN_A_BODY: &str = "statements belong in a body: that of a def, or of `main { .. }`";
    pub(super) const NO_PARENTHESIS: &str = "this `)` has no matching `(`";
    pub(super) const OF_A_COWN: &str = "a body reads and writes only its parameters: pass it the member in the `when` that spawns it";
    pub(super) const NO_MEMBERS: &str = "a parameter or a `let` is one number: only a `cown NAME[N]` of the program has members";
    pub(super) const NO_TYPE: &str = "a def has no type and returns no value";
}

// Where a declaration may begin.
#[rattlefmt::skip]
static DECLARATION: [Rule; 11] = [
    Rule(ANY, "/", "/ *", Always, COMMENT),
    Rule(ANY, "int void fn func function", "main", Always, MAIN_ALONE),
    Rule(ANY, "fn fun func function", ANY, Always, "declare a behaviour with `def`"),
    Rule(ANY, "cown", ANY, Always, COWNS_FIRST),
    Rule(ANY, "let var int const global", ANY, Has("cown"), COWN_OUTSIDE),
    Rule(ANY, ANY, "=", Has("cown"), COWN_OUTSIDE),
    Rule(ANY, "let var int const global", ANY, Always, COWNS_FIRST),
    Rule(ANY, "work when if repeat", ANY, Always, IN_A_BODY),
    Rule(ANY, ANY, "=", Always, IN_A_BODY),
    Rule(ANY, "}", ANY, Always, "this `}` has no matching `{`"),
    Rule(ANY, "", ANY, Always, "a program ends with `main { .. }`"),
];

// Where a statement may begin.
#[rattlefmt::skip]
static BODY: [Rule; 8] = [
    Rule(ANY, "/", "/ *", Always, COMMENT),
    Rule(ANY, "cown def", ANY, Always, "declare cowns and defs outside all bodies, cowns first"),
    Rule(ANY, "main", ANY, Always, "`main` is written once, outside all other bodies, and can't be spawned"),
    Rule(ANY, "else", ANY, Always, "an `else` follows the `}` of its `if`, at most once"),
    Rule(ANY, ";", ANY, Always, "a `;` ends a statement, and a block needs none"),
    Rule(ANY, "+", "+", Always, "write the change in full: `x = x + 1;`"),
    Rule(ANY, "-", "-", Fourth(";"), "write the change in full: `x = x - 1;`"),
    Rule(ANY, "-", "-", Always, COMMENT),
];

// Where a value may continue.
#[rattlefmt::skip]
static VALUE: [Rule; 18] = [
    Rule(ANY, "[", ANY, Declared("cown"), OF_A_COWN),
    Rule(ANY, "[", ANY, Unnumbered, NO_MEMBERS),
    Rule(ANY, "in", ANY, Lead("repeat"), "a `repeat` has no counter: `let i = 0; repeat N { .. i = i + 1; }`"),
    Rule(ANY, "/", "/ *", Always, COMMENT),
    Rule("not", ANY, ANY, Always, "`x == 0` is 1 if x is 0, else 0"),
    Rule(ANY, ")", ANY, Closed, NO_PARENTHESIS),
    Rule(ANY, ")", ANY, Has(";"), COWNS_BEHIND),
    Rule(ANY, "=", ">", Always, "`x >= y` is 1 if x is at least y"),
    Rule(ANY, "=", "<", Always, "`x <= y` is 1 if x is at most y"),
    Rule(ANY, "=", ANY, Condition, "compare two values with `==`"),
    Rule(ANY, "== != < <= > >=", ANY, Always, "a value has at most one comparison: `(x < y) * (y < z)` is 1 if both hold"),
    Rule(ANY, "( [", ANY, Number, BLOCK),
    Rule(ANY, "(", ANY, Always, "a def can't be called for a value: spawn it with `when`"),
    Rule(ANY, "and", ANY, Always, "write `and` as a product: `(x == 1) * (y == 2)`, of which both sides are evaluated"),
    Rule(ANY, "or", ANY, Always, "write `or` as a sum: `(x == 1) + (y == 2)`, of which both sides are evaluated"),
    Rule(ANY, "if", ANY, Always, IF_STATEMENT),
    Rule(ANY, "then do", ANY, Always, BLOCK),
    Rule(ANY, ANY, ANY, Block, BLOCK),
];

// Where the values of a list, or a list of parameters, may end.
#[rattlefmt::skip]
static LIST: [Rule; 5] = [
    Rule("(", ")", ANY, Always, "write a `;` before the cowns, even if there are none: `(x; a)`, `(; a)`, `(x;)`, `(;)`"),
    Rule(ANY, ")", ANY, Closed, NO_PARENTHESIS),
    Rule(ANY, ")", ANY, Always, COWNS_BEHIND),
    Rule("int long mut var", ANY, ANY, Always, "parameters have no types: `(x, y; a, b)`"),
    Rule(ANY, "cown let", ANY, Always, NAMES_ALONE),
];

// Elsewhere. The last of them are for what follows a list.
#[rattlefmt::skip]
static OTHER: [Rule; 15] = [
    Rule(ANY, "/", "/ *", Always, COMMENT),
    Rule("else", "if", ANY, Always, ELSE_IF),
    Rule("def", "main", ANY, Always, MAIN_ALONE),
    Rule("main", "(", ANY, Always, "`main` takes no parameters: `main { .. }`"),
    Rule(ANY, "; ,", ANY, Array, "declare each cown on its own, with a number: `cown NAME = 0;`"),
    Rule("when", "(", ANY, Always, "a `when` takes the name of a def: `when NAME(values; cowns);`"),
    Rule(ANY, "; {", ANY, Lead("when"), "a spawn needs a list, even if it is empty: `when NAME(values; cowns);`"),
    Rule("; ,", "cown let", ANY, Always, NAMES_ALONE),
    Rule(ANY, "when", ANY, Has("1"), "a spawn has no value: a behaviour writes its result to a cown"),
    Rule(ANY, "if", ANY, Has("1"), IF_STATEMENT),
    Rule(")", ")", ANY, Always, NO_PARENTHESIS),
    Rule(")", "- =", ANY, Has("{"), NO_TYPE),
    Rule(")", "main", ANY, Has("{"), BLOCK),
    Rule(")", ANY, "{", Has("{"), NO_TYPE),
    Rule(")", ANY, ANY, Has("{"), BLOCK),
];

// After a name at the beginning of a statement, the same for all names.
#[rattlefmt::skip]
static STATEMENT: [Rule; 13] = [
    Rule(ANY, "; + - * / %", ANY, Lead("let"), "a local needs a first value: `let NAME = 0;`"),
    Rule("]", ";", ANY, Always, "the members of an array need a first value: `cown NAME[N] = 0;`"),
    Rule("]", "[", ANY, Always, "an array has one size"),
    Rule("while for loop do foreach until", ANY, ANY, Always, "the only loop is `repeat N { .. }`"),
    Rule("break continue", ANY, ANY, Always, "a `repeat` always takes all its turns"),
    Rule("return", ANY, ANY, Always, "a body ends with its block and returns no value: write the result to a cown"),
    Rule("elif", ANY, ANY, Always, ELSE_IF),
    Rule("sleep wait", ANY, ANY, Always, "`work N;` takes N ticks"),
    Rule("print println printf echo", ANY, ANY, NoDef, "a program prints nothing: `boc values` prints the final values of its cowns"),
    Rule(ANY, "[", ANY, Declared("cown"), OF_A_COWN),
    Rule(ANY, "[", ANY, Always, NO_MEMBERS),
    Rule(ANY, "/", "/ *", NoThird("="), COMMENT),
    Rule(ANY, "*", "*", Always, "there is no power operator: write the product, such as `x * x`"),
];

impl Only {
    // Returns whether this is the case.
    fn holds(self, spot: Spot<'_>, allowed: &Allowed) -> bool {
        match self {
            Always => true,
            Lead(word) => spot.precedes(1, word),
            Fourth(word) => spot.follows(3, word),
            NoThird(word) => !spot.follows(2, word),
            Has(token) => allowed.has(token.as_bytes()),
            Array => allowed.has(b"=") && allowed.has(b"["),
            Unnumbered => !is_number(spot.before(0)),
            Declared(keyword) => {
                !is_number(spot.before(0)) && declares(spot, keyword, spot.before(0))
            }
            NoDef => !declares(spot, "def", spot.before(0)),
            Closed => !is_open(spot.front),
            Condition => is_condition(spot),
            Number => is_condition(spot) && is_number(spot.before(0)),
            Block => allowed.has(b"{") && !opens_block(spot.rest),
        }
    }
}

impl Rule {
    // Returns whether the rule applies.
    fn fits(&self, spot: Spot<'_>, allowed: &Allowed) -> bool {
        let Rule(before, found, behind, only, _) = self;
        (*before == ANY || spot.precedes(0, before))
            && (*found == ANY || spot.follows(0, found))
            && (*behind == ANY || spot.follows(1, behind))
            && only.holds(spot, allowed)
    }
}

// Returns the hint of the first of these rules that applies.
fn first_hint(rules: &[Rule], spot: Spot<'_>, allowed: &Allowed) -> Option<&'static str> {
    let Rule(_, _, _, _, hint) = rules.iter().find(|rule| rule.fits(spot, allowed))?;
    Some(*hint)
}

// Returns whether the word is a number.
fn is_number(word: &[u8]) -> bool {
    matches!(word, [b'0'..=b'9', ..])
}

// Returns whether the place is in the condition of an `if`.
fn is_condition(spot: Spot<'_>) -> bool {
    spot.is_behind("if", "if ; { } = let when work repeat")
}

// Returns whether a block begins among these words, and no statement ends before it.
fn opens_block(rest: &[Word<'_>]) -> bool {
    let end = rest.iter().find(|word| word.is("{ } ;"));
    end.is_some_and(|word| word.is("{"))
}

// Returns whether the text declares this name with one of these keywords, separated by blanks.
fn declares(spot: Spot<'_>, keywords: &str, name: &[u8]) -> bool {
    let mut pairs = spot.words.iter().zip(spot.words.iter().skip(1));
    pairs.any(|(word, next)| word.is(keywords) && next.bytes == name)
}

/// Says whether since the last brace of these words more parentheses are opened than closed.
pub(crate) fn is_open(front: &[Word<'_>]) -> bool {
    let mut depth: usize = 0;
    for word in front {
        let inner = word.depth(depth, "(", ")");
        depth = if word.is("{ }") { 0 } else { inner };
    }
    depth > 0
}

/// Appends what this language writes instead, if the mistake is one known from other languages.
pub(crate) fn put_hint(said: &mut Said, spot: Spot<'_>, allowed: &Allowed) -> Told {
    if allowed.is_assignment() {
        return put_statement(said, spot, allowed);
    }
    match first_hint(rules_of(allowed), spot, allowed) {
        Some(hint) => said.words(hint),
        None => Ok(()),
    }
}

// Returns the rules for what may be there.
fn rules_of(allowed: &Allowed) -> &'static [Rule] {
    if allowed.has(b"main") {
        &DECLARATION
    } else if allowed.has(b"let") {
        &BODY
    } else if allowed.has(b"+") {
        &VALUE
    } else if allowed.has(b";") {
        &LIST
    } else {
        &OTHER
    }
}

// Appends a hint after a name at the beginning of a statement.
fn put_statement(said: &mut Said, spot: Spot<'_>, allowed: &Allowed) -> Told {
    let name = spot.before(0);
    let is_called = spot.follows(0, "(");
    let hint = first_hint(&STATEMENT, spot, allowed);
    if is_called && (hint.is_none() || declares(spot, "def", name)) {
        put_spawn(said, spot, name)
    } else if let Some(hint) = hint {
        said.words(hint)
    } else if spot.precedes(0, "spawn When go async") {
        put_spawn(said, spot, spot.after(0))
    } else if spot.precedes(0, DECLARING) {
        put_local(said, spot)
    } else if spot.follows(0, "+ - * / %") && !spot.follows(1, ">") {
        put_change(said, spot)
    } else {
        Ok(())
    }
}

// Appends how a behaviour with this name is spawned, and how it is declared if it isn't.
fn put_spawn(said: &mut Said, spot: Spot<'_>, name: &[u8]) -> Told {
    let called = [Part::Bytes(name)];
    said.tell("spawn a behaviour with `when {}(values; cowns);`", &called)?;
    let words = "and declare it with `def {}(values; cowns) { .. }`: there are no other calls";
    if declares(spot, "def", name) {
        return Ok(());
    }
    said.tell(words, &called)
}

// Words that declare locals in other languages.
const DECLARING: &str = "mut int long var const auto";

// Appends how a local is declared, for a declaration by a word of other languages, or by two.
#[rattlefmt::skip]
fn put_local(said: &mut Said, spot: Spot<'_>) -> Told {
    let is_second = spot.follows(0, DECLARING) && spot.follows(2, "=");
    let place = usize::from(is_second);
    let name = spot.after(place);
    let words = first_case(&[
        (declares(spot, "cown def", name), "declare a local with `let NAME = ..;`; `{}` is taken"),
        (spot.has_keyword(place), "declare a local with `let NAME = ..;`; `{}` is a keyword"),
        (spot.follows(place.saturating_add(1), "["), "only cowns have arrays, declared before the defs: `cown {}[N] = 0;`"),
        (declares(spot, "let", name), "declare a local with `let {} = ..;`, once, and change it without `let`"),
    ]);
    said.tell(words.unwrap_or("declare a local with `let {} = ..;`"), &[Part::Bytes(name)])
}

// Appends how a variable is changed, for a sign that other languages write before `=`, or twice.
#[rattlefmt::skip]
fn put_change(said: &mut Said, spot: Spot<'_>) -> Told {
    let (name, sign) = (spot.before(0), spot.after(0));
    let is_twice = spot.follows(0, "+ -") && spot.after(1) == sign;
    let refused = first_case(&[
        (declares(spot, "def", name), "only a `when` can name a def"),
        (declares(spot, "cown", name), "a body reads and writes only its parameters: pass it the cown in the `when` that spawns it"),
    ]);
    if let Some(words) = refused {
        return said.words(words);
    }
    let words = if is_twice { "write the change in full: `{} = {} {} 1;`" } else { "write the change in full: `{} = {} {} ..;`" };
    let name = Part::Bytes(name);
    said.tell(words, &[name, name, Part::Bytes(sign)])
}
