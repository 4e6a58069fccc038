// Program texts.

ghost use Rattle.std.specs.Prelude.{◌≡◌, ◌≢◌, ◌<◌, ◌≤◌, ℕ, List, [], map, length, IfOk, MatchResult, Some};
ghost use Rattle.boc_reader.specs.Spells.{Spells, plain_program};
ghost use Rattle.boc_program.specs.declared.limits.TheConstants.{MOST_TEXT};
ghost use Rattle.boc_program.specs.declared.program.Program.{Program};
ghost use Rattle.boc_reader.specs.Placed.{ArePlaced, AreReached, Refusal, tokens_of};
ghost use Rattle.boc_reader.specs.Tokens.{Token, tokens_of_text};
ghost use Rattle.boc_reader.specs.Grammar.{NoShape};
ghost use Rattle.boc_reader.specs.Judging.{IsNameAt};
ghost use Rattle.boc_reader.specs.WrongTokens.{IsFirstWrong, GoesWrong};
ghost use Rattle.boc_reader.specs.WrongShape.{ShapeGoesWrong, ShapeFaultStandsAt};
ghost use Rattle.boc_reader.specs.FaultMeanings.{HasNoShape, HasNoNames, SaysOf, IsRefusalOf};
ghost use Rattle.boc_reader.specs.declared.fault.TokenFault.{TokenFault};
ghost use Rattle.boc_reader.specs.declared.fault.NameFault.{NameFault};
ghost use Rattle.boc_reader.specs.Names.{PlainProgram, tree_names};
ghost use Rattle.boc_reader.specs.NameUses.{tree_uses};
ghost use Rattle.boc_reader.specs.WrongNames.{NameGoesWrong, names_of_tokens, right, verdict, wrong};
ghost use Rattle.boc_reader.specs.declared.fault.ReadFaultKind.{ReadFaultKind};
ghost use Rattle.boc_reader.specs.Listed.{ListsDefs, SpellsBy};
ghost use Rattle.boc_reader.specs.Listing.{AreLeft, main_tokens};
ghost use Rattle.boc_reader.specs.Shape as the;
ghost use Rattle.boc_reader.specs.Shape.{HasShape, tree_tokens};
ghost use Rattle.boc_reader.specs.Views.{block_of, tree_of};

use crate::fault::{
    Fault, NameFault, ReadFault, ReadFaultKind, ShapeFault, TokenFault, Unresolved,
};
use crate::lex::tokens;
use crate::lines::{fault_at, line_after};
use crate::listing::{DefListing, list_defs};
use crate::names::judge::judge_tree;
use crate::names::resolve_program;
use crate::parse::parse_tree;
use crate::shape::Tree;
use crate::stray::first_fault;
use crate::token::{self, Placed};
use boc_program::limits::MOST_TEXT;
use boc_program::program::Program;
use std::alloc::{AllocError, Global};

const NO_MEMORY: ReadFault = ReadFault {
    line: 0,
    at: 0,
    kind: ReadFaultKind::Memory,
};

/// Returns the program that a text spells. A text that is too long is refused for that. Any other goes
/// through three passes, for its tokens, its shape and its names: the first pass that finds a fault
/// reports the first one in the text. The place and its line are those of the fault, of the first byte too many, or 0 if memory was refused.
/// It is proved to be the first one of its pass: among the tokens, of the shape, or among the names. A fault of the shape is at the first token or the end
/// that the grammar doesn't allow, or at the first token with which a limit is passed.
pub fn read_program(alloc: Global, text: &[u8]) -> Result<Program, ReadFault>
    ensures { MatchResult result (Spells text.now) (λ f. IsRefusalOf f text.now) }
{
    match read_whole(alloc, text) {
        Ok(read) => Ok(read.program),
        Err(fault) => Err(fault),
    }
}

/// Returns the program that a text spells, and the defs of the text in their order. A text is refused as by `read_program`.
pub fn read_listed(alloc: Global, text: &[u8]) -> Result<(Program, Vec<DefListing>), ReadFault>
    ensures { MatchResult result (λ read. Spells text.now read.0 × ListsDefs text.now read.1.items) (λ f. IsRefusalOf f text.now) }
{
    match read_whole(alloc, text) {
        Ok(read) => match list_defs(alloc, text, &read.tokens, &read.tree) {
            Ok(defs) => Ok((read.program, defs)),
            Err(AllocError) => Err(NO_MEMORY),
        },
        Err(fault) => Err(fault),
    }
}

// What the passes over a text find: its tokens, its tree, and the program that its names make of it.
#[derive(Drop)]
struct Whole<'a> {
    tokens: Vec<Placed<'a>>,
    tree: Tree<'a>,
    program: Program,
}

fn read_whole(alloc: Global, text: &[u8]) -> Result<Whole<'_>, ReadFault>
    ensures spells { MatchResult result (λ read. SpellsBy text.now (tree_of read.tree) read.program) (λ f. IsRefusalOf f text.now) }
    ensures placed { IfOk result (λ read. ArePlaced text.now read.tokens.items) }
    ensures shape { IfOk result (λ read. HasShape (tokens_of read.tokens.items) (tree_of read.tree)) }
    ensures left { IfOk result (λ read. AreLeft read.tree.defs.items (main_tokens (block_of read.tree.main.items))) }
{
    if text.len() > MOST_TEXT {
        return Err(ReadFault {
            line: line_after(text.split_at(MOST_TEXT).0),
            at: MOST_TEXT as u32,
            kind: ReadFaultKind::TooLong,
        });
    }
    let tokens = match tokens(alloc, text) {
        Ok(tokens) => tokens,
        Err(fault) => return Err(no_tokens(text, fault)),
    };
    let tree = match parse_tree(alloc, &tokens) {
        Ok(tree) => tree,
        Err(fault) => return Err(no_shape(alloc, text, &tokens, fault)),
    };
    match resolve_program(alloc, &tree) {
        Ok(program) => Ok(Whole {
            tokens,
            tree,
            program,
        }),
        Err(Unresolved::Memory) => Err(NO_MEMORY),
        Err(Unresolved::WrongName) => Err(no_names(alloc, text, &tokens, &tree)),
    }
}

// Returns a fault of the first pass.
fn no_tokens(text: &[u8], fault: Fault<TokenFault>) -> ReadFault
    requires short { length text.now ≤ MOST_TEXT }
    requires first { IsFirstWrong fault text.now }
    ensures { IsRefusalOf result text.now }
{
    match fault {
        Fault::Memory => NO_MEMORY,
        Fault::At(wrong, at) => wrong_at(text, wrong, at),
    }
}

// Returns the first fault among the tokens, which begins at this byte.
fn wrong_at(text: &[u8], wrong: TokenFault, at: usize) -> ReadFault
    requires short { length text.now ≤ MOST_TEXT }
    requires within { at < length text.now }
    requires first { GoesWrong wrong text.now at }
    ensures { IsRefusalOf result text.now }
{
    match wrong {
        TokenFault::NotAscii => fault_at(text, ReadFaultKind::NotAscii, at),
        TokenFault::BadToken => fault_at(text, ReadFaultKind::BadToken, at),
        TokenFault::NumberTooLarge => fault_at(text, ReadFaultKind::NumberTooLarge, at),
    }
}

// Returns a fault of the second pass, in a text that has these tokens.
fn no_shape(
    alloc: Global,
    text: &[u8],
    tokens: &[Placed<'_>],
    fault: Fault<ShapeFault>,
) -> ReadFault
    requires short { length text.now ≤ MOST_TEXT }
    requires has_tokens { tokens_of_text text.now ≡ Some (tokens_of tokens.now) }
    requires placed { ArePlaced text.now tokens.now }
    requires reached { AreReached text.now [] tokens.now }
    requires none { Refusal fault (NoShape (tokens_of tokens.now)) }
    ensures { IsRefusalOf result text.now }
{
    if let Fault::Memory = fault {
        return NO_MEMORY;
    }
    match first_fault(alloc, text, tokens) {
        Ok((wrong, at)) => shape_at(text, wrong, at),
        Err(AllocError) => NO_MEMORY,
    }
}

// Returns a fault of the shape, at this byte.
fn shape_at(text: &[u8], wrong: ShapeFault, at: usize) -> ReadFault
    requires none { HasNoShape text.now }
    requires stands { ShapeFaultStandsAt wrong text.now at }
    ensures { IsRefusalOf result text.now }
{
    match wrong {
        ShapeFault::Unexpected => fault_at(text, ReadFaultKind::Unexpected, at),
        ShapeFault::TooMany => fault_at(text, ReadFaultKind::TooMany, at),
    }
}

// Returns a fault of the third pass: the first wrong name of the tree, which has these tokens.
fn no_names(alloc: Global, text: &[u8], tokens: &[Placed<'_>], tree: &Tree<'_>) -> ReadFault
    requires short { length text.now ≤ MOST_TEXT }
    requires tokens { tokens_of_text text.now ≡ Some (tokens_of tokens.now) }
    requires placed { ArePlaced text.now tokens.now }
    requires reached { AreReached text.now [] tokens.now }
    requires shape { HasShape (tokens_of tokens.now) (tree_of tree.now) }
    requires none { tree_names (tree_of tree.now) ≡ None }
    ensures { IsRefusalOf result text.now }
{
    match judge_tree(alloc, tree) {
        Ok(_) => unreachable!(),
        Err(Fault::Memory) => NO_MEMORY,
        Err(Fault::At(wrong, before)) => wrong_name(text, wrong, place_of_name(tokens, before)),
    }
}

// Returns the first wrong name, which begins at this byte.
fn wrong_name(text: &[u8], wrong: NameFault, at: usize) -> ReadFault
    requires short { length text.now ≤ MOST_TEXT }
    requires within { at ≤ length text.now }
    requires none { HasNoNames text.now }
    requires first { NameGoesWrong wrong text.now at }
    ensures { IsRefusalOf result text.now }
{
    match wrong {
        NameFault::UnknownName => fault_at(text, ReadFaultKind::UnknownName, at),
        NameFault::NameTaken => fault_at(text, ReadFaultKind::NameTaken, at),
        NameFault::WrongCount => fault_at(text, ReadFaultKind::WrongCount, at),
    }
}

// Returns the byte at which the name after `before` others begins.
fn place_of_name(tokens: &[Placed<'_>], before: usize) -> usize
    requires { before < length (names_of_tokens (tokens_of tokens.now)) }
    ensures { IsNameAt tokens.now before result }
{
    let mut left = before;
    for placed in tokens {
        if let token::Token::Name(_) = placed.token {
            if left == 0 {
                return placed.at;
            }
            left -= 1;
        }
    }
    unreachable!()
}

/// A text for which a fault is reported, except if memory was refused, spells no program. A text spells one program at most. A text without tokens goes wrong
/// first in one way and at one place, as does one whose tokens have no shape, and one whose names can't be resolved. The shape of tokens goes wrong at one
/// place at most, and nowhere where they are those of a tree.
pub fn refused_is_none()
    ensures none { (kind : ReadFaultKind) (text : List ℕ) (p : Program) → kind ≢ ReadFaultKind.Memory → SaysOf kind text → Spells text p → ⊥ }
    ensures one { (text : List ℕ) (p q : Program) → Spells text p → Spells text q → plain_program p ≡ plain_program q }
    ensures first { (fault other : TokenFault) → (text : List ℕ) → (at place : ℕ) → GoesWrong fault text at → GoesWrong other text place
        → (fault ≡ other) × (at ≡ place) }
    ensures first_shape { (fault other : ShapeFault) → (text : List ℕ) → (at place : ℕ) → ShapeFaultStandsAt fault text at → ShapeFaultStandsAt other text place
        → (fault ≡ other) × (at ≡ place) }
    ensures shape { (tokens : List Token) (before behind : ℕ) → ShapeGoesWrong tokens before → ShapeGoesWrong tokens behind → before ≡ behind }
    ensures right { (tokens : List Token) (tree : the.Tree) (before : ℕ) → HasShape tokens tree → ShapeGoesWrong tokens before → ⊥ }
    ensures first_name { (fault other : NameFault) → (text : List ℕ) → (at place : ℕ) → NameGoesWrong fault text at → NameGoesWrong other text place
        → (fault ≡ other) × (at ≡ place) }
{}

/// The names of a tree in their order are the names among its tokens. All of them are right exactly where they resolve.
pub fn names_are_judged()
    ensures order { (t : the.Tree) → map (λ u. u.name) (tree_uses t) ≡ names_of_tokens (tree_tokens t) }
    ensures right { (t : the.Tree) → (n : ℕ) → verdict 0 (tree_uses t) ≡ right n → (p : PlainProgram) × (tree_names t ≡ Some p) }
    ensures wrong { (t : the.Tree) → (fault : NameFault) → (n : ℕ) → verdict 0 (tree_uses t) ≡ wrong fault n → tree_names t ≡ None }
{}
