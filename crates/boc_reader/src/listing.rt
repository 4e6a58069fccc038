// What the names of a text are, in addition to the program that it spells.

ghost use Rattle.std.specs.Prelude.{◌≡◌, ◌-◌, ◌<◌, ◌≤◌, ℕ, List, IfOk, map, length, drop, take};
ghost use Rattle.boc_program.specs.declared.limits.TheConstants.{MOST_TEXT};
ghost use Rattle.boc_reader.specs.Lines.{line_after};
ghost use Rattle.boc_reader.specs.Placed.{ArePlaced, position_of, tokens_of};
ghost use Rattle.boc_reader.specs.Shape.{HasShape};
ghost use Rattle.boc_reader.specs.Views.{block_of, def_of, name_of, tree_of};
ghost use Rattle.boc_reader.specs.Listing.{AreLeft, main_tokens, signature_of};
ghost use Rattle.boc_reader.specs.Listed.{AreListed, ListsDefs, listed};

use crate::lines::line_at;
use crate::shape::{DefShape, Spot, Tree};
use crate::token::Placed;
use boc_program::text::Name;
use std::alloc::{AllocError, Global};

/// The def of a text: its name, the names of its value parameters and of its cown parameters, and the line in which its name begins, counted from 1.
#[derive(Drop, Debug)]
pub struct DefListing {
    pub name: Name,
    pub params: Vec<Name>,
    pub cowns: Vec<Name>,
    pub line: u32,
}

// Returns an owned copy of a name.
fn owned(alloc: Global, name: &str) -> Result<Name, AllocError>
    ensures { IfOk result (λ made. made ≡ name.now) }
{
    Ok(Name::new(String::from_str(alloc, name)?))
}

fn names(alloc: Global, spots: &[Spot<'_>]) -> Result<Vec<Name>, AllocError>
    ensures { IfOk result (λ v. v.items ≡ map name_of spots.now) }
{
    let mut all = Vec::new(alloc);
    for spot in spots {
        all.push(owned(alloc, spot.name)?)?;
    }
    Ok(all)
}

// Returns the place of the token from which on `left` are left.
fn place_of(tokens: &[Placed<'_>], left: usize) -> usize
    requires some { 0 < left }
    requires within { left ≤ length tokens.now }
    ensures { result ≡ position_of (drop (length tokens.now - left) tokens.now) }
{
    tokens[tokens.len() - left].at
}

fn list_def(
    alloc: Global,
    text: &[u8],
    tokens: &[Placed<'_>],
    def: &DefShape<'_>,
) -> Result<DefListing, AllocError>
    requires short { length text.now ≤ MOST_TEXT }
    requires some { 0 < def.now.left }
    requires within { def.now.left ≤ length tokens.now }
    ensures names { IfOk result (λ made. listed made ≡ signature_of (def_of def.now)) }
    ensures line { IfOk result (λ made. made.line ≡ line_after (take (position_of (drop (length tokens.now - def.now.left) tokens.now)) text.now)) }
{
    Ok(DefListing {
        name: owned(alloc, def.name.name)?,
        params: names(alloc, &def.params)?,
        cowns: names(alloc, &def.cowns)?,
        line: line_at(text, place_of(tokens, def.left)),
    })
}

/// Returns the listing of a tree's defs, in their order, where the tree has these tokens, and they are in this text.
pub(crate) fn list_defs(
    alloc: Global,
    text: &[u8],
    tokens: &[Placed<'_>],
    tree: &Tree<'_>,
) -> Result<Vec<DefListing>, AllocError>
    requires short { length text.now ≤ MOST_TEXT }
    requires placed { ArePlaced text.now tokens.now }
    requires shape { HasShape (tokens_of tokens.now) (tree_of tree.now) }
    requires left { AreLeft tree.now.defs.items (main_tokens (block_of tree.now.main.items)) }
    ensures { IfOk result (λ v. AreListed text.now (tree_of tree.now) v.items) }
{
    let mut all = Vec::new(alloc);
    for def in &tree.defs {
        all.push(list_def(alloc, text, tokens, def)?)?;
    }
    Ok(all)
}

/// A text has one listing at most, up to the lines.
pub fn one_listing()
    ensures { (text : List ℕ) (defs others : List DefListing) → ListsDefs text defs → ListsDefs text others → map listed defs ≡ map listed others }
{}
