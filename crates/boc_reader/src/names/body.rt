// Bodies, with every name resolved.

ghost use Rattle.std.specs.Prelude.{◌≡◌, ◌≤◌, ◌++◌, [], IfOk, map, length};
ghost use Rattle.boc_program.specs.declared.limits.TheConstants.{MOST_ARGUMENTS, MOST_COWNS, MOST_HELD, MOST_SLOTS};
ghost use Rattle.boc_program.specs.Syntax.{Done};
ghost use Rattle.boc_reader.specs.Shape.{IsSmallBody};
ghost use Rattle.boc_program.specs.memory.View.{code_of, before};
ghost use Rattle.boc_reader.specs.Names.{PlainBody, deepest, body_names};
ghost use Rattle.boc_reader.specs.Spells.{plain_body};
ghost use Rattle.boc_program.specs.Parts.{MakesBody};
ghost use Rattle.boc_reader.specs.Views.{name_of, block_of};
ghost use Rattle.boc_reader.specs.Resolving.{Yields, EndWithin, names_of, declared_of, scope_with};

use crate::fault::Unresolved;
use crate::names::block::resolve_block;
use crate::names::top::{Outside, Top};
use crate::shape::{self, Spot};
use boc_program::body::{Block, Body, Stmt};
use std::alloc::{AllocError, Global};

// Returns one slot more than the greatest that a block writes, and at least `least`.
#[cycle(slots)]
fn block_slots(block: &Block, least: usize) -> usize
    requires { deepest least block.now ≤ MOST_SLOTS }
    ensures { result ≡ deepest least block.now }
{
    stmts_slots(block.as_slice(), least)
}

#[cycle(slots)]
#[tactic(auto, using(crate::proofs::ResolvingSlots::deepest_before, boc_program::proofs::Followed::then_size, boc_program::proofs::Followed::then_positive))]
fn stmts_slots(stmts: &[Stmt], least: usize) -> usize
    requires { deepest least (code_of stmts.now) ≤ MOST_SLOTS }
    ensures { result ≡ deepest least (code_of stmts.now) }
{
    match stmts {
        [] => least,
        [first, rest @ ..] => stmt_slots(first, least).max(stmts_slots(rest, least)),
    }
}

#[cycle(slots)]
fn stmt_slots(stmt: &Stmt, least: usize) -> usize
    requires { deepest least (before stmt.now Done) ≤ MOST_SLOTS }
    ensures { result ≡ deepest least (before stmt.now Done) }
{
    match stmt {
        Stmt::Assign(slot, _) => least.max(*slot + 1),
        Stmt::If(_, first, second) => block_slots(first, least).max(block_slots(second, least)),
        Stmt::Repeat(_, block) => block_slots(block, least),
        Stmt::Work(_) | Stmt::When(..) => least,
    }
}

// Puts parameters into the scope, each of which must be free.
fn declare<'a>(
    top: &Top<'a>,
    scope: &mut Vec<&'a str>,
    params: &[Spot<'a>],
) -> Result<(), Unresolved>
    ensures { Yields (λ unit. names_of scope.new.items) result (scope_with (declared_of top.now) (names_of scope.old.items) (map name_of params.now)) }
{
    for param in params {
        if !top.leaves_free(scope, param.name) {
            return Err(Unresolved::WrongName);
        }
        scope.push(param.name)?;
    }
    Ok(())
}

// Returns the names in scope as a body begins: its value parameters, then its cown parameters.
fn parameters<'a>(
    alloc: Global,
    top: &Top<'a>,
    params: &[Spot<'a>],
    held: &[Spot<'a>],
) -> Result<Vec<&'a str>, Unresolved>
    ensures { Yields (λ scope. names_of scope.items) result (scope_with (declared_of top.now) [] (map name_of params.now ++ map name_of held.now)) }
{
    let mut scope = Vec::new(alloc);
    declare(top, &mut scope, params)?;
    declare(top, &mut scope, held)?;
    Ok(scope)
}

// Returns a body of parts that fit, with a slot for each parameter and for each slot that it writes.
fn fitting(
    alloc: Global,
    params: usize,
    cown_params: usize,
    names: usize,
    block: Block,
) -> Result<Body, AllocError>
    requires { MakesBody params cown_params (deepest names block) block }
    ensures { IfOk result (λ body. let b : PlainBody = record { params = params; cown_params = cown_params; slots = deepest names block; code = block } in
        plain_body body ≡ b) }
{
    let slots = block_slots(&block, names);
    Body::new(alloc, params, cown_params, slots, block)
}

/// Returns the body of these parameters and this block.
pub fn resolve_body<'a>(
    alloc: Global,
    top: &Top<'a>,
    params: &[Spot<'a>],
    held: &[Spot<'a>],
    block: &[shape::Stmt<'a>],
) -> Result<Body, Unresolved>
    requires few_params { length params.now ≤ MOST_ARGUMENTS }
    requires few_cowns { length held.now ≤ MOST_HELD }
    requires small { IsSmallBody (block_of block.now) }
    requires cowns { EndWithin MOST_COWNS (declared_of top.now).cowns }
    ensures { Yields plain_body result (body_names (declared_of top.now) (map name_of params.now) (map name_of held.now) (block_of block.now)) }
{
    let mut scope = parameters(alloc, top, params, held)?;
    let names = scope.len();
    let outside = Outside { top, held };
    let block = resolve_block(alloc, &outside, &mut scope, block)?;
    Ok(fitting(alloc, params.len(), held.len(), names, block)?)
}
