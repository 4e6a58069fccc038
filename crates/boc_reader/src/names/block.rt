// Statements, with every name resolved.

ghost use Rattle.std.specs.Prelude.{◌≡◌, OnOk, map, take, length};
ghost use Rattle.boc_program.specs.memory.View.{cown_ref_of};
ghost use Rattle.boc_reader.specs.Shape.{declare, member};
ghost use Rattle.boc_reader.specs.Names.{slot_of as slot_of_spec, global, held_or_single, ref_names, all_names, call_names, stmt_names, block_names};
ghost use Rattle.boc_reader.specs.Views.{expr_of, named_cown_of, stmt_of, block_of};
ghost use Rattle.boc_reader.specs.Resolving.{Yields, YieldsIn, assign_names, choice_names, loop_names, names_of, resolved_stmt_of, outside_of};

use crate::fault::Unresolved;
use crate::names::expr::{resolve_expr, resolve_exprs, slot_of};
use crate::names::top::{Outside, parameter_of};
use crate::shape::{self, NamedCown, Spot};
use boc_program::body::{Block, CownRef, Stmt};
use std::alloc::Global;

// Returns the cown that a name alone stands for: a cown parameter, or a single cown.
fn resolve_alone(outside: &Outside<'_, '_>, spot: &Spot<'_>) -> Result<CownRef, Unresolved>
    ensures { Yields cown_ref_of result (held_or_single (slot_of_spec (outside_of outside.now).held spot.now.name.now)
        (global (outside_of outside.now).top spot.now.name.now)) }
{
    if let Some(parameter) = parameter_of(outside.held, spot.name) {
        return Ok(CownRef::Held(parameter));
    }
    match outside.top.cown(spot.name) {
        Some(cown) if cown.size.is_none() => Ok(CownRef::Single(cown.first)),
        _ => Err(Unresolved::WrongName),
    }
}

// Resolves a member of an array.
fn resolve_member(
    alloc: Global,
    outside: &Outside<'_, '_>,
    scope: &[&str],
    spot: &Spot<'_>,
    index: &shape::Expr<'_>,
) -> Result<CownRef, Unresolved>
    ensures { Yields cown_ref_of result (ref_names (outside_of outside.now) (names_of scope.now) (member spot.now.name.now (expr_of index.now))) }
{
    let Some(cown) = outside.top.cown(spot.name) else {
        return Err(Unresolved::WrongName);
    };
    let Some(size) = cown.size else {
        return Err(Unresolved::WrongName);
    };
    let index = resolve_expr(alloc, scope, index)?;
    Ok(CownRef::Member {
        first: cown.first,
        size,
        index,
    })
}

fn resolve_ref(
    alloc: Global,
    outside: &Outside<'_, '_>,
    scope: &[&str],
    reference: &NamedCown<'_>,
) -> Result<CownRef, Unresolved>
    ensures { Yields cown_ref_of result (ref_names (outside_of outside.now) (names_of scope.now) (named_cown_of reference.now)) }
{
    match reference {
        NamedCown::Alone(spot) => resolve_alone(outside, spot),
        NamedCown::Member(spot, index) => resolve_member(alloc, outside, scope, spot, index),
    }
}

// Resolves each of several references, in their order.
fn resolve_refs(
    alloc: Global,
    outside: &Outside<'_, '_>,
    scope: &[&str],
    references: &[NamedCown<'_>],
) -> Result<Vec<CownRef>, Unresolved>
    ensures { Yields (λ v. map cown_ref_of v.items) result
        (all_names (ref_names (outside_of outside.now) (names_of scope.now)) (map named_cown_of references.now)) }
{
    let mut all = Vec::new(alloc);
    for reference in references {
        let cown = resolve_ref(alloc, outside, scope, reference)?;
        all.push(cown)?;
    }
    Ok(all)
}

// Resolves a `when`, which gives its def as many arguments and cowns as it takes.
fn resolve_call(
    alloc: Global,
    outside: &Outside<'_, '_>,
    scope: &[&str],
    def: &Spot<'_>,
    args: &[shape::Expr<'_>],
    references: &[NamedCown<'_>],
) -> Result<Stmt, Unresolved>
    ensures { Yields resolved_stmt_of result (call_names (outside_of outside.now) (names_of scope.now) def.now.name.now (map expr_of args.now)
        (map named_cown_of references.now)) }
{
    let Some((kind, callee)) = outside.top.def(def.name) else {
        return Err(Unresolved::WrongName);
    };
    if callee.args != args.len() || callee.cowns != references.len() {
        return Err(Unresolved::WrongName);
    }
    let args = resolve_exprs(alloc, scope, args)?;
    let references = resolve_refs(alloc, outside, scope, references)?;
    Ok(Stmt::When(kind, args, references))
}

// Resolves a `let`, which puts its name into the scope once its expression is resolved.
fn resolve_let<'a>(
    alloc: Global,
    outside: &Outside<'_, 'a>,
    scope: &mut Vec<&'a str>,
    spot: &Spot<'a>,
    value: &shape::Expr<'a>,
) -> Result<Stmt, Unresolved>
    ensures names { YieldsIn resolved_stmt_of result (names_of scope.new.items)
        (stmt_names (declare spot.now.name.now (expr_of value.now)) (outside_of outside.now) (names_of scope.old.items)) }
    ensures grows { OnOk result (take (length scope.old.items) scope.new.items ≡ scope.old.items) }
{
    if !outside.top.leaves_free(scope, spot.name) {
        return Err(Unresolved::WrongName);
    }
    let value = resolve_expr(alloc, scope, value)?;
    let slot = scope.len();
    scope.push(spot.name)?;
    Ok(Stmt::Assign(slot, value))
}

// Resolves an assignment to a name in scope.
fn resolve_assign(
    alloc: Global,
    scope: &[&str],
    spot: &Spot<'_>,
    value: &shape::Expr<'_>,
) -> Result<Stmt, Unresolved>
    ensures { Yields resolved_stmt_of result (assign_names spot.now.name.now (expr_of value.now) (names_of scope.now)) }
{
    let Some(slot) = slot_of(scope, spot.name) else {
        return Err(Unresolved::WrongName);
    };
    let value = resolve_expr(alloc, scope, value)?;
    Ok(Stmt::Assign(slot, value))
}

// Resolves a statement.
#[cycle(resolve)]
fn resolve_stmt<'a>(
    alloc: Global,
    outside: &Outside<'_, 'a>,
    scope: &mut Vec<&'a str>,
    stmt: &shape::Stmt<'a>,
) -> Result<Stmt, Unresolved>
    ensures names { YieldsIn resolved_stmt_of result (names_of scope.new.items)
        (stmt_names (stmt_of stmt.now) (outside_of outside.now) (names_of scope.old.items)) }
    ensures grows { OnOk result (take (length scope.old.items) scope.new.items ≡ scope.old.items) }
{
    match stmt {
        shape::Stmt::Let(spot, value) => resolve_let(alloc, outside, scope, spot, value),
        shape::Stmt::Assign(spot, value) => resolve_assign(alloc, scope, spot, value),
        shape::Stmt::Work(ticks) => Ok(Stmt::Work(resolve_expr(alloc, scope, ticks)?)),
        shape::Stmt::If(condition, block) => {
            resolve_choice(alloc, outside, scope, condition, block, &[])
        }
        shape::Stmt::IfElse(condition, block, other) => {
            resolve_choice(alloc, outside, scope, condition, block, other)
        }
        shape::Stmt::Repeat(turns, block) => { resolve_repeat(alloc, outside, scope, turns, block) }
        shape::Stmt::When(def, args, references) => {
            resolve_call(alloc, outside, scope, def, args, references)
        }
    }
}

// Resolves an `if`. Without `else` the other block is empty.
#[cycle(resolve)]
fn resolve_choice<'a>(
    alloc: Global,
    outside: &Outside<'_, 'a>,
    scope: &mut Vec<&'a str>,
    condition: &shape::Expr<'a>,
    block: &[shape::Stmt<'a>],
    other: &[shape::Stmt<'a>],
) -> Result<Stmt, Unresolved>
    ensures names { Yields resolved_stmt_of result (choice_names (expr_of condition.now) (block_of block.now) (block_of other.now) (outside_of outside.now)
        (names_of scope.old.items)) }
    ensures scope { OnOk result (scope.new.items ≡ scope.old.items) }
{
    let condition = resolve_expr(alloc, scope, condition)?;
    let block = resolve_block(alloc, outside, scope, block)?;
    let other = resolve_block(alloc, outside, scope, other)?;
    Ok(Stmt::If(condition, block, other))
}

// Resolves a `repeat`.
#[cycle(resolve)]
fn resolve_repeat<'a>(
    alloc: Global,
    outside: &Outside<'_, 'a>,
    scope: &mut Vec<&'a str>,
    turns: &shape::Expr<'a>,
    block: &[shape::Stmt<'a>],
) -> Result<Stmt, Unresolved>
    ensures names { Yields resolved_stmt_of result (loop_names (expr_of turns.now) (block_of block.now) (outside_of outside.now) (names_of scope.old.items)) }
    ensures scope { OnOk result (scope.new.items ≡ scope.old.items) }
{
    let turns = resolve_expr(alloc, scope, turns)?;
    let block = resolve_block(alloc, outside, scope, block)?;
    Ok(Stmt::Repeat(turns, block))
}

/// Resolves the statements of a block. The names that it declares are free again after it.
#[cycle(resolve)]
pub fn resolve_block<'a>(
    alloc: Global,
    outside: &Outside<'_, 'a>,
    scope: &mut Vec<&'a str>,
    block: &[shape::Stmt<'a>],
) -> Result<Block, Unresolved>
    ensures names { Yields (λ code. code) result (block_names (block_of block.now) (outside_of outside.now) (names_of scope.old.items)) }
    ensures scope { OnOk result (scope.new.items ≡ scope.old.items) }
{
    let depth = scope.len();
    let mut stmts = Vec::new(alloc);
    for stmt in block {
        let stmt = resolve_stmt(alloc, outside, scope, stmt)?;
        stmts.push(stmt)?;
    }
    scope.truncate(depth);
    Ok(Block::new(stmts))
}
