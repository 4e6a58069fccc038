// The names of statements, judged in the order of the text.

ghost use Rattle.std.specs.Prelude.{◌≡◌, ◌∷◌, [], ◌++◌, OnOk, map, take, length};
ghost use Rattle.boc_reader.specs.Shape.{declare};
ghost use Rattle.boc_reader.specs.Names.{slot_of, global, callee};
ghost use Rattle.boc_reader.specs.NameUses.{alone_fault, member_fault, callee_fault, free_fault, scope_behind};
ghost use Rattle.boc_reader.specs.Judging.{Judges, ref_verdict, refs_verdict, call_verdict, guarded_verdict, stmt_verdict, block_verdict};
ghost use Rattle.boc_reader.specs.Views.{expr_of, named_cown_of, stmt_of, block_of};
ghost use Rattle.boc_reader.specs.Resolving.{names_of, outside_of, declared_of};

use crate::fault::NameFault;
use crate::names::judge::Verdict;
use crate::names::judge::expr::{judge_expr, judge_exprs, judge_name, variable_fault};
use crate::names::top::{Outside, Top, parameter_of};
use crate::shape::{Expr, NamedCown, Spot, Stmt};

// Returns what is wrong with the name of a cown that is written without an index.
fn alone_fault(outside: &Outside<'_, '_>, name: &str) -> Option<NameFault>
    ensures { result ≡ alone_fault (slot_of (outside_of outside.now).held name.now) (global (outside_of outside.now).top name.now) }
{
    match (parameter_of(outside.held, name), outside.top.cown(name)) {
        (Some(_), _) => None,
        (None, Some(cown)) if cown.size.is_some() => Some(NameFault::WrongCount),
        (None, Some(_)) => None,
        (None, None) => Some(NameFault::UnknownName),
    }
}

// Returns what is wrong with the name of a cown before an index.
fn member_fault(outside: &Outside<'_, '_>, name: &str) -> Option<NameFault>
    ensures { result ≡ member_fault (slot_of (outside_of outside.now).held name.now) (global (outside_of outside.now).top name.now) }
{
    match (parameter_of(outside.held, name), outside.top.cown(name)) {
        (_, Some(cown)) if cown.size.is_some() => None,
        (None, None) => Some(NameFault::UnknownName),
        _ => Some(NameFault::WrongCount),
    }
}

fn judge_ref(
    outside: &Outside<'_, '_>,
    scope: &[&str],
    reference: &NamedCown<'_>,
    count: usize,
) -> Verdict
    ensures { Judges result (ref_verdict (outside_of outside.now) (names_of scope.now) (named_cown_of reference.now) count) }
{
    match reference {
        NamedCown::Alone(spot) => judge_name(alone_fault(outside, spot.name), count),
        NamedCown::Member(spot, index) => {
            let count = judge_name(member_fault(outside, spot.name), count)?;
            judge_expr(scope, index, count)
        }
    }
}

// Judges each of several references, in their order.
fn judge_refs(
    outside: &Outside<'_, '_>,
    scope: &[&str],
    references: &[NamedCown<'_>],
    mut count: usize,
) -> Verdict
    ensures { Judges result (refs_verdict (outside_of outside.now) (names_of scope.now) (map named_cown_of references.now) count) }
{
    for reference in references {
        count = judge_ref(outside, scope, reference, count)?;
    }
    Ok(count)
}

// Returns what is wrong with the name of a def that is given this many arguments and cowns.
fn callee_fault(top: &Top<'_>, name: &str, args: usize, cowns: usize) -> Option<NameFault>
    ensures { result ≡ callee_fault (callee (declared_of top.now) name.now) args cowns }
{
    match top.def(name) {
        None => Some(NameFault::UnknownName),
        Some((_, def)) if def.args == args && def.cowns == cowns => None,
        Some(_) => Some(NameFault::WrongCount),
    }
}

// Judges a `when`.
fn judge_call(
    outside: &Outside<'_, '_>,
    scope: &[&str],
    def: &Spot<'_>,
    args: &[Expr<'_>],
    references: &[NamedCown<'_>],
    count: usize,
) -> Verdict
    ensures { Judges result (call_verdict (outside_of outside.now) (names_of scope.now) def.now.name.now (map expr_of args.now)
        (map named_cown_of references.now) count) }
{
    let fault = callee_fault(outside.top, def.name, args.len(), references.len());
    let count = judge_name(fault, count)?;
    let count = judge_exprs(scope, args, count)?;
    judge_refs(outside, scope, references, count)
}

/// Returns what is wrong with a name that is declared.
pub fn free_fault(top: &Top<'_>, scope: &[&str], name: &str) -> Option<NameFault>
    ensures { result ≡ free_fault (declared_of top.now) (names_of scope.now) name.now }
{
    if top.leaves_free(scope, name) {
        None
    } else {
        Some(NameFault::NameTaken)
    }
}

// Judges a `let`, which puts its name into the scope after its expression.
fn judge_let<'a>(
    outside: &Outside<'_, 'a>,
    scope: &mut Vec<&'a str>,
    spot: &Spot<'a>,
    value: &Expr<'a>,
    count: usize,
) -> Verdict
    ensures said { Judges result (stmt_verdict (declare spot.now.name.now (expr_of value.now)) (outside_of outside.now) (names_of scope.old.items) count) }
    ensures behind { OnOk result (names_of scope.new.items ≡ names_of scope.old.items ++ spot.now.name.now ∷ []) }
    ensures grows { OnOk result (take (length scope.old.items) scope.new.items ≡ scope.old.items) }
{
    let count = judge_name(free_fault(outside.top, scope, spot.name), count)?;
    let count = judge_expr(scope, value, count)?;
    scope.push(spot.name)?;
    Ok(count)
}

#[cycle(judge)]
fn judge_stmt<'a>(
    outside: &Outside<'_, 'a>,
    scope: &mut Vec<&'a str>,
    stmt: &Stmt<'a>,
    count: usize,
) -> Verdict
    ensures said { Judges result (stmt_verdict (stmt_of stmt.now) (outside_of outside.now) (names_of scope.old.items) count) }
    ensures behind { OnOk result (names_of scope.new.items ≡ scope_behind (stmt_of stmt.now) (names_of scope.old.items)) }
    ensures grows { OnOk result (take (length scope.old.items) scope.new.items ≡ scope.old.items) }
{
    match stmt {
        Stmt::Let(spot, value) => judge_let(outside, scope, spot, value, count),
        Stmt::Assign(spot, value) => {
            let count = judge_name(variable_fault(scope, spot.name), count)?;
            judge_expr(scope, value, count)
        }
        Stmt::Work(ticks) => judge_expr(scope, ticks, count),
        Stmt::If(condition, block) => judge_guarded(outside, scope, condition, block, count),
        Stmt::IfElse(condition, block, other) => {
            let count = judge_guarded(outside, scope, condition, block, count)?;
            judge_block(outside, scope, other, count)
        }
        Stmt::Repeat(turns, block) => judge_guarded(outside, scope, turns, block, count),
        Stmt::When(def, args, references) => judge_call(
            outside, scope, def, args, references, count,
        ),
    }
}

// Judges an expression, and a block after it.
#[cycle(judge)]
fn judge_guarded<'a>(
    outside: &Outside<'_, 'a>,
    scope: &mut Vec<&'a str>,
    guard: &Expr<'a>,
    block: &[Stmt<'a>],
    count: usize,
) -> Verdict
    ensures said { Judges result (guarded_verdict (expr_of guard.now) (block_of block.now) (outside_of outside.now) (names_of scope.old.items) count) }
    ensures scope { OnOk result (scope.new.items ≡ scope.old.items) }
{
    let count = judge_expr(scope, guard, count)?;
    judge_block(outside, scope, block, count)
}

/// Judges the statements of a block. The names that it declares are free again after it.
#[cycle(judge)]
pub fn judge_block<'a>(
    outside: &Outside<'_, 'a>,
    scope: &mut Vec<&'a str>,
    block: &[Stmt<'a>],
    mut count: usize,
) -> Verdict
    ensures said { Judges result (block_verdict (block_of block.now) (outside_of outside.now) (names_of scope.old.items) count) }
    ensures scope { OnOk result (scope.new.items ≡ scope.old.items) }
{
    let depth = scope.len();
    for stmt in block {
        count = judge_stmt(outside, scope, stmt, count)?;
    }
    scope.truncate(depth);
    Ok(count)
}
