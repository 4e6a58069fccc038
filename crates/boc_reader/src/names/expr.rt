// Expressions, with the slot of each name.

ghost use Rattle.std.specs.Prelude.{◌≡◌, None, IfOk, map, position};
ghost use Rattle.std.specs.Str.{bytes_eq};
ghost use Rattle.boc_program.specs.memory.View.{slot_expr_of};
ghost use Rattle.boc_reader.specs.Names.{slot_of as slot_of_spec, compares as compares_spec, adds as adds_spec, multiplies as multiplies_spec, joined};
ghost use Rattle.boc_reader.specs.Names.{expr_names, sum_names, term_names, unary_names, atom_names, all_names};
ghost use Rattle.boc_reader.specs.Views.{expr_of, sum_of, term_of, unary_of, atom_of};
ghost use Rattle.boc_reader.specs.Resolving.{Yields, names_of, left_of};

use crate::fault::Unresolved;
use crate::level::{Comparison, SumOperator, TermOperator};
use crate::shape::{self, Atom, Sum, Term, Unary};
use boc_program::body::{Expr, Operator};
use std::alloc::{AllocError, Global};

// Returns the place of a name among those in scope.
fn index_in_scope(scope: &[&str], name: &str) -> Option<usize>
    ensures { result ≡ position (λ known. bytes_eq known.now name.now) scope.now }
{
    scope.iter().position(|known| *known == name)
}

/// Returns the slot of a name in scope.
pub fn slot_of(scope: &[&str], name: &str) -> Option<usize>
    ensures { result ≡ slot_of_spec (names_of scope.now) name.now }
{
    index_in_scope(scope, name)
}

fn compares(comparison: Comparison) -> Operator
    ensures { result ≡ compares_spec comparison }
{
    match comparison {
        Comparison::Equal => Operator::Equal,
        Comparison::NotEqual => Operator::NotEqual,
        Comparison::Less => Operator::Less,
        Comparison::AtMost => Operator::AtMost,
        Comparison::Greater => Operator::Greater,
        Comparison::AtLeast => Operator::AtLeast,
    }
}

fn adds(operator: SumOperator) -> Operator
    ensures { result ≡ adds_spec operator }
{
    match operator {
        SumOperator::Add => Operator::Add,
        SumOperator::Subtract => Operator::Subtract,
    }
}

fn multiplies(operator: TermOperator) -> Operator
    ensures { result ≡ multiplies_spec operator }
{
    match operator {
        TermOperator::Multiply => Operator::Multiply,
        TermOperator::Divide => Operator::Divide,
        TermOperator::Remainder => Operator::Remainder,
    }
}

// Joins the operand to what is to the left of it.
fn join(alloc: Global, left: Option<(Expr, Operator)>, right: Expr) -> Result<Expr, AllocError>
    ensures { IfOk result (λ e. slot_expr_of e ≡ joined (left_of left) (slot_expr_of right)) }
{
    match left {
        None => Ok(right),
        Some((left, operator)) => Ok(Expr::Binary(
            operator,
            Box::new(alloc, left)?,
            Box::new(alloc, right)?,
        )),
    }
}

/// Resolves an expression, with the slot of each name.
#[cycle(names)]
pub fn resolve_expr(
    alloc: Global,
    scope: &[&str],
    expr: &shape::Expr<'_>,
) -> Result<Expr, Unresolved>
    ensures { Yields slot_expr_of result (expr_names (expr_of expr.now) (names_of scope.now)) }
{
    match expr {
        shape::Expr::Plain(sum) => resolve_sum(alloc, scope, sum, None),
        shape::Expr::Compared(first, comparison, second) => {
            let left = resolve_sum(alloc, scope, first, None)?;
            let right = resolve_sum(alloc, scope, second, None)?;
            Ok(join(alloc, Some((left, compares(*comparison))), right)?)
        }
    }
}

#[cycle(names)]
fn resolve_sum(
    alloc: Global,
    scope: &[&str],
    sum: &Sum<'_>,
    left: Option<(Expr, Operator)>,
) -> Result<Expr, Unresolved>
    ensures { Yields slot_expr_of result (sum_names (sum_of sum.now) (names_of scope.now) (left_of left)) }
{
    match sum {
        Sum::One(term) => {
            let right = resolve_term(alloc, scope, term, None)?;
            Ok(join(alloc, left, right)?)
        }
        Sum::More(term, operator, others) => {
            let right = resolve_term(alloc, scope, term, None)?;
            let so_far = join(alloc, left, right)?;
            resolve_sum(alloc, scope, others, Some((so_far, adds(*operator))))
        }
    }
}

#[cycle(names)]
fn resolve_term(
    alloc: Global,
    scope: &[&str],
    term: &Term<'_>,
    left: Option<(Expr, Operator)>,
) -> Result<Expr, Unresolved>
    ensures { Yields slot_expr_of result (term_names (term_of term.now) (names_of scope.now) (left_of left)) }
{
    match term {
        Term::One(factor) => {
            let right = resolve_unary(alloc, scope, factor)?;
            Ok(join(alloc, left, right)?)
        }
        Term::More(factor, operator, others) => {
            let right = resolve_unary(alloc, scope, factor)?;
            let so_far = join(alloc, left, right)?;
            resolve_term(alloc, scope, others, Some((so_far, multiplies(*operator))))
        }
    }
}

#[cycle(names)]
fn resolve_unary(alloc: Global, scope: &[&str], unary: &Unary<'_>) -> Result<Expr, Unresolved>
    ensures { Yields slot_expr_of result (unary_names (unary_of unary.now) (names_of scope.now)) }
{
    match unary {
        Unary::Negated(inner) => {
            let inner = resolve_unary(alloc, scope, inner)?;
            Ok(Expr::Negate(Box::new(alloc, inner)?))
        }
        Unary::Plain(atom) => resolve_atom(alloc, scope, atom),
    }
}

#[cycle(names)]
fn resolve_atom(alloc: Global, scope: &[&str], atom: &Atom<'_>) -> Result<Expr, Unresolved>
    ensures { Yields slot_expr_of result (atom_names (atom_of atom.now) (names_of scope.now)) }
{
    match atom {
        Atom::Number(number) => Ok(Expr::Number(number.signed(false))),
        Atom::Name(spot) => match slot_of(scope, spot.name) {
            Some(slot) => Ok(Expr::Slot(slot)),
            None => Err(Unresolved::WrongName),
        },
        Atom::Parens(expr) => resolve_expr(alloc, scope, expr),
    }
}

/// Resolves each of several expressions, in their order.
pub fn resolve_exprs(
    alloc: Global,
    scope: &[&str],
    exprs: &[shape::Expr<'_>],
) -> Result<Vec<Expr>, Unresolved>
    ensures { Yields (λ v. map slot_expr_of v.items) result (all_names (λ e. expr_names e (names_of scope.now)) (map expr_of exprs.now)) }
{
    let mut all = Vec::new(alloc);
    for expr in exprs {
        let value = resolve_expr(alloc, scope, expr)?;
        all.push(value)?;
    }
    Ok(all)
}
