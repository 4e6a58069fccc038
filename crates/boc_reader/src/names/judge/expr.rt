// The names of expressions, judged in the order of the text.

ghost use Rattle.std.specs.Prelude.{◌≡◌, map};
ghost use Rattle.boc_reader.specs.NameUses.{variable_fault};
ghost use Rattle.boc_reader.specs.Judging.{Judges, name_verdict, expr_verdict, sum_verdict, term_verdict, unary_verdict, atom_verdict, exprs_verdict};
ghost use Rattle.boc_reader.specs.Views.{expr_of, sum_of, term_of, unary_of, atom_of};
ghost use Rattle.boc_reader.specs.Resolving.{names_of};

use crate::fault::{Fault, NameFault};
use crate::names::judge::Verdict;
use crate::names::top::is_name;
use crate::shape::{Atom, Expr, Sum, Term, Unary};

/// Judges a name that has this fault, or none, after `count` others. More names than can be counted would be reported as out of memory.
pub fn judge_name(fault: Option<NameFault>, count: usize) -> Verdict
    ensures { Judges result (name_verdict fault count) }
{
    match fault {
        None => count.checked_add(1).ok_or(Fault::Memory),
        Some(kind) => Err(Fault::At(kind, count)),
    }
}

/// Returns what is wrong with a name that has to be in scope.
pub fn variable_fault(scope: &[&str], name: &str) -> Option<NameFault>
    ensures { result ≡ variable_fault (names_of scope.now) name.now }
{
    if is_name(scope, name) {
        None
    } else {
        Some(NameFault::UnknownName)
    }
}

/// Judges an expression.
#[cycle(judge)]
pub fn judge_expr(scope: &[&str], expr: &Expr<'_>, count: usize) -> Verdict
    ensures { Judges result (expr_verdict (expr_of expr.now) (names_of scope.now) count) }
{
    match expr {
        Expr::Plain(sum) => judge_sum(scope, sum, count),
        Expr::Compared(first, _, second) => {
            let count = judge_sum(scope, first, count)?;
            judge_sum(scope, second, count)
        }
    }
}

#[cycle(judge)]
fn judge_sum(scope: &[&str], sum: &Sum<'_>, count: usize) -> Verdict
    ensures { Judges result (sum_verdict (sum_of sum.now) (names_of scope.now) count) }
{
    match sum {
        Sum::One(term) => judge_term(scope, term, count),
        Sum::More(term, _, others) => {
            let count = judge_term(scope, term, count)?;
            judge_sum(scope, others, count)
        }
    }
}

#[cycle(judge)]
fn judge_term(scope: &[&str], term: &Term<'_>, count: usize) -> Verdict
    ensures { Judges result (term_verdict (term_of term.now) (names_of scope.now) count) }
{
    match term {
        Term::One(factor) => judge_unary(scope, factor, count),
        Term::More(factor, _, others) => {
            let count = judge_unary(scope, factor, count)?;
            judge_term(scope, others, count)
        }
    }
}

#[cycle(judge)]
fn judge_unary(scope: &[&str], unary: &Unary<'_>, count: usize) -> Verdict
    ensures { Judges result (unary_verdict (unary_of unary.now) (names_of scope.now) count) }
{
    match unary {
        Unary::Negated(inner) => judge_unary(scope, inner, count),
        Unary::Plain(atom) => judge_atom(scope, atom, count),
    }
}

#[cycle(judge)]
fn judge_atom(scope: &[&str], atom: &Atom<'_>, count: usize) -> Verdict
    ensures { Judges result (atom_verdict (atom_of atom.now) (names_of scope.now) count) }
{
    match atom {
        Atom::Number(_) => Ok(count),
        Atom::Name(spot) => judge_name(variable_fault(scope, spot.name), count),
        Atom::Parens(expr) => judge_expr(scope, expr, count),
    }
}

/// Judges each of several expressions, in their order.
pub fn judge_exprs(scope: &[&str], exprs: &[Expr<'_>], mut count: usize) -> Verdict
    ensures { Judges result (exprs_verdict (names_of scope.now) (map expr_of exprs.now) count) }
{
    for expr in exprs {
        count = judge_expr(scope, expr, count)?;
    }
    Ok(count)
}
