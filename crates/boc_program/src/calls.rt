// Whether the parts of a program fit together.

ghost use Rattle.std.specs.Prelude.{◌≡◌, ◌+◌, ◌≤◌, IsTrue, map, length};
ghost use Rattle.boc_program.specs.memory.View.{slot_expr_of, cown_ref_of, code_of, before};
ghost use Rattle.boc_program.specs.Syntax.{Done};
ghost use Rattle.boc_program.specs.Resolved.{every};
ghost use Rattle.boc_program.specs.Signatures.{signature_of, ref_below as ref_below_spec, call_fits as call_fits_spec, calls_fit as calls_fit_spec, whens_pass};
ghost use Rattle.boc_program.specs.Programs.{cown_count, has_main as has_main_spec, have_members as have_members_spec};
ghost use Rattle.boc_program.specs.memory.Spent.{spent};

use crate::body::{Body, CownRef, Expr, Stmt};
use crate::cown::Cown;

// Returns whether the cown that a reference names is one of `cowns`, where `held` are held.
fn ref_below(reference: &CownRef, held: usize, cowns: usize) -> bool
    ensures { result ≡ ref_below_spec held cowns (cown_ref_of reference.now) }
{
    match reference {
        CownRef::Held(parameter) => *parameter < held,
        CownRef::Single(cown) => (*cown as usize) < cowns,
        CownRef::Member { first, size, .. } => u64::from(*first) + u64::from(*size) <= cowns as u64,
    }
}

fn refs_below(references: &[CownRef], held: usize, cowns: usize) -> bool
    ensures { result ≡ every (map (ref_below_spec held cowns) (map cown_ref_of references.now)) }
{
    match references {
        [] => true,
        [first, rest @ ..] => ref_below(first, held, cowns) && refs_below(rest, held, cowns),
    }
}

// Returns whether a `when` names a def, gives it as many arguments and cowns as it takes, and names cowns that are there.
fn call_fits(
    bodies: &[Body],
    held: usize,
    cowns: usize,
    kind: usize,
    args: &[Expr],
    references: &[CownRef],
) -> bool
    ensures { result ≡ call_fits_spec (map signature_of bodies.now) held cowns kind (map slot_expr_of args.now) (map cown_ref_of references.now) }
{
    match bodies.get(kind) {
        None => false,
        Some(body) => {
            kind > 0
                && args.len() == body.params
                && references.len() == body.cown_params
                && refs_below(references, held, cowns)
        }
    }
}

#[cycle(calls)]
#[tactic(auto, using(crate::proofs::Followed::whens_before, crate::proofs::Followed::then_size, crate::proofs::Followed::then_positive))]
fn stmts_calls_fit(stmts: &[Stmt], bodies: &[Body], held: usize, cowns: usize) -> bool
    ensures { result ≡ whens_pass (call_fits_spec (map signature_of bodies.now) held cowns) (code_of stmts.now) }
{
    match stmts {
        [] => true,
        [first, rest @ ..] => {
            stmt_calls_fit(first, bodies, held, cowns) && stmts_calls_fit(rest, bodies, held, cowns)
        }
    }
}

#[cycle(calls)]
fn stmt_calls_fit(stmt: &Stmt, bodies: &[Body], held: usize, cowns: usize) -> bool
    ensures { result ≡ whens_pass (call_fits_spec (map signature_of bodies.now) held cowns) (before stmt.now Done) }
{
    match stmt {
        Stmt::Assign(..) | Stmt::Work(_) => true,
        Stmt::If(_, first, second) => {
            stmts_calls_fit(first.as_slice(), bodies, held, cowns)
                && stmts_calls_fit(second.as_slice(), bodies, held, cowns)
        }
        Stmt::Repeat(_, block) => stmts_calls_fit(block.as_slice(), bodies, held, cowns),
        Stmt::When(kind, args, references) => {
            call_fits(bodies, held, cowns, *kind, args, references)
        }
    }
}

/// Returns whether every `when` of these bodies fits, in a program that has all of `bodies`.
pub(crate) fn calls_fit(callers: &[Body], bodies: &[Body], cowns: usize) -> bool
    ensures { result ≡ every (map (calls_fit_spec (map signature_of bodies.now) cowns) callers.now) }
{
    match callers {
        [] => true,
        [first, rest @ ..] => {
            stmts_calls_fit(first.block.as_slice(), bodies, first.cown_params, cowns)
                && calls_fit(rest, bodies, cowns)
        }
    }
}

/// Returns whether the first body takes nothing.
pub(crate) fn has_main(bodies: &[Body]) -> bool
    ensures { result ≡ has_main_spec bodies.now }
{
    match bodies {
        [] => false,
        [main, ..] => main.params == 0 && main.cown_params == 0,
    }
}

/// Returns whether every array has a member.
pub(crate) fn have_members(cowns: &[Cown]) -> bool
    ensures { result ≡ have_members_spec cowns.now }
{
    match cowns {
        [] => true,
        [first, rest @ ..] => first.members() > 0 && have_members(rest),
    }
}

/// Returns what is left of a number of cowns after these declarations.
pub(crate) fn after_cowns(cowns: &[Cown], left: usize) -> Option<usize>
    ensures { spent result (cown_count cowns.now) left }
{
    match cowns {
        [] => Some(left),
        [first, rest @ ..] => { after_cowns(rest, left.checked_sub(first.members())?) }
    }
}
