// Whether the parts of a body fit together.

ghost use Rattle.std.specs.Prelude.{◌≡◌, ◌&&◌, ◌+◌, ◌<◌, ◌≤◌, IsTrue, IfOk, MatchOption, map, length};
ghost use Rattle.boc_program.specs.memory.View.{slot_expr_of, cown_ref_of, code_of, before};
ghost use Rattle.boc_program.specs.Syntax.{Done};
ghost use Rattle.boc_program.specs.Resolved.{Scope, fits, every, expr_fits as expr_fits_spec, ref_fits as ref_fits_spec, nodes, expr_nodes, ref_nodes, total};
ghost use Rattle.boc_program.specs.memory.Spent.{spent};
ghost use Rattle.boc_program.specs.Parts.{MakesBody, IsMadeOf};

use crate::body::{Block, Body, CownRef, Expr, Stmt};
use crate::limits::{MOST_ARGUMENTS, MOST_COWNS, MOST_HELD, MOST_NODES, MOST_SLOTS};
use crate::script::Script;
use std::alloc::{AllocError, Global};

// Returns whether every slot of an expression is there.
fn expr_fits(expr: &Expr, slots: usize) -> bool
    ensures { result ≡ expr_fits_spec slots (slot_expr_of expr.now) }
{
    match expr {
        Expr::Number(_) => true,
        Expr::Slot(slot) => *slot < slots,
        Expr::Negate(inner) => expr_fits(inner, slots),
        Expr::Binary(_, left, right) => expr_fits(left, slots) && expr_fits(right, slots),
    }
}

fn exprs_fit(exprs: &[Expr], slots: usize) -> bool
    ensures { result ≡ every (map (expr_fits_spec slots) (map slot_expr_of exprs.now)) }
{
    match exprs {
        [] => true,
        [first, rest @ ..] => expr_fits(first, slots) && exprs_fit(rest, slots),
    }
}

fn ref_fits(reference: &CownRef, slots: usize, cowns: usize) -> bool
    ensures { result ≡ ref_fits_spec (record { slots = slots; cowns = cowns }) (cown_ref_of reference.now) }
{
    match reference {
        CownRef::Held(parameter) => *parameter < cowns,
        CownRef::Single(cown) => (*cown as usize) < MOST_COWNS,
        CownRef::Member { first, size, index } => {
            u64::from(*first) + u64::from(*size) <= MOST_COWNS as u64 && expr_fits(index, slots)
        }
    }
}

fn refs_fit(references: &[CownRef], slots: usize, cowns: usize) -> bool
    ensures { result ≡ every (map (ref_fits_spec (record { slots = slots; cowns = cowns })) (map cown_ref_of references.now)) }
{
    match references {
        [] => true,
        [first, rest @ ..] => ref_fits(first, slots, cowns) && refs_fit(rest, slots, cowns),
    }
}

#[cycle(fits)]
#[tactic(auto, using(crate::proofs::Followed::fits_before, crate::proofs::Followed::then_size, crate::proofs::Followed::then_positive))]
fn stmts_fit(stmts: &[Stmt], slots: usize, cowns: usize) -> bool
    ensures { result ≡ fits (record { slots = slots; cowns = cowns }) (code_of stmts.now) }
{
    match stmts {
        [] => true,
        [first, rest @ ..] => stmt_fits(first, slots, cowns) && stmts_fit(rest, slots, cowns),
    }
}

#[cycle(fits)]
fn stmt_fits(stmt: &Stmt, slots: usize, cowns: usize) -> bool
    ensures { result ≡ fits (record { slots = slots; cowns = cowns }) (before stmt.now Done) }
{
    match stmt {
        Stmt::Assign(slot, expr) => *slot < slots && expr_fits(expr, slots),
        Stmt::Work(expr) => expr_fits(expr, slots),
        Stmt::If(condition, first, second) => {
            expr_fits(condition, slots)
                && stmts_fit(first.as_slice(), slots, cowns)
                && stmts_fit(second.as_slice(), slots, cowns)
        }
        Stmt::Repeat(turns, block) => {
            expr_fits(turns, slots) && stmts_fit(block.as_slice(), slots, cowns)
        }
        Stmt::When(_, args, refs) => {
            args.len() <= MOST_ARGUMENTS
                && refs.len() <= MOST_HELD
                && exprs_fit(args, slots)
                && refs_fit(refs, slots, cowns)
        }
    }
}

// Returns what is left of a number of nodes after an expression.
fn after_expr(expr: &Expr, left: usize) -> Option<usize>
    ensures { spent result (expr_nodes (slot_expr_of expr.now)) left }
{
    let left = match expr {
        Expr::Number(_) | Expr::Slot(_) => left,
        Expr::Negate(inner) => after_expr(inner, left)?,
        Expr::Binary(_, first, second) => after_expr(second, after_expr(first, left)?)?,
    };
    left.checked_sub(1)
}

fn after_exprs(exprs: &[Expr], left: usize) -> Option<usize>
    ensures { spent result (total (map expr_nodes (map slot_expr_of exprs.now))) left }
{
    match exprs {
        [] => Some(left),
        [first, rest @ ..] => after_exprs(rest, after_expr(first, left)?),
    }
}

fn after_ref(reference: &CownRef, left: usize) -> Option<usize>
    ensures { spent result (ref_nodes (cown_ref_of reference.now)) left }
{
    match reference {
        CownRef::Held(_) | CownRef::Single(_) => left.checked_sub(1),
        CownRef::Member { index, .. } => after_expr(index, left)?.checked_sub(1),
    }
}

fn after_refs(references: &[CownRef], left: usize) -> Option<usize>
    ensures { spent result (total (map ref_nodes (map cown_ref_of references.now))) left }
{
    match references {
        [] => Some(left),
        [first, rest @ ..] => after_refs(rest, after_ref(first, left)?),
    }
}

#[cycle(after)]
#[tactic(auto, using(crate::proofs::Followed::nodes_before, crate::proofs::Followed::then_size, crate::proofs::Followed::then_positive))]
fn after_stmts(stmts: &[Stmt], left: usize) -> Option<usize>
    ensures { spent result (nodes (code_of stmts.now)) left }
{
    match stmts {
        [] => Some(left),
        [first, rest @ ..] => after_stmts(rest, after_stmt(first, left)?),
    }
}

#[cycle(after)]
fn after_stmt(stmt: &Stmt, left: usize) -> Option<usize>
    ensures { spent result (nodes (before stmt.now Done)) left }
{
    let left = match stmt {
        Stmt::Assign(_, expr) | Stmt::Work(expr) => after_expr(expr, left)?,
        Stmt::If(condition, first, second) => {
            let left = after_stmts(first.as_slice(), after_expr(condition, left)?)?;
            after_stmts(second.as_slice(), left)?
        }
        Stmt::Repeat(turns, block) => after_stmts(block.as_slice(), after_expr(turns, left)?)?,
        Stmt::When(_, args, refs) => after_refs(refs, after_exprs(args, left)?)?,
    };
    left.checked_sub(1)
}

impl Body {
    /// Returns a body of these parts, which fit together. This is the one place that makes a body.
    ///
    /// `slots` counts the value parameters, the cown parameters and the locals. It takes memory for the cells
    /// of the block.
    pub fn new(
        alloc: Global,
        params: usize,
        cown_params: usize,
        slots: usize,
        block: Block,
    ) -> Result<Body, AllocError>
        requires { MakesBody params cown_params slots block }
        ensures { IfOk result (IsMadeOf params cown_params slots block) }
    {
        let block = Script::new(alloc, block)?;
        Ok(Body {
            params,
            cown_params,
            slots,
            block,
        })
    }

    /// Returns a body of these parts, or `None` where they break a limit or name a slot that is not there.
    pub fn checked(
        alloc: Global,
        params: usize,
        cown_params: usize,
        slots: usize,
        block: Block,
    ) -> Result<Option<Body>, AllocError>
        ensures { IfOk result (λ o. MatchOption o (MakesBody params cown_params slots block → ⊥) (IsMadeOf params cown_params slots block)) }
    {
        if params > MOST_ARGUMENTS
            || cown_params > MOST_HELD
            || slots > MOST_SLOTS
            || params + cown_params > slots
        {
            return Ok(None);
        }
        let stmts = block.as_slice();
        if after_stmts(stmts, MOST_NODES).is_none() || !stmts_fit(stmts, slots, cown_params) {
            return Ok(None);
        }
        let body = Body::new(alloc, params, cown_params, slots, block)?;
        Ok(Some(body))
    }
}
