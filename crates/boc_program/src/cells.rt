// A block spelled as numbers. The numbers are those of `cells_of`.

ghost use Rattle.std.specs.Prelude.{◌≡◌, ◌++◌, OnOk, map};
ghost use Rattle.boc_program.specs.memory.View.{slot_expr_of, cown_ref_of, code_of};
ghost use Rattle.boc_program.specs.memory.Cells.{sign_cell as sign_cell_spec, operator_cell as operator_cell_spec};
ghost use Rattle.boc_program.specs.memory.Cells.{expr_cells, exprs_cells, ref_cells, refs_cells, cells_of, stmt_cells};

use crate::body::{CownRef, Expr, Operator, Stmt};
use std::alloc::AllocError;

// Returns the tag of a number, which reports its sign.
fn sign_cell(number: i64) -> u64
    ensures { result ≡ sign_cell_spec number }
{
    if number >= 0 { 1 } else { 2 }
}

// Returns the tag of two operands with this operator between them.
fn operator_cell(operator: Operator) -> u64
    ensures { result ≡ operator_cell_spec operator }
{
    match operator {
        Operator::Add => 5,
        Operator::Subtract => 6,
        Operator::Multiply => 7,
        Operator::Divide => 8,
        Operator::Remainder => 9,
        Operator::Equal => 10,
        Operator::NotEqual => 11,
        Operator::Less => 12,
        Operator::AtMost => 13,
        Operator::Greater => 14,
        Operator::AtLeast => 15,
    }
}

// Puts the cells of an expression after those that are there.
fn put_expr(cells: &mut Vec<u64>, expr: &Expr) -> Result<(), AllocError>
    ensures { OnOk result (cells.new.items ≡ cells.old.items ++ expr_cells (slot_expr_of expr.now)) }
{
    match expr {
        Expr::Number(number) => {
            cells.push(sign_cell(*number))?;
            cells.push(number.unsigned_abs())?;
            Ok(())
        }
        Expr::Slot(slot) => {
            cells.push(3)?;
            cells.push(*slot as u64)?;
            Ok(())
        }
        Expr::Negate(inner) => {
            cells.push(4)?;
            put_expr(cells, inner)
        }
        Expr::Binary(operator, left, right) => {
            cells.push(operator_cell(*operator))?;
            put_expr(cells, left)?;
            put_expr(cells, right)
        }
    }
}

// Puts the cells of expressions, and the end of a list.
fn put_exprs(cells: &mut Vec<u64>, exprs: &[Expr]) -> Result<(), AllocError>
    ensures { OnOk result (cells.new.items ≡ cells.old.items ++ exprs_cells (map slot_expr_of exprs.now)) }
{
    match exprs {
        [] => {
            cells.push(0)?;
            Ok(())
        }
        [first, rest @ ..] => {
            put_expr(cells, first)?;
            put_exprs(cells, rest)
        }
    }
}

// Puts the cells of a reference to a cown.
fn put_ref(cells: &mut Vec<u64>, reference: &CownRef) -> Result<(), AllocError>
    ensures { OnOk result (cells.new.items ≡ cells.old.items ++ ref_cells (cown_ref_of reference.now)) }
{
    match reference {
        CownRef::Held(parameter) => {
            cells.push(1)?;
            cells.push(*parameter as u64)?;
            Ok(())
        }
        CownRef::Single(cown) => {
            cells.push(2)?;
            cells.push(u64::from(*cown))?;
            Ok(())
        }
        CownRef::Member { first, size, index } => {
            cells.push(3)?;
            cells.push(u64::from(*first))?;
            cells.push(u64::from(*size))?;
            put_expr(cells, index)
        }
    }
}

// Puts the cells of references, and the end of a list.
fn put_refs(cells: &mut Vec<u64>, references: &[CownRef]) -> Result<(), AllocError>
    ensures { OnOk result (cells.new.items ≡ cells.old.items ++ refs_cells (map cown_ref_of references.now)) }
{
    match references {
        [] => {
            cells.push(0)?;
            Ok(())
        }
        [first, rest @ ..] => {
            put_ref(cells, first)?;
            put_refs(cells, rest)
        }
    }
}

/// Puts the cells of statements, and their end, after those that are there.
#[cycle(put)]
#[tactic(auto, using(crate::proofs::Followed::cells_before, crate::proofs::Followed::then_size, crate::proofs::Followed::then_positive))]
pub(crate) fn put_stmts(cells: &mut Vec<u64>, stmts: &[Stmt]) -> Result<(), AllocError>
    ensures { OnOk result (cells.new.items ≡ cells.old.items ++ cells_of (code_of stmts.now)) }
{
    match stmts {
        [] => {
            cells.push(0)?;
            Ok(())
        }
        [first, rest @ ..] => {
            put_stmt(cells, first)?;
            put_stmts(cells, rest)
        }
    }
}

// Puts the cells of one statement, without an end.
#[cycle(put)]
fn put_stmt(cells: &mut Vec<u64>, stmt: &Stmt) -> Result<(), AllocError>
    ensures { OnOk result (cells.new.items ≡ cells.old.items ++ stmt_cells stmt.now) }
{
    match stmt {
        Stmt::Assign(slot, expr) => {
            cells.push(1)?;
            cells.push(*slot as u64)?;
            put_expr(cells, expr)
        }
        Stmt::Work(expr) => {
            cells.push(2)?;
            put_expr(cells, expr)
        }
        Stmt::If(condition, first, second) => {
            cells.push(3)?;
            put_expr(cells, condition)?;
            put_stmts(cells, first.as_slice())?;
            put_stmts(cells, second.as_slice())
        }
        Stmt::Repeat(turns, block) => {
            cells.push(4)?;
            put_expr(cells, turns)?;
            put_stmts(cells, block.as_slice())
        }
        Stmt::When(kind, args, refs) => {
            cells.push(5)?;
            cells.push(*kind as u64)?;
            put_exprs(cells, args)?;
            put_refs(cells, refs)
        }
    }
}
