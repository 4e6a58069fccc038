// Which cowns the `when`s of a body name, and which kinds they spawn.

ghost use Rattle.std.specs.Prelude.{◌≡◌, ◌+◌, map};
ghost use Rattle.std.specs.List.{list_any};
ghost use Rattle.boc_program.specs.memory.View.{slot_expr_of, cown_ref_of, code_of, before};
ghost use Rattle.boc_program.specs.Syntax.{Done};
ghost use Rattle.boc_footprints.specs.Whens.{may_be as may_be_spec, may_name as may_name_spec, names, spawns};

use boc_program::body::{CownRef, Expr, Stmt};
use boc_program::short::CownNo;

// Returns whether an index may be this number.
fn may_be(number: u32, index: &Expr) -> bool
    ensures { result ≡ may_be_spec number (slot_expr_of index.now) }
{
    match index {
        Expr::Number(other) => *other == i64::from(number),
        Expr::Slot(_) | Expr::Negate(_) | Expr::Binary(..) => true,
    }
}

// Returns whether a reference may be to this cown. A parameter names none.
fn may_name(cown: CownNo, reference: &CownRef) -> bool
    ensures { result ≡ may_name_spec cown (cown_ref_of reference.now) }
{
    match reference {
        CownRef::Held(_) => false,
        CownRef::Single(other) => *other == cown,
        CownRef::Member { first, size, index } => {
            *first <= cown && cown - *first < *size && may_be(cown - *first, index)
        }
    }
}

fn some_name(cown: CownNo, references: &[CownRef]) -> bool
    ensures { result ≡ list_any (may_name_spec cown) (map cown_ref_of references.now) }
{
    match references {
        [] => false,
        [first, rest @ ..] => may_name(cown, first) || some_name(cown, rest),
    }
}

// Returns whether a `when` of these statements may name the cown.
#[cycle(naming)]
#[tactic(auto, using(crate::proofs::Followed::some_before, boc_program::proofs::Followed::then_size, boc_program::proofs::Followed::then_positive))]
pub(crate) fn stmts_name(cown: CownNo, stmts: &[Stmt]) -> bool
    ensures { result ≡ names cown (code_of stmts.now) }
{
    match stmts {
        [] => false,
        [first, rest @ ..] => stmt_names(cown, first) || stmts_name(cown, rest),
    }
}

#[cycle(naming)]
fn stmt_names(cown: CownNo, stmt: &Stmt) -> bool
    ensures { result ≡ names cown (before stmt.now Done) }
{
    match stmt {
        Stmt::Assign(..) | Stmt::Work(_) => false,
        Stmt::If(_, first, second) => {
            stmts_name(cown, first.as_slice()) || stmts_name(cown, second.as_slice())
        }
        Stmt::Repeat(_, block) => stmts_name(cown, block.as_slice()),
        Stmt::When(_, _, references) => some_name(cown, references),
    }
}

// Returns whether a `when` of these statements is of this kind.
#[cycle(spawning)]
#[tactic(auto, using(crate::proofs::Followed::some_before, boc_program::proofs::Followed::then_size, boc_program::proofs::Followed::then_positive))]
pub(crate) fn stmts_spawn(other: usize, stmts: &[Stmt]) -> bool
    ensures { result ≡ spawns other (code_of stmts.now) }
{
    match stmts {
        [] => false,
        [first, rest @ ..] => stmt_spawns(other, first) || stmts_spawn(other, rest),
    }
}

#[cycle(spawning)]
fn stmt_spawns(other: usize, stmt: &Stmt) -> bool
    ensures { result ≡ spawns other (before stmt.now Done) }
{
    match stmt {
        Stmt::Assign(..) | Stmt::Work(_) => false,
        Stmt::If(_, first, second) => {
            stmts_spawn(other, first.as_slice()) || stmts_spawn(other, second.as_slice())
        }
        Stmt::Repeat(_, block) => stmts_spawn(other, block.as_slice()),
        Stmt::When(kind, _, _) => *kind == other,
    }
}
