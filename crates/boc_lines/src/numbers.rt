// The numbers of the statements of a program: each body has a number for its start, and then one for each of its statements.

ghost use Rattle.std.specs.Prelude.{◌≡◌, ◌++◌, ◌+◌, ◌*◌, ◌^◌, ◌<◌, ◌≤◌, length, IfOk};
ghost use Rattle.boc_program.specs.memory.View.{before, code_of};
ghost use Rattle.boc_program.specs.Syntax.{Done, code_size};
ghost use Rattle.boc_lines.specs.Numbers.{starts_from};
ghost use Rattle.boc_lines.specs.Replays.{numbers};

use boc_program::body::{Body, Stmt};
use boc_program::limits::MOST_NODES;
use std::alloc::AllocError;

// The most numbers of a body: that of its start, and those of its statements, each of which is a node.
const MOST_NUMBERS: usize = MOST_NODES + 1;

/// Appends the numbers of the starts of bodies, of which the first has the number `first`, and returns the number after the last statement.
pub(crate) fn put_starts(
    starts: &mut Vec<usize>,
    bodies: &[Body],
    first: usize,
) -> Result<usize, AllocError>
    requires { first + MOST_NUMBERS * length bodies.now < 2 ^ 32 }
    ensures starts { IfOk result (λ end. starts.new.items ≡ starts.old.items ++ starts_from first bodies.now) }
    ensures end { IfOk result (λ end. end ≡ first + numbers bodies.now) }
{
    match bodies {
        [] => Ok(first),
        [body, rest @ ..] => {
            starts.push(first)?;
            put_starts(starts, rest, first + 1 + size_of_body(body))
        }
    }
}

// Returns how many statements a body has.
fn size_of_body(body: &Body) -> usize
    ensures size { result ≡ code_size body.now.block }
    ensures few { result ≤ MOST_NODES }
{
    size_of(body.block.as_slice())
}

/// Returns how many statements there are, with those of their blocks.
#[cycle(size)]
#[tactic(auto, using(boc_program::proofs::Followed::then_size, boc_program::proofs::Followed::then_positive))]
pub(crate) fn size_of(stmts: &[Stmt]) -> usize
    requires { code_size (code_of stmts.now) < 2 ^ 32 }
    ensures { result ≡ code_size (code_of stmts.now) }
{
    match stmts {
        [] => 0,
        [first, rest @ ..] => size_of_one(first) + size_of(rest),
    }
}

/// Returns how many statements a statement is, with those of its blocks.
#[cycle(size)]
pub(crate) fn size_of_one(stmt: &Stmt) -> usize
    requires { code_size (before stmt.now Done) < 2 ^ 32 }
    ensures { result ≡ code_size (before stmt.now Done) }
{
    match stmt {
        Stmt::If(_, block, other) => size_of(block.as_slice()) + size_of(other.as_slice()) + 1,
        Stmt::Repeat(_, block) => size_of(block.as_slice()) + 1,
        Stmt::Assign(_, _) | Stmt::Work(_) | Stmt::When(_, _, _) => 1,
    }
}
