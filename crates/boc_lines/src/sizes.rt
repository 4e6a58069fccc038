// How many statements the blocks of each statement have, found once: so a block that is passed over costs no more than one of a single statement.

ghost use Rattle.std.specs.Prelude.{◌≡◌, ◌∷◌, ◌+◌, ◌++◌, ◌^◌, ◌<◌, ℕ, OnOk};
ghost use Rattle.boc_program.specs.Syntax.{Done, code_size};
ghost use Rattle.boc_program.specs.memory.View.{before, code_of};
ghost use Rattle.boc_lines.specs.Replays.{numbers};
ghost use Rattle.boc_lines.specs.Sizes.{AreSized, IsSized, sizes_of, sizes_of_bodies};

use crate::numbers::size_of;
use boc_program::body::{Block, Body, Stmt};
use std::alloc::AllocError;

/// How many statements the blocks of a statement have: both of an `if`, and the one of a `repeat`.
#[derive(Clone, Copy)]
pub(crate) struct BlockSizes {
    pub(crate) first: u32,
    pub(crate) second: u32,
}

// What has no blocks.
const NO_BLOCKS: BlockSizes = BlockSizes {
    first: 0,
    second: 0,
};

// Returns the sizes of the blocks of the statement with this number.
fn sizes_at(sizes: &[BlockSizes], k: usize) -> BlockSizes
    ensures { (first second : ℕ) → IsSized sizes.now k first second → (result.first ≡ first) × (result.second ≡ second) }
{
    match sizes.get(k) {
        Some(own) => *own,
        None => NO_BLOCKS,
    }
}

/// Returns how many statements a statement is that has this number, with those of its blocks.
pub(crate) fn size_at(sizes: &[BlockSizes], stmt: &Stmt, k: usize) -> usize
    requires { AreSized sizes.now (before stmt.now Done) k }
    ensures { result ≡ code_size (before stmt.now Done) }
{
    let own = sizes_at(sizes, k);
    own.first as usize + own.second as usize + 1
}

/// Returns how many statements the first block of an `if` has that has this number.
pub(crate) fn first_size(sizes: &[BlockSizes], block: &Block, other: &Block, k: usize) -> usize
    requires { IsSized sizes.now k (code_size block.now) (code_size other.now) }
    ensures { result ≡ code_size block.now }
{
    sizes_at(sizes, k).first as usize
}

// Appends the sizes of the blocks of a statement, and of those in its blocks.
#[cycle(put)]
fn put_one(sizes: &mut Vec<BlockSizes>, stmt: &Stmt) -> Result<(), AllocError>
    requires { code_size (before stmt.now Done) < 2 ^ 32 }
    ensures { OnOk result (sizes.new.items ≡ sizes.old.items ++ sizes_of (before stmt.now Done)) }
{
    match stmt {
        Stmt::If(_, block, other) => put_either(sizes, block, other),
        Stmt::Repeat(_, block) => put_repeated(sizes, block),
        Stmt::Assign(_, _) | Stmt::Work(_) | Stmt::When(_, _, _) => {
            sizes.push(NO_BLOCKS)?;
            Ok(())
        }
    }
}

// Appends those of an `if`.
#[cycle(put)]
fn put_either(sizes: &mut Vec<BlockSizes>, block: &Block, other: &Block) -> Result<(), AllocError>
    requires { code_size block.now + code_size other.now + 1 < 2 ^ 32 }
    ensures { OnOk result (sizes.new.items ≡ sizes.old.items
        ++ ((record { first = code_size block.now; second = code_size other.now }) ∷ (sizes_of block.now ++ sizes_of other.now))) }
{
    sizes.push(BlockSizes {
        first: size_of(block.as_slice()) as u32,
        second: size_of(other.as_slice()) as u32,
    })?;
    put_all(sizes, block.as_slice())?;
    put_all(sizes, other.as_slice())
}

// Appends those of a `repeat`.
#[cycle(put)]
fn put_repeated(sizes: &mut Vec<BlockSizes>, block: &Block) -> Result<(), AllocError>
    requires { code_size block.now + 1 < 2 ^ 32 }
    ensures { OnOk result (sizes.new.items ≡ sizes.old.items ++ ((record { first = code_size block.now; second = 0 }) ∷ sizes_of block.now)) }
{
    sizes.push(BlockSizes {
        first: size_of(block.as_slice()) as u32,
        second: 0,
    })?;
    put_all(sizes, block.as_slice())
}

// Appends those of statements, one after another.
#[cycle(put)]
#[tactic(auto, using(boc_program::proofs::Followed::then_size, boc_program::proofs::Followed::then_positive))]
fn put_all(sizes: &mut Vec<BlockSizes>, stmts: &[Stmt]) -> Result<(), AllocError>
    requires { code_size (code_of stmts.now) < 2 ^ 32 }
    ensures { OnOk result (sizes.new.items ≡ sizes.old.items ++ sizes_of (code_of stmts.now)) }
{
    match stmts {
        [] => Ok(()),
        [first, rest @ ..] => {
            put_one(sizes, first)?;
            put_all(sizes, rest)
        }
    }
}

/// Appends the sizes of the blocks in bodies, each with one for its start.
pub(crate) fn put_sizes(sizes: &mut Vec<BlockSizes>, bodies: &[Body]) -> Result<(), AllocError>
    requires { numbers bodies.now < 2 ^ 32 }
    ensures { OnOk result (sizes.new.items ≡ sizes.old.items ++ sizes_of_bodies bodies.now) }
{
    match bodies {
        [] => Ok(()),
        [body, rest @ ..] => {
            sizes.push(NO_BLOCKS)?;
            put_all(sizes, body.block.as_slice())?;
            put_sizes(sizes, rest)
        }
    }
}
