// A block with its cells next to it.

ghost use Rattle.std.specs.Prelude.{◌≡◌, ◌↔◌, IsTrue, IfOk};

use crate::body::{Block, Stmt};
use crate::cells::put_stmts;
use std::alloc::{AllocError, Global};
use std::marker::Model;

/// A block, and next to it what it says as a flat list of cells, by which two are compared.
#[derive(Drop, Debug)]
pub struct Script {
    block: Block,
    cells: Vec<u64>,
}

impl Model for Script {
    ghost use Rattle.std.specs.Prelude.{◌≡◌};
    ghost use Rattle.boc_program.specs.Syntax.{Code};
    ghost use Rattle.boc_program.specs.memory.Stored.{coded_Code};
    ghost use Rattle.boc_program.specs.memory.Cells.{cells_of};

    ghost Value = { Code };

    ghost coded = { coded_Code };

    ghost view = { λ a. a.block };

    ghost invariant = { λ a. a.cells.items ≡ cells_of a.block };
}

impl Script {
    ghost use Rattle.boc_program.specs.memory.View.{code_of};

    /// Returns this block, with its cells.
    pub(crate) fn new(alloc: Global, block: Block) -> Result<Script, AllocError>
        ensures { IfOk result (λ script. script ≡ block) }
    {
        let mut cells = Vec::new(alloc);
        put_stmts(&mut cells, block.as_slice())?;
        Ok(Script { block, cells })
    }

    /// Returns the statements.
    pub fn as_slice(&self) -> &[Stmt]
        ensures { code_of result.now ≡ self.now }
    {
        self.block.as_slice()
    }

    /// Returns whether the blocks are the same.
    #[tactic(auto, using(crate::proofs::CellsLaw::same_code))]
    pub(crate) fn same(&self, other: &Script) -> bool
        ensures { IsTrue result ↔ (self.now ≡ other.now) }
    {
        same_cells(&self.cells, &other.cells)
    }
}

// Returns whether the cells are the same. It looks at each of them, also after one that differs: the loop has no early end, so
// that a machine can take several cells at once.
fn same_cells(a: &[u64], b: &[u64]) -> bool
    ensures { IsTrue result ↔ (a.now ≡ b.now) }
{
    if a.len() != b.len() {
        return false;
    }
    let mut same = true;
    for i in 0..a.len() {
        same &= a[i] == b[i];
    }
    same
}
