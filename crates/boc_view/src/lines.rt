// The ticks of the lines of a program, as a page shows them.

ghost use Rattle.std.specs.Prelude.{◌≡◌, IfOk, map};
ghost use Rattle.boc_view.specs.Lines.{AreLinesIn, AreLinesShown, shown_line};

use boc_lines::ticks_by_line;
use boc_page::LineTicks;
use boc_plans::chain::ChainStep;
use boc_program::program::Program;
use boc_reader::{ReadFaultKind, read_program};
use boc_runs::rows::Rows;
use std::alloc::{AllocError, Global};

/// Returns the ticks of the lines of the program that a text spells, for lines that take some, in a run that has these rows and this chain. There are none if
/// the text spells no program, or if the rows are of no run of it. `AllocError` says that memory was refused.
pub(crate) fn lines_of(
    alloc: Global,
    text: &[u8],
    rows: &Rows,
    chain: &[ChainStep],
) -> Result<Vec<LineTicks>, AllocError>
    ensures { IfOk result (λ lines. AreLinesShown text.now rows.now chain.now lines.items) }
{
    let program = match read_program(alloc, text) {
        Ok(program) => program,
        Err(fault) => {
            return match fault.kind {
                ReadFaultKind::Memory => Err(AllocError),
                _ => Ok(Vec::new(alloc)),
            };
        }
    };
    lines_in(alloc, text, &program, rows, chain)
}

// Returns those of this program.
fn lines_in(
    alloc: Global,
    text: &[u8],
    program: &Program,
    rows: &Rows,
    chain: &[ChainStep],
) -> Result<Vec<LineTicks>, AllocError>
    ensures { IfOk result (λ lines. AreLinesIn program.now rows.now chain.now lines.items) }
{
    match ticks_by_line(alloc, text, program, rows, chain)? {
        Some(found) => shown(alloc, &found),
        None => Ok(Vec::new(alloc)),
    }
}

// Returns lines as a page has them.
fn shown(alloc: Global, found: &[boc_lines::LineTicks]) -> Result<Vec<LineTicks>, AllocError>
    ensures { IfOk result (λ lines. lines.items ≡ map shown_line found.now) }
{
    let mut lines = Vec::with_capacity(alloc, found.len())?;
    for own in found {
        lines.push(LineTicks {
            line: own.line,
            ticks: own.ticks,
            chain: own.chain,
        })?;
    }
    Ok(lines)
}
