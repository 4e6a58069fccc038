// What the defs and the cowns of a program are called.

ghost use Rattle.std.specs.Prelude.{◌≡◌, [], IfOk, map};
ghost use Rattle.boc_names.specs.Names.{AreNamesOf};

use boc_names::{Names, names_of_run};
use boc_program::program::Program;
use boc_program::text::Name;
use boc_reader::DefListing;
use std::alloc::{AllocError, Global};

// Returns what defs are called.
fn called(alloc: Global, defs: Vec<DefListing>) -> Result<Vec<Name>, AllocError>
    ensures { IfOk result (λ names. names.items ≡ map (λ d. d.name) defs.items) }
{
    let mut names = Vec::new(alloc);
    for def in defs {
        names.push(def.name)?;
    }
    Ok(names)
}

/// Returns the names of a program's defs and cowns, where its text lists these defs. They are those of a run with no rows. `AllocError` says that memory was
/// refused.
pub(crate) fn program_names(
    alloc: Global,
    program: &Program,
    defs: Vec<DefListing>,
) -> Result<Names, AllocError>
    ensures { IfOk result (AreNamesOf program.now (map (λ d. d.name) defs.items) []) }
{
    let defs = called(alloc, defs)?;
    names_of_run(alloc, program, &defs, &[])
}
