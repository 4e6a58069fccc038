// The names of a run.

ghost use Rattle.std.specs.Prelude.{◌≡◌, ◌∷◌, ◌++◌, ◌^◌, ◌<◌, ℕ, List, Some, codes, map, slice_get, IfOk, OnOk};
ghost use Rattle.boc_runs.specs.Run.{Member};
ghost use Rattle.boc_eval.specs.Instances.{AreKnown, AreRowsOf};
ghost use Rattle.boc_names.specs.Names.{AreNamesOf, AreNumbers, instance_text, numbered_from, numbers_from, texts_of};

use crate::behaviours::behaviour_text;
use crate::held::CownNames;
use crate::texts::{copied, family_names, family_numbers, numbered};
use boc_eval::Instance;
use boc_program::program::Program;
use boc_program::text::Name;
use std::alloc::{AllocError, Global};

/// What the rows and the cowns of a run are called.
#[derive(Drop, Debug)]
pub struct Names {
    /// For each row the number of its def.
    pub defs: Vec<u32>,
    /// The names of the defs.
    pub def_names: Vec<Vec<u8>>,
    /// What each row is called.
    pub rows: Vec<Vec<u8>>,
    /// What each cown is called.
    pub cowns: Vec<Vec<u8>>,
    /// For each cown the number of the family that it belongs to: those of one array are one.
    pub families: Vec<u32>,
    /// What the families are called.
    pub family_names: Vec<Vec<u8>>,
}

// Appends the names of defs to others.
fn put_names(alloc: Global, names: &mut Vec<Vec<u8>>, defs: &[Name]) -> Result<(), AllocError>
    ensures { OnOk result (texts_of names.new.items ≡ texts_of names.old.items ++ defs.now) }
{
    match defs {
        [] => Ok(()),
        [first, others @ ..] => {
            names.push(copied(alloc, first.as_str().as_bytes())?)?;
            put_names(alloc, names, others)
        }
    }
}

/// Returns main's name, and those of the defs, which are given in the order of the text. `AllocError` says that memory was refused.
pub fn def_names(alloc: Global, defs: &[Name]) -> Result<Vec<Vec<u8>>, AllocError>
    ensures { IfOk result (λ names. texts_of names.items ≡ codes "main" ∷ defs.now) }
{
    let mut names = Vec::new(alloc);
    names.push(copied(alloc, b"main")?)?;
    put_names(alloc, &mut names, defs)?;
    Ok(names)
}

// Returns for each of some rows the number of its def, and what it is called.
fn row_names(
    alloc: Global,
    instances: &[Instance],
    defs: &[Vec<u8>],
    cowns: &CownNames,
) -> Result<(Vec<u32>, Vec<Vec<u8>>), AllocError>
    requires { (row : ℕ) (i : Instance) → slice_get instances.now row ≡ Some i → i.kind < 2 ^ 32 }
    ensures kinds { IfOk result (λ found. found.0.items ≡ map (λ i. i.kind) instances.now) }
    ensures rows { IfOk result (λ found. texts_of found.1.items ≡ map (instance_text (texts_of defs.now) cowns.now) instances.now) }
{
    let mut kinds = Vec::with_capacity(alloc, instances.len())?;
    let mut rows = Vec::with_capacity(alloc, instances.len())?;
    for row in 0..instances.len() {
        let instance = &instances[row];
        kinds.push(instance.kind as u32)?;
        let text = behaviour_text(alloc, defs, cowns, instance)?;
        rows.push(text)?;
    }
    Ok((kinds, rows))
}

/// Returns the names of the rows of a run of a program, which are these, and of its cowns. The names of the program's defs are given in the order of the text.
/// `AllocError` says that memory was refused.
pub fn names_of_run(
    alloc: Global,
    program: &Program,
    defs: &[Name],
    instances: &[Instance],
) -> Result<Names, AllocError>
    requires { AreKnown program.now instances.now }
    ensures { IfOk result (λ names. (run : List Member) → AreRowsOf run instances.now → AreNamesOf program.now defs.now run names) }
{
    let declared = program.cowns.as_slice();
    let def_names = def_names(alloc, defs)?;
    let cowns = CownNames::of(alloc, declared)?;
    let (defs, rows) = row_names(alloc, instances, &def_names, &cowns)?;
    Ok(Names {
        defs,
        def_names,
        rows,
        cowns: cowns.into_names(),
        families: family_numbers(alloc, declared)?,
        family_names: family_names(alloc, declared)?,
    })
}

// Returns a word with the number of each of `count` things.
fn all_numbered(alloc: Global, word: &str, count: u32) -> Result<Vec<Vec<u8>>, AllocError>
    ensures { IfOk result (λ names. texts_of names.items ≡ numbered_from word.now 0 count) }
{
    let mut names = Vec::with_capacity(alloc, count as usize)?;
    for number in 0..count {
        names.push(numbered(alloc, word, u64::from(number))?)?;
    }
    Ok(names)
}

// Returns the numbers of `count` things.
fn all_numbers(alloc: Global, count: u32) -> Result<Vec<u32>, AllocError>
    ensures { IfOk result (λ numbers. numbers.items ≡ numbers_from 0 count) }
{
    let mut numbers = Vec::with_capacity(alloc, count as usize)?;
    for number in 0..count {
        numbers.push(number)?;
    }
    Ok(numbers)
}

/// Returns the names of `rows` rows and `cowns` cowns by their numbers, each row a def for itself, and each cown a family. `AllocError` says that memory was
/// refused.
pub fn numbers_as_names(alloc: Global, rows: u32, cowns: u32) -> Result<Names, AllocError>
    ensures { IfOk result (AreNumbers rows cowns) }
{
    Ok(Names {
        defs: all_numbers(alloc, rows)?,
        def_names: all_numbered(alloc, "row ", rows)?,
        rows: all_numbered(alloc, "row ", rows)?,
        cowns: all_numbered(alloc, "cown ", cowns)?,
        families: all_numbers(alloc, cowns)?,
        family_names: all_numbered(alloc, "cown ", cowns)?,
    })
}
