// A table of the cowns that kinds reach.

ghost use Rattle.std.specs.Prelude.{◌≡◌, ◌↔◌, ◌<◌, ℕ, IsTrue, IfOk, length};
ghost use Rattle.std.specs.List.{All, list_any};
ghost use Rattle.boc_footprints.specs.Footprints.{Reaches, IsFootprint};
ghost use Rattle.boc_footprints.specs.Spreading.{is_marked, Leads, IsBelow};
ghost use Rattle.boc_footprints.specs.Tables.{naming as naming_spec, reaches};

use crate::naming::stmts_name;
use crate::spreading::{Spawn, spawns_of, spread};
use boc_program::body::Body;
use boc_program::limits::MOST_COWNS;
use boc_program::program::Program;
use boc_program::short::CownNo;
use std::alloc::{AllocError, Global};
use std::marker::Model;

// Marks of kinds.
#[derive(Drop, Debug)]
pub(crate) struct Kinds {
    marks: Vec<bool>,
}

impl Model for Kinds {
    ghost use Rattle.std.specs.Prelude.{Bool, List};

    ghost Value = { List Bool };

    ghost view = { λ a. a.marks.items };
}

impl Kinds {
    fn new(marks: Vec<bool>) -> Kinds
        ensures { result ≡ marks.items }
    {
        Kinds { marks }
    }

    fn has(&self, kind: usize) -> bool
        ensures { result ≡ is_marked self.now kind }
    {
        self.marks.get(kind).copied().unwrap_or(false)
    }
}

/// The cowns that the `when`s of each kind name, and those of the kinds that it spawns, and so on. Contracts see it as a table,
/// which has for each cown a mark of each kind.
#[derive(Drop, Debug)]
pub struct Footprints {
    cowns: Vec<Kinds>,
}

impl Model for Footprints {
    ghost use Rattle.std.specs.Prelude.{Bool, List};

    ghost Value = { List (List Bool) };

    ghost view = { λ a. a.cowns.items };
}

impl Footprints {
    /// Returns whether a kind reaches a cown.
    pub fn reaches(&self, kind: usize, cown: CownNo) -> bool
        ensures { result ≡ reaches self.now kind cown }
    {
        match self.cowns.get(cown as usize) {
            None => false,
            Some(kinds) => kinds.has(kind),
        }
    }

    /// Returns whether a kind reaches one of these cowns.
    pub fn meets(&self, kind: usize, cowns: &[CownNo]) -> bool
        ensures { result ≡ list_any (reaches self.now kind) cowns.now }
    {
        for cown in cowns {
            if self.reaches(kind, *cown) {
                return true;
            }
        }
        false
    }
}

// Returns a mark of each kind whose body names the cown.
fn naming(alloc: Global, cown: CownNo, bodies: &[Body]) -> Result<Vec<bool>, AllocError>
    ensures { IfOk result (λ marks. marks.items ≡ naming_spec cown bodies.now) }
{
    let mut marks = Vec::new(alloc);
    for body in bodies {
        marks.push(stmts_name(cown, body.block.as_slice()))?;
    }
    Ok(marks)
}

// Returns the kinds that lead to one whose body names the cown.
fn reaching(
    alloc: Global,
    cown: CownNo,
    bodies: &[Body],
    spawns: &[Spawn],
) -> Result<Kinds, AllocError>
    requires { All (IsBelow (length bodies.now)) spawns.now }
    ensures { IfOk result (λ kinds. (kind : ℕ) → (IsTrue (is_marked kinds kind) ↔ Leads spawns.now (naming_spec cown bodies.now) kind)) }
{
    let mut marks = naming(alloc, cown, bodies)?;
    spread(spawns, &mut marks);
    Ok(Kinds::new(marks))
}

/// Returns the cowns that kinds reach: those that the `when`s of their bodies name, and those that the kinds that they spawn reach.
/// So each kind reaches the cowns of whatever its behaviours wish for, except their own.
pub fn footprints_of(alloc: Global, program: &Program) -> Result<Footprints, AllocError>
    ensures exact { IfOk result (λ table. (kind cown : ℕ) → (IsTrue (reaches table kind cown) ↔ Reaches program.now kind cown)) }
    ensures footprint { IfOk result (λ table. IsFootprint program.now (λ kind cown. IsTrue (reaches table kind cown))) }
{
    let bodies = program.bodies.as_slice();
    let spawns = spawns_of(alloc, bodies)?;
    let mut cowns = Vec::new(alloc);
    for cown in 0..MOST_COWNS {
        cowns.push(reaching(alloc, cown as CownNo, bodies, &spawns)?)?;
    }
    Ok(Footprints { cowns })
}
