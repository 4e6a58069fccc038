// From the syntax tree of a text to its program, with every name resolved.

ghost use Rattle.std.specs.Prelude.{◌≡◌, map};
ghost use Rattle.boc_program.specs.declared.limits.TheConstants.{MOST_COWNS};
ghost use Rattle.boc_reader.specs.Shape.{AreSmallDefs, IsWithinLimits};
ghost use Rattle.boc_reader.specs.Names.{PlainProgram, plain_cown, tree_names};
ghost use Rattle.boc_reader.specs.Spells.{plain_body, plain_declared, plain_program};
ghost use Rattle.boc_program.specs.Parts.{MakesProgram};
ghost use Rattle.boc_reader.specs.Views.{def_of, tree_of};
ghost use Rattle.boc_reader.specs.Resolves.{Resolves};
ghost use Rattle.boc_reader.specs.Resolving.{Yields, EndWithin, names_of, declared_of, bodies_behind, program_at, program_in_order};

mod block;
mod body;
mod declare;
mod expr;
pub mod judge;
mod top;

use crate::fault::Unresolved;
use crate::names::body::resolve_body;
use crate::names::declare::{declare_top, names_of_cowns, resolve_cowns};
use crate::names::top::{Top, is_name};
use crate::shape::{DefShape, Tree};
use boc_program::body::Body;
use boc_program::cown::Cown;
use boc_program::lists::{BodyList, CownList};
use boc_program::program::Program;
use std::alloc::Global;

// Returns the bodies of the defs, whose names may not be among those before them.
fn resolve_defs<'a>(
    alloc: Global,
    top: &Top<'a>,
    mut before: Vec<&'a str>,
    defs: &[DefShape<'a>],
) -> Result<Vec<Body>, Unresolved>
    requires small { AreSmallDefs (map def_of defs.now) }
    requires cowns { EndWithin MOST_COWNS (declared_of top.now).cowns }
    ensures { Yields (λ v. map plain_body v.items) result (bodies_behind (declared_of top.now) (names_of before.entry.items) (map def_of defs.now)) }
{
    let mut bodies = Vec::new(alloc);
    for def in defs {
        if is_name(&before, def.name.name) {
            return Err(Unresolved::WrongName);
        }
        let body = resolve_body(alloc, top, &def.params, &def.cowns, &def.block)?;
        bodies.push(body)?;
        before.push(def.name.name)?;
    }
    Ok(bodies)
}

// Returns a program of parts that fit.
fn fitting(cowns: Vec<Cown>, bodies: Vec<Body>) -> Program
    requires { MakesProgram cowns.items bodies.items }
    ensures { let p : PlainProgram = record { cowns = map plain_declared cowns.items; bodies = map plain_body bodies.items } in plain_program result ≡ p }
{
    Program::new(CownList::new(cowns), BodyList::new(bodies))
}

// Returns the bodies of a tree, main's first.
fn resolve_bodies<'a>(
    alloc: Global,
    top: &Top<'a>,
    tree: &Tree<'a>,
) -> Result<Vec<Body>, Unresolved>
    requires limits { IsWithinLimits (tree_of tree.now) }
    requires cowns { EndWithin MOST_COWNS (declared_of top.now).cowns }
    ensures { Yields (λ bodies. let p : PlainProgram = record { cowns = map plain_cown (tree_of tree.now).cowns; bodies = map plain_body bodies.items } in p)
        result (program_at (tree_of tree.now) (declared_of top.now)) }
{
    let before = names_of_cowns(alloc, &top.cowns)?;
    let mut bodies = resolve_defs(alloc, top, before, &tree.defs)?;
    let main = resolve_body(alloc, top, &[], &[], &tree.main)?;
    bodies.insert(0, main)?;
    Ok(bodies)
}

// Returns the cowns and the bodies of a tree, main's body first.
fn resolve_parts(alloc: Global, tree: &Tree<'_>) -> Result<(Vec<Cown>, Vec<Body>), Unresolved>
    requires { IsWithinLimits (tree_of tree.now) }
    ensures { Yields (λ parts. let p : PlainProgram = record { cowns = map plain_declared parts.0.items; bodies = map plain_body parts.1.items } in p) result
        (program_in_order (tree_of tree.now)) }
{
    let top = declare_top(alloc, tree)?;
    let bodies = resolve_bodies(alloc, &top, tree)?;
    let cowns = resolve_cowns(alloc, &tree.cowns)?;
    Ok((cowns, bodies))
}

/// Returns the program of a tree within the limits, where every name is declared once and used as what it is.
/// The names at the top are those of the whole text.
pub fn resolve_program(alloc: Global, tree: &Tree<'_>) -> Result<Program, Unresolved>
    requires { IsWithinLimits (tree_of tree.now) }
    ensures { Resolves result (tree_names (tree_of tree.now)) }
{
    let (cowns, bodies) = resolve_parts(alloc, tree)?;
    Ok(fitting(cowns, bodies))
}
