// The declarations at the top of a text.

ghost use Rattle.std.specs.Prelude.{◌≡◌, ◌≤◌, [], IfOk, map};
ghost use Rattle.std.specs.Option.{option_map};
ghost use Rattle.boc_program.specs.declared.limits.TheConstants.{MOST_COWNS};
ghost use Rattle.boc_program.specs.Sizes.{members};
ghost use Rattle.boc_reader.specs.Shape.{cowns_declared};
ghost use Rattle.boc_reader.specs.Names.{plain_cown, among};
ghost use Rattle.boc_reader.specs.Spells.{plain_declared};
ghost use Rattle.boc_reader.specs.Views.{cown_of, def_of, tree_of};
ghost use Rattle.boc_reader.specs.Resolving.{Yields, EndWithin, global_of, callee_of, declared_of, names_of, cown_names, cowns_behind, defs_behind};
ghost use Rattle.boc_reader.specs.Resolving.{top_in_order};

use crate::fault::Unresolved;
use crate::names::top::{Callee, Global as TopCown, Top, is_cown_name, is_declared};
use crate::shape::{CownShape, DefShape, Tree};
use boc_program::cown::Cown;
use boc_program::text::Name;
use std::alloc::{AllocError, Global};

// Returns the size of an array, if a cown is one.
fn array_size(cown: &CownShape<'_>) -> Option<u32>
    requires { members cown.now.size ≤ MOST_COWNS }
    ensures { result ≡ cown.now.size }
{
    match cown.size {
        None => None,
        Some(size) => Some(size as u32),
    }
}

// Returns how many cowns a declaration makes: one, or as many as the array has members.
fn members(size: Option<u32>) -> u32
    ensures { result ≡ members size }
{
    size.unwrap_or(1)
}

// Returns the cowns, each with the number of its first member. No name may occur twice.
fn declare_cowns<'a>(alloc: Global, cowns: &[CownShape<'a>]) -> Result<Vec<TopCown<'a>>, Unresolved>
    requires { cowns_declared (map cown_of cowns.now) ≤ MOST_COWNS }
    ensures { Yields (λ v. map global_of v.items) result (cowns_behind [] 0 (map cown_of cowns.now)) }
{
    let mut declared = Vec::new(alloc);
    let mut first = 0;
    for cown in cowns {
        if is_cown_name(&declared, cown.name.name) {
            return Err(Unresolved::WrongName);
        }
        let size = array_size(cown);
        declared.push(TopCown {
            name: cown.name.name,
            first,
            size,
        })?;
        first += members(size);
    }
    Ok(declared)
}

// Returns the defs that are the first of their names.
fn declare_defs<'a>(
    alloc: Global,
    cowns: &[TopCown<'a>],
    defs: &[DefShape<'a>],
) -> Result<Vec<Callee<'a>>, AllocError>
    ensures { IfOk result (λ v. map callee_of v.items ≡ defs_behind (map global_of cowns.now) [] (map def_of defs.now)) }
{
    let mut declared = Vec::new(alloc);
    for def in defs {
        if !is_declared(cowns, &declared, def.name.name) {
            declared.push(Callee {
                name: def.name.name,
                args: def.params.len(),
                cowns: def.cowns.len(),
            })?;
        }
    }
    Ok(declared)
}

/// Returns what is declared at the top of the whole text.
pub fn declare_top<'a>(alloc: Global, tree: &Tree<'a>) -> Result<Top<'a>, Unresolved>
    requires { cowns_declared (tree_of tree.now).cowns ≤ MOST_COWNS }
    ensures top { Yields declared_of result (top_in_order (tree_of tree.now)) }
    ensures cowns { IfOk result (λ top. EndWithin MOST_COWNS (declared_of top).cowns) }
{
    let cowns = declare_cowns(alloc, &tree.cowns)?;
    let defs = declare_defs(alloc, &cowns, &tree.defs)?;
    Ok(Top { cowns, defs })
}

/// Returns the names of cowns.
pub fn names_of_cowns<'a>(alloc: Global, cowns: &[TopCown<'a>]) -> Result<Vec<&'a str>, AllocError>
    ensures { IfOk result (λ v. names_of v.items ≡ cown_names (map global_of cowns.now)) }
{
    let mut names = Vec::new(alloc);
    for cown in cowns {
        names.push(cown.name)?;
    }
    Ok(names)
}

// Returns a cown as the program has it.
fn resolve_cown(alloc: Global, cown: &CownShape<'_>) -> Result<Cown, AllocError>
    requires { members cown.now.size ≤ MOST_COWNS }
    ensures { IfOk result (λ made. plain_declared made ≡ plain_cown (cown_of cown.now)) }
{
    Ok(Cown {
        name: Name::new(String::from_str(alloc, cown.name.name)?),
        size: array_size(cown),
        initial: cown.value.signed(cown.negative),
    })
}

/// Returns the cowns as the program has them.
pub fn resolve_cowns(alloc: Global, cowns: &[CownShape<'_>]) -> Result<Vec<Cown>, AllocError>
    requires { cowns_declared (map cown_of cowns.now) ≤ MOST_COWNS }
    ensures { IfOk result (λ v. map plain_declared v.items ≡ map plain_cown (map cown_of cowns.now)) }
{
    let mut all = Vec::new(alloc);
    for cown in cowns {
        let cown = resolve_cown(alloc, cown)?;
        all.push(cown)?;
    }
    Ok(all)
}
