// The first wrong name of a tree whose names can't be resolved.

ghost use Rattle.std.specs.Prelude.{◌≡◌, ◌≤◌, ◌++◌, [], OnOk, map};
ghost use Rattle.boc_program.specs.declared.limits.TheConstants.{MOST_COWNS};
ghost use Rattle.boc_reader.specs.Shape.{cowns_declared};
ghost use Rattle.boc_reader.specs.NameUses.{new_fault, tree_uses};
ghost use Rattle.boc_reader.specs.WrongNames.{verdict};
ghost use Rattle.boc_reader.specs.Judging.{Judges, parameters_verdict, body_verdict, cowns_verdict, defs_verdict};
ghost use Rattle.boc_reader.specs.Views.{block_of, cown_of, def_of, name_of, tree_of};
ghost use Rattle.boc_reader.specs.Resolving.{names_of, declared_of};

mod block;
mod expr;

use crate::fault::{Fault, NameFault, Unresolved};
use crate::names::declare::declare_top;
use crate::names::judge::block::{free_fault, judge_block};
use crate::names::judge::expr::judge_name;
use crate::names::top::{Outside, Top, is_name};
use crate::shape::{CownShape, DefShape, Spot, Stmt, Tree};
use std::alloc::Global;

/// How many names there are up to the end of a part, where they are right. Otherwise the first wrong one comes after this many.
pub type Verdict = Result<usize, Fault<NameFault>>;

// Judges parameters, which it puts into the scope.
fn judge_parameters<'a>(
    top: &Top<'a>,
    scope: &mut Vec<&'a str>,
    params: &[Spot<'a>],
    mut count: usize,
) -> Verdict
    ensures said { Judges result (parameters_verdict (declared_of top.now) (names_of scope.old.items) (map name_of params.now) count) }
    ensures scope { OnOk result (names_of scope.new.items ≡ names_of scope.old.items ++ map name_of params.now) }
{
    for param in params {
        count = judge_name(free_fault(top, scope, param.name), count)?;
        scope.push(param.name)?;
    }
    Ok(count)
}

// Judges a body: its value parameters, its cown parameters, and its block.
fn judge_body<'a>(
    alloc: Global,
    top: &Top<'a>,
    params: &[Spot<'a>],
    held: &[Spot<'a>],
    block: &[Stmt<'a>],
    count: usize,
) -> Verdict
    ensures { Judges result (body_verdict (declared_of top.now) (map name_of params.now) (map name_of held.now) (block_of block.now) count) }
{
    let mut scope = Vec::new(alloc);
    let count = judge_parameters(top, &mut scope, params, count)?;
    let count = judge_parameters(top, &mut scope, held, count)?;
    judge_block(&Outside { top, held }, &mut scope, block, count)
}

// Returns what is wrong with a name that is declared at the top, where these come before it.
fn new_fault(before: &[&str], name: &str) -> Option<NameFault>
    ensures { result ≡ new_fault (names_of before.now) name.now }
{
    if is_name(before, name) {
        Some(NameFault::NameTaken)
    } else {
        None
    }
}

// Judges the names of the cowns, which it appends to those before them.
fn judge_cowns<'a>(before: &mut Vec<&'a str>, cowns: &[CownShape<'a>], mut count: usize) -> Verdict
    ensures said { Judges result (cowns_verdict (names_of before.old.items) (map (λ c. c.name) (map cown_of cowns.now)) count) }
    ensures before { OnOk result (names_of before.new.items ≡ names_of before.old.items ++ map (λ c. c.name) (map cown_of cowns.now)) }
{
    for cown in cowns {
        count = judge_name(new_fault(before, cown.name.name), count)?;
        before.push(cown.name.name)?;
    }
    Ok(count)
}

// Judges the names of the defs, each with those of its body.
fn judge_defs<'a>(
    alloc: Global,
    top: &Top<'a>,
    mut before: Vec<&'a str>,
    defs: &[DefShape<'a>],
    mut count: usize,
) -> Verdict
    ensures { Judges result (defs_verdict (declared_of top.now) (names_of before.entry.items) (map def_of defs.now) count) }
{
    for def in defs {
        count = judge_name(new_fault(&before, def.name.name), count)?;
        count = judge_body(alloc, top, &def.params, &def.cowns, &def.block, count)?;
        before.push(def.name.name)?;
    }
    Ok(count)
}

/// Returns the verdict on the names of a tree, in the order of the text.
pub fn judge_tree(alloc: Global, tree: &Tree<'_>) -> Verdict
    requires { cowns_declared (tree_of tree.now).cowns ≤ MOST_COWNS }
    ensures { Judges result (verdict 0 (tree_uses (tree_of tree.now))) }
{
    let mut before = Vec::new(alloc);
    let count = judge_cowns(&mut before, &tree.cowns, 0)?;
    let top = match declare_top(alloc, tree) {
        Ok(top) => top,
        Err(Unresolved::Memory) => return Err(Fault::Memory),
        Err(Unresolved::WrongName) => unreachable!(),
    };
    let count = judge_defs(alloc, &top, before, &tree.defs, count)?;
    judge_body(alloc, &top, &[], &[], &tree.main, count)
}
