// The kinds that lead to marked ones.

ghost use Rattle.std.specs.Prelude.{◌≡◌, ◌+◌, ◌++◌, ◌<◌, ◌≤◌, ◌↔◌, ℕ, IsTrue, IfOk, OnOk, length};
ghost use Rattle.std.specs.List.{All};
ghost use Rattle.boc_program.specs.memory.View.{code_of};
ghost use Rattle.boc_footprints.specs.Spreading.{is_marked, after_spawn, after_spawns, marked, Leads, IsBelow, spawned_below, spawned_by};

use crate::naming::stmts_spawn;
use boc_program::body::{Body, Stmt};
use std::alloc::{AllocError, Global};

// A kind, and another that a `when` of its body spawns.
#[derive(Clone, Copy, Debug)]
pub(crate) struct Spawn {
    pub kind: usize,
    pub other: usize,
}

// Adds the kinds below a number that these statements of a kind spawn.
fn add_spawns(
    all: &mut Vec<Spawn>,
    kind: usize,
    stmts: &[Stmt],
    kinds: usize,
) -> Result<(), AllocError>
    ensures { OnOk result (all.new.items ≡ all.old.items ++ spawned_below kind (code_of stmts.now) kinds) }
{
    for other in 0..kinds {
        if stmts_spawn(other, stmts) {
            all.push(Spawn { kind, other })?;
        }
    }
    Ok(())
}

// Returns which kinds bodies spawn.
pub(crate) fn spawns_of(alloc: Global, bodies: &[Body]) -> Result<Vec<Spawn>, AllocError>
    ensures { IfOk result (λ all. all.items ≡ spawned_by (length bodies.now) 0 bodies.now) }
{
    let mut all = Vec::new(alloc);
    for (kind, body) in bodies.iter().enumerate() {
        add_spawns(&mut all, kind, body.block.as_slice(), bodies.len())?;
    }
    Ok(all)
}

fn count(marks: &[bool]) -> usize
    ensures { result ≡ marked marks.now }
{
    marks.iter().filter(|mark| **mark).count()
}

// Marks a kind if it spawns a marked one.
fn spread_one(spawn: Spawn, marks: &mut [bool])
    requires { IsBelow (length marks.old) spawn }
    ensures { marks.new ≡ after_spawn marks.old spawn }
{
    if marks[spawn.other] {
        marks[spawn.kind] = true;
    }
}

fn spread_round(all: &[Spawn], marks: &mut [bool])
    requires { All (IsBelow (length marks.old)) all.now }
    ensures { marks.new ≡ after_spawns marks.old all.now }
{
    for spawn in all {
        spread_one(*spawn, marks);
    }
}

// Marks the kinds that lead to marked ones.
pub(crate) fn spread(all: &[Spawn], marks: &mut [bool])
    requires { All (IsBelow (length marks.old)) all.now }
    ensures { (kind : ℕ) → (IsTrue (is_marked marks.new kind) ↔ Leads all.now marks.old kind) }
{
    'rounds: loop {
        let many = count(marks);
        spread_round(all, marks);
        if count(marks) == many {
            return;
        }
    }
}
