// Sets that grow until they are closed. No contract says what is in them: that they are closed is tested afterwards.

ghost use Rattle.std.specs.Prelude.{◌≡◌, ◌≤◌, ◌<◌, OnOk};
ghost use Rattle.boc_program.specs.declared.limits.TheConstants.{MOST_COWNS};

use crate::closing::{MOST_VALUES, led_to};
use crate::table::{CownSet, KindSets, SharpFootprints};
use crate::tracing::places_of;
use boc_program::body::{Body, Stmt};
use boc_program::limits::MOST_COWNS;
use boc_program::program::Program;
use std::alloc::{AllocError, Global};

// How many `when`s a round may look at.
const MOST_ASKED: usize = 50_000;

// Adds the marked cowns to a set.
fn add(set: &mut [bool], marks: &[bool]) {
    for (cown, mark) in marks.iter().enumerate() {
        if *mark && let Some(old) = set.get_mut(cown) {
            *old = true;
        }
    }
}

// Adds the marked cowns to the set of a value.
fn add_at(kinds: &mut [KindSets], kind: usize, value: usize, marks: &[bool]) {
    if let Some(sets) = kinds.get_mut(kind)
        && let Some(set) = sets.sets.get_mut(value)
    {
        add(&mut set.marks, marks);
    }
}

// Adds to the set of a value the cowns to which the body may lead.
fn grow_at(
    alloc: Global,
    table: &mut SharpFootprints,
    body: &Body,
    cowns: usize,
    kind: usize,
    value: usize,
) -> Result<(), AllocError>
    requires value { value < MOST_VALUES }
    requires cowns { cowns ≤ MOST_COWNS }
    ensures { OnOk result (table.new.by_kind ≡ table.old.by_kind) }
{
    let place = table.place(kind);
    let marks = led_to(alloc, table, body, place, value, cowns)?;
    add_at(&mut table.by_value, kind, value, &marks);
    Ok(())
}

// Grows the sets of a kind, from its first value on or from its last value on.
fn grow_kind(
    alloc: Global,
    table: &mut SharpFootprints,
    body: &Body,
    cowns: usize,
    kind: usize,
    values: usize,
    rising: bool,
) -> Result<(), AllocError>
    requires values { values ≤ MOST_VALUES }
    requires cowns { cowns ≤ MOST_COWNS }
    ensures { OnOk result (table.new.by_kind ≡ table.old.by_kind) }
{
    for step in 0..values {
        let value = if rising { step } else { values - 1 - step };
        grow_at(alloc, table, body, cowns, kind, value)?;
    }
    Ok(())
}

/// Grows the sets of all kinds, from their first values on or from their last values on.
pub(crate) fn grow(
    alloc: Global,
    program: &Program,
    table: &mut SharpFootprints,
    cowns: usize,
    values: usize,
    rising: bool,
) -> Result<(), AllocError>
    requires values { values ≤ MOST_VALUES }
    requires cowns { cowns ≤ MOST_COWNS }
    ensures { OnOk result (table.new.by_kind ≡ table.old.by_kind) }
{
    for (kind, body) in program.bodies.as_slice().iter().enumerate() {
        if table.has_sets(kind) {
            grow_kind(alloc, table, body, cowns, kind, values, rising)?;
        }
    }
    Ok(())
}

// Returns how many `when`s statements have, up to a number.
#[cycle(counting)]
fn whens(stmts: &[Stmt]) -> usize {
    match stmts {
        [] => 0,
        [first, rest @ ..] => whens_of(first).saturating_add(whens(rest)),
    }
}

#[cycle(counting)]
fn whens_of(stmt: &Stmt) -> usize {
    match stmt {
        Stmt::Assign(..) | Stmt::Work(_) => 0,
        Stmt::If(_, first, second) => whens(first.as_slice()).saturating_add(whens(
            second.as_slice(),
        )),
        Stmt::Repeat(_, block) => whens(block.as_slice()),
        Stmt::When(..) => 1,
    }
}

// Returns the number of `when`s of these bodies.
fn whens_in(bodies: &[Body]) -> usize {
    let mut many: usize = 0;
    for body in bodies {
        many = many.saturating_add(whens(body.block.as_slice()));
    }
    many
}

/// Returns for how many values of an argument there are sets: for twice as many as there are cowns, if a round then isn't too long.
pub(crate) fn values_for(bodies: &[Body], cowns: usize) -> usize
    requires { cowns ≤ MOST_COWNS }
    ensures { result ≤ MOST_VALUES }
{
    (MOST_ASKED / whens_in(bodies).max(1)).min(2 * cowns)
}

// Returns an empty set of cowns for each value of an argument, if there is one.
fn empty_sets(
    alloc: Global,
    place: Option<usize>,
    cowns: usize,
    values: usize,
) -> Result<KindSets, AllocError> {
    let mut sets = Vec::new(alloc);
    let Some(place) = place else {
        return Ok(KindSets { place: 0, sets });
    };
    for _ in 0..values {
        sets.push(CownSet {
            marks: vec![in alloc; false; cowns]?,
        })?;
    }
    Ok(KindSets { place, sets })
}

/// Returns an empty set of cowns for each value of the argument of each kind that has one.
pub(crate) fn all_empty(
    alloc: Global,
    bodies: &[Body],
    cowns: usize,
    values: usize,
) -> Result<Vec<KindSets>, AllocError> {
    let mut all = Vec::new(alloc);
    for place in &places_of(alloc, bodies)? {
        all.push(empty_sets(alloc, *place, cowns, values)?)?;
    }
    Ok(all)
}
