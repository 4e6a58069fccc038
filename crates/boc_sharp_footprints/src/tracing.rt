// The argument of each kind on which the cowns that it requests most depend. No contract says which it is: any would do.

use boc_program::body::{Body, CownRef, Expr, Stmt};
use std::alloc::{AllocError, Global};

// How often the bodies are gone through.
const ROUNDS: usize = 20;

// Marks a slot, if it is there.
fn mark(marks: &mut [bool], slot: usize) {
    if let Some(old) = marks.get_mut(slot) {
        *old = true;
    }
}

// Returns whether a slot is there, and has a mark.
fn is_marked(marks: &[bool], slot: usize) -> bool {
    marks.get(slot).copied().unwrap_or(false)
}

// Marks the slots of an expression.
fn mark_slots(expr: &Expr, marks: &mut [bool]) {
    match expr {
        Expr::Number(_) => {}
        Expr::Slot(slot) => mark(marks, *slot),
        Expr::Negate(inner) => mark_slots(inner, marks),
        Expr::Binary(_, left, right) => {
            mark_slots(left, marks);
            mark_slots(right, marks);
        }
    }
}

// Marks the slots of the indexes of references.
fn mark_indexes(references: &[CownRef], marks: &mut [bool]) {
    for reference in references {
        if let CownRef::Member { index, .. } = reference {
            mark_slots(index, marks);
        }
    }
}

// Marks the slots of the chosen argument of the kind that a `when` spawns.
fn mark_argument(places: &[Option<usize>], kind: usize, args: &[Expr], marks: &mut [bool]) {
    if let Some(Some(place)) = places.get(kind)
        && let Some(arg) = args.get(*place)
    {
        mark_slots(arg, marks);
    }
}

// Marks the slots on which it depends for which cowns these statements ask.
#[cycle(tracing)]
fn trace(places: &[Option<usize>], stmts: &[Stmt], marks: &mut [bool]) {
    match stmts {
        [] => {}
        [first, rest @ ..] => {
            trace(places, rest, marks);
            trace_one(places, first, marks);
        }
    }
}

#[cycle(tracing)]
fn trace_one(places: &[Option<usize>], stmt: &Stmt, marks: &mut [bool]) {
    match stmt {
        Stmt::Assign(slot, expr) => {
            if is_marked(marks, *slot) {
                mark_slots(expr, marks);
            }
        }
        Stmt::Work(_) => {}
        Stmt::If(_, first, second) => {
            trace(places, first.as_slice(), marks);
            trace(places, second.as_slice(), marks);
        }
        Stmt::Repeat(_, block) => trace(places, block.as_slice(), marks),
        Stmt::When(kind, args, references) => {
            mark_indexes(references, marks);
            mark_argument(places, *kind, args, marks);
        }
    }
}

// Returns the first of these slots that has a mark.
fn first_marked(marks: &[bool], many: usize) -> Option<usize> {
    for slot in 0..many {
        if is_marked(marks, slot) {
            return Some(slot);
        }
    }
    None
}

// Returns the argument of a body on which its cowns most depend, where these are those of the others.
fn place_in(
    alloc: Global,
    places: &[Option<usize>],
    body: &Body,
) -> Result<Option<usize>, AllocError> {
    let mut marks = vec![in alloc; false; body.slots]?;
    trace(places, body.block.as_slice(), &mut marks);
    Ok(first_marked(&marks, body.params))
}

// Sets the argument of a kind, and returns whether it was another.
fn set_place(places: &mut [Option<usize>], kind: usize, place: Option<usize>) -> bool {
    match places.get_mut(kind) {
        None => false,
        Some(old) => {
            let other = *old != place;
            *old = place;
            other
        }
    }
}

// Finds the arguments once more, and returns whether one is another.
fn trace_round(
    alloc: Global,
    bodies: &[Body],
    places: &mut [Option<usize>],
) -> Result<bool, AllocError> {
    let mut others = false;
    for (kind, body) in bodies.iter().enumerate() {
        let place = place_in(alloc, places, body)?;
        others |= set_place(places, kind, place);
    }
    Ok(others)
}

/// Returns for each kind the place of the argument on which the cowns that its bodies request most depend, if there is one.
pub(crate) fn places_of(alloc: Global, bodies: &[Body]) -> Result<Vec<Option<usize>>, AllocError> {
    let mut places = vec![in alloc; None; bodies.len()]?;
    for _ in 0..ROUNDS {
        if !trace_round(alloc, bodies, &mut places)? {
            break;
        }
    }
    Ok(places)
}
