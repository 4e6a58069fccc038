// The test that sets are closed.

ghost use Rattle.std.specs.Prelude.{◌≡◌, ◌<◌, ◌≤◌, ◌||◌, ℕ, IfOk, IsTrue, false, length, replicate};
ghost use Rattle.boc_sharp_footprints.specs.Tables.{IsClosed, IsClosedAt, IsClosedKind, body_leads, is_in};

use crate::following::follow;
use crate::known::known_at_start;
use crate::table::{CownSet, KindSets, SharpFootprints};
use boc_program::body::Body;
use boc_program::limits::MOST_COWNS;
use boc_program::program::Program;
use std::alloc::{AllocError, Global};

/// The most values of an argument for which there are sets.
pub(crate) const MOST_VALUES: usize = 65_536;

/// Returns a mark for each of these cowns: whether a body may lead to it whose argument at this place has this value.
pub(crate) fn led_to(
    alloc: Global,
    table: &SharpFootprints,
    body: &Body,
    place: usize,
    value: usize,
    cowns: usize,
) -> Result<Vec<bool>, AllocError>
    requires value { value < MOST_VALUES }
    requires cowns { cowns ≤ MOST_COWNS }
    ensures { IfOk result (λ marks. (c : ℕ)
        → is_in marks.items c ≡ (is_in (replicate cowns false) c || body_leads table.now body.now place value c)) }
{
    let mut slots = known_at_start(alloc, body.slots, place, value as u32)?;
    let mut marks = vec![in alloc; false; cowns]?;
    follow(table, body.block.as_slice(), &mut slots, &mut marks);
    Ok(marks)
}

// Returns whether a set has all cowns to which a body may lead whose argument at this place has this value.
fn is_closed_at(
    alloc: Global,
    table: &SharpFootprints,
    body: &Body,
    place: usize,
    value: usize,
    set: &CownSet,
) -> Result<bool, AllocError>
    requires { value < MOST_VALUES }
    ensures { IfOk result (λ b. IsTrue b → IsClosedAt table.now body.now place value set.now) }
{
    let cowns = set.many().min(MOST_COWNS);
    let marks = led_to(alloc, table, body, place, value, cowns)?;
    Ok(set.holds_all(&marks))
}

// Returns whether each set of a kind has all cowns to which its body may lead.
fn is_closed_kind(
    alloc: Global,
    table: &SharpFootprints,
    body: &Body,
    kind: &KindSets,
) -> Result<bool, AllocError>
    ensures { IfOk result (λ b. IsTrue b → IsClosedKind table.now body.now kind.now) }
{
    if kind.sets.len() > MOST_VALUES {
        return Ok(false);
    }
    for (value, set) in kind.sets.iter().enumerate() {
        if !is_closed_at(alloc, table, body, kind.place, value, set)? {
            return Ok(false);
        }
    }
    Ok(true)
}

/// Returns whether each set of a table has all cowns to which the body of its kind may lead.
pub(crate) fn is_closed(
    alloc: Global,
    program: &Program,
    table: &SharpFootprints,
) -> Result<bool, AllocError>
    ensures { IfOk result (λ b. IsTrue b → IsClosed program.now table.now) }
{
    let bodies = program.bodies.as_slice();
    for (kind, sets) in table.by_value.iter().enumerate() {
        if let Some(body) = bodies.get(kind)
            && !is_closed_kind(alloc, table, body, sets)?
        {
            return Ok(false);
        }
    }
    Ok(true)
}
