// Sharp footprints of a program.

ghost use Rattle.std.specs.Prelude.{◌≡◌, ◌≤◌, ℕ, ℤ, List, IfOk, OnOk, IsTrue};
ghost use Rattle.boc_program.specs.declared.limits.TheConstants.{MOST_COWNS as LIMIT};
ghost use Rattle.boc_footprints.specs.Footprints.{IsFootprint, Reaches};
ghost use Rattle.boc_footprints.specs.Tables.{reaches};
ghost use Rattle.boc_sharp_footprints.specs.Footprints.{IsFootprintByArgs, ReachedBy};
ghost use Rattle.boc_sharp_footprints.specs.Tables.{IsClosed};

use crate::closing::is_closed;
use crate::growing::{all_empty, grow, values_for};
use crate::table::SharpFootprints;
use boc_footprints::footprints_of;
use boc_program::limits::MOST_COWNS;
use boc_program::program::Program;
use boc_runs::values::initial_values;
use std::alloc::{AllocError, Global};

// How often sets are grown, once from the first value on and once from the last.
const ROUNDS: usize = 8;

// Returns how many cowns a program has.
fn cowns_of(alloc: Global, program: &Program) -> Result<usize, AllocError>
    ensures { IfOk result (λ cowns. cowns ≤ LIMIT) }
{
    let values = initial_values(alloc, program.cowns.as_slice())?;
    Ok(values.len().min(MOST_COWNS))
}

// Grows the sets of a table until they are closed. Returns whether they are.
fn close(alloc: Global, program: &Program, table: &mut SharpFootprints) -> Result<bool, AllocError>
    ensures closed { IfOk result (λ b. IsTrue b → IsClosed program.now table.new) }
    ensures by_kind { OnOk result (table.new.by_kind ≡ table.old.by_kind) }
{
    let cowns = cowns_of(alloc, program)?;
    let values = values_for(program.bodies.as_slice(), cowns);
    table.by_value = all_empty(alloc, program.bodies.as_slice(), cowns, values)?;
    for _ in 0..ROUNDS {
        grow(alloc, program, table, cowns, values, true)?;
        grow(alloc, program, table, cowns, values, false)?;
        if is_closed(alloc, program, table)? {
            return Ok(true);
        }
    }
    Ok(false)
}

/// Returns the cowns that behaviours reach: those that the `when`s of their bodies may name, and those that what they spawn reaches.
/// Of one argument of each kind the value is known, and nothing of the values of cowns. No behaviour reaches a cown that its kind does not reach.
pub fn sharp_footprints_of(alloc: Global, program: &Program) -> Result<SharpFootprints, AllocError>
    ensures footprint { IfOk result (λ table. IsFootprintByArgs program.now (ReachedBy table)) }
    ensures within { IfOk result (λ table. (kind : ℕ) (args : List ℤ) (cown : ℕ) → ReachedBy table kind args cown → Reaches program.now kind cown) }
{
    let mut table = SharpFootprints {
        by_kind: footprints_of(alloc, program)?,
        by_value: Vec::new(alloc),
    };
    if close(alloc, program, &mut table)? {
        return Ok(table);
    }
    table.by_value = Vec::new(alloc);
    Ok(table)
}
