// The runs that seeds draw.

ghost use Rattle.std.specs.Prelude.{◌≡◌, ◌<◌, ℕ, All, IfOk, length, map, slice_get, Some};
ghost use Rattle.boc_program.specs.declared.limits.TheConstants.{MOST_ROWS};
ghost use Rattle.boc_runs.specs.Records.{IsRecordOf};
ghost use Rattle.boc_runs.specs.Run.{config_of};
ghost use Rattle.boc_eval.specs.declared.instance.Instance.{Instance};
ghost use Rattle.boc_eval.specs.Instances.{AreRight, AreRowsOf};
ghost use Rattle.boc_outcomes.specs.Samples.{IsAsked};
ghost use Rattle.boc_many_runs.specs.Runs.{IsRunDrawn};

use boc_dispatch::{Tell, rows_in_order};
use boc_draws::{DrawFault, Drawn, draw};
use boc_eval::{Instance, ToldRow};
use boc_follow::{StrayFault, StrayFaultKind, follow_record};
use boc_outcomes::Asked;
use boc_progress::Silent;
use boc_registers::compiled::CompiledProgram;
use boc_runs::record::Record;
use boc_runs::rows::Rows;
use std::alloc::{AllocError, Global};

/// A run that was drawn: its rows, and the def of each.
#[derive(Drop)]
pub(crate) struct Run {
    pub rows: Rows,
    pub defs: Vec<u32>,
}

// Returns the def of each of some rows. `AllocError` says that memory was refused.
fn kinds_of(alloc: Global, instances: &[Instance]) -> Result<Vec<u32>, AllocError>
    requires { (row : ℕ) (i : Instance) → slice_get instances.now row ≡ Some i → i.kind < MOST_ROWS }
    ensures { IfOk result (λ kinds. kinds.items ≡ map (λ i. i.kind) instances.now) }
{
    let mut kinds = Vec::with_capacity(alloc, instances.len())?;
    for instance in instances {
        kinds.push(instance.kind as u32)?;
    }
    Ok(kinds)
}

// Returns what each row of a record of a run is. `AllocError` says that memory was refused.
fn followed(
    alloc: Global,
    program: &CompiledProgram<'_>,
    recorded: &Record,
) -> Result<Vec<Instance>, AllocError>
    requires { IsRecordOf program.now recorded.now }
    ensures { IfOk result (λ rows. AreRowsOf (config_of program.now recorded.now.events).members rows.items) }
{
    match follow_record(alloc, program, recorded, &mut Silent) {
        Ok(follower) => follower.instances(alloc),
        Err(StrayFault { kind, .. }) => match kind {
            StrayFaultKind::Memory => Err(AllocError),
            _ => unreachable!(),
        },
    }
}

// Returns what each row of a record of a run is, by what is reported of them. If one is missing there, which no run of all rows leaves out, the run is
// followed once more. `AllocError` says that memory was refused.
fn instances_of(
    alloc: Global,
    program: &CompiledProgram<'_>,
    recorded: &Record,
    told: &[ToldRow],
) -> Result<Vec<Instance>, AllocError>
    requires run { IsRecordOf program.now recorded.now }
    requires told { AreRight (config_of program.now recorded.now.events).members told.now }
    ensures { IfOk result (λ rows. AreRowsOf (config_of program.now recorded.now.events).members rows.items) }
{
    let count = recorded.rows().as_slice().len();
    let found = rows_in_order(alloc, told, count)?;
    match found {
        Some(rows) => Ok(rows),
        None => followed(alloc, program, recorded),
    }
}

// Returns the def of each row of a record of a run. `AllocError` says that memory was refused.
fn defs_of(
    alloc: Global,
    program: &CompiledProgram<'_>,
    recorded: &Record,
    told: &[ToldRow],
) -> Result<Vec<u32>, AllocError>
    requires run { IsRecordOf program.now recorded.now }
    requires told { AreRight (config_of program.now recorded.now.events).members told.now }
    ensures are { IfOk result (λ defs. defs.items ≡ map (λ m. m.behaviour.kind) (config_of program.now recorded.now.events).members) }
    ensures whole { IfOk result (λ defs. length defs.items ≡ length recorded.now.rows) }
    ensures few { IfOk result (λ defs. All (λ d. d < MOST_ROWS) defs.items) }
{
    // For the proof alone, and free: that it has as many rows as the run.
    let _rows = recorded.rows();
    let instances = instances_of(alloc, program, recorded, told)?;
    let kinds = kinds_of(alloc, &instances)?;
    Ok(kinds)
}

/// Returns the run of this number, or why it was not drawn.
pub(crate) fn drawn_run(
    alloc: Global,
    program: &CompiledProgram<'_>,
    asked: &Asked,
    number: u32,
) -> Result<Run, DrawFault>
    requires { IsAsked asked.now }
    ensures run { IsRunDrawn program.now asked.now number result }
    ensures whole { IfOk result (λ run. length run.defs.items ≡ length run.rows) }
    ensures few { IfOk result (λ run. All (λ d. d < MOST_ROWS) run.defs.items) }
{
    let seed = asked.seed_of(number);
    let drawn = draw(
        alloc,
        program,
        asked.workers,
        asked.way,
        seed,
        Tell::All,
        &mut Silent,
    )?;
    let Drawn { record, told, .. } = drawn;
    let defs = defs_of(alloc, program, &record, &told)?;
    let rows = record.into_rows();
    // For the proof alone, and free: that they have the shape of rows.
    let _shape = rows.as_slice();
    Ok(Run { rows, defs })
}
