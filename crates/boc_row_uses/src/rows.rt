// The uses of all rows.

ghost use Rattle.std.specs.Prelude.{◌≡◌, ◌++◌, length, map, IfOk, OnOk};
ghost use Rattle.boc_program.specs.Programs.{cown_count};
ghost use Rattle.boc_runs.specs.Records.{IsRecordOf};
ghost use Rattle.boc_runs.specs.Run.{config_of};
ghost use Rattle.boc_eval.specs.Instances.{AreRowsOf, behaviour_in};
ghost use Rattle.boc_eval.specs.Queue.{QueueFits};
ghost use Rattle.boc_turns.specs.Turns.{AreUses};
ghost use Rattle.boc_row_uses.specs.RowUses.{row_uses};
ghost use Rattle.boc_row_uses.specs.InTurn.{uses_in_turn};

use crate::turn::take_turn;
use boc_eval::{Instance, Spare};
use boc_program::program::Program;
use boc_registers::compiled::CompiledProgram;
use boc_runs::record::Record;
use boc_runs::values::initial_values;
use boc_uses::Use;
use std::alloc::{AllocError, Global};

// Runs behaviours one after another from these values on, each at once, and puts their uses of their cowns after the others.
fn take_turns<'a>(
    alloc: Global,
    program: &'a CompiledProgram<'a>,
    rows: &[Instance],
    values: &mut [i64],
    uses: &mut Vec<Option<Use>>,
) -> Result<(), AllocError>
    requires fit { QueueFits program.now (map behaviour_in rows.now) }
    requires values { length values.old ≡ cown_count program.now.cowns }
    ensures { OnOk result (uses.new.items ≡ uses.old.items ++ uses_in_turn program.now values.old (map behaviour_in rows.now)) }
{
    let mut spare = Spare::default();
    for row in rows {
        take_turn(alloc, &mut spare, program, row, values, uses)?;
    }
    Ok(())
}

/// Returns for each cown of each row of a run whether and how the row uses it, in the order of the rows and of their cowns. The record is that of a run of the
/// program, and `rows` says what each row is. `AllocError` says that memory was refused.
///
/// A row uses its cowns as its body does on its arguments and on the values that the cowns had in the run as the row started. Rows that share a cown run in the
/// order of their numbers, so it goes over the rows in that order, and evaluates each body on the values that those before it left. It takes a time that grows
/// as that of the run.
pub fn row_uses(
    alloc: Global,
    program: &Program,
    recorded: &Record,
    rows: &[Instance],
) -> Result<Vec<Option<Use>>, AllocError>
    requires run { IsRecordOf program.now recorded.now }
    requires rows { AreRowsOf (config_of program.now recorded.now.events).members rows.now }
    ensures uses { IfOk result (λ uses. uses.items ≡ row_uses program.now (config_of program.now recorded.now.events).members) }
    ensures fit { IfOk result (λ uses. AreUses recorded.now.rows uses.items) }
{
    // For the proof alone, and free: that the rows are those of the run.
    let _recorded = recorded.rows();
    let compiled = CompiledProgram::new(alloc, program)?;
    let mut values = initial_values(alloc, program.cowns.as_slice())?;
    let mut uses = Vec::new(alloc);
    take_turns(alloc, &compiled, rows, &mut values, &mut uses)?;
    Ok(uses)
}
