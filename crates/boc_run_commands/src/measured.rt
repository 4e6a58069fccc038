// The rows of a run that a command reports on: with their own ticks, or with those that are typical of their defs.

ghost use Rattle.std.specs.Prelude.{◌≡◌, IfOk};
ghost use Rattle.boc_run_commands.specs.Measured.{IsMeasured, workers_measured};
ghost use Rattle.boc_run_commands.specs.NamedRuns.{AreFew};

use crate::named_run::NamedRun;
use boc_program::count::Workers;
use boc_typical::typical_rows;
use std::alloc::{AllocError, Global};

/// Returns the run with the rows that a command reports on: as they are; or, where that is requested, each with the median ticks of its def. Of such
/// rows it is not known when they ran. `AllocError` says that memory was refused.
pub fn measured_run(alloc: Global, typical: bool, run: NamedRun) -> Result<NamedRun, AllocError>
    requires { AreFew run.rows run.names }
    ensures { IfOk result (IsMeasured typical run) }
{
    if !typical {
        return Ok(run);
    }
    let NamedRun { rows, names, .. } = run;
    let rows = typical_rows(alloc, &rows, &names.defs)?;
    Ok(NamedRun {
        rows,
        names,
        times: None,
    })
}

/// Returns the number of workers for which the span of a run is compared with that of another: none where it is the span of typical ticks.
pub fn workers_measured(typical: bool, workers: Option<Workers>) -> Option<Workers>
    ensures { result ≡ workers_measured typical workers }
{
    if typical { None } else { workers }
}
