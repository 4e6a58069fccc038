// One of two runs that are compared.

ghost use Rattle.std.specs.Prelude.{◌≡◌, IfOk, MatchResult};
ghost use Rattle.boc_run_commands.specs.NamedRuns.{AreFew, IsOfNamedRun, IsShort};
ghost use Rattle.boc_several_commands.specs.Comparing.{IsSided, IsSideTold, TellsNamed};

use boc_compare::{Side, side_of};
use boc_names::Names;
use boc_progress::Progress;
use boc_remedies::Question;
use boc_run_commands::Fault;
use boc_run_commands::measured::measured_run;
use boc_run_commands::named_run::{NamedRun, Origin, RECORD_WORD, named_run};
use boc_run_commands::notes::notes_on;
use boc_words::{AskedCompare, RunFile};
use boc_workers::Gate;
use std::alloc::{AllocError, Global};
use std::sync::Wait;
use std::thread::Threads;

/// What is known of one of two runs, in its names.
#[derive(Drop)]
pub struct Sided {
    pub side: Side,
    pub names: Names,
    /// Whether its rows have names of their own, by which defs can be compared.
    pub named: bool,
    /// The notes on its rows.
    pub notes: Vec<u8>,
}

// Returns whether the rows of an input have names: those of a program, or those of a file.
fn is_named(file: &Option<RunFile>, text: &[u8]) -> bool
    ensures { TellsNamed file.now text.now result }
{
    match file {
        Some(_) => true,
        None => !text.starts_with(RECORD_WORD),
    }
}

// Returns what is known of a run with these names.
fn side_told<R: Threads + Sync>(
    rt: &R,
    alloc: Global,
    asked: AskedCompare,
    run: &NamedRun,
) -> Result<Side, AllocError>
    requires { AreFew run.now.rows run.now.names }
    ensures { IfOk result (IsSideTold asked run.now.rows run.now.names) }
{
    let question = Question {
        rows: &run.rows,
        defs: &run.names.defs,
        families: &run.names.families,
        sharing: asked.sharing,
        workers: asked.workers,
    };
    side_of(rt, alloc, &question)
}

/// Returns what is known of the run that an input has: of the program that it spells, or the one that its record is of. The file next to it, if there is one,
/// has names of rows and cowns.
pub(crate) fn sided_of<R: Threads + Wait + Sync, G: Gate>(
    rt: &R,
    alloc: Global,
    text: Vec<u8>,
    asked: AskedCompare,
    file: &Option<RunFile>,
    bytes: Vec<u8>,
    gate: &G,
    progress: &mut dyn Progress,
) -> Result<Sided, Fault>
    ensures { MatchResult result
        (λ sided. IsSided asked file.now bytes.items text.items sided × IsShort text.items)
        (IsOfNamedRun G.always_on asked.schedule file.now bytes.items text.items) }
{
    let named = is_named(file, &text);
    let origin = Origin {
        schedule: asked.schedule,
        file,
        bytes,
    };
    let run = named_run(rt, alloc, text, origin, gate, progress)?;
    let notes = notes_on(alloc, asked.quiet, &run.rows, &run.names.rows)?;
    let measured = measured_run(alloc, asked.typical, run)?;
    let side = side_told(rt, alloc, asked, &measured)?;
    let NamedRun { names, .. } = measured;
    Ok(Sided {
        side,
        names,
        named,
        notes,
    })
}
