// The run of a program that comes in, as a command about runs takes it.

ghost use Rattle.std.specs.Prelude.{◌≡◌, ◌≤◌, MatchResult, length};
ghost use Rattle.boc_program.specs.declared.limits.TheConstants.{MOST_TEXT};
ghost use Rattle.boc_run_commands.specs.NamedRuns.{HasRun};
ghost use Rattle.boc_plan_commands.specs.ProgramInputs.{IsOfProgramRun, IsProgramRun, supplied_by, supplied_record, supplied_to};

use boc_progress::Progress;
use boc_run_commands::Fault;
use boc_run_commands::named_run::{NamedRun, given_run, program_run, renamed};
use boc_words::{RunFile, Schedule, WhatIfFile};
use boc_workers::Gate;
use std::alloc::Global;
use std::sync::Wait;
use std::thread::Threads;

/// What the file given with an input has for it, if that is a program.
#[derive(Clone, Copy, PartialEq, Eq, Debug)]
pub enum Supplied {
    /// Nothing: there is no such file, or it is of no use to a program.
    Nothing,
    /// The record of the program's run.
    Record,
    /// The names of rows and cowns.
    Names,
}

/// How a program is run, and the file given with it.
#[derive(Drop)]
pub struct Setting {
    pub schedule: Schedule,
    pub supplied: Supplied,
    /// The bytes of that file; none where there is no file.
    pub bytes: Vec<u8>,
}

/// Returns what a file has that may be the record of the run.
pub fn supplied_record(path: &Option<String>) -> Supplied
    ensures { result ≡ supplied_record path.now }
{
    match path {
        Some(_) => Supplied::Record,
        None => Supplied::Nothing,
    }
}

/// Returns what the file of a run has.
pub fn supplied_by(file: &Option<RunFile>) -> Supplied
    ensures { result ≡ supplied_by file.now }
{
    match file {
        Some(RunFile::Record(_)) => Supplied::Record,
        Some(RunFile::Names(_)) => Supplied::Names,
        None => Supplied::Nothing,
    }
}

/// Returns what the file of `whatif` has for a program, which needs no other program.
pub(crate) fn supplied_to(file: &Option<WhatIfFile>) -> Supplied
    ensures { result ≡ supplied_to file.now }
{
    match file {
        Some(WhatIfFile::Record(_)) => Supplied::Record,
        Some(WhatIfFile::Names(_)) => Supplied::Names,
        Some(WhatIfFile::Program(_)) | None => Supplied::Nothing,
    }
}

/// Returns the run of the program that a text spells, in this setting, with what its rows and cowns are called.
pub(crate) fn run_of_program<R: Threads + Wait + Sync, G: Gate>(
    rt: &R,
    alloc: Global,
    text: Vec<u8>,
    setting: Setting,
    gate: &G,
    progress: &mut dyn Progress,
) -> Result<NamedRun, Fault>
    ensures { MatchResult result
        (λ run. HasRun (IsProgramRun setting.schedule setting.supplied setting.bytes.items text.items) run × (length text.items ≤ MOST_TEXT))
        (IsOfProgramRun G.always_on setting.schedule setting.supplied setting.bytes.items text.items) }
{
    let Setting {
        schedule,
        supplied,
        bytes,
    } = setting;
    match supplied {
        Supplied::Nothing => program_run(rt, alloc, &text, schedule, gate, progress),
        Supplied::Record => given_run(alloc, &text, bytes, progress),
        Supplied::Names => {
            let own = program_run(rt, alloc, &text, schedule, gate, progress)?;
            renamed(alloc, own, &bytes)
        }
    }
}
