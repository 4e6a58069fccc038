// The command `check` with a program.

ghost use Rattle.std.specs.Prelude.{◌≡◌, ◌<◌, MatchResult};
ghost use Rattle.boc_runs.specs.Records.{IsRecordOf};
ghost use Rattle.boc_run_commands.specs.Beside.{IsCheckAgainstAnswer, IsOfStray, RefusesAgainst};
ghost use Rattle.boc_run_commands.specs.Commands.{AnswersInput, Leaves, CountsSource, CountsSink};

use crate::beside::program_beside;
use crate::check::check_text;
use crate::fault::Fault;
use boc_follow::follow_record;
use boc_program::program::Program;
use boc_progress::Progress;
use boc_record::read_record;
use boc_registers::compiled::CompiledProgram;
use boc_runs::record::Record;
use boc_text::{Sink, Source, put_out};
use std::alloc::Global;

/// Reads the text of a record, sees that it is that of a run of the program that a file spells, and writes how many rows it has.
///
/// The file is refused where it spells no program, for what is wrong with it and where, before anything of the source is read; the text as by
/// `check`; and then a record that is that of no run of the program, for the first line of its text that diverges from it. Nothing is written unless
/// the whole output is ready. After a failing write a beginning of it went out. `progress` receives how many events are followed.
pub fn check_against_cmd<S: Source, W: Sink>(
    alloc: Global,
    program: &[u8],
    progress: &mut dyn Progress,
    source: &mut S,
    sink: &mut W,
) -> Result<(), Fault>
    requires source { S.failures source.old < u64.MAX }
    requires sink { W.failures sink.old < u64.MAX }
    ensures written { Leaves (AnswersInput (IsCheckAgainstAnswer program.now) (S.remaining source.old) (S.remaining source.new)) result
        (W.written sink.old) (W.written sink.new) }
    ensures refused { RefusesAgainst program.now result (S.remaining source.old) }
    ensures source { CountsSource result (S.failures source.old) (S.failures source.new) }
    ensures sink { CountsSink result (W.failures sink.old) (W.failures sink.new) }
{
    let program = program_beside(alloc, program)?;
    let recorded = read_record(alloc, source)?;
    followed(alloc, &program, &recorded, progress)?;
    let answer = check_text(alloc, recorded.rows())?;
    put_out(sink, &answer)?;
    Ok(())
}

// Sees that a record is that of a run of a program.
fn followed(
    alloc: Global,
    program: &Program,
    recorded: &Record,
    progress: &mut dyn Progress,
) -> Result<(), Fault>
    ensures { MatchResult result (λ _. IsRecordOf program.now recorded.now) (IsOfStray program.now recorded.now) }
{
    let compiled = CompiledProgram::new(alloc, program)?;
    follow_record(alloc, &compiled, recorded, progress)?;
    Ok(())
}
