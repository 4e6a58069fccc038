// The command `values` with a record.

ghost use Rattle.std.specs.Prelude.{◌≡◌, ◌<◌, ◌≤◌, length, map, MatchResult};
ghost use Rattle.boc_program.specs.declared.limits.TheConstants.{MOST_TEXT};
ghost use Rattle.boc_runs.specs.Records.{IsRecordOf};
ghost use Rattle.boc_runs.specs.Run.{config_of};
ghost use Rattle.boc_run_commands.specs.Beside.{IsOfStrayFile, IsOfValuesAfter, RefusesValuesAfter};
ghost use Rattle.boc_run_commands.specs.Commands.{AnswersInput, Leaves, CountsSource, CountsSink};
ghost use Rattle.boc_run_commands.specs.Notes.{AreWanted, TellsValuesAfter, notes_of_rows, run_names};
ghost use Rattle.boc_ends_report.specs.ValueTexts.{values_text as values_text_spec};

use crate::beside::{of_stray_beside, record_beside};
use crate::fault::Fault;
use crate::notes::{Told, notes_on_run};
use crate::values::MOST_TAKEN;
use boc_ends_report::values_text;
use boc_follow::follow_record;
use boc_program::program::Program;
use boc_progress::Progress;
use boc_reader::{DefListing, read_listed};
use boc_registers::compiled::CompiledProgram;
use boc_runs::record::Record;
use boc_text::{Sink, Source, put_out, read_all};
use std::alloc::Global;

/// Reads a program, and writes the values of its cowns with which the run ended whose record is the text of a file, a line each. The
/// notes replace others, unless quiet is wanted.
///
/// A program text is refused only where it spells no program, for what is wrong with it and where; then the file, at its first faulty line, where
/// it is no record's text; and then a record that is that of no run of the program, for the first line of its text that diverges from it. Nothing is
/// written unless the whole output is ready. After a failing write a beginning of it went out. `progress` receives how many events are followed.
pub fn values_after_cmd<S: Source, W: Sink>(
    alloc: Global,
    record_text: Vec<u8>,
    quiet: bool,
    progress: &mut dyn Progress,
    notes: &mut Vec<u8>,
    source: &mut S,
    sink: &mut W,
) -> Result<(), Fault>
    requires source { S.failures source.old < u64.MAX }
    requires sink { W.failures sink.old < u64.MAX }
    ensures written { Leaves (AnswersInput (TellsValuesAfter record_text.items quiet notes.new.items) (S.remaining source.old) (S.remaining source.new)) result
        (W.written sink.old) (W.written sink.new) }
    ensures refused { RefusesValuesAfter record_text.items result (S.remaining source.old) (S.remaining source.new) }
    ensures source { CountsSource result (S.failures source.old) (S.failures source.new) }
    ensures sink { CountsSink result (W.failures sink.old) (W.failures sink.new) }
{
    let text = read_all(alloc, source, MOST_TAKEN)?;
    let told = values_told(alloc, quiet, &text, record_text, progress)?;
    let Told {
        text: answer,
        notes: noted,
    } = told;
    *notes = noted;
    put_out(sink, &answer)?;
    Ok(())
}

// Returns the text of the values with which the run ended that a file reports, of the program that a text spells, and the notes on that run.
fn values_told(
    alloc: Global,
    quiet: bool,
    text: &[u8],
    record_text: Vec<u8>,
    progress: &mut dyn Progress,
) -> Result<Told, Fault>
    ensures { MatchResult result
        (λ told. TellsValuesAfter record_text.items quiet told.notes.items text.now told.text.items × (length text.now ≤ MOST_TEXT))
        (IsOfValuesAfter record_text.items text.now) }
{
    let (program, defs) = read_listed(alloc, text)?;
    let recorded = record_beside(alloc, record_text)?;
    values_of_run(alloc, quiet, &program, defs, &recorded, progress)
}

// Returns the text of the values with which a run of a program with these defs ended, and the notes on it.
fn values_of_run(
    alloc: Global,
    quiet: bool,
    program: &Program,
    defs: Vec<DefListing>,
    recorded: &Record,
    progress: &mut dyn Progress,
) -> Result<Told, Fault>
    ensures { MatchResult result
        (λ told. IsRecordOf program.now recorded.now
        × (told.text.items ≡ values_text_spec program.now.cowns (config_of program.now recorded.now.events).values)
        × AreWanted quiet (λ text. text ≡ notes_of_rows (run_names program.now (map (λ d. d.name) defs.items) recorded.now.events) recorded.now.rows)
        told.notes.items)
        (IsOfStrayFile program.now recorded.now) }
{
    let compiled = CompiledProgram::new(alloc, program)?;
    match follow_record(alloc, &compiled, recorded, progress) {
        Ok(run) => {
            let text = values_text(alloc, program.cowns.as_slice(), run.values())?;
            let notes = notes_on_run(alloc, quiet, program, defs, recorded, &[], progress)?;
            Ok(Told { text, notes })
        }
        Err(fault) => Err(of_stray_beside(fault)),
    }
}
