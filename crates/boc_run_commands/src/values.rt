// The command `values`.

ghost use Rattle.std.specs.Prelude.{◌≡◌, ◌<◌, ◌≤◌, ◌∷◌, codes, length, map, IfOk, MatchResult};
ghost use Rattle.boc_run_commands.specs.Commands.{AnswersInput, Leaves, CountsSource, CountsSink, IsOfText, RefusesProgram};
ghost use Rattle.boc_run_commands.specs.Notes.{AreWanted, TellsValues};
ghost use Rattle.boc_eval.specs.Faulted.{rows_of};
ghost use Rattle.boc_names.specs.Names.{named_cowns};
ghost use Rattle.boc_notes.specs.Notes.{note_of_behaviour, notes_text};

use crate::fault::Fault;
use crate::named_run::called;
use crate::notes::Told;
use boc_ends_report::values_text;
use boc_eval::{Faulted, serial_end};
use boc_notes::notes_on_serial;
use boc_program::limits::MOST_TEXT;
use boc_program::program::Program;
use boc_progress::Progress;
use boc_reader::{DefListing, read_listed};
use boc_text::{Sink, Source, put_out, read_all};
use std::alloc::{AllocError, Global};

// The most that is taken of a program text: one byte more than it may have.
pub(crate) const MOST_TAKEN: usize = MOST_TEXT + 1;

/// Reads a program, runs its behaviours one at a time, main first and the others in the order in which
/// they are spawned, and writes the cowns' values at the end, a line each. The notes replace others, unless quiet is wanted.
///
/// A program text is refused only where it spells no program, for what is wrong with it and where, and a run only where the
/// program has too many behaviours. Nothing is written unless the whole output is ready. After a failing write a beginning of it
/// went out. `progress` receives how many behaviours have ended.
pub fn values_cmd<S: Source, W: Sink>(
    alloc: Global,
    quiet: bool,
    progress: &mut dyn Progress,
    notes: &mut Vec<u8>,
    source: &mut S,
    sink: &mut W,
) -> Result<(), Fault>
    requires source { S.failures source.old < u64.MAX }
    requires sink { W.failures sink.old < u64.MAX }
    ensures written { Leaves (AnswersInput (TellsValues quiet notes.new.items) (S.remaining source.old) (S.remaining source.new)) result (W.written sink.old)
        (W.written sink.new) }
    ensures refused { RefusesProgram result (S.remaining source.old) (S.remaining source.new) }
    ensures source { CountsSource result (S.failures source.old) (S.failures source.new) }
    ensures sink { CountsSink result (W.failures sink.old) (W.failures sink.new) }
{
    let text = read_all(alloc, source, MOST_TAKEN)?;
    let told = values_told(alloc, quiet, &text, progress)?;
    let Told {
        text: answer,
        notes: noted,
    } = told;
    *notes = noted;
    put_out(sink, &answer)?;
    Ok(())
}

// Returns the text of the values of the program that a text spells, and the notes on its serial run.
fn values_told(
    alloc: Global,
    quiet: bool,
    text: &[u8],
    progress: &mut dyn Progress,
) -> Result<Told, Fault>
    ensures { MatchResult result (λ told. TellsValues quiet told.notes.items text.now told.text.items × (length text.now ≤ MOST_TEXT)) (IsOfText text.now) }
{
    let (program, defs) = read_listed(alloc, text)?;
    let end = serial_end(alloc, &program, progress)?;
    let notes = serial_notes(alloc, quiet, &program, defs, &end.faulted)?;
    let text = values_text(alloc, program.cowns.as_slice(), &end.values)?;
    Ok(Told { text, notes })
}

// Returns the notes on the behaviours of a serial run of a program with these defs, where they are wanted.
fn serial_notes(
    alloc: Global,
    quiet: bool,
    program: &Program,
    defs: Vec<DefListing>,
    faulted: &[Faulted],
) -> Result<Vec<u8>, AllocError>
    ensures { IfOk result (λ notes. AreWanted quiet (λ told. told ≡ notes_text (map (note_of_behaviour (codes "main" ∷ map (λ d. d.name) defs.items)
        (named_cowns program.now.cowns)) (rows_of faulted.now))) notes.items) }
{
    if quiet || faulted.is_empty() {
        return Ok(Vec::new(alloc));
    }
    let names = called(alloc, defs)?;
    notes_on_serial(alloc, program, &names, faulted)
}
