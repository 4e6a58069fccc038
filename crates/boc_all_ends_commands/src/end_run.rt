// The command that records a run to an end of a program.

ghost use Rattle.std.specs.Prelude.{◌≡◌, ◌<◌, ◌≤◌, length, MatchResult};
ghost use Rattle.boc_program.specs.declared.limits.TheConstants.{MOST_TEXT};
ghost use Rattle.boc_run_commands.specs.Commands.{AnswersInput, Leaves, CountsSource, CountsSink};
ghost use Rattle.boc_all_ends_commands.specs.EndRunAnswers.{IsEndRunAnswer, IsEndRunOfText, IsOfEndRun, RefusesEndRun};

use crate::all_ends::MOST_TAKEN;
use boc_all_ends::all_ends;
use boc_end_orders::record_to;
use boc_progress::Progress;
use boc_reader::read_program;
use boc_record::write_record;
use boc_registers::compiled::CompiledProgram;
use boc_run_commands::{EndFault, Fault};
use boc_runs::record::Record;
use boc_text::{Sink, Source, read_all};
use boc_words::{EndNumber, MostFronts};
use std::alloc::Global;

/// Reads a program, searches for all ends of its runs, and writes the record of a run to the end with this number, of as few rows as can be. The search stops
/// where it would look at more fronts than `most`.
///
/// A program text is refused only where it spells no program, for what is wrong with it and where, and a number only where the search finds fewer ends. Nothing
/// is written unless the whole answer is ready. After a failing write a beginning of it went out. `progress` receives after each number of rows how many fronts
/// were looked at.
pub fn end_run_cmd<S: Source, W: Sink>(
    alloc: Global,
    most: MostFronts,
    number: EndNumber,
    progress: &mut dyn Progress,
    source: &mut S,
    sink: &mut W,
) -> Result<(), Fault>
    requires source { S.failures source.old < u64.MAX }
    requires sink { W.failures sink.old < u64.MAX }
    ensures written { Leaves (AnswersInput (IsEndRunAnswer most number) (S.remaining source.old) (S.remaining source.new)) result (W.written sink.old)
        (W.written sink.new) }
    ensures refused { RefusesEndRun most number result (S.remaining source.old) (S.remaining source.new) }
    ensures source { CountsSource result (S.failures source.old) (S.failures source.new) }
    ensures sink { CountsSink result (W.failures sink.old) (W.failures sink.new) }
{
    let text = read_all(alloc, source, MOST_TAKEN)?;
    let run = end_run(alloc, &text, most, number, progress)?;
    write_record(alloc, &run, sink)?;
    Ok(())
}

// Returns the record of a run to the end with this number of the program that a text spells.
fn end_run(
    alloc: Global,
    text: &[u8],
    most: MostFronts,
    number: EndNumber,
    progress: &mut dyn Progress,
) -> Result<Record, Fault>
    ensures { MatchResult result (λ run. IsEndRunOfText most number text.now run × (length text.now ≤ MOST_TEXT)) (IsOfEndRun most number text.now) }
{
    let program = read_program(alloc, text)?;
    let compiled = CompiledProgram::new(alloc, &program)?;
    let found = all_ends(alloc, &compiled, most.number(), progress)?;
    let number = number.number();
    let Some(end) = found.all.get(number as usize - 1) else {
        return Err(Fault::End(EndFault {
            number,
            found: found.all.len(),
            whole: found.whole,
            endless: found.endless,
        }));
    };
    let run = record_to(alloc, &compiled, end)?;
    Ok(run)
}
