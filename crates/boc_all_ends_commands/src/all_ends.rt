// The command that prints all ends of a program.

ghost use Rattle.std.specs.Prelude.{◌≡◌, ◌<◌, ◌≤◌, length, MatchResult};
ghost use Rattle.boc_program.specs.declared.limits.TheConstants.{MOST_TEXT};
ghost use Rattle.boc_run_commands.specs.Commands.{AnswersInput, Leaves, CountsSource, CountsSink};
ghost use Rattle.boc_all_ends_commands.specs.AllEndsAnswers.{IsAllEndsAnswer, IsOfSearch, RefusesSearch};

use boc_all_ends::all_ends;
use boc_all_ends_report::ends_text;
use boc_program::limits::MOST_TEXT;
use boc_progress::Progress;
use boc_reader::read_program;
use boc_registers::compiled::CompiledProgram;
use boc_run_commands::Fault;
use boc_text::{Sink, Source, put_out, read_all};
use boc_words::MostFronts;
use std::alloc::Global;

/// The most that is taken of a program text: one byte more than it may have.
pub(crate) const MOST_TAKEN: usize = MOST_TEXT + 1;

/// Reads a program, searches for all ends of its runs, and writes them: whether there are no others, how many fronts were looked at, and each end with its
/// numbers of rows and its values. The search stops where it would look at more fronts than `most`.
///
/// A program text is refused only where it spells no program, for what is wrong with it and where. Nothing is written unless the whole answer is ready. After a
/// failing write a beginning of it went out. `progress` receives after each number of rows how many fronts were looked at.
pub fn all_ends_cmd<S: Source, W: Sink>(
    alloc: Global,
    most: MostFronts,
    progress: &mut dyn Progress,
    source: &mut S,
    sink: &mut W,
) -> Result<(), Fault>
    requires source { S.failures source.old < u64.MAX }
    requires sink { W.failures sink.old < u64.MAX }
    ensures written { Leaves (AnswersInput (IsAllEndsAnswer most) (S.remaining source.old) (S.remaining source.new)) result (W.written sink.old)
        (W.written sink.new) }
    ensures refused { RefusesSearch result (S.remaining source.old) (S.remaining source.new) }
    ensures source { CountsSource result (S.failures source.old) (S.failures source.new) }
    ensures sink { CountsSink result (W.failures sink.old) (W.failures sink.new) }
{
    let text = read_all(alloc, source, MOST_TAKEN)?;
    let answer = ends_told(alloc, &text, most, progress)?;
    put_out(sink, &answer)?;
    Ok(())
}

// Returns the text of all ends of the program that a text spells.
fn ends_told(
    alloc: Global,
    text: &[u8],
    most: MostFronts,
    progress: &mut dyn Progress,
) -> Result<Vec<u8>, Fault>
    ensures { MatchResult result (λ answer. IsAllEndsAnswer most text.now answer.items × (length text.now ≤ MOST_TEXT)) (IsOfSearch text.now) }
{
    let program = read_program(alloc, text)?;
    let compiled = CompiledProgram::new(alloc, &program)?;
    let found = all_ends(alloc, &compiled, most.number(), progress)?;
    let answer = ends_text(alloc, program.cowns.as_slice(), &found)?;
    Ok(answer)
}
