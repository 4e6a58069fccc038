// The command `check`.

ghost use Rattle.std.specs.Prelude.{◌≡◌, ◌<◌, length, IfOk};
ghost use Rattle.boc_run_commands.specs.Answers.{IsCheckAnswer};
ghost use Rattle.boc_run_commands.specs.CheckTexts.{check_text as check_text_spec};
ghost use Rattle.boc_run_commands.specs.Commands.{AnswersInput, Leaves, CountsSource, CountsSink, RefusesRecord};

use crate::fault::Fault;
use boc_record::read_rows;
use boc_runs::rows::Rows;
use boc_text::{Sink, Source, put_number, put_out};
use std::alloc::{AllocError, Global};

/// Reads the text of a record, and writes how many rows it has.
///
/// A text is refused at its first faulty line, and only where it is no record's. Nothing is written unless
/// the whole output is ready. After a failing write a beginning of it went out.
pub fn check_cmd<S: Source, W: Sink>(
    alloc: Global,
    source: &mut S,
    sink: &mut W,
) -> Result<(), Fault>
    requires source { S.failures source.old < u64.MAX }
    requires sink { W.failures sink.old < u64.MAX }
    ensures written { Leaves (AnswersInput IsCheckAnswer (S.remaining source.old) (S.remaining source.new)) result (W.written sink.old) (W.written sink.new) }
    ensures refused { RefusesRecord result (S.remaining source.old) }
    ensures source { CountsSource result (S.failures source.old) (S.failures source.new) }
    ensures sink { CountsSink result (W.failures sink.old) (W.failures sink.new) }
{
    let rows = read_rows(alloc, source)?;
    let answer = check_text(alloc, &rows)?;
    put_out(sink, &answer)?;
    Ok(())
}

// Returns the text that says how many rows there are.
pub(crate) fn check_text(alloc: Global, rows: &Rows) -> Result<Vec<u8>, AllocError>
    ensures { IfOk result (λ text. text.items ≡ check_text_spec (length rows.now)) }
{
    let count = rows.as_slice().len();
    let mut text = Vec::new(alloc);
    text.extend_from_slice(b"ok ")?;
    put_number(&mut text, count as u64)?;
    text.push(b'\n')?;
    Ok(text)
}
