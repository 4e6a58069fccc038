// Faults of records.

ghost use Rattle.std.specs.Prelude.{IfOk, string_bytes};
ghost use Rattle.std.specs.Option.{option_copied};
ghost use Rattle.boc_said.specs.Lines.{AreLinesOf};

use crate::broken::put_broken;
use crate::formed::{put_form, put_header};
use crate::left::{put_truncated, put_unended};
use crate::run::line_at;
use boc_record::{RecordFault, RecordFaultKind as Kind};
use boc_said::place::{
    Beside, Place, Text, looks_like_names, looks_like_program, put_names_file, put_nothing,
    put_pair,
};
use boc_said::said::Part::Words;
use boc_said::said::{Explained, Said, Told, first_case};
use std::alloc::Global;

/// Returns what is reported of the text of a record after the line of its fault. There is nothing to report where that line wasn't kept.
pub fn explain_record(
    alloc: Global,
    text: Text<'_>,
    place: Place<'_>,
    fault: RecordFault,
) -> Explained
    ensures { IfOk result (λ told. AreLinesOf (option_copied text.entry.name) (string_bytes told)) }
{
    let mut said = Said::new(alloc);
    said.set_place(fault.line, 1);
    put_text(&mut said, text, place, fault)?;
    said.into_text(text.name)
}

fn put_text(said: &mut Said, text: Text<'_>, place: Place<'_>, fault: RecordFault) -> Told {
    if text.bytes.is_empty() && text.whole {
        put_nothing(said, text)
    } else if fault.line == 1 && looks_like_names(text.bytes) {
        put_names_file(said)
    } else if fault.line == 1 && looks_like_program(text.bytes) {
        put_program(said, place)
    } else if let Some(line) = line_at(text, fault.line) {
        put_fault(said, text, line, place.command, fault)
    } else {
        Ok(())
    }
}

// Reports that a program is where a record is wanted. After `--record` the input was taken, so it is the program.
fn put_program(said: &mut Said, place: Place<'_>) -> Told {
    if place.is_beside && place.beside == Some(Beside::Record) {
        let words = "this looks like a program; --record takes a record: boc run FILE > RECORD";
        return said.words(words);
    }
    if reads_both(place.command) {
        return said.words(PROGRAM_BEGINS);
    }
    if place.is_of_pair() {
        return put_pair(said, place, false);
    }
    let command = Words(place.command);
    let words = "this looks like a program; {} reads records: boc run FILE | boc {}";
    said.tell(words, &[command, command])
}

// How the input of a command begins that reads either.
const PROGRAM_BEGINS: &str =
    "a program begins with `cown`, `def` or `main`, after comments; all else is read as a record";

// Reports how a program begins, where the first line begins no record either.
fn put_other(said: &mut Said, line: &[u8], command: &str) -> Told {
    if !reads_both(command) || line.starts_with(b"boc") {
        return Ok(());
    }
    said.words(PROGRAM_BEGINS)
}

// The input of this command is a program or a record, as its first word says.
fn reads_both(command: &str) -> bool {
    let commands: [&[u8]; 4] = [b"profile", b"whatif", b"curve", b"sweep"];
    commands.iter().any(|name| *name == command.as_bytes())
}

/// Returns whether the text of a record is of the first version, in which ends have no cowns.
pub(crate) fn is_first_version(text: &[u8]) -> bool {
    text.starts_with(b"boc 1")
}

#[rattlefmt::skip]
fn put_fault(said: &mut Said, text: Text<'_>, line: &[u8], command: &str, fault: RecordFault) -> Told {
    said.set_subject(line)?;
    match fault.kind {
        Kind::Header => {
            put_header(said, line)?;
            put_other(said, line, command)
        }
        Kind::Form => put_form(said, line, is_first_version(text.bytes)),
        Kind::After => {
            let another = first_case(&[(line.starts_with(b"boc "), "another record begins here; a file has only one")]);
            said.about(another.unwrap_or("nothing can follow the line `.`"), &[])
        }
        Kind::Unended => put_unended(said, text, fault.line),
        Kind::Truncated => {
            if line.is_empty() {
                said.words("the record ends before the line `.`")?;
            } else {
                said.about("the record ends within this line", &[])?;
            }
            put_truncated(said, text, fault.line, !line.is_empty())
        }
        Kind::Memory | Kind::Device => Ok(()),
        _ => put_broken(said, text.bytes, line, fault),
    }
}
