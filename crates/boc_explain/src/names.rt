// What the rows and the cowns of a record are called, and faults of files that name them.

ghost use Rattle.std.specs.Prelude.{IfOk, string_bytes};
ghost use Rattle.std.specs.Option.{option_copied};
ghost use Rattle.boc_said.specs.Lines.{AreLinesOf};

use crate::formed::{column_of, is_feed, is_space, put_common, put_no_number};
use crate::run::{line_at, run_before};
use boc_follow::{Follower, follow_record};
use boc_names::{
    MOST_NAMES, Names, NamesFault, NamesFaultKind as Kind, names_of_run, numbers_as_names,
    read_names,
};
use boc_program::limits::{MOST_COWNS, MOST_ROWS};
use boc_program::program::Program;
use boc_program::text::Name;
use boc_progress::Silent;
use boc_reader::{DefListing, read_listed, read_program};
use boc_record::read_record;
use boc_registers::compiled::CompiledProgram;
use boc_runs::record::Record;
use boc_said::place::{Text, is_first_word, looks_like_record};
use boc_said::said::Part::{Number, Quote, Words};
use boc_said::said::{Explained, Said, Told, first_case};
use boc_text::{Bytes, MOST_LINE, read_number};
use std::alloc::{AllocError, Global};

// These numbers are named in the lines.
const _: () = prove!(MOST_NAMES == 8 * 1024 * 1024);

/// By what the rows of a record are called.
#[derive(Clone, Copy, Debug)]
pub enum Naming<'a> {
    /// By their numbers.
    Numbers,
    /// As in the text of this program, of which the record is a run.
    Program(&'a [u8]),
    /// As in the text of this file of names.
    Names(&'a [u8]),
}

/// Returns what is reported of a file of names after the line of its fault. It names the rows and the cowns of the run that this input reports of.
pub fn explain_names(alloc: Global, text: Text<'_>, input: Text<'_>, fault: NamesFault) -> Explained
    ensures { IfOk result (λ told. AreLinesOf (option_copied text.entry.name) (string_bytes told)) }
{
    let mut said = Said::new(alloc);
    said.set_place(fault.line, 1);
    if let Some(line) = line_at(text, fault.line) {
        if let Kind::NoRow | Kind::NoCown | Kind::Twice = fault.kind {
            said.set_column(column_of(line, 1));
        }
        said.set_subject(line)?;
        put_fault(&mut said, text.bytes, input, line, fault)?;
    }
    said.into_text(text.name)
}

fn put_fault(
    said: &mut Said,
    text: &[u8],
    input: Text<'_>,
    line: &[u8],
    fault: NamesFault,
) -> Told {
    if let Kind::TooLong | Kind::Form = fault.kind
        && let Some(other) = other_text(text)
    {
        let words =
            "this looks like a {}; --names takes lines `@ COWN NAME` and `= ROW NAME [ARG ..]`";
        return said.tell(words, &[Words(other)]);
    }
    let reason = match fault.kind {
        Kind::Cut => "the last line has no line feed",
        Kind::TooLong if line.len() > MOST_LINE => "a line has at most 80 bytes",
        Kind::TooLong => "a names file has at most 8 MiB",
        Kind::Form => return put_form(said, line),
        Kind::NoRow => return put_no_row(said, input),
        Kind::NoCown => return put_no_cown(said, input),
        Kind::Twice => return put_twice(said, text, line, fault.line),
        Kind::Memory => return Ok(()),
    };
    said.about(reason, &[])
}

// Returns which other text is where names are wanted: the first line that says something, and is no comment, is one of a program, or the first one of a record.
fn other_text(text: &[u8]) -> Option<&'static str> {
    let is_told = |line: &&[u8]| !line.is_empty() && !line.starts_with(b"#");
    let first = text.split(is_feed).find(is_told).unwrap_or(b"");
    let word = first.split(is_space).next().unwrap_or(b"");
    first_case(&[
        (looks_like_record(text), "record"),
        (is_first_word(word), "program"),
    ])
}

// Reports what is wrong with a line that has none of the forms.
fn put_form(said: &mut Said, line: &[u8]) -> Told {
    if put_common(said, line, "names and arguments are")? {
        return Ok(());
    }
    let reason = match line {
        [sign @ (b'=' | b'@'), b' ', fields @ ..] => return put_fields(said, line, *sign, fields),
        [b'=' | b'@'] => "no number and no name after the sign",
        [b'=' | b'@', ..] => "no space after the sign",
        _ => "a line is `@ COWN NAME`, `= ROW NAME [ARG ..]`, empty, or a `#` comment",
    };
    said.about(reason, &[])
}

// Reports what is wrong with the fields of a line.
fn put_fields(said: &mut Said, line: &[u8], sign: u8, fields: &[u8]) -> Told {
    let mut count: u64 = 0;
    for field in fields.split(is_space) {
        if field.is_empty() {
            return said.about("two spaces; words are separated by one", &[]);
        }
        if count == 0 && read_number(field).is_none() {
            said.set_column(column_of(line, 1));
            return put_no_number(said, field);
        }
        count = count.saturating_add(1);
    }
    let reason = match sign {
        b'=' => "no name; the form is `= ROW NAME [ARG ..]`",
        _ if count < 2 => "no name; the form is `@ COWN NAME`",
        _ => "words after the name; the form is `@ COWN NAME`",
    };
    said.about(reason, &[])
}

// Reports which rows there are. How many a program has is known only as it runs.
fn put_no_row(said: &mut Said, input: Text<'_>) -> Told {
    if !looks_like_record(input.bytes) || !input.whole {
        return said.about("the run has no row with this number", &[]);
    }
    let count = run_before(said.alloc, input.bytes, u64::MAX)?.count() as u64;
    let last = Number(count.saturating_sub(1));
    said.about("the record has rows 0 to ", &[last])
}

// Reports which cowns there are.
fn put_no_cown(said: &mut Said, input: Text<'_>) -> Told {
    match counted_cowns(said.alloc, input.bytes) {
        None => Ok(()),
        Some((_, 0)) => said.about("the run has no cowns", &[]),
        Some((_, count)) => {
            let last = Number(count.saturating_sub(1));
            said.about("the run has cowns 0 to ", &[last])
        }
    }
}

/// Returns what an input is, and how many cowns it has, if that is known: as many as the first line of a record reports, or as a program has.
pub(crate) fn counted_cowns(alloc: Global, text: &[u8]) -> Option<(&'static str, u64)> {
    if looks_like_record(text) {
        let header = text.split(is_feed).next()?;
        if let Some(count) = header.rsplit(is_space).next().and_then(read_number) {
            return Some(("record", u64::from(count)));
        }
    }
    Some(("program", program_cowns(alloc, text)?))
}

/// Returns how many cowns a program has, the members of arrays counted.
pub(crate) fn program_cowns(alloc: Global, text: &[u8]) -> Option<u64> {
    let program = read_program(alloc, text).ok()?;
    let mut count: u64 = 0;
    for cown in program.cowns.as_slice() {
        count = count.saturating_add(cown.members() as u64);
    }
    Some(count)
}

// Returns the sign and the number of a line that has one of the forms.
fn thing_of(line: &[u8]) -> Option<(u8, u32)> {
    let [sign @ (b'=' | b'@'), b' ', fields @ ..] = line else {
        return None;
    };
    let number = read_number(fields.split(is_space).next()?)?;
    Some((*sign, number))
}

// Reports which line before this one names the same.
fn put_twice(said: &mut Said, text: &[u8], line: &[u8], number: u64) -> Told {
    let thing = thing_of(line);
    let mut counted: u64 = 0;
    for other in text.split(is_feed) {
        counted = counted.saturating_add(1);
        if counted < number && thing_of(other) == thing {
            let parts = [Number(counted), Quote(other)];
            return said.about("line {} already names it: ", &parts);
        }
    }
    Ok(())
}

/// Returns the names of these defs.
pub(crate) fn called(alloc: Global, listings: Vec<DefListing>) -> Result<Vec<Name>, AllocError> {
    let mut names = Vec::new(alloc);
    for listing in listings {
        let DefListing { name, .. } = listing;
        names.push(name)?;
    }
    Ok(names)
}

/// The names of the rows and the cowns of a record; none where they can't be reported.
pub(crate) type Called = Result<Option<Names>, AllocError>;

/// Returns the names in a record as its program has them.
pub(crate) fn names_by_program(alloc: Global, text: &[u8], program: &[u8]) -> Called {
    let Ok((program, listings)) = read_listed(alloc, program) else {
        return Ok(None);
    };
    match read_record(alloc, &mut Bytes::new(Vec::from_slice(alloc, text)?)) {
        Ok(record) => names_of_record(alloc, &program, listings, &record),
        Err(_) => Ok(None),
    }
}

// Returns the names in a record as this program has them, whose defs are listed so, if it is of a run of the program.
fn names_of_record(
    alloc: Global,
    program: &Program,
    listings: Vec<DefListing>,
    record: &Record,
) -> Called {
    let compiled = CompiledProgram::new(alloc, program)?;
    match follow_record(alloc, &compiled, record, &mut Silent) {
        Ok(follower) => names_of_followed(alloc, &follower, listings),
        Err(_) => Ok(None),
    }
}

// Returns the names in a run that was followed, whose defs are listed so.
fn names_of_followed(alloc: Global, follower: &Follower<'_>, listings: Vec<DefListing>) -> Called {
    let rows = follower.instances(alloc)?;
    let names = names_of_run(alloc, follower.program(), &called(alloc, listings)?, &rows)?;
    Ok(Some(names))
}

/// Returns the names in a record as a file has them, if there is one, and else their numbers.
pub(crate) fn names_by_file(alloc: Global, text: &[u8], file: Option<&[u8]>) -> Called {
    let run = run_before(alloc, text, u64::MAX)?;
    if run.count() > MOST_ROWS {
        return Ok(None);
    }
    let numbers = numbers_as_names(alloc, run.count() as u32, run.cowns())?;
    match file {
        Some(file) => named_in(alloc, file, numbers),
        None => Ok(Some(numbers)),
    }
}

// Returns the names that a file gives to the rows and the cowns with these numbers.
fn named_in(alloc: Global, file: &[u8], numbers: Names) -> Called {
    let fits = numbers.defs.len() == numbers.rows.len()
        && numbers.rows.len() <= MOST_ROWS
        && numbers.families.len() == numbers.cowns.len()
        && numbers.cowns.len() <= MOST_COWNS;
    if !fits {
        return Ok(None);
    }
    Ok(read_names(alloc, file, numbers).ok())
}
