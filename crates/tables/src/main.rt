//! Reports for each text of a table on standard input what becomes of it.
//!
//! A text of the table comes after a line with its kind, a space and its length in bytes, and before a line feed. A
//! `program` is read, and a `record` is read and written again. Of the record of a `report` the report is written, with
//! the greedy plan for P workers, 1 to 64, where the kind is `report P`; of that of an `edit ROW TICKS` the report after
//! that edit, or why it is refused; and of that of a `sweep` the sweep. With `shared ` before it, plans see what was
//! only read as shared. The first line of a `drive WORKERS` is a list of
//! choices of the given number of workers, a letter for each, `a` for worker 0, and the rest is the program that they drive: where the
//! run is then is written as its log, its steps, and the values of its cowns. Of a `quiet WORKERS`, which is made so too,
//! it is written who can step then, and the steps and values of the run once it went on until it is quiet. Each drive is
//! made over linked chains and over plain ones, and what the plain ones give is written too, should it be something else.
//! A `follow LENGTH` is a program of the given number of bytes and a record after it: it is written whether the record is that of a run of the program, with
//! the values in which that ends, or the line of the record that diverges from the program first, and how.
#![tactic(auto)]

ghost use Rattle.std.specs.Prelude.{◌<◌, ◌≤◌, length, IfOk, IfSome};
ghost use Rattle.boc_report.specs.Parts.{IsWhole};

use boc_chain::{Chains, ListChains};
use boc_dispatch::{
    Core, DriveFault, cown_count, drive, drive_over, drive_quiet, drive_quiet_over,
};
use boc_follow::follow_record;
use boc_greedy::{Greedy, greedy};
use boc_order::profile;
use boc_plans::sharing::Sharing;
use boc_program::count::Workers;
use boc_program::program::Program;
use boc_progress::Silent;
use boc_reader::read_program;
use boc_record::{RecordFault, WriteFault, put_events, read_record, write_record};
use boc_registers::compiled::CompiledProgram;
use boc_report::{MOST_LINES, profile_text, sweep_text};
use boc_runs::record::Record;
use boc_runs::rows::Rows;
use boc_text::{Bytes, put_number, put_signed};
use boc_whatif::WhatIf;
use std::alloc::{AllocError, Global};
use std::io::{self, Read, Write};
use std::thread::Threads;

/// What a text of the table is meant to be.
#[derive(Clone, Copy)]
enum Word {
    Program,
    Record,
    Report,
    Edit,
    Sweep,
    Drive,
    Quiet,
    Follow,
}

// The words that name them.
const WORDS: &[(&str, Word)] = &[
    ("program", Word::Program),
    ("record", Word::Record),
    ("report", Word::Report),
    ("edit", Word::Edit),
    ("sweep", Word::Sweep),
    ("drive", Word::Drive),
    ("quiet", Word::Quiet),
    ("follow", Word::Follow),
];

/// What a text of the table is meant to be, how plans share reads, and the numbers after the word, or 0 where there is none.
#[derive(Clone, Copy)]
struct Kind {
    word: Word,
    sharing: Sharing,
    first: u32,
    second: u32,
}

// Returns what a name stands for.
fn word_of(name: &str) -> Option<Word> {
    for (spelling, word) in WORDS {
        if *spelling == name {
            return Some(*word);
        }
    }
    None
}

// Returns the first of some words, and the words after it.
fn first_word(words: &str) -> (&str, &str) {
    match words.split_once(' ') {
        Some(parts) => parts,
        None => (words, ""),
    }
}

// Returns the number that a word is, or 0 where there is no word.
fn number(word: &str) -> Option<u32> {
    if word.is_empty() {
        return Some(0);
    }
    word.parse().ok()
}

// Returns the kind that some words name.
fn kind_of(words: &str) -> Option<Kind> {
    let (words, sharing) = match words.strip_prefix("shared ") {
        Some(words) => (words, Sharing::SharedReads),
        None => (words, Sharing::Exclusive),
    };
    let (name, numbers) = first_word(words);
    let (first, second) = first_word(numbers);
    Some(Kind {
        word: word_of(name)?,
        sharing,
        first: number(first)?,
        second: number(second)?,
    })
}

// Returns the first line of some bytes, and what comes after it.
fn first_line(bytes: &[u8]) -> Option<(&[u8], &[u8])>
    ensures { IfSome result (λ parts. length parts.1.now < length bytes.now) }
{
    let end = bytes.iter().position(|byte| *byte == b'\n')?;
    let (line, behind) = bytes.split_at(end);
    Some((line, &behind[1..]))
}

// Returns the first text of a table with its kind, and what comes after it.
fn first_text(table: &[u8]) -> Option<(Kind, &[u8], &[u8])>
    ensures { IfSome result (λ parts. length parts.2.now < length table.now) }
{
    let (line, behind) = first_line(table)?;
    let (words, len) = std::str::from_utf8(line).ok()?.rsplit_once(' ')?;
    let kind = kind_of(words)?;
    let len: usize = len.parse().ok()?;
    if behind.len() <= len {
        return None;
    }
    let (text, rest) = behind.split_at(len);
    Some((kind, text, &rest[1..]))
}

// Writes the line on a program's text.
fn tell_program(rt: HostRuntime, text: &[u8]) -> io::Result<()> {
    match read_program(rt.alloc(), text) {
        Ok(_) => rt.println("ok"),
        Err(fault) => rt.println(fault),
    }
}

// Returns the record of a text.
fn record_of(rt: HostRuntime, text: &[u8]) -> io::Result<Result<Record, RecordFault>> {
    let mut source = Bytes::new(Vec::from_slice(rt.alloc(), text)?);
    Ok(read_record(rt.alloc(), &mut source))
}

// Returns the text of a record, as it is written.
fn text_of(rt: HostRuntime, record: &Record) -> Result<Vec<u8>, WriteFault> {
    let mut sink = Bytes::new(Vec::new(rt.alloc()));
    write_record(rt.alloc(), record, &mut sink)?;
    Ok(sink.bytes)
}

// Writes the line on a record's text: how many rows it has, and whether it is written again as it was. A text of the
// first version is written in the second, and that one as it was.
fn tell_record(rt: HostRuntime, text: &[u8]) -> io::Result<()> {
    let record = match record_of(rt, text)? {
        Ok(record) => record,
        Err(fault) => return rt.println(fault),
    };
    match text_of(rt, &record) {
        Ok(written) => tell_written(rt, text, &written, record.rows().as_slice().len()),
        Err(fault) => rt.println(fault),
    }
}

// Writes the line on a record of the given number of rows that is written again as this.
fn tell_written(rt: HostRuntime, text: &[u8], written: &[u8], rows: usize) -> io::Result<()> {
    let version = if written == text {
        ""
    } else if is_written_again(rt, written)? {
        ", written in version 2"
    } else {
        return rt.println("another text");
    };
    println!(rt; "ok {rows}{version}")
}

// Returns whether a record's text is written again as it is.
fn is_written_again(rt: HostRuntime, text: &[u8]) -> io::Result<bool> {
    match record_of(rt, text)? {
        Ok(record) => Ok(text_of(rt, &record).is_ok_and(|written| written.as_slice() == text)),
        Err(_) => Ok(false),
    }
}

// Returns the greedy plan for the given number of workers, where a number is given.
fn greedy_for(
    alloc: Global,
    rows: &Rows,
    workers: Option<Workers>,
    sharing: Sharing,
) -> Result<Option<Greedy>, AllocError>
    ensures whole { IfOk result (λ plan. IfSome plan IsWhole) }
    ensures few { IfOk result (λ plan. IfSome plan (λ p. length p.starts.items ≤ MOST_LINES)) }
{
    match workers {
        Some(workers) => Ok(Some(greedy(alloc, rows, workers, sharing)?)),
        None => Ok(None),
    }
}

// Writes the report on some rows.
fn tell_report(
    rt: HostRuntime,
    rows: &Rows,
    workers: Option<Workers>,
    sharing: Sharing,
) -> io::Result<()> {
    let found = profile(rt.alloc(), rows, sharing)?;
    let plan = greedy_for(rt.alloc(), rows, workers, sharing)?;
    let report = profile_text(rt.alloc(), &found, plan.as_ref())?;
    rt.stdout().write_all(&report)
}

// Writes the report on rows after an edit, or why the edit is refused.
fn tell_edit(
    rt: HostRuntime,
    rows: &Rows,
    row: u32,
    ticks: u32,
    sharing: Sharing,
) -> io::Result<()> {
    let mut question = WhatIf::new(rt.alloc(), rows, sharing)?;
    if let Err(fault) = question.edit(row, ticks) {
        return println!(rt; "{fault:?}");
    }
    let found = question.profile(rt.alloc())?;
    let report = profile_text(rt.alloc(), &found, None)?;
    rt.stdout().write_all(&report)
}

// Writes the sweep of rows, which may start threads.
fn tell_sweep(
    rt: HostRuntime,
    threads: &(impl Threads + Sync),
    rows: &Rows,
    sharing: Sharing,
) -> io::Result<()> {
    let question = WhatIf::new(rt.alloc(), rows, sharing)?;
    let spans = question.sweep(threads, rt.alloc())?;
    let lines = sweep_text(rt.alloc(), 0, &spans)?;
    rt.stdout().write_all(&lines)
}

// Writes what is wanted of the plans of a record's rows, or the line on a text that is none.
fn tell_plan(
    rt: HostRuntime,
    threads: &(impl Threads + Sync),
    text: &[u8],
    kind: Kind,
) -> io::Result<()> {
    let record = match record_of(rt, text)? {
        Ok(record) => record,
        Err(fault) => return rt.println(fault),
    };
    let (rows, sharing) = (record.rows(), kind.sharing);
    match kind.word {
        Word::Edit => tell_edit(rt, rows, kind.first, kind.second, sharing),
        Word::Sweep => tell_sweep(rt, threads, rows, sharing),
        _ => tell_report(rt, rows, Workers::new(kind.first), sharing),
    }
}

// Returns the workers that letters name.
fn choices_of(alloc: Global, letters: &[u8]) -> Result<Vec<u16>, AllocError> {
    let mut choices = Vec::with_capacity(alloc, letters.len())?;
    for letter in letters {
        choices.push(u16::from(letter.wrapping_sub(b'a')))?;
    }
    Ok(choices)
}

// Returns how a run is: its log, its steps, and the values of its cowns.
fn run_text<C: Chains + Drop>(alloc: Global, run: &Core<'_, C>) -> Result<Vec<u8>, AllocError> {
    let mut text = Vec::new(alloc);
    put_events(&mut text, &run.log())?;
    put_end(&mut text, run)?;
    Ok(text)
}

// Returns how a run is without its log.
fn end_text<C: Chains + Drop>(alloc: Global, run: &Core<'_, C>) -> Result<Vec<u8>, AllocError> {
    let mut text = Vec::new(alloc);
    put_end(&mut text, run)?;
    Ok(text)
}

// Adds the steps of a run, and the values of its cowns.
fn put_end<C: Chains + Drop>(text: &mut Vec<u8>, run: &Core<'_, C>) -> Result<(), AllocError> {
    text.extend_from_slice(b"steps ")?;
    put_number(text, run.steps())?;
    if !run.is_quiet() {
        text.extend_from_slice(b", not")?;
    } else {
        text.push(b',')?;
    }
    text.extend_from_slice(b" quiet\nvalues")?;
    for value in run.values() {
        text.push(b' ')?;
        put_signed(text, *value)?;
    }
    text.push(b'\n')?;
    Ok(())
}

// Writes why a drive ended before its last choice.
fn tell_drive_fault(rt: HostRuntime, fault: DriveFault) -> io::Result<()> {
    match fault {
        DriveFault::NoSuchWorker { place } => println!(rt; "NoSuchWorker at {place}"),
        DriveFault::Behaviours => rt.println("Behaviours"),
        DriveFault::Memory => rt.println("Memory"),
    }
}

// Writes what became of a drive over linked chains; and also of that over plain chains, where it is another. What memory
// was wanted for in one of both says nothing of the other.
fn tell_both(
    rt: HostRuntime,
    linked: Result<Vec<u8>, DriveFault>,
    plain: Result<Vec<u8>, DriveFault>,
) -> io::Result<()> {
    let wants_memory = linked == Err(DriveFault::Memory) || plain == Err(DriveFault::Memory);
    let are_the_same = wants_memory || linked == plain;
    tell_one(rt, linked)?;
    if are_the_same {
        return Ok(());
    }
    rt.println("but over plain chains:")?;
    tell_one(rt, plain)
}

// Writes what became of a drive.
fn tell_one(rt: HostRuntime, told: Result<Vec<u8>, DriveFault>) -> io::Result<()> {
    match told {
        Ok(text) => rt.stdout().write_all(&text),
        Err(fault) => tell_drive_fault(rt, fault),
    }
}

// Writes where a program's run is after these choices, or why there is no such run.
fn tell_drive(
    rt: HostRuntime,
    program: &CompiledProgram<'_>,
    workers: u32,
    choices: &[u16],
) -> io::Result<()> {
    let alloc = rt.alloc();
    let linked = drive(alloc, program, workers, choices).and_then(|run| Ok(run_text(alloc, &run)?));
    let plain = plain_text(alloc, program, workers, choices, false);
    tell_both(rt, linked, plain)
}

// Returns how a drive over plain chains is after these choices, or once it went on from there until it is quiet.
fn plain_text(
    alloc: Global,
    program: &CompiledProgram<'_>,
    workers: u32,
    choices: &[u16],
    until_quiet: bool,
) -> Result<Vec<u8>, DriveFault> {
    let chains = ListChains::new(alloc, cown_count(program.program()))?;
    if until_quiet {
        let run = drive_quiet_over(alloc, program, chains, workers, choices)?;
        Ok(end_text(alloc, &run)?)
    } else {
        let run = drive_over(alloc, program, chains, workers, choices)?;
        Ok(run_text(alloc, &run)?)
    }
}

// Writes who can step after these choices.
fn tell_mover(
    rt: HostRuntime,
    program: &CompiledProgram<'_>,
    workers: u32,
    choices: &[u16],
) -> io::Result<()> {
    match drive(rt.alloc(), program, workers, choices) {
        Ok(run) => match run.movable() {
            Some(mover) => println!(rt; "{mover:?}"),
            None => rt.println("nobody"),
        },
        Err(fault) => tell_drive_fault(rt, fault),
    }
}

// Writes where the run is once it went on from these choices until it is quiet.
fn tell_quiet(
    rt: HostRuntime,
    program: &CompiledProgram<'_>,
    workers: u32,
    choices: &[u16],
) -> io::Result<()> {
    let alloc = rt.alloc();
    let linked = drive_quiet(alloc, program, workers, choices).and_then(|run| Ok(end_text(
        alloc, &run,
    )?));
    let plain = plain_text(alloc, program, workers, choices, true);
    tell_both(rt, linked, plain)
}

// Writes what becomes of a program with the choices before it, as one kind of drive asks.
fn tell_driven(rt: HostRuntime, text: &[u8], workers: u32, until_quiet: bool) -> io::Result<()> {
    let Some((letters, text)) = first_line(text) else {
        return rt.println("no choices");
    };
    let choices = choices_of(rt.alloc(), letters)?;
    match read_program(rt.alloc(), text) {
        Ok(program) => tell_choices(rt, &program, workers, &choices, until_quiet),
        Err(fault) => rt.println(fault),
    }
}

// Writes what becomes of a program with these choices.
fn tell_choices(
    rt: HostRuntime,
    program: &Program,
    workers: u32,
    choices: &[u16],
    until_quiet: bool,
) -> io::Result<()> {
    let compiled = CompiledProgram::new(rt.alloc(), program)?;
    if until_quiet {
        tell_mover(rt, &compiled, workers, choices)?;
        tell_quiet(rt, &compiled, workers, choices)
    } else {
        tell_drive(rt, &compiled, workers, choices)
    }
}

// Returns the values in which a run ends.
fn values_text(alloc: Global, values: &[i64]) -> Result<Vec<u8>, AllocError> {
    let mut text = Vec::from_slice(alloc, b"a run of it, which ends in")?;
    if values.is_empty() {
        text.extend_from_slice(b" no value")?;
    }
    for value in values {
        text.push(b' ')?;
        put_signed(&mut text, *value)?;
    }
    text.push(b'\n')?;
    Ok(text)
}

// Writes whether the record after a program of the given number of bytes is that of a run of it.
fn tell_followed(rt: HostRuntime, text: &[u8], len: usize) -> io::Result<()> {
    if len > text.len() {
        return rt.println("no program");
    }
    let (text, behind) = text.split_at(len);
    let program = match read_program(rt.alloc(), text) {
        Ok(program) => program,
        Err(fault) => return rt.println(fault),
    };
    match record_of(rt, behind)? {
        Ok(record) => tell_run(rt, &program, &record),
        Err(fault) => rt.println(fault),
    }
}

// Writes whether a record is that of a run of a program.
fn tell_run(rt: HostRuntime, program: &Program, record: &Record) -> io::Result<()> {
    let compiled = CompiledProgram::new(rt.alloc(), program)?;
    match follow_record(rt.alloc(), &compiled, record, &mut Silent) {
        Ok(run) => {
            let values = values_text(rt.alloc(), run.values())?;
            rt.stdout().write_all(&values)
        }
        Err(fault) => rt.println(fault),
    }
}

// Writes what becomes of a text.
fn tell(
    rt: HostRuntime,
    threads: &(impl Threads + Sync),
    text: &[u8],
    kind: Kind,
) -> io::Result<()> {
    match kind.word {
        Word::Program => tell_program(rt, text),
        Word::Record => tell_record(rt, text),
        Word::Report | Word::Edit | Word::Sweep => tell_plan(rt, threads, text, kind),
        Word::Drive => tell_driven(rt, text, kind.first, false),
        Word::Quiet => tell_driven(rt, text, kind.first, true),
        Word::Follow => tell_followed(rt, text, kind.first as usize),
    }
}

fn main(rt: HostRuntime) -> io::Result<()> {
    let mut table = Vec::new(rt.alloc());
    rt.stdin().read_to_end(&mut table)?;
    let mut rest = table.as_slice();
    while let Some((kind, text, behind)) = first_text(rest) {
        tell(rt, &rt, text, kind)?;
        rest = behind;
    }
    Ok(())
}
