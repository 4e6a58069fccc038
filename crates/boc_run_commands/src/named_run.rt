// The run that a command reports on, and what its rows and cowns are called.

ghost use Rattle.std.specs.Prelude.{◌≡◌, ◌<◌, ◌≤◌, IfErr, IfOk, None, length, map, MatchResult};
ghost use Rattle.boc_program.specs.declared.limits.TheConstants.{MOST_TEXT};
ghost use Rattle.boc_runs.specs.Records.{IsRecordOf};
ghost use Rattle.boc_runs.specs.Run.{config_of};
ghost use Rattle.boc_eval.specs.Instances.{AreRight};
ghost use Rattle.boc_names.specs.Names.{AreNamesOf};
ghost use Rattle.boc_reader.specs.Listed.{ListsDefs};
ghost use Rattle.boc_reader.specs.Spells.{Spells};
ghost use Rattle.boc_run_commands.specs.Beside.{IsOfProgramFile, RefusesAgainst};
ghost use Rattle.boc_run_commands.specs.Faults.{gone_of};
ghost use Rattle.boc_run_commands.specs.Commands.{CountsSource, IsOfRun, RefusesRecord};
ghost use Rattle.boc_run_commands.specs.NamedRuns.{HasRun, IsCounted, IsNamedRun, IsOfGiven, IsOfNamedRun, IsOfOwn, IsOfRecord, IsOfRenamed, IsOwnRun};
ghost use Rattle.boc_run_commands.specs.NamedRuns.{AreFew, AreRenamed, IsRecordNumbered, IsRefusedName, IsRenamed, IsRunGiven, IsScheduledRun, IsShort};
ghost use Rattle.boc_run_commands.specs.NamedRuns.{IsTaken};
ghost use Rattle.boc_run_commands.specs.NamedRuns.{HasOwnTimes, HasTimes, ReadsNamed, ReadsRun, RefusesNamedRecord, RefusesRenamed};
ghost use Rattle.boc_run_commands.specs.NamedRuns.{of_names_file, of_record_in_memory};
ghost use Rattle.boc_run_commands.specs.Schedules.{AreTimesText};
ghost use Rattle.boc_follow.specs.Strays.{Tells};
ghost use Rattle.boc_text.specs.Streams.{CountsDevice};

use crate::beside::{of_read_beside, of_stray_beside, record_beside};
use crate::fault::{Fault, FileFault, InputFault, Want};
use crate::run::{MadeRun, made_run};
use crate::values::MOST_TAKEN;
use boc_busy::TimedRows;
use boc_dispatch::{Tell, rows_in_order};
use boc_follow::{StrayFault, StrayFaultKind, follow_record};
use boc_names::{Names, NamesFault, NamesFaultKind, names_of_run, numbers_as_names, read_names};
use boc_program::program::Program;
use boc_program::text::Name;
use boc_progress::Progress;
use boc_reader::{DefListing, read_listed};
use boc_record::{RecordFault, RecordFaultKind, read_counted, read_record};
use boc_registers::compiled::CompiledProgram;
use boc_runs::record::Record;
use boc_runs::rows::Rows;
use boc_text::{Bytes, Source, TextFault, read_all};
use boc_words::{RunFile, Schedule, WhatIfFile};
use boc_workers::Gate;
use std::alloc::{AllocError, Global};
use std::sync::Wait;
use std::thread::Threads;

/// The word that the text of a record begins with. No program does.
pub const RECORD_WORD: &[u8] = b"boc";

/// The rows of a run, what they and their cowns are called, and when they ran, where ticks are time.
#[derive(Drop)]
pub struct NamedRun {
    pub rows: Rows,
    pub names: Names,
    pub times: Option<TimedRows>,
}

/// Where a run comes from, next to the input.
#[derive(Drop)]
pub struct Origin<'a> {
    /// How a program is run.
    pub schedule: Schedule,
    /// Which file is next to the input.
    pub file: &'a Option<RunFile>,
    /// The bytes of that file; none where there is no file.
    pub bytes: Vec<u8>,
}

/// The input as far as it is wanted: to its end where it begins as the text of a record does, and else as much as is taken of a program text.
pub fn taken<S: Source>(alloc: Global, source: &mut S) -> Result<Vec<u8>, TextFault>
    requires { S.failures source.old < u64.MAX }
    ensures text { IfOk result (λ text. IsTaken (S.remaining source.old) (S.remaining source.new) text.items) }
    ensures failures { CountsDevice result (S.failures source.old) (S.failures source.new) }
{
    let mut text = read_all(alloc, source, MOST_TAKEN)?;
    // Less than was asked for is all that there is, and a terminal is not asked again.
    if text.len() == MOST_TAKEN && text.starts_with(RECORD_WORD) {
        let rest = read_all(alloc, source, usize::MAX)?;
        text.extend_from_slice(&rest)?;
    }
    Ok(text)
}

/// Returns the run that an input has, with what its rows and cowns are called: of the program that it spells, or the one that its record is of. The file next
/// to it, if there is one, has the record of a run of the program, or names of rows and cowns.
pub fn named_run<R: Threads + Wait + Sync, G: Gate>(
    rt: &R,
    alloc: Global,
    text: Vec<u8>,
    origin: Origin<'_>,
    gate: &G,
    progress: &mut dyn Progress,
) -> Result<NamedRun, Fault>
    ensures { MatchResult result
        (λ run. HasRun (IsNamedRun origin.entry.schedule origin.entry.file.now origin.entry.bytes.items text.items) run × IsShort text.items
        × HasTimes origin.entry.schedule origin.entry.file.now text.items run.rows run.times)
        (IsOfNamedRun G.always_on origin.entry.schedule origin.entry.file.now origin.entry.bytes.items text.items) }
{
    let Origin {
        schedule,
        file,
        bytes,
    } = origin;
    let Some(file) = file else {
        return own_run(rt, alloc, text, schedule, gate, progress);
    };
    match file {
        RunFile::Record(_) => given_run(alloc, &text, bytes, progress),
        RunFile::Names(_) => {
            let own = own_run(rt, alloc, text, schedule, gate, progress)?;
            renamed(alloc, own, &bytes)
        }
    }
}

// The run of the program that a text spells, or the one that its record is of, as its first word says.
fn own_run<R: Threads + Wait + Sync, G: Gate>(
    rt: &R,
    alloc: Global,
    text: Vec<u8>,
    schedule: Schedule,
    gate: &G,
    progress: &mut dyn Progress,
) -> Result<NamedRun, Fault>
    ensures { MatchResult result
        (λ run. HasRun (IsOwnRun schedule text.items) run × IsShort text.items × HasOwnTimes schedule text.items run.rows run.times)
        (IsOfOwn G.always_on schedule text.items) }
{
    if text.starts_with(RECORD_WORD) {
        record_run(alloc, text)
    } else {
        program_run(rt, alloc, &text, schedule, gate, progress)
    }
}

// The run that the text of a record is of, whose rows and cowns are called by their numbers.
fn record_run(alloc: Global, text: Vec<u8>) -> Result<NamedRun, Fault>
    ensures { MatchResult result (λ run. HasRun (IsRecordNumbered text.items) run × (run.times ≡ None)) (IsOfRecord text.items) }
{
    let (rows, cowns) = counted(alloc, text)?;
    let names = numbers_as_names(alloc, rows.as_slice().len() as u32, cowns)?;
    Ok(NamedRun {
        rows,
        names,
        times: None,
    })
}

// The rows and the number of cowns of the record whose text this is.
fn counted(alloc: Global, text: Vec<u8>) -> Result<(Rows, u32), Fault>
    ensures { MatchResult result (λ read. IsCounted text.items read.0 read.1) (IsOfRecord text.items) }
{
    match read_counted(alloc, &mut Bytes::new(text)) {
        Ok(read) => Ok(read),
        Err(fault) => Err(of_record_in_memory(fault)),
    }
}

// The fault of a record that is read from memory, which no device fails to give.
fn of_record_in_memory(fault: RecordFault) -> Fault
    ensures { result ≡ of_record_in_memory fault fault.kind }
{
    match fault.kind {
        RecordFaultKind::Memory | RecordFaultKind::Device => Fault::Means(Want::Memory),
        _ => Fault::Input(InputFault::Record(fault)),
    }
}

/// A run by this schedule of the program that a text spells, whose rows and cowns are called as they are in the text.
pub fn program_run<R: Threads + Wait + Sync, G: Gate>(
    rt: &R,
    alloc: Global,
    text: &[u8],
    schedule: Schedule,
    gate: &G,
    progress: &mut dyn Progress,
) -> Result<NamedRun, Fault>
    ensures { MatchResult result
        (λ named. HasRun (IsScheduledRun schedule text.now) named × (length text.now ≤ MOST_TEXT) × AreTimesText text.now schedule named.rows named.times)
        (IsOfRun G.always_on schedule text.now) }
{
    let (program, defs) = read_listed(alloc, text)?;
    let run = made_run(rt, alloc, &program, schedule, Tell::All, gate, progress)?;
    let defs = called(alloc, defs)?;
    let names = told_names(alloc, &program, &defs, &run, progress)?;
    let MadeRun { record, times, .. } = run;
    let rows = record.into_rows();
    // For the proof alone, and free: that they have the shape of rows.
    let _shape = rows.as_slice();
    Ok(NamedRun { rows, names, times })
}

// Returns the names of a run of a program, where the program's defs are called so, by what the run says of its rows. If a row is missing there, which no run of
// all rows leaves out, the run is followed once more.
fn told_names(
    alloc: Global,
    program: &Program,
    defs: &[Name],
    run: &MadeRun,
    progress: &mut dyn Progress,
) -> Result<Names, AllocError>
    requires run { IsRecordOf program.now run.now.record }
    requires told { AreRight (config_of program.now run.now.record.events).members run.now.told.items }
    ensures { IfOk result (AreNamesOf program.now defs.now (config_of program.now run.now.record.events).members) }
{
    let count = run.record.rows().as_slice().len();
    match rows_in_order(alloc, &run.told, count)? {
        Some(rows) => names_of_run(alloc, program, defs, &rows),
        None => names_of(alloc, program, defs, &run.record, progress),
    }
}

/// Returns the names of the run of a program that a record is of, where the program's defs are called so.
pub(crate) fn names_of(
    alloc: Global,
    program: &Program,
    defs: &[Name],
    recorded: &Record,
    progress: &mut dyn Progress,
) -> Result<Names, AllocError>
    requires { IsRecordOf program.now recorded.now }
    ensures { IfOk result (AreNamesOf program.now defs.now (config_of program.now recorded.now.events).members) }
{
    match names_by(alloc, program, defs, recorded, progress) {
        Ok(names) => Ok(names),
        Err(StrayFault { kind, .. }) => match kind {
            StrayFaultKind::Memory => Err(AllocError),
            _ => unreachable!(),
        },
    }
}

// The names of the run of a program that a record is of, where the program's defs are called so, or how it diverges.
fn names_by(
    alloc: Global,
    program: &Program,
    defs: &[Name],
    recorded: &Record,
    progress: &mut dyn Progress,
) -> Result<Names, StrayFault>
    ensures { MatchResult result
        (λ names. IsRecordOf program.now recorded.now × AreNamesOf program.now defs.now (config_of program.now recorded.now.events).members names)
        (λ fault. Tells program.now recorded.now fault.kind fault.line) }
{
    let compiled = CompiledProgram::new(alloc, program)?;
    let followed = follow_record(alloc, &compiled, recorded, progress)?;
    let rows = followed.instances(alloc)?;
    Ok(names_of_run(alloc, program, defs, &rows)?)
}

// The names of the run of a program with these defs that a record is of, or how it diverges.
fn followed_names(
    alloc: Global,
    program: &Program,
    defs: Vec<DefListing>,
    recorded: &Record,
    progress: &mut dyn Progress,
) -> Result<Names, StrayFault>
    ensures { MatchResult result
        (λ names. IsRecordOf program.now recorded.now
        × AreNamesOf program.now (map (λ d. d.name) defs.items) (config_of program.now recorded.now.events).members names)
        (λ fault. Tells program.now recorded.now fault.kind fault.line) }
{
    let defs = called(alloc, defs)?;
    names_by(alloc, program, &defs, recorded, progress)
}

/// What defs are called.
pub(crate) fn called(alloc: Global, defs: Vec<DefListing>) -> Result<Vec<Name>, AllocError>
    ensures { IfOk result (λ names. names.items ≡ map (λ d. d.name) defs.items) }
{
    let mut names = Vec::new(alloc);
    for def in defs {
        names.push(def.name)?;
    }
    Ok(names)
}

/// The run of the program that a text spells whose record a file has.
pub fn given_run(
    alloc: Global,
    text: &[u8],
    bytes: Vec<u8>,
    progress: &mut dyn Progress,
) -> Result<NamedRun, Fault>
    ensures { MatchResult result
        (λ run. HasRun (IsRunGiven text.now bytes.items) run × (length text.now ≤ MOST_TEXT) × (run.times ≡ None))
        (IsOfGiven text.now bytes.items) }
{
    let (program, defs) = read_listed(alloc, text)?;
    let recorded = record_beside(alloc, bytes)?;
    let names = match followed_names(alloc, &program, defs, &recorded, progress) {
        Ok(names) => names,
        Err(fault) => return Err(of_stray_beside(fault)),
    };
    let rows = recorded.into_rows();
    // For the proof alone, and free: that they have the shape of rows.
    let _shape = rows.as_slice();
    Ok(NamedRun {
        rows,
        names,
        times: None,
    })
}

/// The same run, with the names that a file gives to its rows and cowns laid over those that they have.
pub fn renamed(alloc: Global, run: NamedRun, file: &[u8]) -> Result<NamedRun, Fault>
    requires { AreFew run.rows run.names }
    ensures renamed { MatchResult result (IsRenamed file.now run) (IsRefusedName file.now run.names) }
    ensures kept { IfErr result (λ fault. gone_of fault ≡ None) }
{
    let NamedRun { rows, names, times } = run;
    match read_names(alloc, file, names) {
        Ok(names) => Ok(NamedRun { rows, names, times }),
        Err(fault) => Err(of_names_file(fault)),
    }
}

// The fault of a file of names.
fn of_names_file(fault: NamesFault) -> Fault
    ensures { result ≡ of_names_file fault fault.kind }
{
    match fault.kind {
        NamesFaultKind::Memory => Fault::Means(Want::Memory),
        _ => Fault::Input(InputFault::Beside(FileFault::Names(fault))),
    }
}

/// The record whose text a source gives, with what its rows and cowns are called: in the program in a file next to it, by the names in one, or else by their
/// numbers.
pub fn named_record<S: Source>(
    alloc: Global,
    source: &mut S,
    file: &Option<WhatIfFile>,
    bytes: &[u8],
    progress: &mut dyn Progress,
) -> Result<NamedRun, Fault>
    requires { S.failures source.old < u64.MAX }
    ensures read { ReadsNamed file.now bytes.now result (S.remaining source.old) (S.remaining source.new) }
    ensures refused { RefusesNamedRecord file.now bytes.now result (S.remaining source.old) }
    ensures source { CountsSource result (S.failures source.old) (S.failures source.new) }
    ensures kept { IfErr result (λ fault. gone_of fault ≡ None) }
{
    let Some(file) = file else {
        return numbered_record(alloc, source);
    };
    match file {
        WhatIfFile::Program(_) => followed_record(alloc, source, bytes, progress),
        WhatIfFile::Record(_) => numbered_record(alloc, source),
        WhatIfFile::Names(_) => renamed_record(alloc, source, bytes),
    }
}

/// The record whose text a source gives, with the names that a file gives to its rows and cowns laid over their numbers.
pub fn renamed_record<S: Source>(
    alloc: Global,
    source: &mut S,
    bytes: &[u8],
) -> Result<NamedRun, Fault>
    requires { S.failures source.old < u64.MAX }
    ensures read { ReadsRun (λ input recorded names. AreRenamed (λ base. IsRecordNumbered input recorded base) bytes.now names) result
        (S.remaining source.old) (S.remaining source.new) }
    ensures refused { RefusesRenamed bytes.now result (S.remaining source.old) }
    ensures source { CountsSource result (S.failures source.old) (S.failures source.new) }
    ensures kept { IfErr result (λ fault. gone_of fault ≡ None) }
{
    let numbered = numbered_record(alloc, source)?;
    renamed(alloc, numbered, bytes)
}

// The record whose text a source gives, whose rows and cowns are called by their numbers.
fn numbered_record<S: Source>(alloc: Global, source: &mut S) -> Result<NamedRun, Fault>
    requires { S.failures source.old < u64.MAX }
    ensures read { ReadsRun IsRecordNumbered result (S.remaining source.old) (S.remaining source.new) }
    ensures refused { RefusesRecord result (S.remaining source.old) }
    ensures source { CountsSource result (S.failures source.old) (S.failures source.new) }
    ensures kept { IfErr result (λ fault. gone_of fault ≡ None) }
{
    let (rows, cowns) = read_counted(alloc, source)?;
    let names = numbers_as_names(alloc, rows.as_slice().len() as u32, cowns)?;
    Ok(NamedRun {
        rows,
        names,
        times: None,
    })
}

// The record whose text a source gives, of a run of the program that a file spells, whose rows and cowns are called as they are in the program's text.
fn followed_record<S: Source>(
    alloc: Global,
    source: &mut S,
    text: &[u8],
    progress: &mut dyn Progress,
) -> Result<NamedRun, Fault>
    requires { S.failures source.old < u64.MAX }
    ensures read { ReadsRun (IsRunGiven text.now) result (S.remaining source.old) (S.remaining source.new) }
    ensures refused { RefusesAgainst text.now result (S.remaining source.old) }
    ensures source { CountsSource result (S.failures source.old) (S.failures source.new) }
    ensures kept { IfErr result (λ fault. gone_of fault ≡ None) }
{
    let (program, defs) = listed_beside(alloc, text)?;
    let recorded = read_record(alloc, source)?;
    let names = followed_names(alloc, &program, defs, &recorded, progress)?;
    let rows = recorded.into_rows();
    // For the proof alone, and free: that they have the shape of rows.
    let _shape = rows.as_slice();
    Ok(NamedRun {
        rows,
        names,
        times: None,
    })
}

// The program that a file spells, and its defs.
fn listed_beside(alloc: Global, text: &[u8]) -> Result<(Program, Vec<DefListing>), Fault>
    ensures listed { MatchResult result (λ read. Spells text.now read.0 × ListsDefs text.now read.1.items) (IsOfProgramFile text.now) }
    ensures kept { IfErr result (λ fault. gone_of fault ≡ None) }
{
    match read_listed(alloc, text) {
        Ok(read) => Ok(read),
        Err(fault) => Err(of_read_beside(fault)),
    }
}
