//! The program `boc`: commands over programs of behaviours, from standard input to standard output.
#![tactic(auto)]

mod explaining;

use crate::explaining::{
    Texts, after_of, beside_of, explained, explained_words, names_of, schedule_of,
};
use boc_commands::{
    Command, Fault, MOST_STREAM_NAMES, Pair, RunFile, Want, WhatIfFile, Which, WordsFault,
    file_named, read_words, run_command,
};
use boc_explain::{Input, Kept};
use boc_front::{
    Given, MOST_INPUT, Meter, Output, STACK, Stop, Watch, ended, idle_file_note, idle_note,
    idle_note_beside, printed_words, read_beside, read_second, read_up_to, words_given,
};
use boc_input::Ahead;
use boc_said::place::Beside as Place;
use boc_text::{Counted, put_out};
use std::alloc::AllocError;
use std::fs::File;
use std::io::{self, Read, Write};
use std::process::ExitCode;
use std::sync::Wait;
use std::thread::{Builder, Threads};

// All work is done on one thread, whose stack is as large as it has to be wherever the program is started.
fn main(rt: HostRuntime) -> ExitCode {
    let working = Builder::new()
        .stack_size(STACK)
        .spawn(&rt, move || ended(rt, "boc", run(rt, &rt)));
    let status = match working {
        Ok(thread) => thread.join(&rt),
        Err(_) => ended(rt, "boc", Err(Stop::from(AllocError))),
    };
    ExitCode::from(status)
}

// Does what the words ask for. What runs in several threads is started by way of `threads`.
fn run(rt: HostRuntime, threads: &(impl Threads + Wait + Sync)) -> Result<(), Stop> {
    let words = words_given(&rt)?;
    let line = read_words(rt.alloc(), &words).or_else(|fault| words_stop(rt, &words, fault))?;
    let given = Given::among(&words);
    let beside = file_beside(rt, &line.command)?;
    let files = Beside {
        pair: pair_beside(rt, &line.command)?,
        file: beside,
    };
    match &line.input {
        Some(path) if path.as_str() != "-" => match File::open(&rt, path.as_str()) {
            Ok(file) => answer(rt, threads, &line.command, given, files, file, Some(path)),
            Err(error) => file_stop(rt, path, error, Some(&line.command)),
        },
        _ => answer(rt, threads, &line.command, given, files, rt.stdin(), None),
    }
}

// What a command reads next to its input.
#[derive(Drop)]
struct Beside {
    // The bytes of the file that it names.
    file: Vec<u8>,
    // What it compares its input with.
    pair: Pair,
}

// What is kept of that for who explains a fault in it.
#[derive(Drop)]
struct KeptBeside {
    file: Kept,
    after: Kept,
    before_names: Kept,
    after_names: Kept,
}

impl KeptBeside {
    // Keeps what a command reads next to its input.
    fn of(rt: HostRuntime, beside: &Beside) -> KeptBeside {
        KeptBeside {
            file: kept(rt, &beside.file),
            after: kept(rt, &beside.pair.after),
            before_names: kept(rt, &beside.pair.before_names),
            after_names: kept(rt, &beside.pair.after_names),
        }
    }

    // Returns what a command read, where a fault is in this one of the inputs that it compares, if it compares any.
    fn texts(self, command: &Command, which: Which, input: Kept) -> Texts {
        let KeptBeside {
            file,
            after,
            before_names,
            after_names,
        } = self;
        let (input, beside) = match (after_of(command), which) {
            (None, _) => (input, file),
            (Some(_), Which::Before) => (input, before_names),
            (Some(_), Which::After) => (after, after_names),
        };
        Texts {
            which,
            input,
            beside,
        }
    }
}

// Keeps bytes.
fn kept(rt: HostRuntime, bytes: &[u8]) -> Kept {
    let mut kept = Kept::new(rt.alloc());
    kept.keep(bytes);
    kept
}

// Answers an input, which a file with this path gives if there is one, and else standard input.
fn answer<T: Read + Drop>(
    rt: HostRuntime,
    threads: &(impl Threads + Wait + Sync),
    command: &Command,
    given: Given,
    beside: Beside,
    input: T,
    path: Option<&String>,
) -> Result<(), Stop> {
    let kept = KeptBeside::of(rt, &beside);
    let mut which = Which::Before;
    let input = Input::new(rt.alloc(), input.take(most_of(command)));
    let mut input = Ahead::new(rt.alloc(), input);
    let out_names = out_names_of(command);
    let mut output = Output::new(rt.alloc(), rt.stdout(), out_names.is_some());
    let mut meter = Meter::new(rt);
    let watch = Watch::new(threads, Meter::new(rt));
    let mut notes = Vec::new(rt.alloc());
    let mut names = Vec::new(rt.alloc());
    let done = run_command(
        threads,
        rt.alloc(),
        &watch,
        command,
        beside.file,
        beside.pair,
        &mut meter,
        &mut notes,
        &mut names,
        &mut which,
        &mut input,
        &mut output,
    );
    watch.wipe();
    meter.wipe();
    let Err(fault) = done else {
        put_held(rt, out_names, &names, output)?;
        note(rt, &notes);
        let is_record = input.inner().is_of_record() && is_of_record_too(command, &kept);
        note(rt, note_of(command, given, is_record).as_bytes());
        note(rt, file_note_of(command, is_record).as_bytes());
        return Ok(());
    };
    let (input, error) = input.into_inner().into_parts();
    if let (Fault::Means(Want::Source), Some(path), Some(error)) = (&fault, path, error) {
        return file_stop(rt, path, error, Some(command));
    }
    let texts = kept.texts(command, which, input);
    let path = path_of(command, which, path);
    let more = explained(rt.alloc(), &fault, command, path, &texts).ok();
    Err(Stop::Fault { fault, more })
}

// Returns how many bytes of an input a command may read. Those of a stream have no bound; it is read as it comes.
fn most_of(command: &Command) -> u64 {
    match command {
        Command::Cut { .. } | Command::Tiles(_) => u64::MAX,
        _ => MOST_INPUT,
    }
}

// Returns the path of the file that the names of a window are written to, if there is one.
fn out_names_of(command: &Command) -> Option<&String> {
    match command {
        Command::Cut {
            names: Some(files),
            ..
        } => Some(&files.out_names),
        _ => None,
    }
}

// Writes the names of a window to the file with this path, if there is one, and then what was held back of the answer.
fn put_held<T: Write + Drop>(
    rt: HostRuntime,
    path: Option<&String>,
    names: &[u8],
    output: Output<T>,
) -> Result<(), Stop> {
    let Some(path) = path else {
        return Ok(());
    };
    let (inner, held) = output.into_parts();
    let Some(held) = held else {
        return Ok(());
    };
    if let Err(error) = written(&rt, path, names) {
        return file_stop(rt, path, error, None);
    }
    let mut counted = Counted::new(inner);
    match put_out(&mut counted, &held) {
        Ok(()) => Ok(()),
        Err(stopped) => Err(Stop::from(Fault::from(stopped))),
    }
}

// Writes bytes to the file with this path, and replaces what is there.
fn written(rt: &HostRuntime, path: &str, bytes: &[u8]) -> io::Result<()> {
    let mut file = File::create(rt, path)?;
    file.write_all(bytes)?;
    file.flush()
}

// Returns the path of the input that a fault is in, if it comes from a file.
fn path_of<'a>(command: &'a Command, which: Which, path: Option<&'a String>) -> Option<&'a String> {
    match (after_of(command), which) {
        (Some(after), Which::After) if after.as_str() == "-" => None,
        (Some(after), Which::After) => Some(after),
        _ => path,
    }
}

// Returns whether the input that a command compares its input with is a record too, if it compares two.
fn is_of_record_too(command: &Command, kept: &KeptBeside) -> bool {
    after_of(command).is_none() || kept.after.as_slice().starts_with(b"boc")
}

// Returns the note on words that say how a program is run, and nothing of what the command did; no text where there is nothing to note.
fn note_of(command: &Command, given: Given, is_record: bool) -> &'static str {
    match command {
        Command::Run {
            schedule,
            quiet: false,
        }
        | Command::Time {
            schedule,
            quiet: false,
            ..
        } => idle_note(*schedule, &None, given, false),
        Command::Profile { asked, record } if !asked.quiet => {
            idle_note_beside(asked.schedule, record.is_some(), given, is_record)
        }
        Command::WhatIf { schedule, file, .. } => {
            let is_beside = matches!(file, Some(WhatIfFile::Record(_)));
            idle_note_beside(*schedule, is_beside, given, is_record)
        }
        Command::Curve { asked, record } => {
            idle_note_beside(asked.schedule, record.is_some(), given, is_record)
        }
        Command::Sweep { asked, file } => idle_note(asked.schedule, file, given, is_record),
        Command::Why { asked, file } if !asked.quiet => {
            idle_note(asked.schedule, file, given, is_record)
        }
        Command::Cowns { asked, file } if !asked.quiet => {
            idle_note(asked.schedule, file, given, is_record)
        }
        Command::Compare { asked, .. } if !asked.quiet => {
            idle_note(asked.schedule, &None, given, is_record)
        }
        Command::WhyRuns(asked) | Command::CompareRuns { asked, .. } if !asked.quiet => {
            idle_note(schedule_of(asked.draws), &None, given, false)
        }
        Command::Outcomes(draws) => idle_note(schedule_of(*draws), &None, given, false),
        _ => "",
    }
}

// Returns the note on a file given with an input that has no use for it; no text where there is nothing to note.
fn file_note_of(command: &Command, is_record: bool) -> &'static str {
    match command {
        Command::Profile {
            asked,
            record: Some(_),
        } if !asked.quiet => idle_file_note(true, is_record),
        Command::WhatIf {
            file: Some(WhatIfFile::Record(_)),
            ..
        }
        | Command::Curve {
            record: Some(_),
            ..
        }
        | Command::Sweep {
            file: Some(RunFile::Record(_)),
            ..
        } => idle_file_note(true, is_record),
        Command::WhatIf {
            file: Some(WhatIfFile::Program(_)),
            ..
        } => idle_file_note(false, is_record),
        _ => "",
    }
}

// Writes notes, as those on behaviours that ended by a fault, to standard error. A failure of this is ignored.
fn note(rt: HostRuntime, notes: &[u8]) {
    let _ = rt.stderr().write_all(notes);
}

// Returns the bytes of the file that a command names with its input, as many as can matter, and no bytes where it names none.
fn file_beside(rt: HostRuntime, command: &Command) -> Result<Vec<u8>, Stop> {
    let read = match (file_named(command), beside_of(command)) {
        (Some(path), Some(_)) if out_names_of(command).is_some() => {
            (path, read_up_to(&rt, path, MOST_STREAM_NAMES as u64 + 1))
        }
        (Some(path), Some(kind)) => (path, read_beside(&rt, path, kind)),
        _ => return Ok(Vec::new(rt.alloc())),
    };
    let (path, bytes) = read;
    bytes.or_else(|error| file_stop(rt, path, error, None))
}

// Returns the bytes of what a command compares its input with, as many as can matter, and no bytes where it compares nothing.
fn pair_beside(rt: HostRuntime, command: &Command) -> Result<Pair, Stop> {
    let mut pair = Pair::none(rt.alloc());
    if let Some(path) = after_of(command) {
        pair.after = read_second(rt, path).or_else(|error| file_stop(rt, path, error, None))?;
    }
    if let Some(path) = names_of(command, Which::Before) {
        pair.before_names = names_beside(rt, path)?;
    }
    if let Some(path) = names_of(command, Which::After) {
        pair.after_names = names_beside(rt, path)?;
    }
    Ok(pair)
}

// Returns the bytes of a file of names, as many as can matter.
fn names_beside(rt: HostRuntime, path: &str) -> Result<Vec<u8>, Stop> {
    read_beside(&rt, path, Place::Names).or_else(|error| file_stop(rt, path, error, None))
}

// Returns why not all was done where the words are refused. They are refused as they are printed, since the parser's text has words in it.
fn words_stop<T>(rt: HostRuntime, words: &[String], fault: WordsFault) -> Result<T, Stop> {
    let words = printed_words(rt.alloc(), words)?;
    let fault = Fault::from(read_words(rt.alloc(), &words).err().unwrap_or(fault));
    let more = explained_words(rt.alloc(), &words, &fault).ok();
    Err(Stop::Fault { fault, more })
}

// What is reported of a file that isn't there, where its word may have been meant as an edit.
const WHICH_FILE: &str =
    "     a word with neither = nor @ is the FILE with the input; an edit is ROW=TICKS, ROW@OFFSET, ROW=K/D or DEF=K/D";

// Returns why a file with this path can't be read: that with the input of a command, if one is given.
fn file_stop<T>(
    rt: HostRuntime,
    path: &str,
    error: io::Error,
    reader: Option<&Command>,
) -> Result<T, Stop> {
    let more = match reader {
        Some(Command::WhatIf { .. }) if error.kind() == io::ErrorKind::NotFound => Some(WHICH_FILE),
        _ => None,
    };
    Err(Stop::of_file(rt, path, error, more))
}
