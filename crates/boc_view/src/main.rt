//! The program `boc-view`: pictures of a run, from a program or a record in a file or on standard input to standard output.
#![tactic(auto)]

ghost use Rattle.std.specs.Prelude.{◌<◌};

mod answer;
mod explaining;
mod found;
mod lines;
mod material;
mod page;
mod runs;
mod runs_words;
mod wanted;
mod words;

use crate::answer::{Shown, pictured};
use crate::explaining::explained;
use crate::wanted::Wanted;
use crate::words::{Asked, LEAST_COLUMNS, MOST_COLUMNS, read_words};
use boc_commands::{Fault, RunFile, Want};
use boc_explain::{Input, Kept};
use boc_front::{
    MOST_INPUT, Meter, STACK, Stop, Watch, ended, idle_note, printed_words, read_beside,
    words_given,
};
use boc_said::place::Beside;
use boc_text::{Counted, Source, put_out};
use std::alloc::AllocError;
use std::env;
use std::fs::File;
use std::io::{Read, Write};
use std::process::ExitCode;
use std::sync::Wait;
use std::thread::{Builder, Threads};

// How many columns a text has where nothing says so.
const COLUMNS: usize = 100;

// All work is done on one thread, whose stack is as large as it has to be wherever the program is started.
fn main(rt: HostRuntime) -> ExitCode {
    let working = Builder::new()
        .stack_size(STACK)
        .spawn(&rt, move || ended(rt, "boc-view", run(rt, &rt)));
    let status = match working {
        Ok(thread) => thread.join(&rt),
        Err(_) => ended(rt, "boc-view", Err(Stop::from(AllocError))),
    };
    ExitCode::from(status)
}

// Draws what the words ask for. What runs in several threads is started by way of `threads`.
fn run(rt: HostRuntime, threads: &(impl Threads + Wait + Sync)) -> Result<(), Stop> {
    let words = words_given(&rt)?;
    let asked = read_words(rt.alloc(), &words).or_else(|fault| words_stop(rt, &words, fault))?;
    let wanted = match asked {
        Asked::Told(text) => return put(rt, text.as_bytes()),
        Asked::Picture(wanted) => wanted,
    };
    match &wanted.input {
        Some(path) => match File::open(&rt, path.as_str()) {
            Ok(file) => draw(rt, threads, &wanted, file),
            Err(error) => Err(Stop::of_file(rt, path, error, None)),
        },
        None => draw(rt, threads, &wanted, rt.stdin()),
    }
}

// Returns why nothing is drawn where the words are refused. They are refused as they are printed, since the parser's text has words in it.
fn words_stop<T>(rt: HostRuntime, words: &[String], fault: Fault) -> Result<T, Stop> {
    let words = printed_words(rt.alloc(), words)?;
    let fault = read_words(rt.alloc(), &words).err().unwrap_or(fault);
    Err(Stop::from(fault))
}

// Writes a text to standard output.
fn put(rt: HostRuntime, text: &[u8]) -> Result<(), Stop> {
    let mut output = Counted::new(rt.stdout());
    match put_out(&mut output, text) {
        Ok(()) => Ok(()),
        Err(stopped) => Err(Stop::from(Fault::from(stopped))),
    }
}

// Draws the run that an input reports on.
fn draw<T: Read + Drop>(
    rt: HostRuntime,
    threads: &(impl Threads + Wait + Sync),
    wanted: &Wanted,
    input: T,
) -> Result<(), Stop> {
    let bytes = file_beside(rt, wanted)?;
    let mut beside = Kept::new(rt.alloc());
    beside.keep(&bytes);
    let mut input = Input::new(rt.alloc(), input.take(MOST_INPUT));
    let fault = match picture_of(rt, threads, wanted, bytes, &mut input) {
        Ok(Shown { text, note }) => {
            put(rt, &text)?;
            // A failure of this is ignored, as of the next.
            let _ = rt.stderr().write_all(&note);
            let Wanted {
                schedule,
                file,
                given,
                ..
            } = wanted;
            let note = idle_note(*schedule, file, *given, input.is_of_record());
            let _ = rt.stderr().write_all(note.as_bytes());
            return Ok(());
        }
        Err(fault) => fault,
    };
    let (input, error) = input.into_parts();
    if let (Fault::Means(Want::Source), Some(path), Some(error)) = (&fault, &wanted.input, error) {
        return Err(Stop::of_file(rt, path, error, None));
    }
    let more = explained(rt.alloc(), &fault, wanted, &input, &beside).ok();
    Err(Stop::Fault { fault, more })
}

// Returns the picture that is wanted, and shows how far that is while it is made.
fn picture_of<S: Source>(
    rt: HostRuntime,
    threads: &(impl Threads + Wait + Sync),
    wanted: &Wanted,
    beside: Vec<u8>,
    source: &mut S,
) -> Result<Shown, Fault>
    requires { S.failures source.old < u64.MAX }
{
    let width = columns(rt, wanted);
    let mut meter = Meter::new(rt);
    let watch = Watch::new(threads, Meter::new(rt));
    let made = pictured(
        threads,
        rt.alloc(),
        wanted,
        beside,
        width,
        &watch,
        &mut meter,
        source,
    );
    watch.wipe();
    meter.wipe();
    made
}

// Returns how many columns a text has: as many as the words say, or as the terminal has, which COLUMNS says.
fn columns(rt: HostRuntime, wanted: &Wanted) -> usize {
    if let Some(width) = wanted.width {
        return width as usize;
    }
    match env::var(&rt, "COLUMNS") {
        Ok(text) => match text.parse::<usize>() {
            Ok(width) => width.clamp(LEAST_COLUMNS as usize, MOST_COLUMNS as usize),
            Err(_) => COLUMNS,
        },
        Err(_) => COLUMNS,
    }
}

// Returns the bytes of the file given with the input, as many as can matter, and no bytes where none is named.
fn file_beside(rt: HostRuntime, wanted: &Wanted) -> Result<Vec<u8>, Stop> {
    let (path, kind) = match &wanted.file {
        None => return Ok(Vec::new(rt.alloc())),
        Some(RunFile::Record(path)) => (path, Beside::Record),
        Some(RunFile::Names(path)) => (path, Beside::Names),
    };
    read_beside(&rt, path, kind).map_err(|error| Stop::of_file(rt, path, error, None))
}
