// The page of a run.

use crate::found::Found;
use crate::material::Material;
use crate::runs::drawn_runs;
use crate::wanted::Wanted;
use boc_advice_report::{ForWorkers, put_other_order};
use boc_commands::{RunFile, Schedule};
use boc_cowns_report::{put_shared, put_verdict};
use boc_greedy::{CurvePoint, Greedy};
use boc_page::{Block, data_block, defs_of};
use boc_pictures::{Page, Sentences, page_text, plan_text};
use boc_text::put_number;
use boc_why_report::{put_least, workers_word};
use std::alloc::{AllocError, Global};

// How many columns the plan in text has.
const COLUMNS: usize = 100;

// What is before a note on a run, where it is printed.
const NOTE: &[u8] = b"boc: note: ";

// What is said of rows with typical ticks. The page's script looks for it.
const TYPICAL: &[u8] = b"typical ticks";

/// Returns the page of a run.
pub(crate) fn page_of(
    alloc: Global,
    wanted: &Wanted,
    material: &Material,
) -> Result<Vec<u8>, AllocError> {
    match (&material.found, &material.greedy, &material.points) {
        (Some(found), Some(greedy), Some(points)) => {
            made(alloc, wanted, material, found, greedy, points)
        }
        _ => Ok(Vec::new(alloc)),
    }
}

// Returns the page that has these parts.
fn made(
    alloc: Global,
    wanted: &Wanted,
    material: &Material,
    found: &Found,
    greedy: &Greedy,
    points: &[CurvePoint],
) -> Result<Vec<u8>, AllocError> {
    let subject = &material.subject;
    let names = &subject.names;
    let defs = defs_of(alloc, names)?;
    let run = run_and_names(alloc, wanted)?;
    let sentences = sentences(alloc, material, found, greedy)?;
    let program = material.program.as_slice();
    let block = Block {
        title: title_of(wanted),
        run: &run,
        sharing: subject.sharing,
        rows: subject.rows.as_slice(),
        names,
        defs: &defs,
        profile: &found.advised.why.profile,
        greedy,
        curve: points,
        candidates: &found.advised.advice.candidates,
        hot: &found.hot,
        least: sentences.least.trim_ascii(),
        verdict: sentences.cowns.trim_ascii(),
        reads: sentences.reads.trim_ascii(),
        source: if program.is_empty() {
            None
        } else {
            Some(program)
        },
        lines: &material.lines,
    };
    let data = data_block(alloc, &block)?;
    let plan = plan_text(alloc, subject, COLUMNS)?;
    let word = end_word(alloc, greedy.p)?;
    let page = Page {
        subject,
        title: block.title,
        run: &run,
        defs: &defs,
        found: &found.advised,
        greedy,
        points,
        judged: &found.judged,
        sentences: &sentences,
        chain: &found.chain,
        plan: &plan,
        program,
        lines: &material.lines,
        runs: drawn_runs(&material.runs, &word, greedy.ends_at),
        data: &data,
    };
    page_text(alloc, &page)
}

// Returns what the ends of runs are called by which they are judged for these workers.
fn end_word(alloc: Global, workers: u32) -> Result<Vec<u8>, AllocError> {
    let mut text = Vec::from_slice(alloc, b"end for ")?;
    put_workers(&mut text, workers)?;
    Ok(text)
}

// Returns what boc says of a run, a line each.
fn sentences(
    alloc: Global,
    material: &Material,
    found: &Found,
    greedy: &Greedy,
) -> Result<Sentences, AllocError> {
    let subject = &material.subject;
    let names = &subject.names;
    let mut said = Sentences {
        workers: Vec::new(alloc),
        cowns: Vec::new(alloc),
        least: Vec::new(alloc),
        order: Vec::new(alloc),
        reads: Vec::new(alloc),
        timed: timed_text(alloc, material)?,
    };
    let workers = ForWorkers {
        p: greedy.p,
        work: subject.work,
        span: subject.span,
        end: greedy.ends_at,
    };
    boc_advice_report::put_verdict(&mut said.workers, &workers)?;
    put_verdict(&mut said.cowns, names, &found.hot)?;
    put_least(
        &mut said.least,
        names,
        subject.sharing,
        &found.advised.why.least,
    )?;
    if let Some(order) = found.order {
        put_other_order(alloc, &mut said.order, names, order)?;
    }
    put_shared(&mut said.reads, names, subject.sharing, &found.hot)?;
    Ok(said)
}

// Returns when a timed run ended; else the words of the note that the timed run has another span, if there is one.
fn timed_text(alloc: Global, material: &Material) -> Result<Vec<u8>, AllocError> {
    let Some(times) = &material.times else {
        return Vec::from_slice(alloc, noted(&material.note));
    };
    let mut text = Vec::from_slice(alloc, b"the timed run on ")?;
    put_workers(&mut text, times.p)?;
    text.extend_from_slice(b" ends at ")?;
    put_number(&mut text, times.ends_at)?;
    Ok(text)
}

// Returns the words of a note, without what is before them where it is printed.
fn noted(note: &[u8]) -> &[u8] {
    match note.strip_prefix(NOTE) {
        Some(words) => words,
        None => note,
    }
}

// Returns what follows the last slash of a path.
fn base_name(path: &str) -> &[u8] {
    match path.as_bytes().rsplit(|byte| *byte == b'/').next() {
        Some(name) => name,
        None => path.as_bytes(),
    }
}

/// Returns the name of the file that the input is in.
pub(crate) fn title_of(wanted: &Wanted) -> &[u8] {
    match &wanted.input {
        Some(path) => base_name(path.as_str()),
        None => b"standard input",
    }
}

/// Returns whether ticks are typical ones, and how the program was run; nothing of that where one thread ran it.
pub(crate) fn run_text(alloc: Global, wanted: &Wanted) -> Result<Vec<u8>, AllocError> {
    let ran = ran_text(alloc, wanted)?;
    if !wanted.typical {
        return Ok(ran);
    }
    let mut text = Vec::from_slice(alloc, TYPICAL)?;
    if !ran.is_empty() {
        text.extend_from_slice(b", ")?;
        text.extend_from_slice(&ran)?;
    }
    Ok(text)
}

// Returns how the program was run; nothing where one thread ran it.
fn ran_text(alloc: Global, wanted: &Wanted) -> Result<Vec<u8>, AllocError> {
    let mut text = Vec::new(alloc);
    match &wanted.file {
        Some(RunFile::Record(path)) => put_file(&mut text, b"the run in ", path.as_str())?,
        _ => put_schedule(&mut text, wanted)?,
    }
    Ok(text)
}

// Returns the same, and which file has names, if one is given.
fn run_and_names(alloc: Global, wanted: &Wanted) -> Result<Vec<u8>, AllocError> {
    let mut text = run_text(alloc, wanted)?;
    if let Some(RunFile::Names(path)) = &wanted.file {
        if !text.is_empty() {
            text.extend_from_slice(b", ")?;
        }
        put_file(&mut text, b"names in ", path.as_str())?;
    }
    Ok(text)
}

// Appends words and the name of a file to a text.
fn put_file(text: &mut Vec<u8>, words: &[u8], path: &str) -> Result<(), AllocError> {
    text.extend_from_slice(words)?;
    text.extend_from_slice(base_name(path))
}

// Appends by how many workers a program was run to a text, and as what draws it; nothing where one thread ran it.
fn put_schedule(text: &mut Vec<u8>, wanted: &Wanted) -> Result<(), AllocError> {
    match wanted.schedule {
        Schedule::Threads(runners) if runners.number() == 1 => Ok(()),
        Schedule::Threads(runners) => put_workers(text, runners.number()),
        Schedule::Timed(runners) => {
            text.extend_from_slice(b"timed on ")?;
            put_workers(text, runners.number())
        }
        Schedule::Drawn {
            workers,
            seed,
            depth,
        } => {
            put_workers(text, workers.number())?;
            text.extend_from_slice(b", seed ")?;
            put_number(text, seed)?;
            if let Some(depth) = depth {
                text.extend_from_slice(b", depth ")?;
                put_number(text, u64::from(depth.number()))?;
            }
            Ok(())
        }
    }
}

// Appends a number of workers to a text.
fn put_workers(text: &mut Vec<u8>, workers: u32) -> Result<(), AllocError> {
    put_number(text, u64::from(workers))?;
    text.extend_from_slice(workers_word(workers).as_bytes())
}
