//! Runs a program with two workers in turn, takes the run's record up, and asks for its plan; and where memory is refused, it asks for the
//! same once more. So whichever one request is refused, it writes the same.
#![tactic(auto)]

use boc_dispatch::{Dispatcher, OpenFault, Refusal, Turn, Worker};
use boc_plans::sharing::Sharing;
use boc_program::limits::MOST_COWNS;
use boc_program::program::Program;
use boc_reader::read_program;
use boc_record::put_events;
use boc_registers::compiled::CompiledProgram;
use boc_rules::{RuleFault, Rules};
use boc_runs::event::Event;
use boc_runs::record::Record;
use boc_runs::rows::Rows;
use boc_whatif::WhatIf;
use std::alloc::Global;
use std::io;

// Two behaviours with as many arguments and cowns as there may be, each of which asks for another over a cown of theirs.
const TEXT: &str = "cown c[8] = 1;
def add(k; x) { x = x + k; }
def all(a, b, d, e, f, g, h, i; j, k, l, m, n, o, p, q) { j = a + b + d + e + f + g + h + i; when add(2; q); }
main {
    when all(1, 2, 3, 4, 5, 6, 7, 8; c[7], c[6], c[5], c[4], c[3], c[2], c[1], c[0]);
    when all(8, 7, 6, 5, 4, 3, 2, 1; c[0], c[1], c[2], c[3], c[4], c[5], c[6], c[7]);
}";

// The run has this many turns at most.
const MOST_TURNS: u32 = 1000;

// Returns the program, read once more where memory was refused.
fn program(alloc: Global) -> Option<Program> {
    match read_program(alloc, TEXT.as_bytes()) {
        Ok(program) => Some(program),
        Err(_) => read_program(alloc, TEXT.as_bytes()).ok(),
    }
}

// Returns the program with the code of its bodies, made once more where memory was refused.
fn compiled(alloc: Global, program: &Program) -> Option<CompiledProgram<'_>> {
    match CompiledProgram::new(alloc, program) {
        Ok(compiled) => Some(compiled),
        Err(_) => CompiledProgram::new(alloc, program).ok(),
    }
}

// Returns a dispatcher of the program, made once more where memory was refused.
fn dispatcher<'a>(alloc: Global, program: &'a CompiledProgram<'a>) -> Option<Dispatcher<'a>> {
    match Dispatcher::new(alloc, program) {
        Ok(core) => Some(core),
        Err(_) => Dispatcher::new(alloc, program).ok(),
    }
}

// Returns a worker thinks and has one turn; where memory is refused, the same call is made once more.
fn take_turn<'a>(
    alloc: Global,
    worker: &mut Worker<'a>,
    core: &mut Dispatcher<'a>,
) -> Option<Turn> {
    if worker.think(alloc).is_err() {
        worker.think(alloc).ok()?;
    }
    match worker.turn(core) {
        Turn::Refused(Refusal::Open(OpenFault::Memory)) => Some(worker.turn(core)),
        turn => Some(turn),
    }
}

// Returns the dispatcher after the turns of two workers, one after the other, until all has ended.
fn driven<'a>(alloc: Global, program: &'a CompiledProgram<'a>) -> Option<Dispatcher<'a>> {
    let mut core = dispatcher(alloc, program)?;
    let (mut first, mut second) = (Worker::new(0), Worker::new(1));
    for _ in 0..MOST_TURNS {
        if matches!(take_turn(alloc, &mut first, &mut core)?, Turn::Quiet) {
            return Some(core);
        }
        take_turn(alloc, &mut second, &mut core)?;
    }
    None
}

// Rules over this many cowns, made once more where memory was refused.
fn rules(alloc: Global, cowns: u32) -> Option<Rules> {
    if cowns as usize > MOST_COWNS {
        return None;
    }
    match Rules::new(alloc, cowns) {
        Ok(rules) => Some(rules),
        Err(_) => Rules::new(alloc, cowns).ok(),
    }
}

// Returns an event is put after the others, once more where memory was refused.
fn apply(rules: &mut Rules, event: &Event) -> Option<()> {
    match rules.apply(event) {
        Err(RuleFault::Memory) => rules.apply(event).ok(),
        other => other.ok(),
    }
}

// Returns the span of some rows, asked for once more where memory was refused.
fn span(alloc: Global, rows: &Rows) -> Option<u64> {
    match WhatIf::new(alloc, rows, Sharing::Exclusive) {
        Ok(question) => Some(question.span()),
        Err(_) => Some(WhatIf::new(alloc, rows, Sharing::Exclusive).ok()?.span()),
    }
}

// Returns the lines of a log, written once more where memory was refused.
fn lines(alloc: Global, core: &Dispatcher<'_>) -> Option<Vec<u8>> {
    for _ in 0..2 {
        let mut text = Vec::new(alloc);
        if put_events(&mut text, &core.log()).is_ok() {
            return Some(text);
        }
    }
    None
}

// Returns the record of a finished run, taken up event by event.
fn record(alloc: Global, core: &Dispatcher<'_>) -> Option<Record> {
    let mut rules = rules(alloc, 8)?;
    let log = core.log();
    for place in 0..log.len() {
        apply(&mut rules, &log.get(place))?;
    }
    rules.into_record().ok()
}

// Returns the log of a finished run, its steps and the span of its rows.
fn told_of(alloc: Global, core: &Dispatcher<'_>) -> Option<(Vec<u8>, u64, u64)> {
    let text = lines(alloc, core)?;
    let span = span(alloc, record(alloc, core)?.rows())?;
    Some((text, core.steps(), span))
}

// Returns the same of the program's run.
fn told(alloc: Global) -> Option<(Vec<u8>, u64, u64)> {
    let program = program(alloc)?;
    let compiled = compiled(alloc, &program)?;
    let core = driven(alloc, &compiled)?;
    told_of(alloc, &core)
}

fn main(rt: HostRuntime) -> io::Result<()> {
    let Some((text, steps, span)) = told(rt.alloc()) else {
        return rt.println("memory was refused twice");
    };
    let text = std::str::from_utf8(&text).unwrap_or("no text");
    println!(rt; "{text}steps {steps}\nspan {span}")
}
