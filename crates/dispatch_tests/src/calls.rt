//! The dispatcher, call by call: a whole run, and calls of strangers, which change nothing.

use boc_dispatch::{
    Advanced, Child, Dispatcher, FinishFault, Job, Leaving, Left, OpenFault, Started, Step,
};
use boc_eval::{Frame, Outcome};
use boc_program::program::Program;
use boc_program::short::{Args, Input, Inputs};
use boc_reader::read_program;
use boc_record::put_events;
use boc_registers::compiled::{CompiledBody, CompiledProgram};
use boc_text::{put_number, put_signed};
use std::alloc::Global;
use std::process::Abort;

pub(crate) const TRANSFER: &[u8] = b"cown a = 10; cown b = 0;
def add(k; x) { x = x + k; }
def move(k; x, y) { x = x - k; y = y + k; }
main { when add(5; a); when move(3; a, b); when add(1; b); }";

// What is shown once main has started, once its first wish is enqueued, and at the end.
const AT_MAIN: &[u8] = b"+ 0 0 0\n> 0\n1 10 0";

const AT_FIRST_WISH: &[u8] = b"+ 0 0 0\n> 0\n+ 1 0 2 0\n6 10 0";

const AT_END: &[u8] =
    b"+ 0 0 0\n> 0\n+ 1 0 2 0\n+ 2 0 3 0 1\n+ 3 0 4 1\n< 0 4 0\n> 1\n< 1 2 0 0\n> 2\n< 2 3 0 0 1\n> 3\n< 3 2 0 1\n30 12 4";

// Returns the program that a text spells.
pub(crate) fn program(rt: &impl Abort, alloc: Global, text: &[u8]) -> Program {
    let program = read_program(alloc, text).ok();
    program.expect(rt, "a program")
}

// Returns the program's body of this kind.
pub(crate) fn body<'a>(
    rt: &impl Abort,
    compiled: &'a CompiledProgram<'a>,
    kind: usize,
) -> CompiledBody<'a> {
    assert!(rt; kind < compiled.program().bodies.as_slice().len());
    compiled.body(kind)
}

// Returns a body at its start, on as many arguments and inputs as it takes.
pub(crate) fn frame<'a>(
    rt: &impl Abort,
    alloc: Global,
    body: CompiledBody<'a>,
    args: &[i64],
    inputs: &[Input],
) -> Frame<'a> {
    let args = Args::try_from(args).unwrap_or_default();
    let inputs = Inputs::try_from(inputs).unwrap_or_default();
    let taken = body.body();
    assert!(rt; args.len() == taken.params && inputs.len() == taken.cown_params);
    Frame::new(alloc, body, args, inputs).expect(rt, "memory")
}

// Returns the frame of a behaviour that was started.
fn frame_of<'a>(rt: &impl Abort, alloc: Global, job: &Job<'a>) -> Frame<'a> {
    let body = job.body.duplicate();
    frame(rt, alloc, body, job.args.as_slice(), job.inputs.as_slice())
}

// Returns what can be seen of a dispatcher: the lines of its log, its steps, and the values of its cowns.
fn shown(rt: &impl Abort, alloc: Global, core: &Dispatcher<'_>) -> Vec<u8> {
    let mut text = Vec::new(alloc);
    put_events(&mut text, &core.log()).expect(rt, "memory");
    put_number(&mut text, core.steps()).expect(rt, "memory");
    for value in core.values() {
        text.push(b' ').expect(rt, "memory");
        put_signed(&mut text, *value).expect(rt, "memory");
    }
    text
}

// This is shown of the dispatcher.
fn shows(rt: &impl Abort, alloc: Global, core: &Dispatcher<'_>, wanted: &[u8]) {
    assert!(rt; shown(rt, alloc, core).as_slice() == wanted);
}

// Returns the behaviour that is started next.
fn started<'a>(rt: &impl Abort, core: &mut Dispatcher<'a>) -> Job<'a> {
    match core.start() {
        Started::Job(job) => job,
        Started::NoneReady | Started::Quiet => panic!(rt; "a behaviour is ready"),
    }
}

// Enqueues the frame's last wish.
fn enqueue<'a>(rt: &impl Abort, core: &mut Dispatcher<'a>, frame: &Frame<'a>, row: u32) {
    let child = core.open(frame, row).expect(rt, "the next wish");
    for _ in 0..100 {
        match core.advance(&child) {
            Advanced::Moved(_) => {}
            answer => {
                assert_eq!(rt; answer, Advanced::Enqueued);
                return;
            }
        }
    }
    panic!(rt; "an enqueue ends");
}

// Releases all cowns of a behaviour.
fn release(rt: &impl Abort, core: &mut Dispatcher, leaving: &Leaving) {
    for _ in 0..100 {
        match core.leave(leaving) {
            Left::Moved(_) => {}
            answer => {
                assert!(rt; matches!(answer, Left::Gone(_)));
                return;
            }
        }
    }
    panic!(rt; "a release ends");
}

// Runs the body of a behaviour that was started, up to its last release.
fn serve<'a>(rt: &impl Abort, alloc: Global, core: &mut Dispatcher<'a>, job: &Job<'a>) {
    let mut frame = frame_of(rt, alloc, job);
    for _ in 0..100 {
        if !frame.go_on() {
            break;
        }
        enqueue(rt, core, &frame, job.row);
    }
    assert!(rt; frame.is_ended());
    let end = core.finish(job.row, frame.into_outcome()).ok();
    if let Some(leaving) = end.expect(rt, "an end") {
        release(rt, core, &leaving);
    }
}

// Runs each behaviour that is ready, of which there are four.
fn serve_all(rt: &impl Abort, alloc: Global, core: &mut Dispatcher<'_>) {
    for _ in 0..4 {
        assert!(rt; !core.is_quiet());
        let job = started(rt, core);
        serve(rt, alloc, core, &job);
    }
}

// Nothing is left to do.
fn is_quiet(rt: &impl Abort, core: &mut Dispatcher<'_>) {
    assert!(rt; matches!(core.start(), Started::Quiet));
    assert!(rt; core.is_quiet());
}

// A run of the transfer has these values and this log at its end.
fn ends_as_transfer<'a>(rt: &impl Abort, alloc: Global, compiled: &'a CompiledProgram<'a>) {
    let mut core = Dispatcher::new(alloc, compiled).expect(rt, "memory");
    serve_all(rt, alloc, &mut core);
    is_quiet(rt, &mut core);
    shows(rt, alloc, &core, AT_END);
    assert!(rt; core.value(2).is_none());
}

#[test]
fn transfer_by_one_worker(rt: HostRuntime) {
    let program = program(&rt, rt.alloc(), TRANSFER);
    let compiled = CompiledProgram::new(rt.alloc(), &program).expect(&rt, "memory");
    ends_as_transfer(&rt, rt.alloc(), &compiled);
}

// Returns a dispatcher that has handed main out, and main.
fn with_main<'a>(
    rt: &impl Abort,
    alloc: Global,
    compiled: &'a CompiledProgram<'a>,
) -> (Dispatcher<'a>, Job<'a>) {
    let mut core = Dispatcher::new(alloc, compiled).expect(rt, "memory");
    let main = started(rt, &mut core);
    (core, main)
}

// Returns what a body gave that has ended, of whose wishes none is spawned.
fn outcome<'a>(rt: &impl Abort, mut frame: Frame<'a>) -> Outcome<'a> {
    for _ in 0..100 {
        if !frame.go_on() {
            break;
        }
    }
    assert!(rt; frame.is_ended());
    frame.into_outcome()
}

// An outcome ends nothing in this row, for this reason, and comes back with its ticks.
fn is_refused<'a>(
    rt: &impl Abort,
    core: &mut Dispatcher<'a>,
    row: u32,
    outcome: Outcome<'a>,
    wanted: (FinishFault, u32),
) {
    let refused = core.finish(row, outcome).err();
    let (outcome, fault) = refused.expect(rt, "a refusal");
    assert_eq!(rt; (fault, outcome.ticks()), wanted);
}

// What a body of the kind gives on these arguments and inputs ends nothing in the row, for this reason.
fn ends_nothing<'a>(
    rt: &impl Abort,
    alloc: Global,
    compiled: &'a CompiledProgram<'a>,
    (row, kind): (u32, usize),
    given: (&[i64], &[Input]),
    wanted: (FinishFault, u32),
) {
    let (mut core, _) = with_main(rt, alloc, compiled);
    let frame = frame(rt, alloc, body(rt, compiled, kind), given.0, given.1);
    is_refused(rt, &mut core, row, outcome(rt, frame), wanted);
    shows(rt, alloc, &core, AT_MAIN);
}

#[test]
fn outcomes_of_strangers_end_nothing(rt: HostRuntime) {
    let program = program(&rt, rt.alloc(), TRANSFER);
    let compiled = CompiledProgram::new(rt.alloc(), &program).expect(&rt, "memory");
    let held = [Input { cown: 0, value: 10 }];
    let cases: [((u32, usize), (&[i64], &[Input]), (FinishFault, u32)); 3] = [
        ((1, 0), (&[], &[]), (FinishFault::Stranger, 4)),
        ((0, 1), (&[5], &held), (FinishFault::Stranger, 2)),
        ((0, 0), (&[], &[]), (FinishFault::Busy, 4)),
    ];
    for (place, given, wanted) in cases {
        ends_nothing(&rt, rt.alloc(), &compiled, place, given, wanted);
    }
}

// Returns the frame of main after this many wishes.
fn frame_after<'a>(rt: &impl Abort, alloc: Global, main: &Job<'a>, wishes: u32) -> Frame<'a> {
    let mut frame = frame_of(rt, alloc, main);
    for _ in 0..wishes {
        assert!(rt; frame.go_on());
    }
    frame
}

// A frame of main after this many wishes opens nothing in the row, for this reason.
fn opens_nothing<'a>(
    rt: &impl Abort,
    alloc: Global,
    compiled: &'a CompiledProgram<'a>,
    (wishes, row): (u32, u32),
    fault: OpenFault,
) {
    let (mut core, main) = with_main(rt, alloc, compiled);
    let frame = frame_after(rt, alloc, &main, wishes);
    assert_eq!(rt; core.open(&frame, row), Err(fault));
    shows(rt, alloc, &core, AT_MAIN);
}

#[test]
fn frames_of_strangers_open_nothing(rt: HostRuntime) {
    let program = program(&rt, rt.alloc(), TRANSFER);
    let compiled = CompiledProgram::new(rt.alloc(), &program).expect(&rt, "memory");
    for (place, fault) in [
        ((0, 0), OpenFault::OutOfTurn),
        ((2, 0), OpenFault::OutOfTurn),
        ((1, 1), OpenFault::Stranger),
    ] {
        opens_nothing(&rt, rt.alloc(), &compiled, place, fault);
    }
}

// The enqueue of a behaviour with one cown makes these steps.
fn is_enqueued(rt: &impl Abort, core: &mut Dispatcher<'_>, child: &Child) {
    for wanted in [
        Advanced::Moved(Step::Swap(0)),
        Advanced::Moved(Step::Settle(0)),
        Advanced::Moved(Step::Flag(0)),
        Advanced::Enqueued,
    ] {
        assert_eq!(rt; core.advance(child), wanted);
    }
}

// The first wish of main is opened once, and its token is unknown once it is spent.
fn spends_a_token<'a>(rt: &impl Abort, alloc: Global, compiled: &'a CompiledProgram<'a>) {
    let (mut core, main) = with_main(rt, alloc, compiled);
    let frame = frame_after(rt, alloc, &main, 1);
    let child = core.open(&frame, 0).expect(rt, "the first wish");
    assert_eq!(rt; core.open(&frame, 0), Err(OpenFault::OutOfTurn));
    is_enqueued(rt, &mut core, &child);
    shows(rt, alloc, &core, AT_FIRST_WISH);
    assert_eq!(rt; core.advance(&child), Advanced::Unknown);
    shows(rt, alloc, &core, AT_FIRST_WISH);
}

#[test]
fn spent_token_is_unknown(rt: HostRuntime) {
    let program = program(&rt, rt.alloc(), TRANSFER);
    let compiled = CompiledProgram::new(rt.alloc(), &program).expect(&rt, "memory");
    spends_a_token(&rt, rt.alloc(), &compiled);
}
