// The commands that run a program by threads, with a gate.

ghost use Rattle.std.specs.Prelude.{◌≡◌};

use crate::gates::{Meeting, Place, StopsAtSecondBody, StopsAtSwap};
use crate::workers::{TRANSFER, TWO_ORDERS};
use boc_commands::{
    AskedPlans, Command, Fault, Pair, Runners, Schedule, Silent, Which, run_command,
};
use boc_input::Ahead;
use boc_plans::sharing::Sharing;
use boc_text::Bytes;
use boc_workers::Gate;
use std::alloc::Global;
use std::process::Abort;
use std::sync::Wait;
use std::thread::Threads;

// Two behaviours with a cown each.
const TWO_BODIES: &str = "cown c[2] = 0;
def w(n; x) { work n; x = x + n; }
main { when w(6; c[0]); when w(6; c[1]); }
";

/// What a command did: its status, its line on standard error, and its output.
#[derive(Drop)]
struct Answer {
    status: u8,
    line: String,
    output: Vec<u8>,
}

fn bytes(rt: &impl Abort, alloc: Global, text: &str) -> Bytes
    ensures { result.failures ≡ 0 }
{
    Bytes::new(Vec::from_slice(alloc, text.as_bytes()).expect(rt, "memory"))
}

// Does a command with a program, with this gate.
fn done<R: Abort + Threads + Wait + Sync, G: Gate>(
    rt: &R,
    alloc: Global,
    command: &Command,
    text: &str,
    gate: &G,
    sink: &mut Bytes,
) -> Result<(), Fault>
    requires { sink.old.failures ≡ 0 }
{
    run_command(
        rt,
        alloc,
        gate,
        command,
        Vec::new(alloc),
        Pair::none(alloc),
        &mut Silent,
        &mut Vec::new(alloc),
        &mut Vec::new(alloc),
        &mut Which::Before,
        &mut Ahead::new(alloc, bytes(rt, alloc, text)),
        sink,
    )
}

// Returns what a command answers to a program, with this gate.
fn answer_of<R: Abort + Threads + Wait + Sync, G: Gate>(
    rt: &R,
    alloc: Global,
    command: &Command,
    text: &str,
    gate: &G,
) -> Answer {
    let mut sink = bytes(rt, alloc, "");
    let (status, line) = match done(rt, alloc, command, text, gate, &mut sink) {
        Ok(()) => (0, String::new(alloc)),
        Err(fault) => (fault.status(), fault.line(alloc).expect(rt, "memory")),
    };
    let output = sink.bytes;
    Answer {
        status,
        line,
        output,
    }
}

// Returns the commands that run a program, on this many threads.
fn by_threads(rt: &impl Abort, count: u32) -> [Command; 2] {
    let runners = Runners::new(count).expect(rt, "1 to 16 threads");
    [
        Command::Run {
            schedule: Schedule::Threads(runners),
            quiet: false,
        },
        Command::Time {
            schedule: Schedule::Threads(runners),
            plans: AskedPlans {
                workers: None,
                unplanned: false,
            },
            sharing: Sharing::Exclusive,
            quiet: false,
        },
    ]
}

// The gate stopped the run.
fn is_held(rt: &impl Abort, answer: &Answer) {
    assert_eq!(rt; answer.line.as_str(), "boc: run: 3 Held");
    assert_eq!(rt; (answer.status, answer.output.len()), (4, 0));
}

#[test]
fn two_bodies_at_once_by_two_threads(rt: HostRuntime) {
    for command in &by_threads(&rt, 2) {
        let gate = Meeting::new(&rt, Place::AtBody);
        let answer = answer_of(&rt, rt.alloc(), command, TWO_BODIES, &gate);
        assert_eq!(rt; answer.line.as_str(), "");
        assert!(rt; gate.both_came());
    }
}

#[test]
fn one_body_at_once_by_one_thread(rt: HostRuntime) {
    for command in &by_threads(&rt, 1) {
        let gate = Meeting::new(&rt, Place::AtBody);
        let answer = answer_of(&rt, rt.alloc(), command, TWO_BODIES, &gate);
        is_held(&rt, &answer);
    }
}

// Each gate that stops a worker ends what the command does with the program.
fn ends_at_gates<R: Abort + Threads + Wait + Sync>(
    rt: &R,
    alloc: Global,
    command: &Command,
    text: &str,
) {
    is_held(rt, &answer_of(rt, alloc, command, text, &StopsAtSwap));
    let second = StopsAtSecondBody::new(rt);
    is_held(rt, &answer_of(rt, alloc, command, text, &second));
}

#[test]
fn gate_that_stops(rt: HostRuntime) {
    for count in [1, 2, 16] {
        for command in &by_threads(&rt, count) {
            for text in [TRANSFER, TWO_ORDERS] {
                ends_at_gates(&rt, rt.alloc(), command, text);
            }
        }
    }
}
