//! Whole runs with one worker or several: the steps that they make, and when the lock is free.

use crate::gates::{Counting, Meeting, Overtaking, Place};
use boc_dispatch::Tell;
use boc_program::program::Program;
use boc_reader::read_program;
use boc_workers::{RunAnswer, run};
use std::alloc::Global;
use std::process::Abort;
use std::sync::Wait;
use std::thread::Threads;

// Two deposits and a transfer between two accounts.
pub(crate) const TRANSFER: &str = "cown a = 10; cown b = 0;
def add(k; x) { x = x + k; }
def move(k; x, y) { x = x - k; y = y + k; }
main { when add(5; a); when move(3; a, b); when add(1; b); }
";

// Behaviours without cowns.
pub(crate) const NO_COWNS: &str = "def f(;) { work 3; } main { when f(;); when f(;); }";

// Two behaviours that read a cown, and one that writes it.
const PEEK_AND_SET: &str = "cown a = 1;
def peek(; x) { let y = x; work 5; } def set(; x) { x = x; }
main { when peek(; a); when peek(; a); when set(; a); }";

// Two behaviours, each of which asks for another: the one over a and b, the other over a alone.
pub(crate) const TWO_ORDERS: &str = "cown a = 0; cown b = 0; cown p = 0; cown q = 0;
def one(; x, y) { x = x + 1; y = y + 1; }
def two(; x) { x = x * 10; }
def left(; g) { when one(; a, b); }
def right(; g) { when two(; a); }
main { when left(; p); when right(; q); }";

// The same where the other one asks for its own cown.
const APART: &str = "cown a = 0; cown b = 0; cown p = 0; cown q = 0;
def one(; x, y) { x = x + 1; y = y + 1; }
def two(; x) { x = x * 10; }
def left(; g) { when one(; a, b); }
def right(; g) { when two(; g); }
main { when left(; p); when right(; q); }";

// Returns the program that a text spells.
pub(crate) fn program(rt: &impl Abort, alloc: Global, text: &str) -> Program {
    let program = read_program(alloc, text.as_bytes()).ok();
    program.expect(rt, "a program")
}

// Returns how many steps all workers made.
fn all_made(answer: &RunAnswer) -> u64 {
    let mut all = 0u64;
    for made in &answer.made {
        all = all.saturating_add(*made);
    }
    all
}

// A run has this many events and steps, and each worker asks the gate after each of its steps.
fn asks_after_steps<R: Abort + Threads + Wait + Sync>(
    rt: &R,
    alloc: Global,
    program: &Program,
    workers: u32,
    counts: (usize, u64),
) {
    assert!(rt; (1..=16).contains(&workers));
    let gate = Counting::new(rt);
    let answer = run(rt, alloc, program, workers, Tell::All, &gate).expect(rt, "a run");
    assert_eq!(rt; (answer.record.events().len(), all_made(&answer)), counts);
    // Each row says what it is.
    assert_eq!(rt; answer.told.len(), answer.record.rows().as_slice().len());
    let all = gate.counts();
    let (asked, others) = all.split_at(workers as usize);
    assert_eq!(rt; answer.made.as_slice(), asked);
    assert!(rt; others.iter().all(|count| *count == 0));
}

#[test]
fn each_worker_is_told_to_the_gate(rt: HostRuntime) {
    for (text, counts) in [
        (TRANSFER, (12, 30)),
        (NO_COWNS, (9, 10)),
        (PEEK_AND_SET, (12, 26)),
    ] {
        let program = program(&rt, rt.alloc(), text);
        for workers in [1, 2, 16] {
            asks_after_steps(&rt, rt.alloc(), &program, workers, counts);
        }
    }
}

#[test]
fn lock_is_free_after_a_swap(rt: HostRuntime) {
    let program = program(&rt, rt.alloc(), TWO_ORDERS);
    let gate = Meeting::new(&rt, Place::AfterSwap);
    let answer = run(&rt, rt.alloc(), &program, 2, Tell::All, &gate).expect(&rt, "a run");
    assert!(rt; gate.both_came());
    assert_eq!(rt;
        (answer.record.rows().as_slice().len(), all_made(&answer)),
        (5, 38)
    );
}

#[test]
fn one_enqueue_overtakes_another(rt: HostRuntime) {
    let program = program(&rt, rt.alloc(), APART);
    let gate = Overtaking::new(&rt);
    let answer = run(&rt, rt.alloc(), &program, 2, Tell::All, &gate).expect(&rt, "a run");
    let rows = answer.record.rows().as_slice();
    assert!(rt; rows.iter().map(|row| row.parent).eq([0, 0, 0, 2, 1]));
}
