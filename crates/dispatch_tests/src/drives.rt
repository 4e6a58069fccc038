//! What a driven run leaves. What drives do along lists of choices is in the tables that `tables` works through.

use crate::calls::program;
use boc_dispatch::{Dispatcher, drive};
use boc_registers::compiled::CompiledProgram;
use std::alloc::Global;
use std::process::Abort;

// Row 1 exchanges its requests on a and b while row 2 asks for a, which so comes second there.
const TWO_ORDERS: &[u8] = b"cown a = 0; cown b = 0; cown p = 0; cown q = 0;
def one(; x, y) { x = x + 1; y = y + 1; }
def two(; x) { x = x * 10; }
def left(; g) { when one(; a, b); }
def right(; g) { when two(; a); }
main { when left(; p); when right(; q); }";

// Up to where row 4 is spawned, and to the end.
const UNDER_WAY: [u16; 25] = [
    0, 0, 0, 0, 0, 0, 0, 0, 0, 0, 0, 0, 0, 1, 0, 0, 1, 1, 1, 0, 0, 0, 1, 0, 1,
];

const TO_THE_END: [u16; 40] = [
    0, 0, 0, 0, 0, 0, 0, 0, 0, 0, 0, 0, 0, 1, 0, 0, 1, 1, 1, 0, 0, 0, 1, 0, 1, 0, 0, 0, 0, 0, 0, 0,
    0, 1, 1, 1, 1, 1, 1, 1,
];

// Each row but the last spawns the next one, and ends before that begins.
const LONG_COUNTDOWN: &[u8] = b"cown a = 0;
def down(n; x) { x = x + n; if n > 0 { when down(n - 1; x); } }
main { when down(2000; a); }";

// Returns a drive with this many workers in which each choice has its turn.
fn driven<'a>(
    rt: &impl Abort,
    alloc: Global,
    program: &'a CompiledProgram<'a>,
    workers: u32,
    choices: &[u16],
) -> Dispatcher<'a> {
    drive(alloc, program, workers, choices).expect(rt, "a drive")
}

// The run has ended, and its record has this many cowns and rows.
fn has_record(rt: &impl Abort, core: Dispatcher<'_>, counts: (u32, usize)) {
    assert!(rt; core.is_quiet());
    let record = core.into_record().ok().expect(rt, "a record");
    assert_eq!(rt; (record.cowns(), record.rows().as_slice().len()), counts);
}

#[test]
fn run_under_way_has_no_record(rt: HostRuntime) {
    let program = program(&rt, rt.alloc(), TWO_ORDERS);
    let compiled = CompiledProgram::new(rt.alloc(), &program).expect(&rt, "memory");
    let core = driven(&rt, rt.alloc(), &compiled, 2, &UNDER_WAY);
    let same = core.into_record().err().expect(&rt, "no record yet");
    assert_eq!(rt; (same.is_quiet(), same.steps()), (false, 23));
}

#[test]
fn quiet_run_has_a_record(rt: HostRuntime) {
    let program = program(&rt, rt.alloc(), TWO_ORDERS);
    let compiled = CompiledProgram::new(rt.alloc(), &program).expect(&rt, "memory");
    let core = driven(&rt, rt.alloc(), &compiled, 2, &TO_THE_END);
    has_record(&rt, core, (4, 5));
}

#[test]
fn few_slots_are_held_at_once(rt: HostRuntime) {
    let program = program(&rt, rt.alloc(), LONG_COUNTDOWN);
    let compiled = CompiledProgram::new(rt.alloc(), &program).expect(&rt, "memory");
    let choices = vec![in rt.alloc(); 0; 16_010].expect(&rt, "memory");
    let core = driven(&rt, rt.alloc(), &compiled, 1, &choices);
    assert_eq!(rt; (core.steps(), core.value(0)), (16_010, Some(2_001_000)));
    assert_eq!(rt; core.chains().peak(), 2);
    has_record(&rt, core, (1, 2_002));
}
