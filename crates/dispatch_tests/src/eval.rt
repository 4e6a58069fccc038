// A body that stops at each of its wishes. What bodies do otherwise is in the tables that `tables` works through.

use crate::calls::{TRANSFER, body, frame, program};
use boc_eval::{Frame, Outcome, Stop};
use boc_program::body::EndStatus;
use boc_registers::compiled::CompiledProgram;
use std::process::Abort;

// The body stops at this wish: its offset and its kind, and its arguments and cowns.
fn wants(rt: &impl Abort, frame: &mut Frame<'_>, place: (u32, usize), args: &[i64], cowns: &[u32]) {
    let Stop::Wants(wish) = frame.run() else {
        panic!(rt; "a wish is left");
    };
    assert_eq!(rt; (wish.offset, wish.kind), place);
    assert_eq!(rt; wish.args.as_slice(), args);
    assert_eq!(rt; wish.cowns.as_slice(), cowns);
}

// This many wishes have come, the last of them with this offset.
fn has_come_to(rt: &impl Abort, frame: &Frame<'_>, wishes: u32, offset: u32) {
    assert_eq!(rt; (frame.wishes(), frame.is_ended()), (wishes, false));
    let last = frame.last_wish().map(|last| last.offset);
    assert_eq!(rt; last, Some(offset));
}

// Main took 4 ticks, made 3 wishes, and left nothing.
fn is_of_main(rt: &impl Abort, outcome: &Outcome<'_>) {
    assert_eq!(rt; (outcome.ticks(), outcome.status()), (4, EndStatus::Done));
    assert_eq!(rt; (outcome.wishes(), outcome.outputs().len()), (3, 0));
}

#[test]
fn stops_at_each_wish(rt: HostRuntime) {
    let program = program(&rt, rt.alloc(), TRANSFER);
    let compiled = CompiledProgram::new(rt.alloc(), &program).expect(&rt, "memory");
    let mut frame = frame(&rt, rt.alloc(), body(&rt, &compiled, 0), &[], &[]);
    assert!(rt; frame.last_wish().is_none());
    let wishes: [(u32, usize, &[i64], &[u32]); 3] = [
        (2, 1, &[5], &[0]),
        (3, 2, &[3], &[0, 1]),
        (4, 1, &[1], &[1]),
    ];
    for (offset, kind, args, cowns) in wishes {
        wants(&rt, &mut frame, (offset, kind), args, cowns);
        has_come_to(&rt, &frame, offset - 1, offset);
    }
    assert!(rt; matches!(frame.run(), Stop::Ended));
    assert!(rt; frame.is_ended());
    is_of_main(&rt, &frame.into_outcome());
}
