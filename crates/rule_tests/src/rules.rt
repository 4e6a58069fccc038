//! The calls of the rules, and of a judge. Which events break which rule is in `tests/suite/refusals.py` and in the tables that `tables` works through.

use boc_program::body::EndStatus;
use boc_program::short::Cowns;
use boc_rules::{Judge, RuleFault, Rules};
use boc_runs::event::{BrokenRule, Event};
use std::alloc::Global;
use std::process::Abort;

// These cowns; none where there are more than eight.
fn cowns(numbers: &[u32]) -> Cowns {
    Cowns::try_from(numbers).unwrap_or_default()
}

fn spawn(row: u32, parent: u32, offset: u32, numbers: &[u32]) -> Event {
    Event::Spawn {
        row,
        parent,
        offset,
        cowns: cowns(numbers),
    }
}

fn start(row: u32) -> Event {
    Event::Start { row }
}

// Returns an end that wrote these cowns.
fn end(row: u32, ticks: u32, written: &[u32]) -> Event {
    Event::End {
        row,
        ticks,
        status: EndStatus::Done,
        written: cowns(written),
    }
}

// The events of two deposits and a transfer between two accounts, cowns 0 and 1, as their lines in a record.
const TRANSFER: [(u8, (u32, u32, u32), &[u32]); 12] = [
    (b'+', (0, 0, 0), &[]),
    (b'>', (0, 0, 0), &[]),
    (b'+', (1, 0, 2), &[0]),
    (b'+', (2, 0, 3), &[0, 1]),
    (b'+', (3, 0, 4), &[1]),
    (b'<', (0, 4, 0), &[]),
    (b'>', (1, 0, 0), &[]),
    (b'<', (1, 2, 0), &[0]),
    (b'>', (2, 0, 0), &[]),
    (b'<', (2, 3, 0), &[0, 1]),
    (b'>', (3, 0, 0), &[]),
    (b'<', (3, 2, 0), &[]),
];

// Returns the event of a line.
fn event(sign: u8, (row, second, third): (u32, u32, u32), numbers: &[u32]) -> Event {
    match sign {
        b'+' => spawn(row, second, third, numbers),
        b'>' => start(row),
        _ => end(row, second, numbers),
    }
}

// Returns the rules of a run with two cowns and no event.
fn two_cowns(rt: &impl Abort, alloc: Global) -> Rules {
    Rules::new(alloc, 2).expect(rt, "memory")
}

// Takes the events of the transfer, and sees how much room each leaves.
fn take_transfer(rt: &impl Abort, rules: &mut Rules, left: [usize; 12]) {
    for ((sign, numbers, cowns), rooms) in TRANSFER.iter().zip(left) {
        let taken = rules.apply(&event(*sign, *numbers, *cowns));
        taken.expect(rt, "an event that is allowed");
        assert_eq!(rt; rules.rooms(), rooms);
    }
}

// The rules of the whole transfer give its record.
fn has_record(rt: &impl Abort, rules: Rules) {
    assert_eq!(rt; (rules.cowns(), rules.events().len()), (2, 12));
    assert!(rt; rules.is_complete());
    let record = rules.into_record().ok().expect(rt, "a record at the end");
    assert_eq!(rt; (record.cowns(), record.rows().as_slice().len()), (2, 4));
}

#[test]
fn transfer_is_taken(rt: HostRuntime) {
    let rules = two_cowns(&rt, rt.alloc());
    assert!(rt; !rules.is_complete());
    let mut rules = rules.into_record().err().expect(&rt, "no record yet");
    take_transfer(&rt, &mut rules, [0; 12]);
    has_record(&rt, rules);
}

#[test]
fn rooms_are_counted(rt: HostRuntime) {
    let mut rules = two_cowns(&rt, rt.alloc());
    assert_eq!(rt; rules.rooms(), 0);
    rules.make_room().expect(&rt, "memory");
    rules.make_room().expect(&rt, "memory");
    assert_eq!(rt; rules.rooms(), 2);
    take_transfer(&rt, &mut rules, [1, 1, 0, 0, 0, 0, 0, 0, 0, 0, 0, 0]);
}

#[test]
fn rules_put_what_is_allowed(rt: HostRuntime) {
    let mut rules = two_cowns(&rt, rt.alloc());
    rules.make_room().expect(&rt, "memory");
    let main = spawn(0, 0, 0, &[]);
    let judge = rules.judge();
    if judge.judge(&main).is_ok() && judge.has_room_for(&main) {
        rules.put(main);
    }
    assert_eq!(rt; rules.rooms(), 0);
    assert_eq!(rt; rules.events().len(), 1);
    rules.take(start(0)).expect(&rt, "the start of main");
}

// A fault is reported so, and no other way.
fn tells(rt: &impl Abort, alloc: Global, fault: &RuleFault, text: &str) {
    let told = fault.to_string(alloc).expect(rt, "memory");
    assert_eq!(rt; told.as_str(), text);
    assert_eq!(rt; fault.text(), text);
}

#[test]
fn faults_are_told(rt: HostRuntime) {
    let alloc = rt.alloc();
    let texts = [
        (BrokenRule::NumberNotNext, "1 NumberNotNext"),
        (BrokenRule::ParentNotRunning, "2 ParentNotRunning"),
        (BrokenRule::Offset, "3 Offset"),
        (BrokenRule::Cowns, "4 Cowns"),
        (BrokenRule::StartNotAllowed, "5 StartNotAllowed"),
        (BrokenRule::EndNotAllowed, "6 EndNotAllowed"),
        (BrokenRule::TooMany, "7 TooMany"),
    ];
    for (rule, text) in texts {
        tells(&rt, alloc, &RuleFault::Broken(rule), text);
    }
    tells(&rt, alloc, &RuleFault::Memory, "8 Memory");
}

// Returns a judge of a run with one cown and no event, with space for two rows.
fn with_two_rooms(rt: &impl Abort, alloc: Global) -> Judge {
    let mut judge = Judge::new(alloc, 1).expect(rt, "memory");
    judge.make_room().expect(rt, "memory");
    judge.make_room().expect(rt, "memory");
    judge
}

// Returns a judge of a run with one cown, of which main runs, with space for a child.
fn with_main(rt: &impl Abort, alloc: Global) -> Judge {
    let mut judge = with_two_rooms(rt, alloc);
    judge.take(spawn(0, 0, 0, &[])).expect(rt, "main");
    judge.take(start(0)).expect(rt, "the start of main");
    judge
}

#[test]
fn judge_has_room_once_it_is_made(rt: HostRuntime) {
    let alloc = rt.alloc();
    let main = spawn(0, 0, 0, &[]);
    let judge = Judge::new(alloc, 1).expect(&rt, "memory");
    assert_eq!(rt; judge.cowns(), 1);
    assert!(rt; !judge.has_room_for(&main));
    let judge = with_two_rooms(&rt, alloc);
    assert_eq!(rt; judge.rooms(), 2);
    assert!(rt; judge.has_room_for(&main));
}

#[test]
fn parents_run_before_they_spawn(rt: HostRuntime) {
    let mut judge = with_two_rooms(&rt, rt.alloc());
    judge.take(spawn(0, 0, 0, &[])).expect(&rt, "main");
    let child = spawn(1, 0, 3, &[0]);
    assert_eq!(rt; judge.judge(&child), Err(BrokenRule::ParentNotRunning));
}

#[test]
fn judge_follows_a_run(rt: HostRuntime) {
    let mut judge = with_main(&rt, rt.alloc());
    let child = spawn(1, 0, 3, &[0]);
    if judge.judge(&child).is_ok() && judge.has_room_for(&child) {
        judge.put(child);
    }
    assert_eq!(rt; (judge.count(), judge.rooms()), (2, 0));
    let cowns = judge.cowns_of(1).expect(&rt, "the child");
    assert_eq!(rt; cowns.as_slice(), [0].as_slice());
    assert!(rt; judge.cowns_of(2).is_none());
    // The child was spawned at tick 3.
    let early = judge.judge(&end(0, 2, &[]));
    assert_eq!(rt; early, Err(BrokenRule::EndNotAllowed));
    assert!(rt; judge.take(end(0, 2, &[])).is_err());
    assert!(rt; !judge.is_complete() && judge.into_rows().is_err());
}
