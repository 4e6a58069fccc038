//! Chains of worked rows that are true or false. The profiles of worked rows are in the tables that `tables` works through.

use crate::worked_rows::{peek_and_set, transfer, waiting_for_both};
use boc_order::check_chain;
use boc_plans::chain::{Chain, ChainStep, Via};
use boc_plans::sharing::Sharing;
use boc_runs::rows::Rows;
use std::alloc::Global;
use std::process::Abort;

fn step(row: u32, via: Via, weight: u32) -> ChainStep {
    ChainStep { row, via, weight }
}

// For each of these chains of the rows this is answered.
fn are_checked(
    rt: &impl Abort,
    alloc: Global,
    rows: &Rows,
    sharing: Sharing,
    cases: &[(&[ChainStep], Result<u64, usize>)],
) {
    for (place, (steps, wanted)) in cases.iter().enumerate() {
        let steps = steps.to_vec(alloc).expect(rt, "memory");
        let found = check_chain(rows, &Chain { steps }, sharing);
        assert_eq!(rt; (place, found), (place, *wanted));
    }
}

#[test]
fn chains_are_checked(rt: HostRuntime) {
    let alloc = rt.alloc();
    let rows = transfer(&rt, alloc);
    let main = step(0, Via::Spawn, 2);
    let deposit = step(1, Via::Order, 2);
    let both = step(2, Via::Order, 3);
    let last = step(3, Via::Last, 2);
    let heavy = step(1, Via::Order, 3);
    let cases: [(&[ChainStep], Result<u64, usize>); 7] = [
        (&[main, deposit, both, last], Ok(9)),
        (&[step(0, Via::Spawn, 4), last], Ok(6)),
        (&[main, heavy, both, last], Err(1)),
        (&[main, deposit, last], Err(1)),
        (&[main, deposit], Err(1)),
        (&[deposit, both, last], Err(0)),
        (&[], Err(0)),
    ];
    are_checked(&rt, alloc, &rows, Sharing::Exclusive, &cases);
}

#[test]
fn true_chain_and_false_ones_over_two_cowns(rt: HostRuntime) {
    let alloc = rt.alloc();
    let rows = waiting_for_both(&rt, alloc);
    let main = step(0, Via::Spawn, 2);
    let first = step(1, Via::Order, 3);
    let last = step(3, Via::Last, 1);
    let cases: [(&[ChainStep], Result<u64, usize>); 4] = [
        (&[main, first, last], Ok(6)),
        (&[main, step(1, Via::Order, 2), last], Err(1)),
        (&[main, first, step(2, Via::Last, 2)], Err(1)),
        (&[], Err(0)),
    ];
    are_checked(&rt, alloc, &rows, Sharing::Exclusive, &cases);
}

#[test]
fn two_readers_are_ordered_only_where_cowns_are_exclusive(rt: HostRuntime) {
    let alloc = rt.alloc();
    let rows = peek_and_set(&rt, alloc);
    let chain = [
        step(0, Via::Spawn, 2),
        step(1, Via::Order, 7),
        step(2, Via::Order, 7),
        step(3, Via::Last, 2),
    ];
    let past_one = [
        step(0, Via::Spawn, 3),
        step(2, Via::Order, 7),
        step(3, Via::Last, 2),
    ];
    let exclusive: [(&[ChainStep], Result<u64, usize>); 2] = [
        (&chain, Ok(18)),
        (&past_one, Ok(12)),
    ];
    are_checked(&rt, alloc, &rows, Sharing::Exclusive, &exclusive);
    let shared: [(&[ChainStep], Result<u64, usize>); 2] = [(&chain, Err(1)), (&past_one, Ok(12))];
    are_checked(&rt, alloc, &rows, Sharing::SharedReads, &shared);
}
