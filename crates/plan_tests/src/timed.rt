//! Whether the worked rows of a transfer ran by a schedule for some workers.

ghost use Rattle.std.specs.Prelude.{◌<◌, ◌^◌, All};

use crate::worked_rows::transfer;
use boc_busy::{TimedRows, timed_rows};
use std::alloc::Global;
use std::process::Abort;

// Returns when the transfer's rows ran that start so on these of p workers, if that is a schedule.
fn transfer_timed(
    rt: &impl Abort,
    alloc: Global,
    p: u32,
    starts: [u64; 4],
    workers: [u32; 4],
) -> Option<TimedRows>
    requires some { 0 < p }
    requires low { All (λ start. start < 2 ^ 62) starts }
{
    let rows = transfer(rt, alloc);
    let starts = Vec::from_array(alloc, starts).expect(rt, "memory");
    let workers = Vec::from_array(alloc, workers).expect(rt, "memory");
    timed_rows(alloc, &rows, p, starts, workers).expect(rt, "memory")
}

#[test]
fn transfer_by_two_workers(rt: HostRuntime) {
    let timed = transfer_timed(&rt, rt.alloc(), 2, [0, 2, 4, 7], [0, 1, 0, 0]);
    let timed = timed.expect(&rt, "a schedule");
    assert_eq!(rt; timed.p, 2);
    assert_eq!(rt; timed.starts.as_slice(), [0, 2, 4, 7].as_slice());
    assert_eq!(rt; timed.ends.as_slice(), [4, 4, 7, 9].as_slice());
    assert_eq!(rt; timed.workers.as_slice(), [0, 1, 0, 0].as_slice());
    assert_eq!(rt; timed.ends_at, 9);
    assert_eq!(rt; timed.bound, 14);
}

#[test]
fn transfer_by_one_worker(rt: HostRuntime) {
    let timed = transfer_timed(&rt, rt.alloc(), 1, [0, 4, 6, 9], [0, 0, 0, 0]);
    let timed = timed.expect(&rt, "a schedule");
    assert_eq!(rt; timed.ends_at, 11);
    assert_eq!(rt; timed.bound, 20);
}

#[test]
fn other_starts_are_refused(rt: HostRuntime) {
    let starts_before_its_spawn = transfer_timed(&rt, rt.alloc(), 2, [0, 1, 4, 7], [0, 1, 0, 0]);
    assert!(rt; starts_before_its_spawn.is_none());
    let starts_before_the_deposit_ends = transfer_timed(
        &rt,
        rt.alloc(),
        3,
        [0, 2, 3, 6],
        [0, 1, 2, 0],
    );
    assert!(rt; starts_before_the_deposit_ends.is_none());
    let two_rows_on_one_worker = transfer_timed(&rt, rt.alloc(), 2, [0, 2, 4, 7], [0, 0, 0, 0]);
    assert!(rt; two_rows_on_one_worker.is_none());
    let no_such_worker = transfer_timed(&rt, rt.alloc(), 2, [0, 2, 4, 7], [0, 2, 0, 0]);
    assert!(rt; no_such_worker.is_none());
    let ends_after_the_bound = transfer_timed(&rt, rt.alloc(), 2, [0, 2, 4, 13], [0, 1, 0, 0]);
    assert!(rt; ends_after_the_bound.is_none());
    let one_worker_pauses = transfer_timed(&rt, rt.alloc(), 1, [0, 4, 6, 10], [0, 0, 0, 0]);
    assert!(rt; one_worker_pauses.is_none());
}
