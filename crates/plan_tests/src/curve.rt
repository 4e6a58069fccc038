//! A curve of worked rows, and what is reported while many rows are swept. Other plans are in `tests/suite` and in the tables that `tables` works through.

use crate::worked_rows::{row, rows_of, transfer};
use boc_greedy::{CurvePoint, curve};
use boc_plans::sharing::Sharing;
use boc_program::count::Workers;
use boc_runs::rows::Row;
use boc_whatif::{Progress, WhatIf};
use std::alloc::{AllocError, Global};
use std::process::Abort;
use std::thread::Threads;

fn so_many(rt: &impl Abort, number: u32) -> Workers {
    Workers::new(number).expect(rt, "a number of workers")
}

fn point(workers: u32, end: u64, low: u64, bound: u64) -> CurvePoint {
    CurvePoint {
        workers,
        end,
        low,
        bound,
    }
}

#[test]
fn transfer_by_more_workers(rt: HostRuntime) {
    let rows = transfer(&rt, rt.alloc());
    let most = so_many(&rt, 4);
    let points = curve(&rt, rt.alloc(), &rows, Sharing::Exclusive, most).expect(&rt, "memory");
    let wanted = [
        point(1, 11, 11, 20),
        point(2, 9, 9, 14),
        point(3, 9, 9, 12),
        point(4, 9, 9, 11),
    ];
    assert_eq!(rt; points.as_slice(), wanted.as_slice());
}

/// Keeps the last report, and counts the reports.
#[derive(Drop)]
struct Told {
    rows: usize,
    of: usize,
    times: u32,
}

impl Progress for Told {
    fn done(&mut self, rows: usize, of: usize) {
        self.rows = rows;
        self.of = of;
        self.times = self.times.wrapping_add(1);
    }
}

// Main, and this many rows that it spawns, a tick after each other. Each takes three ticks.
fn many_rows(alloc: Global, count: u32) -> Result<Vec<Row>, AllocError> {
    let mut list = Vec::new(alloc);
    list.push(row(0, 0, &[], 1_000))?;
    for number in 0..count {
        list.push(row(0, number + 1, &[], 3))?;
    }
    Ok(list)
}

// Returns the ends of the greedy plans for 64 workers with one row after another at its least ticks.
fn ends_of(rt: &(impl Abort + Threads + Sync), alloc: Global, told: &mut Told) -> Vec<u64> {
    let rows = rows_of(rt, many_rows(alloc, 599).expect(rt, "memory"));
    let question = WhatIf::of(alloc, rows, Sharing::Exclusive).expect(rt, "memory");
    let ends = question.greedy_sweep(rt, alloc, so_many(rt, 64), told);
    ends.expect(rt, "memory")
}

#[test]
fn progress_is_told_of_all_rows(rt: HostRuntime) {
    let mut told = Told {
        rows: 0,
        of: 0,
        times: 0,
    };
    let ends = ends_of(&rt, rt.alloc(), &mut told);
    assert_eq!(rt; (told.rows, told.of, told.times), (600, 600, 1));
    // Main ends at 1,000, or as soon as it has spawned the last row, which ends three ticks later.
    assert_eq!(rt;
        (ends.first().copied(), ends.last().copied()),
        (Some(602), Some(1_000))
    );
}
