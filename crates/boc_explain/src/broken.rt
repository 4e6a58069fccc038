// Events that break a rule of runs: which one, by what.

use crate::formed::{COARSER_TICKS, FEWER_ROWS, column_of, is_space, number, put_last_child};
use crate::run::{Life, last_child, life_of, row_count, run_before};
use boc_program::limits::{MOST_ROWS, MOST_TICKS};
use boc_program::short::Cowns;
use boc_record::{RecordFault, RecordFaultKind as Kind};
use boc_rules::Judge;
use boc_said::said::Part::{Many, Number};
use boc_said::said::{Said, Told, first_case};
use boc_text::read_number;
use std::alloc::{AllocError, Global};

/// Reports which rule the event of a line breaks, by what.
pub(crate) fn put_broken(said: &mut Said, text: &[u8], line: &[u8], fault: RecordFault) -> Told {
    let numbers = numbers_in(said.alloc, line)?;
    let run = run_before(said.alloc, text, fault.line)?;
    let faulty = match fault.kind {
        Kind::NumberNotNext => 1,
        Kind::ParentNotRunning => 2,
        Kind::Offset => 3,
        _ => 0,
    };
    said.set_column(column_of(line, faulty));
    put_event(said, &run, fault.kind, numbers.as_slice())
}

// Returns the numbers of the fields after the first one.
fn numbers_in(alloc: Global, line: &[u8]) -> Result<Vec<u32>, AllocError> {
    let mut numbers = Vec::new(alloc);
    for field in line.split(is_space).skip(1) {
        if let Some(number) = read_number(field) {
            numbers.push(number)?;
        }
    }
    Ok(numbers)
}

// Reports why a start, an end or a spawn with these numbers can't be.
fn put_event(said: &mut Said, run: &Judge, kind: Kind, numbers: &[u32]) -> Told {
    let [row, second, third] = [0, 1, 2].map(|place| numbers.get(place).copied().unwrap_or(0));
    let cowns = numbers.get(3..).unwrap_or(&[]);
    match kind {
        Kind::StartNotAllowed => put_start(said, run, row),
        Kind::EndNotAllowed => put_end(said, run, row, second, cowns),
        _ => put_spawn(said, run, kind, [second, third], cowns),
    }
}

// Reports why a row can't be spawned so: by this parent, at this offset, over these cowns.
fn put_spawn(
    said: &mut Said,
    run: &Judge,
    kind: Kind,
    [parent, offset]: [u32; 2],
    cowns: &[u32],
) -> Told {
    let is_full = run.count() >= MOST_ROWS;
    if let Some(reason) = flat_reason(kind, is_full, run.count() == 0) {
        said.about(reason, &[])?;
        return if is_full {
            said.words(FEWER_ROWS)
        } else {
            Ok(())
        };
    }
    match kind {
        Kind::NumberNotNext => said.about("the next row is ", &[Number(run.count() as u64)]),
        Kind::ParentNotRunning => {
            said.about(parent_words(life_of(run, parent)), &[number(parent)])
        }
        Kind::Offset => put_offset(said, run, parent, offset),
        _ => put_cowns(said, run.cowns(), cowns),
    }
}

// Returns why no row can be spawned so whatever its numbers are: the run is full, or has no row yet, and the first is main.
#[rattlefmt::skip]
fn flat_reason(kind: Kind, is_full: bool, is_main: bool) -> Option<&'static str> {
    first_case(&[
        (kind == Kind::TooMany, "a run has at most 65535 rows"),
        (kind == Kind::NumberNotNext && is_full, "a run has at most 65535 rows, and this is one more"),
        (kind == Kind::ParentNotRunning && is_main, "row 0 is main; its parent must be 0"),
        (kind == Kind::Offset && is_main, "row 0 is main; its offset must be 0"),
        (kind == Kind::Cowns && is_main, "row 0 is main, which has no cowns"),
    ])
}

// Returns how far a parent has come that doesn't run.
fn parent_words(life: Option<Life>) -> &'static str {
    match life {
        None => "row {}, its parent, is not spawned yet",
        Some(Life::Pending) => "row {}, its parent, hasn't started",
        Some(_) => "row {}, its parent, has ended",
    }
}

// Reports from which offset on a parent can spawn, or that it can spawn no more.
fn put_offset(said: &mut Said, run: &Judge, parent: u32, offset: u32) -> Told {
    if offset > MOST_TICKS {
        said.about("an offset is at most 1000000", &[])?;
        return said.words(COARSER_TICKS);
    }
    let Some((child, tick)) = last_child(run.rows(), parent) else {
        return said.about("an offset is at least 1", &[]);
    };
    if tick == MOST_TICKS {
        let words =
            "row {} spawned row {} at its tick 1000000, the largest offset, and can spawn no more";
        said.about(words, &[number(parent), Number(child)])?;
        return said.words(COARSER_TICKS);
    }
    let words = "row {} spawned row {} at its tick {}, so the offset is at least ";
    let least = number(tick.saturating_add(1));
    put_last_child(said, words, parent, (child, tick), least)
}

fn put_cowns(said: &mut Said, count: u32, cowns: &[u32]) -> Told {
    let Some(cown) = cowns.iter().find(|cown| **cown >= count) else {
        return said.about("cowns must rise, each above the one before it", &[]);
    };
    let words = "there is no cown {}; the first line declares {}, from 0 on";
    said.about(words, &[number(*cown), Many(u64::from(count), "cown")])
}

// Returns how far a row has come that has no such event now.
fn life_words(life: Option<Life>) -> &'static str {
    match life {
        None => "row {} is not spawned yet",
        Some(Life::Pending) => "row {} hasn't started",
        Some(Life::Running) => "row {} has started already",
        Some(Life::Ended) => "row {} has ended already",
    }
}

// Reports which row is in the way of a start, over which cown: one that runs, or that was spawned before it.
fn put_start(said: &mut Said, run: &Judge, row: u32) -> Told {
    let life = life_of(run, row);
    if life != Some(Life::Pending) {
        return said.about(life_words(life), &[number(row)]);
    }
    for other in 0..row_count(run) {
        let life = life_of(run, other);
        if let Some(cown) = common_cown(run, other, row) {
            let (first, cown) = (number(other), number(cown));
            if life == Some(Life::Running) {
                return said.about("row {} is running, and has cown {} too", &[first, cown]);
            }
            if life == Some(Life::Pending) && other < row {
                let words = "row {} was spawned before row {}, hasn't started, and has cown {} too";
                return said.about(words, &[first, number(row), cown]);
            }
        }
    }
    Ok(())
}

// Returns the first cown of a row that another one has too.
fn common_cown(run: &Judge, row: u32, other: u32) -> Option<u32> {
    let others = run.cowns_of(other)?.as_slice();
    let own = run.cowns_of(row)?.as_slice();
    let cown = own.iter().find(|cown| others.contains(cown))?;
    Some(u32::from(*cown))
}

// Reports why a row can't end so: after these ticks, with these cowns written.
fn put_end(said: &mut Said, run: &Judge, row: u32, ticks: u32, written: &[u32]) -> Told {
    let life = life_of(run, row);
    if life != Some(Life::Running) {
        return said.about(life_words(life), &[number(row)]);
    }
    if ticks > MOST_TICKS {
        said.about("{} ticks; a row takes at most 1000000", &[number(ticks)])?;
        return said.words(COARSER_TICKS);
    }
    if let Some((child, tick)) = last_child(run.rows(), row)
        && tick > ticks
    {
        let words = "row {} spawned row {} at its tick {}, so it takes at least ";
        let least = Many(u64::from(tick), "tick");
        return put_last_child(said, words, row, (child, tick), least);
    }
    if ticks == 0 {
        return said.about("0 ticks; a row takes at least 1", &[]);
    }
    let own = run.cowns_of(row).map_or(Cowns::new(), |own| own.widened());
    match written.iter().find(|cown| !own.contains(cown)) {
        Some(cown) => said.about("row {} doesn't have cown ", &[number(row), number(*cown)]),
        None => said.about("written cowns must rise, each above the one before it", &[]),
    }
}
