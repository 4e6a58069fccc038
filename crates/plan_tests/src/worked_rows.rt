// Rows that several tests ask about.

use boc_program::body::EndStatus;
use boc_program::held::HeldCowns;
use boc_program::short::Cowns;
use boc_runs::rows::{Row, Rows};
use boc_runs::shape::are_rows;
use std::alloc::Global;
use std::process::Abort;

// These cowns as a row keeps them; none where there are more than eight, or one of them has no byte.
fn held(numbers: &[u32]) -> HeldCowns {
    let cowns = Cowns::try_from(numbers).unwrap_or_default();
    HeldCowns::try_of(&cowns).unwrap_or_else(HeldCowns::new)
}

// Returns a row that wrote all its cowns.
pub(crate) fn row(parent: u32, offset: u32, numbers: &[u32], ticks: u32) -> Row {
    Row {
        parent,
        offset,
        ticks,
        cowns: held(numbers),
        written: held(numbers),
        status: EndStatus::Done,
    }
}

// Returns a row that only read its cowns.
fn reader(parent: u32, offset: u32, numbers: &[u32], ticks: u32) -> Row {
    Row {
        written: HeldCowns::new(),
        ..row(parent, offset, numbers, ticks)
    }
}

// These rows, which have the shape of a run's.
pub(crate) fn rows_of(rt: &impl Abort, list: Vec<Row>) -> Rows {
    assert!(rt; are_rows(&list));
    Rows::new(list)
}

// These four rows, which have the shape of a run's.
fn four_rows(rt: &impl Abort, alloc: Global, rows: [Row; 4]) -> Rows {
    rows_of(rt, Vec::from_array(alloc, rows).expect(rt, "memory"))
}

// Two rows that read a cown, and one that writes it.
pub(crate) fn peek_and_set(rt: &impl Abort, alloc: Global) -> Rows {
    let rows = [
        row(0, 0, &[], 4),
        reader(0, 2, &[0], 7),
        reader(0, 3, &[0], 7),
        row(0, 4, &[0], 2),
    ];
    four_rows(rt, alloc, rows)
}

// Two deposits and a transfer between two accounts, cowns 0 and 1.
pub(crate) fn transfer(rt: &impl Abort, alloc: Global) -> Rows {
    let rows = [
        row(0, 0, &[], 4),
        row(0, 2, &[0], 2),
        row(0, 3, &[0, 1], 3),
        row(0, 4, &[1], 2),
    ];
    four_rows(rt, alloc, rows)
}

// Three rows over two cowns: the first two end one after the other, and the last needs the cowns of both.
pub(crate) fn waiting_for_both(rt: &impl Abort, alloc: Global) -> Rows {
    let rows = [
        row(0, 0, &[], 4),
        row(0, 2, &[0], 3),
        row(0, 3, &[1], 2),
        row(0, 4, &[0, 1], 1),
    ];
    four_rows(rt, alloc, rows)
}
