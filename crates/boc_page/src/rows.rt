// The columns of rows.

ghost use Rattle.std.specs.Prelude.{◌≡◌, IfOk, map};
ghost use Rattle.boc_page.specs.Columns.{cowns_of, faults_from, status_number, wrote_of};

use boc_program::body::EndStatus;
use boc_program::short::HeldCown;
use boc_runs::rows::Row;
use std::alloc::{AllocError, Global};

/// Returns the parent of each row.
pub(crate) fn parents(alloc: Global, rows: &[Row]) -> Result<Vec<u64>, AllocError>
    ensures { IfOk result (λ column. column.items ≡ map (λ r. r.parent) rows.now) }
{
    let mut column = Vec::with_capacity(alloc, rows.len())?;
    for row in rows {
        column.push(u64::from(row.parent))?;
    }
    Ok(column)
}

/// Returns the ticks of its parent at which each row is spawned.
pub(crate) fn offsets(alloc: Global, rows: &[Row]) -> Result<Vec<u64>, AllocError>
    ensures { IfOk result (λ column. column.items ≡ map (λ r. r.offset) rows.now) }
{
    let mut column = Vec::with_capacity(alloc, rows.len())?;
    for row in rows {
        column.push(u64::from(row.offset))?;
    }
    Ok(column)
}

/// Returns the ticks of each row.
pub(crate) fn ticks(alloc: Global, rows: &[Row]) -> Result<Vec<u64>, AllocError>
    ensures { IfOk result (λ column. column.items ≡ map (λ r. r.ticks) rows.now) }
{
    let mut column = Vec::with_capacity(alloc, rows.len())?;
    for row in rows {
        column.push(u64::from(row.ticks))?;
    }
    Ok(column)
}

// Returns cowns as numbers.
fn cowns_of(alloc: Global, cowns: &[HeldCown]) -> Result<Vec<u64>, AllocError>
    ensures { IfOk result (λ numbers. numbers.items ≡ cowns.now) }
{
    let mut numbers = Vec::with_capacity(alloc, cowns.len())?;
    for cown in cowns {
        numbers.push(u64::from(*cown))?;
    }
    Ok(numbers)
}

/// Returns the cowns of each row, rising.
pub(crate) fn holds(alloc: Global, rows: &[Row]) -> Result<Vec<Vec<u64>>, AllocError>
    ensures { IfOk result (λ column. map (λ c. c.items) column.items ≡ map cowns_of rows.now) }
{
    let mut column = Vec::with_capacity(alloc, rows.len())?;
    for row in rows {
        column.push(cowns_of(alloc, row.cowns.as_slice())?)?;
    }
    Ok(column)
}

// Returns the sum of 2^k for each k whose cown was written.
fn wrote_of(row: &Row) -> u64
    ensures { result ≡ wrote_of row.now }
{
    let written = row.written.as_slice();
    let mut sum: u64 = 0;
    let mut bit: u64 = 1;
    for cown in row.cowns.as_slice() {
        if written.contains(cown) {
            sum += bit;
        }
        bit *= 2;
    }
    sum
}

/// Returns for each row which of its cowns it wrote.
pub(crate) fn wrote(alloc: Global, rows: &[Row]) -> Result<Vec<u64>, AllocError>
    ensures { IfOk result (λ column. column.items ≡ map wrote_of rows.now) }
{
    let mut column = Vec::with_capacity(alloc, rows.len())?;
    for row in rows {
        column.push(wrote_of(row))?;
    }
    Ok(column)
}

// Returns the number of a status, as records have it.
fn status_number(status: EndStatus) -> u64
    ensures { result ≡ status_number status }
{
    match status {
        EndStatus::Done => 0,
        EndStatus::Overflow => 1,
        EndStatus::ZeroDivisor => 2,
        EndStatus::OutOfRange => 3,
        EndStatus::SameCown => 4,
        EndStatus::Negative => 5,
        EndStatus::TickCap => 6,
    }
}

/// Returns the rows that did not end with status 0, each with its status.
pub(crate) fn faults(alloc: Global, rows: &[Row]) -> Result<Vec<Vec<u64>>, AllocError>
    ensures { IfOk result (λ column. map (λ f. f.items) column.items ≡ faults_from 0 rows.now) }
{
    let mut column = Vec::new(alloc);
    for number in 0..rows.len() {
        let status = status_number(rows[number].status);
        if status != 0 {
            column.push(Vec::from_slice(alloc, &[number as u64, status])?)?;
        }
    }
    Ok(column)
}
