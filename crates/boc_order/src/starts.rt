// Before which tick no row that wrote a cown starts.

ghost use Rattle.std.specs.Prelude.{◌≡◌, ◌+◌, ◌<◌, length, IfOk};
ghost use Rattle.boc_runs.specs.Rows.{IsRows};
ghost use Rattle.boc_order.specs.Least.{AreFirstStarts, sooner};

use boc_plans::sharing::SeenRows;
use boc_program::limits::MOST_COWNS;
use std::alloc::{AllocError, Global};

// Returns the sooner of a start and the one before it, if there was one.
fn sooner(first: Option<u64>, start: u64) -> u64
    ensures { result ≡ sooner first start }
{
    match first {
        Some(first) => first.min(start),
        None => start,
    }
}

// Notes the start of the next row for each cown that it wrote.
fn note_start(rows: &SeenRows, starts: &[u64], row: usize, firsts: &mut [Option<u64>])
    requires shape { IsRows rows.now }
    requires whole { length starts.now ≡ length rows.now }
    requires there { row < length rows.now }
    requires firsts { AreFirstStarts rows.now starts.now row firsts.old }
    ensures { AreFirstStarts rows.now starts.now (row + 1) firsts.new }
{
    let start = starts[row];
    for own in rows.cowns(row) {
        if rows.writes(row, *own) {
            let first = firsts[*own as usize];
            firsts[*own as usize] = Some(sooner(first, start));
        }
    }
}

/// Returns for each cown the earliest start of a row that wrote it, if any did, where the rows start so. `AllocError` says that memory was refused.
pub fn first_starts(
    alloc: Global,
    rows: &SeenRows,
    starts: &[u64],
) -> Result<Vec<Option<u64>>, AllocError>
    requires shape { IsRows rows.now }
    requires whole { length starts.now ≡ length rows.now }
    ensures { IfOk result (λ firsts. AreFirstStarts rows.now starts.now (length rows.now) firsts.items) }
{
    let mut firsts = vec![in alloc; None; MOST_COWNS]?;
    for row in 0..rows.len() {
        note_start(rows, starts, row, &mut firsts);
    }
    Ok(firsts)
}
