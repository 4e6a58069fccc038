// Typical ticks: for each def the median of its rows' ticks.

ghost use Rattle.std.specs.Prelude.{◌≡◌, ◌<◌, ◌≤◌, All, IfOk, length};
ghost use Rattle.std.specs.List.Sorted.{IsNonDecreasingBy, IsPermutation};
ghost use Rattle.boc_program.specs.declared.limits.TheConstants.{MOST_ROWS};
ghost use Rattle.boc_typical.specs.Medians.{AreTypicalTicks};
ghost use Rattle.boc_typical.specs.Taken.{AreCounts, AreCountsOf, AreMediansOf, taken};

use boc_runs::rows::{Row, Rows};
use std::alloc::{AllocError, Global};

/// The def of a row, and the ticks that it took.
#[derive(Clone, Copy, PartialEq, Eq, Debug)]
pub(crate) struct DefTicks {
    pub def: u32,
    pub ticks: u32,
}

// Returns the def and the ticks of each row. `AllocError` says that memory was refused.
fn taken(alloc: Global, rows: &[Row], defs: &[u32]) -> Result<Vec<DefTicks>, AllocError>
    requires { length defs.now ≡ length rows.now }
    ensures { IfOk result (λ all. all.items ≡ taken rows.now defs.now) }
{
    let mut all = Vec::with_capacity(alloc, rows.len())?;
    for (place, row) in rows.iter().enumerate() {
        all.push(DefTicks {
            def: defs[place],
            ticks: row.ticks,
        })?;
    }
    Ok(all)
}

// Returns the same, those first that took the fewest ticks.
fn in_order(alloc: Global, rows: &[Row], defs: &[u32]) -> Result<Vec<DefTicks>, AllocError>
    requires { length defs.now ≡ length rows.now }
    ensures moved { IfOk result (λ all. IsPermutation (taken rows.now defs.now) all.items) }
    ensures rise { IfOk result (λ all. IsNonDecreasingBy (λ t. t.ticks) all.items) }
{
    let mut all = taken(alloc, rows, defs)?;
    all.sort_unstable_by_key(|own| own.ticks);
    Ok(all)
}

// Returns for each def below the bound how many rows are of it.
fn counts_of(alloc: Global, defs: &[u32], bound: usize) -> Result<Vec<u32>, AllocError>
    requires below { All (λ d. d < bound) defs.now }
    requires few { length defs.now ≤ MOST_ROWS }
    ensures { IfOk result (λ counts. AreCounts defs.now bound counts.items) }
{
    let mut counts = vec![in alloc; 0_u32; bound]?;
    for def in defs {
        counts[*def as usize] += 1;
    }
    Ok(counts)
}

// Returns for each def the median of its ticks, of which the fewest come first. `counts` has the number of rows of each def.
fn medians_of(alloc: Global, all: &[DefTicks], counts: &[u32]) -> Result<Vec<u32>, AllocError>
    requires rise { IsNonDecreasingBy (λ t. t.ticks) all.now }
    requires below { All (λ t. t.def < length counts.now) all.now }
    requires counts { AreCountsOf all.now counts.now }
    requires few { length all.now ≤ MOST_ROWS }
    ensures { IfOk result (λ medians. AreMediansOf all.now counts.now medians.items) }
{
    let mut seen = vec![in alloc; 0_u32; counts.len()]?;
    let mut medians = vec![in alloc; 0_u32; counts.len()]?;
    for own in all {
        let def = own.def as usize;
        let middle = counts[def].saturating_sub(1) / 2;
        let before = seen[def];
        if before == middle {
            medians[def] = own.ticks;
        }
        seen[def] = before + 1;
    }
    Ok(medians)
}

/// Returns for each def below the bound the typical ticks of its rows: of its ticks in rising order the one in the middle, and of two there the first. It is 0
/// where no row is of the def. These are the defs of the rows. `AllocError` says that memory was refused.
///
/// It takes memory that grows with the number of rows and with the bound, and the time to sort the rows by their ticks.
pub fn typical_ticks(
    alloc: Global,
    rows: &Rows,
    defs: &[u32],
    bound: usize,
) -> Result<Vec<u32>, AllocError>
    requires defs { length defs.now ≡ length rows.now }
    requires below { All (λ d. d < bound) defs.now }
    ensures { IfOk result (λ typical. AreTypicalTicks rows.now defs.now bound typical.items) }
{
    let all = in_order(alloc, rows.as_slice(), defs)?;
    let counts = counts_of(alloc, defs, bound)?;
    medians_of(alloc, &all, &counts)
}
