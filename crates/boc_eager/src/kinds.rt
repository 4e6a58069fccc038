// Rows of one kind: they have the same cowns, and write the same of them, so at each tick all of them can start, or none.

ghost use Rattle.std.specs.Prelude.{◌≡◌, ◌==◌, ◌<◌, ℕ, Some, IfOk, if◌then◌else◌, length};
ghost use Rattle.std.specs.Option.{unwrap_or};
ghost use Rattle.std.specs.Ordering.{nat_cmp};
ghost use Rattle.std.specs.BTreeMap as tree;
ghost use Rattle.boc_runs.specs.Rows.{IsRows};
ghost use Rattle.boc_eager.specs.Kinds.{AreKinds, kind_code};

use boc_plans::sharing::SeenRows;
use boc_program::limits::MOST_COWNS;
use std::alloc::{AllocError, Global};
use std::collections::BTreeMap;

// Returns the cowns of a row, and which it writes, as one number: a 1, and for each cown a number below twice the most cowns.
fn code_of(rows: &SeenRows, row: usize) -> u128
    requires shape { IsRows rows.now }
    requires there { row < length rows.now }
    ensures { result ≡ kind_code rows.now row }
{
    let mut code = 1;
    for cown in rows.held(row).as_slice() {
        let writes = u128::from(rows.writes(row, *cown));
        code = code * (2 * MOST_COWNS as u128) + 2 * u128::from(*cown) + writes;
    }
    code
}

// Returns the row that was seen first with a code, which is this one if there was none before.
fn first_with(seen: &mut BTreeMap<u128, u32>, code: u128, row: u32) -> Result<u32, AllocError>
    ensures first { IfOk result (λ first. first ≡ unwrap_or (tree.get nat_cmp seen.old code) row) }
    ensures seen { IfOk result (λ first. (q : ℕ) → tree.get nat_cmp seen.new q ≡ (if q == code then Some first else tree.get nat_cmp seen.old q)) }
{
    if let Some(first) = seen.get(&code) {
        return Ok(*first);
    }
    seen.insert(code, row)?;
    Ok(row)
}

/// Returns the kind of each row: rows that have the same cowns, and write the same of them, have one number, which is that of the first of them.
/// `AllocError` says that memory was refused.
pub(crate) fn kinds_of(alloc: Global, rows: &SeenRows) -> Result<Vec<u32>, AllocError>
    requires shape { IsRows rows.now }
    ensures { IfOk result (λ kinds. AreKinds rows.now kinds.items) }
{
    let mut seen = BTreeMap::new(alloc);
    let mut kinds = Vec::with_capacity(alloc, rows.len())?;
    for row in 0..rows.len() {
        let kind = first_with(&mut seen, code_of(rows, row), row as u32)?;
        kinds.push_reserved(kind);
    }
    Ok(kinds)
}
