// What is known of each cown, column by column.

ghost use Rattle.std.specs.Prelude.{◌≡◌, ◌≤◌, length, IfOk, All};
ghost use Rattle.boc_program.specs.declared.limits.TheConstants.{MOST_COWNS, MOST_ROWS};
ghost use Rattle.boc_cowns.specs.Hot.{AreSorted};
ghost use Rattle.boc_cowns.specs.Columns.{AreListed, TellColumns};

use crate::hot::HotCown;
use boc_program::short::HeldCown;
use std::alloc::{AllocError, Global};
use std::cmp::Reverse;

/// For each cown, at its number, what `HotCown` says of it.
#[derive(Drop)]
pub(crate) struct Columns {
    pub rows: Vec<u64>,
    pub wrote: Vec<u64>,
    pub held: Vec<u64>,
    pub from: Vec<Option<u64>>,
    pub waited: Vec<u64>,
    pub chain: Vec<u64>,
    pub without: Vec<u64>,
}

/// Returns each of the given number of cowns, in the order of their numbers. `AllocError` says that memory was refused.
pub(crate) fn listed(
    alloc: Global,
    columns: &Columns,
    count: usize,
) -> Result<Vec<HotCown>, AllocError>
    requires few { count ≤ MOST_COWNS }
    requires rows { length columns.now.rows.items ≡ MOST_COWNS }
    requires wrote { length columns.now.wrote.items ≡ MOST_COWNS }
    requires held { length columns.now.held.items ≡ MOST_COWNS }
    requires from { length columns.now.from.items ≡ MOST_COWNS }
    requires waited { length columns.now.waited.items ≡ MOST_COWNS }
    requires chain { length columns.now.chain.items ≡ MOST_COWNS }
    requires without { length columns.now.without.items ≡ count }
    requires few_rows { All (λ n. n ≤ MOST_ROWS) columns.now.rows.items }
    requires few_wrote { All (λ n. n ≤ MOST_ROWS) columns.now.wrote.items }
    ensures { IfOk result (λ list. AreListed columns.now count list.items) }
{
    let mut list = Vec::new(alloc);
    for cown in 0..count {
        list.push(HotCown {
            cown: cown as HeldCown,
            rows: columns.rows[cown] as u32,
            wrote: columns.wrote[cown] as u32,
            held: columns.held[cown],
            from: columns.from[cown],
            waited: columns.waited[cown],
            chain: columns.chain[cown],
            without: columns.without[cown],
        })?;
    }
    Ok(list)
}

/// Returns each of the given number of cowns, those that are held longest first, and of those that are held as long the lowest number first. `AllocError` says
/// that memory was refused.
pub(crate) fn sorted(
    alloc: Global,
    columns: &Columns,
    count: usize,
) -> Result<Vec<HotCown>, AllocError>
    requires few { count ≤ MOST_COWNS }
    requires rows { length columns.now.rows.items ≡ MOST_COWNS }
    requires wrote { length columns.now.wrote.items ≡ MOST_COWNS }
    requires held { length columns.now.held.items ≡ MOST_COWNS }
    requires from { length columns.now.from.items ≡ MOST_COWNS }
    requires waited { length columns.now.waited.items ≡ MOST_COWNS }
    requires chain { length columns.now.chain.items ≡ MOST_COWNS }
    requires without { length columns.now.without.items ≡ count }
    requires few_rows { All (λ n. n ≤ MOST_ROWS) columns.now.rows.items }
    requires few_wrote { All (λ n. n ≤ MOST_ROWS) columns.now.wrote.items }
    ensures sorted { IfOk result (λ list. AreSorted count list.items) }
    ensures tell { IfOk result (λ list. TellColumns columns.now list.items) }
{
    let mut list = listed(alloc, columns, count)?;
    list.sort_unstable_by_key(|hot| (Reverse(hot.held), hot.cown));
    Ok(list)
}
