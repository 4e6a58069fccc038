// Rows that take typical ticks.

ghost use Rattle.std.specs.Prelude.{◌≡◌, ◌+◌, ◌<◌, All, IfOk, length, max};
ghost use Rattle.boc_program.specs.declared.limits.TheConstants.{MOST_ROWS};
ghost use Rattle.boc_runs.specs.Rows.{IsRows};
ghost use Rattle.boc_runs.specs.Changes.{part_of};
ghost use Rattle.boc_typical.specs.Medians.{AreTypicalTicks};
ghost use Rattle.boc_typical.specs.Typical.{IsTypical};
ghost use Rattle.boc_typical.specs.Spread.{AreMiddles, AreMiddlesBy, AreOffsets, AreTimed};

use crate::medians::typical_ticks;
use boc_program::limits::MOST_ROWS;
use boc_runs::rows::{Row, Rows};
use std::alloc::{AllocError, Global};

/// When the rows are spawned, and when each one's last child is.
#[derive(Drop)]
pub(crate) struct Offsets {
    /// The offset of each row.
    pub offsets: Vec<u32>,
    /// The offset of each row's last child, or 0 where it has none.
    pub lasts: Vec<u32>,
}

// Returns for each row the typical ticks of its def.
fn middles_of(alloc: Global, defs: &[u32], typical: &[u32]) -> Result<Vec<u32>, AllocError>
    requires { All (λ d. d < length typical.now) defs.now }
    ensures { IfOk result (λ middles. AreMiddlesBy defs.now typical.now middles.items) }
{
    let mut middles = Vec::with_capacity(alloc, defs.len())?;
    for def in defs {
        middles.push(typical[*def as usize])?;
    }
    Ok(middles)
}

// Returns an offset times `middle / ticks`, rounded up, or one more than the offset of the earlier sibling if that is greater.
fn offset_after(offset: u32, middle: u32, ticks: u32, elder: u32) -> u64
    requires { 0 < ticks }
    ensures { result ≡ max (part_of middle ticks offset) (elder + 1) }
{
    (u64::from(offset) * u64::from(middle))
        .div_ceil(u64::from(ticks))
        .max(u64::from(elder) + 1)
}

// Returns when the rows are spawned, where each takes these ticks, and the offsets of its children change in proportion.
fn offsets_of(alloc: Global, rows: &[Row], middles: &[u32]) -> Result<Offsets, AllocError>
    requires shape { IsRows rows.now }
    requires middles { AreMiddles rows.now middles.now }
    ensures { IfOk result (λ all. AreOffsets rows.now middles.now all.offsets.items all.lasts.items) }
{
    let mut offsets = Vec::with_capacity(alloc, rows.len())?;
    let mut lasts = vec![in alloc; 0_u32; rows.len()]?;
    offsets.push(0)?;
    for row in 1..rows.len() {
        let own = &rows[row];
        let parent = own.parent as usize;
        let above = &rows[parent];
        let last = lasts[parent];
        let next = offset_after(own.offset, middles[parent], above.ticks, last);
        let offset = next as u32;
        offsets.push(offset)?;
        lasts[parent] = offset;
    }
    Ok(Offsets { offsets, lasts })
}

// Returns a row with another offset and other ticks.
fn timed_row(row: &Row, offset: u32, ticks: u32) -> Row
    ensures { result ≡ record row.now { offset = offset; ticks = ticks } }
{
    let mut own = row.duplicate();
    own.offset = offset;
    own.ticks = ticks;
    own
}

// Returns the rows with these offsets, and with the ticks that they are to take, or those that their last children need.
fn timed(
    alloc: Global,
    rows: &[Row],
    middles: &[u32],
    offsets: &[u32],
    lasts: &[u32],
) -> Result<Vec<Row>, AllocError>
    requires middles { length middles.now ≡ length rows.now }
    requires offsets { length offsets.now ≡ length rows.now }
    requires lasts { length lasts.now ≡ length rows.now }
    ensures { IfOk result (λ list. AreTimed rows.now middles.now offsets.now lasts.now list.items) }
{
    let mut list = Vec::with_capacity(alloc, rows.len())?;
    for (place, row) in rows.iter().enumerate() {
        let ticks = middles[place].max(lasts[place]);
        list.push(timed_row(row, offsets[place], ticks))?;
    }
    Ok(list)
}

/// Returns the rows in which each takes the typical ticks of its def: the median of what the def's rows took. Its children are spawned sooner or later
/// in proportion, rounded up, and each a tick after its earlier sibling at least. A row takes as many ticks as its last child's offset where those are more.
/// Nothing else changes. These are the defs of the rows. `AllocError` says that memory was refused.
///
/// It goes over the rows a few times, and sorts their ticks.
pub fn typical_rows(alloc: Global, rows: &Rows, defs: &[u32]) -> Result<Rows, AllocError>
    requires defs { length defs.now ≡ length rows.now }
    requires few_defs { All (λ d. d < MOST_ROWS) defs.now }
    ensures { IfOk result (IsTypical rows.now defs.now) }
{
    let typical = typical_ticks(alloc, rows, defs, MOST_ROWS)?;
    let middles = middles_of(alloc, defs, &typical)?;
    let all = offsets_of(alloc, rows.as_slice(), &middles)?;
    let list = timed(alloc, rows.as_slice(), &middles, &all.offsets, &all.lasts)?;
    Ok(Rows::new(list))
}
