// The last child of each row, and the ticks that a row can take.

ghost use Rattle.std.specs.Prelude.{◌≡◌, max, IfOk};
ghost use Rattle.boc_runs.specs.Rows.{IsRows};
ghost use Rattle.boc_sweep.specs.Lasts.{HasLasts};

use boc_runs::rows::Row;
use std::alloc::{AllocError, Global};

/// Returns the offset of each row's last child, and 0 for a row without one. `AllocError` says that memory was refused.
pub fn last_children(alloc: Global, rows: &[Row]) -> Result<Vec<u32>, AllocError>
    requires { IsRows rows.now }
    ensures { IfOk result (λ lasts. HasLasts rows.now lasts.items) }
{
    let mut lasts = vec![in alloc; 0; rows.len()]?;
    for row in rows {
        lasts[row.parent as usize] = row.offset;
    }
    Ok(lasts)
}

/// Returns the fewest ticks that a row can take whose last child has this offset.
pub fn least_ticks(last: u32) -> u32
    ensures { result ≡ max 1 last }
{
    last.max(1)
}
