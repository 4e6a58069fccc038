// Rows that took very long.

ghost use Rattle.std.specs.Prelude.{◌≡◌, ◌*◌, ◌<◌, ◌^◌, All, IfOk, length, nat_lt};
ghost use Rattle.boc_program.specs.declared.limits.TheConstants.{MOST_ROWS};
ghost use Rattle.boc_runs.specs.Rows.{IsRows};
ghost use Rattle.boc_typical.specs.Outliers.{AreOutliers, noted, outliers_among, with_row, work_in};
ghost use Rattle.boc_typical.specs.Taken.{taken};

use crate::medians::typical_ticks;
use boc_program::limits::MOST_ROWS;
use boc_runs::rows::{Row, Rows};
use std::alloc::{AllocError, Global};

/// A row that takes more ticks than this many times those that are typical of its def takes very long.
pub const OUTLIER_TIMES: u64 = 20;

/// Rows that take very long are reported where they take more than one in this many of all ticks.
pub const OUTLIER_PART: u64 = 10;

/// The rows that take very long.
#[derive(Clone, Copy, PartialEq, Eq, Debug)]
pub struct Outliers {
    /// How many there are.
    pub rows: u64,
    /// The ticks that they take together.
    pub ticks: u64,
}

// Returns whether these ticks are more than twenty times the usual ones.
fn is_very_long(ticks: u32, usual: u32) -> bool
    ensures { result ≡ nat_lt (OUTLIER_TIMES * usual) ticks }
{
    u64::from(ticks) > OUTLIER_TIMES * u64::from(usual)
}

// Returns the rows that take very long, with one more if it does.
fn with_row(found: Outliers, ticks: u32, usual: u32) -> Outliers
    requires rows { found.rows < 2 ^ 32 }
    requires ticks { found.ticks < 2 ^ 40 }
    ensures { result ≡ with_row found ticks usual }
{
    if is_very_long(ticks, usual) {
        Outliers {
            rows: found.rows + 1,
            ticks: found.ticks + u64::from(ticks),
        }
    } else {
        found
    }
}

// Returns the rows that take very long, by the typical ticks of the defs.
fn outliers_among(rows: &[Row], defs: &[u32], typical: &[u32]) -> Outliers
    requires shape { IsRows rows.now }
    requires defs { length defs.now ≡ length rows.now }
    requires below { All (λ d. d < length typical.now) defs.now }
    ensures is { result ≡ outliers_among typical.now (taken rows.now defs.now) }
    ensures low { result.ticks < 2 ^ 40 }
{
    let mut found = Outliers { rows: 0, ticks: 0 };
    for (place, row) in rows.iter().enumerate() {
        found = with_row(found, row.ticks, typical[defs[place] as usize]);
    }
    found
}

// Returns the ticks of all rows.
fn work_in(rows: &[Row]) -> u64
    requires { IsRows rows.now }
    ensures { result ≡ work_in rows.now }
{
    rows.iter().map(|row| u64::from(row.ticks)).sum()
}

// Returns the rows that take very long, where they take more than a tenth of these ticks.
fn noted(found: Outliers, work: u64) -> Option<Outliers>
    requires { found.ticks < 2 ^ 40 }
    ensures { result ≡ noted work found }
{
    if OUTLIER_PART * found.ticks > work {
        Some(found)
    } else {
        None
    }
}

/// Returns how many rows take more than twenty times the typical ticks of their def, and how many ticks these are, where they are more than a tenth of all
/// ticks. These are the defs of the rows. `AllocError` says that memory was refused.
pub fn find_outliers(
    alloc: Global,
    rows: &Rows,
    defs: &[u32],
) -> Result<Option<Outliers>, AllocError>
    requires defs { length defs.now ≡ length rows.now }
    requires few_defs { All (λ d. d < MOST_ROWS) defs.now }
    ensures { IfOk result (AreOutliers rows.now defs.now) }
{
    let typical = typical_ticks(alloc, rows, defs, MOST_ROWS)?;
    let found = outliers_among(rows.as_slice(), defs, &typical);
    Ok(noted(found, work_in(rows.as_slice())))
}
