// Of some rows: the latest end, and the row that has it.

ghost use Rattle.std.specs.Prelude.{◌≡◌, ℕ, ◌<◌, length, slice_index, Contains};
ghost use Rattle.boc_order.specs.Latest.{later_of, IsLatestOf};

/// The latest end among some rows, and the lowest-numbered row that has it. Where there are no rows the end is 0,
/// since each row ends after tick 0.
#[derive(Clone, Copy)]
pub struct Latest {
    /// The end, in ticks.
    pub end: u64,
    /// The row's number.
    pub row: u32,
}

// Returns the one that ends later; where both end together, the one with the smaller number. Ends are in no order that could
// be foretold, so each part is chosen by itself, in a way that needs no branch.
fn later(a: Latest, b: Latest) -> Latest
    ensures { result ≡ later_of a b }
{
    let least = if a.end == b.end {
        a.row.min(b.row)
    } else {
        a.row
    };
    Latest {
        end: a.end.max(b.end),
        row: if a.end < b.end { b.row } else { least },
    }
}

/// Returns the latest of these rows, by the ticks at which rows end.
pub fn latest_of(rows: &[u32], ends: &[u64]) -> Latest
    requires there { (a : ℕ) → Contains rows.now a → a < length ends.now }
    requires late { (a : ℕ) → a < length ends.now → 0 < slice_index ends.now a }
    ensures { IsLatestOf (λ a. Contains rows.now a) (slice_index ends.now) result }
{
    let mut latest = Latest { end: 0, row: 0 };
    for row in rows {
        let end = ends[*row as usize];
        latest = later(latest, Latest { end, row: *row });
    }
    latest
}
