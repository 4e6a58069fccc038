// For how many ticks the rows that write a cown use it.

ghost use Rattle.std.specs.Prelude.{◌≡◌, ◌<◌, ◌≤◌, ◌+◌, ◌*◌, ◌^◌, ℕ, cond, length, slice_index, IfOk};
ghost use Rattle.boc_program.specs.declared.limits.TheConstants.{MOST_COWNS, MOST_TICKS};
ghost use Rattle.boc_runs.specs.Rows.{IsRows, cowns_of};
ghost use Rattle.boc_turns.specs.Course.{wrote_cown};
ghost use Rattle.boc_turns.specs.Ticks.{AreTicks, use_ticks};
ghost use Rattle.boc_turns.specs.Turns.{AreUses, use_at};

use boc_plans::sharing::SeenRows;
use boc_program::limits::MOST_COWNS;
use boc_uses::Use;
use std::alloc::{AllocError, Global};

// Returns how many ticks there are from the first use of a cown to the last. A row that doesn't write the cown has none.
fn ticks_of(writes: bool, turn: Option<Use>) -> u64
    ensures is { result ≡ cond writes (use_ticks turn) 0 }
    ensures low { result ≤ 2 ^ 32 }
{
    match turn {
        Some(turn) => {
            if writes {
                (u64::from(turn.last) + 1).saturating_sub(u64::from(turn.first))
            } else {
                0
            }
        }
        None => 0,
    }
}

// Adds for each cown that a row writes for how many ticks the row uses it. The row has these uses of its cowns, in their order.
fn add_ticks(rows: &SeenRows, row: usize, uses: &[Option<Use>], totals: &mut [u64])
    requires shape { IsRows rows.now }
    requires there { row < length rows.now }
    requires uses { length (cowns_of rows.now row) ≤ length uses.now }
    requires whole { length totals.old ≡ MOST_COWNS }
    requires low { (c : ℕ) → c < MOST_COWNS → slice_index totals.old c ≤ row * MOST_TICKS }
    ensures whole { length totals.new ≡ MOST_COWNS }
    ensures each { (c : ℕ) → c < MOST_COWNS → slice_index totals.new c
        ≡ slice_index totals.old c + cond (wrote_cown rows.now row c) (use_ticks (use_at (cowns_of rows.now row) uses.now c)) 0 }
{
    for (place, own) in rows.cowns(row).iter().enumerate() {
        totals[*own as usize] += ticks_of(rows.writes(row, *own), uses[place]);
    }
}

/// Returns for each cown, at its number, for how many ticks the rows that write it use it: of each row the ticks from its first use to its last. `uses` says
/// for each cown of each row, in their order, whether and how the row uses it. `AllocError` says that memory was refused.
pub fn ticks_used(
    alloc: Global,
    rows: &SeenRows,
    uses: &[Option<Use>],
) -> Result<Vec<u64>, AllocError>
    requires shape { IsRows rows.now }
    requires uses { AreUses rows.now uses.now }
    ensures { IfOk result (λ totals. AreTicks rows.now uses.now (length rows.now) totals.items) }
{
    let mut totals = vec![in alloc; 0; MOST_COWNS]?;
    let mut passed = 0;
    for row in 0..rows.len() {
        add_ticks(rows, row, &uses[passed..], &mut totals);
        passed += rows.cowns(row).len();
    }
    Ok(totals)
}
