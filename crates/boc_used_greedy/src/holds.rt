// How rows hold their cowns: from start to end, for a turn, or not at all.

ghost use Rattle.std.specs.Prelude.{◌≡◌, ◌<◌, length, slice_get, Some, IfOk};
ghost use Rattle.std.specs.List.{Contains};
ghost use Rattle.boc_program.specs.declared.limits.TheConstants.{MOST_COWNS};
ghost use Rattle.boc_runs.specs.Rows.{IsRows, cowns_of};
ghost use Rattle.boc_turns.specs.Turns.{AreUses, use_of};
ghost use Rattle.boc_turns.specs.Course.{marked};
ghost use Rattle.boc_used_greedy.specs.Holds.{hold_by, AreHolds, HasHolds, IsPlace};

use boc_plans::sharing::SeenRows;
use boc_program::short::HeldCown;
use boc_uses::Use;
use std::alloc::{AllocError, Global};

/// How each row holds each of its cowns, as a use of the cown. A cown that is not relaxed is held as if the row used it from its first tick to its last,
/// and needed its value.
#[derive(Drop)]
pub(crate) struct Holds {
    // Where the cowns of each row begin among those of all rows.
    pub(crate) begins: Vec<usize>,
    // How each of these cowns is held.
    pub(crate) all: Vec<Option<Use>>,
}

// Returns how a row of these ticks holds a cown that it uses so.
fn hold_of(relaxed: bool, turn: Option<Use>, ticks: u32) -> Option<Use>
    ensures { result ≡ hold_by relaxed turn ticks }
{
    if relaxed {
        turn
    } else {
        Some(Use {
            first: 1,
            last: ticks,
            needed: true,
        })
    }
}

/// Returns how each row holds its cowns.
pub(crate) fn holds_of(
    alloc: Global,
    rows: &SeenRows,
    uses: &[Option<Use>],
    relaxed: &[bool],
) -> Result<Holds, AllocError>
    requires shape { IsRows rows.now }
    requires uses { AreUses rows.now uses.now }
    requires relaxed { length relaxed.now ≡ MOST_COWNS }
    ensures has { IfOk result (HasHolds rows.now) }
    ensures are { IfOk result (λ h. AreHolds rows.now uses.now (marked relaxed.now) h.all.items) }
{
    let mut begins = Vec::with_capacity(alloc, rows.len())?;
    let mut all = Vec::with_capacity(alloc, uses.len())?;
    for row in 0..rows.len() {
        let begin = all.len();
        begins.push_reserved(begin);
        for (place, own) in rows.cowns(row).iter().enumerate() {
            all.push(hold_of(relaxed[*own as usize], uses[begin + place], rows.ticks(row)))?;
        }
    }
    Ok(Holds { begins, all })
}

// Returns the place of a cown among those of a row, one of which it is.
fn place_of(cowns: &[HeldCown], cown: HeldCown) -> usize
    requires { Contains cowns.now cown }
    ensures { slice_get cowns.now result ≡ Some cown }
{
    for (place, own) in cowns.iter().enumerate() {
        if *own == cown {
            return place;
        }
    }
    cowns.len()
}

impl Holds {
    /// Returns the place of a cown of a row among those of all rows.
    pub(crate) fn place(&self, rows: &SeenRows, row: usize, own: HeldCown) -> usize
        requires shape { IsRows rows.now }
        requires holds { HasHolds rows.now self.now }
        requires there { row < length rows.now }
        requires own { Contains (cowns_of rows.now row) own }
        ensures { IsPlace rows.now row own result }
    {
        self.begins[row] + place_of(rows.cowns(row), own)
    }

    /// Returns how a row holds one of its cowns.
    pub(crate) fn of(&self, rows: &SeenRows, row: usize, own: HeldCown) -> Option<Use>
        requires shape { IsRows rows.now }
        requires holds { HasHolds rows.now self.now }
        requires there { row < length rows.now }
        requires own { Contains (cowns_of rows.now row) own }
        ensures { result ≡ use_of rows.now self.now.all.items row own }
    {
        self.all[self.place(rows, row, own)]
    }
}
