// Which rows are before a row on its cowns.

ghost use Rattle.std.specs.Prelude.{◌≡◌, ◌+◌, ◌*◌, ◌<◌, ◌≤◌, ◌++◌, All, None, Some, length, map, slice_index_or, vec_len, vec_capacity};
ghost use Rattle.boc_program.specs.declared.limits.TheConstants.{MOST_HELD, MOST_ROWS};
ghost use Rattle.boc_rules.specs.declared.kept_row.Life.TheVariants.{Pending};
ghost use Rattle.boc_rules.specs.Before.{noted};

use crate::kept_row::{KeptRow, Life};
use boc_program::short::HeldCown;
use std::marker::Model;

/// A number that no row has.
const NO_ROW: u16 = u16::MAX;

/// A row, or none, in two bytes.
#[derive(Clone, Copy, Debug)]
pub struct MaybeRow {
    number: u16,
}

impl Model for MaybeRow {
    ghost use Rattle.std.specs.Prelude.{ℕ, Option};
    ghost use Rattle.std.proofs.Common.{ap};
    ghost use Rattle.boc_rules.specs.MaybeRows.{row_numbered, number_of, number_again};

    ghost Value = { Option ℕ };

    ghost view = { λ m. row_numbered m.number };

    ghost inverse = { λ row. record { number = number_of row } };

    ghost inverse_ok = { λ m h. ap (λ number. record { number = number }) (number_again m.number) };
}

impl MaybeRow {
    /// Returns no row.
    pub fn none() -> MaybeRow
        ensures { result ≡ None }
    {
        MaybeRow { number: NO_ROW }
    }

    /// Returns this row.
    pub fn of(row: u32) -> MaybeRow
        requires { row < MOST_ROWS }
        ensures { result ≡ Some row }
    {
        MaybeRow { number: row as u16 }
    }

    /// Returns the row, if it is one.
    pub fn get(self) -> Option<u32>
        ensures { result ≡ self }
    {
        if self.number == NO_ROW {
            None
        } else {
            Some(u32::from(self.number))
        }
    }
}

// Puts the latest row on each of the cowns, in their order, after those found.
fn find(found: &mut Vec<MaybeRow>, latest: &[MaybeRow], cowns: &[HeldCown])
    requires cowns { All (λ c. c < length latest.now) cowns.now }
    requires room { vec_len found.old + length cowns.now ≤ vec_capacity found.old }
    ensures found { found.new.items ≡ found.old.items ++ map (λ c. slice_index_or latest.now c None) cowns.now }
    ensures room { vec_capacity found.new ≡ vec_capacity found.old }
{
    for cown in cowns {
        found.push_reserved(latest[*cown as usize]);
    }
}

// Makes this row the latest on each of the cowns.
fn note(latest: &mut Vec<MaybeRow>, cowns: &[HeldCown], row: u32)
    requires cowns { All (λ c. c < length latest.old.items) cowns.now }
    requires row { row < MOST_ROWS }
    ensures { latest.new.items ≡ noted latest.old.items cowns.now row }
{
    for cown in cowns {
        latest[*cown as usize] = MaybeRow::of(row);
    }
}

/// Returns the kept_row of a new row over these cowns. The latest row on each of them is put after those found, and the new row
/// is the latest from now on.
pub fn first_kept_row(
    found: &mut Vec<MaybeRow>,
    latest: &mut Vec<MaybeRow>,
    cowns: &[HeldCown],
    row: u32,
) -> KeptRow
    requires cowns { All (λ c. c < length latest.old.items) cowns.now }
    requires held { length cowns.now ≤ MOST_HELD }
    requires row { row < MOST_ROWS }
    requires few { length found.old.items ≤ MOST_HELD * MOST_ROWS }
    requires room { vec_len found.old + length cowns.now ≤ vec_capacity found.old }
    ensures found { found.new.items ≡ found.old.items ++ map (λ c. slice_index_or latest.old.items c None) cowns.now }
    ensures latest { latest.new.items ≡ noted latest.old.items cowns.now row }
    ensures kept_row { result ≡ record { life = Pending; last = 0; from = length found.old.items; to = length found.old.items + length cowns.now } }
    ensures room { vec_capacity found.new ≡ vec_capacity found.old }
{
    let from = found.len() as u32;
    find(found, latest.as_slice(), cowns);
    note(latest, cowns, row);
    KeptRow {
        life: Life::Pending,
        last: 0,
        from,
        to: found.len() as u32,
    }
}
