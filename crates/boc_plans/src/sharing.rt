//! Whether behaviours that only read a cown may share it, in plans.

ghost use Rattle.std.specs.Prelude.{◌↔◌, IsTrue, Contains};

use boc_program::held::HeldCowns;
use boc_program::short::HeldCown;
use boc_runs::rows::{Row, Rows};
use std::marker::Model;

/// Which rows that have a cown in common are ordered.
#[derive(Clone, Copy, PartialEq, Eq, Debug)]
pub enum Sharing {
    /// All of them, as in a run.
    Exclusive,
    /// Those of which one wrote the cown: what was only read is shared.
    SharedReads,
}

/// The ticks with which a row is seen instead of its own.
#[derive(Clone, Copy)]
struct OtherTicks {
    row: u32,
    ticks: u32,
}

/// The rows of a record as plans see them: where cowns are exclusive, each row counts as writing all its cowns. One of them may
/// be seen with other ticks than it took.
#[derive(Drop)]
pub struct SeenRows<'a> {
    rows: &'a [Row],
    sharing: Sharing,
    // The row that is seen with other ticks, and these.
    other: Option<OtherTicks>,
}

impl<'a> Model for SeenRows<'a> {
    ghost use Rattle.std.specs.Prelude.{List};
    ghost use Rattle.boc_runs.specs.declared.rows.Row.{Row};

    ghost Value = { List Row };

    ghost use Rattle.boc_plans.specs.Seen.{edited_by, seen};
    ghost use Rattle.boc_runs.specs.Rows.{IsRows};

    ghost view = { λ s. seen s.sharing (edited_by s.other s.rows.now) };

    ghost invariant = { λ s. IsRows s.rows.now × IsRows (edited_by s.other s.rows.now) };
}

// Returns whether the cown is one of these.
fn is_among(cowns: &[HeldCown], cown: HeldCown) -> bool
    ensures { IsTrue result ↔ Contains cowns.now cown }
{
    cowns.contains(&cown)
}

impl<'a> SeenRows<'a> {
    ghost use Rattle.std.specs.Prelude.{◌≡◌, ◌↔◌, ◌<◌, IsTrue, Contains, length};
    ghost use Rattle.boc_plans.specs.Seen.{seen};
    ghost use Rattle.boc_runs.specs.Rows.{IsRows, Fits, edited, parent_of, offset_of, ticks_of, cowns_of, written_of};

    /// Returns these rows as plans see them. It takes no memory.
    pub fn new(rows: &'a Rows, sharing: Sharing) -> SeenRows<'a>
        ensures same { result ≡ seen sharing rows.now }
        ensures shape { IsRows result }
    {
        SeenRows {
            rows: rows.as_slice(),
            sharing,
            other: None,
        }
    }

    /// Returns these rows as plans see them, one of them with other ticks than it took. It takes no memory, and copies no row.
    pub fn with_ticks(rows: &'a Rows, sharing: Sharing, row: u32, ticks: u32) -> SeenRows<'a>
        requires { Fits rows.now row ticks }
        ensures same { result ≡ seen sharing (edited rows.now row ticks) }
        ensures shape { IsRows result }
    {
        SeenRows {
            rows: rows.as_slice(),
            sharing,
            other: Some(OtherTicks { row, ticks }),
        }
    }

    /// Returns how many rows there are.
    pub fn len(&self) -> usize
        ensures count { result ≡ length self.now }
        ensures shape { IsRows self.now }
    {
        self.rows.len()
    }

    // Returns a row, of which plans may see that it wrote more, or that it took other ticks.
    fn row(&self, row: usize) -> &Row
        requires { row < length self.now }
        ensures parent { result.now.parent ≡ parent_of self.now row }
        ensures offset { result.now.offset ≡ offset_of self.now row }
        ensures cowns { result.now.cowns.items ≡ cowns_of self.now row }
    {
        let rows = self.rows;
        &rows[row]
    }

    /// Returns the row that spawned a row; 0 for main.
    pub fn parent(&self, row: usize) -> u32
        requires { row < length self.now }
        ensures { result ≡ parent_of self.now row }
    {
        self.row(row).parent
    }

    /// Returns the ticks that its parent had counted when a row was spawned; 0 for main.
    pub fn offset(&self, row: usize) -> u32
        requires { row < length self.now }
        ensures { result ≡ offset_of self.now row }
    {
        self.row(row).offset
    }

    /// Returns the ticks with which a row is seen.
    pub fn ticks(&self, row: usize) -> u32
        requires { row < length self.now }
        ensures { result ≡ ticks_of self.now row }
    {
        let rows = self.rows;
        match self.other {
            Some(other) => {
                if other.row as usize == row {
                    other.ticks
                } else {
                    rows[row].ticks
                }
            }
            None => rows[row].ticks,
        }
    }

    /// Returns the cowns of a row, which rise strictly.
    pub fn cowns(&self, row: usize) -> &[HeldCown]
        requires { row < length self.now }
        ensures { result.now ≡ cowns_of self.now row }
    {
        self.row(row).cowns.as_slice()
    }

    /// Returns the same cowns as the row keeps them: at most eight.
    pub fn held(&self, row: usize) -> &HeldCowns
        requires { row < length self.now }
        ensures { result.now.items ≡ cowns_of self.now row }
    {
        &self.row(row).cowns
    }

    /// Returns whether a row counts as writing one of its cowns.
    pub fn writes(&self, row: usize, cown: HeldCown) -> bool
        requires there { row < length self.now }
        requires own { Contains (cowns_of self.now row) cown }
        ensures { IsTrue result ↔ Contains (written_of self.now row) cown }
    {
        let rows = self.rows;
        match self.sharing {
            Sharing::Exclusive => true,
            Sharing::SharedReads => is_among(rows[row].written.as_slice(), cown),
        }
    }
}
