// Rows as a simulation reads them.

use boc_plans::sharing::SeenRows;
use boc_program::short::HeldCown;
use std::marker::Model;

/// The rows as a simulation reads them: how many they are, and what ticks they take. For which rows they wait it is reported. So one of their cowns can be left
/// out, with no row copied.
#[derive(Drop)]
pub struct TimedRows<'a, 'b> {
    rows: &'a SeenRows<'b>,
    left_out: Option<HeldCown>,
}

impl<'a, 'b> Model for TimedRows<'a, 'b> {
    ghost use Rattle.std.specs.Prelude.{List};
    ghost use Rattle.boc_runs.specs.declared.rows.Row.{Row};

    ghost Value = { List Row };

    ghost use Rattle.boc_greedy.specs.Timed.{freed_by};
    ghost use Rattle.boc_runs.specs.Rows.{IsRows};

    ghost view = { λ t. freed_by t.left_out t.rows.now };

    ghost invariant = { λ t. IsRows (freed_by t.left_out t.rows.now) };
}

impl<'a, 'b> TimedRows<'a, 'b> {
    ghost use Rattle.std.specs.Prelude.{◌≡◌, ◌<◌, length};
    ghost use Rattle.boc_runs.specs.Changes.{without};
    ghost use Rattle.boc_runs.specs.Rows.{IsRows, ticks_of};

    /// Returns the rows as they are.
    pub fn all(rows: &'a SeenRows<'b>) -> TimedRows<'a, 'b>
        requires { IsRows rows.now }
        ensures { result ≡ rows.now }
    {
        TimedRows {
            rows,
            left_out: None,
        }
    }

    /// Returns the rows, none of which has this cown.
    pub fn without(rows: &'a SeenRows<'b>, cown: HeldCown) -> TimedRows<'a, 'b>
        requires { IsRows rows.now }
        ensures { result ≡ without cown rows.now }
    {
        TimedRows {
            rows,
            left_out: Some(cown),
        }
    }

    /// Returns how many rows there are.
    pub fn len(&self) -> usize
        ensures count { result ≡ length self.now }
        ensures shape { IsRows self.now }
    {
        self.rows.len()
    }

    /// Returns the ticks that a row takes.
    pub fn ticks(&self, row: usize) -> u32
        requires { row < length self.now }
        ensures { result ≡ ticks_of self.now row }
    {
        self.rows.ticks(row)
    }
}
