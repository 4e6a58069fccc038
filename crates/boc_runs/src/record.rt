// The record of a finished run.

ghost use Rattle.std.specs.Prelude.{◌≡◌};

use crate::events::{Events, Happening};
use crate::rows::{Row, Rows};
use std::marker::Model;

/// What happened in a finished run, event by event, and the rows that this makes.
///
/// The events keep the rules of runs over this many cowns, and the run is complete: there is a row, and every
/// row has ended.
#[derive(Drop, Debug)]
pub struct Record {
    cowns: u32,
    happenings: Vec<Happening>,
    rows: Rows,
}

impl Model for Record {
    ghost use Rattle.boc_runs.specs.Records.{Recorded};

    ghost Value = { Recorded };

    ghost use Rattle.boc_runs.specs.Happenings.{told, AreOf};
    ghost use Rattle.boc_runs.specs.Records.{IsRecord};

    ghost view = { λ r. let v : Recorded = record { cowns = r.cowns; events = told r.happenings.items r.rows; rows = r.rows } in v };

    ghost invariant = { λ r. AreOf r.happenings.items r.rows × IsRecord (record { cowns = r.cowns; events = told r.happenings.items r.rows; rows = r.rows }) };
}

impl Record {
    ghost use Rattle.boc_runs.specs.Happenings.{told, AreOf};
    ghost use Rattle.boc_runs.specs.Records.{IsRecord};

    /// Returns the record of a complete run that keeps the rules, with its rows, of which the happenings report its events. It takes no
    /// memory.
    pub fn new(cowns: u32, happenings: Vec<Happening>, rows: Rows) -> Record
        requires rows { AreOf happenings.items rows }
        requires run { IsRecord (record { cowns = cowns; events = told happenings.items rows; rows = rows }) }
        ensures cowns { result.cowns ≡ cowns }
        ensures events { result.events ≡ told happenings.items rows }
        ensures rows { result.rows ≡ rows }
    {
        Record {
            cowns,
            happenings,
            rows,
        }
    }

    /// Returns how many cowns there are.
    pub fn cowns(&self) -> u32
        ensures value { result ≡ self.now.cowns }
        ensures run { IsRecord self.now }
    {
        self.cowns
    }

    /// Returns the events in their order.
    pub fn events(&self) -> Events<'_>
        ensures value { result ≡ self.now.events }
        ensures run { IsRecord self.now }
    {
        Events::new(self.happenings.as_slice(), self.rows.as_slice())
    }

    /// Returns the rows, main first.
    pub fn rows(&self) -> &Rows
        ensures value { result.now ≡ self.now.rows }
        ensures run { IsRecord self.now }
    {
        &self.rows
    }

    /// Hands over the rows, main first, and drops the rest. It takes no memory.
    pub fn into_rows(self) -> Rows
        ensures value { result ≡ self.rows }
        ensures run { IsRecord self }
    {
        self.rows
    }
}
