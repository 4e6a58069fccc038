// A window of a stream, as a record.

ghost use Rattle.std.specs.Prelude.{◌≡◌, IfOk};
ghost use Rattle.boc_cut.specs.Windows.{AreOrigins};

use crate::choice::{Choice, RowCowns};
use crate::lists::{at, set};
use crate::made::{Made, Shape};
use crate::origins::origins_of;
use crate::scale::scale;
use crate::table::{Deed, Happened, Life, Table};
use crate::twins::{StandIn, stand_ins};
use crate::users::Users;
use crate::weights::{Plan, Weights};
use boc_program::body::EndStatus;
use boc_program::limits::MOST_COWNS;
use boc_program::short::Cowns;
use boc_rules::{RuleFault, Rules};
use boc_runs::event::{BrokenRule, Event};
use boc_runs::record::Record;
use std::alloc::{AllocError, Global};

/// Why no record was made of a window.
#[derive(Drop, Debug)]
pub enum Unmade {
    Memory,
    /// What was made breaks a rule of records. It is not known to happen.
    Broken(BrokenRule),
    /// What was made has not ended. It is not known to happen.
    Unended,
    /// What was made has another order than the stream. It is not known to happen.
    Unlike,
}

impl From<AllocError> for Unmade {
    ghost use Rattle.boc_cut.specs.declared.window.Unmade.TheVariants.{Memory};

    ghost from_gives = { λ _ e. e ≡ Memory };

    fn from(_error: AllocError) -> Unmade {
        Unmade::Memory
    }
}

/// What was left out of a window, and what that may cost.
#[derive(Clone, Copy, PartialEq, Eq, Debug)]
pub struct Notes {
    /// The rows of the record.
    pub rows: usize,
    /// How many rows were alive where the window begins.
    pub carried: usize,
    /// How many rows help to spawn these.
    pub helpers: usize,
    /// The first row is added: it replaces the run's.
    pub has_stand_in: bool,
    /// The rows that were alive are spawned at most this many ticks late.
    pub late: usize,
    /// How many rows never started, and were left out.
    pub pending: usize,
    /// How many rows had not ended where the stream ends; they end at their last child.
    pub unended: usize,
    /// The rank at which the window ends.
    pub end: u64,
    /// How many cowns its rows use.
    pub used: usize,
    /// How many of these one row alone uses.
    pub solo: usize,
    /// How many of these order the same rows as another.
    pub twins: usize,
    /// How many cowns are kept.
    pub kept: usize,
    /// How many cowns were left out that order rows.
    pub left_out: usize,
    /// How many rows have more cowns than a record's row can have.
    pub wide: usize,
    /// How many cowns these rows have too many.
    pub lost: usize,
    /// The span of the window with all cowns, in ticks of the record; 0 where it is a whole record.
    pub whole_span: u64,
    /// The span of its record, in ticks of the record; 0 where it is a whole record.
    pub span: u64,
    /// What ticks were divided by.
    pub divisor: u64,
}

impl Notes {
    /// Returns what is said of a whole record with these numbers of rows and cowns.
    pub fn whole(rows: usize, cowns: usize) -> Notes {
        Notes {
            rows,
            carried: 0,
            helpers: 0,
            has_stand_in: false,
            late: 0,
            pending: 0,
            unended: 0,
            end: rows as u64,
            used: cowns,
            solo: 0,
            twins: 0,
            kept: cowns,
            left_out: 0,
            wide: 0,
            lost: 0,
            whole_span: 0,
            span: 0,
            divisor: 1,
        }
    }
}

/// A window of a stream.
#[derive(Drop)]
pub struct Window {
    pub record: Record,
    /// For each row of the record its number in the stream; none for a helper and for a row that is added.
    pub origins: Vec<Option<u64>>,
    /// For each cown of the record its number in the stream.
    pub cowns: Vec<u64>,
    pub notes: Notes,
}

// Returns a number as an event has it.
fn short(number: u64) -> u32 {
    match u32::try_from(number) {
        Ok(short) => short,
        Err(_) => u32::MAX,
    }
}

/// The events of a record as they are made.
#[derive(Drop)]
struct Making<'a> {
    rules: Rules,
    table: &'a Table,
    shape: &'a Shape,
    rows: &'a [RowCowns],
}

impl<'a> Making<'a> {
    // Takes an event.
    fn take(&mut self, event: Event) -> Result<(), Unmade> {
        match self.rules.take(event) {
            Ok(()) => Ok(()),
            Err(RuleFault::Memory) => Err(Unmade::Memory),
            Err(RuleFault::Broken(rule)) => Err(Unmade::Broken(rule)),
        }
    }

    // Spawns a row of the record.
    fn spawn(&mut self, number: usize) -> Result<(), Unmade> {
        let Some(made) = self.shape.rows.get(number) else {
            return Ok(());
        };
        let cowns = match self.rows.get(number) {
            Some(row) => Cowns::try_from(row.cowns.as_slice()).unwrap(),
            None => Cowns::new(),
        };
        self.take(Event::Spawn {
            row: short(number as u64),
            parent: short(made.parent as u64),
            offset: short(made.offset),
            cowns,
        })
    }

    // Starts a row of the record.
    fn start(&mut self, number: usize) -> Result<(), Unmade> {
        self.take(Event::Start {
            row: short(number as u64),
        })
    }

    // Ends a row of the record.
    fn end(&mut self, number: usize) -> Result<(), Unmade> {
        let Some(made) = self.shape.rows.get(number) else {
            return Ok(());
        };
        let (status, has_ended) = match made.place {
            Some(place) => match self.table.rows.get(place) {
                Some(row) => (row.status, row.life == Life::Ended),
                None => (EndStatus::Done, false),
            },
            None => (EndStatus::Done, false),
        };
        let written = match self.rows.get(number) {
            Some(row) if has_ended => Cowns::try_from(row.written.as_slice()).unwrap(),
            _ => Cowns::new(),
        };
        self.take(Event::End {
            row: short(number as u64),
            ticks: short(made.ticks),
            status,
            written,
        })
    }

    // Returns the number of a row of the table in the record.
    fn number_at(&self, place: usize) -> Option<usize> {
        match self.shape.numbers.get(place) {
            Some(number) => *number,
            None => None,
        }
    }

    // Spawns the first row, the helpers and the rows that were alive where the window begins, and starts those that ran.
    fn begin(&mut self) -> Result<(), Unmade> {
        if self.shape.has_main && !self.shape.carries_main {
            return Ok(());
        }
        self.spawn(0)?;
        self.start(0)?;
        let helpers = self.shape.fans.helpers();
        for number in 1..helpers.saturating_add(1) {
            self.spawn(number)?;
            self.start(number)?;
        }
        for place in 0..self.table.carried {
            if let Some(number) = self.number_at(place) {
                if number > 0 {
                    self.spawn(number)?;
                }
            }
        }
        self.start_carried()?;
        for number in 1..helpers.saturating_add(1) {
            self.end(number)?;
        }
        if !self.shape.has_main {
            self.end(0)?;
        }
        Ok(())
    }

    // Starts the rows that ran where the window begins.
    fn start_carried(&mut self) -> Result<(), Unmade> {
        for place in 0..self.table.carried {
            let ran = match self.table.rows.get(place) {
                Some(row) => row.ran,
                None => false,
            };
            if let Some(number) = self.number_at(place) {
                if ran && number > 0 {
                    self.start(number)?;
                }
            }
        }
        Ok(())
    }

    // Makes an event of the window.
    fn happen(&mut self, happened: Happened) -> Result<(), Unmade> {
        match (self.number_at(happened.place), happened.deed) {
            (None, _) => Ok(()),
            (Some(number), Deed::Spawned) => self.spawn(number),
            (Some(number), Deed::Started) => self.start(number),
            (Some(number), Deed::Ended) => self.end(number),
        }
    }

    // Ends the rows that had not ended.
    fn end_running(&mut self) -> Result<(), Unmade> {
        for (place, row) in self.table.rows.iter().enumerate() {
            if row.life == Life::Running {
                if let Some(number) = self.number_at(place) {
                    self.end(number)?;
                }
            }
        }
        Ok(())
    }

    // Makes all events.
    fn make(&mut self) -> Result<(), Unmade> {
        self.begin()?;
        for event in self.table.log.iter() {
            self.happen(*event)?;
        }
        self.end_running()
    }
}

// Returns the span of the rows with the cowns that are kept.
fn span_of(
    alloc: Global,
    rows: &[Made],
    cowns: &[RowCowns],
    count: usize,
) -> Result<u64, AllocError> {
    let mut starts = Vec::with_capacity(alloc, rows.len())?;
    let mut free = Vec::with_capacity(alloc, count)?;
    crate::lists::put_zeros(&mut free, count)?;
    let mut span = 0;
    for (number, made) in rows.iter().enumerate() {
        let mut start: u64 = 0;
        if number > 0 {
            start = at(&starts, made.parent).saturating_add(made.offset);
        }
        if let Some(row) = cowns.get(number) {
            for cown in row.cowns.iter() {
                start = start.max(at(&free, *cown as usize));
            }
            let end = start.saturating_add(made.ticks);
            for cown in row.cowns.iter() {
                set(&mut free, *cown as usize, end);
            }
            span = end.max(span);
        }
        starts.push(start)?;
    }
    Ok(span)
}

// Returns how many cowns no two rows use, and how many another stands for.
fn count_stand_ins(stand_ins: &[StandIn]) -> (usize, usize) {
    let mut solo: usize = 0;
    let mut twins: usize = 0;
    for (id, stand_in) in stand_ins.iter().enumerate() {
        match stand_in {
            StandIn::Nothing => solo = solo.saturating_add(1),
            StandIn::Cown(other) if *other != id => twins = twins.saturating_add(1),
            StandIn::Cown(_) => {}
        }
    }
    (solo, twins)
}

// Returns the record of the rows and the cowns that were chosen.
fn record_of(
    alloc: Global,
    table: &Table,
    shape: &Shape,
    choice: &Choice,
) -> Result<Record, Unmade> {
    let mut making = Making {
        rules: Rules::new(
            alloc,
            short(choice.cowns.len() as u64).min(MOST_COWNS as u32),
        )?,
        table,
        shape,
        rows: &choice.rows,
    };
    making.make()?;
    match making.rules.into_record() {
        Ok(record) => Ok(record),
        Err(_) => Err(Unmade::Unended),
    }
}

/// Returns the window of a table as a record.
pub fn window_of(alloc: Global, table: &Table) -> Result<Window, Unmade>
    ensures { IfOk result (λ window. AreOrigins table.now.rows.items table.now.uses.items window.cowns.items window.record.rows window.origins.items) }
{
    let mut shape = Shape::of(alloc, table)?;
    let divisor = scale(alloc, &mut shape.rows)?;
    let users = Users::of(alloc, table, &shape.rows)?;
    let stand_ins = stand_ins(alloc, &users)?;
    let plan = Plan::of(alloc, table, &shape.rows, &users)?;
    let weights = Weights::of(alloc, table, &shape.rows, &users, &plan, &stand_ins)?;
    let choice = Choice::of(alloc, table, &shape.rows, &users, &stand_ins, &weights)?;
    let record = record_of(alloc, table, &shape, &choice)?;
    let span = span_of(alloc, &shape.rows, &choice.rows, choice.cowns.len())?;
    let rows = record.rows().as_slice();
    let Some(origins) = origins_of(alloc, table, &shape.rows, &choice.cowns, rows)? else {
        return Err(Unmade::Unlike);
    };
    let (solo, twins) = count_stand_ins(&stand_ins);
    let notes = Notes {
        rows: shape.rows.len(),
        carried: shape.carried,
        helpers: shape.fans.helpers(),
        has_stand_in: !shape.has_main,
        late: shape.fans.late(),
        pending: shape.pending,
        unended: shape.unended,
        end: table.end.min(table.rank),
        used: users.cowns.len(),
        solo,
        twins,
        kept: choice.cowns.len(),
        left_out: choice.left_out,
        wide: choice.wide,
        lost: choice.lost,
        whole_span: plan.span,
        span,
        divisor,
    };
    Ok(Window {
        record,
        origins,
        cowns: choice.cowns,
        notes,
    })
}
