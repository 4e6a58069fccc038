// The rows of a window's record, before their ticks and cowns are made to fit.

use crate::fans::Fans;
use crate::table::{Life, Row, Table};
use std::alloc::{AllocError, Global};

/// A row of the record that is made.
#[derive(Clone, Copy, Debug)]
pub struct Made {
    /// The place of its row in the table; none for a helper and for a row that is added.
    pub place: Option<usize>,
    /// The number of its parent.
    pub parent: usize,
    pub offset: u64,
    pub ticks: u64,
}

/// The rows of the record that is made, and what was done to have them.
#[derive(Drop)]
pub struct Shape {
    pub rows: Vec<Made>,
    /// For each row of the table its number in the record, if it is there.
    pub numbers: Vec<Option<usize>>,
    pub fans: Fans,
    /// The first row is the run's.
    pub has_main: bool,
    /// The first row is the run's, and was alive where the window begins.
    pub carries_main: bool,
    /// How many rows were alive where the window begins, and are in the record.
    pub carried: usize,
    /// How many rows never started, and are left out.
    pub pending: usize,
    /// How many rows had not ended, the run's first one not counted.
    pub unended: usize,
}

// Returns the ticks of a row, of which the first `progress` were before the window.
fn ticks_left(row: &Row) -> u64 {
    let ticks = if row.life == Life::Ended {
        row.ticks
    } else {
        row.last
    };
    ticks.saturating_sub(row.progress).max(1)
}

// Makes the ticks of a row reach its child.
fn reach(rows: &mut [Made], parent: usize, offset: u64) {
    if let Some(made) = rows.get_mut(parent) {
        made.ticks = made.ticks.max(offset);
    }
}

impl Shape {
    // Appends a helper, after this number of other children of its parent.
    fn help(&mut self, parent: usize, before: usize) -> Result<(), AllocError> {
        let offset = (before as u64).saturating_add(1);
        reach(&mut self.rows, parent, offset);
        self.rows.push(Made {
            place: None,
            parent,
            offset,
            ticks: 1,
        })?;
        Ok(())
    }

    // Appends the helpers.
    fn put_helpers(&mut self) -> Result<(), AllocError> {
        let fans = self.fans;
        for place in 0..fans.upper {
            self.help(0, place)?;
        }
        for place in 0..fans.lower {
            let (parent, before) = if fans.upper > 0 {
                ((place / fans.width).saturating_add(1), place % fans.width)
            } else {
                (0, place)
            };
            self.help(parent, before)?;
        }
        Ok(())
    }

    // Appends a row that was alive where the window begins, after this number of others.
    fn put_carried(&mut self, place: usize, row: &Row, before: usize) -> Result<(), AllocError> {
        let fans = self.fans;
        let parent = if fans.lower > 0 {
            (before / fans.width)
                .saturating_add(fans.upper)
                .saturating_add(1)
        } else {
            0
        };
        let offset = ((before % fans.width) as u64).saturating_add(1);
        reach(&mut self.rows, parent, offset);
        self.put_row(place, parent, offset, ticks_left(row))
    }

    // Appends a row of the table.
    fn put_row(
        &mut self,
        place: usize,
        parent: usize,
        offset: u64,
        ticks: u64,
    ) -> Result<(), AllocError> {
        if let Some(number) = self.numbers.get_mut(place) {
            *number = Some(self.rows.len());
        }
        self.rows.push(Made {
            place: Some(place),
            parent,
            offset,
            ticks,
        })?;
        Ok(())
    }

    // Appends a row that is spawned in the window.
    fn put_spawned(&mut self, table: &Table, place: usize, row: &Row) -> Result<(), AllocError> {
        let Some(spawner) = table.place_of(row.parent) else {
            return Ok(());
        };
        let Some(Some(parent)) = self.numbers.get(spawner) else {
            return Ok(());
        };
        let parent = *parent;
        let progress = match table.rows.get(spawner) {
            Some(row) => row.progress,
            None => 0,
        };
        let mut offset = row.offset.saturating_sub(progress);
        if parent == 0 && self.carries_main {
            offset = offset.saturating_add(self.fans.children() as u64);
        }
        self.put_row(place, parent, offset, ticks_left(row))
    }

    // Appends the first row: the run's, or one that replaces it.
    fn put_first(&mut self, table: &Table) -> Result<(), AllocError> {
        match table.rows.first() {
            Some(main) if self.has_main => {
                let mut ticks = ticks_left(main);
                if self.carries_main {
                    ticks = main_ticks(main)
                        .saturating_add(self.fans.children() as u64)
                        .max(1);
                }
                self.put_row(0, 0, 0, ticks)
            }
            _ => {
                self.rows.push(Made {
                    place: None,
                    parent: 0,
                    offset: 0,
                    ticks: 1,
                })?;
                Ok(())
            }
        }
    }

    // Appends the rows of the table, except the run's first one.
    fn put_rows(&mut self, table: &Table) -> Result<(), AllocError> {
        let first = usize::from(self.has_main);
        let mut before: usize = 0;
        for (place, row) in table.rows.iter().enumerate().skip(first) {
            if row.life == Life::Pending {
                self.pending = self.pending.saturating_add(1);
            } else if place < table.carried {
                self.put_carried(place, row, before)?;
                before = before.saturating_add(1);
            } else {
                self.put_spawned(table, place, row)?;
            }
            if row.life == Life::Running {
                self.unended = self.unended.saturating_add(1);
            }
        }
        Ok(())
    }

    // Ends the first row at its last child where it is no row of the run, or had ticks or children that are not in the window.
    fn clip(&mut self, table: &Table) {
        if self.has_main && !self.carries_main && !table.has_tail {
            return;
        }
        let mut last = 1;
        for made in self.rows.iter().skip(1) {
            if made.parent == 0 {
                last = made.offset.max(last);
            }
        }
        if let Some(first) = self.rows.first_mut() {
            first.ticks = last;
        }
    }

    /// Returns the rows of the record of a table's window.
    pub fn of(alloc: Global, table: &Table) -> Result<Shape, AllocError> {
        let has_main = match table.rows.first() {
            Some(first) => table.has_main() && first.life != Life::Pending,
            None => false,
        };
        let carries_main = has_main && table.carried > 0;
        let mut carried: usize = 0;
        for row in table.rows.iter().take(table.carried) {
            if row.life != Life::Pending {
                carried = carried.saturating_add(1);
            }
        }
        let fans = Fans::of(carried.saturating_sub(usize::from(carries_main)));
        let mut numbers = Vec::with_capacity(alloc, table.rows.len())?;
        for _ in 0..table.rows.len() {
            numbers.push(None)?;
        }
        let mut shape = Shape {
            rows: Vec::new(alloc),
            numbers,
            fans,
            has_main,
            carries_main,
            carried,
            pending: 0,
            unended: 0,
        };
        shape.put_first(table)?;
        shape.put_helpers()?;
        shape.put_rows(table)?;
        shape.clip(table);
        Ok(shape)
    }
}

// Returns the ticks of the run's first row that are in the window, which may be none.
fn main_ticks(main: &Row) -> u64 {
    let ticks = if main.life == Life::Ended {
        main.ticks
    } else {
        main.last
    };
    ticks.saturating_sub(main.progress)
}
