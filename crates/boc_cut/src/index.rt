// Where rows are in a table, by their numbers.

use crate::table::Row;
use std::alloc::{AllocError, Global};

// How many slots are looked at for a number.
const STEPS: usize = 16;

// The smallest number of slots.
const LEAST: usize = 1024;

/// Where a row may be.
#[derive(Clone, Copy, PartialEq, Eq, Debug)]
pub enum Spot {
    /// The row at this place has the number.
    At(usize),
    /// No row has it.
    Absent,
    /// Too many rows have numbers alike: they have to be searched.
    Unknown,
}

/// Slots with places of rows. A row has one of the slots from that of its number on, the first that was free, unless many
/// are not.
#[derive(Drop)]
pub struct Index {
    slots: Vec<Option<u32>>,
    taken: usize,
}

// Returns the slot of a number after this number of others, where the number of slots is a power of two.
fn slot_of(number: u64, step: usize, count: usize) -> usize {
    (number.wrapping_add(step as u64) & (count as u64).saturating_sub(1)) as usize
}

impl Index {
    /// Makes an index of no rows.
    pub fn new(alloc: Global) -> Index {
        Index {
            slots: Vec::new(alloc),
            taken: 0,
        }
    }

    /// Returns where the row of a number is.
    pub fn find(&self, number: u64, rows: &[Row]) -> Spot {
        if self.slots.is_empty() {
            return Spot::Absent;
        }
        for step in 0..STEPS {
            match self.slots.get(slot_of(number, step, self.slots.len())) {
                Some(Some(place)) => {
                    if let Some(row) = rows.get(*place as usize) {
                        if row.number == number {
                            return Spot::At(*place as usize);
                        }
                    }
                }
                _ => return Spot::Absent,
            }
        }
        Spot::Unknown
    }

    // Puts a row's place into a slot, if one is free.
    fn fill(&mut self, number: u64, place: usize) {
        let Ok(short) = u32::try_from(place) else {
            return;
        };
        for step in 0..STEPS {
            let slot = slot_of(number, step, self.slots.len());
            if let Some(kept) = self.slots.get_mut(slot) {
                if kept.is_none() {
                    *kept = Some(short);
                    self.taken = self.taken.saturating_add(1);
                    return;
                }
            }
        }
    }

    /// Puts the last of the rows into the index.
    pub fn put_last(&mut self, rows: &[Row]) -> Result<(), AllocError> {
        if self.taken >= self.slots.len() / 2 {
            return self.fill_all(rows);
        }
        if let Some(row) = rows.last() {
            self.fill(row.number, rows.len().saturating_sub(1));
        }
        Ok(())
    }

    /// Makes this the index of the rows.
    pub fn fill_all(&mut self, rows: &[Row]) -> Result<(), AllocError> {
        let mut count = LEAST;
        for _ in 0..32 {
            if count < rows.len().saturating_mul(4) {
                count = count.saturating_mul(2);
            }
        }
        let alloc = *self.slots.allocator();
        self.slots = Vec::with_capacity(alloc, count)?;
        for _ in 0..count {
            self.slots.push(None)?;
        }
        self.taken = 0;
        for (place, row) in rows.iter().enumerate() {
            self.fill(row.number, place);
        }
        Ok(())
    }
}
