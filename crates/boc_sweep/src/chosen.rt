// The rows whose spans are found one by one. All others keep the span of the rows as they are.

ghost use Rattle.std.specs.Prelude.{◌≡◌, ◌∷◌, [], ◌<◌, ◌≤◌, ◌+◌, length, vec_capacity, IfOk, slice_index};
ghost use Rattle.boc_sweep.specs.Chosen.{HasPushed, HasRoom, IsPut, IsRead, IsReadable};

use crate::windows::Stretch;
use boc_program::limits::MOST_ROWS;
use std::alloc::{AllocError, Global};

/// The rows that are chosen so far, of all rows in their order.
#[derive(Drop)]
pub struct Chosen {
    /// How many of them are before each row, and at the end how many there are.
    pub before: Vec<u32>,
    /// For each of them the heaviest way over its cut that is known from the row and the rows before it. The other ways are stretches.
    pub bases: Vec<u64>,
    /// The least of these weights. A stretch that is no heavier makes no span greater.
    pub floor: u64,
}

impl Chosen {
    /// Returns the choice before the first of this many rows. `AllocError` says that memory was refused.
    pub fn new(alloc: Global, count: usize) -> Result<Chosen, AllocError>
        requires { count ≤ MOST_ROWS }
        ensures before { IfOk result (λ chosen. chosen.before.items ≡ 0 ∷ []) }
        ensures bases { IfOk result (λ chosen. chosen.bases.items ≡ []) }
        ensures room { IfOk result (HasRoom count) }
    {
        let mut before = Vec::with_capacity(alloc, count + 1)?;
        before.push_reserved(0);
        Ok(Chosen {
            before,
            bases: Vec::with_capacity(alloc, count)?,
            floor: u64::MAX,
        })
    }

    /// Chooses the next row, if it has a base, or leaves it out.
    pub fn put(&mut self, base: Option<u64>)
        requires few { length self.old.bases.items < MOST_ROWS }
        requires bases_room { length self.old.bases.items < vec_capacity self.old.bases }
        requires before_room { length self.old.before.items < vec_capacity self.old.before }
        ensures { IsPut self.old base self.new }
    {
        if let Some(weight) = base {
            self.bases.push_reserved(weight);
            self.floor = weight.min(self.floor);
        }
        self.before.push_reserved(self.bases.len() as u32);
    }

    /// Appends a stretch of rows, by the places that its chosen rows have among all that are chosen. A stretch without a chosen row is left out, and one
    /// that is no heavier than the least base. `AllocError` says that memory was refused.
    pub fn push(
        &self,
        low: u32,
        high: u32,
        value: u64,
        stretches: &mut Vec<Stretch>,
    ) -> Result<(), AllocError>
        requires low { low < length self.now.before.items }
        requires high { high < length self.now.before.items }
        ensures { IfOk result (λ _. HasPushed self.now (record { low = low; high = high; value = value }) stretches.old.items stretches.new.items) }
    {
        if value > self.floor {
            let low = self.before[low as usize];
            let high = self.before[high as usize];
            if low < high {
                stretches.push(Stretch { low, high, value })?;
            }
        }
        Ok(())
    }
}

/// What the span of each row is read from.
#[derive(Clone, Copy)]
pub struct Parts<'a> {
    /// The rows that are chosen.
    pub chosen: &'a Chosen,
    /// For each of them the greatest value of the stretches over its cut.
    pub tops: &'a [u64],
    /// The span of all other rows.
    pub span: u64,
}

impl<'a> Parts<'a> {
    /// Returns the span of a row.
    pub fn span_of(self, row: usize) -> u64
        requires { IsReadable self row }
        ensures { IsRead self.entry row result }
    {
        let place = self.chosen.before[row] as usize;
        if place < self.chosen.before[row + 1] as usize {
            self.chosen.bases[place].max(self.tops[place])
        } else {
            self.span
        }
    }
}
