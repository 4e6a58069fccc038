// A set of rows, of which the smallest is found at once.

ghost use Rattle.std.specs.Prelude.{◌≡◌, ◌≢◌, ℕ, ◌<◌, ◌≤◌, ◌⊎◌, ◌↔◌, IfOk, IfSome, IfNone};
ghost use Rattle.boc_greedy.specs.RowSets.{IsRowSet, Has};

use crate::bits::{with_bit, without_bit};
use std::alloc::{AllocError, Global};

/// A set of rows below 65,536: a bit for each row, above each word of these bits a bit that says whether it has any,
/// and the same once more above those. So the lowest row is found in three steps.
#[derive(Drop)]
pub struct RowSet {
    /// A bit for each row.
    rows: Vec<u64>,
    /// A bit for each word of `rows`, set where that word is not 0.
    words: [u64; 16],
    /// A bit for each word of `words`, set where that word is not 0.
    top: u64,
}

impl RowSet {
    /// Makes a set of no rows. `AllocError` says that memory was refused.
    pub fn new(alloc: Global) -> Result<RowSet, AllocError>
        ensures set { IfOk result (λ s. IsRowSet s) }
        ensures rows { IfOk result (λ s. (r : ℕ) → Has s r → ⊥) }
    {
        Ok(RowSet {
            rows: vec![in alloc; 0; 1024]?,
            words: [0; 16],
            top: 0,
        })
    }

    /// Returns a set of the same rows. `AllocError` says that memory was refused.
    pub fn copied(&self, alloc: Global) -> Result<RowSet, AllocError>
        ensures set { IfOk result (λ s. IsRowSet self.now → IsRowSet s) }
        ensures rows { IfOk result (λ s. (r : ℕ) → Has s r ↔ Has self.now r) }
    {
        Ok(RowSet {
            rows: Vec::from_slice(alloc, &self.rows)?,
            words: self.words,
            top: self.top,
        })
    }

    /// Puts the row into the set.
    pub fn insert(&mut self, row: u32)
        requires set { IsRowSet self.old }
        requires small { row < 65536 }
        ensures set { IsRowSet self.new }
        ensures rows { (r : ℕ) → Has self.new r ↔ (Has self.old r ⊎ (r ≡ row)) }
    {
        let word = row / 64;
        let group = word / 64;
        self.rows[word as usize] = with_bit(self.rows[word as usize], row % 64);
        self.words[group as usize] = with_bit(self.words[group as usize], word % 64);
        self.top = with_bit(self.top, group);
    }

    /// Takes the lowest row out of the set, if there is one.
    pub fn take_least(&mut self) -> Option<u32>
        requires { IsRowSet self.old }
        ensures set { IsRowSet self.new }
        ensures had { IfSome result (λ row. Has self.old row) }
        ensures least { IfSome result (λ row. (r : ℕ) → Has self.old r → row ≤ r) }
        ensures rows { IfSome result (λ row. (r : ℕ) → Has self.new r ↔ (Has self.old r × (r ≢ row))) }
        ensures none { IfNone result ((r : ℕ) → Has self.old r → ⊥) }
        ensures unchanged { IfNone result (self.new ≡ self.old) }
    {
        let row = self.least()?;
        self.remove(row);
        Some(row)
    }

    // Returns the lowest row of the set, if there is one.
    fn least(&self) -> Option<u32>
        requires { IsRowSet self.now }
        ensures had { IfSome result (λ row. (row < 65536) × Has self.now row) }
        ensures least { IfSome result (λ row. (r : ℕ) → Has self.now r → row ≤ r) }
        ensures none { IfNone result ((r : ℕ) → Has self.now r → ⊥) }
    {
        if self.top == 0 {
            return None;
        }
        let group = self.top.trailing_zeros();
        let word = 64 * group + self.words[group as usize].trailing_zeros();
        Some(64 * word + self.rows[word as usize].trailing_zeros())
    }

    // Takes the row out of the set.
    fn remove(&mut self, row: u32)
        requires set { IsRowSet self.old }
        requires small { row < 65536 }
        requires has { Has self.old row }
        ensures set { IsRowSet self.new }
        ensures rows { (r : ℕ) → Has self.new r ↔ (Has self.old r × (r ≢ row)) }
    {
        let word = row / 64;
        let group = word / 64;
        self.rows[word as usize] = without_bit(self.rows[word as usize], row % 64);
        if self.rows[word as usize] == 0 {
            self.words[group as usize] = without_bit(self.words[group as usize], word % 64);
            if self.words[group as usize] == 0 {
                self.top = without_bit(self.top, group);
            }
        }
    }
}
