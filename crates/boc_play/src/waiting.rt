// Which rows are tried again where a row has ended: those that come next after it over a cown.

ghost use Rattle.std.specs.Prelude.{◌≡◌, ◌<◌, ◌++◌, ℕ, [], None, Some, All, length, replicate, slice_set, IfOk, OnOk};
ghost use Rattle.boc_play.specs.Waiting.{AreThere, linked, lists_of, next_after, put_behind, released, tables, with_row};

use boc_program::short::CownNo;
use std::alloc::{AllocError, Global};

/// The latest row over each cown, and for each row those that come next after it over one of its cowns.
#[derive(Drop)]
pub(crate) struct NextRows {
    latest: Vec<Option<u32>>,
    next: Vec<Vec<u32>>,
}

// Appends a row to those that come next after the one at a place.
fn put(next: &mut [Vec<u32>], place: usize, row: u32) -> Result<(), AllocError>
    requires { place < length next.old }
    ensures { OnOk result (lists_of next.new ≡ put_behind (lists_of next.old) (Some place) row) }
{
    next[place].push(row)?;
    Ok(())
}

// Appends a row to those that come next after another one, if there is one.
fn put_after(next: &mut [Vec<u32>], before: Option<u32>, row: u32) -> Result<(), AllocError>
    requires { (other : ℕ) → before ≡ Some other → other < length next.old }
    ensures { OnOk result (lists_of next.new ≡ put_behind (lists_of next.old) before row) }
{
    match before {
        Some(before) => put(next, before as usize, row),
        None => Ok(()),
    }
}

// Moves the rows that come next after the one at a place to others.
fn take(next: &mut [Vec<u32>], place: usize, others: &mut Vec<u32>) -> Result<(), AllocError>
    requires { place < length next.old }
    ensures next { OnOk result (lists_of next.new ≡ slice_set (lists_of next.old) place []) }
    ensures others { OnOk result (others.new.items ≡ others.old.items ++ next_after (lists_of next.old) place) }
{
    others.append(&mut next[place])?;
    Ok(())
}

impl NextRows {
    /// Returns no rows yet, over this number of cowns.
    pub fn new(alloc: Global, cowns: usize) -> Result<NextRows, AllocError>
        ensures { IfOk result (λ rows. tables rows ≡ record { latest = replicate cowns None; next = [] }) }
    {
        Ok(NextRows {
            latest: vec![in alloc; None; cowns]?,
            next: Vec::new(alloc),
        })
    }

    // Makes a row the latest over a cown. It comes next after the one that was.
    fn link(&mut self, row: u32, cown: CownNo) -> Result<(), AllocError>
        requires cown { cown < length self.old.latest.items }
        requires there { AreThere (tables self.old) }
        ensures { OnOk result (tables self.new ≡ linked (tables self.old) row cown) }
    {
        let place = cown as usize;
        let before = self.latest[place];
        put_after(&mut self.next, before, row)?;
        self.latest[place] = Some(row);
        Ok(())
    }

    /// Adds a row over these cowns, after all others.
    pub fn add(&mut self, alloc: Global, row: u32, cowns: &[CownNo]) -> Result<(), AllocError>
        requires cowns { All (λ cown. cown < length (tables self.old).latest) cowns.now }
        requires row { row ≡ length (tables self.old).next }
        requires there { AreThere (tables self.old) }
        ensures { OnOk result (tables self.new ≡ with_row (tables self.old) row cowns.now) }
    {
        self.next.push(Vec::new(alloc))?;
        for cown in cowns {
            self.link(row, *cown)?;
        }
        Ok(())
    }

    /// Moves the rows that come next after one to others.
    pub fn release(&mut self, row: u32, others: &mut Vec<u32>) -> Result<(), AllocError>
        requires { row < length (tables self.old).next }
        ensures rows { OnOk result (tables self.new ≡ released (tables self.old) row) }
        ensures others { OnOk result (others.new.items ≡ others.old.items ++ next_after (tables self.old).next row) }
    {
        take(&mut self.next, row as usize, others)
    }
}
