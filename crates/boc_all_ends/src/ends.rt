// The ends so far.

ghost use Rattle.std.specs.Prelude.{◌≡◌, ◌+◌, ◌<◌, ℤ, List, None, OnOk, IfOk};
ghost use Rattle.boc_program.specs.declared.program.Program.{Program};
ghost use Rattle.boc_all_ends.specs.Gathered.{AreNoted, HaveEnds, HoldsEnds, NotesMore, noted};

use crate::found::End;
use boc_front_rows::Front;
use std::alloc::{AllocError, Global};
use std::collections::BTreeMap;

/// The smallest and the greatest number of rows of the whole runs that end with some values.
#[derive(Clone, Copy, Debug)]
pub struct Extent {
    pub least: u32,
    pub most: u32,
}

/// The ends so far.
#[derive(Drop)]
pub struct Ends {
    found: BTreeMap<Vec<i64>, Extent>,
}

impl Ends {
    /// Returns no ends.
    pub fn new(alloc: Global) -> Ends
        ensures { (values : List ℤ) → noted result values ≡ None }
    {
        Ends {
            found: BTreeMap::new(alloc),
        }
    }

    // Notes that whole runs of N rows, and none of more so far, end with these values.
    fn note(&mut self, alloc: Global, values: &[i64], rows: u32) -> Result<(), AllocError>
        ensures { OnOk result (NotesMore self.old values.now rows self.new) }
    {
        let least = match self.found.get(values) {
            Some(extent) => extent.least,
            None => rows,
        };
        let key = Vec::from_slice(alloc, values)?;
        self.found.insert(key, Extent { least, most: rows })?;
        Ok(())
    }

    /// Notes the ends of the fronts of N rows, which are more than those of all fronts before.
    pub fn note_all(&mut self, alloc: Global, layer: &[Front], rows: u32) -> Result<(), AllocError>
        ensures { OnOk result ((p : Program) → HaveEnds p rows layer.now → AreNoted p rows self.old → AreNoted p (rows + 1) self.new) }
    {
        for front in layer {
            if front.live.is_empty() {
                self.note(alloc, &front.values, rows)?;
            }
        }
        Ok(())
    }

    /// Returns the ends in the order of their values.
    pub fn in_order(&self, alloc: Global) -> Result<Vec<End>, AllocError>
        ensures { IfOk result (λ all. HoldsEnds self.now all.items) }
    {
        let mut all = Vec::new(alloc);
        for (values, extent) in self.found.iter() {
            all.push(End {
                values: Vec::from_slice(alloc, values)?,
                least: extent.least,
                most: extent.most,
            })?;
        }
        Ok(all)
    }
}
