// The behaviours of a serial run, in the order in which they were spawned.

ghost use Rattle.std.specs.Prelude.{◌≡◌, ◌<◌, ◌≤◌, [], ◌∷◌, ◌++◌, length, slice_range, OnOk};
ghost use Rattle.boc_program.specs.declared.limits.TheConstants.{MOST_ARGUMENTS, MOST_HELD, MOST_ROWS};
ghost use Rattle.boc_runs.specs.Serial.{Behaviour};
ghost use Rattle.boc_eval.specs.Behaviours.{IsConsistent, IsWithin, behaviour_at, behaviours_of};

use crate::lists::push_each;
use boc_program::short::CownNo;
use std::alloc::{AllocError, Global};

/// A part of a list, from one place up to another.
#[derive(Clone, Copy)]
pub struct Extent {
    pub from: u32,
    pub to: u32,
}

/// A behaviour, and where its arguments and its cowns are among those of all behaviours.
#[derive(Clone, Copy)]
pub struct Row {
    pub kind: usize,
    pub args: Extent,
    pub cowns: Extent,
}

// Returns the part of a list.
#[inline(always)]
fn part<T>(items: &[T], extent: Extent) -> &[T]
    requires { IsWithin extent (length items.now) }
    ensures { result.now ≡ slice_range items.now extent.from extent.to }
{
    &items[extent.from as usize..extent.to as usize]
}

/// A row for each behaviour of a run, in the order in which they were spawned.
#[derive(Drop)]
pub struct Rows {
    pub rows: Vec<Row>,
    /// The arguments of all behaviours, one behaviour after another.
    pub args: Vec<i64>,
    /// The cowns of all behaviours, one behaviour after another.
    pub cowns: Vec<CownNo>,
}

impl Rows {
    /// Makes a list of no rows.
    pub fn new(alloc: Global) -> Rows
        ensures sound { IsConsistent result }
        ensures empty { result.rows.items ≡ [] }
    {
        Rows {
            rows: Vec::new(alloc),
            args: Vec::new(alloc),
            cowns: Vec::new(alloc),
        }
    }

    /// Returns how many behaviours there are.
    pub fn len(&self) -> usize
        ensures { result ≡ length self.now.rows.items }
    {
        self.rows.len()
    }

    /// Adds a behaviour after the others.
    pub fn push(&mut self, kind: usize, args: &[i64], cowns: &[CownNo]) -> Result<(), AllocError>
        requires sound { IsConsistent self.old }
        requires few { length self.old.rows.items < MOST_ROWS }
        requires few_args { length args.now ≤ MOST_ARGUMENTS }
        requires few_cowns { length cowns.now ≤ MOST_HELD }
        ensures sound { OnOk result (IsConsistent self.new) }
        ensures behaviours { OnOk result (behaviours_of self.new ≡ behaviours_of self.old
            ++ (let b : Behaviour = record { kind = kind; args = args.now; cowns = cowns.now } in b) ∷ []) }
    {
        let args_from = self.args.len() as u32;
        let cowns_from = self.cowns.len() as u32;
        push_each(&mut self.args, args)?;
        push_each(&mut self.cowns, cowns)?;
        self.rows.push(Row {
            kind,
            args: Extent {
                from: args_from,
                to: self.args.len() as u32,
            },
            cowns: Extent {
                from: cowns_from,
                to: self.cowns.len() as u32,
            },
        })?;
        Ok(())
    }

    /// Returns the kind of a behaviour.
    pub fn kind(&self, row: usize) -> usize
        requires { row < length self.now.rows.items }
        ensures { result ≡ (behaviour_at self.now row).kind }
    {
        self.rows[row].kind
    }

    /// Returns the arguments of a behaviour.
    pub fn args(&self, row: usize) -> &[i64]
        requires sound { IsConsistent self.now }
        requires there { row < length self.now.rows.items }
        ensures { result.now ≡ (behaviour_at self.now row).args }
    {
        part(&self.args, self.rows[row].args)
    }

    /// Returns the cowns of a behaviour.
    pub fn cowns(&self, row: usize) -> &[CownNo]
        requires sound { IsConsistent self.now }
        requires there { row < length self.now.rows.items }
        ensures { result.now ≡ (behaviour_at self.now row).cowns }
    {
        part(&self.cowns, self.rows[row].cowns)
    }
}
