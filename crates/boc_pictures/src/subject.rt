// What pictures are of.

ghost use Rattle.std.specs.Prelude.{◌≡◌, ℕ, ◌<◌, List, length, IfOk, slice_index};
ghost use Rattle.boc_runs.specs.Rows.{IsRows};
ghost use Rattle.boc_plans.specs.Chains.{IsChain};
ghost use Rattle.boc_plans.specs.declared.chain.ChainStep.{ChainStep};
ghost use Rattle.boc_order.specs.Standing.{IsPlanOf};
ghost use Rattle.boc_pictures.specs.Subjects.{AreShown, IsShownAs, IsSubject, through_of};

use crate::spelling::Spelling;
use crate::written::Written;
use boc_names::{Names, text_at};
use boc_order::{Earliest, handed, spawned_at, waits_and_plan};
use boc_plans::chain::ChainStep;
use boc_plans::sharing::{SeenRows, Sharing};
use boc_program::held::HeldCowns;
use boc_program::short::HeldCown;
use boc_runs::rows::Rows;
use std::alloc::{AllocError, Global};

/// A row in the earliest plan. All numbers but rows are ticks.
#[derive(Clone, Copy, Debug)]
pub struct Shown {
    pub row: u32,
    pub start: u64,
    pub end: u64,
    /// When it is spawned; 0 for main.
    pub spawned: u64,
    /// The row whose end it waits for, where that is later than its spawn.
    pub after: Option<u32>,
    /// How many of its ticks the chain goes through, none where it is not on the chain.
    pub through: u32,
}

/// A run with the names of its rows and cowns, its earliest plan, and the chain that holds it back. All times are ticks.
#[derive(Drop)]
pub struct Subject {
    pub rows: Rows,
    pub names: Names,
    /// What plans see of the rows.
    pub sharing: Sharing,
    pub work: u64,
    pub span: u64,
    /// Each row.
    pub shown: Vec<Shown>,
    pub chain: Vec<ChainStep>,
}

impl Subject {
    /// Makes a subject of these rows with these names, as plans see them. `AllocError` says that memory was refused, and then the rows and the names are gone.
    pub fn of(
        alloc: Global,
        rows: Rows,
        names: Names,
        sharing: Sharing,
    ) -> Result<Subject, AllocError>
        ensures { IfOk result (IsSubject rows names sharing) }
    {
        let seen = SeenRows::new(&rows, sharing);
        let (_, plan) = waits_and_plan(alloc, &seen)?;
        let profile = plan.profile(alloc, &seen)?;
        let through = through_of(alloc, &seen, &profile.chain.steps)?;
        let shown = shown_of(alloc, &seen, &plan, &profile.chain.steps, &through)?;
        Ok(Subject {
            rows,
            names,
            sharing,
            work: profile.work,
            span: profile.span,
            shown,
            chain: profile.chain.steps,
        })
    }

    /// Returns how many rows there are.
    pub fn count(&self) -> usize
        ensures { result ≡ length self.now.shown.items }
    {
        self.shown.len()
    }

    /// Returns what a row is called.
    pub fn name(&self, row: u32) -> &[u8] {
        text_at(&self.names.rows, row as usize)
    }

    /// Returns what a cown is called.
    pub fn cown_name(&self, cown: HeldCown) -> &[u8] {
        text_at(&self.names.cowns, cown as usize)
    }

    /// Returns the def of a row; the first one where it has none.
    pub fn def(&self, row: u32) -> usize {
        match self.names.defs.get(row as usize) {
            Some(def) => *def as usize,
            None => 0,
        }
    }

    /// Returns whether the chain goes through a row.
    pub fn is_on_chain(&self, row: u32) -> bool {
        match self.shown.get(row as usize) {
            Some(row) => row.through > 0,
            None => false,
        }
    }

    /// Returns the cowns of a row.
    pub fn cowns(&self, row: u32) -> &[HeldCown] {
        match self.rows.as_slice().get(row as usize) {
            Some(row) => row.cowns.as_slice(),
            None => &[],
        }
    }

    /// Returns the cowns that a row hands to another one, where there are such rows.
    pub(crate) fn handed(&self, from: u32, to: u32) -> Option<HeldCowns> {
        let seen = SeenRows::new(&self.rows, self.sharing);
        if seen.len() <= from as usize || seen.len() <= to as usize {
            return None;
        }
        Some(handed(&seen, from as usize, to as usize))
    }

    /// Puts the names of the cowns that a row hands to another one, with ` and ` between them.
    pub(crate) fn put_handed(&self, text: &mut Written, spelling: Spelling, from: u32, to: u32) {
        let Some(handed) = self.handed(from, to) else {
            return;
        };
        for (place, cown) in handed.as_slice().iter().enumerate() {
            if place > 0 {
                text.put(" and ");
            }
            spelling.put(text, self.cown_name(*cown), 80);
        }
    }
}

// Returns a row as it is in a plan, of which the chain goes through this many ticks.
fn shown_at(rows: &SeenRows, plan: &Earliest, row: usize, through: u32) -> Shown
    requires shape { IsRows rows.now }
    requires placed { IsPlanOf rows.now plan.now }
    requires there { row < length rows.now }
    ensures { (steps : List ChainStep) → through ≡ through_of steps row → IsShownAs rows.now plan.now.starts.items steps row result }
{
    Shown {
        row: row as u32,
        start: plan.starts[row],
        end: plan.ends[row],
        spawned: spawned_at(rows, row, &plan.starts),
        after: if row == 0 { None } else { plan.after[row] },
        through,
    }
}

// Returns the rows of a plan, of each of which the chain goes through this many ticks.
fn shown_of(
    alloc: Global,
    rows: &SeenRows,
    plan: &Earliest,
    steps: &[ChainStep],
    through: &[u32],
) -> Result<Vec<Shown>, AllocError>
    requires shape { IsRows rows.now }
    requires placed { IsPlanOf rows.now plan.now }
    requires whole { length through.now ≡ length rows.now }
    requires through { (r : ℕ) → r < length rows.now → slice_index through.now r ≡ through_of steps.now r }
    ensures { IfOk result (λ shown. AreShown rows.now plan.now.starts.items steps.now shown.items) }
{
    let mut shown = Vec::with_capacity(alloc, rows.len())?;
    for row in 0..rows.len() {
        shown.push(shown_at(rows, plan, row, through[row]))?;
    }
    Ok(shown)
}

// Returns how many ticks of each row the chain goes through.
fn through_of(alloc: Global, rows: &SeenRows, steps: &[ChainStep]) -> Result<Vec<u32>, AllocError>
    requires { IsChain rows.now steps.now }
    ensures whole { IfOk result (λ through. length through.items ≡ length rows.now) }
    ensures each { IfOk result (λ through. (r : ℕ) → r < length rows.now → slice_index through.items r ≡ through_of steps.now r) }
{
    let mut through = vec![in alloc; 0u32; rows.len()]?;
    for step in steps {
        through[step.row as usize] = step.weight;
    }
    Ok(through)
}
