// Rows that are edited one after another.

ghost use Rattle.std.specs.Prelude.{◌≡◌, ◌≤◌, ◌+◌, ◌-◌, List, length, take, IfOk, IfErr, OnOk, OnErr};
ghost use Rattle.boc_runs.specs.declared.rows.Row.{Row};
ghost use Rattle.boc_runs.specs.Changes.{without};
ghost use Rattle.boc_plans.specs.Plans.{work_of};
ghost use Rattle.boc_plans.specs.Greedy.{IsSpan};
ghost use Rattle.boc_runs.specs.Rows.{Fits, edited};
ghost use Rattle.boc_program.specs.declared.limits.TheConstants.{MOST_COWNS};
ghost use Rattle.boc_plans.specs.Edits.{AreEdited, IsChanged, IsCownSweep, IsEditFault, IsFirstUnfit, IsSpawnSweep, IsSweep, takes};
ghost use Rattle.boc_plans.specs.Sweeps.{IsGreedyCownSweep, IsGreedySweep};
ghost use Rattle.boc_plans.specs.Seen.{seen};
ghost use Rattle.boc_order.specs.Profiles.{IsProfileOf};
ghost use Rattle.boc_greedy.specs.Curves.{IsCurve};
ghost use Rattle.boc_greedy.specs.Plans.{IsGreedyPlanOf};
ghost use Rattle.boc_whatif.specs.Asked.{least_edited};

use crate::cown_ends::cown_ends;
use crate::edits::{Unfit, make, make_all};
use crate::least_ends::least_ends;
use boc_greedy::{Consequences, CurvePoint, Greedy, curve_over, greedy_over};
use boc_order::{Earliest, Links, Profile, waits_and_plan};
use boc_plans::edit::{Change, Edit, EditFault};
use boc_plans::sharing::{SeenRows, Sharing};
use boc_program::count::Workers;
use boc_program::limits::MOST_ROWS;
use boc_program::short::HeldCown;
use boc_progress::Progress;
use boc_runs::rows::Rows;
use boc_runs::siblings::Siblings;
use boc_sweep::{cown_sweep, last_children, spawn_sweep, sweep};
use std::alloc::{AllocError, Global};
use std::marker::Model;
use std::thread::Threads;

/// The rows of a finished run, of which a caller asks what they would be worth if some of them changed.
///
/// It has rows of its own, with those that each waits for, and their earliest plan. An edit has one row take other
/// ticks, be spawned at another tick, or cost a part of what it did, and places that row and those after it again. All times are ticks.
#[derive(Drop)]
pub struct WhatIf {
    rows: Rows,
    sharing: Sharing,
    lasts: Vec<u32>,
    // An edit changes no parent, so who are siblings is found once.
    siblings: Siblings,
    // An edit changes no cown, so what each row waits for is found once.
    waits: Links,
    plan: Earliest,
    touched: u64,
}

impl Model for WhatIf {
    ghost use Rattle.boc_whatif.specs.Asked.{Asked, IsUpToDate};

    ghost Value = { Asked };

    ghost view = { λ w. record { rows = w.rows; sharing = w.sharing; touched = w.touched } };

    ghost invariant = { λ w. IsUpToDate w.rows w.sharing w.lasts.items w.siblings w.waits w.plan };
}

impl WhatIf {
    /// Returns the same rows, none of them edited, of which plans see this much shared. `AllocError` says that memory was refused.
    ///
    /// It takes all memory that the edits need, and a copy of the rows. `of` takes over the rows of a caller who needs
    /// them no more.
    pub fn new(alloc: Global, rows: &Rows, sharing: Sharing) -> Result<WhatIf, AllocError>
        ensures rows { IfOk result (λ w. w.rows ≡ rows.now) }
        ensures sharing { IfOk result (λ w. w.sharing ≡ sharing) }
        ensures touched { IfOk result (λ w. w.touched ≡ 0) }
    {
        WhatIf::of(alloc, rows.copy(alloc)?, sharing)
    }

    /// Keeps these rows, none of them edited. `AllocError` says that memory was refused, and then the rows are gone.
    ///
    /// It takes all memory that the edits need, and time that grows with the number of rows and their cowns.
    pub fn of(alloc: Global, rows: Rows, sharing: Sharing) -> Result<WhatIf, AllocError>
        ensures rows { IfOk result (λ w. w.rows ≡ rows) }
        ensures sharing { IfOk result (λ w. w.sharing ≡ sharing) }
        ensures touched { IfOk result (λ w. w.touched ≡ 0) }
    {
        let lasts = last_children(alloc, rows.as_slice())?;
        let siblings = Siblings::of(alloc, rows.as_slice())?;
        let seen = SeenRows::new(&rows, sharing);
        let (waits, plan) = waits_and_plan(alloc, &seen)?;
        Ok(WhatIf {
            rows,
            sharing,
            lasts,
            siblings,
            waits,
            plan,
            touched: 0,
        })
    }

    /// Makes a row take this many ticks. The fault says why it can't, and then nothing changes.
    ///
    /// It takes no memory. It computes the row and those after it again.
    pub fn edit(&mut self, row: u32, ticks: u32) -> Result<(), EditFault>
        ensures fits { OnOk result (Fits self.old.rows row ticks) }
        ensures rows { OnOk result (self.new.rows ≡ edited self.old.rows row ticks) }
        ensures sharing { self.new.sharing ≡ self.old.sharing }
        ensures touched { OnOk result (self.new.touched + row ≡ length self.old.rows) }
        ensures fault { IfErr result (IsEditFault self.old.rows (takes row ticks)) }
        ensures refused { OnErr result (Fits self.old.rows row ticks → ⊥) }
        ensures stays { OnErr result (self.new ≡ self.old) }
    {
        let change = Change::Ticks(ticks);
        self.make(Edit { row, change })
    }

    /// Makes a row change. The fault says why it can't, and then nothing changes.
    ///
    /// It takes no memory. It computes the row and those after it again.
    pub fn make(&mut self, edit: Edit) -> Result<(), EditFault>
        ensures made { OnOk result (IsChanged self.old.rows edit.row edit.change self.new.rows) }
        ensures sharing { self.new.sharing ≡ self.old.sharing }
        ensures touched { OnOk result (self.new.touched + edit.row ≡ length self.old.rows) }
        ensures fault { IfErr result (IsEditFault self.old.rows edit) }
        ensures refused { OnErr result ((after : List Row) → IsChanged self.old.rows edit.row edit.change after → ⊥) }
        ensures stays { OnErr result (self.new ≡ self.old) }
    {
        let number = edit.row as usize;
        make(&mut self.rows, &mut self.lasts, &self.siblings, edit)?;
        let rows = SeenRows::new(&self.rows, self.sharing);
        self.plan.place_from(&rows, &self.waits, number);
        self.touched = (rows.len() - number) as u64;
        Ok(())
    }

    /// Makes rows change, edit by edit, up to the first that they can't take as those before it have made them. Those before it
    /// are made.
    ///
    /// It takes no memory. An edit takes time that grows with the children of its row. The lowest row that is edited and those after it are
    /// computed again, once for all edits.
    pub fn edit_all(&mut self, edits: &[Edit]) -> Result<(), Unfit>
        ensures rows { OnOk result (AreEdited self.old.rows edits.now self.new.rows) }
        ensures touched { OnOk result (self.new.touched + least_edited (length self.old.rows) edits.now ≡ length self.old.rows) }
        ensures unfit { IfErr result (λ u. IsFirstUnfit self.old.rows edits.now u.number u.fault) }
        ensures before { IfErr result (λ u. AreEdited self.old.rows (take (u.number - 1) edits.now) self.new.rows) }
        ensures some { IfErr result (λ u. self.new.touched + least_edited (length self.old.rows) (take (u.number - 1) edits.now)
            ≡ length self.old.rows) }
        ensures sharing { self.new.sharing ≡ self.old.sharing }
    {
        let (from, answer) = make_all(&mut self.rows, &mut self.lasts, &self.siblings, edits);
        let rows = SeenRows::new(&self.rows, self.sharing);
        self.plan.place_from(&rows, &self.waits, from);
        self.touched = (rows.len() - from) as u64;
        answer
    }

    /// Returns the same rows, as they are edited, none of which has this cown: it imposes no order. `AllocError` says that memory was refused.
    ///
    /// It takes memory and time that grow with the number of rows and their cowns.
    pub fn without(&self, alloc: Global, cown: HeldCown) -> Result<WhatIf, AllocError>
        ensures rows { IfOk result (λ w. w.rows ≡ without cown self.now.rows) }
        ensures sharing { IfOk result (λ w. w.sharing ≡ self.now.sharing) }
        ensures touched { IfOk result (λ w. w.touched ≡ 0) }
    {
        WhatIf::of(alloc, self.rows.without(alloc, cown)?, self.sharing)
    }

    /// Returns how many rows the last edit that was taken computed again: those from its row on, or from the lowest row
    /// of several edits that were made at once. Before the first it is 0.
    pub fn touched(&self) -> u64
        ensures { result ≡ self.now.touched }
    {
        self.touched
    }

    /// Returns the rows as they are edited.
    pub fn rows(&self) -> &Rows
        ensures { result.now ≡ self.now.rows }
    {
        &self.rows
    }

    /// Returns how the rows share cowns.
    pub fn sharing(&self) -> Sharing
        ensures { result ≡ self.now.sharing }
    {
        self.sharing
    }

    /// Returns the ticks of all rows together. It takes no memory.
    pub fn work(&self) -> u64
        ensures { result ≡ work_of self.now.rows }
    {
        boc_order::work(self.rows.as_slice())
    }

    /// Returns the tick at which the earliest plan of the rows ends. It takes no memory.
    pub fn span(&self) -> u64
        ensures { IsSpan (seen self.now.sharing self.now.rows) result }
    {
        self.plan.span()
    }

    /// Returns the profile of the rows, as `boc_order::profile` has it. `AllocError` says that memory was refused.
    ///
    /// It comes from the plan that the edits keep, so no row is placed again. It takes memory and time that grow with
    /// the number of rows.
    pub fn profile(&self, alloc: Global) -> Result<Profile, AllocError>
        ensures { IfOk result (λ profile. IsProfileOf (seen self.now.sharing self.now.rows) profile) }
    {
        self.plan
            .profile(alloc, &SeenRows::new(&self.rows, self.sharing))
    }

    /// Returns the profile as `WhatIf::profile` has it, for a caller who asks no more: the plan's starts and ends are taken over, and not copied.
    /// `AllocError` says that memory was refused, and then the question is gone.
    pub fn into_profile(self, alloc: Global) -> Result<Profile, AllocError>
        ensures { IfOk result (λ profile. IsProfileOf (seen self.sharing self.rows) profile) }
    {
        self.plan
            .into_profile(alloc, &SeenRows::new(&self.rows, self.sharing))
    }

    /// Returns the greedy plan of the rows for the given number of workers, as `boc_greedy::greedy` has it. `AllocError` says that
    /// memory was refused.
    pub fn greedy(&self, alloc: Global, workers: Workers) -> Result<Greedy, AllocError>
        ensures { IfOk result (λ plan. IsGreedyPlanOf (seen self.now.sharing self.now.rows) workers plan) }
    {
        let rows = SeenRows::new(&self.rows, self.sharing);
        let consequences = Consequences::of(alloc, &rows, &self.waits)?;
        greedy_over(
            alloc,
            &rows,
            &self.waits,
            &consequences,
            workers,
            self.work(),
            self.span(),
        )
    }

    /// Returns for 1 worker, 2 workers and so on up to the most: the end of the greedy plan of the rows and what it is between, as
    /// `boc_greedy::curve` has it. `AllocError` says that memory was refused.
    ///
    /// It makes a plan for each number of workers. Threads share them out, and each plan takes memory that grows with the number of rows.
    pub fn curve(
        &self,
        rt: &(impl Threads + Sync),
        alloc: Global,
        most: Workers,
    ) -> Result<Vec<CurvePoint>, AllocError>
        ensures { IfOk result (λ points. IsCurve (seen self.now.sharing self.now.rows) most points.items) }
    {
        let rows = SeenRows::new(&self.rows, self.sharing);
        let consequences = Consequences::of(alloc, &rows, &self.waits)?;
        let (work, span) = (self.work(), self.span());
        curve_over(
            rt,
            alloc,
            &rows,
            &self.waits,
            &consequences,
            work,
            span,
            most,
        )
    }

    /// Returns for each row the span that the rows would have if that row alone took the fewest ticks that it can: the offset
    /// of its last child, and 1 at least. `AllocError` says that memory was refused.
    ///
    /// No row is placed again: it takes memory that grows with the number of rows and their cowns, and that much time
    /// with its logarithm too. From 32,766 rows on, threads find the spans, at most four; the answer is the same.
    pub fn sweep(&self, rt: &(impl Threads + Sync), alloc: Global) -> Result<Vec<u64>, AllocError>
        ensures sweep { IfOk result (λ spans. IsSweep (seen self.now.sharing self.now.rows) spans.items) }
        ensures few { IfOk result (λ spans. length spans.items ≤ MOST_ROWS) }
    {
        let rows = SeenRows::new(&self.rows, self.sharing);
        sweep(rt, alloc, &rows, &self.waits, &self.plan, &self.lasts)
    }

    /// Returns for each row but main the span that the rows would have if that row alone were spawned as early as it can be: one tick after its earlier
    /// sibling's offset, or at its parent's tick 1. `AllocError` says that memory was refused.
    ///
    /// No row is placed again: it takes memory that grows with the number of rows and their cowns, and that much time with its logarithm
    /// too.
    pub fn spawn_sweep(&self, alloc: Global) -> Result<Vec<u64>, AllocError>
        ensures sweep { IfOk result (λ spans. IsSpawnSweep (seen self.now.sharing self.now.rows) spans.items) }
        ensures few { IfOk result (λ spans. length spans.items ≤ MOST_ROWS) }
    {
        let rows = SeenRows::new(&self.rows, self.sharing);
        spawn_sweep(alloc, &rows, &self.waits, &self.plan)
    }

    /// Returns for each of the given number of cowns the span that the rows would have if that cown imposed no order. `AllocError` says that memory was
    /// refused.
    ///
    /// One pass over the rows and their cowns serves some cowns at once, one serves all that no row has, and each takes memory that grows with
    /// the number of rows. Threads share out the passes.
    pub fn cown_sweep(
        &self,
        rt: &(impl Threads + Sync),
        alloc: Global,
        count: usize,
    ) -> Result<Vec<u64>, AllocError>
        requires { count ≤ MOST_COWNS }
        ensures sweep { IfOk result (λ spans. IsCownSweep (seen self.now.sharing self.now.rows) count spans.items) }
        ensures few { IfOk result (λ spans. length spans.items ≤ MOST_ROWS) }
    {
        let rows = SeenRows::new(&self.rows, self.sharing);
        cown_sweep(rt, alloc, &rows, count)
    }

    /// Returns for each of the given number of cowns the end of the greedy plan that the rows would have for the given number of workers if that cown imposed
    /// no order. `AllocError` says that memory was refused.
    ///
    /// It makes a greedy plan for each cown, and copies no row. Threads share out the cowns, and progress is reported after each 16 of them.
    pub fn greedy_cown_sweep(
        &self,
        rt: &(impl Threads + Sync),
        alloc: Global,
        count: usize,
        workers: Workers,
        progress: &mut dyn Progress,
    ) -> Result<Vec<u64>, AllocError>
        requires { count ≤ MOST_COWNS }
        ensures sweep { IfOk result (λ ends. IsGreedyCownSweep (seen self.now.sharing self.now.rows) workers count ends.items) }
        ensures few { IfOk result (λ ends. length ends.items ≤ MOST_ROWS) }
    {
        let rows = SeenRows::new(&self.rows, self.sharing);
        cown_ends(rt, alloc, &rows, count, workers, progress)
    }

    /// Returns for each row the end of the greedy plan for the given number of workers if that row alone took the fewest ticks that it can. These are the
    /// offset of its last child, and 1 at least. `AllocError` says that memory was refused.
    ///
    /// For each row that takes more than its least ticks it makes a greedy plan, but what the plans of some neighbouring rows have in common
    /// with that of the rows as they are it makes once. Threads share out the rows, and each takes memory that grows with the number of
    /// rows. Progress is reported after each 1,024 plans.
    pub fn greedy_sweep(
        &self,
        rt: &(impl Threads + Sync),
        alloc: Global,
        workers: Workers,
        progress: &mut dyn Progress,
    ) -> Result<Vec<u64>, AllocError>
        ensures sweep { IfOk result (λ ends. IsGreedySweep (seen self.now.sharing self.now.rows) workers ends.items) }
        ensures few { IfOk result (λ ends. length ends.items ≤ MOST_ROWS) }
    {
        let span = self.span();
        least_ends(
            rt,
            alloc,
            &self.rows,
            self.sharing,
            &self.waits,
            &self.lasts,
            span,
            workers,
            progress,
        )
    }
}
