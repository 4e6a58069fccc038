// Which rules an event keeps.

ghost use Rattle.std.specs.Prelude.{◌≡◌, ◌<◌, ◌≤◌, ◌↔◌, All, IsTrue, MatchOption, Some, length};
ghost use Rattle.std.specs.Option.{option_map};

use crate::before::MaybeRow;
use crate::kept_row::Life;
use crate::so_far::RunSoFar;
use boc_program::cowns::{are_among, are_cowns};
use boc_program::held::HeldCowns;
use boc_program::limits::{MOST_ROWS, MOST_TICKS};
use boc_program::short::Cowns;
use boc_runs::event::{BrokenRule, Event};

impl RunSoFar {
    ghost use Rattle.boc_program.specs.declared.body.EndStatus.{EndStatus};
    ghost use Rattle.boc_runs.specs.Lives.{Running, MayStart};
    ghost use Rattle.boc_program.specs.Cowns.{AreAmong};
    ghost use Rattle.boc_runs.specs.Legal.{entry_cowns, life_of, last_of, IsParent, IsOffset, MayNeed, MayEnd};
    ghost use Rattle.boc_rules.specs.Course.{IsOver};
    ghost use Rattle.boc_rules.specs.SoFar.{IsRunSoFar, so_far, meant};
    ghost use Rattle.boc_rules.specs.Before.{IsOverAt};
    ghost use Rattle.boc_rules.specs.Judges.{Judges};

    /// Checks that the event keeps every rule, and otherwise returns the first that it breaks.
    #[inline(always)]
    pub fn judge(&self, event: &Event) -> Result<(), BrokenRule>
        requires { IsRunSoFar self.now }
        ensures { Judges self.now.cowns (so_far self.now) event.now result }
    {
        match event {
            Event::Spawn {
                row,
                parent,
                offset,
                cowns,
            } => self.judge_spawn(*row, *parent, *offset, cowns),
            Event::Start { row } => self.judge_start(*row),
            Event::End {
                row,
                ticks,
                written,
                ..
            } => self.judge_end(*row, *ticks, written),
        }
    }

    // The rules of a spawn, in the order in which they are judged.
    fn judge_spawn(
        &self,
        row: u32,
        parent: u32,
        offset: u32,
        cowns: &Cowns,
    ) -> Result<(), BrokenRule>
        requires { IsRunSoFar self.now }
        ensures { Judges self.now.cowns (so_far self.now) (Event.Spawn row parent offset cowns.now) result }
    {
        let needed = cowns.as_slice();
        if row as usize != self.rows.len() {
            return Err(BrokenRule::NumberNotNext);
        }
        if row as usize >= MOST_ROWS {
            return Err(BrokenRule::TooMany);
        }
        if !self.is_parent(parent) {
            return Err(BrokenRule::ParentNotRunning);
        }
        if !self.is_offset(parent, offset) {
            return Err(BrokenRule::Offset);
        }
        if !self.may_need(needed) {
            return Err(BrokenRule::Cowns);
        }
        Ok(())
    }

    // The rule of a start.
    fn judge_start(&self, row: u32) -> Result<(), BrokenRule>
        requires { IsRunSoFar self.now }
        ensures { Judges self.now.cowns (so_far self.now) (Event.Start row) result }
    {
        if !self.may_start(row) {
            return Err(BrokenRule::StartNotAllowed);
        }
        Ok(())
    }

    // The rule of an end, whatever its status.
    fn judge_end(&self, row: u32, ticks: u32, written: &Cowns) -> Result<(), BrokenRule>
        requires { IsRunSoFar self.now }
        ensures { (status : EndStatus) → Judges self.now.cowns (so_far self.now) (Event.End row ticks status written.now) result }
    {
        let wrote = written.as_slice();
        if !self.may_end(row, ticks, wrote) {
            return Err(BrokenRule::EndNotAllowed);
        }
        Ok(())
    }

    // Returns what has become of the row, if it is there.
    fn life(&self, row: u32) -> Option<Life>
        requires { IsRunSoFar self.now }
        ensures { option_map meant result ≡ life_of (so_far self.now) row }
    {
        Some(self.kept_rows.get(row as usize)?.life)
    }

    // Returns the offset of the row's last child; 0 where it has none, or isn't there.
    fn last(&self, row: u32) -> u32
        requires { IsRunSoFar self.now }
        ensures { result ≡ last_of (so_far self.now) row }
    {
        match self.kept_rows.get(row as usize) {
            Some(kept_row) => kept_row.last,
            None => 0,
        }
    }

    // Returns whether the row is there and runs.
    fn is_running(&self, row: u32) -> bool
        requires { IsRunSoFar self.now }
        ensures { IsTrue result ↔ (life_of (so_far self.now) row ≡ Some Running) }
    {
        matches!(self.life(row), Some(Life::Running))
    }

    // Returns whether the next row may have this parent.
    fn is_parent(&self, parent: u32) -> bool
        requires { IsRunSoFar self.now }
        ensures { IsTrue result ↔ IsParent (so_far self.now) parent }
    {
        if self.kept_rows.is_empty() {
            parent == 0
        } else {
            self.is_running(parent)
        }
    }

    // Returns whether the next row may have this offset.
    fn is_offset(&self, parent: u32, offset: u32) -> bool
        requires { IsRunSoFar self.now }
        ensures { IsTrue result ↔ IsOffset (so_far self.now) parent offset }
    {
        if self.kept_rows.is_empty() {
            offset == 0
        } else {
            self.last(parent) < offset && offset <= MOST_TICKS
        }
    }

    // Returns whether the next row may have these cowns.
    fn may_need(&self, cowns: &[u32]) -> bool
        requires { IsRunSoFar self.now }
        ensures { IsTrue result ↔ MayNeed self.now.cowns (so_far self.now) cowns.now }
    {
        if self.kept_rows.is_empty() {
            cowns.is_empty()
        } else {
            are_cowns(cowns, self.cowns)
        }
    }

    // Returns whether the row waits, and on each of its cowns the row before it has ended.
    fn may_start(&self, row: u32) -> bool
        requires { IsRunSoFar self.now }
        ensures { IsTrue result ↔ MayStart (life_of (so_far self.now)) (entry_cowns (so_far self.now)) row }
    {
        let Some(kept_row) = self.kept_rows.get(row as usize) else {
            return false;
        };
        match kept_row.life {
            Life::Pending => self.are_over(
                &self.found[kept_row.from as usize..kept_row.to as usize],
            ),
            Life::Running | Life::Ended => false,
        }
    }

    // Returns whether all of these rows have ended.
    fn are_over(&self, rows: &[MaybeRow]) -> bool
        requires { IsRunSoFar self.now }
        ensures { IsTrue result ↔ All (IsOverAt (so_far self.now)) rows.now }
    {
        for row in rows {
            if let Some(row) = row.get() {
                if !matches!(self.life(row), Some(Life::Ended)) {
                    return false;
                }
            }
        }
        true
    }

    /// Returns the cowns of the row, if it is there.
    pub fn cowns_of(&self, row: u32) -> Option<&HeldCowns>
        requires { IsRunSoFar self.now }
        ensures { MatchOption result (length (so_far self.now) ≤ row)
            (λ cowns. (row < length (so_far self.now)) × (cowns.now.items ≡ entry_cowns (so_far self.now) row)) }
    {
        Some(&self.rows.get(row as usize)?.cowns)
    }

    // These rise strictly, and are among the row's cowns; a row that isn't there has none.
    fn are_own(&self, row: u32, written: &[u32]) -> bool
        requires { IsRunSoFar self.now }
        ensures { IsTrue result ↔ AreAmong (entry_cowns (so_far self.now) row) written.now }
    {
        match self.cowns_of(row) {
            Some(cowns) => are_among(written, cowns.as_slice()),
            None => written.is_empty(),
        }
    }

    // Returns whether the row runs, these ticks reach its last child's spawn, and what was written is its own.
    fn may_end(&self, row: u32, ticks: u32, written: &[u32]) -> bool
        requires { IsRunSoFar self.now }
        ensures { IsTrue result ↔ MayEnd (so_far self.now) row ticks written.now }
    {
        self.is_running(row)
            && 0 < ticks
            && ticks <= MOST_TICKS
            && self.last(row) <= ticks
            && self.are_own(row, written)
    }

    /// Returns whether there is a row, and all rows have ended.
    pub fn is_complete(&self) -> bool
        requires { IsRunSoFar self.now }
        ensures { IsTrue result ↔ IsOver (so_far self.now) }
    {
        let rows = self.rows.len();
        rows > 0 && self.ended as usize == rows
    }
}
