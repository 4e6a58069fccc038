// The pass over the rows, each of which is placed by what those before it have left.

use crate::coming::{Coming, leave, note_coming, push_waits, start_of};
use crate::pace::{Pace, Wait, made};
use boc_plans::sharing::SeenRows;
use boc_program::limits::MOST_COWNS;
use boc_uses::Use;
use std::alloc::{AllocError, Global};

/// The rows so far, as they are placed.
#[derive(Drop)]
pub(crate) struct Course {
    // The pace of each row.
    paces: Vec<Pace>,
    // The waits of all rows, in their order.
    waits: Vec<Wait>,
    // For each cown when the rows that have it have left it.
    held: Vec<u64>,
    // For each cown when the rows that wrote it have left it.
    wrote: Vec<u64>,
    // When the last row got each of its cowns.
    coming: Vec<Coming>,
    // How many cowns the rows have, each for itself.
    passed: usize,
    // When the last row and the last turn have ended.
    last: u64,
}

impl Course {
    ghost use Rattle.std.specs.Prelude.{◌≡◌, ℕ, ◌<◌, ◌+◌, Bool, List, length, Option, IfOk};
    ghost use Rattle.boc_program.specs.declared.limits.TheConstants.{MOST_COWNS};
    ghost use Rattle.boc_runs.specs.Rows.{IsRows, parent_of, offset_of};
    ghost use Rattle.boc_uses.specs.declared.uses.Use.{Use};
    ghost use Rattle.boc_turns.specs.Turns.{AreUses};
    ghost use Rattle.boc_turns.specs.Course.{HasCourse, made_in, marked};

    /// Makes a course in which no row is placed, with space for these. `AllocError` says that memory was refused.
    pub(crate) fn with_room(alloc: Global, rows: &SeenRows) -> Result<Course, AllocError>
        ensures { IfOk result (λ course. (uses : List (Option Use)) (relaxed : ℕ → Bool) → HasCourse rows.now uses relaxed 0 course) }
    {
        Ok(Course {
            paces: Vec::with_capacity(alloc, rows.len())?,
            waits: Vec::new(alloc),
            held: vec![in alloc; 0; MOST_COWNS]?,
            wrote: vec![in alloc; 0; MOST_COWNS]?,
            coming: Vec::new(alloc),
            passed: 0,
            last: 0,
        })
    }

    // Returns when the next row is spawned: when its parent has made the tick of its offset, and at once if it is main.
    fn spawned_at(&self, rows: &SeenRows, row: usize) -> u64
        requires shape { IsRows rows.now }
        requires there { row < length rows.now }
        requires placed { (uses : List (Option Use)) × (relaxed : ℕ → Bool) × HasCourse rows.now uses relaxed row self.now }
        ensures main { row ≡ 0 → result ≡ 0 }
        ensures child { 0 < row → result ≡ made_in self.now (parent_of rows.now row) (offset_of rows.now row) }
    {
        if row == 0 {
            return 0;
        }
        let parent = self.paces[rows.parent(row) as usize];
        let waits = &self.waits[parent.first..parent.end];
        made(parent.start, waits, rows.offset(row))
    }

    /// Places the next row. `AllocError` says that memory was refused.
    pub(crate) fn place_next(
        &mut self,
        rows: &SeenRows,
        row: usize,
        uses: &[Option<Use>],
        relaxed: &[bool],
    ) -> Result<(), AllocError>
        requires shape { IsRows rows.now }
        requires there { row < length rows.now }
        requires uses { AreUses rows.now uses.now }
        requires relaxed { length relaxed.now ≡ MOST_COWNS }
        requires placed { HasCourse rows.now uses.now (marked relaxed.now) row self.old }
        ensures { IfOk result (λ _. HasCourse rows.now uses.now (marked relaxed.now) (row + 1) self.new) }
    {
        let own = &uses[self.passed..];
        note_coming(
            rows,
            row,
            relaxed,
            own,
            &self.held,
            &self.wrote,
            &mut self.coming,
        )?;
        let spawned = self.spawned_at(rows, row);
        let start = start_of(&self.coming, spawned);
        let first = self.waits.len();
        push_waits(&self.coming, &mut self.waits)?;
        let waits = &self.waits[first..];
        let end = made(start, waits, rows.ticks(row));
        let last = leave(
            &self.coming,
            start,
            waits,
            end,
            &mut self.held,
            &mut self.wrote,
        );
        self.paces.push_reserved(Pace {
            start,
            first,
            end: self.waits.len(),
        });
        self.last = self.last.max(last);
        self.passed += self.coming.len();
        Ok(())
    }

    /// Returns when the last row and the last turn have ended.
    pub(crate) fn last(&self) -> u64
        ensures { result ≡ self.now.last }
    {
        self.last
    }
}
