// A plan on workers, which pictures show with the earliest one.

use boc_bars::Bar;
use boc_busy::TimedRows;
use boc_greedy::Greedy;

// What a plan on workers is.
#[derive(Clone, Copy, PartialEq, Eq, Debug)]
enum Kind {
    Greedy,
    Timed,
}

/// A plan on workers that a picture shows: the greedy plan, or the schedule of a timed run. All times are ticks.
#[derive(Clone, Copy, Debug)]
pub struct WorkerPlan<'a> {
    kind: Kind,
    starts: &'a [u64],
    ends: &'a [u64],
    workers: &'a [u32],
    /// How many workers there are.
    pub(crate) p: u32,
    /// When the last row ends.
    pub(crate) ends_at: u64,
    /// By when it has ended at the latest.
    pub(crate) bound: u64,
}

impl<'a> WorkerPlan<'a> {
    /// Returns the greedy plan as pictures show it.
    pub fn greedy(plan: &'a Greedy) -> WorkerPlan<'a> {
        WorkerPlan {
            kind: Kind::Greedy,
            starts: &plan.starts,
            ends: &plan.ends,
            workers: &plan.workers,
            p: plan.p,
            ends_at: plan.ends_at,
            bound: plan.bound,
        }
    }

    /// Returns the schedule of a timed run as pictures show it.
    pub fn timed(rows: &'a TimedRows) -> WorkerPlan<'a> {
        WorkerPlan {
            kind: Kind::Timed,
            starts: &rows.starts,
            ends: &rows.ends,
            workers: &rows.workers,
            p: rows.p,
            ends_at: rows.ends_at,
            bound: rows.bound,
        }
    }

    /// Returns whether it is the schedule of a timed run.
    pub(crate) fn is_timed(self) -> bool {
        self.kind == Kind::Timed
    }

    /// Returns what it is called.
    pub(crate) fn name(self) -> &'static str {
        match self.kind {
            Kind::Greedy => "the greedy plan",
            Kind::Timed => "the timed run",
        }
    }

    /// Returns the heading that it has.
    pub(crate) fn title(self) -> &'static str {
        match self.kind {
            Kind::Greedy => "The greedy plan",
            Kind::Timed => "The timed run",
        }
    }

    /// Returns what its end is called.
    pub(crate) fn end_name(self) -> &'static str {
        match self.kind {
            Kind::Greedy => "the end of the greedy plan",
            Kind::Timed => "the end of the timed run",
        }
    }

    /// Returns the words between its name and its number of workers.
    pub(crate) fn joint(self) -> &'static str {
        match self.kind {
            Kind::Greedy => "for",
            Kind::Timed => "on",
        }
    }

    /// Returns the bar of a row in the lane of its worker.
    pub(crate) fn bar(self, row: u32) -> Option<Bar> {
        let at = row as usize;
        Some(Bar {
            row,
            start: *self.starts.get(at)?,
            end: *self.ends.get(at)?,
            lane: *self.workers.get(at)?,
        })
    }
}
