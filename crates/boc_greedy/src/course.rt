// Greedy plans of which the first part is made once, for rows of which one takes other ticks.

ghost use Rattle.std.specs.Prelude.{◌≡◌, ℕ, ◌+◌, ◌^◌, ◌<◌, ◌≤◌, length, slice_index, IfOk, OnOk, IsTrue};
ghost use Rattle.std.specs.BinaryHeap.{heap_items};
ghost use Rattle.boc_program.specs.declared.limits.TheConstants.{MOST_ROWS};
ghost use Rattle.boc_runs.specs.Rows.{IsRows, Fits, edited, ticks_of};
ghost use Rattle.boc_plans.specs.Plans.{start_of};
ghost use Rattle.boc_plans.specs.Sweeps.{IsGreedyEnd};
ghost use Rattle.boc_order.specs.Waits.{AreWaits};
ghost use Rattle.boc_greedy.specs.declared.frontier.RowState.TheVariants.{UnderWay};
ghost use Rattle.boc_greedy.specs.Consequences.{AreConsequences};
ghost use Rattle.boc_greedy.specs.Courses.{IsCourse, IsCopy, HoldsChanges};
ghost use Rattle.boc_greedy.specs.Families.{AreTimed, AreNext, children_of, times_of};
ghost use Rattle.boc_greedy.specs.RowStates.{IsAt};
ghost use Rattle.boc_greedy.specs.Stepping.{IsSettled};

use crate::children::{Change, next_changes};
use crate::consequences::Consequences;
use crate::entry::{greedy_end, latest_end};
use crate::frontier::{Frontier, RowState};
use crate::simulation::Simulation;
use crate::timed::TimedRows;
use boc_order::Links;
use boc_plans::sharing::SeenRows;
use boc_program::count::Workers;
use boc_program::limits::MOST_WORKERS;
use std::alloc::{AllocError, Global};
use std::cmp::Reverse;
use std::collections::BinaryHeap;

/// A greedy plan under way: a simulation of the rows as they are, at some tick at which all rows that can have started.
#[derive(Drop)]
pub struct Course<'a> {
    simulation: Simulation<'a>,
}

/// Returns the greedy plan of the rows for the given number of workers, as far as it is made before a tick, and at the first tick in any case.
/// `AllocError` says that memory was refused.
///
/// It goes as far as the last tick at which something changes before that one. `end_from` takes the less time the further
/// this is, up to where its row would be over. `Course::go_on` takes it further.
pub fn course_to<'a>(
    alloc: Global,
    rows: &SeenRows,
    waits: &Links,
    consequences: &'a Consequences,
    workers: Workers,
    tick: u64,
) -> Result<Course<'a>, AllocError>
    requires shape { IsRows rows.now }
    requires waits { AreWaits rows.now waits.now }
    requires consequences { AreConsequences rows.now waits.now consequences.now }
    ensures { IfOk result (λ course. IsCourse rows.now workers course) }
{
    let timed = TimedRows::all(rows);
    let frontier = Frontier::new(alloc, &timed, waits, &consequences.followers)?;
    let mut simulation = Simulation::new(
        alloc,
        &timed,
        frontier,
        &consequences.family,
        workers.number(),
    )?;
    simulation.give_all(&timed)?;
    simulation.go_to(&timed, tick)?;
    Ok(Course { simulation })
}

impl Course<'_> {
    /// Goes on with the plan, as far as it is made before a tick. A course that has come so far stays where it is.
    /// `AllocError` says that memory was refused.
    pub fn go_on(&mut self, rows: &SeenRows, tick: u64) -> Result<(), AllocError>
        requires shape { IsRows rows.now }
        requires course { (p : ℕ) × IsCourse rows.now p self.old }
        ensures { OnOk result ((p : ℕ) → IsCourse rows.now p self.old → IsCourse rows.now p self.new) }
    {
        self.simulation.go_to(&TimedRows::all(rows), tick)
    }

    /// Returns the same course once more, which goes on by itself. `AllocError` says that memory was refused.
    pub fn copied(&self, alloc: Global, rows: &SeenRows) -> Result<Course<'_>, AllocError>
        requires shape { IsRows rows.now }
        requires course { (p : ℕ) × IsCourse rows.now p self.now }
        ensures { IfOk result (λ course. (p : ℕ) → IsCourse rows.now p self.now → IsCourse rows.now p course) }
    {
        let simulation = &self.simulation;
        let queue = queue_of(
            alloc,
            &simulation.frontier.states,
            &simulation.starts,
            &simulation.first,
        )?;
        let first = Vec::from_slice(alloc, &simulation.first)?;
        let copy = with_changes(alloc, simulation, first, simulation.next, queue)?;
        Ok(Course { simulation: copy })
    }
}

// Returns whether a row that would take these ticks is not over yet.
fn is_ahead(simulation: &Simulation<'_>, row: u32, ticks: u32) -> bool
    requires { row < length simulation.now.starts.items }
    ensures { IsTrue result → simulation.now.tick < start_of simulation.now.starts.items row + ticks }
{
    let start = simulation.starts[row as usize];
    simulation.tick.saturating_sub(start) < u64::from(ticks)
}

// Returns the first changes that are left, where a row takes other ticks: it ends after these, unless it spawns a child before.
fn first_changes(
    alloc: Global,
    first: &[Change],
    rows: &SeenRows,
    changed: &SeenRows,
    row: u32,
    ticks: u32,
) -> Result<Vec<Change>, AllocError>
    requires whole { length first.now ≡ length rows.now }
    requires timed { AreTimed rows.now (children_of first.now) (times_of first.now) }
    requires fits { Fits rows.now row ticks }
    requires changed { changed.now ≡ edited rows.now row ticks }
    ensures children { IfOk result (λ list. (a : ℕ) → slice_index (children_of list.items) a ≡ slice_index (children_of first.now) a) }
    ensures whole { IfOk result (λ list. length list.items ≡ length first.now) }
    ensures timed { IfOk result (λ list. AreTimed changed.now (children_of list.items) (times_of list.items)) }
{
    let mut list = Vec::from_slice(alloc, first)?;
    let child = list[row as usize].child;
    if child as usize >= changed.len() {
        list[row as usize] = Change {
            child,
            after: ticks,
        };
    }
    Ok(list)
}

// Returns the queue of the rows that are under way, by the tick of the first change that is left for each.
fn queue_of(
    alloc: Global,
    states: &[RowState],
    starts: &[u64],
    first: &[Change],
) -> Result<BinaryHeap<Reverse<(u64, u32)>>, AllocError>
    requires starts { length starts.now ≡ length states.now }
    requires first { length first.now ≡ length states.now }
    requires few { length states.now ≤ MOST_ROWS }
    requires low { (r : ℕ) → IsAt states.now r UnderWay → start_of starts.now r + slice_index (times_of first.now) r < 2 ^ 64 }
    ensures { IfOk result (λ queue. HoldsChanges (length states.now) states.now starts.now (times_of first.now) (heap_items queue)) }
{
    let mut queue = BinaryHeap::with_capacity(alloc, MOST_WORKERS as usize)?;
    for row in 0..states.len() {
        if states[row] == RowState::UnderWay {
            let tick = starts[row] + u64::from(first[row].after);
            queue.push(Reverse((tick, row as u32)))?;
        }
    }
    Ok(queue)
}

// Returns the same simulation once more, except its changes and its queue, which are these.
fn with_changes<'a>(
    alloc: Global,
    simulation: &'a Simulation<'_>,
    first: Vec<Change>,
    next: &'a [Change],
    queue: BinaryHeap<Reverse<(u64, u32)>>,
) -> Result<Simulation<'a>, AllocError>
    ensures copy { IfOk result (IsCopy simulation.now) }
    ensures first { IfOk result (λ s. s.first.items ≡ first.items) }
    ensures next { IfOk result (λ s. s.next.now ≡ next.now) }
    ensures queue { IfOk result (λ s. heap_items s.queue ≡ heap_items queue) }
{
    let starts = Vec::from_slice(alloc, &simulation.starts)?;
    let workers = Vec::from_slice(alloc, &simulation.workers)?;
    let frontier = simulation.frontier.copied(alloc)?;
    Ok(Simulation {
        p: simulation.p,
        starts,
        workers,
        frontier,
        first,
        next,
        queue,
        idle: simulation.idle,
        tick: simulation.tick,
        moments: simulation.moments,
    })
}

// Returns the same simulation once more, of rows of which one takes other ticks and is not over yet.
fn forked<'a>(
    alloc: Global,
    simulation: &'a Simulation<'_>,
    rows: &SeenRows,
    changed: &SeenRows,
    next: &'a [Change],
    row: u32,
    ticks: u32,
) -> Result<Simulation<'a>, AllocError>
    requires shape { IsRows rows.now }
    requires settled { IsSettled rows.now simulation.now }
    requires fits { Fits rows.now row ticks }
    requires less { ticks ≤ ticks_of rows.now row }
    requires changed { changed.now ≡ edited rows.now row ticks }
    requires next { AreNext changed.now (children_of next.now) (times_of next.now) }
    requires ahead { simulation.now.tick < start_of simulation.now.starts.items row + ticks }
    ensures workers { IfOk result (λ s. s.p ≡ simulation.now.p) }
    ensures settled { IfOk result (λ s. IsSettled changed.now s) }
{
    let first = first_changes(alloc, &simulation.first, rows, changed, row, ticks)?;
    let queue = queue_of(
        alloc,
        &simulation.frontier.states,
        &simulation.starts,
        &first,
    )?;
    let copy = with_changes(alloc, simulation, first, next, queue)?;
    Ok(copy)
}

/// Returns the tick at which the greedy plan ends if one row takes other ticks, no more than its own. `AllocError` says that memory was
/// refused.
///
/// It goes on from a copy of the course, since nothing differs up to there. Where the row would be over by then, it begins again.
pub fn end_from(
    alloc: Global,
    course: &Course<'_>,
    rows: &SeenRows,
    changed: &SeenRows,
    waits: &Links,
    consequences: &Consequences,
    workers: Workers,
    row: u32,
    ticks: u32,
) -> Result<u64, AllocError>
    requires shape { IsRows rows.now }
    requires waits { AreWaits rows.now waits.now }
    requires consequences { AreConsequences rows.now waits.now consequences.now }
    requires course { IsCourse rows.now workers course.now }
    requires fits { Fits rows.now row ticks }
    requires less { ticks ≤ ticks_of rows.now row }
    requires changed { changed.now ≡ edited rows.now row ticks }
    ensures { IfOk result (λ end. IsGreedyEnd changed.now workers end) }
{
    let simulation = &course.simulation;
    if !is_ahead(simulation, row, ticks) {
        return greedy_end(alloc, changed, waits, &consequences.followers, workers);
    }
    let next = next_changes(alloc, &consequences.family, rows, changed, row, ticks)?;
    let mut fork = forked(alloc, simulation, rows, changed, &next, row, ticks)?;
    let timed = TimedRows::all(changed);
    fork.finish(&timed)?;
    Ok(latest_end(&timed, &fork.starts))
}
