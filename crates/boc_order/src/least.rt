// A tick before which the behaviours of some rows don't end, in whatever order they get their cowns.

ghost use Rattle.std.specs.Prelude.{◌≡◌, ℕ, ◌<◌, ◌≤◌, ◌+◌, ◌^◌, All, List, Option, length, take, IfOk};
ghost use Rattle.boc_runs.specs.Rows.{IsRows};
ghost use Rattle.boc_order.specs.Least.{AreLoads, AreOf, IsLatest, IsLatestOf, IsLeast, IsSpawnPlan, start_or_0, tick_of, until_of};

use crate::plan::spawned_at;
use crate::starts::first_starts;
use boc_plans::sharing::SeenRows;
use boc_program::limits::MOST_COWNS;
use boc_program::short::HeldCown;
use std::alloc::{AllocError, Global};

/// A cown, and until when it is busy in every order. All times are ticks.
#[derive(Clone, Copy, PartialEq, Eq, Debug)]
pub struct Busiest {
    /// The number of the cown.
    pub cown: HeldCown,
    /// How long it is held by one row alone: the ticks of the rows that write it.
    pub load: u64,
    /// A tick before which none of these rows starts, in whatever order: the earliest start of one, where only the spawns order the rows. None where no
    /// row writes it.
    pub from: Option<u64>,
    /// The tick before which these rows are not all done, in whatever order: `load` after `from`.
    pub until: u64,
}

/// A lower bound for the end of the rows, in whatever order they get their cowns. All times are ticks.
#[derive(Clone, Copy, PartialEq, Eq, Debug)]
pub struct Least {
    /// The span that the rows would have if none had a cown.
    pub spawns: u64,
    /// The cown that is busy until the latest tick, and of several the one of the lowest number, where there is a cown at all.
    pub busiest: Option<Busiest>,
}

impl Least {
    /// Returns the tick before which the rows don't end: the later of the two.
    pub fn tick(&self) -> u64
        ensures { result ≡ tick_of self.now }
    {
        match self.busiest {
            Some(busiest) => busiest.until.max(self.spawns),
            None => self.spawns,
        }
    }
}

/// The earliest plan that some rows would have if none had a cown. All times are ticks.
#[derive(Drop, Debug)]
pub struct SpawnPlan {
    /// The start of each row.
    pub starts: Vec<u64>,
    /// The end of the plan.
    pub span: u64,
}

/// Returns the earliest plan that the rows would have if none had a cown: only their spawns order them. `AllocError` says that memory was refused.
pub fn spawn_plan(alloc: Global, rows: &SeenRows) -> Result<SpawnPlan, AllocError>
    requires { IsRows rows.now }
    ensures is { IfOk result (λ plan. IsSpawnPlan rows.now plan.starts.items plan.span) }
    ensures low { IfOk result (λ plan. All (λ start. start < 2 ^ 56) plan.starts.items) }
{
    let mut starts = Vec::with_capacity(alloc, rows.len())?;
    let mut latest = 0;
    for row in 0..rows.len() {
        let start = spawned_at(rows, row, &starts);
        starts.push_reserved(start);
        latest = (start + u64::from(rows.ticks(row))).max(latest);
    }
    Ok(SpawnPlan {
        starts,
        span: latest,
    })
}

// Adds the ticks of the next row to the load of each cown that it writes.
fn add_load(rows: &SeenRows, row: usize, loads: &mut [u64])
    requires shape { IsRows rows.now }
    requires there { row < length rows.now }
    requires loads { AreLoads (take row rows.now) loads.old }
    ensures { AreLoads (take (row + 1) rows.now) loads.new }
{
    let ticks = u64::from(rows.ticks(row));
    for own in rows.cowns(row) {
        if rows.writes(row, *own) {
            loads[*own as usize] += ticks;
        }
    }
}

/// Returns for each cown, at its number, the ticks of the rows that write it. `AllocError` says that memory was refused.
pub fn loads_of(alloc: Global, rows: &SeenRows) -> Result<Vec<u64>, AllocError>
    requires { IsRows rows.now }
    ensures { IfOk result (λ loads. AreLoads rows.now loads.items) }
{
    let mut loads = vec![in alloc; 0; MOST_COWNS]?;
    for row in 0..rows.len() {
        add_load(rows, row, &mut loads);
    }
    Ok(loads)
}

// Returns what the loads and the earliest starts have of a cown.
fn busy_of(loads: &[u64], firsts: &[Option<u64>], cown: usize) -> Busiest
    requires there { cown < MOST_COWNS }
    requires loads { length loads.now ≡ MOST_COWNS }
    requires firsts { length firsts.now ≡ MOST_COWNS }
    requires low { until_of loads.now firsts.now cown < 2 ^ 64 }
    ensures is { AreOf loads.now firsts.now result }
    ensures cown { result.cown ≡ cown }
{
    let load = loads[cown];
    let from = firsts[cown];
    Busiest {
        cown: cown as HeldCown,
        load,
        from,
        until: from.unwrap_or(0) + load,
    }
}

// Returns of the busiest cown so far and the next one the one that is busy until later, and of equal ones the first.
fn busier(best: Option<Busiest>, next: Busiest) -> Busiest
    ensures { (loads : List ℕ) (firsts : List (Option ℕ)) → IsLatestOf loads firsts next.cown best → AreOf loads firsts next
        → IsLatest loads firsts (next.cown + 1) result }
{
    match best {
        Some(best) => { if next.until <= best.until { best } else { next } }
        None => next,
    }
}

/// Returns the cown that is busy until the latest tick, of the first `count`, and of several the one with the lowest number. `loads` are the loads of the
/// cowns, and `firsts` the earliest starts of the rows that write them.
pub fn busiest_of(loads: &[u64], firsts: &[Option<u64>], count: usize) -> Option<Busiest>
    requires few { count ≤ MOST_COWNS }
    requires loads { length loads.now ≡ MOST_COWNS }
    requires firsts { length firsts.now ≡ MOST_COWNS }
    requires low { (cown : ℕ) → cown < MOST_COWNS → until_of loads.now firsts.now cown < 2 ^ 64 }
    ensures { IsLatestOf loads.now firsts.now count result }
{
    let mut best = None;
    for cown in 0..count {
        best = Some(busier(best, busy_of(loads, firsts, cown)));
    }
    best
}

/// Returns a lower bound for the end of the rows, in whatever order they get their cowns, of which the first `count` are looked at. It is by the spawns
/// alone, and by the cown that is busy until the latest tick. The rows that write that cown start no sooner than the first of them can, and hold it one at a
/// time. `AllocError` says that memory was refused.
///
/// Rows are as plans see them: where cowns are exclusive, a row writes each cown that it has. It takes time that grows with the number of rows and
/// their cowns, and memory that grows with the number of rows.
pub fn least_end(alloc: Global, rows: &SeenRows, count: usize) -> Result<Least, AllocError>
    requires shape { IsRows rows.now }
    requires few { count ≤ MOST_COWNS }
    ensures { IfOk result (IsLeast rows.now count) }
{
    let plan = spawn_plan(alloc, rows)?;
    let loads = loads_of(alloc, rows)?;
    let firsts = first_starts(alloc, rows, &plan.starts)?;
    let busiest = busiest_of(&loads, &firsts, count);
    Ok(Least {
        spawns: plan.span,
        busiest,
    })
}
