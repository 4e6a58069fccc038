// How far cowns have come among the rows, as rows start.

ghost use Rattle.std.specs.Prelude.{◌≡◌, ◌↔◌, ℕ, ◌^◌, ◌<◌, ◌≤◌, IsTrue, Some, length, IfOk, IfSome, IfNone};
ghost use Rattle.std.specs.List.{Contains};
ghost use Rattle.boc_program.specs.declared.limits.TheConstants.{MOST_TICKS};
ghost use Rattle.boc_runs.specs.Rows.{IsRows, cowns_of};
ghost use Rattle.boc_plans.specs.Plans.{start_of};
ghost use Rattle.boc_greedy.specs.Simulating.{later};
ghost use Rattle.boc_uses.specs.declared.uses.Use.{Use};
ghost use Rattle.boc_turns.specs.Turns.{IsWithin, use_of};
ghost use Rattle.boc_used_greedy.specs.Holds.{HasHolds};
ghost use Rattle.boc_used_greedy.specs.Ready.{came_by, over_from, left_after};
ghost use Rattle.boc_used_greedy.specs.Users.{AreUsers};
ghost use Rattle.boc_used_greedy.specs.Fronts.{AreFronts, AreRowsOf, AreTold, Blocks, Has, HasCome, IsFront, IsLowPlan, Notes, Stops, left_of};

use crate::holds::Holds;
use crate::users::Users;
use boc_plans::sharing::SeenRows;
use boc_program::limits::MOST_COWNS;
use boc_program::short::HeldCown;
use boc_uses::Use;
use std::alloc::{AllocError, Global};

/// A tick after every tick of a plan, at which rows are that haven't started.
pub(crate) const LATER: u64 = u64::MAX;

/// How far a cown has come among the rows that have it.
#[derive(Clone, Copy)]
pub(crate) struct Front {
    /// The first row that has the cown, holds it, and hasn't started.
    pub(crate) at: u32,
    /// The first row that has it and to which it isn't known when it comes.
    pub(crate) told: u32,
    /// When all rows before the first one have left it.
    pub(crate) held: u64,
    /// When those of them that wrote it have.
    pub(crate) wrote: u64,
}

// Returns when a turn is over that the row begins with this tick or later, and before which the cown comes then.
fn over_from(turn: &Use, start: u64, came: u64) -> u64
    requires turn { IsWithin MOST_TICKS turn.now }
    requires start { start < 2 ^ 62 }
    requires came { came < 2 ^ 62 }
    ensures { result ≡ over_from turn.now start came }
{
    let from = start + u64::from(turn.first) - 1;
    came.max(from) + u64::from(turn.last + 1 - turn.first)
}

impl Front {
    /// Returns when the row at the front gets the cown, or a row after it that gets it together with that one.
    pub(crate) fn came(&self, writes: bool) -> u64
        ensures { result ≡ came_by writes (left_of self.now) }
    {
        if writes { self.held } else { self.wrote }
    }

    // Returns the front after a row that started then.
    fn after(&self, turn: &Use, writes: bool, start: u64, at: u32) -> Front
        requires turn { IsWithin MOST_TICKS turn.now }
        requires start { start < 2 ^ 62 }
        requires held { self.now.held < 2 ^ 62 }
        requires wrote { self.now.wrote < 2 ^ 62 }
        ensures at { result.at ≡ at }
        ensures told { result.told ≡ self.now.told }
        ensures left { left_of result ≡ left_after (Some turn.now) writes start (left_of self.now) }
    {
        let over = over_from(turn, start, self.came(writes));
        Front {
            at,
            told: self.told,
            held: self.held.max(over),
            wrote: if writes {
                self.wrote.max(over)
            } else {
                self.wrote
            },
        }
    }

    // Returns the front after its row, where that has started, or doesn't hold the cown.
    fn step(
        &self,
        rows: &SeenRows,
        holds: &Holds,
        users: &Users,
        starts: &[u64],
        cown: HeldCown,
    ) -> Option<Front>
        requires shape { IsRows rows.now }
        requires holds { HasHolds rows.now holds.now }
        requires users { AreUsers rows.now users.now }
        requires whole { length starts.now ≡ length rows.now }
        requires low { IsLowPlan rows.now starts.now }
        requires come { HasCome rows.now holds.now.all.items starts.now cown self.now }
        ensures come { IfSome result (HasCome rows.now holds.now.all.items starts.now cown) }
        ensures told { IfSome result (λ front. front.told ≡ self.now.told) }
        ensures further { IfSome result (λ front. self.now.at < front.at) }
        ensures stops { IfNone result (self.now.at < length rows.now → Stops rows.now holds.now.all.items starts.now cown self.now.at) }
    {
        let row = self.at as usize;
        if row >= rows.len() {
            return None;
        }
        let next = users.after(rows, holds, row, cown);
        match holds.of(rows, row, cown) {
            None => Some(Front {
                at: next,
                told: self.told,
                held: self.held,
                wrote: self.wrote,
            }),
            Some(turn) => {
                if starts[row] == LATER {
                    None
                } else {
                    Some(self.after(&turn, rows.writes(row, cown), starts[row], next))
                }
            }
        }
    }

    /// Returns the front after all rows that have started.
    pub(crate) fn passed(
        &self,
        rows: &SeenRows,
        holds: &Holds,
        users: &Users,
        starts: &[u64],
        cown: HeldCown,
    ) -> Front
        requires shape { IsRows rows.now }
        requires holds { HasHolds rows.now holds.now }
        requires users { AreUsers rows.now users.now }
        requires whole { length starts.now ≡ length rows.now }
        requires low { IsLowPlan rows.now starts.now }
        requires come { HasCome rows.now holds.now.all.items starts.now cown self.now }
        ensures come { HasCome rows.now holds.now.all.items starts.now cown result }
        ensures told { result.told ≡ self.now.told }
        ensures further { self.now.at ≤ result.at }
        ensures stops { result.at < length rows.now → Stops rows.now holds.now.all.items starts.now cown result.at }
    {
        let mut front = *self;
        while let Some(next) = front.step(rows, holds, users, starts, cown) {
            front = next;
        }
        front
    }
}

// Returns whether no row after this one knows when the cown comes before this one has started and the turns before it have ended.
fn blocks(rows: &SeenRows, holds: &Holds, row: usize, cown: HeldCown) -> bool
    requires shape { IsRows rows.now }
    requires holds { HasHolds rows.now holds.now }
    requires there { row < length rows.now }
    requires own { Contains (cowns_of rows.now row) cown }
    ensures { IsTrue result ↔ Blocks rows.now holds.now.all.items cown row }
{
    match holds.of(rows, row, cown) {
        None => false,
        Some(_) => rows.writes(row, cown),
    }
}

/// Notes the rows to which it is newly known when a cown comes, and returns the first one to which it isn't.
pub(crate) fn tell(
    rows: &SeenRows,
    holds: &Holds,
    users: &Users,
    cown: HeldCown,
    front: &Front,
    list: &mut Vec<u32>,
) -> Result<u32, AllocError>
    requires shape { IsRows rows.now }
    requires holds { HasHolds rows.now holds.now }
    requires users { AreUsers rows.now users.now }
    requires at { front.now.at ≤ length rows.now }
    requires user { front.now.at < length rows.now → Contains (cowns_of rows.now front.now.at) cown }
    requires told { front.now.at < front.now.told → AreTold rows.now holds.now.all.items cown front.now.at front.now.told }
    requires rows { AreRowsOf rows.now list.old.items }
    ensures told { IfOk result (AreTold rows.now holds.now.all.items cown front.now.at) }
    ensures notes { IfOk result (λ told. (b : ℕ) → front.now.told ≤ b → front.now.at ≤ b → b < told
        → Contains (cowns_of rows.now b) cown → Contains list.new.items b) }
    ensures has { IfOk result (λ _. Has list.new.items list.old.items) }
    ensures rows { IfOk result (λ _. AreRowsOf rows.now list.new.items) }
{
    let at = front.at as usize;
    if at >= rows.len() {
        return Ok(front.at);
    }
    if front.at < front.told {
        return Ok(front.told);
    }
    list.push(front.at)?;
    let mut next = users.after(rows, holds, at, cown);
    if blocks(rows, holds, at, cown) {
        return Ok(next);
    }
    while (next as usize) < rows.len() && !blocks(rows, holds, next as usize, cown) {
        list.push(next)?;
        next = users.after(rows, holds, next as usize, cown);
    }
    Ok(next)
}

/// Takes a cown on, as far as it has come, and notes the rows to which it is newly known when it comes.
pub(crate) fn go_on(
    rows: &SeenRows,
    holds: &Holds,
    users: &Users,
    starts: &[u64],
    cown: HeldCown,
    front: &Front,
    list: &mut Vec<u32>,
) -> Result<Front, AllocError>
    requires shape { IsRows rows.now }
    requires holds { HasHolds rows.now holds.now }
    requires users { AreUsers rows.now users.now }
    requires whole { length starts.now ≡ length rows.now }
    requires low { IsLowPlan rows.now starts.now }
    requires come { HasCome rows.now holds.now.all.items starts.now cown front.now }
    requires told { front.now.at < front.now.told → AreTold rows.now holds.now.all.items cown front.now.at front.now.told }
    requires rows { AreRowsOf rows.now list.old.items }
    ensures front { IfOk result (IsFront rows.now holds.now.all.items starts.now cown) }
    ensures notes { IfOk result (λ new. Notes rows.now holds.now.all.items starts.now cown front.now.told new.told list.new.items) }
    ensures has { IfOk result (λ _. Has list.new.items list.old.items) }
    ensures rows { IfOk result (λ _. AreRowsOf rows.now list.new.items) }
{
    let passed = front.passed(rows, holds, users, starts, cown);
    let told = tell(rows, holds, users, cown, &passed, list)?;
    Ok(Front {
        at: passed.at,
        told,
        held: passed.held,
        wrote: passed.wrote,
    })
}

/// Returns the fronts of all cowns before any row has started.
pub(crate) fn first_fronts(
    alloc: Global,
    rows: &SeenRows,
    holds: &Holds,
    users: &Users,
    starts: &[u64],
) -> Result<Vec<Front>, AllocError>
    requires shape { IsRows rows.now }
    requires holds { HasHolds rows.now holds.now }
    requires users { AreUsers rows.now users.now }
    requires whole { length starts.now ≡ length rows.now }
    requires none { (r : ℕ) → r < length rows.now → start_of starts.now r ≡ later }
    ensures { IfOk result (λ fronts. AreFronts rows.now holds.now.all.items starts.now fronts.items) }
{
    let mut list = Vec::new(alloc);
    let mut fronts = Vec::with_capacity(alloc, MOST_COWNS)?;
    for cown in 0..MOST_COWNS {
        let front = Front {
            at: users.first[cown],
            told: 0,
            held: 0,
            wrote: 0,
        };
        fronts.push_reserved(go_on(
            rows,
            holds,
            users,
            starts,
            cown as HeldCown,
            &front,
            &mut list,
        )?);
    }
    Ok(fronts)
}
