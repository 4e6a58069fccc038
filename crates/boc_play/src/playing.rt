// A run whose rows are spawned in a given order.

ghost use Rattle.std.specs.Prelude.{◌≡◌, ◌+◌, [], ◌∷◌, ◌++◌, length, IfOk, OnOk};
ghost use Rattle.boc_program.specs.Programs.{cown_count};
ghost use Rattle.boc_fronts.specs.Orders.{IsWholeOrder};
ghost use Rattle.boc_play.specs.Playing.{AllRestBut, AreTablesOf, CanSpawnNext, GoesOn, HasSpawned, IsLonger, IsTried, SpawnsNone, SpawnsOne};
ghost use Rattle.boc_play.specs.Waiting.{AreThere, count_next, tables, with_row};
ghost use Rattle.boc_follow.specs.Takes.{MayCome};
ghost use Rattle.boc_runs.specs.Run.{config_of, member_cowns, IsRun, IsWholeRun};
ghost use Rattle.boc_runs.specs.declared.event.Event.TheVariants as events;
ghost use Rattle.boc_runs.specs.machine.AlongRows.{parents_of_rows};

use crate::waiting::NextRows;
use boc_follow::{Follower, TakeFault};
use boc_program::cowns::rising_cowns;
use boc_program::short::Cowns;
use boc_registers::compiled::CompiledProgram;
use boc_runs::event::Event;
use std::alloc::{AllocError, Global};

// Takes an event that may come.
fn put(run: &mut Follower<'_>, event: &Event) -> Result<(), AllocError>
    requires { MayCome run.old event.now }
    ensures { OnOk result (IsLonger run.old (event.now ∷ []) run.new) }
{
    match run.take(event) {
        Ok(()) => Ok(()),
        Err(TakeFault::NotAllowed) => unreachable!(),
        Err(TakeFault::Memory) => Err(AllocError),
    }
}

// Starts a row if it may start.
fn start(run: &mut Follower<'_>, row: u32) -> Result<(), AllocError>
    ensures { OnOk result (IsTried run.old (events.Start row) run.new) }
{
    match run.take(&Event::Start { row }) {
        Ok(()) => Ok(()),
        Err(TakeFault::NotAllowed) => Ok(()),
        Err(TakeFault::Memory) => Err(AllocError),
    }
}

// Ends a row if it runs and has no wish left. Returns whether it has ended now.
fn end(run: &mut Follower<'_>, row: u32) -> Result<bool, AllocError>
    requires { IsRun run.old.program run.old.log }
    ensures { IfOk result (λ ended. GoesOn run.old row ended run.new) }
{
    if let Some(_wish) = run.next_wish(row) {
        return Ok(false);
    }
    let Some(event) = run.end_of(row) else {
        return Ok(false);
    };
    put(run, &event)?;
    Ok(true)
}

// Starts a row if it may start, and ends it if it has no wish left. Where it has ended, the rows that come next after it are added to the others.
fn settle(
    run: &mut Follower<'_>,
    rows: &mut NextRows,
    row: u32,
    others: &mut Vec<u32>,
) -> Result<(), AllocError>
    requires tables { AreTablesOf run.old (tables rows.old) }
    requires rest { AllRestBut run.old (others.old.items ++ row ∷ []) }
    ensures tables { OnOk result (AreTablesOf run.new (tables rows.new)) }
    ensures rest { OnOk result (AllRestBut run.new others.new.items) }
    ensures spawns { OnOk result (SpawnsNone run.old run.new) }
    ensures left { OnOk result
        (count_next (tables rows.new) + length others.new.items ≡ count_next (tables rows.old) + length others.old.items) }
{
    start(run, row)?;
    if end(run, row)? {
        rows.release(row, others)?;
    }
    Ok(())
}

// Starts the rows that may start, and ends those that have no wish left. All but these rest.
fn settle_all(
    run: &mut Follower<'_>,
    rows: &mut NextRows,
    mut others: Vec<u32>,
) -> Result<(), AllocError>
    requires tables { AreTablesOf run.old (tables rows.old) }
    requires rest { AllRestBut run.old others.items }
    ensures tables { OnOk result (AreTablesOf run.new (tables rows.new)) }
    ensures rest { OnOk result (AllRestBut run.new []) }
    ensures spawns { OnOk result (SpawnsNone run.old run.new) }
{
    while let Some(row) = others.pop() {
        settle(run, rows, row, &mut others)?;
    }
    Ok(())
}

// Spawns the next row, the next wish of this parent, or main where no row is there.
fn spawn(run: &mut Follower<'_>, parent: u32) -> Result<(), AllocError>
    requires { CanSpawnNext run.old parent }
    ensures { OnOk result (HasSpawned run.old parent run.new) }
{
    let row = run.rows() as u32;
    let (offset, cowns) = match run.next_wish(parent) {
        Some(wish) => (wish.offset, rising_cowns(&wish.cowns)),
        None => (0, Cowns::new()),
    };
    let event = Event::Spawn {
        row,
        parent,
        offset,
        cowns,
    };
    put(run, &event)?;
    Ok(())
}

// Adds the row that was spawned last.
fn add_last(
    alloc: Global,
    run: &Follower<'_>,
    rows: &mut NextRows,
    row: u32,
) -> Result<(), AllocError>
    requires last { length (config_of run.now.program run.now.log).members ≡ row + 1 }
    requires run { IsRun run.now.program run.now.log }
    requires rows { length (tables rows.old).next ≡ row }
    requires cowns { length (tables rows.old).latest ≡ cown_count run.now.program.cowns }
    requires there { AreThere (tables rows.old) }
    ensures { OnOk result (tables rows.new
        ≡ with_row (tables rows.old) row (member_cowns (config_of run.now.program run.now.log).members row)) }
{
    let Some(instance) = run.instance(row) else {
        unreachable!()
    };
    rows.add(alloc, row, &instance.cowns)
}

// Returns these two rows.
fn both(alloc: Global, row: u32, other: u32) -> Result<Vec<u32>, AllocError>
    ensures { IfOk result (λ rows. rows.items ≡ row ∷ other ∷ []) }
{
    let mut rows = Vec::new(alloc);
    rows.push(row)?;
    rows.push(other)?;
    Ok(rows)
}

// Spawns the next row, and lets all rows go on as far as they may.
fn play_one(
    alloc: Global,
    run: &mut Follower<'_>,
    rows: &mut NextRows,
    parent: u32,
) -> Result<(), AllocError>
    requires can { CanSpawnNext run.old parent }
    requires tables { AreTablesOf run.old (tables rows.old) }
    requires rest { AllRestBut run.old [] }
    ensures tables { OnOk result (AreTablesOf run.new (tables rows.new)) }
    ensures rest { OnOk result (AllRestBut run.new []) }
    ensures spawns { OnOk result (SpawnsOne run.old parent run.new) }
{
    let row = run.rows() as u32;
    spawn(run, parent)?;
    add_last(alloc, run, rows, row)?;
    let others = both(alloc, parent, row)?;
    settle_all(run, rows, others)?;
    Ok(())
}

/// Returns a whole run of a program in which the rows are spawned in this order, each given by the number of its parent. Rows start as soon as they may, and
/// end as soon as they have spawned all. `AllocError` says that memory was refused.
pub fn play<'a>(
    alloc: Global,
    program: &'a CompiledProgram<'a>,
    parents: &[u32],
) -> Result<Follower<'a>, AllocError>
    requires { IsWholeOrder program.now parents.now }
    ensures program { IfOk result (λ run. run.program ≡ program.now) }
    ensures whole { IfOk result (λ run. IsWholeRun program.now run.log) }
    ensures parents { IfOk result (λ run. parents_of_rows run.log ≡ parents.now) }
{
    let mut run = Follower::new(alloc, program)?;
    let cowns = run.cowns() as usize;
    let mut rows = NextRows::new(alloc, cowns)?;
    for parent in parents {
        play_one(alloc, &mut run, &mut rows, *parent)?;
    }
    Ok(run)
}
