// What has become of a row of a run under way.

ghost use Rattle.std.specs.Prelude.{◌≡◌, ◌↔◌, IsTrue, Some};
ghost use Rattle.boc_runs.specs.Lives.{Pending, Running, MayStart};
ghost use Rattle.boc_runs.specs.Legal.{life_of, entry_cowns};

use boc_program::body::EndStatus;
use boc_program::limits::MOST_TICKS;
use boc_program::short::Cowns;
use boc_rules::Judge;
use boc_runs::event::Event;

/// Returns whether a row runs: whether it could end after as many ticks as a row may take. The time is constant.
pub fn is_running(run: &Judge, row: u32) -> bool
    ensures { IsTrue result ↔ (life_of run.now.rows row ≡ Some Running) }
{
    // For its contract: the rows are those of a legal log.
    let _cowns = run.cowns();
    let end = Event::End {
        row,
        ticks: MOST_TICKS,
        status: EndStatus::Done,
        written: Cowns::new(),
    };
    run.judge(&end).is_ok()
}

/// Returns whether a row is spawned and hasn't started. The time is constant.
pub fn is_pending(run: &Judge, row: u32) -> bool
    ensures { IsTrue result ↔ (life_of run.now.rows row ≡ Some Pending) }
{
    let _cowns = run.cowns();
    match run.rows().get(row as usize) {
        Some(told) => told.ticks == 0 && !is_running(run, row),
        None => false,
    }
}

/// Returns whether a row could start: whether it is pending, and no row that runs or was spawned before it and is pending has one of its cowns. The time goes
/// with the number of its cowns.
pub fn could_start(run: &Judge, row: u32) -> bool
    ensures { IsTrue result ↔ MayStart (life_of run.now.rows) (entry_cowns run.now.rows) row }
{
    run.judge(&Event::Start { row }).is_ok()
}
