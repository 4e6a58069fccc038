// Which workers wait, and which of them a step may let go on. Clauses say which are called for which counts; that the counts are right, and that who is
// called comes, no clause says.

ghost use Rattle.std.specs.Prelude.{◌≡◌, ◌<◌, ◌≤◌, true, false};
ghost use Rattle.boc_workers.specs.Calling.{MayFollow};

use crate::gate::Gate;
use crate::shared::Shared;
use boc_dispatch::{Step, Turn};
use std::sync::atomic::{AtomicBool, AtomicU64, Ordering};
use std::sync::ledger::Ledger;

/// Who is called after a turn.
#[derive(Clone, Copy, PartialEq, Eq, Debug)]
pub(crate) enum Call {
    Nobody,
    /// All who are blocked.
    Blocked,
    /// Those who look for a row.
    Lookers,
    /// One who sleeps until a row is ready.
    Sleeper,
    /// All that wait, since the run has ended.
    Everybody,
}

/// How many workers wait in each way. The counts change and are read under the lock alone.
#[derive(Drop)]
pub(crate) struct Waiters {
    /// Until a request before their own is flagged, or one after it is settled.
    pub blocked: AtomicU64,
    /// Until a row is ready, and look for it.
    pub looking: AtomicU64,
    // Until a row is ready, and sleep. Those that were called aren't counted.
    sleeping: AtomicU64,
    // How many calls of one sleeper no sleeper has answered yet.
    called: AtomicU64,
    // How many are left asleep though a row is ready: those that have no processor, and those that have withdrawn.
    spare: AtomicU64,
    // Whether the run has ended, so that no worker sleeps any more.
    has_ended: AtomicBool,
    // A worker withdraws only while fewer than this many sleep.
    most_asleep: u64,
}

impl Waiters {
    /// Returns the waiters of a run that begins. `spare` workers begin asleep, and as many are left asleep. A worker withdraws only while fewer than
    /// `most_asleep` sleep.
    pub(crate) fn new(spare: u64, most_asleep: u64) -> Waiters
        ensures { result.most_asleep ≡ most_asleep }
    {
        Waiters {
            blocked: AtomicU64::new(0),
            looking: AtomicU64::new(0),
            sleeping: AtomicU64::new(spare),
            called: AtomicU64::new(0),
            spare: AtomicU64::new(spare),
            has_ended: AtomicBool::new(false),
            most_asleep,
        }
    }

    /// Counts a worker that begins to sleep until a row is ready.
    pub(crate) fn begin_sleep(&self) {
        self.sleeping.fetch_add(1, Ordering::SeqCst);
    }

    /// Returns whether a sleeper wakes up: if the run has ended, or if a sleeper was called. That call is answered then.
    pub(crate) fn may_wake(&self) -> bool {
        if self.has_ended.load(Ordering::SeqCst) {
            return true;
        }
        let is_called = self.called.load(Ordering::SeqCst) > 0;
        if is_called {
            self.called.fetch_sub(1, Ordering::SeqCst);
        }
        is_called
    }

    /// Returns whether a worker without a row may withdraw: while the run goes on, and another worker is awake.
    pub(crate) fn may_withdraw(&self) -> bool
        ensures { self.now.most_asleep ≡ 0 → result ≡ false }
    {
        self.sleeping.load(Ordering::SeqCst) < self.most_asleep
            && !self.has_ended.load(Ordering::SeqCst)
    }

    /// Counts a worker that withdraws: it sleeps, and one more is left asleep.
    pub(crate) fn withdraw(&self) {
        self.spare.fetch_add(1, Ordering::SeqCst);
        self.begin_sleep();
    }

    /// Returns whether a worker that has withdrawn returns: if it wakes up as other sleepers do, or is missed.
    pub(crate) fn may_return(&self, is_missed: bool) -> bool
        ensures { is_missed ≡ true → result ≡ true }
    {
        let may_wake = self.may_wake();
        if !may_wake && !is_missed {
            return false;
        }
        if !may_wake {
            self.sleeping.fetch_sub(1, Ordering::SeqCst);
        }
        self.spare.fetch_sub(1, Ordering::SeqCst);
        true
    }

    /// Notes that the run has ended, and returns that everybody is called.
    pub(crate) fn end(&self) -> Call
        ensures { result ≡ Call.Everybody }
    {
        self.has_ended.store(true, Ordering::SeqCst);
        Call::Everybody
    }

    /// Returns which workers are called after a turn. A flag lets the request after it settle, and a settle lets the one before leave. Rows
    /// become ready by Own and by Pass; where one is left at a Start, a further worker can start it. A worker that finds that the
    /// run has ended calls all others.
    pub(crate) fn call_after<L: Ledger, G: Gate>(
        &self,
        shared: &Shared<'_, '_, L, G>,
        turn: Option<Turn>,
    ) -> Call
        ensures { MayFollow turn shared.now.dispatcher.state.ready result }
    {
        match turn {
            Some(Turn::Moved(Step::Settle(_) | Step::Flag(_))) => {
                call_for_requests(self.blocked.load(Ordering::SeqCst))
            }
            Some(Turn::Moved(Step::Own | Step::Pass(_) | Step::Start)) => {
                let call = call_for_row(
                    shared.has_ready(),
                    self.looking.load(Ordering::SeqCst),
                    self.sleeping.load(Ordering::SeqCst),
                    self.spare.load(Ordering::SeqCst),
                );
                self.count(call);
                call
            }
            Some(Turn::Moved(_)) => Call::Nobody,
            _ => self.end(),
        }
    }

    // Counts a sleeper as called from now on, if this call is for one.
    fn count(&self, call: Call) {
        if call == Call::Sleeper {
            self.sleeping.fetch_sub(1, Ordering::SeqCst);
            self.called.fetch_add(1, Ordering::SeqCst);
        }
    }
}

// Returns which workers are called where a request was settled or flagged, and `blocked` are blocked.
fn call_for_requests(blocked: u64) -> Call
    ensures some { 0 < blocked → result ≡ Call.Blocked }
    ensures none { blocked ≡ 0 → result ≡ Call.Nobody }
{
    if blocked > 0 {
        Call::Blocked
    } else {
        Call::Nobody
    }
}

// Returns which workers are called for the first of the ready rows, where `looking` look for one, and `sleeping` sleep, of which `spare` are left asleep. A
// worker that looks for a row comes by itself.
fn call_for_row(has_ready: bool, looking: u64, sleeping: u64, spare: u64) -> Call
    ensures not_ready { has_ready ≡ false → result ≡ Call.Nobody }
    ensures lookers { has_ready ≡ true → 0 < looking → result ≡ Call.Lookers }
    ensures sleeper { has_ready ≡ true → looking ≡ 0 → spare < sleeping → result ≡ Call.Sleeper }
    ensures none { has_ready ≡ true → looking ≡ 0 → sleeping ≤ spare → result ≡ Call.Nobody }
{
    if !has_ready {
        Call::Nobody
    } else if looking > 0 {
        Call::Lookers
    } else if sleeping > spare {
        Call::Sleeper
    } else {
        Call::Nobody
    }
}
