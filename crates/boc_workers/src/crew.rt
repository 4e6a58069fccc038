// The threads of a run.

ghost use Rattle.std.specs.Prelude.{◌≡◌, ◌≢◌, ◌<◌, ◌≤◌, IfOk, IfErr, sum, vec_len};
ghost use Rattle.boc_program.specs.declared.limits.TheConstants.{MOST_RUNNERS};
ghost use Rattle.boc_runs.specs.Records.{IsRecordOf};
ghost use Rattle.boc_runs.specs.Run.{config_of};
ghost use Rattle.boc_runs.specs.machine.AlongRows.{EndsSerially, cowns_of_rows, steps_of_rows};
ghost use Rattle.boc_workers.specs.Noting.{CanReachLimit, MayNote};
ghost use Rattle.boc_eval.specs.Instances.{AreRight};
ghost use Rattle.boc_workers.specs.declared.fault.RunFault.TheVariants as faults;

use crate::fault::RunFault;
use crate::gate::{Gate, Go};
use crate::made::Made;
use crate::pace::Pace;
use crate::shared::Shared;
use crate::waiters::{Call, Waiters};
use boc_dispatch::{Step, Tell, Turn, Worker};
use boc_eval::ToldRow;
use boc_program::program::Program;
use boc_registers::compiled::CompiledProgram;
use boc_runs::record::Record;
use std::alloc::Global;
use std::hint::spin_loop;
use std::marker::Brand;
use std::sync::atomic::{AtomicU64, Ordering};
use std::sync::ledger::{Blank, Ledger, Share};
use std::sync::{Condvar, Mutex, MutexGuard, Wait};
use std::thread;
use std::thread::{Builder, Scope, Threads, available_parallelism, yield_now};
use std::time::Duration;

/// The record of a run, what is reported of its rows, and how many steps each worker made.
#[derive(Drop)]
pub struct RunAnswer {
    pub record: Record,
    /// What rows are, in the order in which they ended. A clause says that each of them is what is reported of it; no clause says which rows are reported.
    pub told: Vec<ToldRow>,
    /// The steps of each worker at the place of its number, by which the gate is asked. Clauses say how many workers there
    /// are, and what their steps add up to; nothing else says which of them made which step.
    pub made: Vec<u64>,
}

// The bytes of a worker's stack.
const STACK: usize = 2 << 20;

// How many pauses there are before each further try for the lock, before a worker yields between its tries.
const TRIES: [u32; 8] = [16, 32, 64, 128, 256, 256, 256, 256];

// How long a worker looks for what it waits for before it sleeps, in pauses.
const LOOKS: u32 = 500;

// A wait for the lock is long from this try on.
const LONG: usize = 3;

// For how many microseconds a worker withdraws at a time, and how many steps the others make in that time if they don't miss it.
const AWAY: u64 = 500;

const STEPS_AWAY: u64 = 1000;

// After this many seconds a worker that sleeps looks again whether it was called. The worker that calls it also wakes it.
const LONGEST_SLEEP: u64 = 60;

/// Runs a program on the given number of workers, each in a thread of its own. There is no record after a fault. Of several faults the
/// one that was noted first is answered; but that the program is a stranger comes before it, and that the run is
/// unfinished after it. `tell` says which rows are reported.
pub fn run<R: Threads + Wait + Sync, G: Gate>(
    rt: &R,
    alloc: Global,
    program: &Program,
    workers: u32,
    tell: Tell,
    gate: &G,
) -> Result<RunAnswer, RunFault>
    requires { (1 ≤ workers) × (workers ≤ MOST_RUNNERS) }
    ensures record { IfOk result (λ a. IsRecordOf program.now a.record) }
    ensures ends { IfOk result (λ a. EndsSerially program.now a.record.events) }
    ensures told { IfOk result (λ a. AreRight (config_of program.now a.record.events).members a.told.items) }
    ensures workers { IfOk result (λ a. vec_len a.made ≡ workers) }
    ensures steps { IfOk result (λ a. sum a.made.items ≡ steps_of_rows (cowns_of_rows a.record.events)) }
    ensures held { IfErr result (λ e. G.always_on → e ≢ faults.Held) }
    ensures behaviours { IfErr result (λ e. e ≡ faults.Behaviours → CanReachLimit program.now) }
{
    let blank = Blank::new(u64::from(workers));
    run_by::<Brand, G, R>(rt, alloc, blank, program, workers, tell, gate, STACK)
}

// Runs as `run` does, for the ledger of this blank, and with stacks of the given number of bytes.
pub(crate) fn run_by<L: Ledger + Send + Sync, G: Gate, R: Threads + Wait + Sync>(
    rt: &R,
    alloc: Global,
    blank: Blank,
    program: &Program,
    workers: u32,
    tell: Tell,
    gate: &G,
    stack: usize,
) -> Result<RunAnswer, RunFault>
    requires workers { (1 ≤ workers) × (workers ≤ MOST_RUNNERS) }
    requires name { blank.name ≡ L.name }
    requires parts { (blank.parts ≡ L.parts) × (blank.parts ≡ workers) }
    ensures record { IfOk result (λ a. IsRecordOf program.now a.record) }
    ensures ends { IfOk result (λ a. EndsSerially program.now a.record.events) }
    ensures told { IfOk result (λ a. AreRight (config_of program.now a.record.events).members a.told.items) }
    ensures workers { IfOk result (λ a. vec_len a.made ≡ workers) }
    ensures steps { IfOk result (λ a. sum a.made.items ≡ steps_of_rows (cowns_of_rows a.record.events)) }
    ensures held { IfErr result (λ e. G.always_on → e ≢ faults.Held) }
    ensures behaviours { IfErr result (λ e. e ≡ faults.Behaviours → CanReachLimit program.now) }
{
    let (book, rest) = blank.open::<L>();
    let Ok(compiled) = CompiledProgram::new(alloc, program) else {
        return Err(RunFault::Memory);
    };
    let Ok(shared) = Shared::new(alloc, &compiled, book, tell) else {
        return Err(RunFault::Memory);
    };
    let spare = spare_of(rt, gate, workers);
    let hall = Hall {
        rt,
        alloc,
        lock: Mutex::new(shared),
        waiters: Waiters::new(spare, most_asleep(gate, workers)),
        awake: u64::from(workers) - spare,
        freed: Condvar::new(),
        seen: Condvar::new(),
        ready: Condvar::new(),
        gate,
        stack,
    };
    let crew = staffed(&hall, rest, workers);
    let Hall {
        rt: _,
        alloc: _,
        lock,
        waiters: _,
        awake: _,
        freed: _,
        seen: _,
        ready: _,
        gate: _,
        stack: _,
    } = hall;
    lock.into_inner().close(program, crew)
}

// What the threads of a run share.
struct Hall<'a, 'g, 'r, L: Ledger, G: Gate, R> {
    rt: &'r R,
    alloc: Global,
    lock: Mutex<Shared<'a, 'g, L, G>>,
    waiters: Waiters,
    // The workers with a number below this one begin at once, the others once they are called.
    awake: u64,
    // Rings where a request was settled or flagged, for those who are blocked.
    freed: Condvar,
    // Rings where a row is ready, for those who look for one.
    seen: Condvar,
    // Rings where a row is ready, for one who sleeps.
    ready: Condvar,
    gate: &'g G,
    // The bytes of each thread's stack.
    stack: usize,
}

// Returns how many workers are left asleep. More than there are processors only hold each other up, unless a gate may have one wait for another.
fn spare_of<R: Threads, G: Gate>(rt: &R, gate: &G, workers: u32) -> u64
    requires { 1 ≤ workers }
    ensures { result < workers }
{
    if gate.may_wait() {
        return 0;
    }
    match available_parallelism(rt) {
        Ok(processors) => u64::from(workers).saturating_sub(processors.get() as u64),
        Err(_) => 0,
    }
}

// Returns the number that sleep at most if a worker withdraws: none if a gate may have one wait for another, and else all others.
fn most_asleep<G: Gate>(gate: &G, workers: u32) -> u64
    requires { 1 ≤ workers }
    ensures { result < workers }
{
    if gate.may_wait() {
        0
    } else {
        u64::from(workers) - 1
    }
}

// Returns what the workers made, with the whole ledger, once all of them have ended.
fn staffed<L: Ledger + Send + Sync, G: Gate, R: Threads + Wait + Sync>(
    hall: &Hall<'_, '_, '_, L, G, R>,
    rest: Share<L>,
    workers: u32,
) -> Result<(Vec<u64>, Share<L>), RunFault>
    requires { (rest.parts ≡ workers) × (rest.amount ≡ 0) }
    ensures ok { IfOk result (λ r. (r.1.parts ≡ workers) × (r.1.amount ≡ sum r.0.items) × (vec_len r.0 ≡ workers)) }
    ensures err { IfErr result (λ e. (e ≢ faults.Held) × (e ≢ faults.Behaviours)) }
{
    thread::scope(
        thread::scope_env(),
        hall.rt,
        move |scope| -> Result<(Vec<u64>, Share<L>), RunFault>
            requires { (rest.parts ≡ workers) × (rest.amount ≡ 0) }
            ensures ok { IfOk result (λ r. (r.1.parts ≡ workers) × (r.1.amount ≡ sum r.0.items) × (vec_len r.0 ≡ workers)) }
            ensures err { IfErr result (λ e. (e ≢ faults.Held) × (e ≢ faults.Behaviours)) }
        { employ(scope, hall, rest, workers) },
    )
}

// Starts the workers, waits for their end, and gives what each of them made, with the whole ledger. Where a thread can't be
// started, those that were are ended.
fn employ<'s, E, L: Ledger + Send + Sync, G: Gate, R: Threads + Wait + Sync>(
    scope: &'s Scope<'s, E>,
    hall: &'s Hall<'_, '_, '_, L, G, R>,
    rest: Share<L>,
    workers: u32,
) -> Result<(Vec<u64>, Share<L>), RunFault>
    requires { (rest.parts ≡ workers) × (rest.amount ≡ 0) }
    ensures ok { IfOk result (λ r. (r.1.parts ≡ workers) × (r.1.amount ≡ sum r.0.items) × (vec_len r.0 ≡ workers)) }
    ensures err { IfErr result (λ e. (e ≢ faults.Held) × (e ≢ faults.Behaviours)) }
{
    let mut rest = rest;
    let Ok(mut threads) = Vec::with_capacity(hall.alloc, workers as usize) else {
        return Err(RunFault::Memory);
    };
    let Ok(mut made) = Vec::with_capacity(hall.alloc, workers as usize) else {
        return Err(RunFault::Memory);
    };
    for number in 0..workers {
        let mine = Made::new(rest.split_off(1, 0));
        let builder = Builder::new().stack_size(hall.stack);
        let Ok(thread) = builder.spawn_scoped(scope, move || hall.work(number, mine)) else {
            hall.stop(RunFault::NoThread);
            break;
        };
        let Ok(()) = threads.push(thread) else {
            unreachable!()
        };
    }
    for thread in threads {
        let (count, share) = thread.join(hall.rt).into_parts();
        rest.merge(share);
        let Ok(()) = made.push(count) else {
            unreachable!()
        };
    }
    if made.len() < workers as usize {
        return Err(RunFault::NoThread);
    }
    Ok((made, rest))
}

impl<'a, 'g, 'r, L: Ledger, G: Gate, R: Wait> Hall<'a, 'g, 'r, L, G, R> {
    // Does the work of one worker, until the run is quiet or a fault is noted.
    fn work(&self, number: u32, made: Made<L>) -> Made<L> {
        let mut made = made;
        let mut worker = Worker::new(number);
        let mut pace = Pace::new();
        let mut has_looked = false;
        self.begin(number);
        for _ in self.rt.forever() {
            if worker.think(self.alloc).is_err() {
                self.stop(RunFault::Memory);
                break;
            }
            let served = worker.row();
            match self.turn(&mut worker, &mut made, &mut pace, &mut has_looked) {
                None | Some(Turn::Quiet) => break,
                Some(Turn::Moved(step)) => {
                    let row = served.or(worker.row()).unwrap_or(0);
                    if self.passed(number, row, step) == Go::Stop {
                        self.stop(RunFault::Held);
                        break;
                    }
                }
                Some(_) => {}
            }
        }
        made
    }

    // Has a worker sleep until it is called, if it is one of those that begin asleep.
    fn begin(&self, number: u32) {
        if u64::from(number) >= self.awake {
            drop(self.until_called(self.enter()));
        }
    }

    // Makes the next turn of a worker. Where that waits for others, the worker waits too, and the turn is to be made again.
    #[inline(always)]
    fn turn(
        &self,
        worker: &mut Worker<'a>,
        made: &mut Made<L>,
        pace: &mut Pace,
        has_looked: &mut bool,
    ) -> Option<Turn> {
        let mut shared = match self.lock.try_lock() {
            Some(shared) => shared,
            None => self.enter_at_pace(worker, pace),
        };
        let turn = shared.turn(worker, made);
        match turn {
            Some(Turn::Blocked) => {
                self.wait(shared, true, has_looked);
                return turn;
            }
            Some(Turn::NoneReady) => {
                self.wait(shared, false, has_looked);
                return turn;
            }
            _ => {}
        }
        *has_looked = false;
        let call = self.waiters.call_after(&shared, turn);
        drop(shared);
        if call != Call::Nobody {
            self.call(call);
        }
        turn
    }

    // Frees the lock, and waits for a row to be ready or, if the worker is blocked, for a request: it looks for it at first, and sleeps once it has looked.
    #[inline(never)]
    fn wait<'s>(
        &'s self,
        shared: MutexGuard<'s, Shared<'a, 'g, L, G>>,
        is_blocked: bool,
        has_looked: &mut bool,
    ) {
        let waiters = &self.waiters;
        drop(match (is_blocked, *has_looked) {
            (true, false) => self.look(shared, &waiters.blocked, &self.freed),
            (true, true) => self.sleep(shared),
            (false, false) => self.look(shared, &waiters.looking, &self.seen),
            (false, true) => self.rest(shared),
        });
        *has_looked = !*has_looked;
    }

    // Takes the lock.
    #[inline(always)]
    fn enter(&self) -> MutexGuard<'_, Shared<'a, 'g, L, G>> {
        if let Some(shared) = self.lock.try_lock() {
            return shared;
        }
        let mut pace = Pace::new();
        self.enter_later(&mut pace)
    }

    // Takes the lock, which another worker has. It is tried at growing distances, and no worker sleeps for it: one that unlocks it has none to wake.
    #[inline(never)]
    fn enter_later(&self, pace: &mut Pace) -> MutexGuard<'_, Shared<'a, 'g, L, G>> {
        for tries in 0..TRIES.len() {
            for _ in 0..TRIES[tries] {
                spin_loop();
            }
            if let Some(shared) = self.lock.try_lock() {
                if tries >= LONG {
                    pace.count();
                }
                return shared;
            }
        }
        pace.count();
        for _ in self.rt.forever() {
            yield_now();
            if let Some(shared) = self.lock.try_lock() {
                return shared;
            }
        }
        unreachable!()
    }

    // Takes the lock, which another worker has, for a turn. A worker without a row that has waited long too often first withdraws.
    #[inline(never)]
    fn enter_at_pace(
        &self,
        worker: &Worker<'a>,
        pace: &mut Pace,
    ) -> MutexGuard<'_, Shared<'a, 'g, L, G>> {
        let shared = self.enter_later(pace);
        if pace.is_slow() && worker.row().is_none() && self.waiters.may_withdraw() {
            self.withdraw(shared, pace)
        } else {
            shared
        }
    }

    // Has a worker sleep while the others make many steps without it, or leave no row ready.
    fn withdraw<'s>(
        &'s self,
        shared: MutexGuard<'s, Shared<'a, 'g, L, G>>,
        pace: &mut Pace,
    ) -> MutexGuard<'s, Shared<'a, 'g, L, G>> {
        let mut shared = shared;
        self.waiters.withdraw();
        for _ in self.rt.forever() {
            let before = shared.steps();
            shared = self.doze(shared, &self.ready, Duration::from_micros(AWAY));
            let steps = shared.steps().saturating_sub(before);
            let is_missed = shared.has_ready() && steps < STEPS_AWAY;
            if self.waiters.may_return(is_missed) {
                pace.begin_again(is_missed);
                break;
            }
        }
        shared
    }

    // Looks for a while, with the lock free, whether this bell rings.
    fn look<'s>(
        &'s self,
        shared: MutexGuard<'s, Shared<'a, 'g, L, G>>,
        count: &AtomicU64,
        bell: &Condvar,
    ) -> MutexGuard<'s, Shared<'a, 'g, L, G>> {
        count.fetch_add(1, Ordering::SeqCst);
        let rung = bell.notifications();
        drop(shared);
        for _ in 0..LOOKS {
            if bell.notifications() != rung {
                break;
            }
            spin_loop();
        }
        let shared = self.enter();
        count.fetch_sub(1, Ordering::SeqCst);
        shared
    }

    // Sleeps until a request was settled or flagged.
    fn sleep<'s>(
        &'s self,
        shared: MutexGuard<'s, Shared<'a, 'g, L, G>>,
    ) -> MutexGuard<'s, Shared<'a, 'g, L, G>> {
        let blocked = &self.waiters.blocked;
        blocked.fetch_add(1, Ordering::SeqCst);
        let shared = self.doze(shared, &self.freed, Duration::from_secs(LONGEST_SLEEP));
        blocked.fetch_sub(1, Ordering::SeqCst);
        shared
    }

    // Counts a worker as asleep, and has it sleep until it is called.
    fn rest<'s>(
        &'s self,
        shared: MutexGuard<'s, Shared<'a, 'g, L, G>>,
    ) -> MutexGuard<'s, Shared<'a, 'g, L, G>> {
        self.waiters.begin_sleep();
        self.until_called(shared)
    }

    // Sleeps until it is called since a row is ready, or since the run has ended.
    fn until_called<'s>(
        &'s self,
        shared: MutexGuard<'s, Shared<'a, 'g, L, G>>,
    ) -> MutexGuard<'s, Shared<'a, 'g, L, G>> {
        let mut shared = shared;
        for _ in self.rt.forever() {
            if self.waiters.may_wake() {
                break;
            }
            shared = self.doze(shared, &self.ready, Duration::from_secs(LONGEST_SLEEP));
        }
        shared
    }

    // Frees the lock, sleeps until this bell rings, and takes the lock again. It may return though the bell did not ring, and does after this time.
    fn doze<'s>(
        &'s self,
        shared: MutexGuard<'s, Shared<'a, 'g, L, G>>,
        bell: &Condvar,
        longest: Duration,
    ) -> MutexGuard<'s, Shared<'a, 'g, L, G>> {
        let rung = bell.notifications();
        drop(shared);
        bell.sleep(self.rt, rung, longest);
        self.enter()
    }

    // Calls those who wait and may go on.
    #[inline(never)]
    fn call(&self, call: Call) {
        match call {
            Call::Nobody => {}
            Call::Blocked => self.freed.notify_all(),
            Call::Lookers => self.seen.notify_all(),
            Call::Sleeper => self.ready.notify_one(),
            Call::Everybody => {
                self.freed.notify_all();
                self.seen.notify_all();
                self.ready.notify_all();
            }
        }
    }

    // Returns what the gate says to a worker that made this step.
    fn passed(&self, worker: u32, row: u32, step: Step) -> Go
        ensures { G.always_on → result ≡ Go.On }
    {
        match self.gate.between_steps(worker, row, step) {
            Go::On if step == Step::Start => self.gate.at_body(worker, row),
            go => go,
        }
    }

    // Notes a fault, and wakes those that wait.
    fn stop(&self, fault: RunFault)
        requires { MayNote G.always_on fault }
    {
        let mut shared = self.enter();
        shared.note(fault);
        let call = self.waiters.end();
        drop(shared);
        self.call(call);
    }
}
