//! The gates that the tests of runs pass.

use boc_dispatch::Step;
use boc_workers::{Gate, Go};
use std::sync::{Mutex, Wait};
use std::thread;

// How often a gate looks before it stops a worker.
const LOOKS: u32 = 1_000_000;

/// Stops each worker that has made a Swap.
#[derive(Clone, Copy)]
pub(crate) struct StopsAtSwap;

impl Gate for StopsAtSwap {
    ghost always_on = { ⊥ };

    fn at_body(&self, _worker: u32, _row: u32) -> Go {
        Go::On
    }

    fn between_steps(&self, _worker: u32, _row: u32, step: Step) -> Go {
        match step {
            Step::Swap(_) => Go::Stop,
            _ => Go::On,
        }
    }
}

/// Stops the worker that comes second to a body.
#[derive(Drop)]
pub(crate) struct StopsAtSecondBody<'r, R> {
    rt: &'r R,
    // How many have reached a body.
    bodies: Mutex<u64>,
}

impl<'r, R: Wait> StopsAtSecondBody<'r, R> {
    pub(crate) fn new(rt: &'r R) -> StopsAtSecondBody<'r, R> {
        let bodies = Mutex::new(0);
        StopsAtSecondBody { rt, bodies }
    }
}

impl<'r, R: Wait + Sync> Gate for StopsAtSecondBody<'r, R> {
    ghost always_on = { ⊥ };

    fn at_body(&self, _worker: u32, _row: u32) -> Go {
        let mut bodies = self.bodies.lock(self.rt);
        *bodies = bodies.saturating_add(1);
        if *bodies == 2 { Go::Stop } else { Go::On }
    }

    fn between_steps(&self, _worker: u32, _row: u32, _step: Step) -> Go {
        Go::On
    }
}

/// Counts for each worker the steps after which it asked.
#[derive(Drop)]
pub(crate) struct Counting<'r, R> {
    rt: &'r R,
    steps: Mutex<[u64; 16]>,
}

impl<'r, R: Wait> Counting<'r, R> {
    pub(crate) fn new(rt: &'r R) -> Counting<'r, R> {
        let steps = Mutex::new([0; 16]);
        Counting { rt, steps }
    }

    /// Returns after how many steps each worker asked.
    pub(crate) fn counts(&self) -> [u64; 16] {
        *self.steps.lock(self.rt)
    }
}

impl<'r, R: Wait + Sync> Gate for Counting<'r, R> {
    ghost always_on = { ⊥ };

    fn at_body(&self, _worker: u32, _row: u32) -> Go {
        Go::On
    }

    fn between_steps(&self, worker: u32, _row: u32, _step: Step) -> Go {
        let mut steps = self.steps.lock(self.rt);
        if let Some(count) = steps.get_mut(worker as usize) {
            *count = count.saturating_add(1);
        }
        Go::On
    }
}

/// Which of two things a gate has seen.
#[derive(Clone, Copy, Default)]
struct Seen {
    first: bool,
    second: bool,
}

/// Where rows 1 and 2 are held until both of them have come there.
#[derive(Clone, Copy)]
pub(crate) enum Place {
    AtBody,
    AfterSwap,
}

/// Holds rows 1 and 2 at one place until both of them have come there.
#[derive(Drop)]
pub(crate) struct Meeting<'r, R> {
    rt: &'r R,
    place: Place,
    seen: Mutex<Seen>,
}

impl<'r, R: Wait> Meeting<'r, R> {
    pub(crate) fn new(rt: &'r R, place: Place) -> Meeting<'r, R> {
        let seen = Mutex::new(Seen::default());
        Meeting { rt, place, seen }
    }

    /// Returns whether both have come.
    pub(crate) fn both_came(&self) -> bool {
        let seen = *self.seen.lock(self.rt);
        seen.first && seen.second
    }

    // Holds the row until both have come.
    fn meet(&self, row: u32) -> Go {
        match row {
            1 => self.seen.lock(self.rt).first = true,
            2 => self.seen.lock(self.rt).second = true,
            _ => return Go::On,
        }
        for _ in 0..LOOKS {
            if self.both_came() {
                return Go::On;
            }
            thread::yield_now();
        }
        Go::Stop
    }
}

impl<'r, R: Wait + Sync> Gate for Meeting<'r, R> {
    ghost always_on = { ⊥ };

    fn at_body(&self, _worker: u32, row: u32) -> Go {
        match self.place {
            Place::AtBody => self.meet(row),
            Place::AfterSwap => Go::On,
        }
    }

    fn between_steps(&self, _worker: u32, row: u32, step: Step) -> Go {
        match (self.place, step) {
            (Place::AfterSwap, Step::Swap(_)) => self.meet(row),
            _ => Go::On,
        }
    }
}

/// Holds row 2 before its body until row 1 has made a Swap, and row 1 after its first Swap until row 2 has made an Own.
#[derive(Drop)]
pub(crate) struct Overtaking<'r, R> {
    rt: &'r R,
    // The first is a Swap of row 1, the second an Own of row 2.
    seen: Mutex<Seen>,
}

impl<'r, R: Wait> Overtaking<'r, R> {
    pub(crate) fn new(rt: &'r R) -> Overtaking<'r, R> {
        let seen = Mutex::new(Seen::default());
        Overtaking { rt, seen }
    }

    // Looks until the one or the other was seen.
    fn wait(&self, for_first: bool) -> Go {
        for _ in 0..LOOKS {
            let seen = *self.seen.lock(self.rt);
            if for_first && seen.first || !for_first && seen.second {
                return Go::On;
            }
            thread::yield_now();
        }
        Go::Stop
    }
}

impl<'r, R: Wait + Sync> Gate for Overtaking<'r, R> {
    ghost always_on = { ⊥ };

    fn at_body(&self, _worker: u32, row: u32) -> Go {
        if row == 2 { self.wait(true) } else { Go::On }
    }

    fn between_steps(&self, _worker: u32, row: u32, step: Step) -> Go {
        match (row, step) {
            (1, Step::Swap(request)) => {
                self.seen.lock(self.rt).first = true;
                if request == 0 {
                    self.wait(false)
                } else {
                    Go::On
                }
            }
            (2, Step::Own) => {
                self.seen.lock(self.rt).second = true;
                Go::On
            }
            _ => Go::On,
        }
    }
}
