// How far a run by threads is.

use crate::meter::Meter;
use boc_dispatch::Step;
use boc_progress::Progress;
use boc_workers::{Gate, Go};
use std::sync::atomic::{AtomicU64, Ordering};
use std::sync::{Mutex, Wait};

// Progress is reported once in this many rows.
const STRETCH: u64 = 64;

/// Counts the rows of one run by threads, and has a meter show how many have ended of those that were spawned. It lets every worker go on. If the meter never
/// writes, nothing is counted.
#[derive(Drop)]
pub struct Watch<'r, R> {
    rt: &'r R,
    is_shown: bool,
    spawned: AtomicU64,
    ended: AtomicU64,
    meter: Mutex<Meter>,
}

impl<'r, R: Wait> Watch<'r, R> {
    /// Watches a run that has not begun, in which main alone is spawned.
    pub fn new(rt: &'r R, meter: Meter) -> Watch<'r, R> {
        Watch {
            rt,
            is_shown: meter.is_shown(),
            spawned: AtomicU64::new(1),
            ended: AtomicU64::new(0),
            meter: Mutex::new(meter),
        }
    }

    /// Wipes the meter's line, if one is shown.
    pub fn wipe(&self) {
        if self.is_shown {
            self.meter.lock(self.rt).wipe();
        }
    }

    // Counts what a step did. It stays out of its callers, which look at one flag if nothing is shown. The row that ends last has the line wiped. Others have
    // it written, unless another thread does so at that time.
    #[inline(never)]
    fn count(&self, step: Step) {
        match step {
            Step::Open => {
                self.spawned.fetch_add(1, Ordering::SeqCst);
            }
            Step::Finish => {
                let ended = self.ended.fetch_add(1, Ordering::SeqCst).wrapping_add(1);
                if ended == self.spawned.load(Ordering::SeqCst) {
                    self.tell(&mut self.meter.lock(self.rt));
                } else if ended % STRETCH == 0
                    && let Some(mut meter) = self.meter.try_lock()
                {
                    self.tell(&mut meter);
                }
            }
            _ => {}
        }
    }

    // Passes on how many have ended by now. Since the meter is locked, the last such call has all of them.
    fn tell(&self, meter: &mut Meter) {
        let ended = self.ended.load(Ordering::SeqCst);
        let spawned = self.spawned.load(Ordering::SeqCst);
        meter.done(ended as usize, spawned as usize);
    }
}

impl<'r, R: Wait + Sync> Gate for Watch<'r, R> {
    ghost always_on = { Unit {0} };

    // It lets every worker go on.
    fn may_wait(&self) -> bool {
        false
    }

    #[inline(always)]
    fn at_body(&self, _worker: u32, _row: u32) -> Go {
        Go::On
    }

    #[inline(always)]
    fn between_steps(&self, _worker: u32, _row: u32, step: Step) -> Go {
        if self.is_shown {
            self.count(step);
        }
        Go::On
    }
}
