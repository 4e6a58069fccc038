// How far a command is, told on standard error if that is a terminal.

use boc_progress::Progress;
use std::io::IsTerminal;
use std::time::{Duration, Instant};

// How many milliseconds pass before a line is written: what ends sooner shows none.
const DELAY: u64 = 500;

// After how many milliseconds the line is written again.
const PAUSE: u64 = 100;

// Goes back to the beginning of the line, and wipes it.
const WIPE: &str = "\r\x1b[K";

// The first call with a number of rows, cowns or runs.
#[derive(Clone, Copy)]
struct Begun {
    // When it came, counted from when the meter was made.
    at: Duration,
    done: usize,
    of: usize,
}

/// Shows in one line on a terminal how many rows, cowns, runs or steps are done, of how many, and how long the rest may take. It writes nothing if standard
/// error is no terminal.
#[derive(Drop)]
pub struct Meter {
    rt: HostRuntime,
    // When it was made; none if standard error is no terminal, or the clock can't be read.
    made: Option<Instant>,
    // The first call with as many rows, cowns or runs as the last one had.
    begun: Option<Begun>,
    // When the line may be written next, counted from when the meter was made.
    due: Duration,
    // Whether a line is shown.
    is_written: bool,
}

impl Meter {
    /// Makes a meter of the work that begins now.
    pub fn new(rt: HostRuntime) -> Meter {
        let made = if rt.stderr().is_terminal() {
            Instant::now(&rt).ok()
        } else {
            None
        };
        Meter {
            rt,
            made,
            begun: None,
            due: Duration::from_millis(DELAY),
            is_written: false,
        }
    }

    /// Returns whether it ever writes a line.
    pub fn is_shown(&self) -> bool {
        self.made.is_some()
    }

    /// Wipes the line, if one is shown.
    pub fn wipe(&mut self) {
        let rt = self.rt;
        if self.is_written {
            self.is_written = false;
            let _ = eprint!(rt; "{WIPE}");
        }
    }

    // Writes the line again, given the time `passed` since the meter was made.
    fn write(&mut self, passed: Duration, begun: Begun, done: usize) {
        let rt = self.rt;
        let Begun { at, of, .. } = begun;
        let since = done.saturating_sub(begun.done);
        self.is_written = true;
        self.due = passed.saturating_add(Duration::from_millis(PAUSE));
        let _ = match seconds_left(passed.saturating_sub(at), since, of.saturating_sub(done)) {
            _ if of == 0 => eprint!(rt; "{WIPE}{done} done"),
            Some(left) => eprint!(rt; "{WIPE}{done} of {of} done, {left} s left"),
            None => eprint!(rt; "{WIPE}{done} of {of} done"),
        };
    }
}

impl Progress for Meter {
    fn done(&mut self, done: usize, of: usize) {
        let rt = self.rt;
        let Some(made) = self.made else {
            return;
        };
        if done == of {
            self.begun = None;
            self.wipe();
        } else if let Ok(passed) = made.elapsed(&rt) {
            let begun = match self.begun {
                Some(begun) if begun.of == of => begun,
                _ => Begun {
                    at: passed,
                    done,
                    of,
                },
            };
            self.begun = Some(begun);
            if self.due <= passed {
                self.write(passed, begun, done);
            }
        }
    }
}

// Returns how many seconds those that are left may take, rounded up, given that `done` of them took `passed`.
fn seconds_left(passed: Duration, done: usize, left: usize) -> Option<u128> {
    let millis = passed.as_millis().saturating_mul(left as u128);
    Some(millis.checked_div(done as u128)?.div_ceil(1000))
}
