// The clocks of workers, and which of those that can move comes first.

ghost use Rattle.std.specs.Prelude.{◌≡◌, ◌<◌, ◌≤◌, ◌+◌, ℕ, length};
ghost use Rattle.std.specs.List.{All};
ghost use Rattle.boc_program.specs.declared.limits.TheConstants.{MOST_RUNNERS};
ghost use Rattle.boc_clock.specs.declared.clocks.TheConstants.{MOST_STEPS};
ghost use Rattle.boc_clock.specs.Clocks.{AreWithin, IsDueFirst, first_clocks, moved_on, rank, time_of};

use boc_program::limits::MOST_RUNNERS;

/// The most steps that clocks are for.
pub const MOST_STEPS: u64 = 1 << 24;

/// The clocks of up to [`MOST_RUNNERS`] workers, by their numbers.
#[derive(Drop, Debug)]
pub struct Clocks {
    /// The time of the step before: the present time.
    present: u64,
    /// When each worker started the row that it serves.
    since: [u64; MOST_RUNNERS],
    /// The time of the call of each worker; of one that is idle, nothing.
    due: [Option<u64>; MOST_RUNNERS],
}

impl Clocks {
    /// Returns the clocks before the first step: the present time is 0, and all workers are idle.
    pub fn new() -> Clocks
        ensures first { result ≡ first_clocks }
        ensures within { (steps : ℕ) → AreWithin result steps }
    {
        Clocks {
            present: 0,
            since: [0; MOST_RUNNERS],
            due: [None; MOST_RUNNERS],
        }
    }

    /// Returns the time of a worker's next step: that of its call, or the present time if it is idle.
    pub fn time_of(&self, worker: u32) -> u64
        requires { worker < MOST_RUNNERS }
        ensures { result ≡ time_of self.now worker }
    {
        match self.due[worker as usize] {
            Some(due) => due,
            None => self.present,
        }
    }

    /// Returns the place of the worker whose next step has the earliest time, among these. Of two with the same time a busy one comes before an idle one, and
    /// else the one at the smaller place.
    pub fn first(&self, steps: u64, movers: &[u32]) -> usize
        requires some { 0 < length movers.now }
        requires workers { All (λ w. w < MOST_RUNNERS) movers.now }
        requires within { AreWithin self.now steps }
        requires few { steps < MOST_STEPS }
        ensures { IsDueFirst self.now movers.now result }
    {
        let mut best = 0;
        for place in 1..movers.len() {
            if self.rank(steps, movers[place]) < self.rank(steps, movers[best]) {
                best = place;
            }
        }
        best
    }

    // Returns twice the time of a worker's next step, and one more where it is idle.
    fn rank(&self, steps: u64, worker: u32) -> u64
        requires worker { worker < MOST_RUNNERS }
        requires within { AreWithin self.now steps }
        requires few { steps < MOST_STEPS }
        ensures { result ≡ rank self.now worker }
    {
        match self.due[worker as usize] {
            Some(due) => 2 * due,
            None => 2 * self.present + 1,
        }
    }

    /// Moves the clocks on over the next step of a worker, which serves a row then or doesn't. If a call of that row begins, its time is that of the row's start
    /// and the ticks of the call.
    pub fn move_on(&mut self, steps: u64, worker: u32, serves: bool, call: Option<u32>)
        requires worker { worker < MOST_RUNNERS }
        requires within { AreWithin self.old steps }
        requires few { steps < MOST_STEPS }
        ensures clocks { self.new ≡ moved_on self.old worker serves call }
        ensures within { AreWithin self.new (steps + 1) }
    {
        let place = worker as usize;
        let time = self.time_of(worker);
        if self.due[place].is_none() {
            self.since[place] = time;
        }
        self.present = time;
        if !serves {
            self.due[place] = None;
        } else if let Some(ticks) = call {
            self.due[place] = Some(self.since[place] + u64::from(ticks));
        }
    }
}
