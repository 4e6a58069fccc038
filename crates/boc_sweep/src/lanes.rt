// Several ticks side by side, one in each lane: what is found for each of several cowns in one pass over the rows.

ghost use Rattle.std.specs.Prelude.{◌≡◌, ℕ, ◌+◌, ◌<◌, ◌^◌, max, slice_index};

// How many lanes there are.
pub(crate) const LANES: usize = 4;

// A tick in each lane.
pub(crate) type Ticks = [u64; LANES];

// Returns in each lane the later one of two ticks.
pub(crate) fn later(ticks: &Ticks, others: &Ticks) -> Ticks
    ensures { (lane : ℕ) → lane < LANES → slice_index result lane ≡ max (slice_index ticks.now lane) (slice_index others.now lane) }
{
    let mut latest = [0; LANES];
    for lane in 0..LANES {
        latest[lane] = ticks[lane].max(others[lane]);
    }
    latest
}

// Returns in each lane the tick that is this many later.
pub(crate) fn moved_on(ticks: &Ticks, more: u32) -> Ticks
    requires { (lane : ℕ) → lane < LANES → slice_index ticks.now lane + more < 2 ^ 64 }
    ensures { (lane : ℕ) → lane < LANES → slice_index result lane ≡ slice_index ticks.now lane + more }
{
    let mut behind = [0; LANES];
    for lane in 0..LANES {
        behind[lane] = ticks[lane] + u64::from(more);
    }
    behind
}
