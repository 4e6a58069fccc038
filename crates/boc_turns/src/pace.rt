// The pace of a row: when it has made each number of its ticks.

ghost use Rattle.std.specs.Prelude.{◌≡◌, ◌<◌, ◌≤◌, ◌*◌, ◌^◌};
ghost use Rattle.boc_program.specs.declared.limits.TheConstants.{MOST_ROWS, MOST_TICKS};
ghost use Rattle.boc_turns.specs.Pace.{made_by, over_by, IsLow};
ghost use Rattle.boc_turns.specs.Turns.{IsWithin};

use boc_uses::Use;

/// A body waits with a tick until a cown comes: from that tick on it is as if the row had started this late, or later.
#[derive(Clone, Copy)]
pub(crate) struct Wait {
    /// The tick with which the body waits.
    pub(crate) first: u32,
    /// The start that is allowed from then on.
    pub(crate) late: u64,
}

/// When a row starts, and where its waits are among those of all rows.
#[derive(Clone, Copy)]
pub(crate) struct Pace {
    /// The tick at which the row starts.
    pub(crate) start: u64,
    /// The place of its first wait.
    pub(crate) first: usize,
    /// The place after its last wait.
    pub(crate) end: usize,
}

/// Returns when a row has made this many of its ticks, if it starts then and waits so.
pub(crate) fn made(start: u64, waits: &[Wait], ticks: u32) -> u64
    requires { made_by start waits.now ticks < 2 ^ 64 }
    ensures { result ≡ made_by start waits.now ticks }
{
    let mut from = start;
    for wait in waits {
        if wait.first <= ticks {
            from = from.max(wait.late);
        }
    }
    from + u64::from(ticks)
}

/// Returns when a row's turn at a cown ends, if the row starts then and waits so, and the turns before it have ended at `came`.
pub(crate) fn turn_over(turn: &Use, start: u64, waits: &[Wait], came: u64) -> u64
    requires low { IsLow start waits.now }
    requires came { came ≤ MOST_ROWS * MOST_TICKS }
    requires turn { IsWithin MOST_TICKS turn.now }
    ensures { result ≡ over_by start waits.now came turn.now }
{
    if turn.needed {
        made(start, waits, turn.last)
    } else {
        let begun = came.max(made(start, waits, turn.first) - 1);
        begun + u64::from(turn.last + 1 - turn.first)
    }
}
