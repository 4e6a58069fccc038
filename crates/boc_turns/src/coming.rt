// The cowns of a row: when it gets each, how it holds it, and when it leaves it.

ghost use Rattle.std.specs.Prelude.{◌≡◌, ◌<◌, ◌≤◌, ◌*◌, cond, length, slice_index, None, IfOk, All};
ghost use Rattle.std.specs.List.{Contains, fold};
ghost use Rattle.boc_program.specs.declared.limits.TheConstants.{MOST_COWNS, MOST_ROWS, MOST_TICKS};
ghost use Rattle.boc_runs.specs.Rows.{IsRows, cowns_of};
ghost use Rattle.boc_turns.specs.Pace.{and_wait, hold_of, latest, left_of, left_written, noted, started, wait_for, waited, IsLow, IsLowComing};
ghost use Rattle.boc_turns.specs.Course.{AreComing, coming_by};

use crate::pace::{Wait, turn_over};
use boc_plans::sharing::SeenRows;
use boc_program::short::HeldCown;
use boc_uses::Use;
use std::alloc::AllocError;

/// How a row holds a cown.
#[derive(Clone, Copy)]
pub(crate) enum Hold {
    /// From its start to its end.
    Whole,
    /// Not at all.
    Never,
    /// For a turn.
    Turn(Use),
}

/// A cown of a row, and when the row gets it.
#[derive(Clone, Copy)]
pub(crate) struct Coming {
    /// The cown's number.
    pub(crate) cown: HeldCown,
    /// Whether the row writes it.
    pub(crate) writes: bool,
    /// How the row holds it.
    pub(crate) hold: Hold,
    /// When the rows that this one is ordered after over the cown have left it.
    pub(crate) came: u64,
}

// Returns how a row holds a cown that it uses so.
fn hold_of(relaxed: bool, turn: Option<Use>) -> Hold
    ensures { result ≡ hold_of relaxed turn }
{
    if !relaxed {
        return Hold::Whole;
    }
    match turn {
        Some(turn) => Hold::Turn(turn),
        None => Hold::Never,
    }
}

// Returns when a cown has been left: by all rows that have it if the next one writes it, else by those that wrote it.
fn came_of(writes: bool, own: HeldCown, held: &[u64], wrote: &[u64]) -> u64
    requires held { own < length held.now }
    requires wrote { own < length wrote.now }
    ensures { result ≡ cond writes (slice_index held.now own) (slice_index wrote.now own) }
{
    if writes {
        held[own as usize]
    } else {
        wrote[own as usize]
    }
}

// Returns when a row gets a cown that it holds so.
fn coming_by(
    rows: &SeenRows,
    row: usize,
    own: HeldCown,
    hold: Hold,
    held: &[u64],
    wrote: &[u64],
) -> Coming
    requires there { row < length rows.now }
    requires own { Contains (cowns_of rows.now row) own }
    requires held { own < length held.now }
    requires wrote { own < length wrote.now }
    ensures { result ≡ coming_by rows.now held.now wrote.now row own hold }
{
    let writes = rows.writes(row, own);
    let came = came_of(writes, own, held, wrote);
    Coming {
        cown: own,
        writes,
        hold,
        came,
    }
}

/// Writes down when a row gets each of its cowns, which have these uses, in their order. `held` has for each cown when the rows before have left it, and
/// `wrote` when those of them that wrote it have. `AllocError` says that memory was refused.
pub(crate) fn note_coming(
    rows: &SeenRows,
    row: usize,
    relaxed: &[bool],
    uses: &[Option<Use>],
    held: &[u64],
    wrote: &[u64],
    coming: &mut Vec<Coming>,
) -> Result<(), AllocError>
    requires shape { IsRows rows.now }
    requires there { row < length rows.now }
    requires relaxed { length relaxed.now ≡ MOST_COWNS }
    requires uses { length (cowns_of rows.now row) ≤ length uses.now }
    requires held { length held.now ≡ MOST_COWNS }
    requires wrote { length wrote.now ≡ MOST_COWNS }
    ensures { IfOk result (λ _. AreComing rows.now relaxed.now uses.now held.now wrote.now row (length (cowns_of rows.now row)) coming.new.items) }
{
    coming.clear();
    for (place, own) in rows.cowns(row).iter().enumerate() {
        let hold = hold_of(relaxed[*own as usize], uses[place]);
        coming.push(coming_by(rows, row, *own, hold, held, wrote))?;
    }
    Ok(())
}

// Returns the start of a row that starts no sooner than this for other reasons than a cown.
fn started(start: u64, cown: &Coming) -> u64
    ensures { result ≡ started start cown.now }
{
    match cown.hold {
        Hold::Whole => start.max(cown.came),
        _ => start,
    }
}

/// Returns when a row starts that is spawned then, and to which these cowns come.
pub(crate) fn start_of(coming: &[Coming], spawned: u64) -> u64
    ensures { result ≡ fold started spawned coming.now }
{
    let mut start = spawned;
    for cown in coming {
        start = started(start, cown);
    }
    start
}

// Returns the wait for a cown that comes so, if any.
fn wait_for(cown: &Coming) -> Option<Wait>
    requires { cown.now.came ≤ MOST_ROWS * MOST_TICKS }
    ensures { result ≡ wait_for cown.now.hold cown.now.came }
{
    match cown.hold {
        Hold::Turn(turn) => {
            if turn.needed {
                Some(Wait {
                    first: turn.first,
                    late: (cown.came + 1).saturating_sub(u64::from(turn.first)),
                })
            } else {
                None
            }
        }
        _ => None,
    }
}

// Appends a wait, if there is one.
fn push_wait(waits: &mut Vec<Wait>, wait: Option<Wait>) -> Result<(), AllocError>
    ensures waits { IfOk result (λ _. waits.new.items ≡ and_wait waits.old.items wait) }
    ensures longer { IfOk result (λ _. length waits.old.items ≤ length waits.new.items) }
{
    if let Some(wait) = wait {
        waits.push(wait)?;
    }
    Ok(())
}

/// Appends the waits of a row to which these cowns come. `AllocError` says that memory was refused.
pub(crate) fn push_waits(coming: &[Coming], waits: &mut Vec<Wait>) -> Result<(), AllocError>
    requires { All IsLowComing coming.now }
    ensures waits { IfOk result (λ _. waits.new.items ≡ fold waited waits.old.items coming.now) }
    ensures longer { IfOk result (λ _. length waits.old.items ≤ length waits.new.items) }
{
    for cown in coming {
        push_wait(waits, wait_for(cown))?;
    }
    Ok(())
}

// Returns when a row leaves a cown, if it has it at all. The row starts and ends then, and waits so.
fn left_of(cown: &Coming, start: u64, waits: &[Wait], end: u64) -> Option<u64>
    requires low { IsLow start waits.now }
    requires coming { IsLowComing cown.now }
    ensures { result ≡ left_of start waits.now end cown.now }
{
    match cown.hold {
        Hold::Whole => Some(end),
        Hold::Never => None,
        Hold::Turn(turn) => Some(turn_over(&turn, start, waits, cown.came)),
    }
}

// Writes down that a cown is left then, if at all.
fn note(ticks: &mut [u64], cown: HeldCown, left: Option<u64>)
    requires { cown < length ticks.old }
    ensures { ticks.new ≡ noted cown left ticks.old }
{
    if let Some(left) = left {
        ticks[cown as usize] = ticks[cown as usize].max(left);
    }
}

// Returns when a row leaves a cown for those that only read it: at all only if the row wrote it.
fn if_written(writes: bool, left: Option<u64>) -> Option<u64>
    ensures { result ≡ cond writes left None }
{
    if writes { left } else { None }
}

// Returns the later one of two ticks, if there are two.
fn latest(left: Option<u64>, last: u64) -> u64
    ensures { result ≡ latest left last }
{
    match left {
        Some(left) => last.max(left),
        None => last,
    }
}

/// Writes down when a row leaves its cowns, and returns the last of these ticks, or `end` where that is later. The row starts and ends then, and waits so.
pub(crate) fn leave(
    coming: &[Coming],
    start: u64,
    waits: &[Wait],
    end: u64,
    held: &mut [u64],
    wrote: &mut [u64],
) -> u64
    requires low { IsLow start waits.now }
    requires coming { All IsLowComing coming.now }
    requires held { length held.old ≡ MOST_COWNS }
    requires wrote { length wrote.old ≡ MOST_COWNS }
    ensures held { held.new ≡ fold (λ ticks x. noted x.cown (left_of start waits.now end x) ticks) held.old coming.now }
    ensures wrote { wrote.new ≡ fold (λ ticks x. noted x.cown (left_written start waits.now end x) ticks) wrote.old coming.now }
    ensures last { result ≡ fold (λ last x. latest (left_of start waits.now end x) last) end coming.now }
{
    let mut last = end;
    for cown in coming {
        let left = left_of(cown, start, waits, end);
        note(held, cown.cown, left);
        note(wrote, cown.cown, if_written(cown.writes, left));
        last = latest(left, last);
    }
    last
}
