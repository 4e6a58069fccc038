// How many run at each tick.

use crate::axis::{Axis, put_length};
use crate::written::Written;
use boc_bars::Stretch;
use std::alloc::{AllocError, Global};

// A tick at which one begins, or ends.
#[derive(Clone, Copy)]
struct Change {
    tick: u64,
    begins: bool,
}

/// How many run from a tick on, until the next step.
#[derive(Clone, Copy, Debug)]
pub(crate) struct Step {
    pub(crate) tick: u64,
    pub(crate) count: u64,
}

/// How many run at each tick, and at most.
#[derive(Drop)]
pub(crate) struct Steps {
    pub(crate) list: Vec<Step>,
    pub(crate) most: u64,
}

/// How high a number of rows is: these hundredths of a pixel for this many of them.
#[derive(Clone, Copy, Debug)]
pub(crate) struct Height {
    pub(crate) hundredths: u64,
    pub(crate) rows: u64,
}

impl Height {
    /// Returns how high some rows are.
    pub(crate) fn of(self, rows: u64) -> u64 {
        rows.saturating_mul(self.hundredths) / self.rows.max(1)
    }
}

// Returns the ticks at which these begin and end, in their order.
fn changes_of(alloc: Global, stretches: &[Stretch]) -> Result<Vec<Change>, AllocError> {
    let mut changes = Vec::new(alloc);
    for stretch in stretches {
        if stretch.start < stretch.end {
            changes.push(Change {
                tick: stretch.start,
                begins: true,
            })?;
            changes.push(Change {
                tick: stretch.end,
                begins: false,
            })?;
        }
    }
    changes.sort_unstable_by_key(|change| (change.tick, change.begins));
    Ok(changes)
}

// Appends how many run from a tick on. Of two steps at one tick the later one counts, and none is there that changes nothing.
fn put_step(list: &mut Vec<Step>, step: Step) -> Result<(), AllocError> {
    if let Some(last) = list.last().copied()
        && last.tick == step.tick
    {
        list.pop();
    }
    if let Some(last) = list.last()
        && last.count == step.count
    {
        return Ok(());
    }
    list.push(step)?;
    Ok(())
}

/// Returns how many of these there are at each tick.
pub(crate) fn steps_of(alloc: Global, stretches: &[Stretch]) -> Result<Steps, AllocError> {
    let mut list = Vec::new(alloc);
    let mut count: u64 = 0;
    for change in &changes_of(alloc, stretches)? {
        count = if change.begins {
            count.saturating_add(1)
        } else {
            count.saturating_sub(1)
        };
        let tick = change.tick;
        put_step(&mut list, Step { tick, count })?;
    }
    let most = list.iter().map(|step| step.count).max().unwrap_or(0);
    Ok(Steps { list, most })
}

/// Appends the shape of steps above a foot to a text.
pub(crate) fn put_steps(text: &mut Written, axis: Axis, steps: &[Step], foot: u64, height: Height) {
    let Some(first) = steps.first() else {
        return;
    };
    text.push(b'M');
    put_length(text, axis.at(first.tick));
    text.push(b' ');
    put_length(text, foot);
    for step in steps {
        text.push(b'H');
        put_length(text, axis.at(step.tick));
        text.push(b'V');
        put_length(text, foot.saturating_sub(height.of(step.count)));
    }
    text.push(b'z');
}
