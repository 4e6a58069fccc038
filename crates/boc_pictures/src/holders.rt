// Who holds what, in text.

use crate::columns::{Columns, put_busy, put_folded, put_label, put_line};
use crate::letters::{letters, mark_of, put_key};
use crate::plan_lines::MOST_LINES;
use crate::subject::{Shown, Subject};
use crate::written::Written;
use boc_names::text_at;
use std::alloc::{AllocError, Global};
use std::cmp::Reverse;

// The most columns that a name takes, and the smallest that are left for the bars.
const MOST_LABEL: usize = 24;

const LEAST_BARS: usize = 20;

/// How long a cown is held.
#[derive(Clone, Copy)]
pub(crate) struct Held {
    pub(crate) cown: usize,
    pub(crate) ticks: u64,
}

/// Returns which rows hold each cown in the earliest plan, in the given number of columns: a letter for each def, and what part of the span the cown is held.
/// Of more than 60 cowns those are here that are held longest.
pub fn cowns_text(alloc: Global, subject: &Subject, width: usize) -> Result<Vec<u8>, AllocError> {
    let mut held = held_of(alloc, subject)?;
    let all = held.len();
    held.sort_unstable_by_key(|held| (Reverse(held.ticks), held.cown));
    held.truncate(MOST_LINES);
    held.sort_unstable_by_key(|held| held.cown);
    let letters = letters(alloc, &subject.names.def_names)?;
    let label = label_width(subject, &held).min(width.saturating_sub(LEAST_BARS + 9));
    let columns = Columns::new(
        subject.span,
        width
            .saturating_sub(label.saturating_add(9))
            .max(LEAST_BARS),
    );
    let mut head = Written::new(alloc);
    head.put("who holds what: ");
    columns.put_scale(&mut head);
    put_key(&mut head, subject, &letters, width);
    let mut text = Written::new(alloc);
    put_folded(&mut text, &head.into_text()?, width);
    for held in &held {
        put_cown(alloc, &mut text, subject, *held, &letters, columns, label)?;
    }
    if all > held.len() {
        text.put_number((all - held.len()) as u64);
        text.put(" more cowns are held no longer\n");
    }
    text.into_text()
}

// When a cown is held, of the rows so far.
#[derive(Clone, Copy)]
struct Holding {
    // For how many ticks some row has it.
    ticks: u64,
    // The tick by which all of them have ended.
    until: u64,
}

impl Holding {
    // One more row has it from one tick on up to another one, and none of those so far starts later.
    fn add(&mut self, start: u64, end: u64) {
        let alone = end.saturating_sub(start.max(self.until));
        self.ticks = self.ticks.saturating_add(alone);
        self.until = self.until.max(end);
    }
}

// Returns the rows, those that start first in front.
fn by_start(alloc: Global, subject: &Subject) -> Result<Vec<Shown>, AllocError> {
    let mut rows = Vec::from_slice(alloc, &subject.shown)?;
    rows.sort_unstable_by_key(|row| (row.start, row.row));
    Ok(rows)
}

/// Returns the cowns that some row has, and for how many ticks: those at which several rows read one count once.
pub(crate) fn held_of(alloc: Global, subject: &Subject) -> Result<Vec<Held>, AllocError> {
    let none = Holding { ticks: 0, until: 0 };
    let mut holdings = vec![in alloc; none; subject.names.cowns.len()]?;
    for row in &by_start(alloc, subject)? {
        for cown in subject.cowns(row.row) {
            if let Some(holding) = holdings.get_mut(*cown as usize) {
                holding.add(row.start, row.end);
            }
        }
    }
    let mut held = Vec::new(alloc);
    for (cown, holding) in holdings.iter().enumerate() {
        if holding.ticks > 0 {
            held.push(Held {
                cown,
                ticks: holding.ticks,
            })?;
        }
    }
    Ok(held)
}

// Returns how many columns the longest of these names takes, except what is too long.
fn label_width(subject: &Subject, held: &[Held]) -> usize {
    let mut width = 0;
    for held in held {
        width = width.max(text_at(&subject.names.cowns, held.cown).len());
    }
    width.min(MOST_LABEL)
}

// Puts the line of a cown.
fn put_cown(
    alloc: Global,
    text: &mut Written,
    subject: &Subject,
    held: Held,
    letters: &[u8],
    columns: Columns,
    label: usize,
) -> Result<(), AllocError> {
    let mut line = columns.line(alloc)?;
    for row in &subject.shown {
        if subject
            .cowns(row.row)
            .iter()
            .any(|cown| *cown as usize == held.cown)
        {
            let letter = mark_of(letters, subject, row.row);
            columns.paint(&mut line, row.start, row.end, letter);
        }
    }
    put_label(text, text_at(&subject.names.cowns, held.cown), label);
    put_line(text, &line);
    put_busy(text, held.ticks, subject.span);
    Ok(())
}
