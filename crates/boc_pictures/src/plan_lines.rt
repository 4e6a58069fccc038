// The earliest plan in text.

use crate::columns::{Columns, put_folded, put_label, put_line, put_right, up};
use crate::subject::{Shown, Subject};
use crate::written::Written;
use boc_bars::{Bar, Stretch, lane_count, packed};
use std::alloc::{AllocError, Global};

/// The most lines that are drawn.
pub(crate) const MOST_LINES: usize = 60;

// The most columns that a label takes, and the smallest that are left for the bars.
const MOST_LABEL: usize = 36;

const LEAST_BARS: usize = 20;

/// Returns the earliest plan, a line for each row, in the given number of columns. Where there are more than 60 rows, those that don't overlap share lines, and
/// where that takes more than 60 lines too, a line reports on a def how many of its rows run.
pub fn plan_text(alloc: Global, subject: &Subject, width: usize) -> Result<Vec<u8>, AllocError> {
    let mut text = Written::new(alloc);
    put_folded(&mut text, &head_of(alloc, subject)?, width);
    text.push(b'\n');
    if subject.count() <= MOST_LINES {
        put_rows(alloc, &mut text, subject, width)?;
        return text.into_text();
    }
    let bars = packed(alloc, &stretches_of(alloc, subject)?)?;
    let lanes = lane_count(&bars);
    if lanes <= MOST_LINES as u64 {
        put_lanes(alloc, &mut text, subject, width, &bars, lanes)?;
    } else {
        put_sums(alloc, &mut text, subject, width)?;
    }
    text.into_text()
}

// Returns how many rows there are, the work and the span in words.
fn head_of(alloc: Global, subject: &Subject) -> Result<Vec<u8>, AllocError> {
    let mut text = Written::new(alloc);
    text.put("rows ");
    text.put_number(subject.count() as u64);
    text.put("   work ");
    text.put_number(subject.work);
    text.put("   span ");
    text.put_number(subject.span);
    text.into_text()
}

// When each row runs.
pub(crate) fn stretches_of(alloc: Global, subject: &Subject) -> Result<Vec<Stretch>, AllocError> {
    let mut stretches = Vec::with_capacity(alloc, subject.count())?;
    for row in &subject.shown {
        stretches.push(Stretch {
            start: row.start,
            end: row.end,
        })?;
    }
    Ok(stretches)
}

// Puts what marks say, and how many ticks a column takes.
fn put_legend(
    alloc: Global,
    text: &mut Written,
    columns: Columns,
    width: usize,
    waits: bool,
) -> Result<(), AllocError> {
    let mut head = Written::new(alloc);
    columns.put_scale(&mut head);
    head.put("; # runs, and the chain goes through it; = runs");
    if waits {
        head.put("; . waits for a cown");
    }
    put_folded(text, &head.into_text()?, width);
    Ok(())
}

// Paints when a row waits and runs.
fn paint(line: &mut [u8], columns: Columns, row: &Shown, waits: bool) {
    if waits && row.after.is_some() {
        columns.paint(line, row.spawned, row.start, b'.');
    }
    columns.paint(line, row.start, row.end, b'=');
    if row.through > 0 {
        let past = row.start.saturating_add(row.through as u64);
        columns.paint(line, row.start, past, b'#');
    }
}

// Puts a line for each row.
fn put_rows(
    alloc: Global,
    text: &mut Written,
    subject: &Subject,
    width: usize,
) -> Result<(), AllocError> {
    let label = label_width(subject).min(width.saturating_sub(LEAST_BARS + 7));
    let columns = Columns::new(
        subject.span,
        width
            .saturating_sub(label.saturating_add(7))
            .max(LEAST_BARS),
    );
    put_legend(alloc, text, columns, width, true)?;
    for row in &subject.shown {
        let mut line = columns.line(alloc)?;
        paint(&mut line, columns, row, true);
        put_right(text, u64::from(row.row), 3);
        text.push(b' ');
        put_label(text, subject.name(row.row), label);
        put_line(text, &line);
        text.push(b'\n');
    }
    Ok(())
}

// Returns how many columns the longest name takes, except what is too long.
fn label_width(subject: &Subject) -> usize {
    let mut width = 0;
    for name in &subject.names.rows {
        width = width.max(name.len());
    }
    width.min(MOST_LABEL)
}

// Puts a line for each lane.
fn put_lanes(
    alloc: Global,
    text: &mut Written,
    subject: &Subject,
    width: usize,
    bars: &[Bar],
    lanes: u64,
) -> Result<(), AllocError> {
    let columns = Columns::new(subject.span, width.saturating_sub(2).max(LEAST_BARS));
    let mut head = Written::new(alloc);
    head.put_number(subject.count() as u64);
    head.put(" rows in ");
    head.put_number(lanes);
    head.put(" lines: those in one line follow each other");
    put_folded(text, &head.into_text()?, width);
    put_legend(alloc, text, columns, width, false)?;
    for lane in 0..lanes {
        let mut line = columns.line(alloc)?;
        for bar in bars {
            if bar.lane as u64 == lane
                && let Some(row) = subject.shown.get(bar.row as usize)
            {
                paint(&mut line, columns, row, false);
            }
        }
        put_line(text, &line);
        text.push(b'\n');
    }
    Ok(())
}

// Returns how many of nine parts of the most a number is, rounded up.
fn digit(number: u64, most: u64) -> u8 {
    let ninths = up(number.saturating_mul(9), most).min(9);
    if ninths == 0 {
        b' '
    } else {
        b"0123456789"[ninths as usize]
    }
}

// Puts a line for each def, or one for all rows, where there are too many defs: how many rows run.
fn put_sums(
    alloc: Global,
    text: &mut Written,
    subject: &Subject,
    width: usize,
) -> Result<(), AllocError> {
    let defs = subject.names.def_names.as_slice();
    let columns = Columns::new(subject.span, width.saturating_sub(19).max(LEAST_BARS));
    let all = counts(alloc, subject, columns, None)?;
    let most = all.iter().copied().max().unwrap_or(1);
    let mut head = Written::new(alloc);
    head.put_number(subject.count() as u64);
    head.put(" rows, summed up: ");
    columns.put_scale(&mut head);
    head.put("; a digit is how many of them run in a column, in ninths of ");
    head.put_number(most);
    put_folded(text, &head.into_text()?, width);
    put_sum(text, b"all", &all, most);
    if defs.len() <= MOST_LINES {
        for (def, name) in defs.iter().enumerate() {
            let own = counts(alloc, subject, columns, Some(def))?;
            put_sum(text, name, &own, most);
        }
    }
    Ok(())
}

// Returns how many rows of a def run in each column, or of all.
fn counts(
    alloc: Global,
    subject: &Subject,
    columns: Columns,
    def: Option<usize>,
) -> Result<Vec<u64>, AllocError> {
    let mut counts = vec![in alloc; 0u64; columns.count()]?;
    for row in &subject.shown {
        if def.is_none() || def == Some(subject.def(row.row)) {
            columns.count_in(&mut counts, row.start, row.end);
        }
    }
    Ok(counts)
}

// Puts a line of counts after a name.
fn put_sum(text: &mut Written, name: &[u8], counts: &[u64], most: u64) {
    put_label(text, name, 16);
    text.push(b'|');
    for count in counts {
        text.push(digit(*count, most));
    }
    text.put("|\n");
}
