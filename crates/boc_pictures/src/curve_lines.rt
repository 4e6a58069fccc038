// The ends of greedy plans in text.

use crate::columns::{digits, percent, put_folded, put_right};
use crate::html::put_padded;
use crate::written::Written;
use boc_greedy::CurvePoint;
use std::alloc::{AllocError, Global};

// How many marks the greatest speed-up takes at most.
const MOST_MARKS: usize = 40;

// How many columns are before the marks, and how many are left where the bounds are left out. That is done where marks would have fewer than ten.
const FULL: usize = 54;

const NARROW: usize = 32;

const LEAST_MARKS: usize = 10;

// How many digits an end has at most, where the table's head is right above it.
const DIGITS: usize = 10;

/// The columns of the table.
#[derive(Clone, Copy)]
struct Shape {
    // Whether the bounds are there.
    full: bool,
    // How many marks the greatest speed-up takes.
    marks: usize,
}

impl Shape {
    // Returns the table of these points in the given number of columns.
    fn within(points: &[CurvePoint], width: usize) -> Shape {
        let full = width >= FULL + LEAST_MARKS;
        let (taken, numbers) = if full { (FULL, 3) } else { (NARROW, 1) };
        // No end is greater than the bound of one worker.
        let digits = points.iter().map(|point| digits(point.bound)).max();
        let more = digits.unwrap_or(1).saturating_sub(DIGITS);
        let taken = more.saturating_mul(numbers).saturating_add(taken);
        Shape {
            full,
            marks: width.saturating_sub(taken).min(MOST_MARKS),
        }
    }

    // Returns the table's head.
    fn head(self) -> &'static str {
        if self.full {
            "  p        end      least      bound  speed-up  busy\n"
        } else {
            "  p        end  speed-up  busy\n"
        }
    }
}

/// Returns the number of workers from which on none ends sooner: the first one with the earliest end.
pub(crate) fn enough(points: &[CurvePoint]) -> u32 {
    let mut least = u64::MAX;
    let mut workers = 1;
    for point in points {
        if point.end < least {
            least = point.end;
            workers = point.workers;
        }
    }
    workers
}

/// Returns the speed-up of a plan over one worker, in hundredths.
pub(crate) fn speed_up(work: u64, end: u64) -> u64 {
    percent(work, end)
}

/// Returns what each number of workers makes of some rows: when their greedy plan ends, how much sooner that is than for one worker, and how busy they are. Of
/// all numbers those are here that are powers of two, and the one from which on none ends sooner. It takes this many columns; in a narrow table the bounds
/// are left out.
pub fn curve_text(
    alloc: Global,
    work: u64,
    span: u64,
    points: &[CurvePoint],
    width: usize,
) -> Result<Vec<u8>, AllocError> {
    let enough = enough(points);
    let shape = Shape::within(points, width);
    let mut text = Written::new(alloc);
    put_folded(&mut text, &head_of(alloc, work, span)?, width);
    text.put(shape.head());
    let most = points
        .iter()
        .map(|point| speed_up(work, point.end))
        .max()
        .unwrap_or(1);
    for point in points {
        if point.workers.is_power_of_two() || point.workers == enough {
            put_point(&mut text, work, point, most, shape);
        }
    }
    put_folded(&mut text, &gain_of(alloc, span, points)?, width);
    text.into_text()
}

// Returns the work and the span in words.
fn head_of(alloc: Global, work: u64, span: u64) -> Result<Vec<u8>, AllocError> {
    let mut text = Written::new(alloc);
    text.put("work ");
    text.put_number(work);
    text.put("   span ");
    text.put_number(span);
    text.into_text()
}

// Puts the line of a number of workers.
fn put_point(text: &mut Written, work: u64, point: &CurvePoint, most: u64, shape: Shape) {
    let speed_up = speed_up(work, point.end);
    let busy = percent(work, point.end.saturating_mul(point.workers as u64));
    put_right(text, u64::from(point.workers), 3);
    put_column(text, point.end);
    if shape.full {
        put_column(text, point.low);
        put_column(text, point.bound);
    }
    text.push(b' ');
    put_right(text, speed_up / 100, 6);
    text.push(b'.');
    put_padded(text, speed_up % 100, 10);
    text.push(b' ');
    put_right(text, busy, 4);
    text.put("%  ");
    for _ in 0..speed_up.saturating_mul(shape.marks as u64) / most.max(1) {
        text.push(b'*');
    }
    text.push(b'\n');
}

// Puts a number in a column of the table, after a blank.
fn put_column(text: &mut Written, number: u64) {
    text.push(b' ');
    put_right(text, number, DIGITS);
}

// Returns from which number of workers on none gains anything, where that is known: where their plan ends at the span. Else of which of these
// numbers the plan ends soonest.
fn gain_of(alloc: Global, span: u64, points: &[CurvePoint]) -> Result<Vec<u8>, AllocError> {
    let mut text = Written::new(alloc);
    let enough = enough(points);
    let least = points.iter().map(|point| point.end).min().unwrap_or(0);
    if least == span {
        text.put("more than ");
        text.put_number(u64::from(enough));
        text.put(if enough == 1 {
            " worker gains"
        } else {
            " workers gain"
        });
        text.put(" nothing in this run: the plan ends at the span");
    } else {
        text.put("no plan for up to ");
        text.put_number(points.len() as u64);
        text.put(" workers ends at the span; that for ");
        text.put_number(u64::from(enough));
        text.put(" ends soonest");
    }
    text.into_text()
}
