// Ticks that are too many for a record are divided.

ghost use Rattle.std.specs.Prelude.{◌≤◌};

use crate::lists::at;
use crate::made::Made;
use boc_program::limits::MOST_TICKS;
use std::alloc::{AllocError, Global};

const MOST: u64 = MOST_TICKS as u64;

// The greatest divisor: no number of a stream has more digits.
const GREATEST: u64 = 1_000_000_000_000_000_000;

// How many divisors there are up to that one.
const STEPS: usize = 55;

// Divides the ticks and the offsets of rows, rounded up; an offset is at least one above the earlier sibling's. Ticks reach the
// last child. Answers whether all fit.
fn divide(rows: &[Made], divisor: u64, lasts: &mut [u64], scaled: &mut [Made]) -> bool
    requires { 1 ≤ divisor }
{
    for last in lasts.iter_mut() {
        *last = 0;
    }
    let mut fits = true;
    for (number, made) in rows.iter().enumerate() {
        let mut offset = 0;
        if number > 0 {
            offset = made
                .offset
                .div_ceil(divisor)
                .max(at(lasts, made.parent).saturating_add(1));
            if let Some(last) = lasts.get_mut(made.parent) {
                *last = offset;
            }
        }
        if let Some(place) = scaled.get_mut(number) {
            place.offset = offset;
        }
        fits = fits && offset <= MOST;
    }
    for (number, made) in rows.iter().enumerate() {
        let ticks = made.ticks.div_ceil(divisor).max(at(lasts, number)).max(1);
        if let Some(place) = scaled.get_mut(number) {
            place.ticks = ticks;
        }
        fits = fits && ticks <= MOST;
    }
    fits
}

// The powers of ten below that.
const POWERS: [u64; 18] = [
    1,
    10,
    100,
    1_000,
    10_000,
    100_000,
    1_000_000,
    10_000_000,
    100_000_000,
    1_000_000_000,
    10_000_000_000,
    100_000_000_000,
    1_000_000_000_000,
    10_000_000_000_000,
    100_000_000_000_000,
    1_000_000_000_000_000,
    10_000_000_000_000_000,
    100_000_000_000_000_000,
];

// Returns the next divisor of 1, 2, 5, 10, 20, 50 and so on.
fn next_divisor(divisor: u64) -> u64
    ensures { 1 ≤ result }
{
    for power in POWERS {
        for factor in [2, 5, 10] {
            let next = power.saturating_mul(factor).max(1);
            if divisor < next {
                return next;
            }
        }
    }
    GREATEST
}

/// Divides the ticks of rows by the smallest of 1, 2, 5, 10, 20, 50 and so on by which all fit into a record, and returns it.
pub fn scale(alloc: Global, rows: &mut Vec<Made>) -> Result<u64, AllocError> {
    let mut lasts = Vec::with_capacity(alloc, rows.len())?;
    let mut scaled = Vec::with_capacity(alloc, rows.len())?;
    for made in rows.iter() {
        lasts.push(0)?;
        scaled.push(*made)?;
    }
    let mut divisor = 1;
    for _ in 0..STEPS {
        if divide(rows, divisor, &mut lasts, &mut scaled) {
            break;
        }
        divisor = next_divisor(divisor);
    }
    *rows = scaled;
    Ok(divisor)
}
