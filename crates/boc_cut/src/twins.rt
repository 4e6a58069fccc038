// Cowns that order the same rows as another, or no two rows.

use crate::users::Users;
use std::alloc::{AllocError, Global};

/// What may stand for a cown without loss.
#[derive(Clone, Copy, PartialEq, Eq, Debug)]
pub enum StandIn {
    /// It orders no two rows: one row alone uses it.
    Nothing,
    /// The same rows use this one, or it is this one itself.
    Cown(usize),
}

// A prime by which numbers are spread.
const SPREAD: u64 = 0x9E37_79B9_7F4A_7C15;

// Returns a number that lists of the same rows have in common.
fn mixed(rows: &[usize]) -> u64 {
    let mut mix: u64 = rows.len() as u64;
    for row in rows {
        mix = (mix ^ *row as u64).wrapping_mul(SPREAD).rotate_left(29);
    }
    mix
}

// Returns whether two lists are the same.
fn are_same(some: &[usize], others: &[usize]) -> bool {
    if some.len() != others.len() {
        return false;
    }
    for (one, other) in some.iter().zip(others.iter()) {
        if one != other {
            return false;
        }
    }
    true
}

/// Returns for each cown what stands for it without loss.
pub fn stand_ins(alloc: Global, users: &Users) -> Result<Vec<StandIn>, AllocError> {
    let mut mixes = Vec::new(alloc);
    let mut found = Vec::with_capacity(alloc, users.cowns.len())?;
    for id in 0..users.cowns.len() {
        let rows = users.rows_of(id);
        if rows.len() > 1 {
            mixes.push((mixed(rows), id))?;
            found.push(StandIn::Cown(id))?;
        } else {
            found.push(StandIn::Nothing)?;
        }
    }
    mixes.sort_unstable();
    let mut before: Option<(u64, usize)> = None;
    for pair in mixes.iter() {
        let (mix, id) = *pair;
        match before {
            Some((last, first))
                if last == mix && are_same(users.rows_of(first), users.rows_of(id)) => {
                if let Some(stand_in) = found.get_mut(id) {
                    *stand_in = StandIn::Cown(first);
                }
            }
            _ => before = Some((mix, id)),
        }
    }
    Ok(found)
}
