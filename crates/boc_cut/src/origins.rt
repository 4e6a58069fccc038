// Which row of the stream each row of a window is. That it is over some of the cowns of that row is looked at here, whatever was
// chosen before.

ghost use Rattle.std.specs.Prelude.{◌<◌, ⊤, IsTrue, IfSome, IfOk, MatchOption};
ghost use Rattle.boc_cut.specs.Windows.{HasCown, AreKeptOf, ComesFrom, AreOrigins, Rise};

use crate::made::Made;
use crate::table::{CownUse, Row as StreamRow, Table};
use boc_program::short::HeldCown;
use boc_runs::rows::Row;
use std::alloc::{AllocError, Global};

// Returns whether one of the uses is of this cown.
fn has_cown(uses: &[CownUse], cown: u64) -> bool
    ensures { IsTrue result → HasCown uses.now cown }
{
    for place in 0..uses.len() {
        if uses[place].cown == cown {
            return true;
        }
    }
    false
}

// Returns whether the cowns of a row of a record, by the cowns of the stream that they are, are among these.
fn are_kept_of(held: &[HeldCown], kept: &[u64], uses: &[CownUse]) -> bool
    ensures { IsTrue result → AreKeptOf kept.now uses.now held.now }
{
    for place in 0..held.len() {
        let number = usize::from(held[place]);
        if number >= kept.len() || !has_cown(uses, kept[number]) {
            return false;
        }
    }
    true
}

// Returns the row of the stream that a row of a record is, or that it is none; nothing where its cowns are not among that row's.
fn origin_of(
    rows: &[StreamRow],
    uses: &[CownUse],
    made: &Made,
    kept: &[u64],
    held: &[HeldCown],
) -> Option<Option<u64>>
    ensures { IfSome result (λ origin. ComesFrom rows.now uses.now kept.now held.now origin) }
{
    let Some(place) = made.place else {
        return match held {
            [] => Some(None),
            _ => None,
        };
    };
    if place >= rows.len() {
        return None;
    }
    let row = rows[place];
    if row.from > row.to || row.to > uses.len() {
        return None;
    }
    if !are_kept_of(held, kept, &uses[row.from..row.to]) {
        return None;
    }
    Some(Some(row.number))
}

// Returns whether a number is above the last one, if there is one.
fn is_above(last: Option<u64>, number: u64) -> bool
    ensures { IsTrue result → MatchOption last ⊤ (λ before. before < number) }
{
    match last {
        Some(before) => before < number,
        None => true,
    }
}

// Returns whether the numbers of rows rise.
fn rise(origins: &[Option<u64>]) -> bool
    ensures { IsTrue result → Rise origins.now }
{
    let mut last: Option<u64> = None;
    for place in 0..origins.len() {
        match origins[place] {
            Some(number) => {
                if !is_above(last, number) {
                    return false;
                }
                last = Some(number);
            }
            None => {}
        }
    }
    true
}

/// Returns the rows of the stream that the rows of a record are, if their cowns are among those rows' and they are in the same order.
pub fn origins_of(
    alloc: Global,
    table: &Table,
    made: &[Made],
    kept: &[u64],
    rows: &[Row],
) -> Result<Option<Vec<Option<u64>>>, AllocError>
    ensures { IfOk result (λ found. IfSome found (λ origins. AreOrigins table.now.rows.items table.now.uses.items kept.now rows.now origins.items)) }
{
    let mut origins = Vec::new(alloc);
    if made.len() != rows.len() {
        return Ok(None);
    }
    for number in 0..rows.len() {
        let held = rows[number].cowns.as_slice();
        let Some(origin) = origin_of(&table.rows, &table.uses, &made[number], kept, held) else {
            return Ok(None);
        };
        origins.push(origin)?;
    }
    if rise(&origins) {
        Ok(Some(origins))
    } else {
        Ok(None)
    }
}
