// What is known of each def of a run.

ghost use Rattle.std.specs.Prelude.{◌≡◌, ◌<◌, ◌≤◌, All, IfOk, length, map};
ghost use Rattle.boc_program.specs.declared.limits.TheConstants.{MOST_ROWS};
ghost use Rattle.boc_runs.specs.Rows.{IsRows};
ghost use Rattle.boc_compare.specs.Totalled.{AreOfDefs, AreShareTicks};
ghost use Rattle.boc_compare.specs.DefTables.{AreCounts, AreDefTables, AreDefTicks, AreWhole, of_tables};

use crate::keys::each_once;
use crate::totals::Totals;
use boc_program::limits::MOST_ROWS;
use boc_runs::rows::{Row, Rows};
use boc_typical::typical_ticks;
use boc_why::Share;
use std::alloc::{AllocError, Global};

// What is known of each def below the bound, whether a row is of it or not.
#[derive(Drop)]
struct Tables {
    counts: Vec<u64>,
    ticks: Vec<u64>,
    typical: Vec<u32>,
    chain: Vec<u64>,
}

// Returns for each def how many rows are of it.
fn counts_of(alloc: Global, defs: &[u32]) -> Result<Vec<u64>, AllocError>
    requires few_defs { All (λ d. d < MOST_ROWS) defs.now }
    requires few { length defs.now ≤ MOST_ROWS }
    ensures { IfOk result (λ counts. AreCounts defs.now counts.items) }
{
    let mut counts = vec![in alloc; 0_u64; MOST_ROWS]?;
    for def in defs {
        counts[*def as usize] += 1;
    }
    Ok(counts)
}

// Returns for each def what its rows take together.
fn ticks_of(alloc: Global, rows: &[Row], defs: &[u32]) -> Result<Vec<u64>, AllocError>
    requires shape { IsRows rows.now }
    requires defs { length defs.now ≡ length rows.now }
    requires few_defs { All (λ d. d < MOST_ROWS) defs.now }
    ensures { IfOk result (λ ticks. AreDefTicks rows.now defs.now ticks.items) }
{
    let mut ticks = vec![in alloc; 0_u64; MOST_ROWS]?;
    for (row, def) in defs.iter().enumerate() {
        ticks[*def as usize] += u64::from(rows[row].ticks);
    }
    Ok(ticks)
}

// Returns for each def what its rows weigh on the chain.
fn on_chain(alloc: Global, by_def: &[Share]) -> Result<Vec<u64>, AllocError>
    requires { All (λ s. s.key < MOST_ROWS) by_def.now }
    ensures { IfOk result (λ ticks. AreShareTicks by_def.now ticks.items) }
{
    let mut ticks = vec![in alloc; 0_u64; MOST_ROWS]?;
    for share in by_def {
        ticks[share.key as usize] = share.ticks;
    }
    Ok(ticks)
}

// Returns what is known of each def below the bound.
fn tables_of(
    alloc: Global,
    rows: &Rows,
    defs: &[u32],
    by_def: &[Share],
) -> Result<Tables, AllocError>
    requires defs { length defs.now ≡ length rows.now }
    requires few_defs { All (λ d. d < MOST_ROWS) defs.now }
    requires keys { All (λ s. s.key < MOST_ROWS) by_def.now }
    ensures { IfOk result (AreDefTables rows.now defs.now by_def.now) }
{
    Ok(Tables {
        ticks: ticks_of(alloc, rows.as_slice(), defs)?,
        counts: counts_of(alloc, defs)?,
        typical: typical_ticks(alloc, rows, defs, MOST_ROWS)?,
        chain: on_chain(alloc, by_def)?,
    })
}

// Returns what the tables have of a def.
fn of_tables(tables: &Tables, key: u32) -> Totals
    requires whole { AreWhole tables.now }
    requires below { key < MOST_ROWS }
    ensures { result ≡ of_tables tables.now key }
{
    Totals {
        key,
        count: tables.counts[key as usize],
        ticks: tables.ticks[key as usize],
        more: u64::from(tables.typical[key as usize]),
        chain: tables.chain[key as usize],
    }
}

// Returns what the tables have of each of these defs.
fn listed(alloc: Global, tables: &Tables, keys: &[u32]) -> Result<Vec<Totals>, AllocError>
    requires whole { AreWhole tables.now }
    requires below { All (λ key. key < MOST_ROWS) keys.now }
    ensures { IfOk result (λ list. list.items ≡ map (of_tables tables.now) keys.now) }
{
    let mut list = Vec::with_capacity(alloc, keys.len())?;
    for key in keys {
        list.push(of_tables(tables, *key))?;
    }
    Ok(list)
}

/// Returns what is known of each def of some rows, in the order of their first rows. These are the defs of the rows, and the shares of the chain by def.
/// `AllocError` says that memory was refused.
pub(crate) fn def_totals(
    alloc: Global,
    rows: &Rows,
    defs: &[u32],
    by_def: &[Share],
) -> Result<Vec<Totals>, AllocError>
    requires defs { length defs.now ≡ length rows.now }
    requires few_defs { All (λ d. d < MOST_ROWS) defs.now }
    requires keys { All (λ s. s.key < MOST_ROWS) by_def.now }
    ensures { IfOk result (λ list. AreOfDefs rows.now defs.now by_def.now list.items) }
{
    let tables = tables_of(alloc, rows, defs, by_def)?;
    let keys = each_once(alloc, defs, MOST_ROWS)?;
    listed(alloc, &tables, &keys)
}
