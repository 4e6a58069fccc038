// The histogram.

ghost use Rattle.std.specs.Prelude.{◌≡◌, ◌++◌, ◌∷◌, [], IfOk, OnOk, length, map};
ghost use Rattle.boc_many_runs_report.specs.ManyTexts.{bar_length, bar_text, bin_line, bin_sides, bins_table, most_runs, range_text};

use boc_many_runs::Bin;
use boc_table::{Side, Table, put_table};
use boc_text::put_number;
use boc_why_report::number;
use std::alloc::{AllocError, Global};

// The longest bar has this many signs.
const BAR: u64 = 40;

// The numbers of a bin, how many runs have one of these, and a bar.
const SIDES: [Side; 3] = [Side::Left, Side::Right, Side::Left];

// Returns the most runs of a bin.
fn most_runs(bins: &[Bin]) -> u64
    ensures { result ≡ most_runs bins.now }
{
    let mut most = 0;
    for bin in bins {
        most = most.max(bin.runs);
    }
    most
}

// Returns how long a bar is: as many of 40 signs as these runs are of the most, rounded up.
fn bar_length(runs: u64, most: u64) -> u128
    ensures { result ≡ bar_length runs most }
{
    let parts = u128::from(runs) * u128::from(BAR) + u128::from(most.saturating_sub(1));
    parts / u128::from(most.max(1))
}

// Returns the bar of a bin. `AllocError` says that memory was refused.
fn bar_text(alloc: Global, runs: u64, most: u64) -> Result<Vec<u8>, AllocError>
    ensures { IfOk result (λ text. text.items ≡ bar_text runs most) }
{
    let length = bar_length(runs, most);
    let mut text = Vec::new(alloc);
    for _ in 0..length {
        text.push(b'#')?;
    }
    Ok(text)
}

// Returns the numbers of a bin, as a text. `AllocError` says that memory was refused.
fn range_text(alloc: Global, first: u64, last: u64) -> Result<Vec<u8>, AllocError>
    ensures { IfOk result (λ text. text.items ≡ range_text first last) }
{
    let mut text = Vec::new(alloc);
    text.extend_from_slice(b"  ")?;
    put_number(&mut text, first)?;
    if first < last {
        text.extend_from_slice(b"..")?;
        put_number(&mut text, last)?;
    }
    Ok(text)
}

// Puts the line of a bin, where this is the most runs of one.
fn put_bin(alloc: Global, table: &mut Table, most: u64, bin: Bin) -> Result<(), AllocError>
    requires { length table.old.sides ≡ length bin_sides }
    ensures { OnOk result (table.new ≡ record table.old { lines = table.old.lines ++ bin_line most bin ∷ [] }) }
{
    let range = range_text(alloc, bin.first, bin.last)?;
    let runs = number(alloc, bin.runs)?;
    let bar = bar_text(alloc, bin.runs, most)?;
    table.put_line(&[&range, &runs, &bar])
}

// Returns the table of the bins.
fn table_of(alloc: Global, bins: &[Bin]) -> Result<Table, AllocError>
    ensures sides { IfOk result (λ table. table.sides ≡ bin_sides) }
    ensures lines { IfOk result (λ table. table.lines ≡ map (bin_line (most_runs bins.now)) bins.now) }
{
    let most = most_runs(bins);
    let mut table = Table::new(alloc, &SIDES);
    for bin in bins {
        put_bin(alloc, &mut table, most, *bin)?;
    }
    Ok(table)
}

/// Appends the histogram to a text: a line for each bin, with a bar.
pub(crate) fn put_bins(alloc: Global, text: &mut Vec<u8>, bins: &[Bin]) -> Result<(), AllocError>
    ensures { OnOk result (text.new.items ≡ text.old.items ++ bins_table bins.now) }
{
    let table = table_of(alloc, bins)?;
    put_table(text, &table)
}
