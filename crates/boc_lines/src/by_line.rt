// Ticks by line.

ghost use Rattle.std.specs.Prelude.{◌≡◌, ◌^◌, ◌<◌, ◌≤◌, [], All, List, drop, length, map, sum, IfOk, MatchOption};
ghost use Rattle.boc_runs.specs.Serial.{serial_along};
ghost use Rattle.boc_lines.specs.Chained.{GoesThrough, steps_after, through_from, weight_on};
ghost use Rattle.boc_lines.specs.Lines.{AddUp, AreLineTicks, AreTicksByLine, line_charges, lines_from};
ghost use Rattle.boc_lines.specs.Replays.{AllFit, AreTicksOf};
ghost use Rattle.boc_lines.specs.SerialRuns.{AreBehavioursOf, AreRun};
ghost use Rattle.boc_eval.specs.Instances.{behaviour_in};
ghost use Rattle.boc_plans.specs.declared.chain.ChainStep.{ChainStep};
ghost use Rattle.boc_program.specs.declared.limits.TheConstants.{MOST_ROWS};
ghost use Rattle.boc_runs.specs.declared.rows.Row.{Row};

use crate::along::behaviours_along;
use crate::lines::lines_of_statements;
use crate::replay::{StatementTicks, ticks_by_statement};
use crate::walk::add;
use boc_eval::Instance;
use boc_plans::chain::ChainStep;
use boc_program::program::Program;
use boc_runs::rows::{Row, Rows};
use std::alloc::{AllocError, Global};

/// The ticks of a line of a program's text.
#[derive(Clone, Copy)]
pub struct LineTicks {
    /// The number of the line, from 1.
    pub line: u32,
    /// The ticks of what begins there, in all rows.
    pub ticks: u64,
    /// Those of them that the chain goes through.
    pub chain: u64,
}

/// Returns the ticks of the lines of a program's text in a run that has these rows and this chain, for lines that take some: together they are the work, and
/// those that the chain goes through its weight. A statement that this text doesn't have is on line 1. If these are no rows of a run of the program, or the
/// chain is none of theirs, there is no answer. It takes as long as the rows take to run, one after another. `AllocError` says that memory was refused.
pub fn ticks_by_line(
    alloc: Global,
    text: &[u8],
    program: &Program,
    rows: &Rows,
    chain: &[ChainStep],
) -> Result<Option<Vec<LineTicks>>, AllocError>
    ensures { IfOk result (λ found. MatchOption found
        (AreRun program.now (serial_along program.now []) rows.now × GoesThrough 0 rows.now chain.now → ⊥)
        (λ lines. AreTicksByLine program.now rows.now chain.now lines.items)) }
{
    match through_rows(alloc, rows.as_slice(), chain)? {
        Some(through) => ticks_through(alloc, text, program, rows, &through),
        None => Ok(None),
    }
}

// Returns the ticks of lines, where a chain goes through these first ticks of each row.
fn ticks_through(
    alloc: Global,
    text: &[u8],
    program: &Program,
    rows: &Rows,
    through: &[u64],
) -> Result<Option<Vec<LineTicks>>, AllocError>
    requires { length through.now ≡ length rows.now }
    ensures { IfOk result (λ found. MatchOption found
        (AreRun program.now (serial_along program.now []) rows.now → ⊥)
        (λ lines. (chain : List ChainStep) → GoesThrough 0 rows.now chain → through.now ≡ through_from 0 rows.now chain
        → AreTicksByLine program.now rows.now chain lines.items)) }
{
    match behaviours_along(alloc, program, rows.as_slice())? {
        Some(behaviours) => ticks_of_behaviours(alloc, text, program, &behaviours, through),
        None => Ok(None),
    }
}

// Returns the ticks of lines, where these are the behaviours of the rows.
fn ticks_of_behaviours(
    alloc: Global,
    text: &[u8],
    program: &Program,
    behaviours: &[Instance],
    through: &[u64],
) -> Result<Option<Vec<LineTicks>>, AllocError>
    requires few { length behaviours.now ≤ MOST_ROWS }
    requires both { length through.now ≡ length behaviours.now }
    ensures { IfOk result (λ found. MatchOption found
        (AllFit program.now (map behaviour_in behaviours.now) → ⊥)
        (λ lines. (rows : List Row) (chain : List ChainStep) → AreBehavioursOf program.now rows (map behaviour_in behaviours.now)
        → GoesThrough 0 rows chain → through.now ≡ through_from 0 rows chain → AreTicksByLine program.now rows chain lines.items)) }
{
    match ticks_by_statement(alloc, program, behaviours, through)? {
        Some(found) => {
            let lines = lines_for(alloc, text, found.ticks.len())?;
            Ok(Some(merged(alloc, &lines, &found)?))
        }
        None => Ok(None),
    }
}

// Returns the lines of this many numbers: that of each where the text has it, and else line 1.
fn lines_for(alloc: Global, text: &[u8], count: usize) -> Result<Vec<u32>, AllocError>
    ensures { IfOk result (λ lines. length lines.items ≡ count) }
{
    let mut lines = match lines_of_statements(alloc, text)? {
        Some(lines) => lines,
        None => Vec::new(alloc),
    };
    lines.resize(count, 1)?;
    Ok(lines)
}

// Returns for each row how many of its first ticks a chain goes through: the weight of its step, if it is in the chain.
fn through_rows(
    alloc: Global,
    rows: &[Row],
    chain: &[ChainStep],
) -> Result<Option<Vec<u64>>, AllocError>
    ensures { IfOk result (λ found. MatchOption found
        (GoesThrough 0 rows.now chain.now → ⊥)
        (λ through. GoesThrough 0 rows.now chain.now × (through.items ≡ through_from 0 rows.now chain.now))) }
{
    let mut through = Vec::with_capacity(alloc, rows.len())?;
    let mut at = 0;
    for row in 0..rows.len() {
        let weight = weight_at(chain, at, row);
        if weight > rows[row].ticks {
            return Ok(None);
        }
        at = next_at(chain, at, row);
        through.push(u64::from(weight))?;
    }
    if at < chain.len() {
        return Ok(None);
    }
    Ok(Some(through))
}

// Returns the weight of the step at a place, if that is of this row; 0 else.
fn weight_at(chain: &[ChainStep], at: usize, row: usize) -> u32
    ensures { result ≡ weight_on row (drop at chain.now) }
{
    if at < chain.len() && chain[at].row as usize == row {
        chain[at].weight
    } else {
        0
    }
}

// Returns the place after that of the step at a place, if that is of this row; the same place else.
fn next_at(chain: &[ChainStep], at: usize, row: usize) -> usize
    requires { at ≤ length chain.now }
    ensures place { drop result chain.now ≡ steps_after row (drop at chain.now) }
    ensures within { result ≤ length chain.now }
{
    if at < chain.len() && chain[at].row as usize == row {
        at + 1
    } else {
        at
    }
}

// Adds ticks by number up by line.
fn merged(
    alloc: Global,
    lines: &[u32],
    found: &StatementTicks,
) -> Result<Vec<LineTicks>, AllocError>
    requires both { length found.now.ticks.items ≡ length found.now.chain.items }
    requires lines { length lines.now ≡ length found.now.ticks.items }
    requires ticks { sum found.now.ticks.items < 2 ^ 63 }
    requires chain { sum found.now.chain.items < 2 ^ 63 }
    ensures lines { IfOk result (λ told. AreLineTicks lines.now found.now.ticks.items found.now.chain.items told.items) }
    ensures sums { IfOk result (λ told. AddUp (sum found.now.ticks.items) (sum found.now.chain.items) told.items) }
{
    let ends = end_of(lines);
    let ticks = summed(alloc, lines, &found.ticks, ends)?;
    let chain = summed(alloc, lines, &found.chain, ends)?;
    told(alloc, &ticks, &chain)
}

// Returns the number after that of the last line.
fn end_of(lines: &[u32]) -> usize
    ensures few { result ≤ 2 ^ 32 }
    ensures below { All (λ line. line < result) lines.now }
{
    let mut end: usize = 0;
    for line in lines {
        end = end.max(*line as usize + 1);
    }
    end
}

// Returns ticks by line, where these are the lines of the numbers and the ticks by number.
fn summed(alloc: Global, lines: &[u32], ticks: &[u64], ends: usize) -> Result<Vec<u64>, AllocError>
    requires both { length lines.now ≡ length ticks.now }
    requires below { All (λ line. line < ends) lines.now }
    requires few { sum ticks.now < 2 ^ 63 }
    ensures counts { IfOk result (λ counts. AreTicksOf ends (line_charges lines.now ticks.now) counts.items) }
    ensures sum { IfOk result (λ counts. sum counts.items ≡ sum ticks.now) }
{
    let mut counts = vec![in alloc; 0; ends]?;
    for i in 0..lines.len() {
        add(&mut counts, lines[i] as usize, ticks[i]);
    }
    Ok(counts)
}

// Returns the lines that take ticks, rising.
fn told(alloc: Global, ticks: &[u64], chain: &[u64]) -> Result<Vec<LineTicks>, AllocError>
    requires both { length ticks.now ≡ length chain.now }
    requires few { length ticks.now ≤ 2 ^ 32 }
    ensures lines { IfOk result (λ lines. lines.items ≡ lines_from 0 ticks.now chain.now) }
    ensures sums { IfOk result (λ lines. AddUp (sum ticks.now) (sum chain.now) lines.items) }
{
    let mut lines = Vec::new(alloc);
    for line in 0..ticks.len() {
        if ticks[line] > 0 || chain[line] > 0 {
            lines.push(LineTicks {
                line: line as u32,
                ticks: ticks[line],
                chain: chain[line],
            })?;
        }
    }
    Ok(lines)
}
