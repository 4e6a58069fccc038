// The whole block.

ghost use Rattle.std.specs.Prelude.{◌≡◌, ◌++◌, List, IfOk, OnOk, map, option_map};
ghost use Rattle.boc_names.specs.Names.{Text};
ghost use Rattle.boc_page.specs.Columns.{AreArgs};
ghost use Rattle.boc_page.specs.Blocks.{IsBlock, IsInert, advice_part, busiest, head_part, line_numbers, names_part};
ghost use Rattle.boc_page.specs.Blocks.{plans_part, program_part, rows_part, shared_text};

use crate::advice::{cown_table, put_candidates};
use crate::defs::{Defs, args};
use crate::json::{
    put_key, put_lists_at, put_number_at, put_numbers_at, put_string, put_string_at, put_strings_at,
};
use crate::plans::{chain_rows, curve, widened};
use crate::rows::{faults, holds, offsets, parents, ticks, wrote};
use boc_cowns::HotCowns;
use boc_greedy::{CurvePoint, Greedy};
use boc_names::Names;
use boc_order::Profile;
use boc_plans::sharing::Sharing;
use boc_remedies::Candidate;
use boc_runs::rows::Row;
use boc_text::put_number;
use std::alloc::{AllocError, Global};

/// The ticks of a line of the program: those of all rows, and those that the chain goes through.
#[derive(Clone, Copy, Debug)]
pub struct LineTicks {
    /// The number of the line, from 1.
    pub line: u32,
    pub ticks: u64,
    pub chain: u64,
}

/// What a data block is made of. All times are ticks.
#[derive(Clone, Copy)]
pub struct Block<'a> {
    /// The name of the file.
    pub title: &'a [u8],
    /// How the program was run.
    pub run: &'a [u8],
    pub sharing: Sharing,
    pub rows: &'a [Row],
    pub names: &'a Names,
    pub defs: &'a Defs,
    pub profile: &'a Profile,
    pub greedy: &'a Greedy,
    pub curve: &'a [CurvePoint],
    pub candidates: &'a [Candidate],
    pub hot: &'a HotCowns,
    /// The lines on the lower bound, on what holds the rows back, and on shared reads.
    pub least: &'a [u8],
    pub verdict: &'a [u8],
    pub reads: &'a [u8],
    /// The text of the program, where the run is of one.
    pub source: Option<&'a [u8]>,
    pub lines: &'a [LineTicks],
}

// Returns whether reads are shared, as JSON.
fn shared_text(sharing: Sharing) -> &'static str
    ensures { result.now ≡ shared_text sharing }
{
    match sharing {
        Sharing::Exclusive => "false",
        Sharing::SharedReads => "true",
    }
}

// Appends the numbers at the head to a text.
#[tactic(auto, unfolding(crate::specs::Blocks::head_part))]
fn put_head(text: &mut Vec<u8>, block: &Block<'_>) -> Result<(), AllocError>
    ensures { OnOk result (text.new.items ≡ text.old.items ++ head_part block.now) }
{
    text.extend_from_slice(b"{\"format\":1")?;
    put_string_at(text, b"title", block.title)?;
    put_string_at(text, b"run", block.run)?;
    put_key(text, b"shared")?;
    text.extend_from_slice(shared_text(block.sharing).as_bytes())?;
    put_number_at(text, b"p", u64::from(block.greedy.p))?;
    put_number_at(text, b"work", block.profile.work)?;
    put_number_at(text, b"span", block.profile.span)?;
    put_number_at(text, b"end", block.greedy.ends_at)?;
    put_number_at(text, b"bound", block.greedy.bound)
}

// Appends the names of defs and cowns, and of each row its def and what follows that, to a text.
#[tactic(auto, unfolding(crate::specs::Blocks::names_part))]
fn put_names(alloc: Global, text: &mut Vec<u8>, block: &Block<'_>) -> Result<(), AllocError>
    ensures { OnOk result ((args : List Text) × AreArgs block.now.names.now args × (text.new.items ≡ text.old.items ++ names_part block.now args)) }
{
    put_strings_at(text, b"defs", &block.defs.names)?;
    put_strings_at(text, b"cowns", &block.names.cowns)?;
    put_numbers_at(text, b"def", &block.defs.of_rows)?;
    put_strings_at(text, b"args", &args(alloc, block.names)?)
}

// Appends the columns of the rows to a text.
#[tactic(auto, unfolding(crate::specs::Blocks::rows_part))]
fn put_rows(alloc: Global, text: &mut Vec<u8>, rows: &[Row]) -> Result<(), AllocError>
    ensures { OnOk result (text.new.items ≡ text.old.items ++ rows_part rows.now) }
{
    put_numbers_at(text, b"parent", &parents(alloc, rows)?)?;
    put_numbers_at(text, b"offset", &offsets(alloc, rows)?)?;
    put_numbers_at(text, b"ticks", &ticks(alloc, rows)?)?;
    put_lists_at(text, b"holds", &holds(alloc, rows)?)?;
    put_numbers_at(text, b"wrote", &wrote(alloc, rows)?)?;
    put_lists_at(text, b"faults", &faults(alloc, rows)?)
}

// Appends the plans, the chain and the curve to a text.
#[tactic(auto, unfolding(crate::specs::Blocks::plans_part))]
fn put_plans(alloc: Global, text: &mut Vec<u8>, block: &Block<'_>) -> Result<(), AllocError>
    ensures { OnOk result (text.new.items ≡ text.old.items ++ plans_part block.now) }
{
    put_numbers_at(text, b"start", &block.profile.starts)?;
    put_numbers_at(text, b"greedyStart", &block.greedy.starts)?;
    put_numbers_at(text, b"worker", &widened(alloc, &block.greedy.workers)?)?;
    put_numbers_at(
        text,
        b"chain",
        &chain_rows(alloc, &block.profile.chain.steps)?,
    )?;
    put_lists_at(text, b"curve", &curve(alloc, block.curve)?)
}

// Returns for how long the cown is held that is held longest; 0 where there is none.
fn busiest(hot: &HotCowns) -> u64
    ensures { result ≡ busiest hot.now.cowns.items }
{
    match hot.cowns.first() {
        Some(own) => own.held,
        None => 0,
    }
}

// Appends what would help, and what cowns cost, to a text.
#[tactic(auto, unfolding(crate::specs::Blocks::advice_part))]
fn put_advice(alloc: Global, text: &mut Vec<u8>, block: &Block<'_>) -> Result<(), AllocError>
    ensures { OnOk result (text.new.items ≡ text.old.items ++ advice_part block.now) }
{
    let cowns = cown_table(alloc, block.names.cowns.len(), block.hot)?;
    put_candidates(alloc, text, block.names, block.candidates)?;
    put_string_at(text, b"least", block.least)?;
    put_string_at(text, b"verdict", block.verdict)?;
    put_string_at(text, b"reads", block.reads)?;
    put_number_at(text, b"spawnsAlone", block.hot.least.spawns)?;
    put_number_at(text, b"busiest", busiest(block.hot))?;
    put_lists_at(text, b"cownTable", &cowns)
}

// Returns of each line its number and its ticks.
fn line_numbers(alloc: Global, lines: &[LineTicks]) -> Result<Vec<Vec<u64>>, AllocError>
    ensures { IfOk result (λ column. map (λ l. l.items) column.items ≡ map line_numbers lines.now) }
{
    let mut column = Vec::with_capacity(alloc, lines.len())?;
    for own in lines {
        column.push(Vec::from_slice(alloc, &[u64::from(own.line), own.ticks, own.chain])?)?;
    }
    Ok(column)
}

// Appends the text of the program and the ticks of its lines to a text.
#[tactic(auto, unfolding(crate::specs::Blocks::program_part))]
fn put_program(alloc: Global, text: &mut Vec<u8>, block: &Block<'_>) -> Result<(), AllocError>
    ensures { OnOk result (text.new.items ≡ text.old.items ++ program_part (option_map (λ s. s.now) block.now.source) block.now.lines.now) }
{
    put_key(text, b"source")?;
    match block.source {
        Some(source) => put_string(text, source)?,
        None => text.extend_from_slice(b"null")?,
    }
    put_lists_at(text, b"lines", &line_numbers(alloc, block.lines)?)
}

/// Returns the data block of a page. `AllocError` says that memory was refused.
pub fn data_block(alloc: Global, block: &Block<'_>) -> Result<Vec<u8>, AllocError>
    ensures block { IfOk result (λ text. IsBlock block.now (option_map (λ s. s.now) block.now.source) text.items) }
    ensures inert { IfOk result (λ text. IsInert text.items) }
{
    let mut text = Vec::new(alloc);
    put_head(&mut text, block)?;
    put_names(alloc, &mut text, block)?;
    put_rows(alloc, &mut text, block.rows)?;
    put_plans(alloc, &mut text, block)?;
    put_advice(alloc, &mut text, block)?;
    put_program(alloc, &mut text, block)?;
    text.push(b'}')?;
    Ok(text)
}
