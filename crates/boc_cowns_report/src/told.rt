// All that is reported.

ghost use Rattle.std.specs.Prelude.{◌≡◌, ◌++◌, ◌<◌, ◌^◌, All, IfOk, IfSome, OnOk};
ghost use Rattle.boc_cowns_report.specs.CownsTexts.{IsCownsText, bounds_part, busiest_text, held_text, judged_told, lines_told, load_part};
ghost use Rattle.boc_cowns_report.specs.CownsTexts.{many_text, more_text, order_told, plain_told, span_text, workers_told};

use crate::judged::JudgedCown;
use crate::lines::{judged_of, put_cowns_table, put_judged_table, told_of};
use crate::verdict::{put_shared, put_verdict};
use boc_advice_report::{ForWorkers, OtherOrder, put_other_order, put_together, put_workers};
use boc_cowns::{HotCown, HotCowns};
use boc_names::Names;
use boc_plans::sharing::Sharing;
use boc_remedies::Together;
use boc_text::put_number;
use boc_why_report::put_least;
use std::alloc::{AllocError, Global};

// Appends to a text how many more cowns there are, where there are several.
fn put_many(text: &mut Vec<u8>, count: usize) -> Result<(), AllocError>
    ensures { OnOk result (text.new.items ≡ text.old.items ++ many_text count) }
{
    text.extend_from_slice(b".. and ")?;
    put_number(text, count as u64)?;
    text.extend_from_slice(b" more cowns\n")?;
    Ok(())
}

// Appends to a text how many more cowns there are.
fn put_more(text: &mut Vec<u8>, count: usize) -> Result<(), AllocError>
    ensures { OnOk result (text.new.items ≡ text.old.items ++ more_text count) }
{
    match count {
        0 => Ok(()),
        1 => text.extend_from_slice(b".. and 1 more cown\n"),
        _ => put_many(text, count),
    }
}

// Appends to a text how long a cown is held.
fn put_held(text: &mut Vec<u8>, own: HotCown) -> Result<(), AllocError>
    ensures { OnOk result (text.new.items ≡ text.old.items ++ held_text own) }
{
    text.extend_from_slice(b"; busiest cown ")?;
    put_number(text, own.held)?;
    Ok(())
}

// Appends to a text how long the first cown is held, if any.
fn put_busiest(text: &mut Vec<u8>, cowns: &[HotCown]) -> Result<(), AllocError>
    ensures { OnOk result (text.new.items ≡ text.old.items ++ busiest_text cowns.now) }
{
    match cowns {
        [] => Ok(()),
        [own, ..] => put_held(text, *own),
    }
}

// Appends the spans to a text, and how long the first cown is held.
fn put_span(text: &mut Vec<u8>, hot: &HotCowns) -> Result<(), AllocError>
    ensures { OnOk result (text.new.items ≡ text.old.items ++ span_text hot.now) }
{
    text.extend_from_slice(b"span ")?;
    put_number(text, hot.span)?;
    text.extend_from_slice(b"; by spawns alone ")?;
    put_number(text, hot.least.spawns)?;
    put_busiest(text, &hot.cowns)?;
    text.extend_from_slice(b"\n")
}

/// What is reported of the cowns that hold some rows back.
#[derive(Clone, Copy)]
pub struct CownsTold<'a> {
    /// The cowns, and what of the span they cost.
    pub hot: &'a HotCowns,
    /// What the rows take by some workers, with the cowns in the order of the ends without them, where a number of workers is given.
    pub judged: Option<JudgedTold<'a>>,
    /// Several cowns at once; nothing where the chain hands none on.
    pub together: &'a [Together],
    /// An order that ends before the span, if one was found.
    pub order: Option<OtherOrder>,
}

/// What is reported for a number of workers.
#[derive(Clone, Copy)]
pub struct JudgedTold<'a> {
    pub workers: ForWorkers,
    /// The cowns, those first without which the greedy plan ends soonest.
    pub cowns: &'a [JudgedCown],
}

// Appends a line for each cown that is reported to a text, and how many more there are.
fn put_plain(
    alloc: Global,
    text: &mut Vec<u8>,
    names: &Names,
    most: Option<u32>,
    hot: &HotCowns,
) -> Result<(), AllocError>
    requires low { All (λ c. c.held < 2 ^ 56) hot.now.cowns.items }
    requires some { 0 < hot.now.span }
    ensures { OnOk result (text.new.items ≡ text.old.items ++ plain_told names.now most hot.now) }
{
    put_cowns_table(alloc, text, names, most, hot)?;
    let told = told_of(most, &hot.cowns).len();
    put_more(text, hot.cowns.len().saturating_sub(told))?;
    Ok(())
}

// The same, with the ends of the greedy plans without the cowns.
fn put_judged(
    alloc: Global,
    text: &mut Vec<u8>,
    names: &Names,
    most: Option<u32>,
    hot: &HotCowns,
    cowns: &[JudgedCown],
) -> Result<(), AllocError>
    requires low { All (λ own. own.hot.held < 2 ^ 56) cowns.now }
    requires some { 0 < hot.now.span }
    ensures { OnOk result (text.new.items ≡ text.old.items ++ judged_told names.now most hot.now cowns.now) }
{
    put_judged_table(alloc, text, names, most, hot.span, cowns)?;
    let told = judged_of(most, cowns).len();
    put_more(text, hot.cowns.len().saturating_sub(told))?;
    Ok(())
}

// The same of either, whichever is requested.
fn put_cowns(
    alloc: Global,
    text: &mut Vec<u8>,
    names: &Names,
    most: Option<u32>,
    told: &CownsTold<'_>,
) -> Result<(), AllocError>
    requires low { All (λ c. c.held < 2 ^ 56) told.now.hot.now.cowns.items }
    requires judged_low { IfSome told.now.judged (λ j. All (λ own. own.hot.held < 2 ^ 56) j.cowns.now) }
    requires some { 0 < told.now.hot.now.span }
    ensures { OnOk result (text.new.items ≡ text.old.items ++ lines_told names.now most told.now.hot.now told.now.judged) }
{
    match told.judged {
        Some(judged) => put_judged(alloc, text, names, most, told.hot, judged.cowns),
        None => put_plain(alloc, text, names, most, told.hot),
    }
}

// Appends the cowns to a text, what several at once save, the span, and what holds the rows back.
fn put_load_part(
    alloc: Global,
    text: &mut Vec<u8>,
    names: &Names,
    most: Option<u32>,
    told: &CownsTold<'_>,
) -> Result<(), AllocError>
    requires low { All (λ c. c.held < 2 ^ 56) told.now.hot.now.cowns.items }
    requires judged_low { IfSome told.now.judged (λ j. All (λ own. own.hot.held < 2 ^ 56) j.cowns.now) }
    requires some { 0 < told.now.hot.now.span }
    ensures { OnOk result (text.new.items ≡ text.old.items ++ load_part names.now most told.now) }
{
    put_cowns(alloc, text, names, most, told)?;
    put_together(alloc, text, names, told.together)?;
    put_span(text, told.hot)?;
    put_verdict(text, names, told.hot)?;
    text.extend_from_slice(b"\n")?;
    Ok(())
}

// Appends the line of a better order to a text, where one was found.
fn put_order_line(
    alloc: Global,
    text: &mut Vec<u8>,
    names: &Names,
    order: Option<OtherOrder>,
) -> Result<(), AllocError>
    ensures { OnOk result (text.new.items ≡ text.old.items ++ order_told names.now order) }
{
    match order {
        Some(order) => put_other_order(alloc, text, names, order),
        None => Ok(()),
    }
}

// Appends to a text what the rows are up against: a lower bound, a better order, some workers, and what shared reads would save.
fn put_bounds(
    alloc: Global,
    text: &mut Vec<u8>,
    names: &Names,
    sharing: Sharing,
    told: &CownsTold<'_>,
) -> Result<(), AllocError>
    ensures { OnOk result (text.new.items ≡ text.old.items ++ bounds_part names.now sharing told.now) }
{
    put_least(text, names, sharing, &told.hot.least)?;
    put_order_line(alloc, text, names, told.order)?;
    put_for_workers(text, told)?;
    put_shared(text, names, sharing, told.hot)?;
    Ok(())
}

// Appends to a text what the rows take by some workers, and what holds them back then.
fn put_for_workers(text: &mut Vec<u8>, told: &CownsTold<'_>) -> Result<(), AllocError>
    ensures { OnOk result (text.new.items ≡ text.old.items ++ workers_told told.now.judged) }
{
    match told.judged {
        Some(judged) => {
            put_workers(text, &judged.workers)?;
            boc_advice_report::put_verdict(text, &judged.workers)
        }
        None => Ok(()),
    }
}

/// Returns what is reported of the cowns that hold some rows back. First are a line for each, or for only the first ones, and what several at once save. Then
/// come the span, and what of it the spawns alone need; and whether these are what holds the rows back, or else a cown that is held for so long that it is
/// the load, or else the order. Last are a lower bound for any order, and an order that ends before the span, if one was found. Where a number of workers is
/// given it has what the rows take by these, and what holds them back then. Where reads are not shared it ends with what shared reads would save. All times
/// are ticks. `AllocError` says that memory was refused.
pub fn cowns_text(
    alloc: Global,
    names: &Names,
    sharing: Sharing,
    most: Option<u32>,
    told: &CownsTold<'_>,
) -> Result<Vec<u8>, AllocError>
    requires low { All (λ c. c.held < 2 ^ 56) told.now.hot.now.cowns.items }
    requires judged_low { IfSome told.now.judged (λ j. All (λ own. own.hot.held < 2 ^ 56) j.cowns.now) }
    requires some { 0 < told.now.hot.now.span }
    ensures { IfOk result (λ text. IsCownsText names.now sharing most told.now text.items) }
{
    let mut text = Vec::new(alloc);
    put_load_part(alloc, &mut text, names, most, told)?;
    put_bounds(alloc, &mut text, names, sharing, told)?;
    Ok(text)
}
