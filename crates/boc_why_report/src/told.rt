// What is reported of the chain that holds some rows back, above and below it.

ghost use Rattle.std.specs.Prelude.{◌≡◌, ◌++◌, ◌<◌, All, length, IfOk, OnOk};
ghost use Rattle.boc_plans.specs.Chains.{weight_of};
ghost use Rattle.boc_why_report.specs.ChainTexts.{told_chain};
ghost use Rattle.boc_why_report.specs.WhyTexts.{bound_text, busy_text, chain_told, from_text, head_text, least_text, load_text, reason_text, tick_text};
ghost use Rattle.boc_why_report.specs.WhyTexts.{shares_of_chain, timed_end_text, with_shares, workers_word};

use crate::chain::chain_text;
use crate::folded::folded_text;
use crate::lists::{Shares, put_shares};
use boc_names::{Names, text_at};
use boc_order::{Busiest, Least};
use boc_plans::sharing::Sharing;
use boc_text::put_number;
use boc_why::Why;
use std::alloc::{AllocError, Global};

/// When a run was over by some workers that take ticks as time.
#[derive(Clone, Copy, PartialEq, Eq, Debug)]
pub struct TimedEnd {
    /// How many workers there are.
    pub workers: u32,
    /// The tick at which all was over.
    pub tick: u64,
}

/// Appends the numbers at the head to a text: the rows, their work, their span, and the end of a timed run, if it is one. `AllocError` says that memory was
/// refused.
pub fn put_head(text: &mut Vec<u8>, why: &Why, timed: Option<TimedEnd>) -> Result<(), AllocError>
    ensures { OnOk result (text.new.items ≡ text.old.items ++ head_text why.now timed) }
{
    text.extend_from_slice(b"rows ")?;
    put_number(text, why.profile.starts.len() as u64)?;
    text.extend_from_slice(b"   work ")?;
    put_number(text, why.profile.work)?;
    text.extend_from_slice(b"   span ")?;
    put_number(text, why.profile.span)?;
    put_timed_end(text, timed)?;
    text.extend_from_slice(b"\n")?;
    Ok(())
}

// Appends the end of a timed run to a text, where there is one.
fn put_timed_end(text: &mut Vec<u8>, timed: Option<TimedEnd>) -> Result<(), AllocError>
    ensures { OnOk result (text.new.items ≡ text.old.items ++ timed_end_text timed) }
{
    let Some(end) = timed else {
        return Ok(());
    };
    text.extend_from_slice(b"   end ")?;
    put_number(text, end.tick)?;
    text.extend_from_slice(b" on ")?;
    put_number(text, u64::from(end.workers))?;
    text.extend_from_slice(workers_word(end.workers).as_bytes())
}

/// Returns the word after a number of workers.
pub fn workers_word(workers: u32) -> &'static str
    ensures { result.now ≡ workers_word workers }
{
    if workers == 1 { " worker" } else { " workers" }
}

// Returns what a cown is busy with.
fn busy_text(sharing: Sharing) -> &'static str
    ensures { result.now ≡ busy_text sharing }
{
    match sharing {
        Sharing::Exclusive => " is held for ",
        Sharing::SharedReads => " is written for ",
    }
}

// Appends a tick from which on a cown is busy to a text.
fn put_tick(text: &mut Vec<u8>, tick: u64) -> Result<(), AllocError>
    ensures { OnOk result (text.new.items ≡ text.old.items ++ tick_text tick) }
{
    text.extend_from_slice(b", from tick ")?;
    put_number(text, tick)?;
    text.extend_from_slice(b" on")?;
    Ok(())
}

// Appends the tick from which on a cown is busy to a text, where it isn't busy from the start on.
fn put_from(text: &mut Vec<u8>, from: Option<u64>) -> Result<(), AllocError>
    ensures { OnOk result (text.new.items ≡ text.old.items ++ from_text from) }
{
    match from {
        None | Some(0) => Ok(()),
        Some(tick) => put_tick(text, tick),
    }
}

// Appends to a text for how long a cown is busy, and from when on.
fn put_busy(
    text: &mut Vec<u8>,
    names: &Names,
    sharing: Sharing,
    busiest: Busiest,
) -> Result<(), AllocError>
    ensures { OnOk result (text.new.items ≡ text.old.items ++ load_text names.now sharing busiest) }
{
    text.extend_from_slice(text_at(&names.cowns, busiest.cown as usize))?;
    text.extend_from_slice(busy_text(sharing).as_bytes())?;
    put_number(text, busiest.load)?;
    text.extend_from_slice(b" ticks")?;
    put_from(text, busiest.from)
}

// Appends to a text why no order ends sooner.
fn put_reason(
    text: &mut Vec<u8>,
    names: &Names,
    sharing: Sharing,
    spawns: u64,
    busiest: Option<Busiest>,
) -> Result<(), AllocError>
    ensures { OnOk result (text.new.items ≡ text.old.items ++ reason_text names.now sharing spawns busiest) }
{
    match busiest {
        Some(busiest) if busiest.until >= spawns => put_busy(text, names, sharing, busiest),
        _ => text.extend_from_slice(b"their spawns take that long"),
    }
}

// Appends the tick before which no order of the cowns ends to a text.
fn put_bound(text: &mut Vec<u8>, tick: u64) -> Result<(), AllocError>
    ensures { OnOk result (text.new.items ≡ text.old.items ++ bound_text tick) }
{
    text.extend_from_slice(b"lower bound for any order: ")?;
    put_number(text, tick)?;
    text.extend_from_slice(b" (")?;
    Ok(())
}

/// Appends the line of the tick before which no order of the cowns ends to a text: a lower bound, with the cown that is busy until then, or the spawns.
/// `AllocError` says that memory was refused.
pub fn put_least(
    text: &mut Vec<u8>,
    names: &Names,
    sharing: Sharing,
    least: &Least,
) -> Result<(), AllocError>
    ensures { OnOk result (text.new.items ≡ text.old.items ++ least_text names.now sharing least.now) }
{
    put_bound(text, least.tick())?;
    put_reason(text, names, sharing, least.spawns, least.busiest)?;
    text.extend_from_slice(b")\n")
}

// Returns the chain: all of its lines, or folded.
fn told_chain(alloc: Global, names: &Names, all: bool, why: &Why) -> Result<Vec<u8>, AllocError>
    requires there { All (λ s. s.row < length why.now.profile.starts.items) why.now.profile.chain.steps.items }
    requires whole { length why.now.links.items ≡ length why.now.profile.chain.steps.items }
    requires adds_up { weight_of why.now.profile.chain.steps.items ≡ why.now.profile.span }
    ensures { IfOk result (λ text. text.items ≡ told_chain names.now all why.now) }
{
    if all {
        chain_text(alloc, names, why)
    } else {
        folded_text(alloc, names, why)
    }
}

// Appends the shares of the chain that holds some rows back to a text.
fn put_shares_of_chain(
    alloc: Global,
    text: &mut Vec<u8>,
    names: &Names,
    why: &Why,
) -> Result<(), AllocError>
    requires keys { All (λ s. s.key < length why.now.links.items) why.now.by_link.items }
    ensures { OnOk result (text.new.items ≡ text.old.items ++ shares_of_chain names.now why.now) }
{
    let shares = Shares {
        by_def: &why.by_def,
        by_link: &why.by_link,
        links: &why.links,
    };
    put_shares(
        alloc,
        text,
        names,
        b"chain by def",
        b"chain by link",
        &shares,
    )
}

// Appends the text of the chain to another, and its shares, each after an empty line.
fn put_with_shares(
    alloc: Global,
    text: &mut Vec<u8>,
    names: &Names,
    why: &Why,
    chain: &[u8],
) -> Result<(), AllocError>
    requires keys { All (λ s. s.key < length why.now.links.items) why.now.by_link.items }
    ensures { OnOk result (text.new.items ≡ text.old.items ++ with_shares names.now why.now chain.now) }
{
    text.push(b'\n')?;
    text.extend_from_slice(chain)?;
    text.push(b'\n')?;
    put_shares_of_chain(alloc, text, names, why)
}

/// Appends the chain that holds some rows back to a text, step by step, with what each row hands on, and its ticks by def and by link. Where not all of the
/// chain is requested, four or more steps of one def that follow each other are in one line. Each row of the chain has to have a start, each step its link,
/// and each share by link the place of one; and the chain's ticks have to add up to the span. `AllocError` says that memory was refused.
pub fn put_chain(
    alloc: Global,
    text: &mut Vec<u8>,
    names: &Names,
    all: bool,
    why: &Why,
) -> Result<(), AllocError>
    requires there { All (λ s. s.row < length why.now.profile.starts.items) why.now.profile.chain.steps.items }
    requires whole { length why.now.links.items ≡ length why.now.profile.chain.steps.items }
    requires adds_up { weight_of why.now.profile.chain.steps.items ≡ why.now.profile.span }
    requires keys { All (λ s. s.key < length why.now.links.items) why.now.by_link.items }
    ensures { OnOk result (text.new.items ≡ text.old.items ++ chain_told names.now all why.now) }
{
    let chain = told_chain(alloc, names, all, why)?;
    put_with_shares(alloc, text, names, why, &chain)
}
