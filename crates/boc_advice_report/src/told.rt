// All that is reported of why some rows take as long as they do.

ghost use Rattle.std.specs.Prelude.{◌≡◌, ◌++◌, ◌<◌, All, IfOk, IfSome, OnOk, length, option_map};
ghost use Rattle.boc_names.specs.Names.{Text};
ghost use Rattle.boc_plans.specs.Chains.{weight_of};
ghost use Rattle.boc_advice_report.specs.WhyTold.{AreGreedyShares, AreSharesAsked, IsWhyText, advice_part, bounds_part, chain_part, order_line};
ghost use Rattle.boc_advice_report.specs.WhyTold.{shares_title, shares_told, shares_under, verdict_line, workers_line, workers_of};

use crate::candidates::put_candidates;
use crate::order::{OtherOrder, put_other_order};
use crate::together::put_together;
use crate::workers::{ForWorkers, put_count, put_verdict, put_workers};
use boc_names::Names;
use boc_plans::sharing::Sharing;
use boc_remedies::{Advice, GreedyWhy, is_same_chain};
use boc_why::Why;
use boc_why_report::{Shares, TimedEnd, put_chain, put_head, put_least, put_shares};
use std::alloc::{AllocError, Global};

/// What is reported of why some rows take as long as they do.
#[derive(Clone, Copy)]
pub struct WhyTold<'a> {
    /// The chain that holds the rows back.
    pub why: &'a Why,
    /// The chain of the greedy plan, where a number of workers is given.
    pub greedy: &'a Option<GreedyWhy>,
    /// What would move the end forward.
    pub advice: &'a Advice,
    /// An order that ends before the span, if one was found.
    pub order: Option<OtherOrder>,
    /// The end of a timed run, if it is one.
    pub timed: Option<TimedEnd>,
}

// Returns what the rows take by the workers of a greedy plan.
fn for_workers(why: &Why, greedy: &GreedyWhy) -> ForWorkers
    ensures { result ≡ workers_of why.now greedy.now }
{
    ForWorkers {
        p: greedy.p,
        work: why.profile.work,
        span: why.profile.span,
        end: greedy.end,
    }
}

// Returns what is above the shares of a greedy plan's chain.
fn shares_title(alloc: Global, workers: u32) -> Result<Vec<u8>, AllocError>
    ensures { IfOk result (λ text. text.items ≡ shares_title workers) }
{
    let mut title = Vec::new(alloc);
    put_count(&mut title, workers)?;
    title.extend_from_slice(b" by def")?;
    Ok(title)
}

// Appends the shares of a greedy plan's chain to a text, under this title.
fn put_shares_of_greedy(
    alloc: Global,
    text: &mut Vec<u8>,
    names: &Names,
    title: &[u8],
    greedy: &GreedyWhy,
) -> Result<(), AllocError>
    requires { All (λ s. s.key < length greedy.now.links.items) greedy.now.by_link.items }
    ensures { OnOk result (text.new.items ≡ text.old.items ++ shares_under names.now title.now greedy.now) }
{
    let shares = Shares {
        by_def: &greedy.by_def,
        by_link: &greedy.by_link,
        links: &greedy.links,
    };
    put_shares(alloc, text, names, title, b"by link", &shares)
}

// Appends the shares of the greedy plan's chain to a text, after an empty line.
fn put_shares_told(
    alloc: Global,
    text: &mut Vec<u8>,
    names: &Names,
    greedy: &GreedyWhy,
) -> Result<(), AllocError>
    requires { All (λ s. s.key < length greedy.now.links.items) greedy.now.by_link.items }
    ensures { OnOk result (text.new.items ≡ text.old.items ++ shares_told names.now greedy.now) }
{
    let title = shares_title(alloc, greedy.p)?;
    text.push(b'\n')?;
    put_shares_of_greedy(alloc, text, names, &title, greedy)?;
    Ok(())
}

// Appends the shares of the greedy plan's chain to a text, where it is another one than the earliest plan's.
fn put_greedy_shares(
    alloc: Global,
    text: &mut Vec<u8>,
    names: &Names,
    why: &Why,
    greedy: &GreedyWhy,
) -> Result<(), AllocError>
    requires { All (λ s. s.key < length greedy.now.links.items) greedy.now.by_link.items }
    ensures { OnOk result ((shares : Text) × AreGreedyShares names.now why.now greedy.now shares × (text.new.items ≡ text.old.items ++ shares)) }
{
    if is_same_chain(&why.profile.chain.steps, &greedy.steps) {
        return Ok(());
    }
    put_shares_told(alloc, text, names, greedy)
}

// Appends the shares of the greedy plan's chain to a text, with an empty line after them, where there is such a plan.
fn put_shares_asked(
    alloc: Global,
    text: &mut Vec<u8>,
    names: &Names,
    why: &Why,
    greedy: &Option<GreedyWhy>,
) -> Result<(), AllocError>
    requires { IfSome greedy.now (λ g. All (λ s. s.key < length g.links.items) g.by_link.items) }
    ensures { OnOk result ((shares : Text) × AreSharesAsked names.now why.now greedy.now shares × (text.new.items ≡ text.old.items ++ shares)) }
{
    let Some(greedy) = greedy else {
        return Ok(());
    };
    put_greedy_shares(alloc, text, names, why, greedy)?;
    text.push(b'\n')?;
    Ok(())
}

// Appends the line of the workers to a text, where there is a greedy plan.
fn put_workers_line(
    text: &mut Vec<u8>,
    why: &Why,
    greedy: &Option<GreedyWhy>,
) -> Result<(), AllocError>
    ensures { OnOk result (text.new.items ≡ text.old.items ++ workers_line why.now greedy.now) }
{
    match greedy {
        Some(greedy) => put_workers(text, &for_workers(why, greedy)),
        None => Ok(()),
    }
}

// Appends to a text what holds the rows back by the workers of a greedy plan, where there is one.
fn put_verdict_line(
    text: &mut Vec<u8>,
    why: &Why,
    greedy: &Option<GreedyWhy>,
) -> Result<(), AllocError>
    ensures { OnOk result (text.new.items ≡ text.old.items ++ verdict_line why.now greedy.now) }
{
    match greedy {
        Some(greedy) => put_verdict(text, &for_workers(why, greedy)),
        None => Ok(()),
    }
}

// Appends the line of a better order to a text, where one was found.
fn put_order_line(
    alloc: Global,
    text: &mut Vec<u8>,
    names: &Names,
    order: Option<OtherOrder>,
) -> Result<(), AllocError>
    ensures { OnOk result (text.new.items ≡ text.old.items ++ order_line names.now order) }
{
    match order {
        Some(order) => put_other_order(alloc, text, names, order),
        None => Ok(()),
    }
}

// Appends the chain to a text, below the numbers at the head.
fn put_chain_told(
    alloc: Global,
    text: &mut Vec<u8>,
    names: &Names,
    all: bool,
    told: &WhyTold<'_>,
) -> Result<(), AllocError>
    requires there { All (λ s. s.row < length told.now.why.now.profile.starts.items) told.now.why.now.profile.chain.steps.items }
    requires whole { length told.now.why.now.links.items ≡ length told.now.why.now.profile.chain.steps.items }
    requires adds_up { weight_of told.now.why.now.profile.chain.steps.items ≡ told.now.why.now.profile.span }
    requires keys { All (λ s. s.key < length told.now.why.now.links.items) told.now.why.now.by_link.items }
    ensures { OnOk result (text.new.items ≡ text.old.items ++ chain_part names.now all told.now) }
{
    put_head(text, told.why, told.timed)?;
    put_workers_line(text, told.why, told.greedy)?;
    put_chain(alloc, text, names, all, told.why)?;
    Ok(())
}

// Returns for how many workers the greedy plan is, where there is one.
fn workers_asked(greedy: &Option<GreedyWhy>) -> Option<u32>
    ensures { result ≡ option_map (λ g. g.p) greedy.now }
{
    match greedy {
        Some(greedy) => Some(greedy.p),
        None => None,
    }
}

// Appends to a text what would move the end forward.
fn put_advice(
    alloc: Global,
    text: &mut Vec<u8>,
    names: &Names,
    told: &WhyTold<'_>,
) -> Result<(), AllocError>
    ensures { OnOk result (text.new.items ≡ text.old.items ++ advice_part names.now (option_map (λ g. g.p) told.now.greedy.now) told.now.advice.now) }
{
    let workers = workers_asked(told.greedy);
    let advice = told.advice;
    put_candidates(alloc, text, names, workers, advice.now, &advice.candidates)?;
    put_together(alloc, text, names, &advice.together)?;
    Ok(())
}

// Appends to a text what the rows are up against: a lower bound, a better order, and what holds them back by the workers of a greedy plan.
fn put_bounds(
    alloc: Global,
    text: &mut Vec<u8>,
    names: &Names,
    sharing: Sharing,
    told: &WhyTold<'_>,
) -> Result<(), AllocError>
    ensures { OnOk result (text.new.items ≡ text.old.items ++ bounds_part names.now sharing told.now) }
{
    put_least(text, names, sharing, &told.why.least)?;
    put_order_line(alloc, text, names, told.order)?;
    put_verdict_line(text, told.why, told.greedy)?;
    Ok(())
}

/// Returns what is reported of why some rows take as long as they do. First are their work, their span, and the end of a timed run, if it is one; and the
/// chain that holds them back, with its ticks by def and by link. Then comes what would move the end forward. Last are a lower bound for any order on the
/// cowns, and an order that ends before the span, if one was found. Where a number of workers is given it has what the rows take by these, and the ticks of
/// the greedy plan's chain, and it ends with what holds the rows back then. Where not all of the chain is requested, four or more steps of one def that
/// follow each other are in one line. All times are ticks. `AllocError` says that memory was refused.
pub fn why_text(
    alloc: Global,
    names: &Names,
    sharing: Sharing,
    all: bool,
    told: &WhyTold<'_>,
) -> Result<Vec<u8>, AllocError>
    requires there { All (λ s. s.row < length told.now.why.now.profile.starts.items) told.now.why.now.profile.chain.steps.items }
    requires whole { length told.now.why.now.links.items ≡ length told.now.why.now.profile.chain.steps.items }
    requires adds_up { weight_of told.now.why.now.profile.chain.steps.items ≡ told.now.why.now.profile.span }
    requires keys { All (λ s. s.key < length told.now.why.now.links.items) told.now.why.now.by_link.items }
    requires greedy_keys { IfSome told.now.greedy.now (λ g. All (λ s. s.key < length g.links.items) g.by_link.items) }
    ensures { IfOk result (λ text. IsWhyText names.now sharing all told.now text.items) }
{
    let mut text = Vec::new(alloc);
    put_chain_told(alloc, &mut text, names, all, told)?;
    put_shares_asked(alloc, &mut text, names, told.why, told.greedy)?;
    put_advice(alloc, &mut text, names, told)?;
    put_bounds(alloc, &mut text, names, sharing, told)?;
    Ok(text)
}
