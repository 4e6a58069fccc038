// The answer on top of a page: what holds the run back, its numbers, and what would help.

use crate::columns::percent;
use crate::curve_lines::speed_up;
use crate::html::{
    Head, Meter, close_table, open_named, open_table, put_cell, put_grouped, put_html,
    put_hundredths, put_many, put_named, put_part, put_percent, put_saved,
};
use crate::page::Page;
use crate::written::Written;
use boc_advice_report::{put_families, put_remedy};
use boc_names::text_at;
use boc_page::MOST_LISTED;
use boc_remedies::{Candidate, Together, is_same_chain};
use boc_why::{Link, Share};
use boc_why_report::link_text;
use std::alloc::{AllocError, Global};

// How many shares of a chain are listed however small they are.
const FEW_LISTED: usize = 5;

// The columns of the candidates, of several cowns at once, and of the shares of a chain.
fn candidates_heads() -> [Head; 5] {
    [
        Head::word("change"),
        Head::number("end", "the end of the greedy plan"),
        Head::number("less", "by how much the greedy plan ends sooner"),
        Head::number("span", "the end of the earliest plan"),
        Head::number("less", "by how much the span is less"),
    ]
}

fn sets_heads() -> [Head; 3] {
    [
        Head::word("without"),
        Head::number("end without", "the end of the greedy plan"),
        Head::number("span without", "the end of the earliest plan"),
    ]
}

fn by_def_heads() -> [Head; 4] {
    [
        Head::word("def"),
        Head::number("ticks", ""),
        Head::number("rows", ""),
        Head::number("of all", "what part of the chain that is"),
    ]
}

fn by_link_heads() -> [Head; 4] {
    [
        Head::word("link"),
        Head::number("ticks", ""),
        Head::number("links", ""),
        Head::number("of all", "what part of the chain that is"),
    ]
}

/// What boc says of a run, a line each; an empty one is left out.
#[derive(Drop)]
pub struct Sentences {
    /// What holds the rows back by the workers of the greedy plan.
    pub workers: Vec<u8>,
    /// What holds them back of cowns and spawns.
    pub cowns: Vec<u8>,
    /// The lower bound for any order.
    pub least: Vec<u8>,
    /// A better order.
    pub order: Vec<u8>,
    /// What shared reads would save.
    pub reads: Vec<u8>,
    /// When the timed run ended, or that it has another span.
    pub timed: Vec<u8>,
}

/// Appends the answer to a text.
pub(crate) fn put_answer(
    alloc: Global,
    text: &mut Written,
    page: &Page<'_>,
) -> Result<(), AllocError> {
    put_verdict(text, page);
    put_tiles(text, page);
    put_lead(alloc, text, page)?;
    text.put("<div class=\"columns\">\n");
    put_candidates(alloc, text, page)?;
    let why = &page.found.why;
    let shares = Shares {
        by_def: &why.by_def,
        by_link: &why.by_link,
        links: &why.links,
        whole: why.profile.span,
        def_caption: "The chain by def",
        link_caption: "The chain by link",
    };
    put_shares(alloc, text, page, &shares)?;
    put_sets(alloc, text, page)?;
    put_greedy_shares(alloc, text, page)?;
    text.put("</div>\n");
    Ok(())
}

// Appends a line of what boc says to a text: the word before its colon, if it has one, is a badge.
fn put_judged(text: &mut Written, line: &[u8]) {
    let line = line.trim_ascii();
    let colon = line.iter().position(|byte| *byte == b':').unwrap_or(0);
    text.put("<p><b class=\"badge\">");
    put_html(text, &line[..colon.min(line.len())]);
    text.put("</b><span>");
    let rest = colon.saturating_add(1).min(line.len());
    put_html(text, line[rest..].trim_ascii());
    text.put("</span></p>\n");
}

// Appends a line of what boc says to a text, where there is one.
fn put_said(text: &mut Written, line: &[u8]) {
    let line = line.trim_ascii();
    if line.is_empty() {
        return;
    }
    text.put("<p class=\"more\">");
    put_html(text, line);
    text.put("</p>\n");
}

// Appends what holds the run back to a text.
fn put_verdict(text: &mut Written, page: &Page<'_>) {
    let said = page.sentences;
    text.put("<div class=\"verdict\">\n<h2>What holds this run back on ");
    put_many(text, u64::from(page.greedy.p), "worker");
    text.put("</h2>\n");
    put_judged(text, &said.workers);
    put_said(text, b"With a worker for each row:");
    put_judged(text, &said.cowns);
    put_said(text, &said.least);
    put_said(text, &said.order);
    put_said(text, &said.reads);
    put_said(text, &said.timed);
    text.put("</div>\n");
}

// Appends the begin of a tile to a text, up to its number.
fn open_tile(text: &mut Written, id: &str, name: &str) {
    text.put("<div class=\"tile\" id=\"");
    text.put(id);
    text.put("\"><span>");
    text.put(name);
    text.put("</span><b>");
}

// Appends the numbers of a run to a text.
fn put_tiles(text: &mut Written, page: &Page<'_>) {
    let subject = page.subject;
    text.put("<div class=\"tiles\">\n");
    open_tile(text, "t-work", "work");
    put_grouped(text, subject.work);
    text.put("</b><small>ticks of ");
    put_many(text, subject.count() as u64, "behaviour");
    text.put("</small></div>\n");
    open_tile(text, "t-span", "span");
    put_grouped(text, subject.span);
    text.put("</b><small>ticks, with a worker for each behaviour</small></div>\n");
    open_tile(text, "t-parallel", "parallelism");
    put_hundredths(text, speed_up(subject.work, subject.span));
    text.put("</b><small>work / span: workers busy at most</small></div>\n");
    put_end_tile(text, page);
    text.put("</div>\n");
}

// Appends the end of the greedy plan to a text.
fn put_end_tile(text: &mut Written, page: &Page<'_>) {
    let workers = u64::from(page.greedy.p);
    let end = page.greedy.ends_at;
    text.put("<div class=\"tile\" id=\"t-end\"><span>");
    put_many(text, workers, "worker");
    text.put(if workers == 1 { " ends at" } else { " end at" });
    text.put("</span><b>");
    put_grouped(text, end);
    text.put("</b><small>least ");
    put_grouped(text, least_of(page));
    text.put(", speed-up ");
    put_hundredths(text, speed_up(page.subject.work, end));
    text.put(", busy ");
    put_percent(text, page.subject.work, workers.saturating_mul(end));
    text.put("</small></div>\n");
}

// Returns the tick before which no plan for the workers ends.
fn least_of(page: &Page<'_>) -> u64 {
    let share = page.subject.work.div_ceil(u64::from(page.greedy.p.max(1)));
    share.max(page.subject.span)
}

// Appends to a text what the chain goes through, and what limits the greedy plan.
fn put_lead(alloc: Global, text: &mut Written, page: &Page<'_>) -> Result<(), AllocError> {
    let why = &page.found.why;
    let span = why.profile.span;
    text.put("<p class=\"lead\">The chain (the critical path) goes through ");
    put_grouped(text, why.profile.chain.steps.len() as u64);
    text.put(" of ");
    put_many(text, page.subject.count() as u64, "behaviour");
    if let (Some(def), Some(link)) = (why.by_def.first(), why.by_link.first()) {
        text.put(": ");
        put_heaviest_def(text, page, *def, span);
        text.put("the heaviest kind of link is <b>");
        put_link(alloc, text, page, &why.links, *link)?;
        text.put("</b> (");
        put_percent(text, link.ticks, span);
        text.put(")");
    }
    text.put(". The greedy plan for ");
    put_many(text, u64::from(page.greedy.p), "worker");
    text.put(" ends no later than its bound of ");
    put_grouped(text, page.greedy.bound);
    text.put("; no plan for as many ends before ");
    put_grouped(text, least_of(page));
    text.put(".</p>\n");
    Ok(())
}

// Appends the def through which most of the chain goes to a text, if that is a part to speak of.
fn put_heaviest_def(text: &mut Written, page: &Page<'_>, def: Share, span: u64) {
    if percent(def.ticks, span) == 0 {
        return;
    }
    text.put("<b>");
    put_percent(text, def.ticks, span);
    text.put(" of it through ");
    put_html(
        text,
        text_at(&page.subject.names.def_names, def.key as usize),
    );
    text.put("</b>, and ");
}

// Appends the candidates to a text.
fn put_candidates(alloc: Global, text: &mut Written, page: &Page<'_>) -> Result<(), AllocError> {
    let mut caption = String::from_str(alloc, "What each change would gain on ")?;
    let mut count = Written::new(alloc);
    put_many(&mut count, u64::from(page.greedy.p), "worker");
    for byte in &count.into_text()? {
        caption.push(char::from(*byte))?;
    }
    open_table(text, caption.as_str(), &candidates_heads());
    let candidates = &page.found.advice.candidates;
    for (place, own) in candidates.iter().take(MOST_LISTED).enumerate() {
        put_candidate(alloc, text, page, place as u64, own)?;
    }
    close_table(text);
    Ok(())
}

// Appends the line of a candidate to a text.
fn put_candidate(
    alloc: Global,
    text: &mut Written,
    page: &Page<'_>,
    place: u64,
    own: &Candidate,
) -> Result<(), AllocError> {
    let now = page.found.advice.now;
    let mut name = Vec::new(alloc);
    put_remedy(&mut name, &page.subject.names, &own.remedy)?;
    text.put("<tr>");
    put_named(text, "try", place, &name);
    put_cell(text, own.ends.judged());
    put_saved(text, now.judged(), own.ends.judged());
    put_cell(text, own.ends.span);
    put_saved(text, now.span, own.ends.span);
    text.put("</tr>\n");
    Ok(())
}

// Appends several cowns at once to a text, where there are any.
fn put_sets(alloc: Global, text: &mut Written, page: &Page<'_>) -> Result<(), AllocError> {
    let together = &page.found.advice.together;
    if together.is_empty() {
        return Ok(());
    }
    open_table(text, "Several cowns at once", &sets_heads());
    for (place, own) in together.iter().take(MOST_LISTED).enumerate() {
        put_set(alloc, text, page, place as u64, own)?;
    }
    close_table(text);
    Ok(())
}

// Appends the line of several cowns to a text.
fn put_set(
    alloc: Global,
    text: &mut Written,
    page: &Page<'_>,
    place: u64,
    own: &Together,
) -> Result<(), AllocError> {
    let mut name = Vec::new(alloc);
    match &own.families {
        Some(families) => put_families(&mut name, &page.subject.names, families.as_slice())?,
        None => name.extend_from_slice(b"every cown")?,
    }
    text.put("<tr>");
    put_named(text, "set", place, &name);
    put_cell(text, own.ends.judged());
    put_cell(text, own.ends.span);
    text.put("</tr>\n");
    Ok(())
}

/// The shares of a chain by def and by link.
#[derive(Clone, Copy)]
struct Shares<'a> {
    by_def: &'a [Share],
    by_link: &'a [Share],
    links: &'a [Link],
    // The ticks of the whole chain.
    whole: u64,
    // What is above its shares by def and by link.
    def_caption: &'static str,
    link_caption: &'static str,
}

// Returns the shares that are listed: those of at least a percent of the whole, and the first ones in any case.
fn listed(shares: &[Share], whole: u64) -> &[Share] {
    let count = shares
        .iter()
        .take(MOST_LISTED)
        .take_while(|share| percent(share.ticks, whole) > 0)
        .count();
    &shares[..count.max(FEW_LISTED).min(shares.len())]
}

// Appends the shares of a chain to a text, each under its caption.
fn put_shares(
    alloc: Global,
    text: &mut Written,
    page: &Page<'_>,
    shares: &Shares<'_>,
) -> Result<(), AllocError> {
    open_table(text, shares.def_caption, &by_def_heads());
    for share in listed(shares.by_def, shares.whole) {
        put_def_share(text, page, *share, shares.whole);
    }
    close_table(text);
    open_table(text, shares.link_caption, &by_link_heads());
    for share in listed(shares.by_link, shares.whole) {
        text.put("<tr><td>");
        put_link(alloc, text, page, shares.links, *share)?;
        text.put("</td>");
        put_share(text, *share, shares.whole);
    }
    close_table(text);
    Ok(())
}

// Appends the numbers of a share to a text.
fn put_share(text: &mut Written, share: Share, whole: u64) {
    put_cell(text, share.ticks);
    put_cell(text, u64::from(share.steps));
    put_part(text, share.ticks, whole, Meter::Chain);
    text.put("</tr>\n");
}

// Appends the share of a def to a text.
fn put_def_share(text: &mut Written, page: &Page<'_>, share: Share, whole: u64) {
    let name = text_at(&page.subject.names.def_names, share.key as usize);
    text.put("<tr>");
    match page.place_of(name) {
        Some(place) => open_named(text, "def", place as u64),
        None => text.put("<td>"),
    }
    put_html(text, name);
    text.put("</td>");
    put_share(text, share, whole);
}

// Appends what the links of a share are called to a text.
fn put_link(
    alloc: Global,
    text: &mut Written,
    page: &Page<'_>,
    links: &[Link],
    share: Share,
) -> Result<(), AllocError> {
    if let Some(link) = links.get(share.key as usize) {
        put_html(text, &link_text(alloc, &page.subject.names, link)?);
    }
    Ok(())
}

// Appends the shares of the greedy plan's chain to a text, where that is another chain.
fn put_greedy_shares(alloc: Global, text: &mut Written, page: &Page<'_>) -> Result<(), AllocError> {
    let Some(greedy) = &page.found.greedy else {
        return Ok(());
    };
    if is_same_chain(&page.found.why.profile.chain.steps, &greedy.steps) {
        return Ok(());
    }
    let shares = Shares {
        by_def: &greedy.by_def,
        by_link: &greedy.by_link,
        links: &greedy.links,
        whole: greedy.end,
        def_caption: "The greedy plan's chain by def",
        link_caption: "The greedy plan's chain by link",
    };
    put_shares(alloc, text, page, &shares)
}
