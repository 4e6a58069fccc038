// The tables of a page: cowns, defs, and the chain in text.

use crate::def_costs::DefCosts;
use crate::html::{
    Head, Meter, close_table, open_table, put_cell, put_lines, put_many, put_named, put_part,
};
use crate::page::Page;
use crate::written::Written;
use boc_names::text_at;
use std::alloc::{AllocError, Global};

// The most defs that are listed, and the most lines of the chain.
const MOST_DEFS: usize = 100;

const MOST_LINES: usize = 60;

fn cowns_heads() -> [Head; 9] {
    [
        Head::word("cown"),
        Head::number("rows", "how many rows have it"),
        Head::number("wrote", "how many rows wrote it"),
        Head::number("held", "the ticks for which one row alone has it"),
        Head::number("of span", "for what part of the span it is held"),
        Head::number(
            "waited",
            "the ticks that rows wait for the row that hands it to them",
        ),
        Head::number("chain", "the ticks of the chain's rows that hand it on"),
        Head::number("without", "the span if it imposed no order"),
        Head::number(
            "end without",
            "the end of the greedy plan if it imposed no order",
        ),
    ]
}

fn defs_heads() -> [Head; 6] {
    [
        Head::word("def"),
        Head::number("rows", ""),
        Head::number("ticks", "the ticks of its rows"),
        Head::number("of work", ""),
        Head::number(
            "of chain",
            "what part of the span the chain goes through its rows",
        ),
        Head::number(
            "waited",
            "the ticks from the spawns of its rows to their starts",
        ),
    ]
}

/// Appends the tables to a text.
pub(crate) fn put_tables(
    alloc: Global,
    text: &mut Written,
    page: &Page<'_>,
    costs: &[DefCosts],
) -> Result<(), AllocError> {
    text.put("<div class=\"columns two\">\n");
    put_cowns(text, page);
    put_defs(alloc, text, page, costs)?;
    text.put("</div>\n");
    put_chain(text, page);
    Ok(())
}

// Appends the cowns to a text, in the order of `boc cowns -p`.
fn put_cowns(text: &mut Written, page: &Page<'_>) {
    let subject = page.subject;
    open_table(text, "Cowns", &cowns_heads());
    for own in page.judged {
        let hot = own.hot;
        text.put("<tr>");
        put_named(
            text,
            "cown",
            u64::from(hot.cown),
            subject.cown_name(hot.cown),
        );
        put_cell(text, u64::from(hot.rows));
        put_cell(text, u64::from(hot.wrote));
        put_cell(text, hot.held);
        put_part(text, hot.held, subject.span, Meter::Plain);
        for ticks in [hot.waited, hot.chain, hot.without, own.end] {
            put_cell(text, ticks);
        }
        text.put("</tr>\n");
    }
    close_table(text);
}

// Appends the defs to a text, the one with the most ticks first.
fn put_defs(
    alloc: Global,
    text: &mut Written,
    page: &Page<'_>,
    costs: &[DefCosts],
) -> Result<(), AllocError> {
    let mut order = Vec::with_capacity(alloc, costs.len())?;
    for (place, own) in costs.iter().enumerate() {
        if own.rows > 0 {
            order.push((u64::MAX - own.ticks, place))?;
        }
    }
    order.sort()?;
    open_table(text, "Defs", &defs_heads());
    for (_, place) in order.iter().take(MOST_DEFS) {
        if let Some(own) = costs.get(*place) {
            put_def(text, page, *place, *own);
        }
    }
    close_table(text);
    put_rest(text, order.len(), MOST_DEFS, "def");
    Ok(())
}

// Appends the line of a def to a text.
fn put_def(text: &mut Written, page: &Page<'_>, place: usize, own: DefCosts) {
    let name = text_at(&page.defs.names, place);
    let name = if name.is_empty() {
        b"(no name)".as_slice()
    } else {
        name
    };
    text.put("<tr>");
    put_named(text, "def", place as u64, name);
    put_cell(text, own.rows);
    put_cell(text, own.ticks);
    put_part(text, own.ticks, page.subject.work, Meter::Plain);
    put_part(text, own.chain, page.subject.span, Meter::Chain);
    put_cell(text, own.waited);
    text.put("</tr>\n");
}

// Appends to a text how many things a list leaves out.
fn put_rest(text: &mut Written, count: usize, most: usize, word: &str) {
    if count <= most {
        return;
    }
    text.put("<p>and ");
    put_many(text, (count - most) as u64, word);
    text.put(" more</p>\n");
}

// Appends the chain to a text, as boc prints it.
fn put_chain(text: &mut Written, page: &Page<'_>) {
    let mut end = 0;
    let mut lines: usize = 0;
    for (place, byte) in page.chain.iter().enumerate() {
        if *byte == b'\n' {
            lines = lines.saturating_add(1);
            if lines <= MOST_LINES {
                end = place;
            }
        }
    }
    text.put("<details><summary>The chain, as boc why prints it</summary>\n<pre class=\"wide\">");
    put_lines(text, &page.chain[..end.min(page.chain.len())]);
    if lines > MOST_LINES {
        text.put(".. and ");
        text.put_number((lines - MOST_LINES) as u64);
        text.put(" lines more\n");
    }
    text.put("</pre></details>\n");
}
