// The earliest plan with a lane for each row.

use crate::axis::{Area, put_across, put_down};
use crate::drawing::{Point, open_words, put_label};
use crate::fitting::letters_in;
use crate::sheet::{BAR, LEFT, MARGIN, Part, STRIP, Sheet, WIDTH, lane_top};
use crate::stripes::Stripes;
use crate::subject::Shown;
use crate::written::Written;
use boc_plans::chain::{ChainStep, Via};
use std::alloc::{AllocError, Global};

// How wide a letter at a link is.
const LETTER: u64 = 730;

/// Returns the earliest plan with a lane for each row: its name, its bar, its waiting, where it spawns others, and the chain and its links.
pub(crate) fn rows_part(alloc: Global, sheet: Sheet<'_>, top: u64) -> Result<Part, AllocError> {
    let mut lanes = Written::new(alloc);
    put_waits(&mut lanes, sheet, top);
    for shown in &sheet.subject.shown {
        put_row(alloc, &mut lanes, sheet, top, shown)?;
    }
    strips(alloc, sheet, top)?.put(&mut lanes, "chain", sheet.axis, STRIP);
    put_spawns(&mut lanes, sheet, top);
    put_links(alloc, &mut lanes, sheet, top)?;
    let foot = lane_top(top, sheet.subject.count());
    Ok(Part { lanes, foot })
}

// Appends a thin line for each row that waits, from its spawn to its start, to a text.
fn put_waits(text: &mut Written, sheet: Sheet<'_>, top: u64) {
    text.put("<path class=\"waits\" d=\"");
    for shown in &sheet.subject.shown {
        if shown.after.is_some() {
            let (from, to) = (sheet.axis.at(shown.spawned), sheet.axis.at(shown.start));
            put_across(text, middle(top, shown.row), from, to);
        }
    }
    text.put("\"/>\n");
}

// Returns the middle of a row's bar.
fn middle(top: u64, row: u32) -> u64 {
    lane_top(top, row as usize).saturating_add(BAR / 2)
}

// Appends the label and the bar of a row to a text, with what a mouse shows.
fn put_row(
    alloc: Global,
    text: &mut Written,
    sheet: Sheet<'_>,
    top: u64,
    shown: &Shown,
) -> Result<(), AllocError> {
    let y = lane_top(top, shown.row as usize);
    let at = Point {
        x: MARGIN,
        y: y.saturating_add(1_450),
    };
    put_label(text, at, &sheet.label(alloc, shown.row)?);
    text.put("<g id=\"r");
    text.put_number(u64::from(shown.row));
    text.put("\"><title>");
    put_title(text, sheet, shown);
    text.put("</title>");
    let bar = Area::of(sheet.axis, shown.start, shown.end, y, BAR);
    sheet.put_bar(text, shown.row, bar);
    text.put("</g>\n");
    Ok(())
}

// Appends what must be said of a row to a text: its name, when it runs, its cowns, and what it waits for.
fn put_title(text: &mut Written, sheet: Sheet<'_>, shown: &Shown) {
    sheet.put_called(text, shown.row);
    text.put(": ");
    text.put_number(shown.start);
    text.put(" to ");
    text.put_number(shown.end);
    if let Some(after) = shown.after {
        text.put("; spawned at ");
        text.put_number(shown.spawned);
        text.put(", waits for row ");
        text.put_number(u64::from(after));
        text.put(" over ");
        sheet.put_handed(text, after, shown.row);
    }
    if shown.through > 0 {
        text.put("; the chain goes through ");
        text.put_number(u64::from(shown.through));
        text.put(" of its ticks");
    }
}

// Returns the strips of the chain, at the foot of the bars.
fn strips(alloc: Global, sheet: Sheet<'_>, top: u64) -> Result<Stripes, AllocError> {
    let mut strips = Stripes::new(alloc);
    for shown in &sheet.subject.shown {
        let past = shown.start.saturating_add(u64::from(shown.through));
        let y = lane_top(top, shown.row as usize).saturating_add(BAR - STRIP);
        strips.add(shown.start, past, y)?;
    }
    Ok(strips)
}

// Appends a mark at each tick at which a row spawns another one to a text.
fn put_spawns(text: &mut Written, sheet: Sheet<'_>, top: u64) {
    text.put("<path class=\"spawns\" d=\"");
    for (row, shown) in sheet.subject.shown.iter().enumerate().skip(1) {
        if let Some(spawned) = sheet.subject.rows.as_slice().get(row) {
            let y = lane_top(top, spawned.parent as usize);
            let x = sheet.axis.at(shown.spawned);
            put_down(text, x, y, y.saturating_add(500));
        }
    }
    text.put("\"/>\n");
}

// Appends the links of the chain to a text.
fn put_links(
    alloc: Global,
    text: &mut Written,
    sheet: Sheet<'_>,
    top: u64,
) -> Result<(), AllocError> {
    text.put("<g class=\"links\">\n");
    for (place, step) in sheet.subject.chain.iter().enumerate() {
        if let Some(next) = sheet.subject.chain.get(place.saturating_add(1))
            && let Some(to) = sheet.shown(next.row)
        {
            put_link(text, sheet, top, step, to);
            put_reason(alloc, text, sheet, top, step, to)?;
        }
    }
    text.put("</g>\n");
    Ok(())
}

// Appends a link of the chain, from one row to the next one, to a text: it goes from edge to edge of the bars.
fn put_link(text: &mut Written, sheet: Sheet<'_>, top: u64, step: &ChainStep, to: &Shown) {
    let x = sheet.axis.at(to.start);
    let (from_y, to_y) = (
        lane_top(top, step.row as usize),
        lane_top(top, to.row as usize),
    );
    text.put("<path d=\"");
    if from_y < to_y {
        put_down(text, x, from_y.saturating_add(BAR), to_y);
    } else {
        put_down(text, x, from_y, to_y.saturating_add(BAR));
    }
    text.put("\"><title>");
    put_cause(text, sheet, step, to.row);
    text.put("</title></path>\n");
}

// Appends why a row of the chain starts when it does to a text, next to its bar if it fits there.
fn put_reason(
    alloc: Global,
    text: &mut Written,
    sheet: Sheet<'_>,
    top: u64,
    step: &ChainStep,
    to: &Shown,
) -> Result<(), AllocError> {
    let mut words = Written::new(alloc);
    put_cause(&mut words, sheet, step, to.row);
    let words = words.into_text()?;
    let length = LETTER.saturating_mul(letters_in(&words) as u64);
    let y = middle(top, to.row).saturating_add(450);
    let right = sheet.axis.at(to.end).saturating_add(600);
    let left = sheet.axis.at(to.spawned.min(to.start)).saturating_sub(600);
    if right.saturating_add(length) < WIDTH {
        open_words(text, "s", Point { x: right, y });
    } else if left > length.saturating_add(LEFT) {
        open_words(text, "s e", Point { x: left, y });
    } else {
        return Ok(());
    }
    text.put_bytes(&words);
    text.put("</text>\n");
    Ok(())
}

// Appends what leads on from a row of the chain to the next one to a text.
fn put_cause(text: &mut Written, sheet: Sheet<'_>, step: &ChainStep, next: u32) {
    match step.via {
        Via::Spawn => text.put("spawned by row "),
        Via::Order => text.put("after row "),
        Via::Last => return,
    }
    text.put_number(u64::from(step.row));
    if step.via == Via::Order {
        text.put(": ");
        sheet.put_handed(text, step.row, next);
    }
}
