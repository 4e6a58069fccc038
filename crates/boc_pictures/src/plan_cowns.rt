// Which row holds which cown, as a part of a drawing.

use crate::drawing::{Point, put_label, put_words};
use crate::fitting::put_fit;
use crate::holders::{Held, held_of};
use crate::html::put_many;
use crate::plan_lines::MOST_LINES;
use crate::runs::{Lanes, put_lanes};
use crate::sheet::{MARGIN, Part, Sheet, put_share};
use crate::steps::{Height, Steps, put_steps, steps_of};
use crate::written::Written;
use boc_bars::{Bar, Stretch, lane_count, packed};
use boc_names::text_at;
use std::alloc::{AllocError, Global};
use std::cmp::Reverse;

// How high the bars of a cown are, and all that wait for it; and how far the next cown is.
const HOLDERS: u64 = 1_900;

const QUEUE: u64 = 1_300;

const GAP: u64 = 900;

// When a row waits for a cown.
#[derive(Clone, Copy)]
struct Wait {
    cown: usize,
    runs: Stretch,
}

/// Returns which row holds which cown in the earliest plan, and how many wait for it: of more than 60 cowns those that are held longest.
pub(crate) fn cowns_part(alloc: Global, sheet: Sheet<'_>, top: u64) -> Result<Part, AllocError> {
    let mut held = held_of(alloc, sheet.subject)?;
    held.sort_unstable_by_key(|held| (Reverse(held.ticks), held.cown));
    let all = held.len();
    held.truncate(MOST_LINES);
    let waits = waits_of(alloc, sheet)?;
    let mut part = Part {
        lanes: Written::new(alloc),
        foot: top,
    };
    for one in &held {
        put_cown(alloc, &mut part, sheet, *one, &waits)?;
    }
    put_more(alloc, &mut part, all.saturating_sub(held.len()))?;
    Ok(part)
}

// Appends to a part how many cowns are not in it.
fn put_more(alloc: Global, part: &mut Part, more: usize) -> Result<(), AllocError> {
    if more == 0 {
        return Ok(());
    }
    let mut words = Written::new(alloc);
    put_many(&mut words, more as u64, "cown");
    words.put(" more held no longer");
    let words = words.into_text()?;
    let y = part.foot.saturating_add(1_400);
    put_words(&mut part.lanes, "s", Point { x: MARGIN, y }, &words, 60);
    part.foot = part.foot.saturating_add(2_000);
    Ok(())
}

// Returns when rows wait for cowns: for those that the row hands on whose end they start at.
fn waits_of(alloc: Global, sheet: Sheet<'_>) -> Result<Vec<Wait>, AllocError> {
    let mut waits = Vec::new(alloc);
    for shown in &sheet.subject.shown {
        let runs = Stretch {
            start: shown.spawned,
            end: shown.start,
        };
        if let Some(after) = shown.after
            && let Some(handed) = sheet.subject.handed(after, shown.row)
        {
            for cown in handed.as_slice() {
                let cown = *cown as usize;
                waits.push(Wait { cown, runs })?;
            }
        }
    }
    Ok(waits)
}

// Returns how many wait for a cown at each tick.
fn queue_of(alloc: Global, waits: &[Wait], cown: usize) -> Result<Steps, AllocError> {
    let mut stretches = Vec::new(alloc);
    for wait in waits {
        if wait.cown == cown {
            stretches.push(wait.runs)?;
        }
    }
    steps_of(alloc, &stretches)
}

// Returns the rows that hold a cown as bars: those that hold it at a time are in several lanes.
fn bars_of(alloc: Global, sheet: Sheet<'_>, cown: usize) -> Result<Vec<Bar>, AllocError> {
    let mut rows = Vec::new(alloc);
    let mut stretches = Vec::new(alloc);
    for shown in &sheet.subject.shown {
        if holds(sheet, shown.row, cown) {
            rows.push(shown.row)?;
            stretches.push(Stretch {
                start: shown.start,
                end: shown.end,
            })?;
        }
    }
    let mut bars = packed(alloc, &stretches)?;
    for bar in bars.iter_mut() {
        bar.row = rows.get(bar.row as usize).copied().unwrap_or(0);
    }
    bars.sort_unstable_by_key(|bar| (bar.lane, bar.start, bar.row));
    Ok(bars)
}

// Returns whether a row holds a cown.
fn holds(sheet: Sheet<'_>, row: u32, cown: usize) -> bool {
    for held in sheet.subject.cowns(row) {
        if *held as usize == cown {
            return true;
        }
    }
    false
}

// Appends a cown to a part: who holds it, and below that how many wait for it, if any do.
fn put_cown(
    alloc: Global,
    part: &mut Part,
    sheet: Sheet<'_>,
    held: Held,
    waits: &[Wait],
) -> Result<(), AllocError> {
    let y = part.foot.saturating_add(1_320);
    let name = text_at(&sheet.subject.names.cowns, held.cown);
    put_label(&mut part.lanes, Point { x: MARGIN, y }, name);
    put_share(&mut part.lanes, y, held.ticks, sheet.subject.span);
    let bars = bars_of(alloc, sheet, held.cown)?;
    put_lanes(
        alloc,
        &mut part.lanes,
        sheet,
        places(part.foot, &bars),
        &bars,
    )?;
    part.foot = part.foot.saturating_add(HOLDERS);
    let queue = queue_of(alloc, waits, held.cown)?;
    if queue.most > 0 {
        part.foot = part.foot.saturating_add(QUEUE);
        put_queue(alloc, part, sheet, name, &queue)?;
    }
    part.foot = part.foot.saturating_add(GAP);
    Ok(())
}

// Returns where the bars of a cown are: those that hold it at a time share its height.
fn places(top: u64, bars: &[Bar]) -> Lanes {
    Lanes {
        top,
        pitch: Height {
            hundredths: HOLDERS,
            rows: lane_count(bars),
        },
        gap: 0,
    }
}

// Appends to a part how many wait for a cown at each tick.
fn put_queue(
    alloc: Global,
    part: &mut Part,
    sheet: Sheet<'_>,
    name: &[u8],
    queue: &Steps,
) -> Result<(), AllocError> {
    let height = Height {
        hundredths: QUEUE,
        rows: queue.most,
    };
    let mut words = Written::new(alloc);
    words.put("up to ");
    words.put_number(queue.most);
    words.put(if queue.most == 1 { " waits" } else { " wait" });
    let words = words.into_text()?;
    let at = Point {
        x: MARGIN,
        y: part.foot.saturating_sub(100),
    };
    let text = &mut part.lanes;
    put_words(text, "s wide", at, &words, 60);
    text.put("<path class=\"queue\" d=\"");
    put_steps(text, sheet.axis, &queue.list, part.foot, height);
    text.put("\"><title>");
    put_fit(text, name, 80);
    text.put(": ");
    text.put_bytes(&words);
    text.put("</title></path>\n");
    Ok(())
}
