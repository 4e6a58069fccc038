// The earliest plan with a lane for each def.

use crate::drawing::{LABEL_LETTERS, NARROW_LETTERS, Point, open_words};
use crate::fitting::{letters_in, put_fit};
use crate::html::put_many;
use crate::palette::DrawnDef;
use crate::sheet::{MARGIN, Part, STRIP, Sheet, WIDTH};
use crate::steps::{Height, Steps, put_steps, steps_of};
use crate::stripes::Stripes;
use crate::written::Written;
use boc_bars::Stretch;
use std::alloc::{AllocError, Global};

// The most lanes. Where there are more defs, the last lane is of all others.
const MOST_FOLDS: usize = 60;

const LAST_FOLD: u32 = 59;

// How high all lanes are together at most, and how high one row is at most.
const ALL_ROWS: u64 = 70_000;

const MOST_ROW: u64 = 1_400;

// The smallest height of a lane, and how far the next one is from it.
const LEAST_LANE: u64 = 1_600;

const GAP: u64 = 600;

// The rows of a def, or of several, that share a lane. All but rows are ticks.
#[derive(Drop)]
struct Fold {
    // The place of the def, if it is one.
    place: Option<u32>,
    rows: u64,
    ticks: u64,
    chain: u64,
    steps: Steps,
}

/// Returns the earliest plan with a lane for each def, which is as high as many of its rows run. A tick of a row takes the same area in each lane.
pub(crate) fn folded_part(alloc: Global, sheet: Sheet<'_>, top: u64) -> Result<Part, AllocError> {
    let folds = folds_of(alloc, sheet)?;
    let height = height_of(&folds);
    let mut feet = Vec::new(alloc);
    let mut lanes = Written::new(alloc);
    let mut foot = top;
    for fold in &folds {
        foot = foot.saturating_add(height.of(fold.steps.most).max(LEAST_LANE));
        put_fold(alloc, &mut lanes, sheet, fold, foot, height)?;
        feet.push(foot)?;
        foot = foot.saturating_add(GAP);
    }
    strips(alloc, sheet, &feet)?.put(&mut lanes, "chain", sheet.axis, STRIP);
    Ok(Part { lanes, foot })
}

// Returns how high a row is.
fn height_of(folds: &[Fold]) -> Height {
    let mut rows: u64 = 0;
    for fold in folds {
        rows = rows.saturating_add(fold.steps.most);
    }
    Height {
        hundredths: ALL_ROWS,
        rows: rows.max(ALL_ROWS / MOST_ROW),
    }
}

// Returns the lane of the def at a place.
fn lane_of(place: u32) -> u32 {
    place.min(LAST_FOLD)
}

// Returns what is in each lane.
fn folds_of(alloc: Global, sheet: Sheet<'_>) -> Result<Vec<Fold>, AllocError> {
    let defs = sheet.palette.defs.as_slice();
    let mut folds = Vec::new(alloc);
    let mut lane: u32 = 0;
    for _ in defs.iter().take(MOST_FOLDS) {
        let steps = steps_of(alloc, &stretches_in(alloc, sheet, lane)?)?;
        folds.push(fold_of(defs, lane, steps))?;
        lane = lane.saturating_add(1);
    }
    Ok(folds)
}

// Returns the rows in a lane.
fn stretches_in(alloc: Global, sheet: Sheet<'_>, lane: u32) -> Result<Vec<Stretch>, AllocError> {
    let mut stretches = Vec::new(alloc);
    for shown in &sheet.subject.shown {
        if lane_of(sheet.palette.place(shown.row)) == lane {
            stretches.push(Stretch {
                start: shown.start,
                end: shown.end,
            })?;
        }
    }
    Ok(stretches)
}

// Returns what is in a lane, of which these are the steps.
fn fold_of(defs: &[DrawnDef], lane: u32, steps: Steps) -> Fold {
    let is_last = lane == LAST_FOLD && defs.len() > MOST_FOLDS;
    let mut fold = Fold {
        place: if is_last { None } else { Some(lane) },
        rows: 0,
        ticks: 0,
        chain: 0,
        steps,
    };
    for one in defs
        .iter()
        .skip(lane as usize)
        .take(if is_last { defs.len() } else { 1 })
    {
        fold.rows = fold.rows.saturating_add(one.rows);
        fold.ticks = fold.ticks.saturating_add(one.ticks);
        fold.chain = fold.chain.saturating_add(one.chain);
    }
    fold
}

// Returns what a lane is called.
fn called<'a>(sheet: Sheet<'a>, fold: &Fold) -> &'a [u8] {
    match fold.place {
        Some(place) => sheet.palette.called(place),
        None => b"other defs",
    }
}

// Appends a lane to a text, with what a mouse shows.
fn put_fold(
    alloc: Global,
    text: &mut Written,
    sheet: Sheet<'_>,
    fold: &Fold,
    foot: u64,
    height: Height,
) -> Result<(), AllocError> {
    put_fold_label(alloc, text, sheet, fold, foot.saturating_sub(400))?;
    text.put("<path ");
    match fold.place {
        Some(place) => sheet.palette.colour(place).put_class(text),
        None => text.put("class=\"rest\""),
    }
    text.put(" d=\"");
    put_steps(text, sheet.axis, &fold.steps.list, foot, height);
    text.put("\"><title>");
    put_title(text, sheet, fold);
    text.put("</title></path>\n");
    Ok(())
}

// Appends what must be said of a lane to a text.
fn put_title(text: &mut Written, sheet: Sheet<'_>, fold: &Fold) {
    put_fit(text, called(sheet, fold), 80);
    text.put(": ");
    put_many(text, fold.rows, "row");
    text.put(", ");
    put_many(text, fold.ticks, "tick");
    text.put(", at most ");
    text.put_number(fold.steps.most);
    text.put(" at once; the chain goes through ");
    put_many(text, fold.chain, "tick");
}

// Appends the label of a lane to a text, and to its right how many of its rows run at most.
fn put_fold_label(
    alloc: Global,
    text: &mut Written,
    sheet: Sheet<'_>,
    fold: &Fold,
    y: u64,
) -> Result<(), AllocError> {
    let mut count = Written::new(alloc);
    count.put(", ");
    count.put_number(fold.rows);
    let count = count.into_text()?;
    let name = called(sheet, fold);
    let narrow = room(NARROW_LETTERS, &count);
    if letters_in(name) <= narrow {
        put_name(text, "n", y, name, narrow, &count);
    } else {
        put_name(text, "n wide", y, name, room(LABEL_LETTERS, &count), &count);
        put_name(text, "n narrow", y, name, narrow, &count);
    }
    let x = WIDTH - MARGIN;
    open_words(text, "r", Point { x, y });
    text.put("max ");
    text.put_number(fold.steps.most);
    text.put("</text>\n");
    Ok(())
}

// Returns how many letters of a name fit into a label with this count.
fn room(letters: usize, count: &[u8]) -> usize {
    letters.saturating_sub(2).saturating_sub(count.len())
}

// Appends a label with as much of a name as fits, and the count of its rows, to a text.
fn put_name(text: &mut Written, class: &str, y: u64, name: &[u8], most: usize, count: &[u8]) {
    open_words(text, class, Point { x: MARGIN, y });
    text.put("▸ ");
    put_fit(text, name, most);
    text.put_bytes(count);
    text.put("</text>\n");
}

// Returns the strips of the chain in lanes with these feet.
fn strips(alloc: Global, sheet: Sheet<'_>, feet: &[u64]) -> Result<Stripes, AllocError> {
    let mut strips = Stripes::new(alloc);
    for step in &sheet.subject.chain {
        if let Some(shown) = sheet.shown(step.row)
            && let Some(foot) = feet.get(lane_of(sheet.palette.place(step.row)) as usize)
        {
            let past = shown.start.saturating_add(u64::from(shown.through));
            strips.add(shown.start, past, foot.saturating_sub(STRIP))?;
        }
    }
    Ok(strips)
}
