// What colours and signs of a drawing of plans mean.

use crate::axis::{Area, put_across, put_down};
use crate::drawing::{Point, put_words};
use crate::plan_svg::{Drawn, has_rows};
use crate::sheet::{MARGIN, STRIP, Sheet};
use crate::written::Written;
use std::alloc::{AllocError, Global};

// How many signs are in a line, how far they are from each other, and how far the lines.
const ACROSS: usize = 4;

const COLUMN: u64 = 24_500;

const LINE: u64 = 2_400;

// The most defs that are listed.
const MOST_DEFS: usize = 28;

/// A sign that a legend explains.
#[derive(Clone, Copy)]
enum Sign {
    // The colour of the def at a place.
    Def(u32),
    OtherDefs,
    Chain,
    Waits,
    Spawns,
    Height,
    End,
    Queue,
}

// Returns the signs that a drawing has.
fn signs_of(alloc: Global, sheet: Sheet<'_>, drawn: &Drawn<'_>) -> Result<Vec<Sign>, AllocError> {
    let mut signs = Vec::new(alloc);
    let defs = sheet.palette.defs.as_slice();
    let mut place: u32 = 0;
    for _ in defs.iter().take(MOST_DEFS) {
        signs.push(Sign::Def(place))?;
        place = place.saturating_add(1);
    }
    if defs.len() > MOST_DEFS {
        signs.push(Sign::OtherDefs)?;
    }
    signs.push(Sign::Chain)?;
    if has_rows(sheet) {
        signs.push(Sign::Waits)?;
        signs.push(Sign::Spawns)?;
    } else {
        signs.push(Sign::Height)?;
    }
    if !drawn.plans.is_empty() {
        signs.push(Sign::End)?;
    }
    if drawn.cowns {
        signs.push(Sign::Queue)?;
    }
    Ok(signs)
}

// Appends the shape of a sign to a text.
fn put_shape(text: &mut Written, sheet: Sheet<'_>, sign: Sign, at: Point) {
    let Point { x, y } = at;
    let area = Area {
        x,
        y: y.saturating_sub(1_000),
        width: 1_400,
        height: 1_200,
    };
    match sign {
        Sign::Def(place) => sheet.put_area(text, place, area),
        Sign::OtherDefs => put_filled(text, "rest", area),
        Sign::Height | Sign::Queue => put_stairs(text, area),
        Sign::Chain => {
            let y = area.y.saturating_add(area.height).saturating_sub(STRIP);
            let height = STRIP;
            put_filled(text, "chain", Area { y, height, ..area });
        }
        Sign::Waits | Sign::Spawns | Sign::End => put_stroke(text, sign, area),
    }
}

// Appends the shape of a sign that is a line, in an area, to a text.
fn put_stroke(text: &mut Written, sign: Sign, area: Area) {
    let Area { x, y, .. } = area;
    let middle = x.saturating_add(700);
    match sign {
        Sign::Waits => {
            text.put("<path class=\"waits\" d=\"");
            put_across(text, y.saturating_add(600), x, x.saturating_add(1_400));
        }
        Sign::Spawns => {
            text.put("<path class=\"spawns\" d=\"");
            put_down(text, middle, y, y.saturating_add(500));
        }
        _ => {
            text.put("<path class=\"end\" d=\"");
            put_down(text, middle, y, y.saturating_add(1_400));
        }
    }
    text.put("\"/>\n");
}

// Appends two steps to a text.
fn put_stairs(text: &mut Written, area: Area) {
    let (width, height) = (area.width / 2, area.height / 2);
    let lower = Area {
        y: area.y.saturating_add(height),
        width,
        height,
        ..area
    };
    put_filled(text, "queue", lower);
    let x = area.x.saturating_add(width);
    put_filled(text, "queue", Area { x, width, ..area });
}

// Appends a rectangle of a class to a text.
fn put_filled(text: &mut Written, class: &str, area: Area) {
    text.put("<path class=\"");
    text.put(class);
    text.put("\" d=\"");
    area.put(text);
    text.put("\"/>\n");
}

// Returns what a sign means.
fn meaning<'a>(sheet: Sheet<'a>, sign: Sign) -> &'a [u8] {
    match sign {
        Sign::Def(place) => sheet.palette.called(place),
        Sign::OtherDefs => b"further defs",
        Sign::Chain => b"the chain",
        Sign::Waits => b"waits for a cown",
        Sign::Spawns => b"spawns a row",
        Sign::Height => b"how many run",
        Sign::End => b"end of the plan",
        Sign::Queue => b"how many wait",
    }
}

/// Appends the legend to a text, and returns where it ends.
pub(crate) fn put_legend(
    alloc: Global,
    text: &mut Written,
    sheet: Sheet<'_>,
    drawn: &Drawn<'_>,
    top: u64,
) -> Result<u64, AllocError> {
    let mut y = top.saturating_add(LINE);
    for (number, sign) in signs_of(alloc, sheet, drawn)?.iter().enumerate() {
        if number > 0 && number % ACROSS == 0 {
            y = y.saturating_add(LINE);
        }
        let x = COLUMN
            .saturating_mul((number % ACROSS) as u64)
            .saturating_add(MARGIN);
        put_shape(text, sheet, *sign, Point { x, y });
        let x = x.saturating_add(2_000);
        put_words(text, "n", Point { x, y }, meaning(sheet, *sign), 17);
    }
    Ok(y.saturating_add(1_400))
}
