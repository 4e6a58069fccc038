// Lanes in which rows follow each other.

use crate::axis::{Area, put_down};
use crate::fitting::put_fit;
use crate::html::put_many;
use crate::sheet::{STRIP, Sheet};
use crate::steps::Height;
use crate::stripes::Stripes;
use crate::written::Written;
use boc_bars::Bar;
use std::alloc::{AllocError, Global};

// Rows that are narrower than this, in hundredths of a pixel, are one bar where they are of one def and follow each other.
const NARROW: u64 = 200;

// From this width on there is a thin cut at the end of a bar, and from this height on there is a name in it.
const CUT: u64 = 500;

const NAMED: u64 = 1_400;

// With more rows than this a mouse is shown nothing at bars.
const MOST_TITLES: usize = 20_000;

// A row, or several narrow ones of one def that follow each other.
#[derive(Clone, Copy, Debug)]
struct Run {
    first: Bar,
    end: u64,
    rows: u64,
    // The place of the def.
    place: u32,
    is_narrow: bool,
}

impl Run {
    // Returns whether another bar may be part of this one.
    fn takes(&self, other: &Run) -> bool {
        self.is_narrow
            && other.is_narrow
            && self.place == other.place
            && self.first.lane == other.first.lane
            && self.end == other.first.start
    }
}

/// Where lanes are: where the first one begins, how far they are from each other, and how much of that is free.
#[derive(Clone, Copy, Debug)]
pub(crate) struct Lanes {
    pub(crate) top: u64,
    pub(crate) pitch: Height,
    pub(crate) gap: u64,
}

impl Lanes {
    /// Returns where a lane begins.
    pub(crate) fn y(self, lane: u32) -> u64 {
        self.top.saturating_add(self.pitch.of(u64::from(lane)))
    }

    /// Returns how high the bars of a lane are.
    pub(crate) fn height(self, lane: u32) -> u64 {
        let next = self.pitch.of(u64::from(lane).saturating_add(1));
        let own = self.pitch.of(u64::from(lane));
        next.saturating_sub(own).saturating_sub(self.gap)
    }

    // Returns how high the strip of the chain is at the foot of the bars.
    fn strip(self) -> u64 {
        STRIP.min(self.height(0) / 3)
    }

    // Returns what a bar takes.
    fn area(self, sheet: Sheet<'_>, bar: Bar, end: u64) -> Area {
        let (y, height) = (self.y(bar.lane), self.height(bar.lane));
        Area::of(sheet.axis, bar.start, end, y, height)
    }
}

// Returns the bar of a row alone.
fn run_of(sheet: Sheet<'_>, bar: Bar) -> Run {
    Run {
        first: bar,
        end: bar.end,
        rows: 1,
        place: sheet.palette.place(bar.row),
        is_narrow: sheet.axis.between(bar.start, bar.end) < NARROW,
    }
}

// Returns the bars of rows.
fn runs_of(alloc: Global, sheet: Sheet<'_>, bars: &[Bar]) -> Result<Vec<Run>, AllocError> {
    let mut runs: Vec<Run> = Vec::new(alloc);
    for bar in bars {
        let run = run_of(sheet, *bar);
        if let Some(last) = runs.last_mut()
            && last.takes(&run)
        {
            last.end = run.end;
            last.rows = last.rows.saturating_add(1);
            continue;
        }
        runs.push(run)?;
    }
    Ok(runs)
}

/// Appends lanes of these rows, sorted by lane and start, to a text. Those of one lane don't overlap.
pub(crate) fn put_lanes(
    alloc: Global,
    text: &mut Written,
    sheet: Sheet<'_>,
    lanes: Lanes,
    bars: &[Bar],
) -> Result<(), AllocError> {
    let runs = runs_of(alloc, sheet, bars)?;
    for run in &runs {
        put_run(text, sheet, lanes, run);
    }
    put_cuts(text, sheet, lanes, &runs);
    let strips = strips(alloc, sheet, lanes, bars)?;
    strips.put(text, "chain", sheet.axis, lanes.strip());
    Ok(())
}

// Appends a bar to a text, with what a mouse shows. One without width is left out.
fn put_run(text: &mut Written, sheet: Sheet<'_>, lanes: Lanes, run: &Run) {
    let area = lanes.area(sheet, run.first, run.end);
    if area.width == 0 {
        return;
    }
    if sheet.subject.count() > MOST_TITLES {
        put_filled(text, sheet, run, area);
        return;
    }
    text.put("<g><title>");
    put_title(text, sheet, run);
    text.put("</title>");
    put_filled(text, sheet, run, area);
    text.put("</g>\n");
}

// Appends the rectangle of a bar to a text, with a name where it is of one row.
fn put_filled(text: &mut Written, sheet: Sheet<'_>, run: &Run, area: Area) {
    if run.rows == 1 && area.height >= NAMED {
        sheet.put_bar(text, run.first.row, area)
    } else {
        sheet.put_area(text, run.place, area)
    }
}

// Appends what must be said of a bar to a text.
fn put_title(text: &mut Written, sheet: Sheet<'_>, run: &Run) {
    if run.rows == 1 {
        sheet.put_called(text, run.first.row);
    } else {
        put_many(text, run.rows, "row");
        text.put(" of ");
        put_fit(text, sheet.palette.called(run.place), 80);
    }
    text.put(": ");
    text.put_number(run.first.start);
    text.put(" to ");
    text.put_number(run.end);
}

// Appends a thin cut at the end of each bar that isn't narrow to a text.
fn put_cuts(text: &mut Written, sheet: Sheet<'_>, lanes: Lanes, runs: &[Run]) {
    text.put("<path class=\"cuts\" d=\"");
    for run in runs {
        let area = lanes.area(sheet, run.first, run.end);
        if area.width >= CUT {
            let x = area.x.saturating_add(area.width).saturating_sub(35);
            put_down(text, x, area.y, area.y.saturating_add(area.height));
        }
    }
    text.put("\"/>\n");
}

// Returns the strips of the chain, at the foot of the bars.
fn strips(
    alloc: Global,
    sheet: Sheet<'_>,
    lanes: Lanes,
    bars: &[Bar],
) -> Result<Stripes, AllocError> {
    let mut strips = Stripes::new(alloc);
    for bar in bars {
        let foot = lanes.y(bar.lane).saturating_add(lanes.height(bar.lane));
        let past = bar.start.saturating_add(sheet.through(bar.row));
        strips.add(bar.start, past, foot.saturating_sub(lanes.strip()))?;
    }
    Ok(strips)
}
