// The curve of a page: the speed-up by workers as a drawing, whose colours are the page's, and the ends as a table.

use crate::columns::percent;
use crate::curve_lines::{enough, speed_up};
use crate::html::{
    Head, close_table, open_table, put_cell, put_grouped, put_hundredths, put_many, put_percent,
};
use crate::page::Page;
use crate::written::Written;
use boc_greedy::CurvePoint;

// The frame of the drawing, in tenths of a pixel.
const LEFT: u64 = 460;

const RIGHT: u64 = 6_240;

const TOP: u64 = 260;

const FOOT: u64 = 2_600;

// The fewest workers that are drawn.
const LEAST_SHOWN: usize = 8;

fn ends_heads() -> [Head; 6] {
    [
        Head::number("workers", ""),
        Head::number("end", "the end of the greedy plan"),
        Head::number("least", "no plan for as many workers ends before"),
        Head::number("bound", "the greedy plan ends no later"),
        Head::number("speed-up", "how much faster than one worker"),
        Head::number("busy", "for what part of the time the workers are busy"),
    ]
}

/// Where the points of a curve are drawn: across by workers, and up by the speed-up, in hundredths.
#[derive(Clone, Copy)]
struct Plot {
    // How many workers there are at the right edge.
    most: u64,
    // The speed-up at the upper edge.
    high: u64,
}

impl Plot {
    // Returns the place of some hundredths of workers, in tenths of a pixel.
    fn x(self, hundredths: u64) -> u64 {
        let span = self.most.saturating_sub(1).max(1).saturating_mul(100);
        let part = hundredths.saturating_sub(100).saturating_mul(RIGHT - LEFT);
        LEFT.saturating_add(part / span.max(1))
    }

    // Returns the place of a speed-up.
    fn y(self, hundredths: u64) -> u64 {
        let part = hundredths.saturating_mul(FOOT - TOP) / self.high.max(1);
        FOOT.saturating_sub(part)
    }

    // Returns how far from each other the speed-ups are that have a line: as many hundredths that there are six at most.
    fn step(self) -> u64 {
        for step in [20, 50, 100, 200, 500, 1_000, 2_000] {
            if self.high / step <= 6 {
                return step;
            }
        }
        5_000
    }
}

// Returns the points that are drawn: up to twice the workers that gain anything, up to twice those of the plan, and eight at least.
fn drawn<'a>(page: &Page<'a>) -> &'a [CurvePoint] {
    let points = page.points;
    let gaining = enough(points).max(page.greedy.p) as usize;
    let count = gaining.saturating_mul(2).max(LEAST_SHOWN);
    &points[..count.min(points.len())]
}

// Appends a place in tenths of a pixel to a text, in pixels.
fn put_place(text: &mut Written, tenths: u64) {
    text.put_number(tenths / 10);
    text.push(b'.');
    text.put_number(tenths % 10);
}

// Appends two places to a text.
fn put_point(text: &mut Written, x: u64, y: u64) {
    put_place(text, x);
    text.push(b',');
    put_place(text, y);
    text.push(b' ');
}

// Appends the begin of words at a place to a text, which are anchored so.
fn open_words(text: &mut Written, class: &str, anchor: &str, x: u64, y: u64) {
    text.put("<text class=\"");
    text.put(class);
    text.put("\" text-anchor=\"");
    text.put(anchor);
    text.put("\" x=\"");
    put_place(text, x);
    text.put("\" y=\"");
    put_place(text, y);
    text.put("\">");
}

// Appends a line through two points to a text.
fn put_line(text: &mut Written, class: &str, from: (u64, u64), to: (u64, u64)) {
    text.put("<polyline class=\"");
    text.put(class);
    text.put("\" points=\"");
    put_point(text, from.0, from.1);
    put_point(text, to.0, to.1);
    text.put("\"/>\n");
}

// Appends the lines of the speed-ups to a text, each with its number.
fn put_across(text: &mut Written, plot: Plot) {
    let step = plot.step();
    for number in 0..=plot.high / step.max(1) {
        let hundredths = number.saturating_mul(step);
        let y = plot.y(hundredths);
        put_line(text, "grid", (LEFT, y), (RIGHT, y));
        open_words(text, "n", "end", LEFT - 60, y.saturating_add(40));
        if step < 100 {
            put_hundredths(text, hundredths);
        } else {
            text.put_number(hundredths / 100);
        }
        text.put("</text>\n");
    }
}

// Appends the numbers of workers to a text.
fn put_workers(text: &mut Written, plot: Plot) {
    let step = if plot.most <= 16 {
        1
    } else if plot.most <= 32 {
        4
    } else {
        8
    };
    let first = if step == 1 { 1 } else { 0 };
    for number in first..=plot.most / step {
        let workers = number.saturating_mul(step).max(1);
        let x = plot.x(workers.saturating_mul(100));
        open_words(text, "n", "middle", x, FOOT + 160);
        text.put_number(workers);
        text.put("</text>\n");
    }
    open_words(text, "n", "middle", (LEFT + RIGHT) / 2, FOOT + 340);
    text.put("workers</text>\n");
}

// Appends what no plan gets above to a text: as many times as there are workers, and work / span.
fn put_roofs(text: &mut Written, plot: Plot, parallelism: u64) {
    let end = plot.high.min(plot.most.saturating_mul(100));
    let (x, y) = (plot.x(end), plot.y(end));
    put_line(text, "linear", (plot.x(100), plot.y(100)), (x, y));
    if parallelism <= plot.high {
        let roof = plot.y(parallelism);
        put_line(text, "roof", (LEFT, roof), (RIGHT, roof));
        open_words(text, "note", "end", RIGHT, roof.saturating_sub(50));
        text.put("parallelism ");
        put_hundredths(text, parallelism);
        text.put("</text>\n");
    }
    if x.saturating_add(400) < RIGHT {
        open_words(
            text,
            "note",
            "start",
            x.saturating_add(60),
            y.saturating_add(130),
        );
        text.put("linear</text>\n");
    }
}

// Appends the line of the bounds or of the greedy plans to a text.
fn put_curve_of(text: &mut Written, plot: Plot, work: u64, points: &[CurvePoint], is_bound: bool) {
    text.put("<polyline class=\"");
    text.put(if is_bound { "floor" } else { "greedy" });
    text.put("\" points=\"");
    for point in points {
        let end = if is_bound { point.bound } else { point.end };
        let x = plot.x(u64::from(point.workers).saturating_mul(100));
        put_point(text, x, plot.y(speed_up(work, end)));
    }
    text.put("\"/>\n");
}

// Appends a dot for each greedy plan to a text, a larger one for the plan that is shown.
fn put_dots(text: &mut Written, plot: Plot, page: &Page<'_>, points: &[CurvePoint]) {
    for point in points {
        let speed_up = speed_up(page.subject.work, point.end);
        let is_here = point.workers == page.greedy.p;
        text.put("<circle class=\"");
        text.put(if is_here { "dot here" } else { "dot" });
        text.put("\" r=\"");
        text.put(if is_here { "5" } else { "2.5" });
        text.put("\" cx=\"");
        put_place(text, plot.x(u64::from(point.workers).saturating_mul(100)));
        text.put("\" cy=\"");
        put_place(text, plot.y(speed_up));
        text.put("\"><title>");
        put_many(text, u64::from(point.workers), "worker");
        text.put(": end ");
        put_grouped(text, point.end);
        text.put(", speed-up ");
        put_hundredths(text, speed_up);
        text.put("</title></circle>\n");
    }
}

// Appends the drawing to a text.
fn put_drawing(text: &mut Written, page: &Page<'_>, points: &[CurvePoint]) {
    let subject = page.subject;
    let parallelism = speed_up(subject.work, subject.span);
    let most = points.len() as u64;
    let roof = parallelism.saturating_add(parallelism / 6);
    let plot = Plot {
        most,
        high: roof.min(most.saturating_mul(100)).max(140),
    };
    text.put(
        "<svg xmlns=\"http://www.w3.org/2000/svg\" viewBox=\"0 0 640 300\" role=\"img\" \
         aria-label=\"Speed-up by workers; the table below has the numbers\">\n",
    );
    put_across(text, plot);
    put_workers(text, plot);
    text.put("<text class=\"n\" x=\"0\" y=\"12\">speed-up</text>\n");
    put_roofs(text, plot, parallelism);
    put_curve_of(text, plot, subject.work, points, true);
    put_curve_of(text, plot, subject.work, points, false);
    put_dots(text, plot, page, points);
    text.put("</svg>\n");
}

// Appends what the curve says to a text.
fn put_words(text: &mut Written, page: &Page<'_>) {
    let workers = u64::from(page.greedy.p);
    text.put("<p>");
    put_many(text, workers, "worker");
    text.put(if workers == 1 { " is " } else { " are " });
    put_hundredths(text, speed_up(page.subject.work, page.greedy.ends_at));
    text.put(" times faster than one. ");
    let enough = u64::from(enough(page.points));
    let span = page.subject.span;
    if page.points.iter().any(|point| point.end == span) {
        text.put("More than ");
        put_many(text, enough, "worker");
        text.put(" gain nothing in this run: the plan ends at the span.");
    } else {
        text.put("With up to ");
        put_many(text, page.points.len() as u64, "worker");
        text.put(" the greedy plan ends after the span.");
    }
    text.put("</p>\n");
}

// Appends the line of a number of workers to a text.
fn put_end(text: &mut Written, work: u64, point: &CurvePoint) {
    text.put("<tr>");
    for number in [u64::from(point.workers), point.end, point.low, point.bound] {
        put_cell(text, number);
    }
    text.put("<td class=\"n\">");
    put_hundredths(text, percent(work, point.end));
    text.put("</td><td class=\"n\">");
    let time = point.end.saturating_mul(u64::from(point.workers));
    put_percent(text, work, time);
    text.put("</td></tr>\n");
}

/// Appends the curve to a text.
pub(crate) fn put_curve(text: &mut Written, page: &Page<'_>) {
    let points = drawn(page);
    put_words(text, page);
    text.put("<div class=\"columns two\">\n<figure>\n");
    put_drawing(text, page, points);
    text.put(
        "<figcaption><span><i class=\"swatch greedy\"></i>the greedy plan</span>\
         <span><i class=\"swatch linear\"></i>linear, and work / span: no plan gets above either</span>\
         <span><i class=\"swatch floor\"></i>the bound, below which the greedy plan does not fall</span></figcaption>\n</figure>\n",
    );
    open_table(text, "Ends of the greedy plans", &ends_heads());
    for point in points {
        put_end(text, page.subject.work, point);
    }
    close_table(text);
    text.put("</div>\n");
}
