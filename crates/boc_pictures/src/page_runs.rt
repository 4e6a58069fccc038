// The runs of a page that seeds draw: how many of them have which number as a drawing, and what is said of them.

use crate::axis::{Area, Axis, put_down, put_length};
use crate::html::{put_grouped, put_html, put_lines, put_many};
use crate::page::Page;
use crate::written::Written;

// The frame of the drawing, in hundredths of a pixel.
const LEFT: u64 = 1_000;

const LENGTH: u64 = 62_000;

const TOP: u64 = 5_000;

const HIGH: u64 = 14_000;

const FOOT: u64 = TOP + HIGH;

// How far a bar stays from the next one on each side, and how high it is at least.
const GAP: u64 = 100;

const LEAST_HIGH: u64 = 100;

/// A bar of a histogram: the numbers from the first to the last, and how many runs have one of these.
#[derive(Clone, Copy, PartialEq, Eq, Debug)]
pub struct RunsBar {
    pub first: u64,
    pub last: u64,
    pub runs: u64,
}

/// How many runs have which number.
#[derive(Clone, Copy)]
pub struct Histogram<'a> {
    /// What the number is, as `span`.
    pub word: &'a [u8],
    pub least: u64,
    pub median: u64,
    pub most: u64,
    /// All bars, in the order of their numbers: each begins where the one before it ends, and is for as many numbers as the first. The last one may be for fewer.
    pub bars: &'a [RunsBar],
    /// The number of the run that the page is of.
    pub own: u64,
}

/// What a page shows of runs that seeds draw. What is text has been formed before.
#[derive(Clone, Copy)]
pub struct DrawnRuns<'a> {
    /// How many runs there are.
    pub runs: u64,
    pub histogram: Histogram<'a>,
    /// What is said of them.
    pub text: &'a [u8],
}

/// Where numbers are across, and how many runs the highest bar has. A number is in the middle of its place, so the axis has two places for each.
#[derive(Clone, Copy)]
struct Plot {
    low: u64,
    // How many numbers a bar is for.
    width: u64,
    axis: Axis,
    most: u64,
}

impl Plot {
    // Returns the plot of bars, of which this is the first.
    fn of(bars: &[RunsBar], first: RunsBar) -> Plot {
        let width = first.last.saturating_sub(first.first).saturating_add(1);
        let numbers = width.saturating_mul(bars.len() as u64);
        Plot {
            low: first.first,
            width,
            axis: Axis {
                end: numbers.saturating_mul(2),
                from: LEFT,
                length: LENGTH,
            },
            most: most_runs(bars),
        }
    }

    // Returns the place of a number, from the left.
    fn x(self, number: u64) -> u64 {
        let place = number.saturating_sub(self.low).saturating_mul(2);
        self.axis.at(place.saturating_add(1))
    }

    // Returns the area of a bar: as high as its runs are many.
    fn area(self, bar: RunsBar) -> Area {
        let start = bar.first.saturating_sub(self.low).saturating_mul(2);
        let end = start.saturating_add(self.width.saturating_mul(2));
        let high = (bar.runs.saturating_mul(HIGH) / self.most.max(1)).clamp(LEAST_HIGH, HIGH);
        let whole = Area::of(self.axis, start, end, FOOT.saturating_sub(high), high);
        Area {
            x: whole.x.saturating_add(GAP),
            width: whole.width.saturating_sub(2 * GAP).max(GAP),
            ..whole
        }
    }
}

// Returns the most runs of a bar.
fn most_runs(bars: &[RunsBar]) -> u64 {
    let mut most = 1;
    for bar in bars {
        most = bar.runs.max(most);
    }
    most
}

// Returns at which of its ends a text is anchored that is for a place: so it stays within the drawing.
fn anchor_at(x: u64) -> &'static str {
    if x < LEFT + LENGTH / 3 {
        "start"
    } else if x < LEFT + 2 * LENGTH / 3 {
        "middle"
    } else {
        "end"
    }
}

// Appends the begin of words at a place to a text, which are anchored so.
fn open_words(text: &mut Written, anchor: &str, x: u64, y: u64) {
    text.put("<text text-anchor=\"");
    text.put(anchor);
    text.put("\" x=\"");
    put_length(text, x);
    text.put("\" y=\"");
    put_length(text, y);
    text.put("\">");
}

// Appends words and a number at a place to a text.
fn put_number_at(text: &mut Written, anchor: &str, x: u64, y: u64, words: &str, number: u64) {
    open_words(text, anchor, x, y);
    text.put(words);
    put_grouped(text, number);
    text.put("</text>\n");
}

// Appends a bar to a text, with what a mouse shows.
fn put_bar(text: &mut Written, plot: Plot, word: &[u8], bar: RunsBar) {
    text.put("<path d=\"");
    plot.area(bar).put(text);
    text.put("\"><title>");
    put_html(text, word);
    text.push(b' ');
    put_grouped(text, bar.first);
    if bar.first < bar.last {
        text.put(" to ");
        put_grouped(text, bar.last);
    }
    text.put(": ");
    put_many(text, bar.runs, "run");
    text.put("</title></path>\n");
}

// Appends the bars to a text, where there are runs.
fn put_bars(text: &mut Written, plot: Plot, histogram: &Histogram<'_>) {
    text.put("<g style=\"fill:var(--blue)\">\n");
    for bar in histogram.bars {
        if bar.runs > 0 {
            put_bar(text, plot, histogram.word, *bar);
        }
    }
    text.put("</g>\n");
}

// Appends how many runs each bar has to a text, above it.
fn put_counts(text: &mut Written, plot: Plot, bars: &[RunsBar]) {
    for bar in bars {
        if bar.runs > 0 {
            let area = plot.area(*bar);
            let x = area.x.saturating_add(area.width / 2);
            let y = area.y.saturating_sub(500);
            put_number_at(text, "middle", x, y, "", bar.runs);
        }
    }
}

// Appends a line down to the foot of the bars to a text.
fn put_mark(text: &mut Written, style: &str, x: u64, top: u64) {
    text.put("<path style=\"fill:none;");
    text.put(style);
    text.put("\" d=\"");
    put_down(text, x, top, FOOT);
    text.put("\"/>\n");
}

// Appends the line below the bars to a text, and the one of the median.
fn put_lines_of(text: &mut Written, plot: Plot, histogram: &Histogram<'_>) {
    text.put("<path style=\"fill:none;stroke:var(--waits)\" d=\"M");
    put_length(text, LEFT);
    text.push(b' ');
    put_length(text, FOOT);
    text.push(b'h');
    put_length(text, LENGTH);
    text.put("\"/>\n");
    let style = "stroke:var(--ink);stroke-width:1.5;stroke-dasharray:4 3";
    put_mark(text, style, plot.x(histogram.median), TOP);
}

// Appends the least, the median and the most to a text, below the bars.
fn put_spread(text: &mut Written, plot: Plot, histogram: &Histogram<'_>) {
    let y = FOOT + 1_600;
    put_number_at(text, "start", LEFT, y, "least ", histogram.least);
    put_number_at(text, "end", LEFT + LENGTH, y, "most ", histogram.most);
    let x = plot.x(histogram.median);
    let anchor = anchor_at(x);
    put_number_at(text, anchor, x, FOOT + 3_400, "median ", histogram.median);
}

// Returns whether the run that the page is of has a number within those of the others.
fn is_within(histogram: &Histogram<'_>) -> bool {
    histogram.least <= histogram.own && histogram.own <= histogram.most
}

// Appends the run that the page is of to a text, with its number above the bars, where it has one within those of the others.
fn put_own(text: &mut Written, plot: Plot, histogram: &Histogram<'_>) {
    if !is_within(histogram) {
        return;
    }
    let x = plot.x(histogram.own);
    put_mark(text, "stroke:var(--chain);stroke-width:2", x, 2_000);
    text.put("<g style=\"fill:var(--chain)\">\n");
    put_number_at(text, anchor_at(x), x, 1_400, "this run ", histogram.own);
    text.put("</g>\n");
}

// Appends the drawing to a text.
fn put_drawing(text: &mut Written, plot: Plot, histogram: &Histogram<'_>) {
    text.put(
        "<figure style=\"max-width:760px\">\n<svg xmlns=\"http://www.w3.org/2000/svg\" viewBox=\"0 0 640 230\" role=\"img\" \
         style=\"font:12px system-ui,sans-serif\" aria-label=\"How many of these runs have which ",
    );
    put_html(text, histogram.word);
    text.put("; the text below has the numbers\">\n");
    put_bars(text, plot, histogram);
    put_lines_of(text, plot, histogram);
    put_own(text, plot, histogram);
    text.put(
        "<g style=\"fill:var(--ink);stroke:var(--paper);stroke-width:3px;paint-order:stroke\">\n",
    );
    put_counts(text, plot, histogram.bars);
    text.put("</g>\n<g style=\"fill:var(--soft)\">\n");
    put_spread(text, plot, histogram);
    text.put("</g>\n</svg>\n</figure>\n");
}

// Appends to a text that the run of the page has a number less or more than all others, where it has.
fn put_outside(text: &mut Written, histogram: &Histogram<'_>) {
    if histogram.own < histogram.least {
        text.put(", less than any of these");
    } else if histogram.most < histogram.own {
        text.put(", more than any of these");
    }
}

// Appends the numbers in words to a text.
fn put_words(text: &mut Written, histogram: &Histogram<'_>) {
    text.put("<p>The ");
    put_html(text, histogram.word);
    text.put(" of these runs is ");
    put_grouped(text, histogram.least);
    text.put(" at least, ");
    put_grouped(text, histogram.median);
    text.put(" at the median, and ");
    put_grouped(text, histogram.most);
    text.put(" at most. That of the run of this page is ");
    put_grouped(text, histogram.own);
    put_outside(text, histogram);
    text.put(".</p>\n");
}

// Appends the section of runs to a text.
fn put_section(text: &mut Written, drawn: &DrawnRuns<'_>) {
    let histogram = &drawn.histogram;
    text.put("\n<section id=\"runs\" aria-labelledby=\"runs-title\">\n<h2 id=\"runs-title\">");
    put_many(text, drawn.runs, "run");
    text.put("</h2>\n");
    put_words(text, histogram);
    if let Some(first) = histogram.bars.first() {
        put_drawing(text, Plot::of(histogram.bars, *first), histogram);
    }
    text.put(
        "<pre class=\"wide\" tabindex=\"0\" role=\"region\" aria-label=\"What these runs say\">",
    );
    put_lines(text, drawn.text.trim_ascii_end());
    text.put("</pre>\n</section>");
}

/// Appends the runs that seeds draw to a text, where the page shows some.
pub(crate) fn put_runs(text: &mut Written, page: &Page<'_>) {
    if let Some(drawn) = &page.runs {
        put_section(text, drawn);
    }
}
