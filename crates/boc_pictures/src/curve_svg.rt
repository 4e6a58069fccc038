// The ends of greedy plans as a drawing.

use crate::axis::{Axis, put_across, put_length};
use crate::curve_lines::{enough, speed_up};
use crate::drawing::{Heading, Point, open_words, put_heading, put_words, whole};
use crate::html::put_hundredths;
use crate::written::Written;
use boc_greedy::CurvePoint;
use std::alloc::{AllocError, Global};

// Lengths, in hundredths of a pixel.
const WIDTH: u64 = 72_000;

const LEFT: u64 = 6_000;

const RIGHT: u64 = 2_500;

const HIGH: u64 = 33_000;

/// A curve that is drawn.
#[derive(Clone, Copy)]
pub struct DrawnCurve<'a> {
    pub heading: Heading<'a>,
    pub work: u64,
    pub span: u64,
    pub points: &'a [CurvePoint],
}

/// Where the points of a curve are: across by workers, and up by the speed-up over one worker, in hundredths.
#[derive(Clone, Copy)]
struct Plot {
    across: Axis,
    up: Axis,
    foot: u64,
}

/// An end that each number of workers has.
#[derive(Clone, Copy)]
enum End {
    /// That before which no plan ends.
    Least,
    /// That by which the greedy plan has ended.
    Bound,
    /// That of the greedy plan.
    Greedy,
}

impl End {
    // Returns the class of its line.
    fn class(self) -> &'static str {
        match self {
            End::Least => "least",
            End::Bound => "bound",
            End::Greedy => "greedy",
        }
    }

    // Returns the tick that it is for the given number of workers.
    fn of(self, point: &CurvePoint) -> u64 {
        match self {
            End::Least => point.low,
            End::Bound => point.bound,
            End::Greedy => point.end,
        }
    }
}

impl Plot {
    // Returns the plot of points whose greatest speed-up is this one, in hundredths, below an edge.
    fn of(points: &[CurvePoint], most: u64, top: u64) -> Plot {
        Plot {
            across: Axis {
                end: points.len() as u64,
                from: LEFT,
                length: WIDTH - LEFT - RIGHT,
            },
            up: Axis {
                end: most.saturating_add(most / 10),
                from: 0,
                length: HIGH,
            },
            foot: top.saturating_add(HIGH),
        }
    }

    // Returns the place of a speed-up, from above.
    fn y(self, hundredths: u64) -> u64 {
        self.foot.saturating_sub(self.up.long(hundredths))
    }

    // Returns the place of some workers.
    fn x(self, workers: u32) -> u64 {
        self.across.at(u64::from(workers))
    }
}

/// Returns how much faster the greedy plan for each number of workers is than one worker, as a drawing in SVG. It is between what the plan can't fall below and
/// what no plan gets above: as many times as there are workers, and work / span.
pub fn curve_drawing(alloc: Global, curve: &DrawnCurve<'_>) -> Result<Vec<u8>, AllocError> {
    let points = told(curve.points);
    let most = speed_up(curve.work, curve.span)
        .min((points.len() as u64).saturating_mul(100))
        .max(100);
    let mut text = Written::new(alloc);
    let y = put_heading(&mut text, curve.heading);
    put_words_above(&mut text, curve, y.saturating_add(2_000));
    let plot = Plot::of(points, most, y.saturating_add(5_000));
    put_scales(&mut text, plot, most);
    put_roofs(&mut text, plot, curve);
    for end in [End::Least, End::Bound, End::Greedy] {
        put_curve(&mut text, plot, curve.work, points, end);
    }
    put_dots(&mut text, plot, curve.work, points);
    let y = put_key(&mut text, plot.foot.saturating_add(6_500));
    whole(alloc, curve.heading, "The speed-up of ", WIDTH, y, &text)
}

// Returns the points up to where twice as many workers are as gain anything, and eight at least.
fn told(points: &[CurvePoint]) -> &[CurvePoint] {
    let count = (enough(points) as usize).saturating_mul(2).max(8);
    match points.get(..count) {
        Some(points) => points,
        None => points,
    }
}

// Appends what the curve is of to a text.
fn put_words_above(text: &mut Written, curve: &DrawnCurve<'_>, y: u64) {
    open_words(text, "h", Point { x: 1_000, y });
    text.put("Speed-up by workers: work ");
    text.put_number(curve.work);
    text.put(", span ");
    text.put_number(curve.span);
    text.put("</text>\n");
}

// Appends the frame, the numbers of workers below it, and the speed-ups next to it to a text.
fn put_scales(text: &mut Written, plot: Plot, most: u64) {
    let top = plot.foot.saturating_sub(HIGH);
    text.put("<path class=\"frame\" d=\"M");
    put_length(text, LEFT);
    text.push(b' ');
    put_length(text, top);
    text.push(b'V');
    put_length(text, plot.foot);
    text.push(b'H');
    put_length(text, WIDTH - RIGHT);
    text.put("\"/>\n");
    put_numbers(text, plot);
    put_levels(text, plot, most);
    let y = top.saturating_sub(800);
    put_words(
        text,
        "s",
        Point { x: 1_000, y },
        b"times faster than one",
        40,
    );
    let y = plot.foot.saturating_add(3_800);
    let x = WIDTH / 2;
    put_words(text, "s m", Point { x, y }, b"workers", 40);
}

// Appends the numbers of workers to a text.
fn put_numbers(text: &mut Written, plot: Plot) {
    let step = plot.across.step(16);
    for number in 1..=plot.across.end / step.max(1) {
        let workers = number.saturating_mul(step);
        let at = Point {
            x: plot.across.at(workers),
            y: plot.foot.saturating_add(1_800),
        };
        open_words(text, "s m", at);
        text.put_number(workers);
        text.put("</text>\n");
    }
}

// Appends the lines of the speed-ups to a text, each with its number.
fn put_levels(text: &mut Written, plot: Plot, most: u64) {
    let whole = Axis {
        end: plot.up.end / 100,
        ..plot.up
    };
    let step = whole.step(10);
    text.put("<g class=\"axis\">\n");
    for number in 0..=most / step.saturating_mul(100).max(1) {
        let times = number.saturating_mul(step);
        let y = plot.y(times.saturating_mul(100));
        text.put("<path d=\"");
        put_across(text, y, LEFT, WIDTH - RIGHT);
        text.put("\"/>");
        let at = Point {
            x: LEFT - 1_800,
            y: y.saturating_add(400),
        };
        open_words(text, "s", at);
        text.put_number(times);
        text.put("</text>\n");
    }
    text.put("</g>\n");
}

// Appends what no plan gets above to a text: as many times as there are workers, up to work / span, and that.
fn put_roofs(text: &mut Written, plot: Plot, curve: &DrawnCurve<'_>) {
    let parallelism = speed_up(curve.work, curve.span);
    let workers = plot.across.end.saturating_mul(100);
    let end = parallelism.min(workers);
    text.put("<polyline class=\"linear\" points=\"");
    put_point(text, plot.across.at(0), plot.y(0));
    let length = plot.across.length;
    let x = LEFT.saturating_add(end.saturating_mul(length) / workers.max(1));
    put_point(text, x, plot.y(end));
    text.put("\"><title>as many times faster as there are workers</title></polyline>\n");
    let at = Point {
        x: WIDTH - RIGHT,
        y: plot.y(end).saturating_sub(600),
    };
    open_words(text, "s e", at);
    text.put("parallelism ");
    put_hundredths(text, parallelism);
    if parallelism > workers {
        text.put(", above</text>\n");
        return;
    }
    text.put("</text>\n<path class=\"roof\" d=\"");
    put_across(text, plot.y(end), LEFT, WIDTH - RIGHT);
    text.put("\"/>\n");
}

// Appends two places to a text.
fn put_point(text: &mut Written, x: u64, y: u64) {
    put_length(text, x);
    text.push(b',');
    put_length(text, y);
    text.push(b' ');
}

// Appends the line through all points of a kind to a text.
fn put_curve(text: &mut Written, plot: Plot, work: u64, points: &[CurvePoint], end: End) {
    text.put("<polyline class=\"");
    text.put(end.class());
    text.put("\" points=\"");
    for point in points {
        put_point(
            text,
            plot.x(point.workers),
            plot.y(speed_up(work, end.of(point))),
        );
    }
    text.put("\"/>\n");
}

// Appends a dot for each greedy plan to a text, with what a mouse shows.
fn put_dots(text: &mut Written, plot: Plot, work: u64, points: &[CurvePoint]) {
    text.put("<g class=\"dots\">\n");
    for point in points {
        text.put("<circle r=\"3\" cx=\"");
        put_length(text, plot.x(point.workers));
        text.put("\" cy=\"");
        put_length(text, plot.y(speed_up(work, point.end)));
        text.put("\"><title>");
        put_told(text, work, point);
        text.put("</title></circle>\n");
    }
    text.put("</g>\n");
}

// Appends what a mouse shows at a point to a text.
fn put_told(text: &mut Written, work: u64, point: &CurvePoint) {
    text.put("workers ");
    text.put_number(u64::from(point.workers));
    text.put(": end ");
    text.put_number(point.end);
    text.put(", no plan of this run before ");
    text.put_number(point.low);
    text.put(", bound ");
    text.put_number(point.bound);
    text.put("; ");
    put_hundredths(text, speed_up(work, point.end));
    text.put(" times faster than one");
}

// Appends what the lines are to a text, and returns where that ends.
fn put_key(text: &mut Written, top: u64) -> u64 {
    let signs: [(&str, &[u8]); 5] = [
        ("greedy", b"the greedy plan"),
        ("least", b"no faster plan of this run"),
        ("bound", b"guaranteed speed-up"),
        ("linear", b"linear"),
        ("roof", b"work / span"),
    ];
    let mut y = top;
    for (number, (class, words)) in signs.iter().enumerate() {
        if number > 0 && number % 2 == 0 {
            y = y.saturating_add(2_400);
        }
        let x = if number % 2 == 0 { 1_000 } else { 37_000 };
        text.put("<path class=\"");
        text.put(class);
        text.put("\" d=\"");
        put_across(text, y.saturating_sub(400), x, x.saturating_add(3_000));
        text.put("\"/>\n");
        let x = x.saturating_add(3_800);
        put_words(text, "s", Point { x, y }, words, 40);
    }
    y.saturating_add(1_400)
}
