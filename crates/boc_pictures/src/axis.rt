// Ticks as places along a line.

use crate::written::Written;

/// Where numbers up to an end are on a line: it begins at a place, and is so long. Places and lengths are hundredths of a pixel.
#[derive(Clone, Copy, Debug)]
pub(crate) struct Axis {
    pub(crate) end: u64,
    pub(crate) from: u64,
    pub(crate) length: u64,
}

impl Axis {
    /// Returns how long this many of the numbers are.
    pub(crate) fn long(self, number: u64) -> u64 {
        number.saturating_mul(self.length) / self.end.max(1)
    }

    /// Returns the place of a number.
    pub(crate) fn at(self, number: u64) -> u64 {
        self.from.saturating_add(self.long(number))
    }

    /// Returns how long the line is between two numbers: what is from one to the next adds up to what is from the first to the last.
    pub(crate) fn between(self, start: u64, end: u64) -> u64 {
        self.long(end).saturating_sub(self.long(start))
    }

    /// Returns how far from each other the numbers are that are next to the line: a power of ten, or two or five of it, at most this many of them.
    pub(crate) fn step(self, most: u64) -> u64 {
        let mut step: u64 = 1;
        for _ in 0..60 {
            if self.end / step.max(1) <= most {
                return step.max(1);
            }
            step = next_step(step);
        }
        step.max(1)
    }
}

// Returns the step after one: 1, 2, 5, 10, 20, 50 and so on.
fn next_step(step: u64) -> u64 {
    let mut lead = step;
    for _ in 0..20 {
        if lead < 10 {
            break;
        }
        lead /= 10;
    }
    if lead == 2 {
        step.saturating_mul(5) / 2
    } else {
        step.saturating_mul(2)
    }
}

/// Appends a length in hundredths of a pixel to a text, in pixels.
pub(crate) fn put_length(text: &mut Written, hundredths: u64) {
    text.put_number(hundredths / 100);
    let rest = hundredths % 100;
    if rest == 0 {
        return;
    }
    text.push(b'.');
    text.put_number(rest / 10);
    if rest % 10 == 0 {
        return;
    }
    text.put_number(rest % 10);
}

/// A rectangle, in hundredths of a pixel.
#[derive(Clone, Copy, Debug)]
pub(crate) struct Area {
    pub(crate) x: u64,
    pub(crate) y: u64,
    pub(crate) width: u64,
    pub(crate) height: u64,
}

impl Area {
    /// Returns what is from one tick to another one, from an edge on down, this high.
    pub(crate) fn of(axis: Axis, start: u64, end: u64, y: u64, height: u64) -> Area {
        Area {
            x: axis.at(start),
            y,
            width: axis.between(start, end),
            height,
        }
    }

    /// Appends the rectangle to the shape of a path.
    pub(crate) fn put(self, text: &mut Written) {
        text.push(b'M');
        put_length(text, self.x);
        text.push(b' ');
        put_length(text, self.y);
        text.push(b'h');
        put_length(text, self.width);
        text.push(b'v');
        put_length(text, self.height);
        text.put("h-");
        put_length(text, self.width);
        text.push(b'z');
    }
}

/// Appends a line from a point down to another height to the shape of a path.
pub(crate) fn put_down(text: &mut Written, x: u64, from: u64, to: u64) {
    text.push(b'M');
    put_length(text, x);
    text.push(b' ');
    put_length(text, from);
    text.push(b'V');
    put_length(text, to);
}

/// Appends a line from a point to another place to the shape of a path.
pub(crate) fn put_across(text: &mut Written, y: u64, from: u64, to: u64) {
    text.push(b'M');
    put_length(text, from);
    text.push(b' ');
    put_length(text, y);
    text.push(b'H');
    put_length(text, to);
}

// Appends the line of a number down to a place to a text, and the number above it. Every other number leaves a narrow drawing.
fn put_mark(text: &mut Written, axis: Axis, tick: u64, is_odd: bool, top: u64, foot: u64) {
    let x = axis.at(tick);
    text.put("<path d=\"");
    put_down(text, x, top, foot);
    text.put(if is_odd {
        "\"/><text class=\"wide\" x=\""
    } else {
        "\"/><text x=\""
    });
    put_length(text, x);
    text.put("\" y=\"");
    put_length(text, top.saturating_sub(500));
    text.put("\">");
    text.put_number(tick);
    text.put("</text>\n");
}

/// Appends the numbers above a line to a text, and a thin line under each down to a place.
pub(crate) fn put_axis(text: &mut Written, axis: Axis, top: u64, foot: u64) {
    let step = axis.step(10);
    text.put("<g class=\"axis\">\n");
    for number in 0..=axis.end / step.max(1) {
        let tick = number.saturating_mul(step);
        put_mark(text, axis, tick, number % 2 == 1, top, foot);
    }
    text.put("</g>\n");
}
