// What the parts of a drawing of plans share.

use crate::axis::{Area, Axis, put_axis};
use crate::drawing::{Point, open_words, put_words};
use crate::fitting::put_fit;
use crate::html::put_percent;
use crate::palette::Palette;
use crate::subject::{Shown, Subject};
use crate::written::Written;
use std::alloc::{AllocError, Global};

// Lengths, in hundredths of a pixel.
pub(crate) const WIDTH: u64 = 100_000;

pub(crate) const LEFT: u64 = 21_600;

const RIGHT: u64 = 7_000;

pub(crate) const MARGIN: u64 = 1_000;

/// How high a lane is with what is below it, its bar, and the strip of the chain at the foot of that.
pub(crate) const LANE: u64 = 2_500;

pub(crate) const BAR: u64 = 2_000;

pub(crate) const STRIP: u64 = 400;

// How high the heading of a part is, with the numbers of the axis.
const HEAD: u64 = 5_800;

// How wide a letter in a bar is, and how far from the bar's edges it stays.
const LETTER: u64 = 730;

const INSET: u64 = 300;

// The fewest letters of a name in a bar.
const LEAST_LETTERS: u64 = 3;

// The most letters of a name that a mouse shows.
const TITLE_LETTERS: usize = 80;

/// What is drawn, in which colours, and along which axis.
#[derive(Clone, Copy)]
pub(crate) struct Sheet<'a> {
    pub(crate) subject: &'a Subject,
    pub(crate) palette: &'a Palette,
    pub(crate) axis: Axis,
}

/// A part of a drawing: its lanes, and where the last of them ends.
#[derive(Drop)]
pub(crate) struct Part {
    pub(crate) lanes: Written,
    pub(crate) foot: u64,
}

/// Returns the axis of ticks up to an end.
pub(crate) fn axis_to(end: u64) -> Axis {
    Axis {
        end,
        from: LEFT,
        length: WIDTH - RIGHT - LEFT,
    }
}

/// Returns where the first lane of a part begins.
pub(crate) fn lanes_top(top: u64) -> u64 {
    top.saturating_add(HEAD)
}

/// Returns where the lane with this number begins.
pub(crate) fn lane_top(top: u64, lane: usize) -> u64 {
    LANE.saturating_mul(lane as u64).saturating_add(top)
}

/// Appends a part with its heading to a text, and returns where it ends.
pub(crate) fn put_part(
    text: &mut Written,
    axis: Axis,
    top: u64,
    heading: &[u8],
    part: &Part,
) -> u64 {
    let at = Point {
        x: MARGIN,
        y: top.saturating_add(2_200),
    };
    put_words(text, "h", at, heading, 100);
    put_axis(text, axis, top.saturating_add(5_000), part.foot);
    text.put_all(&part.lanes);
    part.foot
}

/// Appends what is to the right of a lane to a text: a part of a whole in percents.
pub(crate) fn put_share(text: &mut Written, y: u64, part: u64, whole: u64) {
    let x = WIDTH - MARGIN;
    open_words(text, "r", Point { x, y });
    put_percent(text, part, whole);
    text.put("</text>\n");
}

impl<'a> Sheet<'a> {
    /// Returns a row as it is in the earliest plan.
    pub(crate) fn shown(self, row: u32) -> Option<&'a Shown> {
        self.subject.shown.get(row as usize)
    }

    /// Returns how many ticks of a row the chain goes through.
    pub(crate) fn through(self, row: u32) -> u64 {
        match self.shown(row) {
            Some(shown) => u64::from(shown.through),
            None => 0,
        }
    }

    // Returns whether a row has a name.
    fn is_named(self, row: u32) -> bool {
        !self.palette.name(self.palette.place(row)).is_empty()
    }

    /// Returns what a row is called in its bar, and in the label of its lane: that begins with its number.
    pub(crate) fn label(self, alloc: Global, row: u32) -> Result<Vec<u8>, AllocError> {
        let mut label = Written::new(alloc);
        if self.is_named(row) {
            label.put_number(u64::from(row));
            label.push(b' ');
        }
        label.put_bytes(self.subject.name(row));
        label.into_text()
    }

    /// Appends the number of a row and its name to a text, or, where it has none, its cowns.
    pub(crate) fn put_called(self, text: &mut Written, row: u32) {
        text.put("row ");
        text.put_number(u64::from(row));
        if self.is_named(row) {
            text.push(b' ');
            put_fit(text, self.subject.name(row), TITLE_LETTERS);
            return;
        }
        for cown in self.subject.cowns(row) {
            text.push(b' ');
            put_fit(text, self.subject.cown_name(*cown), TITLE_LETTERS);
        }
    }

    /// Appends the names of the cowns that a row hands to another one to a text, with ` and ` between them.
    pub(crate) fn put_handed(self, text: &mut Written, from: u32, to: u32) {
        let Some(handed) = self.subject.handed(from, to) else {
            return;
        };
        for (place, cown) in handed.as_slice().iter().enumerate() {
            if place > 0 {
                text.put(" and ");
            }
            put_fit(text, self.subject.cown_name(*cown), TITLE_LETTERS);
        }
    }

    /// Appends the bar of a row from one tick to another one to a text, with its name, as much of it as fits.
    pub(crate) fn put_bar(self, text: &mut Written, row: u32, bar: Area) {
        self.put_area(text, self.palette.place(row), bar);
        let letters = bar.width.saturating_sub(2 * INSET) / LETTER;
        if letters < LEAST_LETTERS {
            return;
        }
        let ink = self.palette.colour(self.palette.place(row)).ink();
        let at = Point {
            x: bar.x.saturating_add(INSET),
            y: bar.y.saturating_add(1_320),
        };
        put_words(text, ink, at, self.subject.name(row), letters as usize);
    }

    /// Appends a rectangle in the colour of the def at a place to a text.
    pub(crate) fn put_area(self, text: &mut Written, place: u32, area: Area) {
        text.put("<path ");
        self.palette.colour(place).put_class(text);
        text.put(" d=\"");
        area.put(text);
        text.put("\"/>\n");
    }
}
