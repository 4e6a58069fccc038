// Stretches of lanes that are filled alike.

use crate::axis::{Area, Axis};
use crate::written::Written;
use std::alloc::{AllocError, Global};

// What is filled of a lane.
#[derive(Clone, Copy)]
struct Stripe {
    start: u64,
    end: u64,
    y: u64,
}

/// Stretches of lanes: those that touch are one.
#[derive(Drop)]
pub(crate) struct Stripes {
    list: Vec<Stripe>,
}

impl Stripes {
    /// Returns no stretches.
    pub(crate) fn new(alloc: Global) -> Stripes {
        Stripes {
            list: Vec::new(alloc),
        }
    }

    /// Adds what is from one tick to another one, from an edge on down.
    pub(crate) fn add(&mut self, start: u64, end: u64, y: u64) -> Result<(), AllocError> {
        if start >= end {
            return Ok(());
        }
        if let Some(last) = self.list.last_mut()
            && last.y == y
            && last.end == start
        {
            last.end = end;
            return Ok(());
        }
        self.list.push(Stripe { start, end, y })?;
        Ok(())
    }

    /// Appends the stretches to a text as one path of a class, this high.
    pub(crate) fn put(&self, text: &mut Written, class: &str, axis: Axis, height: u64) {
        if self.list.is_empty() {
            return;
        }
        text.put("<path class=\"");
        text.put(class);
        text.put("\" d=\"");
        for stripe in &self.list {
            Area::of(axis, stripe.start, stripe.end, stripe.y, height).put(text);
        }
        text.put("\"/>\n");
    }
}
