// The plans of a run as a drawing.

use crate::drawing::{Heading, put_heading, whole};
use crate::legend::put_legend;
use crate::palette::Palette;
use crate::plan_cowns::cowns_part;
use crate::plan_folds::folded_part;
use crate::plan_lines::MOST_LINES;
use crate::plan_rows::rows_part;
use crate::plan_workers::{put_plan_words, workers_part};
use crate::sheet::{Sheet, WIDTH, axis_to, lanes_top, put_part};
use crate::subject::Subject;
use crate::worker_plan::WorkerPlan;
use crate::written::Written;
use std::alloc::{AllocError, Global};

/// What is drawn of a run.
#[derive(Clone, Copy)]
pub struct Drawn<'a> {
    pub subject: &'a Subject,
    pub heading: Heading<'a>,
    /// Whether it is the run of a program, whose first row is main.
    pub is_program: bool,
    /// The plans on workers that are drawn below the earliest plan.
    pub plans: &'a [WorkerPlan<'a>],
    /// Whether it is drawn which row holds which cown.
    pub cowns: bool,
}

/// Returns plans as a drawing in SVG: the earliest one, with a lane for each row, or for each def if there are more than 60 rows; below it plans on workers,
/// and the cowns. The axis goes to the end of what is drawn.
pub fn plan_drawing(alloc: Global, drawn: &Drawn<'_>) -> Result<Vec<u8>, AllocError> {
    let palette = Palette::of(alloc, drawn.subject, drawn.is_program)?;
    let sheet = Sheet {
        subject: drawn.subject,
        palette: &palette,
        axis: axis_to(end_of(drawn)),
    };
    let mut text = Written::new(alloc);
    let mut y = put_heading(&mut text, drawn.heading);
    y = put_earliest(alloc, &mut text, sheet, y)?;
    y = put_plans(alloc, &mut text, sheet, drawn, y)?;
    y = put_legend(alloc, &mut text, sheet, drawn, y)?;
    whole(alloc, drawn.heading, "The plan of ", WIDTH, y, &text)
}

// Returns the last tick that is drawn.
fn end_of(drawn: &Drawn<'_>) -> u64 {
    let mut end = drawn.subject.span;
    for plan in drawn.plans {
        end = end.max(plan.ends_at);
    }
    end
}

/// Returns whether the earliest plan has a lane for each row.
pub(crate) fn has_rows(sheet: Sheet<'_>) -> bool {
    sheet.subject.count() <= MOST_LINES
}

// Appends the earliest plan to a text, and returns where it ends.
fn put_earliest(
    alloc: Global,
    text: &mut Written,
    sheet: Sheet<'_>,
    top: u64,
) -> Result<u64, AllocError> {
    let mut words = Written::new(alloc);
    words.put("The earliest plan: ");
    words.put_number(sheet.subject.count() as u64);
    let is_one = sheet.subject.count() == 1;
    words.put(if is_one {
        " row, work "
    } else {
        " rows, work "
    });
    words.put_number(sheet.subject.work);
    words.put(", span ");
    words.put_number(sheet.subject.span);
    let words = words.into_text()?;
    let part = if has_rows(sheet) {
        rows_part(alloc, sheet, lanes_top(top))?
    } else {
        folded_part(alloc, sheet, lanes_top(top))?
    };
    Ok(put_part(text, sheet.axis, top, &words, &part))
}

// Appends the plans on workers and the cowns to a text, as far as they are drawn, and returns where they end.
fn put_plans(
    alloc: Global,
    text: &mut Written,
    sheet: Sheet<'_>,
    drawn: &Drawn<'_>,
    top: u64,
) -> Result<u64, AllocError> {
    let mut y = top;
    for plan in drawn.plans {
        let mut words = Written::new(alloc);
        put_plan_words(&mut words, *plan);
        let words = words.into_text()?;
        let part = workers_part(alloc, sheet, *plan, lanes_top(y))?;
        y = put_part(text, sheet.axis, y, &words, &part);
    }
    if drawn.cowns {
        let words = b"The cowns: which row holds each in the earliest plan";
        let part = cowns_part(alloc, sheet, lanes_top(y))?;
        y = put_part(text, sheet.axis, y, words, &part);
    }
    Ok(y)
}
