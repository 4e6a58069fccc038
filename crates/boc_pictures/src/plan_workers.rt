// A plan on workers as a part of a drawing.

use crate::axis::put_down;
use crate::drawing::{Point, put_label};
use crate::runs::{Lanes, put_lanes};
use crate::sheet::{BAR, LANE, MARGIN, Part, Sheet, lane_top, put_share};
use crate::steps::Height;
use crate::worker_plan::WorkerPlan;
use crate::written::Written;
use boc_bars::Bar;
use std::alloc::{AllocError, Global};

/// Returns a plan on workers with a lane for each worker, and a line where it ends.
pub(crate) fn workers_part(
    alloc: Global,
    sheet: Sheet<'_>,
    plan: WorkerPlan<'_>,
    top: u64,
) -> Result<Part, AllocError> {
    let bars = bars_of(alloc, sheet, plan)?;
    let foot = lane_top(top, plan.p as usize);
    let mut lanes = Written::new(alloc);
    put_labels(alloc, &mut lanes, plan, &bars, top)?;
    let places = Lanes {
        top,
        pitch: Height {
            hundredths: LANE,
            rows: 1,
        },
        gap: LANE - BAR,
    };
    put_lanes(alloc, &mut lanes, sheet, places, &bars)?;
    put_end(&mut lanes, sheet, plan, top, foot);
    Ok(Part { lanes, foot })
}

// Returns the bars of a plan, sorted by worker and start.
fn bars_of(alloc: Global, sheet: Sheet<'_>, plan: WorkerPlan<'_>) -> Result<Vec<Bar>, AllocError> {
    let mut bars = Vec::with_capacity(alloc, sheet.subject.count())?;
    for shown in &sheet.subject.shown {
        if let Some(bar) = plan.bar(shown.row) {
            bars.push(bar)?;
        }
    }
    bars.sort_unstable_by_key(|bar| (bar.lane, bar.start, bar.row));
    Ok(bars)
}

// Appends to a text what each worker is called, and for what part of the plan it is busy.
fn put_labels(
    alloc: Global,
    text: &mut Written,
    plan: WorkerPlan<'_>,
    bars: &[Bar],
    top: u64,
) -> Result<(), AllocError> {
    let mut busy = vec![in alloc; 0u64; plan.p as usize]?;
    for bar in bars {
        if let Some(ticks) = busy.get_mut(bar.lane as usize) {
            *ticks = ticks.saturating_add(bar.end.saturating_sub(bar.start));
        }
    }
    for (worker, ticks) in busy.iter().enumerate() {
        let y = lane_top(top, worker).saturating_add(1_450);
        let mut label = Written::new(alloc);
        label.put("worker ");
        label.put_number(worker as u64);
        let label = label.into_text()?;
        put_label(text, Point { x: MARGIN, y }, &label);
        put_share(text, y, *ticks, plan.ends_at);
    }
    Ok(())
}

// Appends a line to a text where a plan ends.
fn put_end(text: &mut Written, sheet: Sheet<'_>, plan: WorkerPlan<'_>, top: u64, foot: u64) {
    text.put("<path class=\"end\" d=\"");
    put_down(text, sheet.axis.at(plan.ends_at), top, foot);
    text.put("\"><title>");
    text.put(plan.end_name());
    text.put("</title></path>\n");
}

/// Appends what is above a plan on workers to a text.
pub(crate) fn put_plan_words(text: &mut Written, plan: WorkerPlan<'_>) {
    text.put(plan.title());
    text.push(b' ');
    text.put(plan.joint());
    text.push(b' ');
    text.put_number(u64::from(plan.p));
    text.put(if plan.p == 1 {
        " worker: end "
    } else {
        " workers: end "
    });
    text.put_number(plan.ends_at);
    text.put(", bound ");
    text.put_number(plan.bound);
}
