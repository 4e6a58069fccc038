// Plans on workers in text.

use crate::columns::{Columns, put_busy, put_folded, put_line};
use crate::letters::{letters, mark_of, put_key};
use crate::subject::Subject;
use crate::worker_plan::WorkerPlan;
use crate::written::Written;
use std::alloc::{AllocError, Global};

/// Returns a plan on workers, a line for each worker, in the given number of columns: a letter for each def, and what part of the plan the worker is busy.
pub fn workers_text(
    alloc: Global,
    subject: &Subject,
    plan: WorkerPlan<'_>,
    width: usize,
) -> Result<Vec<u8>, AllocError> {
    let letters = letters(alloc, &subject.names.def_names)?;
    let columns = Columns::new(plan.ends_at, width.saturating_sub(18).max(20));
    let mut head = Written::new(alloc);
    put_head(&mut head, plan);
    columns.put_scale(&mut head);
    put_key(&mut head, subject, &letters, width);
    let mut text = Written::new(alloc);
    put_folded(&mut text, &head.into_text()?, width);
    for worker in 0..plan.p {
        put_worker(alloc, &mut text, subject, plan, worker, &letters, columns)?;
    }
    text.into_text()
}

// Puts what plan it is, and when it ends.
fn put_head(text: &mut Written, plan: WorkerPlan<'_>) {
    text.put(plan.name());
    text.push(b' ');
    text.put(plan.joint());
    text.push(b' ');
    text.put_number(u64::from(plan.p));
    text.put(" workers, end ");
    text.put_number(plan.ends_at);
    text.put(", bound ");
    text.put_number(plan.bound);
    text.put(": ");
}

// Puts the line of a worker.
fn put_worker(
    alloc: Global,
    text: &mut Written,
    subject: &Subject,
    plan: WorkerPlan<'_>,
    worker: u32,
    letters: &[u8],
    columns: Columns,
) -> Result<(), AllocError> {
    let mut line = columns.line(alloc)?;
    let mut busy: u64 = 0;
    for shown in &subject.shown {
        if let Some(bar) = plan.bar(shown.row)
            && bar.lane == worker
        {
            let letter = mark_of(letters, subject, bar.row);
            columns.paint(&mut line, bar.start, bar.end, letter);
            busy = busy.saturating_add(bar.end.saturating_sub(bar.start));
        }
    }
    text.put("worker ");
    text.put_number(u64::from(worker));
    text.put(if worker < 10 { "  " } else { " " });
    put_line(text, &line);
    put_busy(text, busy, plan.ends_at);
    Ok(())
}
