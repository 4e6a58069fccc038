// Plans as a trace, for the viewers of such.

use crate::plan_lines::stretches_of;
use crate::spelling::Spelling;
use crate::subject::{Shown, Subject};
use crate::worker_plan::WorkerPlan;
use crate::written::Written;
use boc_bars::{Bar, lane_count, packed};
use boc_plans::chain::Via;
use std::alloc::{AllocError, Global};

// The process of the earliest plan, that of the greedy one, and that of the timed run.
const EARLIEST: u32 = 1;

const GREEDY: u32 = 2;

const TIMED: u32 = 3;

// The most bytes of a name.
const NAME_BYTES: usize = 160;

// The begins of events: what is said of threads, a row, and the two ends of an arrow.
const METADATA: &str = "{\"ph\":\"M\"";

const WHOLE: &str = "{\"ph\":\"X\"";

const LEAVES: &str = "{\"ph\":\"s\"";

const ARRIVES: &str = "{\"ph\":\"f\",\"bp\":\"e\"";

/// Returns the earliest plan, and these plans on workers, as events of a trace in JSON: a process for each plan, a thread for each lane or worker,
/// an event for each row from its start to its end, and arrows along the chain. A tick is a microsecond.
pub fn trace_text(
    alloc: Global,
    subject: &Subject,
    plans: &[WorkerPlan<'_>],
) -> Result<Vec<u8>, AllocError> {
    let bars = packed(alloc, &stretches_of(alloc, subject)?)?;
    let mut text = Written::new(alloc);
    text.put("{\"displayTimeUnit\":\"ms\",\"traceEvents\":[\n");
    put_process(&mut text, EARLIEST, "the earliest plan");
    put_threads(&mut text, EARLIEST, "lane", lane_count(&bars));
    for bar in &bars {
        put_event(&mut text, subject, EARLIEST, bar);
    }
    put_arrows(alloc, &mut text, subject, &bars)?;
    for plan in plans {
        put_plan(&mut text, subject, *plan);
    }
    put_sums(&mut text, subject);
    text.into_text()
}

// Puts a plan on workers.
fn put_plan(text: &mut Written, subject: &Subject, plan: WorkerPlan<'_>) {
    let process = if plan.is_timed() { TIMED } else { GREEDY };
    put_process(text, process, plan.name());
    put_threads(text, process, "worker", u64::from(plan.p));
    for shown in &subject.shown {
        if let Some(bar) = plan.bar(shown.row) {
            put_event(text, subject, process, &bar);
        }
    }
}

// Puts the work and the span, and the end of the trace.
fn put_sums(text: &mut Written, subject: &Subject) {
    open_meta(text, EARLIEST, 0, "process_labels");
    text.put("\"labels\":\"work ");
    text.put_number(subject.work);
    text.put(" span ");
    text.put_number(subject.span);
    text.put("\"}}\n]}\n");
}

// Puts the begin of an event in a thread of a process, which begins with its kind.
fn open_event(text: &mut Written, kind: &str, process: u32, thread: u64) {
    text.put(kind);
    text.put(",\"pid\":");
    text.put_number(u64::from(process));
    text.put(",\"tid\":");
    text.put_number(thread);
}

// Puts the begin of what is said of a thread of a process, or of the process.
fn open_meta(text: &mut Written, process: u32, thread: u64, name: &str) {
    open_event(text, METADATA, process, thread);
    text.put(",\"name\":\"");
    text.put(name);
    text.put("\",\"args\":{");
}

// Puts what a process is called.
fn put_process(text: &mut Written, process: u32, name: &str) {
    open_meta(text, process, 0, "process_name");
    text.put("\"name\":\"");
    text.put(name);
    text.put("\"}},\n");
}

// Puts what the threads of a process are called.
fn put_threads(text: &mut Written, process: u32, name: &str, count: u64) {
    for thread in 0..count {
        open_meta(text, process, thread, "thread_name");
        text.put("\"name\":\"");
        text.put(name);
        text.push(b' ');
        text.put_number(thread);
        text.put("\"}},\n");
    }
}

// Puts the event of a bar.
fn put_event(text: &mut Written, subject: &Subject, process: u32, bar: &Bar) {
    open_event(text, WHOLE, process, u64::from(bar.lane));
    put_key(text, "ts", bar.start);
    put_key(text, "dur", bar.end.saturating_sub(bar.start));
    text.put(",\"name\":\"");
    Spelling::Json.put(text, subject.name(bar.row), NAME_BYTES);
    text.put("\",\"args\":{\"row\":");
    text.put_number(u64::from(bar.row));
    if let Some(row) = subject.shown.get(bar.row as usize) {
        put_shown(text, subject, row);
    }
    text.put("}},\n");
}

// Puts a key of an object that is not its first one, and its number.
fn put_key(text: &mut Written, key: &str, number: u64) {
    text.put(",\"");
    text.put(key);
    text.put("\":");
    text.put_number(number);
}

// Puts when and why a row starts when it does in the earliest plan.
fn put_shown(text: &mut Written, subject: &Subject, row: &Shown) {
    put_key(text, "spawned", row.spawned);
    if let Some(after) = row.after {
        put_key(text, "after", u64::from(after));
        text.put(",\"over\":\"");
        subject.put_handed(text, Spelling::Json, after, row.row);
        text.push(b'"');
    }
    put_key(text, "chain", u64::from(row.through));
}

// Returns the lane of each row.
fn lanes_of(alloc: Global, subject: &Subject, bars: &[Bar]) -> Result<Vec<u32>, AllocError> {
    let mut lanes = vec![in alloc; 0u32; subject.count()]?;
    for bar in bars {
        if let Some(lane) = lanes.get_mut(bar.row as usize) {
            *lane = bar.lane;
        }
    }
    Ok(lanes)
}

// Puts an arrow for each link of the chain, from where it leaves a row to where the next one starts.
fn put_arrows(
    alloc: Global,
    text: &mut Written,
    subject: &Subject,
    bars: &[Bar],
) -> Result<(), AllocError> {
    let lanes = lanes_of(alloc, subject, bars)?;
    for (place, step) in subject.chain.iter().enumerate() {
        if let Some(next) = subject.chain.get(place.saturating_add(1))
            && let Some(from) = lanes.get(step.row as usize)
            && let Some(to) = lanes.get(next.row as usize)
            && let Some(row) = subject.shown.get(next.row as usize)
        {
            // An arrow begins within the event that it leaves, so one tick before that ends.
            let leaves = row.start.saturating_sub(1);
            open_event(text, LEAVES, EARLIEST, u64::from(*from));
            put_end(text, leaves, place as u64, step.via);
            open_event(text, ARRIVES, EARLIEST, u64::from(*to));
            put_end(text, row.start, place as u64, step.via);
        }
    }
    Ok(())
}

// Puts when an end of an arrow is, and which arrow it is of.
fn put_end(text: &mut Written, tick: u64, id: u64, via: Via) {
    put_key(text, "ts", tick);
    put_key(text, "id", id);
    text.put(",\"cat\":\"chain\",\"name\":\"");
    text.put(if via == Via::Spawn { "spawn" } else { "order" });
    text.put("\"},\n");
}
