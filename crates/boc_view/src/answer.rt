// The picture that is requested.

ghost use Rattle.std.specs.Prelude.{◌≡◌, ◌++◌, ◌<◌, length, IfOk, OnOk};
ghost use Rattle.boc_run_commands.specs.Commands.{CountsSource};
ghost use Rattle.boc_view.specs.Materials.{RefusesPicture, over_text, size_note};

use crate::material::{Material, material_of};
use crate::page::{page_of, run_text, title_of};
use crate::wanted::{Picture, Wanted};
use boc_commands::Fault;
use boc_front::Watch;
use boc_pictures::{
    Drawn, DrawnCurve, Heading, WorkerPlan, cowns_text, curve_drawing, curve_text, plan_drawing,
    plan_text, trace_text, workers_text,
};
use boc_progress::Progress;
use boc_run_commands::named_run::{RECORD_WORD, taken};
use boc_text::{Source, put_number};
use std::alloc::{AllocError, Global};
use std::sync::Wait;
use std::thread::Threads;

// The most rows that a drawing of plans is for.
const MOST_DRAWN: usize = 200;

/// A picture, and what is noted of the run that it shows.
#[derive(Drop)]
pub(crate) struct Shown {
    pub text: Vec<u8>,
    pub note: Vec<u8>,
}

/// Returns the picture of the run that an input reports on, in the given number of columns where it is a text, and the note on it. The file given with the
/// input, if there is one, has these bytes.
///
/// An input and a file are refused as `boc why` refuses them, and an input as `boc why --runs` does where runs are asked for. `watch` sees the threads of a run, and `progress` receives how far a draw or the following of a
/// record is.
pub(crate) fn pictured<R: Threads + Wait + Sync, S: Source>(
    rt: &R,
    alloc: Global,
    wanted: &Wanted,
    beside: Vec<u8>,
    width: usize,
    watch: &Watch<'_, R>,
    progress: &mut dyn Progress,
    source: &mut S,
) -> Result<Shown, Fault>
    requires { S.failures source.old < u64.MAX }
    ensures refused { RefusesPicture (Unit {0}) wanted.now beside.items result (S.remaining source.old) (S.remaining source.new) }
    ensures source { CountsSource result (S.failures source.old) (S.failures source.new) }
{
    let text = taken(alloc, source)?;
    let is_program = !text.starts_with(RECORD_WORD);
    let material = material_of(rt, alloc, wanted, beside, text, watch, progress)?;
    let text = drawn(alloc, wanted, &material, is_program, width)?;
    let note = noted(wanted.picture, material)?;
    Ok(Shown { text, note })
}

// Returns what is noted of a picture that is made of this: that the timed run has another span, and that its rows are many.
fn noted(picture: Picture, material: Material) -> Result<Vec<u8>, AllocError>
    ensures { IfOk result (λ note. note.items ≡ material.note.items ++ size_note picture (length material.subject.shown.items)) }
{
    let rows = material.subject.count();
    let Material { mut note, .. } = material;
    match picture {
        Picture::Plan { .. } => put_over(&mut note, rows.saturating_sub(MOST_DRAWN), rows)?,
        Picture::Text { .. } | Picture::Curve | Picture::Page | Picture::Trace => {}
    }
    Ok(note)
}

// Appends the note on rows that are more than a drawing is for to others, where this many are more.
fn put_over(text: &mut Vec<u8>, more: usize, rows: usize) -> Result<(), AllocError>
    ensures { OnOk result (text.new.items ≡ text.old.items ++ over_text more rows) }
{
    if more == 0 {
        return Ok(());
    }
    text.extend_from_slice(b"boc: note: ")?;
    put_number(text, rows as u64)?;
    text.extend_from_slice(b" rows are many for a drawing: see boc-view page\n")?;
    Ok(())
}

// Returns the picture that is made of this.
fn drawn(
    alloc: Global,
    wanted: &Wanted,
    material: &Material,
    is_program: bool,
    width: usize,
) -> Result<Vec<u8>, AllocError> {
    let subject = &material.subject;
    match wanted.picture {
        Picture::Text { cowns, .. } => lines(alloc, material, cowns, width),
        Picture::Plan { cowns } => plan_of(alloc, wanted, material, is_program, cowns),
        Picture::Curve => curve_of(alloc, wanted, material),
        Picture::Page => page_of(alloc, wanted, material),
        Picture::Trace => trace_text(alloc, subject, &on_workers(alloc, material)?),
    }
}

// Returns the plans on workers that are shown: the greedy one, and then the schedule of a timed run.
fn on_workers(alloc: Global, material: &Material) -> Result<Vec<WorkerPlan<'_>>, AllocError> {
    let mut plans = Vec::new(alloc);
    if let Some(plan) = &material.greedy {
        plans.push(WorkerPlan::greedy(plan))?;
    }
    if let Some(rows) = &material.times {
        plans.push(WorkerPlan::timed(rows))?;
    }
    Ok(plans)
}

// Returns the plans as a drawing, with the cowns or without them.
fn plan_of<'a>(
    alloc: Global,
    wanted: &'a Wanted,
    material: &'a Material,
    is_program: bool,
    cowns: bool,
) -> Result<Vec<u8>, AllocError> {
    let run = run_text(alloc, wanted)?;
    let plans = on_workers(alloc, material)?;
    let drawn = Drawn {
        subject: &material.subject,
        heading: Heading {
            title: title_of(wanted),
            run: &run,
        },
        is_program,
        plans: plans.as_slice(),
        cowns,
    };
    plan_drawing(alloc, &drawn)
}

// Returns the curve as a drawing.
fn curve_of<'a>(
    alloc: Global,
    wanted: &'a Wanted,
    material: &'a Material,
) -> Result<Vec<u8>, AllocError> {
    let Some(points) = &material.points else {
        return Ok(Vec::new(alloc));
    };
    let run = run_text(alloc, wanted)?;
    let curve = DrawnCurve {
        heading: Heading {
            title: title_of(wanted),
            run: &run,
        },
        work: material.subject.work,
        span: material.subject.span,
        points,
    };
    curve_drawing(alloc, &curve)
}

// Returns the lines that are asked for: the earliest plan where nothing else is.
fn lines(
    alloc: Global,
    material: &Material,
    cowns: bool,
    width: usize,
) -> Result<Vec<u8>, AllocError> {
    let subject = &material.subject;
    let mut text = Vec::new(alloc);
    if !cowns && material.points.is_none() && material.greedy.is_none() {
        text.extend_from_slice(&plan_text(alloc, subject, width)?)?;
    }
    if cowns {
        text.extend_from_slice(&cowns_text(alloc, subject, width)?)?;
    }
    for plan in &on_workers(alloc, material)? {
        text.extend_from_slice(&workers_text(alloc, subject, *plan, width)?)?;
    }
    if let Some(points) = &material.points {
        let curve = curve_text(alloc, subject.work, subject.span, points, width)?;
        text.extend_from_slice(&curve)?;
    }
    Ok(text)
}
