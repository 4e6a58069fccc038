// What the picture that is requested is made of.

ghost use Rattle.std.specs.Prelude.{◌≡◌, true, IfOk, MatchResult};
ghost use Rattle.boc_plans.specs.Seen.{seen};
ghost use Rattle.boc_greedy.specs.Curves.{IsCurve};
ghost use Rattle.boc_run_commands.specs.NamedRuns.{AreFew, IsShort};
ghost use Rattle.boc_view.specs.Lines.{AreLinesFor};
ghost use Rattle.boc_view.specs.Materials.{HasParts, IsFound, IsMaterial, IsOfPicture, IsPart, IsPlanFor, IsProgramShown};
ghost use Rattle.boc_view.specs.Materials.{curve_workers, page_workers, shows_costs, shows_curve};

use crate::found::{Found, found_of};
use crate::lines::lines_of;
use crate::runs::{RunsShown, runs_for};
use crate::wanted::{Picture, Wanted};
use boc_busy::TimedRows;
use boc_commands::{Fault, NamedRun, Origin};
use boc_greedy::{CurvePoint, Greedy, greedy};
use boc_names::Names;
use boc_page::LineTicks;
use boc_pictures::Subject;
use boc_plans::sharing::Sharing;
use boc_program::count::Workers;
use boc_progress::Progress;
use boc_run_commands::measured::{measured_run, workers_measured};
use boc_run_commands::named_run::{RECORD_WORD, named_run};
use boc_run_commands::timed_note::{other_run, timed_note_on};
use boc_runs::rows::Rows;
use boc_whatif::WhatIf;
use boc_workers::Gate;
use std::alloc::{AllocError, Global};
use std::sync::Wait;
use std::thread::Threads;

/// What a picture of a run is made of. A part that it doesn't show is not there.
#[derive(Drop)]
pub(crate) struct Material {
    pub subject: Subject,
    /// The greedy plan, where one is requested.
    pub greedy: Option<Greedy>,
    /// When the rows of a timed run ran, and on which workers, where they have their own ticks.
    pub times: Option<TimedRows>,
    /// When the greedy plans for 1, 2, 3 and more workers end.
    pub points: Option<Vec<CurvePoint>>,
    /// What a page says of the run.
    pub found: Option<Found>,
    /// The ticks of the lines of the program that take some, where the picture shows the program.
    pub lines: Vec<LineTicks>,
    /// What a page shows of runs that seeds draw, where they are asked for.
    pub runs: Option<RunsShown>,
    /// The text of the program; no bytes where it isn't shown, or where the input is a record.
    pub program: Vec<u8>,
    /// The note that the timed run with which the run is compared has another span; no bytes where there is nothing to note.
    pub note: Vec<u8>,
}

/// Returns what the picture that is wanted is made of: the run of a program or of a record, with the bytes of the file given with it, if there is one. Its rows
/// have their own ticks or typical ones. Where runs that seeds draw are asked for, it has these too. A refusal is that of `runs_for` or of `named_run`, or
/// memory was refused.
#[tactic(auto, using(crate::proofs::Refused::of_memory, crate::proofs::Refused::of_run, crate::proofs::Refused::of_runs))]
pub(crate) fn material_of<R: Threads + Wait + Sync, G: Gate>(
    rt: &R,
    alloc: Global,
    wanted: &Wanted,
    beside: Vec<u8>,
    text: Vec<u8>,
    gate: &G,
    progress: &mut dyn Progress,
) -> Result<Material, Fault>
    ensures { MatchResult result
        (λ material. IsMaterial wanted.now beside.items text.items material × IsShort text.items)
        (IsOfPicture G.always_on wanted.now beside.items text.items) }
{
    let program = program_shown(alloc, wanted.picture, &text)?;
    let workers = workers_measured(wanted.typical, wanted.workers_shown());
    let other = other_run(alloc, wanted.schedule, workers, &wanted.file, &text)?;
    let runs = runs_for(rt, alloc, wanted.runs_shown(), &text, progress)?;
    let origin = Origin {
        schedule: wanted.schedule,
        file: &wanted.file,
        bytes: beside,
    };
    let run = named_run(rt, alloc, text, origin, gate, progress)?;
    let note = timed_note_on(alloc, &other, wanted.sharing, &run.rows, progress)?;
    let measured = measured_run(alloc, wanted.typical, run)?;
    let material = parts_of(rt, alloc, wanted, measured, program, runs, note, progress)?;
    Ok(material)
}

// Returns what a picture is made of, of this run, with this text of a program, these runs that seeds draw, and this note.
fn parts_of<R: Threads + Sync>(
    rt: &R,
    alloc: Global,
    wanted: &Wanted,
    run: NamedRun,
    program: Vec<u8>,
    runs: Option<RunsShown>,
    note: Vec<u8>,
    progress: &mut dyn Progress,
) -> Result<Material, AllocError>
    requires { AreFew run.rows run.names }
    ensures parts { IfOk result (HasParts wanted.now run) }
    ensures program { IfOk result (λ material. material.program.items ≡ program.items) }
    ensures lines { IfOk result (λ material. AreLinesFor program.items run.rows material.found material.lines.items) }
    ensures runs { IfOk result (λ material. material.runs ≡ runs) }
    ensures note { IfOk result (λ material. material.note.items ≡ note.items) }
{
    let NamedRun { rows, names, times } = run;
    let greedy = plan_for(alloc, &rows, wanted.sharing, wanted.workers_shown())?;
    let points = points_for(rt, alloc, &rows, wanted)?;
    let found = found_for(rt, alloc, &rows, &names, wanted, progress)?;
    let lines = lines_for(alloc, &program, &rows, &found)?;
    let times = if wanted.picture.shows_workers() {
        times
    } else {
        None
    };
    let subject = Subject::of(alloc, rows, names, wanted.sharing)?;
    Ok(Material {
        subject,
        greedy,
        times,
        points,
        found,
        lines,
        runs,
        program,
        note,
    })
}

// Returns the text of the program, where the picture shows it; no bytes else.
fn program_shown(alloc: Global, picture: Picture, text: &[u8]) -> Result<Vec<u8>, AllocError>
    ensures { IfOk result (λ shown. IsProgramShown (shows_costs picture) text.now shown.items) }
{
    if picture.shows_costs() {
        program_of(alloc, text)
    } else {
        Ok(Vec::new(alloc))
    }
}

// Returns the text of a program; no bytes where it is that of a record.
fn program_of(alloc: Global, text: &[u8]) -> Result<Vec<u8>, AllocError>
    ensures { IfOk result (λ shown. IsProgramShown true text.now shown.items) }
{
    if text.starts_with(RECORD_WORD) {
        return Ok(Vec::new(alloc));
    }
    Vec::from_slice(alloc, text)
}

// Returns the ticks of the lines of the program, where a page says what was found of the rows.
fn lines_for(
    alloc: Global,
    program: &[u8],
    rows: &Rows,
    found: &Option<Found>,
) -> Result<Vec<LineTicks>, AllocError>
    ensures { IfOk result (λ lines. AreLinesFor program.now rows.now found.now lines.items) }
{
    match found {
        Some(found) => lines_of(alloc, program, rows, &found.advised.why.profile.chain.steps),
        None => Ok(Vec::new(alloc)),
    }
}

// Returns the greedy plan of rows for the given number of workers, where a number is given.
fn plan_for(
    alloc: Global,
    rows: &Rows,
    sharing: Sharing,
    workers: Option<Workers>,
) -> Result<Option<Greedy>, AllocError>
    ensures { IfOk result (IsPlanFor rows.now sharing workers) }
{
    match workers {
        Some(workers) => Ok(Some(greedy(alloc, rows, workers, sharing)?)),
        None => Ok(None),
    }
}

// Returns the points of the curve of rows, where the picture shows it.
fn points_for<R: Threads + Sync>(
    rt: &R,
    alloc: Global,
    rows: &Rows,
    wanted: &Wanted,
) -> Result<Option<Vec<CurvePoint>>, AllocError>
    ensures { IfOk result (IsPart (shows_curve wanted.now.picture)
        (λ points. IsCurve (seen wanted.now.sharing rows.now) (curve_workers wanted.now) points.items)) }
{
    if !wanted.picture.shows_curve() {
        return Ok(None);
    }
    let points = points_of(rt, alloc, rows, wanted.sharing, wanted.most())?;
    Ok(Some(points))
}

// When the greedy plans of rows for 1, 2, 3 workers and so on up to the most end.
fn points_of<R: Threads + Sync>(
    rt: &R,
    alloc: Global,
    rows: &Rows,
    sharing: Sharing,
    most: Workers,
) -> Result<Vec<CurvePoint>, AllocError>
    ensures { IfOk result (λ points. IsCurve (seen sharing rows.now) most points.items) }
{
    WhatIf::new(alloc, rows, sharing)?.curve(rt, alloc, most)
}

// Returns what a page says of rows with these names, where the picture is one.
fn found_for<R: Threads + Sync>(
    rt: &R,
    alloc: Global,
    rows: &Rows,
    names: &Names,
    wanted: &Wanted,
    progress: &mut dyn Progress,
) -> Result<Option<Found>, AllocError>
    requires { AreFew rows.now names.now }
    ensures { IfOk result (IsPart (shows_costs wanted.now.picture) (IsFound rows.now names.now wanted.now.sharing (page_workers wanted.now.workers))) }
{
    if !wanted.picture.shows_costs() {
        return Ok(None);
    }
    let workers = wanted.page_workers();
    let found = found_of(rt, alloc, rows, names, wanted.sharing, workers, progress)?;
    Ok(Some(found))
}
