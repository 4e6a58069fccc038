// The command `whatif`.

ghost use Rattle.std.specs.Prelude.{◌≡◌, ◌≢◌, ◌==◌, ◌<◌, ◌≤◌, [], ℕ, All, Err, IfErr, IfOk, List, MatchResult, None, Ok, length, true};
ghost use Rattle.std.specs.List.{list_all, list_any};
ghost use Rattle.boc_program.specs.declared.limits.TheConstants.{MOST_COWNS, MOST_ROWS};
ghost use Rattle.boc_names.specs.declared.names.Names.{Names};
ghost use Rattle.boc_names.specs.Names.{AreNumbers};
ghost use Rattle.boc_plans.specs.Seen.{seen};
ghost use Rattle.boc_record.specs.Reading.{ReadsCounted};
ghost use Rattle.boc_plan_commands.specs.Asked.{AreAskedEarly, AreAskedFor, IsOfEarly, IsOfEdits, is_of_row, names_no_row};
ghost use Rattle.boc_run_commands.specs.Commands.{AnswersInput, Leaves, CountsSource, CountsSink, RefusesRecord};
ghost use Rattle.boc_run_commands.specs.Faults.{gone_of};
ghost use Rattle.boc_run_commands.specs.NamedRuns.{AreFew};
ghost use Rattle.boc_plan_commands.specs.ProgramInputs.{RefusesEither, supplied_to};
ghost use Rattle.boc_plan_commands.specs.WhatIfAnswers.{AnswersWhatIf, AreChangedSo, IsAskedEnd, IsOfAsked, IsOfWhatIf, IsOutcome, IsShortAnswer};
ghost use Rattle.boc_plan_commands.specs.WhatIfAnswers.{IsWhatIfAnswer};
ghost use Rattle.boc_plan_commands.specs.WhatIfAnswers.{IsMeasuredReport, IsWhatIfReport, RefusesAsked, RefusesMeasured, RefusesWhatIf};

use crate::meant::{cowns_meant, edits_meant, marks_of, owner_of};
use crate::program_input::{Setting, run_of_program, supplied_to};
use boc_input::{TakesBack, program_taken};
use boc_names::{Names, numbers_as_names};
use boc_plans::sharing::Sharing;
use boc_program::count::Workers;
use boc_progress::Progress;
use boc_record::read_counted;
use boc_run_commands::measured::measured_run;
use boc_run_commands::named_run::{NamedRun, named_record};
use boc_run_commands::report::report_after;
use boc_run_commands::{Fault, InputFault};
use boc_runs::rows::Rows;
use boc_text::{Sink, Source, put_out};
use boc_whatif::{Unfit, WhatIf};
use boc_why::{shares_by_def, spawn_early, without_all};
use boc_why_report::{Outcome, short_text};
use boc_words::{AskedChanges, AskedEdit, AskedPlans, Schedule, WhatIfFile};
use boc_workers::Gate;
use std::alloc::{AllocError, Global};
use std::sync::Wait;
use std::thread::Threads;

/// What is supposed of a run, and how it learns what becomes of it.
#[derive(Drop)]
pub struct Supposed<'a> {
    /// How rows change.
    pub changes: &'a AskedChanges,
    /// Which plans are reported.
    pub plans: AskedPlans,
    /// How rows share cowns.
    pub sharing: Sharing,
    /// Whether it is reported in short.
    pub short: bool,
}

impl Supposed<'_> {
    // No row is meant or told by a name, and none takes the ticks that are typical of its name.
    fn names_no_row(&self) -> bool
        ensures { result ≡ names_no_row self.now.short self.now.changes.now }
    {
        !self.short
            && !self.changes.typical
            && self.changes.early.is_empty()
            && are_of_rows(&self.changes.edits)
    }
}

// Returns whether each edit is that of one row, by its number.
fn are_of_rows(edits: &[AskedEdit]) -> bool
    ensures { result ≡ list_all is_of_row edits.now }
{
    edits.iter().all(|edit| is_of_row(edit))
}

// Returns whether an edit is that of one row, by its number.
fn is_of_row(edit: &AskedEdit) -> bool
    ensures { result ≡ is_of_row edit.now }
{
    match edit {
        AskedEdit::Row(_) => true,
        AskedEdit::Def { .. } => false,
    }
}

/// Writes the report on the rows of a run after what is supposed of them, as the command `profile` does; or, in short, what they take before and after. First
/// cowns are left out, so that they impose no order; then the rows of some defs spawn early; then the rows change, edit by edit.
///
/// Of what is requested the first cown is refused that means none of the run, and else the first def to spawn early that no row is of. Else the first edit
/// is refused that the rows can't take, as those before it have made them, or that means none of them. Nothing is written unless the whole answer is ready.
/// After a failing write a beginning of it went out.
pub fn whatif_report<W: Sink>(
    alloc: Global,
    asked: &Supposed<'_>,
    run: NamedRun,
    sink: &mut W,
) -> Result<(), Fault>
    requires few { AreFew run.rows run.names }
    requires sink { W.failures sink.old < u64.MAX }
    ensures written { Leaves
        (IsWhatIfReport run.names asked.now.changes.now asked.now.sharing asked.now.plans asked.now.short run.rows)
        result (W.written sink.old) (W.written sink.new) }
    ensures refused { RefusesAsked run.names asked.now.changes.now run.rows result }
    ensures source { (count : ℕ) → CountsSource result count count }
    ensures sink { CountsSink result (W.failures sink.old) (W.failures sink.new) }
{
    let NamedRun { rows, names, .. } = run;
    if asked.short {
        let text = short_answer(alloc, &names, asked, rows)?;
        put_out(sink, &text)?;
        Ok(())
    } else {
        let after = changed(alloc, &names, asked, rows)?;
        report_after(alloc, asked.plans, after, sink)
    }
}

// Writes this report on the rows of a run with their own ticks, or, where that is requested, with the median ticks of their defs.
fn measured_report<W: Sink>(
    alloc: Global,
    asked: &Supposed<'_>,
    run: NamedRun,
    sink: &mut W,
) -> Result<(), Fault>
    requires few { AreFew run.rows run.names }
    requires sink { W.failures sink.old < u64.MAX }
    ensures written { Leaves
        (IsMeasuredReport run.names asked.now.changes.now asked.now.sharing asked.now.plans asked.now.short run.rows)
        result (W.written sink.old) (W.written sink.new) }
    ensures refused { RefusesMeasured run.names asked.now.changes.now run.rows result }
    ensures source { (count : ℕ) → CountsSource result count count }
    ensures sink { CountsSink result (W.failures sink.old) (W.failures sink.new) }
{
    let measured = measured_run(alloc, asked.changes.typical, run)?;
    whatif_report(alloc, asked, measured, sink)
}

// Returns what is reported in short of rows before and after what is supposed.
fn short_answer(
    alloc: Global,
    names: &Names,
    asked: &Supposed<'_>,
    rows: Rows,
) -> Result<Vec<u8>, Fault>
    requires { AreFew rows names.now }
    ensures { MatchResult result
        (λ text. IsShortAnswer names.now asked.now.changes.now asked.now.sharing asked.now.plans.workers rows text.items)
        (IsOfAsked names.now asked.now.changes.now rows) }
{
    let before = WhatIf::new(alloc, &rows, asked.sharing)?;
    let was = outcome_of(alloc, &names.defs, asked.plans.workers, &before)?;
    let after = changed(alloc, names, asked, rows)?;
    let now = outcome_of(alloc, &names.defs, asked.plans.workers, &after)?;
    Ok(short_text(alloc, names, &was, &now)?)
}

// Returns what the rows of a question take, whose defs these are.
fn outcome_of(
    alloc: Global,
    defs: &[u32],
    workers: Option<Workers>,
    question: &WhatIf,
) -> Result<Outcome, AllocError>
    requires defs { length defs.now ≡ length question.now.rows }
    requires few_defs { All (λ d. d < MOST_ROWS) defs.now }
    ensures { IfOk result (IsOutcome question.now.rows question.now.sharing defs.now workers) }
{
    let profile = question.profile(alloc)?;
    Ok(Outcome {
        work: question.work(),
        span: question.span(),
        end: end_for(alloc, workers, question)?,
        by_def: shares_by_def(alloc, defs, &profile.chain.steps)?,
    })
}

// Returns the end of the greedy plan for the workers that were asked for. Without such there is none.
fn end_for(
    alloc: Global,
    workers: Option<Workers>,
    question: &WhatIf,
) -> Result<Option<u64>, AllocError>
    ensures { IfOk result (IsAskedEnd (seen question.now.sharing question.now.rows) workers) }
{
    match workers {
        Some(workers) => Ok(Some(question.greedy(alloc, workers)?.ends_at)),
        None => Ok(None),
    }
}

// Writes the same report where no row is meant or told by a name: then none gets one. Cowns are called by their numbers, of which there are this many.
fn numbered_report<W: Sink>(
    alloc: Global,
    asked: &Supposed<'_>,
    rows: Rows,
    cowns: u32,
    sink: &mut W,
) -> Result<(), Fault>
    requires nameless { names_no_row asked.now.short asked.now.changes.now ≡ true }
    requires few { cowns ≤ MOST_COWNS }
    requires sink { W.failures sink.old < u64.MAX }
    ensures written { (names : Names) → AreNumbers (length rows) cowns names → Leaves
        (IsWhatIfReport names asked.now.changes.now asked.now.sharing asked.now.plans asked.now.short rows)
        result (W.written sink.old) (W.written sink.new) }
    ensures refused { (names : Names) → AreNumbers (length rows) cowns names
        → RefusesAsked names asked.now.changes.now rows result }
    ensures source { (count : ℕ) → CountsSource result count count }
    ensures sink { CountsSink result (W.failures sink.old) (W.failures sink.new) }
{
    let names = numbers_as_names(alloc, 0, cowns)?;
    let after = changed(alloc, &names, asked, rows)?;
    report_after(alloc, asked.plans, after, sink)
}

// Returns the rows with what is supposed of them.
fn changed(alloc: Global, names: &Names, asked: &Supposed<'_>, rows: Rows) -> Result<WhatIf, Fault>
    requires families { length names.now.cowns.items ≡ length names.now.families.items }
    requires few_families { length names.now.families.items ≤ MOST_COWNS }
    requires few_defs { length names.now.defs.items ≤ MOST_ROWS }
    requires defs { asked.now.changes.now.early.items ≢ [] → length names.now.defs.items ≡ length rows }
    ensures rows { MatchResult result
        (λ after. AreChangedSo names.now asked.now.changes.now rows after.rows)
        (IsOfAsked names.now asked.now.changes.now rows) }
    ensures sharing { IfOk result (λ after. after.sharing ≡ asked.now.sharing) }
{
    let cowns = cowns_meant(alloc, names, &asked.changes.cowns)?;
    let left = without_all(alloc, rows, &cowns)?;
    let spawned = spawned_early(alloc, names, &asked.changes.early, left)?;
    let question = WhatIf::of(alloc, spawned, asked.sharing)?;
    edited(alloc, names, &asked.changes.edits, question)
}

// Returns the rows in which those of each of these defs spawn as early as they can.
fn spawned_early(alloc: Global, names: &Names, asked: &[String], rows: Rows) -> Result<Rows, Fault>
    requires { asked.now ≢ [] → length names.now.defs.items ≡ length rows }
    ensures { MatchResult result (AreAskedEarly names.now rows asked.now) (IsOfEarly names.now asked.now) }
{
    let mut after = rows;
    for (index, def) in asked.iter().enumerate() {
        let marks = marks_of(alloc, names, def.as_bytes())?;
        if !has_mark(&marks) {
            let number = index + 1;
            return Err(Fault::Input(InputFault::Early { number }));
        }
        spawn_early(alloc, &mut after, &marks, 1)?;
    }
    Ok(after)
}

// Returns whether one of these marks is 1.
fn has_mark(marks: &[u32]) -> bool
    ensures { result ≡ list_any (λ mark. mark == 1) marks.now }
{
    marks.iter().any(|mark| *mark == 1)
}

// Returns the rows of a question with all edits that are asked for.
fn edited(
    alloc: Global,
    names: &Names,
    asked: &[AskedEdit],
    question: WhatIf,
) -> Result<WhatIf, Fault>
    requires { length names.now.defs.items ≤ MOST_ROWS }
    ensures rows { MatchResult result
        (λ after. AreAskedFor names.now question.rows asked.now after.rows)
        (IsOfEdits names.now question.rows asked.now) }
    ensures sharing { IfOk result (λ after. after.sharing ≡ question.sharing) }
{
    let meant = edits_meant(alloc, names, asked)?;
    let mut after = question;
    match after.edit_all(&meant.edits) {
        Ok(()) if meant.counts.len() < asked.len() => {
            let number = meant.counts.len() + 1;
            Err(Fault::Input(InputFault::Def { number }))
        }
        Ok(()) => Ok(after),
        Err(Unfit { number, fault }) => {
            let number = owner_of(&meant.counts, number - 1);
            Err(Fault::Input(InputFault::Edit { number, fault }))
        }
    }
}

// Returns the rows of a record whose text a source gives, and how many cowns it has.
fn counted_record<S: Source>(alloc: Global, source: &mut S) -> Result<(Rows, u32), Fault>
    requires { S.failures source.old < u64.MAX }
    ensures read { IfOk result (λ read. ReadsCounted (Ok read) (S.remaining source.old) (S.remaining source.new)) }
    ensures few { IfOk result (λ read. read.1 ≤ MOST_COWNS) }
    ensures refused { RefusesRecord result (S.remaining source.old) }
    ensures source { CountsSource result (S.failures source.old) (S.failures source.new) }
    ensures kept { IfErr result (λ fault. gone_of fault ≡ None) }
{
    Ok(read_counted(alloc, source)?)
}

// Does the command for a record with no file next to it, where no row is meant or told by a name.
fn numbered_whatif<S: Source, W: Sink>(
    alloc: Global,
    asked: &Supposed<'_>,
    source: &mut S,
    sink: &mut W,
) -> Result<(), Fault>
    requires nameless { names_no_row asked.now.short asked.now.changes.now ≡ true }
    requires source { S.failures source.old < u64.MAX }
    requires sink { W.failures sink.old < u64.MAX }
    ensures written { (bytes : List ℕ) → Leaves (AnswersInput (IsWhatIfAnswer None bytes asked.now.changes.now asked.now.sharing
        asked.now.plans asked.now.short) (S.remaining source.old) (S.remaining source.new)) result (W.written sink.old) (W.written sink.new) }
    ensures refused { (bytes : List ℕ) → RefusesWhatIf None bytes asked.now.changes.now result (S.remaining source.old) }
    ensures source { CountsSource result (S.failures source.old) (S.failures source.new) }
    ensures sink { CountsSink result (W.failures sink.old) (W.failures sink.new) }
{
    let (rows, cowns) = counted_record(alloc, source)?;
    // For the proof alone, and free: that they have the shape of rows.
    let _shape = rows.as_slice();
    numbered_report(alloc, asked, rows, cowns, sink)
}

/// Reads a program, which it runs, or the text of a record, as the first token says, and writes the report on the rows of the run after what is supposed of
/// them. Where that is requested, each row takes the median ticks of its def, as if the run had been so. Then cowns are left out, so that they impose no order;
/// then the rows of some defs spawn early; then the rows change, edit by edit. The report is that of the command `profile`; or, in short, it says what the
/// rows take before and after. Names are those of the program, or for a record those that come from a
/// file given with it, if there is one, and else numbers.
///
/// A program is refused as by `run`; the text of a record at its first faulty line, and only where it is no record's; and a file as its kind is. Of what is
/// requested the first cown is refused that the run doesn't have, and else the first def to spawn early that no row is of. Else the first edit is refused that
/// the rows can't take, as those before it have made them, or that means none of them. Nothing is written unless the whole answer is ready. After a failing
/// write a beginning of it went out. `progress` receives how far a draw or the following of a record is.
pub fn whatif_cmd<R: Threads + Wait + Sync, G: Gate, S: TakesBack, W: Sink>(
    rt: &R,
    alloc: Global,
    asked: &Supposed<'_>,
    schedule: Schedule,
    file: &Option<WhatIfFile>,
    bytes: Vec<u8>,
    gate: &G,
    progress: &mut dyn Progress,
    source: &mut S,
    sink: &mut W,
) -> Result<(), Fault>
    requires source { S.failures source.old < u64.MAX }
    requires sink { W.failures sink.old < u64.MAX }
    ensures written { Leaves (AnswersInput (AnswersWhatIf schedule file.now bytes.items asked.now.changes.now asked.now.sharing
        asked.now.plans asked.now.short) (S.remaining source.old) (S.remaining source.new)) result (W.written sink.old) (W.written sink.new) }
    ensures refused { RefusesEither
        (λ fault before. RefusesWhatIf {A = Unit {0}} file.now bytes.items asked.now.changes.now (Err fault) before)
        (IsOfWhatIf G.always_on schedule (supplied_to file.now) bytes.items asked.now.changes.now) result
        (S.remaining source.old) (S.remaining source.new) }
    ensures source { CountsSource result (S.failures source.old) (S.failures source.new) }
    ensures sink { CountsSink result (W.failures sink.old) (W.failures sink.new) }
{
    let found = program_taken(alloc, source)?;
    let Some(text) = found else {
        return record_whatif(alloc, asked, file, &bytes, progress, source, sink);
    };
    let setting = Setting {
        schedule,
        supplied: supplied_to(file),
        bytes,
    };
    let run = run_of_program(rt, alloc, text, setting, gate, progress)?;
    measured_report(alloc, asked, run, sink)
}

// Does the same with the text of a record.
fn record_whatif<S: Source, W: Sink>(
    alloc: Global,
    asked: &Supposed<'_>,
    file: &Option<WhatIfFile>,
    bytes: &[u8],
    progress: &mut dyn Progress,
    source: &mut S,
    sink: &mut W,
) -> Result<(), Fault>
    requires source { S.failures source.old < u64.MAX }
    requires sink { W.failures sink.old < u64.MAX }
    ensures written { Leaves (AnswersInput (IsWhatIfAnswer file.now bytes.now asked.now.changes.now asked.now.sharing asked.now.plans
        asked.now.short) (S.remaining source.old) (S.remaining source.new)) result (W.written sink.old) (W.written sink.new) }
    ensures refused { RefusesWhatIf file.now bytes.now asked.now.changes.now result (S.remaining source.old) }
    ensures source { CountsSource result (S.failures source.old) (S.failures source.new) }
    ensures sink { CountsSink result (W.failures sink.old) (W.failures sink.new) }
{
    if file.is_none() && asked.names_no_row() {
        return numbered_whatif(alloc, asked, source, sink);
    }
    let run = named_record(alloc, source, file, bytes, progress)?;
    measured_report(alloc, asked, run, sink)
}
