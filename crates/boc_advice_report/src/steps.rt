// What is reported of one change after another.

ghost use Rattle.std.specs.Prelude.{◌≡◌, ◌++◌, ◌∷◌, [], IfOk, OnOk, length};
ghost use Rattle.boc_advice_report.specs.AdviceTexts.{ends_texts, list_sides};
ghost use Rattle.boc_advice_report.specs.StepsTexts.{IsStepsText, no_further, step_name, steps_head, steps_lines, steps_table, table_lines, workers_line};

use crate::candidates::{ends_table, put_ends, put_list_head};
use crate::words::put_remedy;
use crate::workers::{ForWorkers, put_workers};
use boc_names::Names;
use boc_remedies::{Candidate, Ends};
use boc_table::{Table, put_table};
use boc_text::put_number;
use std::alloc::{AllocError, Global};

/// What is reported of one change after another.
#[derive(Clone, Copy)]
pub struct StepsTold<'a> {
    /// How many rows there are.
    pub rows: usize,
    /// The ticks of all rows together.
    pub work: u64,
    /// When the rows end as they are.
    pub now: Ends,
    /// For how many workers it is asked, if for any.
    pub workers: Option<u32>,
    /// How many changes are asked for at most.
    pub most: u32,
    /// The changes, each with what it leaves on top of those before it.
    pub steps: &'a [Candidate],
}

// Returns what the step with this number is called, after two blanks.
fn step_name(
    alloc: Global,
    names: &Names,
    number: usize,
    step: &Candidate,
) -> Result<Vec<u8>, AllocError>
    ensures { IfOk result (λ text. text.items ≡ step_name names.now number step.now) }
{
    let mut name = Vec::new(alloc);
    name.extend_from_slice(b"  ")?;
    put_number(&mut name, number as u64)?;
    name.extend_from_slice(b"  ")?;
    put_remedy(&mut name, names, &step.remedy)?;
    Ok(name)
}

// Puts the line of the step with this number, against what was left before it.
fn put_step(
    alloc: Global,
    table: &mut Table,
    names: &Names,
    now: Ends,
    number: usize,
    was: Ends,
    step: &Candidate,
) -> Result<(), AllocError>
    requires { length table.old.sides ≡ length (list_sides now) }
    ensures { OnOk result (table.new ≡ record table.old {
      lines = table.old.lines ++ ends_texts (step_name names.now number step.now) now was step.now.ends ∷ [];
    }) }
{
    let name = step_name(alloc, names, number, step)?;
    put_ends(alloc, table, &name, now, was, step.ends)
}

// Puts the lines of the steps, each against the one before it.
fn put_steps(
    alloc: Global,
    table: &mut Table,
    names: &Names,
    now: Ends,
    steps: &[Candidate],
) -> Result<(), AllocError>
    requires { length table.old.sides ≡ length (list_sides now) }
    ensures { OnOk result (table.new ≡ record table.old { lines = table.old.lines ++ steps_lines names.now now 1 now steps.now }) }
{
    let mut was = now;
    for (place, step) in steps.iter().enumerate() {
        put_step(alloc, table, names, now, place + 1, was, step)?;
        was = step.ends;
    }
    Ok(())
}

// Appends to a text what the rows take by the workers, where a number of these is given.
fn put_workers_line(text: &mut Vec<u8>, told: &StepsTold<'_>) -> Result<(), AllocError>
    ensures { OnOk result (text.new.items ≡ text.old.items
        ++ workers_line told.entry.now.work told.entry.now.now.span told.entry.now.workers told.entry.now.now.greedy) }
{
    let Some(p) = told.workers else {
        return Ok(());
    };
    let Some(end) = told.now.greedy else {
        return Ok(());
    };
    let own = ForWorkers {
        p,
        work: told.work,
        span: told.now.span,
        end,
    };
    put_workers(text, &own)
}

// Appends the numbers at the head to a text.
fn put_head(text: &mut Vec<u8>, told: &StepsTold<'_>) -> Result<(), AllocError>
    ensures { OnOk result (text.new.items ≡ text.old.items ++ steps_head told.entry.now) }
{
    text.extend_from_slice(b"rows ")?;
    put_number(text, told.rows as u64)?;
    text.extend_from_slice(b"   work ")?;
    put_number(text, told.work)?;
    text.extend_from_slice(b"   span ")?;
    put_number(text, told.now.span)?;
    text.extend_from_slice(b"\n")?;
    put_workers_line(text, told)
}

// Returns the table of the steps.
fn table_of(alloc: Global, names: &Names, told: &StepsTold<'_>) -> Result<Table, AllocError>
    ensures sides { IfOk result (λ table. table.sides ≡ list_sides told.entry.now.now) }
    ensures lines { IfOk result (λ table. table.lines ≡ table_lines names.now told.entry.now) }
{
    let mut table = ends_table(alloc, told.now);
    put_list_head(alloc, &mut table, b"steps", told.workers, told.now)?;
    put_steps(alloc, &mut table, names, told.now, told.steps)?;
    Ok(table)
}

// Appends the table of the steps to a text.
fn put_steps_table(
    alloc: Global,
    text: &mut Vec<u8>,
    names: &Names,
    told: &StepsTold<'_>,
) -> Result<(), AllocError>
    ensures { OnOk result (text.new.items ≡ text.old.items ++ steps_table names.now told.entry.now) }
{
    let table = table_of(alloc, names, told)?;
    put_table(text, &table)
}

// Appends to a text that nothing further saves anything, where there are fewer steps than are asked for.
fn put_no_further(text: &mut Vec<u8>, steps: usize, most: u32) -> Result<(), AllocError>
    ensures { OnOk result (text.new.items ≡ text.old.items ++ no_further steps most) }
{
    if steps < most as usize {
        text.extend_from_slice(b"no further change that was tried saves anything\n")?;
    }
    Ok(())
}

/// Returns what is reported of one change after another. First are the rows, their work and their span, and what they take by the workers, where a number of
/// these is given. Then comes a line for each change, with what it leaves, and how much sooner that is than without it. Last is whether nothing further saves
/// anything. All times are ticks. `AllocError` says that memory was refused.
pub fn steps_text(alloc: Global, names: &Names, told: &StepsTold<'_>) -> Result<Vec<u8>, AllocError>
    ensures { IfOk result (λ text. IsStepsText names.now told.entry.now text.items) }
{
    let mut text = Vec::new(alloc);
    put_head(&mut text, told)?;
    text.push(b'\n')?;
    put_steps_table(alloc, &mut text, names, told)?;
    put_no_further(&mut text, told.steps.len(), told.most)?;
    Ok(text)
}
