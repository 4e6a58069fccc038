// The rows of a run, which run again one after another.

ghost use Rattle.std.specs.Prelude.{◌≡◌, ◌+◌, ◌<◌, ◌≤◌, ◌↔◌, ◌^◌, length, map, slice_range, sum, IsTrue, IfOk, IfSome, OnOk, MatchOption};
ghost use Rattle.boc_program.specs.declared.limits.TheConstants.{MOST_ROWS, MOST_TICKS};
ghost use Rattle.boc_program.specs.Programs.{cown_count};
ghost use Rattle.boc_program.specs.Signatures.{AllBelow};
ghost use Rattle.boc_program.specs.Syntax.{code_size};
ghost use Rattle.boc_runs.specs.Serial.{after_outputs, inputs_of};
ghost use Rattle.boc_eval.specs.Instances.{behaviour_in};
ghost use Rattle.boc_lines.specs.Books.{entered, noted, tally};
ghost use Rattle.boc_lines.specs.Charges.{bill};
ghost use Rattle.boc_lines.specs.Numbers.{starts_from};
ghost use Rattle.boc_lines.specs.Replays.{AllFit, AreRowTicks, Fits, all_charges, charges_along, charges_of, charges_through, values_after};
ghost use Rattle.boc_lines.specs.Sizes.{AreSized, sizes_of_bodies};
ghost use Rattle.boc_lines.specs.Walks.{MOST_COUNTED, book_of};

use crate::numbers::put_starts;
use crate::sizes::{BlockSizes, put_sizes};
use crate::walk::Walk;
use boc_eval::Instance;
use boc_program::body::Body;
use boc_program::program::Program;
use boc_program::short::CownNo;
use boc_runs::values::{initial_values, write_outputs};
use std::alloc::{AllocError, Global};

/// Ticks by number: each body has a number for its start, main first, and then one for each of its statements, in the order of the text.
#[derive(Drop)]
pub struct StatementTicks {
    /// The ticks in all rows.
    pub ticks: Vec<u64>,
    /// Those of them that the chain goes through.
    pub chain: Vec<u64>,
}

/// Returns the ticks of each body's start and of each statement in the rows of a run, whose behaviours are these. They run again in the order of their
/// numbers, each on the values that those before it left. Of each row the chain goes through its first ticks, as many as `through` says. If one
/// is no behaviour of the program, there is no answer. `AllocError` says that memory was refused.
pub fn ticks_by_statement(
    alloc: Global,
    program: &Program,
    rows: &[Instance],
    through: &[u64],
) -> Result<Option<StatementTicks>, AllocError>
    requires few { length rows.now ≤ MOST_ROWS }
    requires both { length through.now ≡ length rows.now }
    ensures ticks { IfOk result (λ found. MatchOption found
        (AllFit program.now (map behaviour_in rows.now) → ⊥)
        (λ t. AreRowTicks program.now (map behaviour_in rows.now) through.now t.ticks.items t.chain.items)) }
    ensures few { IfOk result (λ found. IfSome found (λ t. (sum t.ticks.items ≤ MOST_COUNTED) × (sum t.chain.items ≤ MOST_COUNTED))) }
{
    let mut initial = initial_values(alloc, program.cowns.as_slice())?;
    let values = &mut initial[..];
    if !all_fit(program, values.len(), rows) {
        return Ok(None);
    }
    let mut starts = Vec::new(alloc);
    let end = put_starts(&mut starts, program.bodies.as_slice(), 0)?;
    let mut sizes = Vec::new(alloc);
    put_sizes(&mut sizes, program.bodies.as_slice())?;
    let mut walk = Walk::new(alloc, end)?;
    run_rows(program, &starts, &sizes, rows, through, &mut walk, values)?;
    Ok(Some(StatementTicks {
        ticks: walk.counts,
        chain: walk.chain,
    }))
}

// Runs rows one after another, from these values on.
fn run_rows(
    program: &Program,
    starts: &[usize],
    sizes: &[BlockSizes],
    rows: &[Instance],
    through: &[u64],
    walk: &mut Walk,
    values: &mut [i64],
) -> Result<(), AllocError>
    requires few { length rows.now ≤ MOST_ROWS }
    requires both { length through.now ≡ length rows.now }
    requires fit { AllFit program.now (map behaviour_in rows.now) }
    requires starts { starts.now ≡ starts_from 0 program.now.bodies }
    requires sizes { sizes.now ≡ sizes_of_bodies program.now.bodies }
    requires values { length values.old ≡ cown_count program.now.cowns }
    requires counts { sum walk.old.counts.items ≡ 0 }
    requires chain { sum walk.old.chain.items ≡ 0 }
    ensures counts { OnOk result (walk.new.counts.items
        ≡ tally walk.old.counts.items (all_charges (charges_along program.now values.old (map behaviour_in rows.now)))) }
    ensures chain { OnOk result (walk.new.chain.items
        ≡ tally walk.old.chain.items (charges_through through.now (charges_along program.now values.old (map behaviour_in rows.now)))) }
    ensures few { OnOk result ((sum walk.new.counts.items ≤ MOST_COUNTED) × (sum walk.new.chain.items ≤ MOST_COUNTED)) }
{
    for row in 0..rows.len() {
        run_row(
            program,
            starts,
            sizes,
            &rows[row],
            through[row],
            walk,
            values,
        )?;
    }
    Ok(())
}

// Runs a row on the values that those before it left.
fn run_row(
    program: &Program,
    starts: &[usize],
    sizes: &[BlockSizes],
    instance: &Instance,
    through: u64,
    walk: &mut Walk,
    values: &mut [i64],
) -> Result<(), AllocError>
    requires fits { Fits program.now (behaviour_in instance.now) }
    requires starts { starts.now ≡ starts_from 0 program.now.bodies }
    requires sizes { sizes.now ≡ sizes_of_bodies program.now.bodies }
    requires values { length values.old ≡ cown_count program.now.cowns }
    requires counts { sum walk.old.counts.items + MOST_TICKS ≤ MOST_COUNTED }
    requires chain { sum walk.old.chain.items + MOST_TICKS ≤ MOST_COUNTED }
    ensures book { OnOk result (book_of walk.new
        ≡ noted (record (book_of walk.old) { left = through })
        (charges_of program.now (behaviour_in instance.now) (inputs_of instance.now.cowns.items values.old))) }
    ensures values { OnOk result (values.new ≡ values_after program.now (behaviour_in instance.now) values.old) }
    ensures counts { OnOk result (sum walk.new.counts.items ≤ sum walk.old.counts.items + MOST_TICKS) }
    ensures chain { OnOk result (sum walk.new.chain.items ≤ sum walk.old.chain.items + MOST_TICKS) }
{
    let body = program.body(instance.kind);
    run_behaviour(
        sizes,
        body,
        starts[instance.kind],
        instance,
        through,
        walk,
        values,
    )
}

// Runs a behaviour on the values that its cowns have, from the start of its body, which has this number.
fn run_behaviour(
    sizes: &[BlockSizes],
    body: &Body,
    start: usize,
    instance: &Instance,
    through: u64,
    walk: &mut Walk,
    values: &mut [i64],
) -> Result<(), AllocError>
    requires args { length instance.now.args.items ≡ body.now.params }
    requires cowns { length instance.now.cowns.items ≡ body.now.cown_params }
    requires below { AllBelow (length values.old) instance.now.cowns.items }
    requires few { start + 1 + code_size body.now.block < 2 ^ 32 }
    requires sized { AreSized sizes.now body.now.block (start + 1) }
    requires counts { sum walk.old.counts.items + MOST_TICKS ≤ MOST_COUNTED }
    requires chain { sum walk.old.chain.items + MOST_TICKS ≤ MOST_COUNTED }
    ensures entered { OnOk result (entered (record (book_of walk.old) { left = through })
        (bill start body.now instance.now.args.items (inputs_of instance.now.cowns.items values.old))
        ≡ record { book = book_of walk.new; slots = walk.new.slots.items }) }
    ensures values { OnOk result (values.new ≡ after_outputs values.old instance.now.cowns.items
        (slice_range walk.new.slots.items body.now.params (body.now.params + body.now.cown_params))) }
    ensures counts { OnOk result (sum walk.new.counts.items ≤ sum walk.old.counts.items + MOST_TICKS) }
    ensures chain { OnOk result (sum walk.new.chain.items ≤ sum walk.old.chain.items + MOST_TICKS) }
{
    walk.begin(&instance.args, &instance.cowns, values, body.slots, through)?;
    walk.run_body(sizes, body, start);
    let outputs = &walk.slots[body.params..body.params + body.cown_params];
    write_outputs(values, &instance.cowns, outputs);
    Ok(())
}

// Returns whether each of these is a behaviour of the program, which has this many cowns.
fn all_fit(program: &Program, cowns: usize, rows: &[Instance]) -> bool
    requires { cowns ≡ cown_count program.now.cowns }
    ensures { IsTrue result ↔ AllFit program.now (map behaviour_in rows.now) }
{
    for row in rows {
        if !fits(program, cowns, row) {
            return false;
        }
    }
    true
}

/// Returns whether this is a behaviour of the program, which has this many cowns.
pub(crate) fn fits(program: &Program, cowns: usize, instance: &Instance) -> bool
    requires { cowns ≡ cown_count program.now.cowns }
    ensures { IsTrue result ↔ Fits program.now (behaviour_in instance.now) }
{
    if instance.kind >= program.bodies.as_slice().len() {
        return false;
    }
    let takes = takes(program.body(instance.kind), instance);
    let below = are_below(&instance.cowns, cowns);
    takes && below
}

// Returns whether a body takes as many arguments and cowns.
fn takes(body: &Body, instance: &Instance) -> bool
    ensures { IsTrue result ↔ ((length instance.now.args.items ≡ body.now.params) × (length instance.now.cowns.items ≡ body.now.cown_params)) }
{
    instance.args.len() == body.params && instance.cowns.len() == body.cown_params
}

// Returns whether each of these cowns is below a number.
fn are_below(cowns: &[CownNo], end: usize) -> bool
    ensures { IsTrue result ↔ AllBelow end cowns.now }
{
    match cowns {
        [] => true,
        [first, rest @ ..] => (*first as usize) < end && are_below(rest, end),
    }
}
