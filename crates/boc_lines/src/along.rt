// What the rows of a run are, by their parents.

ghost use Rattle.std.specs.Prelude.{◌≡◌, ◌+◌, ◌<◌, ◌^◌, [], true, false, Some, length, map, option_map, slice_index, IfOk, IsSome, OnOk, MatchOption};
ghost use Rattle.boc_program.specs.declared.program.Program.{Program};
ghost use Rattle.boc_program.specs.Programs.{cown_count, initial_values as values_at_start};
ghost use Rattle.boc_runs.specs.Serial.{Serial, behaviour_of, next_behaviour, serial_along};
ghost use Rattle.boc_eval.specs.Frames.{wishes_of};
ghost use Rattle.boc_eval.specs.Instances.{behaviour_in};
ghost use Rattle.boc_lines.specs.Replays.{Fits, meaning_of, values_after};
ghost use Rattle.boc_lines.specs.SerialRuns.{AreBehavioursOf, AreRun};
ghost use Rattle.boc_lines.specs.Wished.{HasPut, Stands, Took, next_of};

use crate::replay::fits;
use boc_eval::{Frame, Instance, Spare};
use boc_program::program::Program;
use boc_registers::compiled::CompiledProgram;
use boc_runs::rows::Row;
use boc_runs::values::{initial_values, inputs_of, write_outputs};
use std::alloc::{AllocError, Global};

/// Returns the behaviours of the rows of a program's run: main's is the first, and each other row is the next wish of its parent that isn't a row yet. If a row
/// has no such wish or other ticks than its body takes, these are no rows of a run of the program, and there is no answer. `AllocError` says that memory was
/// refused.
pub fn behaviours_along(
    alloc: Global,
    program: &Program,
    rows: &[Row],
) -> Result<Option<Vec<Instance>>, AllocError>
    ensures { IfOk result (λ found. MatchOption found
        (AreRun program.now (serial_along program.now []) rows.now → ⊥)
        (λ behaviours. AreBehavioursOf program.now rows.now (map behaviour_in behaviours.items))) }
{
    let compiled = CompiledProgram::new(alloc, program)?;
    let mut initial = initial_values(alloc, program.cowns.as_slice())?;
    let values = &mut initial[..];
    let mut along = Along::new(alloc);
    let mut spare = Spare::default();
    for row in rows {
        if !along.take(alloc, program, &compiled, &mut spare, values, row)? {
            return Ok(None);
        }
    }
    Ok(Some(along.behaviours))
}

/// The rows of a serial run so far.
#[derive(Drop)]
pub(crate) struct Along {
    /// The behaviour of each row.
    pub(crate) behaviours: Vec<Instance>,
    /// What each row wished for.
    pub(crate) wished: Vec<Vec<Instance>>,
    /// How many wishes of each row are rows.
    pub(crate) taken: Vec<usize>,
}

impl Along {
    // Returns the rows before the first one.
    fn new(alloc: Global) -> Along
        ensures stands { (p : Program) → Stands (serial_along p []) (values_at_start p.cowns) result }
        ensures both { length result.wished.items ≡ length result.taken.items }
    {
        Along {
            behaviours: Vec::new(alloc),
            wished: Vec::new(alloc),
            taken: Vec::new(alloc),
        }
    }

    // Takes the next row, and returns whether it is one of the run. The values are those that the rows before it left.
    fn take<'a>(
        &mut self,
        alloc: Global,
        program: &Program,
        compiled: &'a CompiledProgram<'_>,
        spare: &mut Spare<'a>,
        values: &mut [i64],
        row: &Row,
    ) -> Result<bool, AllocError>
        requires compiled { compiled.now ≡ program.now }
        requires values { length values.old ≡ cown_count program.now.cowns }
        requires both { length self.old.wished.items ≡ length self.old.taken.items }
        ensures values { OnOk result (length values.new ≡ cown_count program.now.cowns) }
        ensures both { OnOk result (length self.new.wished.items ≡ length self.new.taken.items) }
        ensures took { IfOk result (λ took. (s : Serial) → Stands s values.old self.old → Took program.now s row.now took values.new self.new) }
    {
        match next_behaviour(&self.wished, &self.taken, row.parent as usize) {
            Some(instance) => self.take_as(alloc, program, compiled, spare, values, row, instance),
            None => Ok(false),
        }
    }

    // Takes the next row, whose behaviour this one would be, and returns whether it is one of the run.
    fn take_as<'a>(
        &mut self,
        alloc: Global,
        program: &Program,
        compiled: &'a CompiledProgram<'_>,
        spare: &mut Spare<'a>,
        values: &mut [i64],
        row: &Row,
        instance: Instance,
    ) -> Result<bool, AllocError>
        requires compiled { compiled.now ≡ program.now }
        requires values { length values.old ≡ cown_count program.now.cowns }
        requires both { length self.old.wished.items ≡ length self.old.taken.items }
        requires few { slice_index self.old.taken.items row.now.parent + 1 < 2 ^ 64 }
        ensures values { OnOk result (length values.new ≡ cown_count program.now.cowns) }
        ensures both { OnOk result (length self.new.wished.items ≡ length self.new.taken.items) }
        ensures took { IfOk result (λ took. (s : Serial) → Stands s values.old self.old → next_behaviour s.rows row.now.parent ≡ Some (behaviour_in instance)
            → Took program.now s row.now took values.new self.new) }
    {
        if !fits(program, values.len(), &instance) {
            return Ok(false);
        }
        let own = run_at_once(alloc, compiled, &instance, spare, values)?;
        if own.ticks != row.ticks {
            return Ok(false);
        }
        self.put(row.parent as usize, instance, own.wished)?;
        Ok(true)
    }

    // Appends a row, which is the next wish of its parent.
    fn put(
        &mut self,
        parent: usize,
        instance: Instance,
        wished: Vec<Instance>,
    ) -> Result<(), AllocError>
        requires few { slice_index self.old.taken.items parent + 1 < 2 ^ 64 }
        requires both { length self.old.wished.items ≡ length self.old.taken.items }
        ensures put { OnOk result (HasPut self.old parent instance (map behaviour_in wished.items) self.new) }
        ensures both { OnOk result (length self.new.wished.items ≡ length self.new.taken.items) }
    {
        if parent < self.taken.len() {
            self.taken[parent] += 1;
        }
        self.taken.push(0)?;
        self.wished.push(wished)?;
        self.behaviours.push(instance)?;
        Ok(())
    }
}

// Returns the behaviour of the next row, whose parent is given, if there is one.
fn next_behaviour(wished: &[Vec<Instance>], taken: &[usize], parent: usize) -> Option<Instance>
    requires { length wished.now ≡ length taken.now }
    ensures next { option_map behaviour_in result ≡ next_of (map (λ own. map behaviour_in own.items) wished.now) taken.now parent }
    ensures few { IsSome result → slice_index taken.now parent + 1 < 2 ^ 64 }
{
    let place = place_of(taken, parent);
    if wished.is_empty() {
        return Some(Instance::main());
    }
    if parent >= wished.len() {
        return None;
    }
    match wished[parent].get(place) {
        Some(instance) => Some(instance.duplicate()),
        None => None,
    }
}

// Returns how many wishes of a parent are rows; 0 where it isn't there.
fn place_of(taken: &[usize], parent: usize) -> usize
    ensures { result ≡ slice_index taken.now parent }
{
    if parent < taken.len() {
        taken[parent]
    } else {
        0
    }
}

/// What a body that ran at once wished for, and its ticks.
#[derive(Drop)]
pub(crate) struct AtOnce {
    /// The behaviours that it wished for.
    pub(crate) wished: Vec<Instance>,
    /// The ticks that it took.
    pub(crate) ticks: u32,
}

// Runs the body of a behaviour at once on the current values.
fn run_at_once<'a>(
    alloc: Global,
    compiled: &'a CompiledProgram<'_>,
    instance: &Instance,
    spare: &mut Spare<'a>,
    values: &mut [i64],
) -> Result<AtOnce, AllocError>
    requires fits { Fits compiled.now (behaviour_in instance.now) }
    requires values { length values.old ≡ cown_count compiled.now.cowns }
    ensures wished { IfOk result (λ own. map behaviour_in own.wished.items
        ≡ map behaviour_of (meaning_of compiled.now (behaviour_in instance.now) values.old).wishes) }
    ensures ticks { IfOk result (λ own. own.ticks ≡ (meaning_of compiled.now (behaviour_in instance.now) values.old).ticks) }
    ensures values { OnOk result (values.new ≡ values_after compiled.now (behaviour_in instance.now) values.old) }
    ensures long { length values.new ≡ length values.old }
{
    let body = compiled.body(instance.kind);
    let inputs = inputs_of(&instance.cowns, values);
    let mut frame = Frame::renewed(alloc, spare, body, &instance.args, &inputs)?;
    let wished = wishes_to_end(alloc, &mut frame)?;
    let outcome = frame.into_outcome();
    write_outputs(values, &instance.cowns, outcome.outputs());
    let ticks = outcome.ticks();
    outcome.leave(spare);
    Ok(AtOnce { wished, ticks })
}

// Runs a body from its start to its end, and returns what it wished for.
fn wishes_to_end(alloc: Global, frame: &mut Frame<'_>) -> Result<Vec<Instance>, AllocError>
    requires start { frame.old.made ≡ 0 }
    requires fresh { frame.old.ended ≡ false }
    ensures frame { OnOk result (frame.new ≡ record frame.old { made = length (wishes_of frame.old); ended = true }) }
    ensures wished { IfOk result (λ wished. map behaviour_in wished.items ≡ map behaviour_of (wishes_of frame.old)) }
{
    let mut wished = Vec::new(alloc);
    while frame.go_on() {
        if let Some(wish) = frame.last_wish() {
            wished.push(Instance::of(wish))?;
        }
    }
    Ok(wished)
}
