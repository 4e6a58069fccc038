// The search of an order that reaches an end.

ghost use Rattle.std.specs.Prelude.{◌≡◌, ◌↔◌, ◌+◌, ◌<◌, ◌≤◌, ◌++◌, [], ◌∷◌, All, IfOk, IsTrue, MatchOption, OnOk, length, slice_index_or};
ghost use Rattle.boc_all_ends.specs.Ends.{IsEnd};
ghost use Rattle.boc_all_ends.specs.Spreading.{IsReady, IsSpread};
ghost use Rattle.boc_all_ends.specs.Stepping.{CanStep, Grows, ListsFit};
ghost use Rattle.boc_end_orders.specs.Traces.{Adds, AreTraced, HasNoEnd, HasOrder, IsPutTraced, IsStepPut, IsTraced, IsTracedLayer, fronts_of, names_at};
ghost use Rattle.boc_front_rows.specs.Seen.{front_of};
ghost use Rattle.boc_program.specs.declared.limits.TheConstants.{MOST_ROWS};
ghost use Rattle.boc_fronts.specs.Orders.{IsWholeOrder};
ghost use Rattle.boc_runs.specs.Serial.{serial_along};

use crate::trail::Trail;
use boc_all_ends::Stepper;
use boc_front_rows::Front;
use boc_registers::compiled::CompiledProgram;
use indexmap::IndexMap;
use std::alloc::{AllocError, Global};

// An order of a front, and the rows of the front's live rows.
#[derive(Drop)]
struct Trace {
    order: u32,
    names: Vec<u16>,
}

// A search of the fronts of a program, with an order for each.
#[derive(Drop)]
struct Search<'a> {
    stepper: Stepper<'a>,
    trail: Trail,
}

// Returns the name at a place of the names with the row as the last.
fn name_at(names: &[u16], row: u16, place: u16) -> u16
    requires { place ≤ length names.now }
    ensures { result ≡ slice_index_or (names.now ++ row ∷ []) place 0 }
{
    if (place as usize) < names.len() {
        names[place as usize]
    } else {
        row
    }
}

// Returns the rows of the live rows after a spawn: those at the places that were kept, of which the last is that of the new row.
fn names_after(alloc: Global, names: &[u16], row: u16, kept: &[u16]) -> Result<Vec<u16>, AllocError>
    requires { All (λ place. place ≤ length names.now) kept.now }
    ensures { IfOk result (λ after. after.items ≡ names_at (names.now ++ row ∷ []) kept.now) }
{
    let mut after = Vec::new(alloc);
    for place in kept {
        after.push(name_at(names, row, *place))?;
    }
    Ok(after)
}

impl<'a> Search<'a> {
    // Returns the front after main's spawn.
    fn first(&mut self, alloc: Global) -> Result<IndexMap<Front, Trace>, AllocError>
        requires fits { ListsFit self.old.stepper.program.now self.old.stepper.lists }
        requires trail { self.old.trail ≡ (0 ∷ []) ∷ [] }
        ensures layer { IfOk result (λ layer. IsTracedLayer self.new.stepper.program.now self.new.stepper.lists self.new.trail 1 layer.entries) }
        ensures fits { OnOk result (ListsFit self.new.stepper.program.now self.new.stepper.lists) }
        ensures program { self.new.stepper.program.now ≡ self.old.stepper.program.now }
    {
        let after = self.stepper.first_arranged(alloc)?;
        let names = names_after(alloc, &[], 0, &after.kept)?;
        let mut layer = IndexMap::new(alloc);
        layer.insert(after.front, Trace { order: 0, names })?;
        Ok(layer)
    }

    // Puts a front among those of a layer, unless it is there.
    fn put(
        &mut self,
        layer: &mut IndexMap<Front, Trace>,
        front: Front,
        before: u32,
        parent: u16,
        names: Vec<u16>,
    ) -> Result<(), AllocError>
        requires { before < length self.old.trail }
        ensures put { OnOk result (IsPutTraced front before parent names.items self.old.trail self.new.trail layer.old.entries layer.new.entries) }
        ensures stepper { self.new.stepper ≡ self.old.stepper }
    {
        if layer.contains_key(&front) {
            return Ok(());
        }
        let order = self.trail.push(before, parent)?;
        layer.insert(front, Trace { order, names })?;
        Ok(())
    }

    // Puts the front to which the next spawn of the row at a place leads among those of the next layer.
    fn step(
        &mut self,
        alloc: Global,
        front: &Front,
        trace: &Trace,
        rows: u16,
        place: usize,
        next: &mut IndexMap<Front, Trace>,
    ) -> Result<(), AllocError>
        requires can { CanStep self.old.stepper.program.now self.old.stepper.lists front.now place }
        requires few { length front.now.live.items < 65535 }
        requires fits { ListsFit self.old.stepper.program.now self.old.stepper.lists }
        requires order { trace.now.order < length self.old.trail }
        requires names { length trace.now.names.items ≡ length front.now.live.items }
        ensures step { OnOk result (IsStepPut self.new.stepper.program.now self.old.stepper.lists front.now trace.now rows place
            self.new.stepper.lists self.old.trail self.new.trail next.old.entries next.new.entries) }
        ensures grows { OnOk result (Grows self.old.stepper.lists self.new.stepper.lists) }
        ensures fits { OnOk result (ListsFit self.new.stepper.program.now self.new.stepper.lists) }
        ensures program { self.new.stepper.program.now ≡ self.old.stepper.program.now }
    {
        let parent = trace.names[place];
        let after = self.stepper.step_arranged(alloc, front, place)?;
        let names = names_after(alloc, &trace.names, rows, &after.kept)?;
        self.put(next, after.front, trace.order, parent, names)?;
        Ok(())
    }

    // Puts the fronts to which one spawn leads from a front of N rows among those of the next layer.
    fn spread(
        &mut self,
        alloc: Global,
        front: &Front,
        trace: &Trace,
        rows: u16,
        next: &mut IndexMap<Front, Trace>,
    ) -> Result<(), AllocError>
        requires few { (1 ≤ rows) × (rows < MOST_ROWS) }
        requires ready { IsReady self.old.stepper.program.now self.old.stepper.lists rows front.now }
        requires traced { IsTraced self.old.stepper.program.now self.old.stepper.lists self.old.trail rows (front.now, trace.now) }
        requires others { AreTraced self.old.stepper.program.now self.old.stepper.lists self.old.trail (rows + 1) next.old.entries }
        requires fits { ListsFit self.old.stepper.program.now self.old.stepper.lists }
        ensures spread { OnOk result (IsSpread self.new.stepper.program.now (front_of self.old.stepper.lists front.now)
            self.new.stepper.lists (fronts_of next.old.entries) (fronts_of next.new.entries)) }
        ensures traced { OnOk result (AreTraced self.new.stepper.program.now self.new.stepper.lists self.new.trail (rows + 1) next.new.entries) }
        ensures grows { OnOk result (Grows self.old.stepper.lists self.new.stepper.lists) }
        ensures adds { OnOk result (Adds self.old.trail self.new.trail) }
        ensures fits { OnOk result (ListsFit self.new.stepper.program.now self.new.stepper.lists) }
        ensures program { self.new.stepper.program.now ≡ self.old.stepper.program.now }
    {
        let places = self.stepper.places_to_try(alloc, front)?;
        for place in &places {
            self.step(alloc, front, trace, rows, *place as usize, next)?;
        }
        Ok(())
    }

    // Returns the fronts to which one spawn leads from those of N rows.
    fn next(
        &mut self,
        alloc: Global,
        layer: &IndexMap<Front, Trace>,
        rows: u16,
    ) -> Result<IndexMap<Front, Trace>, AllocError>
        requires few { (1 ≤ rows) × (rows < MOST_ROWS) }
        requires layer { IsTracedLayer self.old.stepper.program.now self.old.stepper.lists self.old.trail rows layer.now.entries }
        requires fits { ListsFit self.old.stepper.program.now self.old.stepper.lists }
        ensures next { IfOk result (λ next. IsTracedLayer self.new.stepper.program.now self.new.stepper.lists self.new.trail (rows + 1) next.entries) }
        ensures fits { OnOk result (ListsFit self.new.stepper.program.now self.new.stepper.lists) }
        ensures program { self.new.stepper.program.now ≡ self.old.stepper.program.now }
    {
        let mut next = IndexMap::new(alloc);
        for (front, trace) in layer.iter() {
            self.spread(alloc, front, trace, rows, &mut next)?;
        }
        Ok(next)
    }
}

// Returns whether a front has these values.
fn has_values(front: &Front, values: &[i64]) -> bool
    ensures { IsTrue result ↔ (front.now.values.items ≡ values.now) }
{
    front.values.as_slice() == values
}

// Returns whether a front has no live row, and has these values.
fn is_end(front: &Front, values: &[i64]) -> bool
    ensures { IsTrue result ↔ ((front.now.live.items ≡ []) × (front.now.values.items ≡ values.now)) }
{
    if !front.live.is_empty() {
        return false;
    }
    has_values(front, values)
}

// Returns the number of the order of a front that has no live row, and has these values.
fn order_with(layer: &IndexMap<Front, Trace>, values: &[i64]) -> Option<u32>
    ensures { MatchOption result (HasNoEnd layer.now.entries values.now) (HasOrder layer.now.entries values.now) }
{
    for (front, trace) in layer.iter() {
        if is_end(front, values) {
            return Some(trace.order);
        }
    }
    None
}

impl<'a> Search<'a> {
    // Returns the fronts of N rows.
    fn layer_of(&mut self, alloc: Global, rows: u32) -> Result<IndexMap<Front, Trace>, AllocError>
        requires few { (1 ≤ rows) × (rows ≤ MOST_ROWS) }
        requires fits { ListsFit self.old.stepper.program.now self.old.stepper.lists }
        requires trail { self.old.trail ≡ (0 ∷ []) ∷ [] }
        ensures layer { IfOk result (λ layer. IsTracedLayer self.old.stepper.program.now self.new.stepper.lists self.new.trail rows layer.entries) }
    {
        let mut layer = self.first(alloc)?;
        for spawned in 1..rows {
            layer = self.next(alloc, &layer, spawned as u16)?;
        }
        Ok(layer)
    }
}

// Returns an order of spawns by which a program reaches an end: one of that many rows with these values. The order gives for each row the number of its parent.
// `AllocError` says that memory was refused.
pub(crate) fn order_to(
    alloc: Global,
    program: &CompiledProgram<'_>,
    values: &[i64],
    rows: u32,
) -> Result<Vec<u32>, AllocError>
    requires { IsEnd program.now rows values.now }
    ensures whole { IfOk result (λ parents. IsWholeOrder program.now parents.items) }
    ensures many { IfOk result (λ parents. length parents.items ≡ rows) }
    ensures values { IfOk result (λ parents. (serial_along program.now parents.items).values ≡ values.now) }
{
    let mut search = Search {
        stepper: Stepper::new(alloc, program)?,
        trail: Trail::new(alloc),
    };
    let layer = search.layer_of(alloc, rows)?;
    let Some(order) = order_with(&layer, values) else {
        unreachable!()
    };
    let parents = search.trail.order(alloc, order)?;
    Ok(parents)
}
