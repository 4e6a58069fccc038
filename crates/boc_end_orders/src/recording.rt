// The record of a run that reaches an end.

ghost use Rattle.std.specs.Prelude.{◌≡◌, ◌≤◌, ◌++◌, [], ◌∷◌, IfOk, OnOk};
ghost use Rattle.boc_program.specs.declared.limits.TheConstants.{MOST_COWNS};
ghost use Rattle.boc_runs.specs.Legal.{entries, IsAllowed, IsComplete, IsLegal};
ghost use Rattle.boc_runs.specs.Records.{IsRecord};
ghost use Rattle.boc_all_ends.specs.Ends.{IsEnd};
ghost use Rattle.boc_end_orders.specs.Runs.{RecordsEnd};

use crate::run::run_to;
use boc_all_ends::End;
use boc_registers::compiled::CompiledProgram;
use boc_rules::{RuleFault, Rules};
use boc_runs::event::Event;
use boc_runs::events::Events;
use boc_runs::record::Record;
use std::alloc::{AllocError, Global};

// Appends an event that is allowed.
fn put(rules: &mut Rules, event: &Event) -> Result<(), AllocError>
    requires { IsAllowed rules.old.cowns (entries rules.old.events) event.now }
    ensures cowns { OnOk result (rules.new.cowns ≡ rules.old.cowns) }
    ensures events { OnOk result (rules.new.events ≡ rules.old.events ++ event.now ∷ []) }
{
    match rules.apply(event) {
        Ok(()) => Ok(()),
        Err(RuleFault::Broken(_)) => unreachable!(),
        Err(RuleFault::Memory) => Err(AllocError),
    }
}

// Appends all of these events.
fn put_all(alloc: Global, cowns: u32, events: &Events<'_>) -> Result<Rules, AllocError>
    requires few { cowns ≤ MOST_COWNS }
    requires legal { IsLegal cowns events.now }
    ensures cowns { IfOk result (λ rules. rules.cowns ≡ cowns) }
    ensures events { IfOk result (λ rules. rules.events ≡ events.now) }
{
    let mut rules = Rules::new(alloc, cowns)?;
    for place in 0..events.len() {
        put(&mut rules, &events.get(place))?;
    }
    Ok(rules)
}

// Returns the record of a complete run with these events.
fn record_of(alloc: Global, cowns: u32, events: &Events<'_>) -> Result<Record, AllocError>
    requires few { cowns ≤ MOST_COWNS }
    requires legal { IsLegal cowns events.now }
    requires complete { IsComplete events.now }
    ensures cowns { IfOk result (λ r. r.cowns ≡ cowns) }
    ensures events { IfOk result (λ r. r.events ≡ events.now) }
    ensures is_record { IfOk result (λ r. IsRecord r) }
{
    let rules = put_all(alloc, cowns, events)?;
    match rules.into_record() {
        Ok(made) => Ok(made),
        Err(_) => unreachable!(),
    }
}

/// Returns the record of a whole run of a program that reaches this end, with the smallest number of rows. `AllocError` says that memory was refused.
pub fn record_to(
    alloc: Global,
    program: &CompiledProgram<'_>,
    end: &End,
) -> Result<Record, AllocError>
    requires { IsEnd program.now end.now.least end.now.values.items }
    ensures { IfOk result (RecordsEnd program.now end.now) }
{
    let run = run_to(alloc, program, end)?;
    let events = run.events();
    let made = record_of(alloc, run.cowns(), &events)?;
    Ok(made)
}
