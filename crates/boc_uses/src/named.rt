// The cowns that a `when` names.

ghost use Rattle.std.specs.Prelude.{◌≡◌, ◌+◌, ◌≤◌, ℕ, IsTrue, length, map};
ghost use Rattle.boc_program.specs.declared.limits.TheConstants.{MOST_HELD};
ghost use Rattle.boc_program.specs.memory.View.{slot_expr_of, cown_ref_of};
ghost use Rattle.boc_program.specs.Resolved.{expr_fits, every, ref_fits};
ghost use Rattle.boc_program.specs.Value.{then_value};
ghost use Rattle.boc_program.specs.Meaning.{cown_of, cowns_of, cowns_held, has_same_twice, member};
ghost use Rattle.std.specs.List.{list_any};
ghost use Rattle.std.specs.Prelude.{nat_eq, not};
ghost use Rattle.boc_uses.specs.Uses.{reads, ref_slots_read, refs_slots_read};
ghost use Rattle.boc_uses.specs.Noting.{named, noted_all, standing};

use crate::reading::{Reading, value_of};
use crate::uses::Use;
use boc_program::body::{CownRef, EndStatus};
use boc_program::short::{CownNo, Cowns, Input};

// Returns the cown that an index leads to, of `size` cowns from `first` on.
fn member_at(first: CownNo, size: u32, index: i64) -> Result<CownNo, EndStatus>
    requires { first + size ≤ 256 }
    ensures { result ≡ member first size index }
{
    if 0 <= index && index < i64::from(size) {
        Ok(first + index as u32)
    } else {
        Err(EndStatus::OutOfRange)
    }
}

// Returns the cown that a reference stands for, and notes what its index reads.
fn name_one(
    reference: &CownRef,
    inputs: &[Input],
    slots: &[i64],
    reading: &Reading,
    uses: &mut [Option<Use>],
) -> Result<CownNo, EndStatus>
    requires { IsTrue (ref_fits (record { slots = length slots.now; cowns = length inputs.now }) (cown_ref_of reference.now)) }
    ensures cown { result ≡ cown_of (cown_ref_of reference.now) (standing (cowns_held inputs.now) slots.now reading.now.tick) }
    ensures uses { uses.new ≡ noted_all reading.now.params uses.old
        (reads reading.now.tick reading.now.own (ref_slots_read (cown_ref_of reference.now) slots.now)) }
{
    match reference {
        CownRef::Held(parameter) => Ok(inputs[*parameter].cown),
        CownRef::Single(cown) => Ok(*cown),
        CownRef::Member { first, size, index } => {
            member_at(*first, *size, value_of(index, slots, reading, uses)?)
        }
    }
}

/// Puts the cowns that references stand for after the others, notes what their indices read, and returns whether no fault cuts that short.
pub(crate) fn name_all(
    references: &[CownRef],
    inputs: &[Input],
    slots: &[i64],
    reading: &Reading,
    uses: &mut [Option<Use>],
    cowns: &mut Cowns,
) -> bool
    requires fits { IsTrue (every (map (ref_fits (record { slots = length slots.now; cowns = length inputs.now })) (map cown_ref_of references.now))) }
    requires room { length cowns.old.items + length references.now ≤ MOST_HELD }
    ensures cowns { named result cowns.old.items cowns.new.items
        (cowns_of (map cown_ref_of references.now) (standing (cowns_held inputs.now) slots.now reading.now.tick)) }
    ensures uses { uses.new ≡ noted_all reading.now.params uses.old (reads reading.now.tick reading.now.own
        (refs_slots_read (map cown_ref_of references.now) (standing (cowns_held inputs.now) slots.now reading.now.tick))) }
{
    match references {
        [] => true,
        [first, rest @ ..] => match name_one(first, inputs, slots, reading, uses) {
            Ok(cown) => {
                cowns.push(cown);
                name_all(rest, inputs, slots, reading, uses, cowns)
            }
            Err(_) => false,
        },
    }
}

/// Returns whether no cown is in the list twice.
pub(crate) fn all_differ(cowns: &[CownNo]) -> bool
    ensures { result ≡ not (has_same_twice cowns.now) }
{
    match cowns {
        [] => true,
        [first, rest @ ..] => !contains(rest, *first) && all_differ(rest),
    }
}

fn contains(cowns: &[CownNo], cown: CownNo) -> bool
    ensures { result ≡ list_any (λ d. nat_eq d cown) cowns.now }
{
    cowns.iter().any(|other| *other == cown)
}
