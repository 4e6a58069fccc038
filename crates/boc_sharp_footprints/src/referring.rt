// The cowns to which a `when` may refer.

ghost use Rattle.std.specs.Prelude.{◌≡◌, ◌≤◌, ◌||◌, ℕ, length, map};
ghost use Rattle.std.specs.List.{list_any};
ghost use Rattle.boc_program.specs.Resolved.{every};
ghost use Rattle.boc_program.specs.memory.View.{cown_ref_of};
ghost use Rattle.boc_sharp_footprints.specs.Known.{
  is_within,
  may_lead,
  may_name,
  members as members_spec,
  range_of as range_of_spec,
};
ghost use Rattle.boc_sharp_footprints.specs.Tables.{is_in, marked_up};

use crate::known::known;
use boc_program::body::CownRef;
use boc_program::short::CownNo;
use std::marker::Model;

// Cowns from a first one on.
#[derive(Drop)]
struct Range {
    first: u64,
    size: u64,
}

impl Model for Range {
    ghost use Rattle.boc_sharp_footprints.specs.Known.{Range as Span};

    ghost Value = { Span };

    ghost view = { λ a. record { first = a.first; size = a.size } };
}

impl Range {
    fn new(first: u64, size: u64) -> Range
        ensures { result ≡ record { first = first; size = size } }
    {
        Range { first, size }
    }

    fn has(&self, cown: u64) -> bool
        ensures { result ≡ is_within self.now cown }
    {
        self.first <= cown && cown - self.first < self.size
    }
}

// Returns the member of an array that has this index, if it is one; where the index is not known, all members.
fn members(first: CownNo, size: u32, index: Option<i64>) -> Option<Range>
    ensures { result ≡ members_spec first size index }
{
    match index {
        None => Some(Range::new(u64::from(first), u64::from(size))),
        Some(number) => {
            if number >= 0 && number < i64::from(size) {
                Some(Range::new(u64::from(first) + number as u64, 1))
            } else {
                None
            }
        }
    }
}

// Returns the cowns to which a reference may be, if it is to one. A parameter names no other than the behaviour's own.
fn range_of(reference: &CownRef, slots: &[Option<i64>]) -> Option<Range>
    ensures { result ≡ range_of_spec slots.now (cown_ref_of reference.now) }
{
    match reference {
        CownRef::Held(_) => Some(Range::new(0, 0)),
        CownRef::Single(cown) => Some(Range::new(u64::from(*cown), 1)),
        CownRef::Member { first, size, index } => members(*first, *size, known(index, slots)),
    }
}

/// Returns whether each of these references may be to a cown.
pub(crate) fn all_may_lead(references: &[CownRef], slots: &[Option<i64>]) -> bool
    ensures { result ≡ every (map (may_lead slots.now) (map cown_ref_of references.now)) }
{
    match references {
        [] => true,
        [first, rest @ ..] => range_of(first, slots).is_some() && all_may_lead(rest, slots),
    }
}

// Marks the cowns of a range.
fn mark_range(range: &Range, marks: &mut [bool])
    requires { length marks.old ≤ 256 }
    ensures { marks.new ≡ marked_up (is_within range.now) (length marks.old) marks.old }
{
    for cown in 0..marks.len() {
        if range.has(cown as u64) {
            marks[cown] = true;
        }
    }
}

// Marks the cowns to which a reference may be.
fn mark_reference(reference: &CownRef, slots: &[Option<i64>], marks: &mut [bool])
    requires { length marks.old ≤ 256 }
    ensures { (c : ℕ) → is_in marks.new c ≡ (is_in marks.old c || may_name c slots.now (cown_ref_of reference.now)) }
{
    if let Some(range) = range_of(reference, slots) {
        mark_range(&range, marks);
    }
}

/// Marks the cowns to which one of these references may be.
pub(crate) fn mark_references(references: &[CownRef], slots: &[Option<i64>], marks: &mut [bool])
    requires { length marks.old ≤ 256 }
    ensures { (c : ℕ) → is_in marks.new c ≡ (is_in marks.old c || list_any (may_name c slots.now) (map cown_ref_of references.now)) }
{
    match references {
        [] => {}
        [first, rest @ ..] => {
            mark_reference(first, slots, marks);
            mark_references(rest, slots, marks);
        }
    }
}
