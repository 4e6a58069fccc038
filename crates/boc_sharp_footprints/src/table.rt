// Tables of what kinds reach, by the value of an argument.

ghost use Rattle.std.specs.Prelude.{◌≡◌, ◌||◌, not, slice_get};
ghost use Rattle.boc_sharp_footprints.specs.Tables.{
  allows,
  allows_there,
  holds_all as holds_all_spec,
  is_in,
  place_at,
  reaches_by,
  reaches_with,
};

use boc_footprints::Footprints;
use boc_program::short::CownNo;
use std::marker::Model;

// Returns whether a cown is in a set.
fn is_in_marks(marks: &[bool], cown: usize) -> bool
    ensures { result ≡ is_in marks.now cown }
{
    if cown < marks.len() {
        marks[cown]
    } else {
        true
    }
}

// Returns whether a cown with this mark is in a set, if another set has it.
fn is_held(mark: bool, other: bool) -> bool
    ensures { result ≡ (mark || not other) }
{
    mark || !other
}

// Returns whether a set has all cowns of another.
fn holds_all(set: &[bool], other: &[bool]) -> bool
    ensures { result ≡ holds_all_spec other.now 0 set.now }
{
    for (cown, mark) in set.iter().enumerate() {
        if !is_held(*mark, is_in_marks(other, cown)) {
            return false;
        }
    }
    true
}

// A set of cowns, told by marks.
#[derive(Drop, Debug)]
pub(crate) struct CownSet {
    pub marks: Vec<bool>,
}

impl Model for CownSet {
    ghost use Rattle.std.specs.Prelude.{Bool, List};

    ghost Value = { List Bool };

    ghost view = { λ a. a.marks.items };
}

impl CownSet {
    fn has(&self, cown: CownNo) -> bool
        ensures { result ≡ is_in self.now cown }
    {
        self.marks.get(cown as usize).copied().unwrap_or(true)
    }

    // Returns how many cowns have a mark, set or not.
    pub(crate) fn many(&self) -> usize {
        self.marks.len()
    }

    // Returns whether the set has all cowns of another.
    pub(crate) fn holds_all(&self, other: &[bool]) -> bool
        ensures { result ≡ holds_all_spec other.now 0 self.now }
    {
        holds_all(&self.marks, other)
    }
}

// The place of an argument, and for each of its first values a set of cowns.
#[derive(Drop, Debug)]
pub(crate) struct KindSets {
    pub place: usize,
    pub sets: Vec<CownSet>,
}

impl Model for KindSets {
    ghost use Rattle.boc_sharp_footprints.specs.Tables.{ByValue};

    ghost Value = { ByValue };

    ghost view = { λ a. record { place = a.place; sets = a.sets.items } };
}

impl KindSets {
    // Returns whether the sets allow a cown where the argument has this value, if that is known.
    fn allow(&self, value: Option<i64>, cown: CownNo) -> bool
        ensures { result ≡ allows self.now.sets value cown }
    {
        match value {
            Some(number) if number >= 0 => match self.sets.get(number as usize) {
                None => true,
                Some(set) => set.has(cown),
            },
            _ => true,
        }
    }
}

/// The cowns that the `when`s of each kind name, and those of the kinds that it spawns, and so on, where for some kinds the value of one
/// argument gives fewer.
#[derive(Drop, Debug)]
pub struct SharpFootprints {
    pub(crate) by_kind: Footprints,
    pub(crate) by_value: Vec<KindSets>,
}

impl Model for SharpFootprints {
    ghost use Rattle.boc_sharp_footprints.specs.Tables.{Sharp};

    ghost Value = { Sharp };

    ghost view = { λ a. record { by_kind = a.by_kind; by_value = a.by_value.items } };
}

impl SharpFootprints {
    // Returns whether a kind has sets.
    pub(crate) fn has_sets(&self, kind: usize) -> bool {
        match self.by_value.get(kind) {
            None => false,
            Some(sets) => !sets.sets.is_empty(),
        }
    }

    // Returns the place of the argument by which a kind has sets.
    pub(crate) fn place(&self, kind: usize) -> usize
        ensures { result ≡ place_at self.now kind }
    {
        match self.by_value.get(kind) {
            None => 0,
            Some(sets) => sets.place,
        }
    }

    // Returns whether the sets of a kind allow a cown.
    fn allow(&self, kind: usize, value: Option<i64>, cown: CownNo) -> bool
        ensures { result ≡ allows_there (slice_get self.now.by_value kind) value cown }
    {
        match self.by_value.get(kind) {
            None => true,
            Some(sets) => sets.allow(value, cown),
        }
    }

    /// Returns whether a kind reaches a cown where the argument by which it has sets has this value, if that is known.
    pub(crate) fn reaches_with(&self, kind: usize, value: Option<i64>, cown: CownNo) -> bool
        ensures { result ≡ reaches_with self.now kind value cown }
    {
        self.by_kind.reaches(kind, cown) && self.allow(kind, value, cown)
    }

    /// Returns whether a behaviour of this kind with these arguments reaches a cown.
    pub fn reaches(&self, kind: usize, args: &[i64], cown: CownNo) -> bool
        ensures { result ≡ reaches_by self.now kind args.now cown }
    {
        self.by_kind.reaches(kind, cown)
            && {
                let value = args.get(self.place(kind)).copied();
                self.allow(kind, value, cown)
            }
    }
}
