// The cowns of a behaviour, as its text names them.

ghost use Rattle.std.specs.Prelude.{◌≡◌, ◌+◌, ◌<◌, ◌≤◌, ◌^◌, ◌∷◌, ◌++◌, codes, drop, flat_map, length, map, slice_get, take, IfOk, OnOk};
ghost use Rattle.boc_program.specs.Sizes.{members};
ghost use Rattle.boc_names.specs.Names.{between, goes_on, held_text, is_next, member_places, named_cowns, places_from, range_text, separated};
ghost use Rattle.boc_names.specs.Names.{stretch_text, text_at, texts_of};
ghost use Rattle.boc_names.specs.Stretches.{stretches};

use crate::texts::{copied, cown_names, text_at};
use boc_program::cown::Cown;
use boc_program::short::CownNo;
use boc_text::put_number;
use std::alloc::{AllocError, Global};
use std::marker::Model;

// At least this many members of an array that follow each other are reported by the first and the last of them.
const LEAST_RANGE: usize = 3;

/// Where a cown is in the text of a program.
#[derive(Clone, Copy, Debug)]
pub struct Place {
    /// The number of its declaration.
    pub declaration: u32,
    /// Its number among the members of the array, and 0 where it is alone.
    pub member: u32,
}

/// The cowns of a program by their names.
///
/// Contracts see what each is called, where each is, and the names in the declarations.
#[derive(Drop)]
pub struct CownNames {
    names: Vec<Vec<u8>>,
    places: Vec<Place>,
    declared: Vec<Vec<u8>>,
}

impl Model for CownNames {
    ghost use Rattle.boc_names.specs.Names.{NamedCowns, texts_of};

    ghost Value = { NamedCowns };

    ghost view = { λ c. record { names = texts_of c.names.items; places = c.places.items; declared = texts_of c.declared.items } };
}

// Appends the places of the cowns of a declaration to others.
fn put_declared_places(
    places: &mut Vec<Place>,
    declaration: u32,
    cown: &Cown,
) -> Result<(), AllocError>
    ensures { OnOk result (places.new.items ≡ places.old.items ++ member_places declaration 0 (members cown.now.size)) }
{
    let size = cown.size.unwrap_or(1);
    for member in 0..size {
        places.push(Place {
            declaration,
            member,
        })?;
    }
    Ok(())
}

// Appends the places of the cowns of declarations to others. The first declaration has this number.
fn put_places(places: &mut Vec<Place>, number: u32, cowns: &[Cown]) -> Result<(), AllocError>
    requires { number + length cowns.now < 2 ^ 32 }
    ensures { OnOk result (places.new.items ≡ places.old.items ++ places_from number cowns.now) }
{
    match cowns {
        [] => Ok(()),
        [first, others @ ..] => {
            put_declared_places(places, number, first)?;
            put_places(places, number + 1, others)
        }
    }
}

// Returns where the cowns of declarations are.
fn places_of(alloc: Global, cowns: &[Cown]) -> Result<Vec<Place>, AllocError>
    requires { length cowns.now < 2 ^ 32 }
    ensures { IfOk result (λ places. places.items ≡ places_from 0 cowns.now) }
{
    let mut places = Vec::new(alloc);
    put_places(&mut places, 0, cowns)?;
    Ok(places)
}

// Returns the names in declarations.
fn declared_names(alloc: Global, cowns: &[Cown]) -> Result<Vec<Vec<u8>>, AllocError>
    ensures { IfOk result (λ names. texts_of names.items ≡ map (λ c. c.name) cowns.now) }
{
    let mut names = Vec::new(alloc);
    for cown in cowns {
        names.push(copied(alloc, cown.name.as_str().as_bytes())?)?;
    }
    Ok(names)
}

// Appends to a text the members of an array from the first of some numbers to the last.
fn put_range(text: &mut Vec<u8>, array: &[u8], first: u64, last: u64) -> Result<(), AllocError>
    ensures { OnOk result (text.new.items ≡ text.old.items ++ range_text array.now first last) }
{
    text.extend_from_slice(array)?;
    text.push(b'[')?;
    put_number(text, first)?;
    text.extend_from_slice(b"..")?;
    put_number(text, last)?;
    text.push(b']')?;
    Ok(())
}

impl CownNames {
    /// Returns the cowns of these declarations. `AllocError` says that memory was refused.
    pub fn of(alloc: Global, cowns: &[Cown]) -> Result<CownNames, AllocError>
        requires { length cowns.now < 2 ^ 32 }
        ensures { IfOk result (λ named. named ≡ named_cowns cowns.now) }
    {
        Ok(CownNames {
            names: cown_names(alloc, cowns)?,
            places: places_of(alloc, cowns)?,
            declared: declared_names(alloc, cowns)?,
        })
    }

    /// Returns what each cown is called.
    pub fn into_names(self) -> Vec<Vec<u8>>
        ensures { texts_of result.items ≡ self.names }
    {
        self.names
    }

    // Returns whether a cown goes on from another.
    fn goes_on(&self, cown: CownNo, next: CownNo) -> bool
        ensures { result ≡ goes_on self.now cown next }
    {
        match (
            self.places.get(cown as usize),
            self.places.get(next as usize),
        ) {
            (Some(place), Some(next)) => {
                place.declaration == next.declaration
                    && u64::from(place.member) + 1 == u64::from(next.member)
            }
            _ => false,
        }
    }

    // Returns how many cowns are in the first stretch.
    fn stretch_len(&self, held: &[CownNo]) -> usize
        requires { 0 < length held.now }
        ensures some { 0 < result }
        ensures within { result ≤ length held.now }
        ensures first { stretches (goes_on self.now) held.now ≡ take result held.now ∷ stretches (goes_on self.now) (drop result held.now) }
    {
        let mut end = 1;
        while end < held.len() && self.goes_on(held[end - 1], held[end]) {
            end += 1;
        }
        end
    }

    // Appends cowns to others, each by its name.
    fn put_more_each(&self, text: &mut Vec<u8>, held: &[CownNo]) -> Result<(), AllocError>
        ensures { OnOk result (text.new.items ≡ text.old.items ++ flat_map (λ name. codes ", " ++ name) (map (text_at self.now.names) held.now)) }
    {
        for cown in held {
            text.extend_from_slice(b", ")?;
            text.extend_from_slice(text_at(&self.names, *cown as usize))?;
        }
        Ok(())
    }

    // Appends cowns to a text, each by its name.
    fn put_each(&self, text: &mut Vec<u8>, held: &[CownNo]) -> Result<(), AllocError>
        ensures { OnOk result (text.new.items ≡ text.old.items ++ separated (map (text_at self.now.names) held.now)) }
    {
        match held {
            [] => Ok(()),
            [first, others @ ..] => {
                text.extend_from_slice(text_at(&self.names, *first as usize))?;
                self.put_more_each(text, others)
            }
        }
    }

    // Appends to a text the members of an array from one to another.
    fn put_between(&self, text: &mut Vec<u8>, first: CownNo, last: CownNo) -> Result<(), AllocError>
        ensures { OnOk result (text.new.items
            ≡ text.old.items ++ between self.now.declared (slice_get self.now.places first) (slice_get self.now.places last)) }
    {
        match (
            self.places.get(first as usize),
            self.places.get(last as usize),
        ) {
            (Some(first), Some(last)) => {
                let array = text_at(&self.declared, first.declaration as usize);
                put_range(text, array, u64::from(first.member), u64::from(last.member))
            }
            _ => Ok(()),
        }
    }

    // Appends cowns that follow each other in one array to a text.
    fn put_stretch(&self, text: &mut Vec<u8>, stretch: &[CownNo]) -> Result<(), AllocError>
        ensures { OnOk result (text.new.items ≡ text.old.items ++ stretch_text self.now stretch.now) }
    {
        if stretch.len() < LEAST_RANGE {
            self.put_each(text, stretch)
        } else {
            self.put_between(text, stretch[0], stretch[stretch.len() - 1])
        }
    }

    // Appends cowns to others, those that follow each other in one array together.
    fn put_more_held(&self, text: &mut Vec<u8>, held: &[CownNo]) -> Result<(), AllocError>
        ensures { OnOk result (text.new.items ≡ text.old.items
            ++ flat_map (λ told. codes ", " ++ told) (map (stretch_text self.now) (stretches (goes_on self.now) held.now))) }
    {
        let mut rest = held;
        while !rest.is_empty() {
            let (stretch, behind) = rest.split_at(self.stretch_len(rest));
            text.extend_from_slice(b", ")?;
            self.put_stretch(text, stretch)?;
            rest = behind;
        }
        Ok(())
    }

    /// Appends the cowns of a behaviour to a text, those that follow each other in one array together.
    pub fn put_held(&self, text: &mut Vec<u8>, held: &[CownNo]) -> Result<(), AllocError>
        ensures { OnOk result (text.new.items ≡ text.old.items ++ held_text self.now held.now) }
    {
        if held.is_empty() {
            return Ok(());
        }
        let (first, others) = held.split_at(self.stretch_len(held));
        text.push(b' ')?;
        self.put_stretch(text, first)?;
        self.put_more_held(text, others)?;
        Ok(())
    }
}
