// The colours of defs: those of a page.

use crate::def_costs::costs_of;
use crate::subject::Subject;
use crate::written::Written;
use boc_names::text_at;
use boc_page::{Defs, defs_of};
use std::alloc::{AllocError, Global};
use std::cmp::Reverse;

// How many defs have hues of their own, and how many greyer hues the others share.
const HUES: usize = 10;

const GREYER: usize = 16;

/// A colour of the style, by its number: main has 0.
#[derive(Clone, Copy, PartialEq, Eq, Debug)]
pub(crate) struct Colour(u64);

impl Colour {
    // Returns the colour of the def with this rank by work, from 0.
    fn of_rank(rank: usize) -> Colour {
        let place = if rank < HUES {
            rank
        } else {
            ((rank - HUES) % GREYER).saturating_add(HUES)
        };
        Colour((place as u64).saturating_add(1))
    }

    /// Appends the class of what is filled with it to a text.
    pub(crate) fn put_class(self, text: &mut Written) {
        text.put("class=\"c");
        text.put_number(self.0);
        text.push(b'"');
    }

    /// Returns the class of a text on it: black or white, whichever is read better.
    pub(crate) fn ink(self) -> &'static str {
        if self.0 == 1 { "b w" } else { "b k" }
    }
}

/// A def that has rows. All but rows are ticks.
#[derive(Clone, Copy, Debug)]
pub(crate) struct DrawnDef {
    def: usize,
    is_first: bool,
    pub(crate) rows: u64,
    pub(crate) ticks: u64,
    pub(crate) chain: u64,
    pub(crate) colour: Colour,
}

/// The defs that have rows: that of the first row, and then those with the most work.
#[derive(Drop)]
pub(crate) struct Palette {
    listed: Defs,
    pub(crate) defs: Vec<DrawnDef>,
    // For each row the place of its def.
    places: Vec<u32>,
}

impl Palette {
    /// Returns the colours of the defs of a run. Those of main in a program is no hue.
    pub(crate) fn of(
        alloc: Global,
        subject: &Subject,
        is_program: bool,
    ) -> Result<Palette, AllocError> {
        let listed = defs_of(alloc, &subject.names)?;
        let mut defs = drawn_defs(alloc, subject, &listed)?;
        defs.sort_unstable_by_key(|one| (!one.is_first, Reverse(one.ticks), one.def));
        give_colours(&mut defs, is_program);
        let places = places_of(alloc, &listed, &defs)?;
        Ok(Palette {
            listed,
            defs,
            places,
        })
    }

    /// Returns the place of a row's def.
    pub(crate) fn place(&self, row: u32) -> u32 {
        match self.places.get(row as usize) {
            Some(place) => *place,
            None => 0,
        }
    }

    /// Returns the colour of the def at a place.
    pub(crate) fn colour(&self, place: u32) -> Colour {
        match self.defs.get(place as usize) {
            Some(one) => one.colour,
            None => Colour(0),
        }
    }

    /// Returns the name of the def at a place; none where its rows have no name.
    pub(crate) fn name(&self, place: u32) -> &[u8] {
        match self.defs.get(place as usize) {
            Some(one) => text_at(&self.listed.names, one.def),
            None => &[],
        }
    }

    /// Returns what the def at a place is called.
    pub(crate) fn called(&self, place: u32) -> &[u8] {
        match self.name(place) {
            [] => b"(no name)",
            name => name,
        }
    }
}

// Returns the defs that have rows, without colours.
fn drawn_defs(
    alloc: Global,
    subject: &Subject,
    listed: &Defs,
) -> Result<Vec<DrawnDef>, AllocError> {
    let first = listed.of_rows.first().copied();
    let mut defs = Vec::new(alloc);
    for (def, costs) in costs_of(alloc, subject, listed)?.iter().enumerate() {
        if costs.rows > 0 {
            defs.push(DrawnDef {
                def,
                is_first: first == Some(def as u64),
                rows: costs.rows,
                ticks: costs.ticks,
                chain: costs.chain,
                colour: Colour(0),
            })?;
        }
    }
    Ok(defs)
}

// Gives each def its colour.
fn give_colours(defs: &mut [DrawnDef], is_program: bool) {
    let mut rank: usize = 0;
    for one in defs.iter_mut() {
        if !(is_program && one.is_first) {
            one.colour = Colour::of_rank(rank);
            rank = rank.saturating_add(1);
        }
    }
}

// Returns for each row the place of its def among those that have rows.
fn places_of(alloc: Global, listed: &Defs, defs: &[DrawnDef]) -> Result<Vec<u32>, AllocError> {
    let mut by_def = vec![in alloc; 0u32; listed.names.len()]?;
    let mut number: u32 = 0;
    for one in defs {
        if let Some(place) = by_def.get_mut(one.def) {
            *place = number;
        }
        number = number.saturating_add(1);
    }
    let mut places = Vec::with_capacity(alloc, listed.of_rows.len())?;
    for def in &listed.of_rows {
        places.push(by_def.get(*def as usize).copied().unwrap_or(0))?;
    }
    Ok(places)
}
