// The defs of rows, as a page lists them.

ghost use Rattle.std.specs.Prelude.{◌≡◌, List, [], Some, IfOk, OnOk, slice_get};
ghost use Rattle.boc_names.specs.Names.{Text, text_at, texts_of};
ghost use Rattle.boc_page.specs.Columns.{AreArgs, AreDefs, IsArgs, def_name, has_blank, shown_name};
ghost use Rattle.boc_page.specs.Listed.{AreListed, ArePlaces, StayListed};

use boc_names::{Names, text_at};
use std::alloc::{AllocError, Global};

/// The defs that a page lists, and which of them each row has.
#[derive(Drop)]
pub struct Defs {
    /// The names. That of rows without a name is empty.
    pub names: Vec<Vec<u8>>,
    /// For each row the place of its def among them.
    pub of_rows: Vec<u64>,
}

// Returns whether a name is no name but words, such as `row 7`: a name has no blank in it.
fn has_blank(name: &[u8]) -> bool
    ensures { result ≡ has_blank name.now }
{
    name.contains(&b' ')
}

// The names of defs that a page lists, and the place of the empty one, where it is among them.
#[derive(Drop)]
struct Listed {
    names: Vec<Vec<u8>>,
    nameless: Option<u64>,
}

// Returns the place of the empty name, which is added where it is missing.
fn nameless_place(alloc: Global, listed: &mut Listed) -> Result<u64, AllocError>
    requires { AreListed (texts_of listed.old.names.items) listed.old.nameless }
    ensures listed { OnOk result (AreListed (texts_of listed.new.names.items) listed.new.nameless) }
    ensures stay { OnOk result (StayListed (texts_of listed.old.names.items) (texts_of listed.new.names.items)) }
    ensures place { IfOk result (λ place. slice_get (texts_of listed.new.names.items) place ≡ Some []) }
{
    match listed.nameless {
        Some(place) => Ok(place),
        None => {
            let place = listed.names.len() as u64;
            listed.names.push(Vec::new(alloc))?;
            listed.nameless = Some(place);
            Ok(place)
        }
    }
}

// Returns the place of a def, which is added where it has a name.
fn place_of(alloc: Global, listed: &mut Listed, name: &[u8]) -> Result<u64, AllocError>
    requires { AreListed (texts_of listed.old.names.items) listed.old.nameless }
    ensures listed { OnOk result (AreListed (texts_of listed.new.names.items) listed.new.nameless) }
    ensures stay { OnOk result (StayListed (texts_of listed.old.names.items) (texts_of listed.new.names.items)) }
    ensures place { IfOk result (λ place. slice_get (texts_of listed.new.names.items) place ≡ Some (shown_name name.now)) }
{
    if name.is_empty() || has_blank(name) {
        return nameless_place(alloc, listed);
    }
    let place = listed.names.len() as u64;
    listed.names.push(Vec::from_slice(alloc, name)?)?;
    Ok(place)
}

// Returns the place of each def among those that are listed.
fn places_of(
    alloc: Global,
    listed: &mut Listed,
    def_names: &[Vec<u8>],
) -> Result<Vec<u64>, AllocError>
    requires { AreListed (texts_of listed.old.names.items) listed.old.nameless }
    ensures listed { OnOk result (AreListed (texts_of listed.new.names.items) listed.new.nameless) }
    ensures places { IfOk result (λ places. ArePlaces (texts_of def_names.now) (texts_of listed.new.names.items) places.items) }
{
    let mut places = Vec::with_capacity(alloc, def_names.len())?;
    for name in def_names {
        places.push(place_of(alloc, listed, name)?)?;
    }
    Ok(places)
}

// Returns the place of the def with this number, where those of all defs are given. One that there is not has no name.
fn place_at(alloc: Global, listed: &mut Listed, places: &[u64], def: u32) -> Result<u64, AllocError>
    requires { AreListed (texts_of listed.old.names.items) listed.old.nameless }
    ensures listed { OnOk result (AreListed (texts_of listed.new.names.items) listed.new.nameless) }
    ensures stay { OnOk result (StayListed (texts_of listed.old.names.items) (texts_of listed.new.names.items)) }
    ensures place { IfOk result (λ place. (def_names : List Text) → ArePlaces def_names (texts_of listed.old.names.items) places.now
        → slice_get (texts_of listed.new.names.items) place ≡ Some (shown_name (text_at def_names def))) }
{
    match places.get(def as usize) {
        Some(place) => Ok(*place),
        None => nameless_place(alloc, listed),
    }
}

/// Returns the defs of rows as a page lists them: rows without a name are of one def, whose name is empty.
pub fn defs_of(alloc: Global, names: &Names) -> Result<Defs, AllocError>
    ensures { IfOk result (AreDefs names.now) }
{
    let mut listed = Listed {
        names: Vec::new(alloc),
        nameless: None,
    };
    let places = places_of(alloc, &mut listed, &names.def_names)?;
    let mut of_rows = Vec::with_capacity(alloc, names.defs.len())?;
    for def in &names.defs {
        of_rows.push(place_at(alloc, &mut listed, &places, *def)?)?;
    }
    Ok(Defs {
        names: listed.names,
        of_rows,
    })
}

// Returns what follows the def's name in the name of a row. A row without a name has nothing there.
fn args_of<'a>(row: &'a [u8], def: &[u8]) -> &'a [u8]
    ensures { IsArgs def.now row.now result.now }
{
    if has_blank(def) {
        return &[];
    }
    match row.strip_prefix(def) {
        Some(args) => args,
        None => &[],
    }
}

// Returns the name of a row's def, and none where there is no such row or def.
fn def_name(names: &Names, row: usize) -> &[u8]
    ensures { result.now ≡ def_name names.now row }
{
    match names.defs.get(row) {
        Some(def) => text_at(&names.def_names, *def as usize),
        None => &[],
    }
}

/// Returns for each row what follows its def's name in its own: its arguments and cowns.
pub(crate) fn args(alloc: Global, names: &Names) -> Result<Vec<Vec<u8>>, AllocError>
    ensures { IfOk result (λ args. AreArgs names.now (texts_of args.items)) }
{
    let mut column = Vec::with_capacity(alloc, names.rows.len())?;
    for row in 0..names.rows.len() {
        let args = args_of(&names.rows[row], def_name(names, row));
        column.push(Vec::from_slice(alloc, args)?)?;
    }
    Ok(column)
}
