// Cowns and defs that aren't there.

ghost use Rattle.std.specs.Prelude.{IfOk, string_bytes};
ghost use Rattle.boc_said.specs.Lines.{AreLines};

use crate::names::{Naming, counted_cowns, names_by_file};
use boc_names::Names;
use boc_reader::read_listed;
use boc_said::place::{Text, looks_like_program};
use boc_said::said::Part::{Bytes, Number, Quote, Words};
use boc_said::said::{Explained, MOST_QUOTE, Said, Told, first_case};
use boc_text::read_number;
use std::alloc::{AllocError, Global};

// The cowns or the defs that a text names, and the words round them: that there are none, those before them, and those after them.
#[derive(Drop)]
struct Known {
    names: Vec<Vec<u8>>,
    words: [&'static str; 3],
}

// What a text names, if that is known.
type Found = Result<Option<Known>, AllocError>;

/// Returns what is reported of a cown that a record doesn't have, called so.
pub fn explain_cown(alloc: Global, text: Text<'_>, naming: Naming<'_>, name: &str) -> Explained
    ensures { IfOk result (λ told. AreLines (string_bytes told)) }
{
    let mut said = Said::new(alloc);
    put_no_cown(&mut said, text, naming, name.as_bytes())?;
    said.into_text(None)
}

// Reports which cowns there are, as they are called, or else by their numbers.
fn put_no_cown(said: &mut Said, text: Text<'_>, naming: Naming<'_>, name: &[u8]) -> Told {
    if read_number(name).is_none()
        && let Some(known) = known_by(said.alloc, text, naming, false)?
    {
        return put_missing(said, "no cown is called ", name, known);
    }
    put_counted(said, text, name)
}

// Reports how many cowns an input has.
fn put_counted(said: &mut Said, text: Text<'_>, name: &[u8]) -> Told {
    let Some((whose, count)) = counted_cowns(said.alloc, text.bytes) else {
        return Ok(());
    };
    if count == 0 {
        said.set_subject(name)?;
        return said.about("the {} has no cowns", &[Words(whose)]);
    }
    let parts = [Quote(name), Words(whose), Number(count.saturating_sub(1))];
    said.tell("no cown is called {}; the {} has cowns 0 to ", &parts)
}

/// Returns what is reported of a def that no row of a record is of, called so.
pub fn explain_def(alloc: Global, text: Text<'_>, naming: Naming<'_>, name: &str) -> Explained
    ensures { IfOk result (λ told. AreLines (string_bytes told)) }
{
    let mut said = Said::new(alloc);
    put_no_def(&mut said, text, naming, name.as_bytes())?;
    said.into_text(None)
}

// Reports which defs there are, or why none can be called so.
#[rattlefmt::skip]
fn put_no_def(said: &mut Said, text: Text<'_>, naming: Naming<'_>, name: &[u8]) -> Told {
    let by_file = matches!(naming, Naming::Names(_));
    let reason = first_case(&[
        (matches!(naming, Naming::Numbers), "no row belongs to a def {}; without either file each row is a def of its own, such as `row 0`"),
        (by_file && looks_like_program(text.bytes), "no row belongs to a def {}; names in --names FILE replace those of the program"),
    ]);
    if let Some(reason) = reason {
        return said.tell(reason, &[Quote(name)]);
    }
    match known_by(said.alloc, text, naming, true)? {
        Some(known) => put_missing(said, "no row belongs to a def ", name, known),
        None => Ok(()),
    }
}

// Returns the defs or the cowns that a program or a file names, if that is known.
fn known_by(alloc: Global, text: Text<'_>, naming: Naming<'_>, are_defs: bool) -> Found {
    match naming {
        Naming::Numbers => Ok(None),
        Naming::Program(program) if are_defs => defs_of(alloc, program),
        Naming::Program(program) => cowns_of(alloc, program),
        Naming::Names(file) => named_in(alloc, text, file, are_defs),
    }
}

fn defs_of(alloc: Global, program: &[u8]) -> Found {
    let Ok((_, listings)) = read_listed(alloc, program) else {
        return Ok(None);
    };
    let mut names = Vec::new(alloc);
    for listing in &listings {
        names.push(Vec::from_slice(alloc, listing.name.as_str().as_bytes())?)?;
    }
    let none = "; the program has no def except main";
    let words = [none, "; the program's defs are ", ", and main"];
    Ok(Some(Known { names, words }))
}

fn cowns_of(alloc: Global, program: &[u8]) -> Found {
    let Ok((program, _)) = read_listed(alloc, program) else {
        return Ok(None);
    };
    let mut names = Vec::new(alloc);
    for cown in program.cowns.as_slice() {
        let mut name = Vec::from_slice(alloc, cown.name.as_str().as_bytes())?;
        if cown.size.is_some() {
            name.extend_from_slice(b"[*]")?;
        }
        names.push(name)?;
    }
    let none = "; the program has no cowns";
    let words = [none, "; the program's cowns are ", ""];
    Ok(Some(Known { names, words }))
}

// Returns the defs or the cowns of a record that a file names, if that is known.
#[rattlefmt::skip]
fn named_in(alloc: Global, text: Text<'_>, file: &[u8], are_defs: bool) -> Found {
    if !text.whole {
        return Ok(None);
    }
    let Some(called) = names_by_file(alloc, text.bytes, Some(file))? else {
        return Ok(None);
    };
    let Names { def_names, family_names, .. } = called;
    let (mut names, words) = if are_defs {
        (def_names, ["; the file names no row", "; the file's defs are ", ""])
    } else {
        (family_names, ["; the file names no cown", "; the file's cowns are ", ""])
    };
    // What the file names has no blank; what it doesn't is called as `row 2`.
    names.retain(|name| !name.contains(&b' '));
    Ok(Some(Known { names, words }))
}

// Reports that none is called so, and which there are.
fn put_missing(said: &mut Said, begin: &str, name: &[u8], known: Known) -> Told {
    let list = listed(said.alloc, &known.names, name)?;
    let [none, some, behind] = known.words;
    if known.names.is_empty() {
        return said.tell(begin, &[Quote(name), Words(none)]);
    }
    let parts = [Quote(name), Words(some), Bytes(&list), Words(behind)];
    said.tell(begin, &parts)
}

// How many names are reported at most.
const MOST_NAMES: usize = 6;

// How many bytes they have next to the name that is missing, at most: as many as a line has next to the words round them.
const MOST_LISTED: usize = 90;

// Returns the first of these names, as many as fit next to one that is missing, and two dots instead of the others.
fn listed(alloc: Global, names: &[Vec<u8>], missing: &[u8]) -> Result<Vec<u8>, AllocError> {
    let mut text = Vec::new(alloc);
    let room = MOST_LISTED.saturating_sub(missing.len().min(MOST_QUOTE));
    for (count, name) in names.iter().enumerate() {
        if count > 0 {
            text.extend_from_slice(b", ")?;
        }
        if count == MOST_NAMES || text.len().saturating_add(name.len()) > room {
            text.extend_from_slice(b"..")?;
            break;
        }
        text.extend_from_slice(name)?;
    }
    Ok(text)
}
