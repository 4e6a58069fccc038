// The names of cowns, as texts.

ghost use Rattle.std.specs.Prelude.{◌≡◌, ◌+◌, ◌<◌, ◌^◌, ◌++◌, length, replicate, IfOk, OnOk};
ghost use Rattle.boc_names.specs.Names.{cown_names, declared_names, family_name, family_names, family_numbers, member_name, member_names, numbered};
ghost use Rattle.boc_names.specs.Names.{text_at, texts_of};

use boc_program::cown::Cown;
use boc_text::put_number;
use std::alloc::{AllocError, Global};

// The capacity that a short word and a number of 32 bits need, so that memory is requested once.
const NUMBERED_ROOM: usize = 16;

/// Returns a word and a number after it.
pub(crate) fn numbered(alloc: Global, word: &str, number: u64) -> Result<Vec<u8>, AllocError>
    ensures { IfOk result (λ text. text.items ≡ numbered word.now number) }
{
    let mut text = Vec::with_capacity(alloc, NUMBERED_ROOM)?;
    text.extend_from_slice(word.as_bytes())?;
    put_number(&mut text, number)?;
    Ok(text)
}

// Returns the name of a member of an array.
fn member_name(alloc: Global, name: &str, member: u64) -> Result<Vec<u8>, AllocError>
    ensures { IfOk result (λ text. text.items ≡ member_name name.now member) }
{
    let mut text = Vec::new(alloc);
    text.extend_from_slice(name.as_bytes())?;
    text.push(b'[')?;
    put_number(&mut text, member)?;
    text.push(b']')?;
    Ok(text)
}

/// Returns a copy of a text.
pub(crate) fn copied(alloc: Global, text: &[u8]) -> Result<Vec<u8>, AllocError>
    ensures { IfOk result (λ copy. copy.items ≡ text.now) }
{
    let mut copy = Vec::new(alloc);
    copy.extend_from_slice(text)?;
    Ok(copy)
}

// Appends the names of the members of an array to other names.
fn put_members(
    alloc: Global,
    names: &mut Vec<Vec<u8>>,
    name: &str,
    size: u32,
) -> Result<(), AllocError>
    ensures { OnOk result (texts_of names.new.items ≡ texts_of names.old.items ++ member_names name.now 0 size) }
{
    for member in 0..size {
        names.push(member_name(alloc, name, u64::from(member))?)?;
    }
    Ok(())
}

// Appends the names of the cowns of a declaration to others.
fn put_declared(alloc: Global, names: &mut Vec<Vec<u8>>, cown: &Cown) -> Result<(), AllocError>
    ensures { OnOk result (texts_of names.new.items ≡ texts_of names.old.items ++ declared_names cown.now.name cown.now.size) }
{
    match cown.size {
        None => {
            names.push(copied(alloc, cown.name.as_str().as_bytes())?)?;
            Ok(())
        }
        Some(size) => put_members(alloc, names, cown.name.as_str(), size),
    }
}

// Appends the names of cowns to others.
fn put_cowns(alloc: Global, names: &mut Vec<Vec<u8>>, cowns: &[Cown]) -> Result<(), AllocError>
    ensures { OnOk result (texts_of names.new.items ≡ texts_of names.old.items ++ cown_names cowns.now) }
{
    match cowns {
        [] => Ok(()),
        [first, others @ ..] => {
            put_declared(alloc, names, first)?;
            put_cowns(alloc, names, others)
        }
    }
}

/// Returns the names of cowns, in the order of their numbers: those of single ones, and of the members of arrays. `AllocError` says that memory was refused.
pub fn cown_names(alloc: Global, cowns: &[Cown]) -> Result<Vec<Vec<u8>>, AllocError>
    ensures { IfOk result (λ names. texts_of names.items ≡ cown_names cowns.now) }
{
    let mut names = Vec::new(alloc);
    put_cowns(alloc, &mut names, cowns)?;
    Ok(names)
}

// Returns the name of all cowns of a declaration together.
fn family_name(alloc: Global, cown: &Cown) -> Result<Vec<u8>, AllocError>
    ensures { IfOk result (λ text. text.items ≡ family_name cown.now.name cown.now.size) }
{
    let mut text = copied(alloc, cown.name.as_str().as_bytes())?;
    if cown.size.is_some() {
        text.extend_from_slice(b"[*]")?;
    }
    Ok(text)
}

// Appends the names of declarations of cowns to others.
fn put_family_names(
    alloc: Global,
    names: &mut Vec<Vec<u8>>,
    cowns: &[Cown],
) -> Result<(), AllocError>
    ensures { OnOk result (texts_of names.new.items ≡ texts_of names.old.items ++ family_names cowns.now) }
{
    match cowns {
        [] => Ok(()),
        [first, others @ ..] => {
            names.push(family_name(alloc, first)?)?;
            put_family_names(alloc, names, others)
        }
    }
}

/// Returns the names of the declarations of cowns, in their order.
pub(crate) fn family_names(alloc: Global, cowns: &[Cown]) -> Result<Vec<Vec<u8>>, AllocError>
    ensures { IfOk result (λ names. texts_of names.items ≡ family_names cowns.now) }
{
    let mut names = Vec::new(alloc);
    put_family_names(alloc, &mut names, cowns)?;
    Ok(names)
}

// Appends the number of a declaration to others, for each of its cowns.
fn put_family(families: &mut Vec<u32>, number: u32, cowns: usize) -> Result<(), AllocError>
    ensures { OnOk result (families.new.items ≡ families.old.items ++ replicate cowns number) }
{
    for _ in 0..cowns {
        families.push(number)?;
    }
    Ok(())
}

// Appends the numbers of declarations to others, of which the first has this one, for each of their cowns.
fn put_families(families: &mut Vec<u32>, number: u32, cowns: &[Cown]) -> Result<(), AllocError>
    requires { number + length cowns.now < 2 ^ 32 }
    ensures { OnOk result (families.new.items ≡ families.old.items ++ family_numbers number cowns.now) }
{
    match cowns {
        [] => Ok(()),
        [first, others @ ..] => {
            put_family(families, number, first.members())?;
            put_families(families, number + 1, others)
        }
    }
}

/// Returns for each cown the number of its declaration.
pub(crate) fn family_numbers(alloc: Global, cowns: &[Cown]) -> Result<Vec<u32>, AllocError>
    requires { length cowns.now < 2 ^ 32 }
    ensures { IfOk result (λ families. families.items ≡ family_numbers 0 cowns.now) }
{
    let mut families = Vec::new(alloc);
    put_families(&mut families, 0, cowns)?;
    Ok(families)
}

/// Returns the name at a place, and no text where there is none.
pub fn text_at(names: &[Vec<u8>], place: usize) -> &[u8]
    ensures { result.now ≡ text_at (texts_of names.now) place }
{
    match names.get(place) {
        Some(name) => name,
        None => &[],
    }
}
