// Names from the text of a file.

ghost use Rattle.std.specs.Prelude.{◌≡◌, ◌<◌, ◌^◌, length, IfOk, MatchResult, OnOk};
ghost use Rattle.boc_names.specs.Names.{texts_of};
ghost use Rattle.boc_names.specs.NamesFile.{AreWhole, IsNamedBy, IsNamesFault};
ghost use Rattle.boc_names.specs.Laying.{AreNamesIn, AreOf, AreRead, IsUntaken, IsUnread, Lays, StandsUnnamed, StopsLay, TakesLine};

use crate::entry::{Said, said_of, split_line};
use crate::fault::{NamesFault, NamesFaultKind};
use crate::grouping::grouped;
use crate::names::Names;
use crate::overlay::{Thing, call, parted, unnamed};
use std::alloc::{AllocError, Global};

/// The most bytes of the text of a file of names.
pub const MOST_NAMES: usize = 8 * 1024 * 1024;

/// The rows and the cowns, and what they are called.
#[derive(Drop, Debug)]
struct Things {
    rows: Vec<Thing>,
    cowns: Vec<Thing>,
}

// Returns the rows and the cowns that these are the names of.
fn things_of(alloc: Global, base: Names) -> Result<Things, AllocError>
    requires rows { length base.defs.items ≡ length base.rows.items }
    requires cowns { length base.families.items ≡ length base.cowns.items }
    ensures { IfOk result (AreOf base) }
{
    let rows = unnamed(alloc, base.rows, &base.defs, &base.def_names)?;
    let cowns = unnamed(alloc, base.cowns, &base.families, &base.family_names)?;
    Ok(Things { rows, cowns })
}

// Calls a thing as a line says.
fn lay(things: &mut Things, said: Said) -> Result<(), NamesFaultKind>
    ensures { MatchResult result (λ done. Lays said things.old things.new) (StopsLay said things.old) }
{
    match said {
        Said::Nothing => Ok(()),
        Said::OfRow(row, called) => call(&mut things.rows, row, called, NamesFaultKind::NoRow),
        Said::OfCown(cown, called) => call(&mut things.cowns, cown, called, NamesFaultKind::NoCown),
    }
}

// Takes the line at the front of a text, and returns what is after it.
fn take_line<'a>(
    alloc: Global,
    things: &mut Things,
    text: &'a [u8],
) -> Result<&'a [u8], NamesFaultKind>
    requires { 0 < length text.now }
    ensures { MatchResult result (λ rest. TakesLine text.now things.old things.new rest.now) (IsUntaken text.now things.old) }
{
    let (line, rest) = split_line(text)?;
    lay(things, said_of(alloc, line)?)?;
    Ok(rest)
}

// Takes all lines of a text.
fn take_lines(alloc: Global, things: &mut Things, text: &[u8]) -> Result<(), NamesFault>
    requires { StandsUnnamed things.old }
    ensures { MatchResult result (λ done. AreRead text.now things.old things.new) (IsUnread text.now things.old) }
{
    let mut rest = text;
    // Each line has a byte at least, its line feed.
    for taken in 0..text.len() {
        if rest.is_empty() {
            return Ok(());
        }
        let line = taken as u64 + 1;
        match take_line(alloc, things, rest) {
            Ok(after) if MOST_NAMES < text.len() - after.len() => {
                let kind = NamesFaultKind::TooLong;
                return Err(NamesFault { line, kind });
            }
            Ok(after) => rest = after,
            Err(kind) => return Err(NamesFault { line, kind }),
        }
    }
    Ok(())
}

// Returns what rows and cowns are called, and their defs and families.
fn names_of(alloc: Global, things: Things) -> Result<Names, AllocError>
    requires rows { length things.rows.items < 2 ^ 32 }
    requires cowns { length things.cowns.items < 2 ^ 32 }
    ensures { IfOk result (AreNamesIn things) }
{
    let (rows, row_groups) = parted(alloc, things.rows)?;
    let (cowns, cown_groups) = parted(alloc, things.cowns)?;
    let defs = grouped(alloc, &row_groups)?;
    let families = grouped(alloc, &cown_groups)?;
    Ok(Names {
        defs: defs.numbers,
        def_names: defs.names,
        rows,
        cowns,
        families: families.numbers,
        family_names: families.names,
    })
}

/// Returns the names that the text of a file gives to rows and cowns, and those of `base` for what it doesn't name.
///
/// Each line ends in a line feed and has at most 80 bytes before it. `= ROW NAME [ARG ..]` calls a row `NAME`, or `NAME(ARG, ARG)`, and its def
/// `NAME`. `@ COWN NAME` calls a cown `NAME`, and its family too, but a name `BASE[..]` is of the family `BASE[*]`. A line that is empty or begins
/// with `#` says nothing. A single blank separates words, which are printable ASCII, and numbers are decimal.
///
/// A text with another line, one that names what `base` hasn't, one that names a row or a cown again, or one with which the text is longer than
/// [`MOST_NAMES`] bytes is refused for its first such line.
/// `Memory` says that memory was refused. The time grows with the length of the text and the number of rows and cowns, and little more.
pub fn read_names(alloc: Global, text: &[u8], base: Names) -> Result<Names, NamesFault>
    requires rows { length base.defs.items ≡ length base.rows.items }
    requires few_rows { length base.rows.items < 2 ^ 32 }
    requires cowns { length base.families.items ≡ length base.cowns.items }
    requires few_cowns { length base.cowns.items < 2 ^ 32 }
    ensures named { MatchResult result (IsNamedBy text.now base) (IsNamesFault text.now base) }
    ensures each_row { IfOk result (λ names. AreWhole (length base.rows.items) names.rows.items names.defs.items) }
    ensures each_cown { IfOk result (λ names. AreWhole (length base.cowns.items) names.cowns.items names.families.items) }
{
    let mut things = things_of(alloc, base)?;
    take_lines(alloc, &mut things, text)?;
    Ok(names_of(alloc, things)?)
}
