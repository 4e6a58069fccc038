// All that is reported.

ghost use Rattle.std.specs.Prelude.{◌≡◌, IfOk, OnOk};
ghost use Rattle.boc_names.specs.Names.{texts_of};
ghost use Rattle.boc_compare_report.specs.PairTexts.{cown_words, def_words, words_of};
ghost use Rattle.boc_compare_report.specs.Compared.{HasFamilies, HasPairs, IsCownsPart, IsDefsPart, IsCompareText, IsNamedPart, Puts, tells_typical};

use crate::lines::{put_chains, put_verdict};
use crate::numbers::numbers_table;
use crate::pairs::{Heads, pairs_table};
use boc_compare::{Side, Totals, changes};
use boc_names::Names;
use boc_table::put_table;
use std::alloc::{AllocError, Global};

/// Two runs, and what they are called.
#[derive(Clone, Copy)]
pub struct Compared<'a> {
    pub before: &'a Side,
    pub before_names: &'a Names,
    pub after: &'a Side,
    pub after_names: &'a Names,
    /// Whether both have names, so that defs of one name can be compared.
    pub named: bool,
    /// Whether the rows have typical ticks already.
    pub typical: bool,
    /// For how many workers the ends are, or 0 where there are none.
    pub workers: u32,
}

// Returns what is written above the table of defs.
fn def_heads() -> Heads
    ensures { words_of result ≡ def_words }
{
    Heads {
        name: b"def",
        count: b"rows",
        ticks: b"ticks",
        more: b"typical",
    }
}

// Returns what is written above the table of cowns.
fn cown_heads() -> Heads
    ensures { words_of result ≡ cown_words }
{
    Heads {
        name: b"cown",
        count: b"cowns",
        ticks: b"held",
        more: b"waited",
    }
}

// Appends a table of what is reported by name to a text, after an empty line.
fn put_pairs(
    alloc: Global,
    text: &mut Vec<u8>,
    heads: Heads,
    before: &[Totals],
    before_names: &[Vec<u8>],
    after: &[Totals],
    after_names: &[Vec<u8>],
) -> Result<(), AllocError>
    ensures { OnOk result (Puts (HasPairs (words_of heads) before.now (texts_of before_names.now) after.now (texts_of after_names.now)) text.old.items text.new.items) }
{
    let pairs = changes(alloc, before, before_names, after, after_names)?;
    let table = pairs_table(alloc, heads, &pairs, before_names, after_names)?;
    text.push(b'\n')?;
    put_table(text, &table)
}

// Appends the chains and the defs to a text.
fn put_defs(alloc: Global, text: &mut Vec<u8>, own: &Compared<'_>) -> Result<(), AllocError>
    ensures { OnOk result (Puts (IsDefsPart own.now) text.old.items text.new.items) }
{
    let heads = def_heads();
    text.push(b'\n')?;
    put_chains(
        text,
        own.before_names,
        &own.before.by_def,
        own.after_names,
        &own.after.by_def,
    )?;
    put_pairs(
        alloc,
        text,
        heads,
        &own.before.defs,
        &own.before_names.def_names,
        &own.after.defs,
        &own.after_names.def_names,
    )
}

// Appends the chains and the defs to a text, where both runs have names.
fn put_named(alloc: Global, text: &mut Vec<u8>, own: &Compared<'_>) -> Result<(), AllocError>
    ensures { OnOk result (Puts (IsNamedPart own.now.named (IsDefsPart own.now)) text.old.items text.new.items) }
{
    if !own.named {
        return Ok(());
    }
    put_defs(alloc, text, own)
}

// Appends the families of cowns to a text.
fn put_families(alloc: Global, text: &mut Vec<u8>, own: &Compared<'_>) -> Result<(), AllocError>
    ensures { OnOk result (Puts (HasFamilies own.now) text.old.items text.new.items) }
{
    let heads = cown_heads();
    put_pairs(
        alloc,
        text,
        heads,
        &own.before.families,
        &own.before_names.family_names,
        &own.after.families,
        &own.after_names.family_names,
    )
}

// Appends the families of cowns to a text, if there are any.
fn put_cowns(alloc: Global, text: &mut Vec<u8>, own: &Compared<'_>) -> Result<(), AllocError>
    ensures { OnOk result (Puts (IsCownsPart own.now) text.old.items text.new.items) }
{
    if own.before.families.is_empty() && own.after.families.is_empty() {
        return Ok(());
    }
    put_families(alloc, text, own)
}

// Returns whether typical ticks are reported: where both runs have names, and the rows don't have typical ticks already.
fn tells_typical(own: &Compared<'_>) -> bool
    ensures { result ≡ tells_typical own.now }
{
    own.named && !own.typical
}

/// Returns what is reported of two runs: their numbers, before and after, and by how much they change. Where both have names, the defs that weigh most on
/// their chains follow, and a line for each def of either. A line for each family of cowns follows, and by how much the ends change. `AllocError` says that
/// memory was refused.
pub fn compare_text(alloc: Global, own: &Compared<'_>) -> Result<Vec<u8>, AllocError>
    ensures { IfOk result (λ text. IsCompareText own.now text.items) }
{
    let typical = tells_typical(own);
    let mut text = Vec::new(alloc);
    let table = numbers_table(alloc, own.workers, typical, own.before, own.after)?;
    put_table(&mut text, &table)?;
    put_named(alloc, &mut text, own)?;
    put_cowns(alloc, &mut text, own)?;
    put_verdict(&mut text, own.workers, typical, own.before, own.after)?;
    Ok(text)
}
