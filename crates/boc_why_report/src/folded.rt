// The lines of a chain in which steps of one def that follow each other are folded.

ghost use Rattle.std.specs.Prelude.{◌≡◌, ◌++◌, ◌∷◌, [], ◌<◌, ◌≤◌, ◌^◌, All, List, codes, decimal, drop, filter, flat_map, length, take, IfOk, OnOk};
ghost use Rattle.std.specs.List.{count_by, list_all};
ghost use Rattle.boc_plans.specs.Chains.{weight_of};
ghost use Rattle.boc_names.specs.Names.{texts_of};
ghost use Rattle.boc_names.specs.Stretches.{stretches};
ghost use Rattle.boc_why.specs.declared.links.Link.{Link};
ghost use Rattle.boc_why.specs.Shares.{def_of};
ghost use Rattle.boc_why_report.specs.ChainTexts.{are_of_one_def, behaviours_text, behind_blank, chain_foot, chain_sides, common, folded_legs, folded_lines};
ghost use Rattle.boc_why_report.specs.ChainTexts.{folded_text, hands_too, inner_text, is_hand, is_spawn, legs, rows_text, spawns_texts};
ghost use Rattle.boc_why_report.specs.ChainTexts.{stretch_lines, stretch_texts, stretch_then};

use crate::chain::{CHAIN_SIDES, number, put_foot, put_head, put_steps, step_at};
use crate::words::{put_handed, then_text};
use boc_names::{Names, text_at};
use boc_plans::chain::ChainStep;
use boc_program::short::HeldCown;
use boc_table::{Table, put_table};
use boc_text::put_number;
use boc_why::{Link, Why};
use std::alloc::{AllocError, Global};

// The given number of steps of one def that follow each other, or more, are in one line.
const LEAST_FOLDED: usize = 4;

// Returns the def of a step's row, and 0 where it has none.
fn def_of(names: &Names, step: ChainStep) -> u32
    ensures { result ≡ def_of names.now.defs.items step.row }
{
    match names.defs.get(step.row as usize) {
        Some(def) => *def,
        None => 0,
    }
}

// Returns how many steps from the first on are of one def.
fn stretch_len(names: &Names, steps: &[ChainStep]) -> usize
    requires { 0 < length steps.now }
    ensures some { 0 < result }
    ensures within { result ≤ length steps.now }
    ensures first { (links : List Link) → length links ≡ length steps.now → stretches (are_of_one_def names.now.defs.items) (legs steps.now links)
        ≡ take result (legs steps.now links) ∷ stretches (are_of_one_def names.now.defs.items) (drop result (legs steps.now links)) }
{
    let mut end = 1;
    while end < steps.len() && def_of(names, steps[end - 1]) == def_of(names, steps[end]) {
        end += 1;
    }
    end
}

// Returns whether a link is a spawn.
fn is_spawn(link: &Link) -> bool
    ensures { result ≡ is_spawn link.now }
{
    match link {
        Link::SpawnBy(_) => true,
        Link::Hands(_) | Link::Frees | Link::Ends => false,
    }
}

// Returns how many of some links are spawns.
fn spawn_count(links: &[Link]) -> usize
    ensures { result ≡ count_by is_spawn links.now }
{
    links.iter().filter(|link| is_spawn(link)).count()
}

// Returns whether a link hands cowns on.
fn is_hand(link: &Link) -> bool
    ensures { result ≡ is_hand link.now }
{
    match link {
        Link::Hands(_) => true,
        Link::SpawnBy(_) | Link::Frees | Link::Ends => false,
    }
}

// Returns how many of some links hand cowns on.
fn hand_count(links: &[Link]) -> usize
    ensures { result ≡ count_by is_hand links.now }
{
    links.iter().filter(|link| is_hand(link)).count()
}

// Returns whether a link hands on this cown too, if it hands on any.
fn hands_too(link: &Link, cown: HeldCown) -> bool
    ensures { result ≡ hands_too cown link.now }
{
    match link {
        Link::Hands(cowns) => cowns.as_slice().contains(&cown),
        Link::SpawnBy(_) | Link::Frees | Link::Ends => true,
    }
}

// Returns whether all of some links that hand cowns on hand on this one.
fn all_hand(links: &[Link], cown: HeldCown) -> bool
    ensures { result ≡ list_all (hands_too cown) links.now }
{
    links.iter().all(|link| hands_too(link, cown))
}

// Returns those of some cowns that all of some links hand on, if they hand on any.
fn kept_by(alloc: Global, cowns: &[HeldCown], links: &[Link]) -> Result<Vec<HeldCown>, AllocError>
    ensures { IfOk result (λ kept. kept.items ≡ filter (λ c. list_all (hands_too c) links.now) cowns.now) }
{
    let mut kept = Vec::new(alloc);
    for cown in cowns {
        if all_hand(links, *cown) {
            kept.push(*cown)?;
        }
    }
    Ok(kept)
}

// Returns the cowns that all of some links hand on, those links left out of account that hand on none.
fn common_cowns(alloc: Global, links: &[Link]) -> Result<Vec<HeldCown>, AllocError>
    ensures { IfOk result (λ cowns. cowns.items ≡ common links.now) }
{
    let mut rest = links;
    while let [first, others @ ..] = rest {
        match first {
            Link::Hands(cowns) => return kept_by(alloc, cowns.as_slice(), others),
            Link::SpawnBy(_) | Link::Frees | Link::Ends => rest = others,
        }
    }
    Ok(Vec::new(alloc))
}

// Appends cowns by their names to a text, with a blank before them, where there are some.
fn put_behind_blank(
    text: &mut Vec<u8>,
    names: &[Vec<u8>],
    cowns: &[HeldCown],
) -> Result<(), AllocError>
    ensures { OnOk result (text.new.items ≡ text.old.items ++ behind_blank (texts_of names.now) cowns.now) }
{
    if cowns.is_empty() {
        return Ok(());
    }
    text.push(b' ')?;
    put_handed(text, names, cowns)
}

// Appends to a text how many rows hand on, and what they all hand on.
fn put_hands(
    alloc: Global,
    text: &mut Vec<u8>,
    names: &Names,
    hands: usize,
    links: &[Link],
) -> Result<(), AllocError>
    ensures { OnOk result (text.new.items ≡ text.old.items ++ (decimal hands ++ codes " hand on"
        ++ behind_blank (texts_of names.now.cowns.items) (common links.now))) }
{
    put_number(text, hands as u64)?;
    text.extend_from_slice(b" hand on")?;
    let common = common_cowns(alloc, links)?;
    put_behind_blank(text, &names.cowns, &common)
}

// Appends to a text how many rows spawn the next one, with these bytes in front, where some do.
fn put_spawns(text: &mut Vec<u8>, front: &[u8], spawns: usize) -> Result<(), AllocError>
    ensures { OnOk result (text.new.items ≡ text.old.items ++ flat_map (λ told. front.now ++ told) (spawns_texts spawns)) }
{
    if spawns == 0 {
        return Ok(());
    }
    text.extend_from_slice(front)?;
    put_number(text, spawns as u64)?;
    text.extend_from_slice(b" spawn the next")?;
    Ok(())
}

// Returns what some rows do, each before the next one of them goes on.
fn inner_text(alloc: Global, names: &Names, links: &[Link]) -> Result<Vec<u8>, AllocError>
    ensures { IfOk result (λ text. text.items ≡ inner_text names.now links.now) }
{
    let mut text = Vec::new(alloc);
    let hands = hand_count(links);
    let spawns = spawn_count(links);
    if hands == 0 {
        put_spawns(&mut text, b"", spawns)?;
        return Ok(text);
    }
    put_hands(alloc, &mut text, names, hands, links)?;
    put_spawns(&mut text, b", ", spawns)?;
    Ok(text)
}

// Returns what the rows of a stretch do, whose links these are: those before the last, and the last, after which is `next`.
fn stretch_then(
    alloc: Global,
    names: &Names,
    inner: &[Link],
    last: &Link,
    next: Option<ChainStep>,
) -> Result<Vec<u8>, AllocError>
    ensures { IfOk result (λ text. text.items ≡ stretch_then names.now inner.now last.now next) }
{
    let mut text = inner_text(alloc, names, inner)?;
    text.extend_from_slice(b"; the last ")?;
    let last = then_text(alloc, names, last, next)?;
    text.extend_from_slice(&last)?;
    Ok(text)
}

// Returns the numbers of the first row of a stretch and of the last.
fn rows_text(alloc: Global, first: u32, last: u32) -> Result<Vec<u8>, AllocError>
    ensures { IfOk result (λ text. text.items ≡ rows_text first last) }
{
    let mut text = number(alloc, u64::from(first))?;
    text.extend_from_slice(b"..")?;
    put_number(&mut text, u64::from(last))?;
    Ok(text)
}

// Returns how many ticks some steps weigh.
fn ticks_of(steps: &[ChainStep]) -> u64
    requires { weight_of steps.now < 2 ^ 64 }
    ensures { result ≡ weight_of steps.now }
{
    let mut ticks = 0_u64;
    for step in steps {
        ticks += u64::from(step.weight);
    }
    ticks
}

// Returns how many rows there are, and the def of the first of them.
fn behaviours_text(
    alloc: Global,
    names: &Names,
    count: usize,
    first: ChainStep,
) -> Result<Vec<u8>, AllocError>
    ensures { IfOk result (λ text. text.items ≡ behaviours_text names.now count first.row) }
{
    let mut text = number(alloc, count as u64)?;
    text.push(b' ')?;
    let def = def_of(names, first);
    text.extend_from_slice(text_at(&names.def_names, def as usize))?;
    Ok(text)
}

// Puts the line of the first steps of a chain, this many of them.
fn put_folded(
    alloc: Global,
    table: &mut Table,
    names: &Names,
    starts: &[u64],
    steps: &[ChainStep],
    links: &[Link],
    count: usize,
) -> Result<(), AllocError>
    requires columns { length table.old.sides ≡ 6 }
    requires there { All (λ s. s.row < length starts.now) steps.now }
    requires whole { length links.now ≡ length steps.now }
    requires bounded { weight_of steps.now < 2 ^ 64 }
    requires some { 0 < count }
    requires within { count ≤ length steps.now }
    ensures { OnOk result (table.new ≡ record table.old {
      lines = table.old.lines
          ++ stretch_texts names.now starts.now (take count (legs steps.now links.now)) ∷ [];
    }) }
{
    let (first, last) = (steps[0], steps[count - 1]);
    let tick = number(alloc, starts[first.row as usize])?;
    let ticks = number(alloc, ticks_of(&steps[..count]))?;
    let rows = rows_text(alloc, first.row, last.row)?;
    let behaviours = behaviours_text(alloc, names, count, first)?;
    let next = step_at(steps, count);
    let then = stretch_then(alloc, names, &links[..count - 1], &links[count - 1], next)?;
    table.put_line(&[&[], &tick, &ticks, &rows, &behaviours, &then])?;
    Ok(())
}

// Puts the lines of the first steps of a chain, this many of them, which are of one def: one line, or, if they are few, one for each.
fn put_stretch(
    alloc: Global,
    table: &mut Table,
    names: &Names,
    starts: &[u64],
    steps: &[ChainStep],
    links: &[Link],
    count: usize,
) -> Result<(), AllocError>
    requires columns { length table.old.sides ≡ 6 }
    requires there { All (λ s. s.row < length starts.now) steps.now }
    requires whole { length links.now ≡ length steps.now }
    requires bounded { weight_of steps.now < 2 ^ 64 }
    requires some { 0 < count }
    requires within { count ≤ length steps.now }
    ensures { OnOk result (table.new ≡ record table.old {
      lines = table.old.lines
          ++ stretch_lines names.now starts.now (take count (legs steps.now links.now));
    }) }
{
    if count < LEAST_FOLDED {
        return put_steps(alloc, table, names, starts, steps, links, count);
    }
    put_folded(alloc, table, names, starts, steps, links, count)?;
    Ok(())
}

// Puts the lines of the steps of a chain, those of one def that follow each other together, and the tick at which all has ended.
fn put_stretches(
    alloc: Global,
    table: &mut Table,
    names: &Names,
    starts: &[u64],
    steps: &[ChainStep],
    links: &[Link],
    span: u64,
) -> Result<(), AllocError>
    requires columns { length table.old.sides ≡ 6 }
    requires there { All (λ s. s.row < length starts.now) steps.now }
    requires whole { length links.now ≡ length steps.now }
    requires adds_up { weight_of steps.now ≡ span }
    ensures sides { OnOk result (table.new.sides ≡ table.old.sides) }
    ensures lines { OnOk result (table.new.lines
        ≡ table.old.lines ++ folded_legs names.now starts.now (legs steps.now links.now) ++ chain_foot span ∷ []) }
{
    let mut steps_left = steps;
    let mut links_left = links;
    while !steps_left.is_empty() {
        let count = stretch_len(names, steps_left);
        put_stretch(alloc, table, names, starts, steps_left, links_left, count)?;
        steps_left = steps_left.split_at(count).1;
        links_left = links_left.split_at(count).1;
    }
    put_foot(alloc, table, span)?;
    Ok(())
}

// Returns the table of the chain, folded.
fn folded_table(alloc: Global, names: &Names, why: &Why) -> Result<Table, AllocError>
    requires there { All (λ s. s.row < length why.now.profile.starts.items) why.now.profile.chain.steps.items }
    requires whole { length why.now.links.items ≡ length why.now.profile.chain.steps.items }
    requires adds_up { weight_of why.now.profile.chain.steps.items ≡ why.now.profile.span }
    ensures sides { IfOk result (λ table. table.sides ≡ chain_sides) }
    ensures lines { IfOk result (λ table. table.lines ≡ folded_lines names.now why.now) }
{
    let profile = &why.profile;
    let steps = profile.chain.steps.as_slice();
    let links = why.links.as_slice();
    let mut table = Table::new(alloc, &CHAIN_SIDES);
    put_head(&mut table)?;
    put_stretches(
        alloc,
        &mut table,
        names,
        &profile.starts,
        steps,
        links,
        profile.span,
    )?;
    Ok(table)
}

/// Returns the chain, in which four or more steps of one def that follow each other are in one line.
pub(crate) fn folded_text(alloc: Global, names: &Names, why: &Why) -> Result<Vec<u8>, AllocError>
    requires there { All (λ s. s.row < length why.now.profile.starts.items) why.now.profile.chain.steps.items }
    requires whole { length why.now.links.items ≡ length why.now.profile.chain.steps.items }
    requires adds_up { weight_of why.now.profile.chain.steps.items ≡ why.now.profile.span }
    ensures { IfOk result (λ text. text.items ≡ folded_text names.now why.now) }
{
    let table = folded_table(alloc, names, why)?;
    let mut text = Vec::new(alloc);
    text.extend_from_slice(b"chain\n")?;
    put_table(&mut text, &table)?;
    Ok(text)
}
