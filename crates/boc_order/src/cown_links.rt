// For whose sake rows wait for others: each link with its cown, so that a cown can be left out.

ghost use Rattle.std.specs.Prelude.{◌≡◌, ◌<◌, ◌≤◌, ◌+◌, ◌++◌, length, map, IfOk, OnOk};
ghost use Rattle.boc_program.specs.declared.limits.TheConstants.{MOST_ROWS};
ghost use Rattle.boc_runs.specs.Rows.{IsRows};
ghost use Rattle.boc_runs.specs.Changes.{without};
ghost use Rattle.boc_order.specs.Uses.{AreUses};
ghost use Rattle.boc_order.specs.Waits.{HaveFollowers};
ghost use Rattle.boc_order.specs.CownLinks.{AreLinked, AreCownLinks, AddsOthers, link_to, IsAt};

use crate::gathering::{Use, add_waits, note_use, unused};
use crate::links::{Links, end_of};
use boc_plans::sharing::SeenRows;
use boc_program::short::HeldCown;
use std::alloc::{AllocError, Global};

/// That a row waits for one before it, for the sake of a cown.
#[derive(Clone, Copy)]
pub struct CownLink {
    /// The row that is waited for.
    pub before: u32,
    /// The row that waits.
    pub row: u32,
    /// The cown that both have.
    pub cown: HeldCown,
}

/// All links of some rows, by the row that is waited for.
#[derive(Drop)]
pub struct CownLinks {
    pub list: Vec<CownLink>,
}

// Adds that a row waits for each of these rows for the sake of a cown.
fn put_links(
    row: usize,
    cown: HeldCown,
    waits: &[u32],
    links: &mut Vec<CownLink>,
) -> Result<(), AllocError>
    requires { row < MOST_ROWS }
    ensures { OnOk result (links.new.items ≡ links.old.items ++ map (link_to row cown) waits.now) }
{
    for before in waits {
        links.push(CownLink {
            before: *before,
            row: row as u32,
            cown,
        })?;
    }
    Ok(())
}

// Adds the links by which a row waits, and notes what it uses. `waits` is room.
fn link_row(
    rows: &SeenRows,
    row: usize,
    uses: &mut [Use],
    waits: &mut Vec<u32>,
    links: &mut Vec<CownLink>,
) -> Result<(), AllocError>
    requires shape { IsRows rows.now }
    requires there { row < length rows.now }
    requires uses { AreUses rows.now row uses.old }
    requires linked { AreLinked rows.now row links.old.items }
    ensures uses { IfOk result (λ _. AreUses rows.now (row + 1) uses.new) }
    ensures linked { IfOk result (λ _. AreLinked rows.now (row + 1) links.new.items) }
{
    for cown in rows.cowns(row) {
        waits.clear();
        let used = &mut uses[*cown as usize];
        add_waits(rows, row, *cown, used, waits)?;
        note_use(rows, row, *cown, used)?;
        put_links(row, *cown, waits, links)?;
    }
    Ok(())
}

/// Returns all links of the rows, each with its cown. `AllocError` says that memory was refused.
///
/// There are at most twice as many as the rows have cowns.
pub fn links_by_cown(alloc: Global, rows: &SeenRows) -> Result<CownLinks, AllocError>
    ensures { IfOk result (λ links. AreCownLinks rows.now links.list.items) }
{
    let mut uses = unused(alloc)?;
    let mut waits = Vec::new(alloc);
    let mut list = Vec::new(alloc);
    for row in 0..rows.len() {
        link_row(rows, row, &mut uses, &mut waits, &mut list)?;
    }
    list.sort_unstable_by_key(|link| link.before);
    Ok(CownLinks { list })
}

// Adds the rows that wait for a row for the sake of other cowns than this one. The links to that row begin at a place; answers where they end.
fn add_others(
    links: &[CownLink],
    row: usize,
    cown: HeldCown,
    from: usize,
    list: &mut Vec<u32>,
) -> Result<usize, AllocError>
    requires { IsAt links.now row from }
    ensures next { IfOk result (IsAt links.now (row + 1)) }
    ensures adds { IfOk result (λ _. AddsOthers links.now row cown list.old.items list.new.items) }
{
    let mut place = from;
    while place < links.len() && links[place].before as usize == row {
        let link = links[place];
        if link.cown != cown {
            list.push(link.row)?;
        }
        place += 1;
    }
    Ok(place)
}

/// Returns for each row those that wait for it, where no row has this cown. `AllocError` says that memory was refused.
///
/// It takes one pass over the links, and copies no row.
pub fn followers_without(
    alloc: Global,
    rows: &SeenRows,
    links: &CownLinks,
    cown: HeldCown,
) -> Result<Links, AllocError>
    requires shape { IsRows rows.now }
    requires links { AreCownLinks rows.now links.now.list.items }
    ensures { IfOk result (λ followers. HaveFollowers (without cown rows.now) followers) }
{
    let mut first = Vec::with_capacity(alloc, rows.len() + 1)?;
    first.push_reserved(0);
    let mut list = Vec::with_capacity(alloc, links.list.len())?;
    let mut place = 0;
    for row in 0..rows.len() {
        place = add_others(&links.list, row, cown, place, &mut list)?;
        first.push_reserved(end_of(&list)?);
    }
    Ok(Links::new(first, list))
}
