// Which cowns of a window are kept.

use crate::lists::{is_set, mark};
use crate::made::Made;
use crate::table::{CownUse, Table};
use crate::twins::StandIn;
use crate::users::{Users, range_of, uses_of};
use crate::weights::{Weight, Weights};
use boc_program::limits::{MOST_COWNS, MOST_HELD};
use boc_program::short::Cowns;
use std::alloc::{AllocError, Global};

/// The cowns of a row of the record, and those that it wrote.
#[derive(Drop)]
pub struct RowCowns {
    pub cowns: Cowns,
    pub written: Cowns,
}

/// The cowns that are kept, and what was left out.
#[derive(Drop)]
pub struct Choice {
    /// For each cown of the record its number in the stream. They rise.
    pub cowns: Vec<u64>,
    /// For each row of the record its cowns.
    pub rows: Vec<RowCowns>,
    /// How many cowns were left out that order rows which no other orders.
    pub left_out: usize,
    /// How many rows have more cowns than a record's row can have.
    pub wide: usize,
    /// How many cowns these rows have too many.
    pub lost: usize,
}

// Returns how many cowns a record has that can keep the numbers of the stream: those that the first line says, or as many as are used.
fn own_count(table: &Table, rows: &[Made], users: &Users) -> Option<usize> {
    let most = match users.cowns.last() {
        Some(last) => last.cown.saturating_add(1),
        None => 0,
    };
    let count = match table.cowns {
        Some(count) => count.max(most),
        None => most,
    };
    if table.carried > 0 || count > MOST_COWNS as u64 {
        return None;
    }
    for made in rows.iter() {
        if uses_of(table, made).len() > MOST_HELD {
            return None;
        }
    }
    Some(count as usize)
}

// Returns the number of a cown as a row has it.
fn short(number: usize) -> u32 {
    match u32::try_from(number) {
        Ok(short) => short,
        Err(_) => u32::MAX,
    }
}

// Returns the cowns that stand for themselves.
fn candidates(alloc: Global, stand_ins: &[StandIn]) -> Result<Vec<usize>, AllocError> {
    let mut found = Vec::new(alloc);
    for (id, stand_in) in stand_ins.iter().enumerate() {
        if *stand_in == StandIn::Cown(id) {
            found.push(id)?;
        }
    }
    Ok(found)
}

// Returns the ids of the cowns that weigh most, as many as a record can have.
fn heaviest(
    alloc: Global,
    found: &[usize],
    users: &Users,
    weights: &Weights,
) -> Result<Vec<usize>, AllocError> {
    let mut ranked: Vec<(Weight, usize)> = Vec::with_capacity(alloc, found.len())?;
    for id in found {
        ranked.push((weights.of_cown(users, *id), *id))?;
    }
    ranked.sort_unstable();
    let mut kept = Vec::new(alloc);
    for pair in ranked.iter().rev().take(MOST_COWNS) {
        kept.push(pair.1)?;
    }
    kept.sort_unstable();
    Ok(kept)
}

impl Choice {
    // Returns a choice of no cowns yet.
    fn new(alloc: Global) -> Choice {
        Choice {
            cowns: Vec::new(alloc),
            rows: Vec::new(alloc),
            left_out: 0,
            wide: 0,
            lost: 0,
        }
    }

    // Keeps as many cowns as a record can have, by their weights where there are more.
    fn choose(
        &mut self,
        alloc: Global,
        users: &Users,
        stand_ins: &[StandIn],
        weights: &Weights,
    ) -> Result<(), AllocError> {
        let mut found = candidates(alloc, stand_ins)?;
        if found.len() > MOST_COWNS {
            self.left_out = found.len() - MOST_COWNS;
            found = heaviest(alloc, &found, users, weights)?;
        }
        for id in found.iter() {
            if let Some(used) = users.cowns.get(*id) {
                self.cowns.push(used.cown)?;
            }
        }
        Ok(())
    }

    // Returns the number of a cown in the record.
    fn number_of(&self, cown: u64) -> Option<usize> {
        match self.cowns.binary_search(&cown) {
            Ok(number) => Some(number),
            Err(_) => None,
        }
    }

    // Marks the uses of a row that are left out since it has more cowns than a record's row can have.
    fn leave_out(
        &mut self,
        alloc: Global,
        uses: &[CownUse],
        from: usize,
        users: &Users,
        weights: &Weights,
        out: &mut [bool],
    ) -> Result<(), AllocError> {
        let mut ranked: Vec<(bool, bool, Weight, usize)> = Vec::new(alloc);
        for (step, used) in uses.iter().enumerate() {
            let place = from.saturating_add(step);
            if let (Some(_), Some(id)) = (self.number_of(used.cown), users.id_of(place)) {
                ranked.push((
                    is_set(&weights.links, place),
                    is_set(&weights.tight, place),
                    weights.of_cown(users, id),
                    place,
                ))?;
            }
        }
        if ranked.len() > MOST_HELD {
            self.wide = self.wide.saturating_add(1);
            self.lost = self.lost.saturating_add(ranked.len() - MOST_HELD);
            ranked.sort_unstable();
            for some in ranked.iter().rev().skip(MOST_HELD) {
                mark(out, some.3);
            }
        }
        Ok(())
    }

    // Appends the cowns of the next row.
    fn put_row(
        &mut self,
        uses: &[CownUse],
        from: usize,
        out: &[bool],
        is_written: &[bool],
    ) -> Result<(), AllocError> {
        let mut cowns = Cowns::new();
        let mut written = Cowns::new();
        for (step, used) in uses.iter().enumerate() {
            let place = from.saturating_add(step);
            if let Some(number) = self.number_of(used.cown) {
                if !is_set(out, place) && !cowns.is_full() {
                    cowns.push(short(number));
                    if is_set(is_written, place) && !written.is_full() {
                        written.push(short(number));
                    }
                }
            }
        }
        self.rows.push(RowCowns { cowns, written })?;
        Ok(())
    }

    /// Returns which cowns are kept of a window.
    pub fn of(
        alloc: Global,
        table: &Table,
        rows: &[Made],
        users: &Users,
        stand_ins: &[StandIn],
        weights: &Weights,
    ) -> Result<Choice, AllocError> {
        let mut choice = Choice::new(alloc);
        let mut out = no_marks(alloc, table.uses.len())?;
        let mut is_written = no_marks(alloc, table.uses.len())?;
        let own = own_count(table, rows, users);
        match own {
            Some(count) => {
                for cown in 0..count {
                    choice.cowns.push(cown as u64)?;
                }
            }
            None => choice.choose(alloc, users, stand_ins, weights)?,
        }
        for made in rows.iter() {
            let uses = uses_of(table, made);
            let (from, _) = range_of(table, made);
            mark_written(&mut is_written, uses, from);
            if own.is_none() {
                mark_for_twins(&mut is_written, uses, from, users, stand_ins);
            }
            choice.leave_out(alloc, uses, from, users, weights, &mut out)?;
            choice.put_row(uses, from, &out, &is_written)?;
        }
        Ok(choice)
    }
}

// Returns marks that are not set.
fn no_marks(alloc: Global, count: usize) -> Result<Vec<bool>, AllocError> {
    let mut marks = Vec::with_capacity(alloc, count)?;
    for _ in 0..count {
        marks.push(false)?;
    }
    Ok(marks)
}

// Marks the uses of a row whose cowns were written.
fn mark_written(is_written: &mut [bool], uses: &[CownUse], from: usize) {
    for (step, used) in uses.iter().enumerate() {
        if used.is_written {
            mark(is_written, from.saturating_add(step));
        }
    }
}

// Marks the uses of a row whose cowns stand for others that were written.
fn mark_for_twins(
    is_written: &mut [bool],
    uses: &[CownUse],
    from: usize,
    users: &Users,
    stand_ins: &[StandIn],
) {
    for (step, used) in uses.iter().enumerate() {
        if let (true, Some(id)) = (used.is_written, users.id_of(from.saturating_add(step))) {
            if let Some(StandIn::Cown(other)) = stand_ins.get(id) {
                if let (true, Some(step)) = (*other != id, step_of(uses, users, *other)) {
                    mark(is_written, from.saturating_add(step));
                }
            }
        }
    }
}

// Returns which of these uses is that of a cown, if one is.
fn step_of(uses: &[CownUse], users: &Users, id: usize) -> Option<usize> {
    let cown = users.cowns.get(id)?.cown;
    match uses.binary_search_by_key(&cown, |used| used.cown) {
        Ok(step) => Some(step),
        Err(_) => None,
    }
}
