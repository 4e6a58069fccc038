// How much each cown of a window holds its rows up.

use crate::lists::{at, mark, put_zeros, set};
use crate::made::Made;
use crate::table::Table;
use crate::twins::StandIn;
use crate::users::{Users, range_of};
use std::alloc::{AllocError, Global};

/// Why a row of the plan starts when it does.
#[derive(Clone, Copy, Debug)]
pub enum Why {
    Spawned,
    /// It waited for a cown that this row held.
    Waited { id: usize, before: usize },
}

/// The earliest plan of a window's rows, with all their cowns.
#[derive(Drop)]
pub struct Plan {
    pub starts: Vec<u64>,
    pub whys: Vec<Why>,
    /// The row that ends last; of several the first.
    pub last: usize,
    pub span: u64,
}

impl Plan {
    // Starts a row as early as it can.
    fn put(
        &mut self,
        made: &Made,
        range: (usize, usize),
        users: &Users,
        free: &mut [(u64, usize)],
    ) -> Result<(), AllocError> {
        let number = self.starts.len();
        let mut start = 0;
        if number > 0 {
            start = at(&self.starts, made.parent).saturating_add(made.offset);
        }
        let mut why = Why::Spawned;
        for place in range.0..range.1 {
            if let Some(id) = users.id_of(place) {
                if let Some(held) = free.get(id) {
                    if held.0 > start {
                        start = held.0;
                        why = Why::Waited { id, before: held.1 };
                    }
                }
            }
        }
        let end = start.saturating_add(made.ticks);
        for place in range.0..range.1 {
            if let Some(id) = users.id_of(place) {
                if let Some(held) = free.get_mut(id) {
                    *held = (end, number);
                }
            }
        }
        if end > self.span {
            self.span = end;
            self.last = number;
        }
        self.starts.push(start)?;
        self.whys.push(why)?;
        Ok(())
    }

    /// Returns the earliest plan of the rows.
    pub fn of(
        alloc: Global,
        table: &Table,
        rows: &[Made],
        users: &Users,
    ) -> Result<Plan, AllocError> {
        let mut free = Vec::with_capacity(alloc, users.cowns.len())?;
        for _ in 0..users.cowns.len() {
            free.push((0, 0))?;
        }
        let mut plan = Plan {
            starts: Vec::with_capacity(alloc, rows.len())?,
            whys: Vec::with_capacity(alloc, rows.len())?,
            last: 0,
            span: 0,
        };
        for made in rows.iter() {
            plan.put(made, range_of(table, made), users, &mut free)?;
        }
        Ok(plan)
    }

    // Returns why a row starts when it does.
    fn why(&self, number: usize) -> Why {
        match self.whys.get(number) {
            Some(why) => *why,
            None => Why::Spawned,
        }
    }
}

/// What counts for a cown, and for a use of one.
#[derive(Drop)]
pub struct Weights {
    /// For each cown how often it hands on along the chain.
    pub chain: Vec<u64>,
    /// For each cown the ticks that rows waited for it.
    pub waited: Vec<u64>,
    /// The uses by which the chain goes.
    pub links: Vec<bool>,
    /// The uses by which a row waited, or was waited for.
    pub tight: Vec<bool>,
}

// Marks the use of a cown by a row.
fn mark_use(marks: &mut [bool], users: &Users, range: (usize, usize), id: usize) {
    for place in range.0..range.1 {
        if users.id_of(place) == Some(id) {
            mark(marks, place);
        }
    }
}

// Returns the cown that stands for another.
fn stands_for(stand_ins: &[StandIn], id: usize) -> usize {
    match stand_ins.get(id) {
        Some(StandIn::Cown(other)) => *other,
        _ => id,
    }
}

// Returns the uses of a row of a record.
fn range_at(table: &Table, rows: &[Made], number: usize) -> (usize, usize) {
    match rows.get(number) {
        Some(made) => range_of(table, made),
        None => (0, 0),
    }
}

impl Weights {
    // Counts what a row waited for.
    fn put_wait(
        &mut self,
        table: &Table,
        rows: &[Made],
        users: &Users,
        plan: &Plan,
        stand_ins: &[StandIn],
        number: usize,
    ) {
        if let (Why::Waited { id, before }, Some(made)) = (plan.why(number), rows.get(number)) {
            let id = stands_for(stand_ins, id);
            let release = at(&plan.starts, made.parent).saturating_add(made.offset);
            let wait = at(&plan.starts, number).saturating_sub(release);
            let sum = at(&self.waited, id).saturating_add(wait);
            set(&mut self.waited, id, sum);
            mark_use(&mut self.tight, users, range_of(table, made), id);
            mark_use(&mut self.tight, users, range_at(table, rows, before), id);
        }
    }

    // Counts what the chain goes by, from its end on.
    fn put_chain(
        &mut self,
        table: &Table,
        rows: &[Made],
        users: &Users,
        plan: &Plan,
        stand_ins: &[StandIn],
    ) {
        let mut number = plan.last;
        for _ in 0..rows.len() {
            if number == 0 {
                return;
            }
            match plan.why(number) {
                Why::Waited { id, before } => {
                    let id = stands_for(stand_ins, id);
                    let sum = at(&self.chain, id).saturating_add(1);
                    set(&mut self.chain, id, sum);
                    mark_use(&mut self.links, users, range_at(table, rows, number), id);
                    mark_use(&mut self.links, users, range_at(table, rows, before), id);
                    number = before;
                }
                Why::Spawned => match rows.get(number) {
                    Some(made) => number = made.parent,
                    None => return,
                },
            }
        }
    }

    /// Returns the weights of the cowns by a plan.
    pub fn of(
        alloc: Global,
        table: &Table,
        rows: &[Made],
        users: &Users,
        plan: &Plan,
        stand_ins: &[StandIn],
    ) -> Result<Weights, AllocError> {
        let mut weights = Weights {
            chain: Vec::with_capacity(alloc, users.cowns.len())?,
            waited: Vec::with_capacity(alloc, users.cowns.len())?,
            links: Vec::with_capacity(alloc, users.ids.len())?,
            tight: Vec::with_capacity(alloc, users.ids.len())?,
        };
        put_zeros(&mut weights.chain, users.cowns.len())?;
        put_zeros(&mut weights.waited, users.cowns.len())?;
        for _ in 0..users.ids.len() {
            weights.links.push(false)?;
            weights.tight.push(false)?;
        }
        for number in 0..rows.len() {
            weights.put_wait(table, rows, users, plan, stand_ins, number);
        }
        weights.put_chain(table, rows, users, plan, stand_ins);
        Ok(weights)
    }

    /// Returns what a cown weighs: the greater, the rather it is kept.
    pub fn of_cown(&self, users: &Users, id: usize) -> Weight {
        Weight {
            is_linked: at(&self.chain, id) > 0,
            waited: at(&self.waited, id),
            rows: users.rows_of(id).len(),
            before: usize::MAX - id,
        }
    }
}

/// What a cown weighs: whether the chain goes by it, the ticks that rows waited for it, how many rows use it, and how few
/// cowns are before it.
#[derive(Clone, Copy, PartialEq, Eq, PartialOrd, Ord, Debug)]
pub struct Weight {
    pub is_linked: bool,
    pub waited: u64,
    pub rows: usize,
    pub before: usize,
}
