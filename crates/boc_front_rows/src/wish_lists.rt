// Lists of the behaviours that rows wish for, each kept once.

ghost use Rattle.std.specs.Prelude.{◌≡◌, ◌<◌, [], ◌∷◌, IfOk, IfSome, OnErr, MatchOption, length};
ghost use Rattle.boc_front_rows.specs.Lists.{Adds, list_at, wished};
ghost use Rattle.boc_front_rows.specs.Orders.{is_nil};

use boc_program::short::{Args, Cowns};
use indexmap::IndexSet;
use std::alloc::{AllocError, Global};
use std::marker::Model;

/// A behaviour that a row wishes for.
#[derive(PartialEq, Eq, Hash, Drop, Debug)]
pub struct Wished {
    /// The index of its body among the program's bodies.
    pub kind: usize,
    /// The values of its value parameters.
    pub args: Args,
    /// The cowns of its cown parameters, in their order.
    pub cowns: Cowns,
}

// The first behaviour of a list, and the number of the list of the others.
#[derive(PartialEq, Eq, Hash, Drop, Debug)]
pub(crate) struct Link {
    first: Wished,
    rest: usize,
}

/// Lists of behaviours, each under a number of its own. The empty list has the number 0. Contracts see the lists in the order of their numbers.
#[derive(Drop)]
pub struct WishLists {
    links: IndexSet<Link>,
}

impl Model for WishLists {
    ghost use Rattle.std.specs.Prelude.{List};
    ghost use Rattle.boc_runs.specs.Serial.{Behaviour};

    ghost Value = { List (List Behaviour) };

    ghost use Rattle.boc_front_rows.specs.ListsView.{lists_of, LeadDown};

    ghost view = { lists_of };

    ghost invariant = { LeadDown };
}

impl WishLists {
    /// Returns the empty list alone.
    pub fn new(alloc: Global) -> WishLists
        ensures { result ≡ [] ∷ [] }
    {
        WishLists {
            links: IndexSet::new(alloc),
        }
    }

    /// Returns the number of the empty list.
    pub fn empty(&self) -> usize
        ensures there { result < length self.now }
        ensures list { list_at self.now result ≡ [] }
    {
        let _links = &self.links;
        0
    }

    /// Returns whether a list is empty.
    pub fn is_empty(&self, list: usize) -> bool
        requires { list < length self.now }
        ensures { result ≡ is_nil (list_at self.now list) }
    {
        let _links = &self.links;
        list == 0
    }

    /// Returns the first behaviour of a list and the number of the list of the others, unless it is empty.
    pub fn split(&self, list: usize) -> Option<(&Wished, usize)>
        requires { list < length self.now }
        ensures first { MatchOption result (list_at self.now list ≡ []) (λ s. list_at self.now list ≡ wished s.0.now ∷ list_at self.now s.1) }
        ensures rest { IfSome result (λ s. s.1 < length self.now) }
    {
        let links = &self.links;
        let Some(place) = list.checked_sub(1) else {
            return None;
        };
        let Some(link) = links.get_index(place) else {
            unreachable!()
        };
        Some((&link.first, link.rest))
    }

    /// Returns the number of the list of a behaviour and those of another list, which is added if it isn't there yet.
    pub fn push(&mut self, first: Wished, rest: usize) -> Result<usize, AllocError>
        requires { rest < length self.old }
        ensures adds { IfOk result (λ list. Adds (wished first ∷ list_at self.old rest) self.old self.new) }
        ensures number { IfOk result (λ list. list < length self.new) }
        ensures list { IfOk result (λ list. list_at self.new list ≡ wished first ∷ list_at self.old rest) }
        ensures err { OnErr result (self.new ≡ self.old) }
    {
        let (place, _) = self.links.insert_full(Link { first, rest })?;
        // For the proof alone, and free: that there are fewer links than would fill memory.
        let _count = self.links.len();
        Ok(place + 1)
    }
}
