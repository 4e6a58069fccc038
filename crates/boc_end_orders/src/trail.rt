// Orders of spawns, each kept as one spawn after another order.

ghost use Rattle.std.specs.Prelude.{◌≡◌, ◌<◌, ◌≤◌, ◌++◌, [], ◌∷◌, IfOk, OnOk, Some, length, slice_get};
ghost use Rattle.boc_end_orders.specs.Orders.{order_at};
ghost use Rattle.boc_end_orders.specs.TrailView.{orders_after, AreDown};

use std::alloc::{AllocError, Global};
use std::marker::Model;

// The parent of the row that comes last, and the number of the order of the others.
#[derive(Clone, Copy, Debug)]
pub(crate) struct Link {
    before: u32,
    parent: u16,
}

/// Orders of spawns, each under a number of its own. Contracts see them in the order of their numbers; the first is that of main alone.
#[derive(Drop)]
pub struct Trail {
    links: Vec<Link>,
}

impl Model for Trail {
    ghost use Rattle.std.specs.Prelude.{ℕ, List};

    ghost Value = { List (List ℕ) };

    ghost use Rattle.boc_end_orders.specs.TrailView.{orders_of, LeadDown};

    ghost view = { orders_of };

    ghost invariant = { LeadDown };
}

impl Trail {
    /// Returns the order of main alone.
    pub fn new(alloc: Global) -> Trail
        ensures { result ≡ (0 ∷ []) ∷ [] }
    {
        Trail {
            links: Vec::new(alloc),
        }
    }

    /// Adds the order with one spawn more, by this parent, and returns its number.
    pub fn push(&mut self, before: u32, parent: u16) -> Result<u32, AllocError>
        requires { before < length self.old }
        ensures orders { OnOk result (self.new ≡ self.old ++ (order_at self.old before ++ parent ∷ []) ∷ []) }
        ensures number { IfOk result (λ number. number ≡ length self.old) }
    {
        let many = self.links.len();
        if many >= u32::MAX as usize {
            return Err(AllocError);
        }
        self.links.push(Link { before, parent })?;
        Ok(many as u32 + 1)
    }

    /// Returns an order: the number of the parent of each row.
    pub fn order(&self, alloc: Global, number: u32) -> Result<Vec<u32>, AllocError>
        requires { number < length self.now }
        ensures { IfOk result (λ parents. parents.items ≡ order_at self.now number) }
    {
        let parents = followed(alloc, &self.links, number as usize)?;
        Ok(parents)
    }
}

// Returns the link at a place.
fn link_at(links: &[Link], place: usize) -> Link
    requires { place < length links.now }
    ensures { slice_get links.now place ≡ Some result }
{
    links[place]
}

// Returns the order of this number among those of links: the links are followed back to the order of main alone.
fn followed(alloc: Global, links: &[Link], number: usize) -> Result<Vec<u32>, AllocError>
    requires down { AreDown links.now }
    requires there { number ≤ length links.now }
    ensures { IfOk result (λ parents. parents.items ≡ order_at (orders_after links.now) number) }
{
    let mut parents = Vec::new(alloc);
    let mut left = number;
    while left > 0 {
        let link = link_at(links, left - 1);
        parents.push(link.parent as u32)?;
        left = link.before as usize;
    }
    parents.push(0)?;
    parents.reverse();
    Ok(parents)
}
