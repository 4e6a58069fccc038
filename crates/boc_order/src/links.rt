// For each row some others, in one flat list.

ghost use Rattle.std.specs.Prelude.{◌≡◌, length, IfOk};

use std::alloc::AllocError;
use std::marker::Model;

/// For each row the numbers of others, by the row's number.
#[derive(Drop)]
pub struct Links {
    // Where each row's links begin in the list, and where those of the last row end.
    first: Vec<u32>,
    list: Vec<u32>,
}

impl Model for Links {
    ghost use Rattle.std.specs.Prelude.{ℕ, List, length};

    ghost Value = { List (List ℕ) };

    ghost use Rattle.boc_order.specs.Waits.{lists_between, AreBounds};

    ghost view = { λ l. lists_between l.first.items l.list.items };

    ghost invariant = { λ l. AreBounds l.first.items (length l.list.items) };
}

// Returns the place at which a list of links ends, as places are kept. A list that is too long for them is memory that is
// refused.
pub(crate) fn end_of(list: &[u32]) -> Result<u32, AllocError>
    ensures { IfOk result (λ end. end ≡ length list.now) }
{
    u32::try_from(list.len()).map_err(|_| AllocError)
}

impl Links {
    ghost use Rattle.std.specs.Prelude.{◌≡◌, ◌<◌, length};
    ghost use Rattle.std.specs.List.{concat};
    ghost use Rattle.boc_order.specs.Waits.{lists_between, links_of, AreBounds};

    /// Returns the lists between these places of a flat list.
    pub(crate) fn new(first: Vec<u32>, list: Vec<u32>) -> Links
        requires { AreBounds first.items (length list.items) }
        ensures { result ≡ lists_between first.items list.items }
    {
        Links { first, list }
    }

    /// Returns all links, those of one row after those of another.
    pub(crate) fn all(&self) -> &[u32]
        ensures { result.now ≡ concat self.now }
    {
        &self.list[self.first[0] as usize..]
    }

    /// Returns how many rows there are.
    pub fn len(&self) -> usize
        ensures { result ≡ length self.now }
    {
        self.first.as_slice().len() - 1
    }

    /// Returns how many links a row has.
    pub fn count(&self, row: usize) -> u32
        requires { row < length self.now }
        ensures { result ≡ length (links_of self.now row) }
    {
        self.first[row + 1] - self.first[row]
    }

    /// Returns the links of a row.
    pub fn of(&self, row: usize) -> &[u32]
        requires { row < length self.now }
        ensures { result.now ≡ links_of self.now row }
    {
        &self.list[self.first[row] as usize..self.first[row + 1] as usize]
    }
}
