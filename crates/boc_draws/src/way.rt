//! The ways in which workers are picked.

use boc_program::count::Depth;

/// How the worker that moves next is picked.
#[derive(Clone, Copy, PartialEq, Eq, Debug)]
pub enum Way {
    /// At random among all that can move: a word of 64 bits is drawn for each turn, and says which by what is left of it when it
    /// is divided by how many there are. Of at most 16 none is more likely than another by more than one part in 2^59.
    Uniform,
    /// By random priorities: the workers are in an order that is drawn at the beginning, and at each turn the first that can
    /// move does. Before `depth - 1` of the first steps, of that number, which are drawn too, the one that would move falls to the last.
    Priorities { depth: Depth, steps: u64 },
}
