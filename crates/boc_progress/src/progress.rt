// The trait of what shows how far a computation is.

/// Receives how far a computation is.
pub trait Progress {
    /// Receives that `done` of `of` rows, cowns, runs or steps are done.
    ///
    /// From call to call `done` does not fall. `of` may grow, as behaviours are spawned, and is 0 while it is not known. The last call of a computation that
    /// succeeds has `done` equal to `of`.
    fn done(&mut self, done: usize, of: usize);
}

/// Receives how far a computation is, and ignores it.
#[derive(Clone, Copy, PartialEq, Eq, Debug)]
pub struct Silent;

impl Progress for Silent {
    fn done(&mut self, _done: usize, _of: usize) {}
}
