// A chain of rows, from main to the end of a plan.

/// What ties a step of a chain to the next one.
#[derive(Clone, Copy, PartialEq, Eq, Debug)]
pub enum Via {
    /// The next row is a child of this one.
    Spawn,
    /// The next row comes after this one, and shares a cown with it.
    Order,
    /// There is no next row.
    Last,
}

/// A step of a chain.
#[derive(Clone, Copy, PartialEq, Eq, Debug)]
pub struct ChainStep {
    /// The number of the row.
    pub row: u32,
    /// The link to the next step.
    pub via: Via,
    /// The ticks that the link takes: for a spawn the offset of the next row, else the row's own ticks.
    pub weight: u32,
}

/// The steps of a chain in the order of their rows, row 0 first. Nothing is promised of them but by the
/// functions that make or check them.
#[derive(Drop, PartialEq, Eq, Debug)]
pub struct Chain {
    pub steps: Vec<ChainStep>,
}
