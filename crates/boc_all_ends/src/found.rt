//! What a search of all ends has found.

/// An end of the whole runs of a program.
#[derive(Drop, Debug)]
pub struct End {
    /// The values of the cowns, in the order of their numbers.
    pub values: Vec<i64>,
    /// The smallest number of rows of a whole run that ends so.
    pub least: u32,
    /// The greatest number of rows of a whole run that ends so.
    pub most: u32,
}

/// The ends of the whole runs of a program.
#[derive(Drop, Debug)]
pub struct Found {
    /// The ends of whole runs, in the order of their values: the first cown whose values differ decides.
    pub all: Vec<End>,
    /// Whole runs of fewer rows than this have no other ends.
    pub below: u32,
    /// Whether the search has gone through all fronts: there are no other ends.
    pub whole: bool,
    /// Whether some run needs more than 65,535 rows. It is known only if the search is whole.
    pub endless: bool,
    /// How many fronts were looked at.
    pub fronts: u32,
}
