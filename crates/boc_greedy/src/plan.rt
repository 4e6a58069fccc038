// What a greedy plan answers.

/// The greedy plan of some rows for p workers. Starts, ends and the bound are ticks.
#[derive(Drop, Debug)]
pub struct Greedy {
    /// How many workers there are.
    pub p: u32,
    /// The tick at which each row starts.
    pub starts: Vec<u64>,
    /// The tick at which each row ends.
    pub ends: Vec<u64>,
    /// The worker that each row is on, from 0.
    pub workers: Vec<u32>,
    /// The end of the plan.
    pub ends_at: u64,
    /// The work divided by p, rounded down, and the span: the plan has ended by then.
    pub bound: u64,
    /// At how many different ticks something can change: 0, the ends of the rows, and the spawns of children.
    pub moments: u64,
}
