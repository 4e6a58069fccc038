// How far a behaviour is, from its opening to its last release.

/// How far a behaviour is whose spawn is recorded. A request is named by its place among the behaviour's cowns, in rising
/// order.
#[derive(Clone, Copy, PartialEq, Eq, Debug)]
pub enum Phase {
    /// The requests below this place are flagged, and the one there is next.
    Flagging(usize),
    /// All requests are flagged.
    Owning,
    /// A request isn't granted yet.
    Waiting,
    /// All requests are granted: it is in the ready list.
    Ready,
    /// Its body is under way.
    Running,
    /// It has ended. The requests below this place are released, and the one there is next.
    Leaving(usize),
}

/// How far a behaviour is.
#[derive(Clone, Copy, PartialEq, Eq, Debug)]
pub enum Stage {
    /// The requests below this place are settled; the one there is next, and exchanged or not.
    Asking { request: usize, exchanged: bool },
    /// Its spawn is recorded under this row.
    Recorded { row: u32, phase: Phase },
}
