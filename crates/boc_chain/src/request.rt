//! Requests, and what the calls of request chains answer.

/// The slot of one behaviour's requests.
#[derive(Clone, Copy, Debug, PartialEq, Eq)]
pub struct Slot {
    pub index: usize,
}

/// A request in the list of a cown: whose it is, whether it is settled, and whether its behaviour is scheduled.
#[derive(Clone, Copy, Debug, PartialEq, Eq)]
pub struct Request {
    pub slot: usize,
    pub settled: bool,
    pub flagged: bool,
}

/// What `settle` answers.
#[derive(Clone, Copy, Debug, PartialEq, Eq)]
pub enum Settled {
    /// No request is before it: it is granted.
    Lone,
    /// It is linked to the one before it, which is flagged.
    Linked,
    /// The one before it isn't flagged yet, and nothing changed.
    Blocked,
}

/// What `leave` answers.
#[derive(Clone, Copy, Debug, PartialEq, Eq)]
pub enum Released {
    /// It was alone in the list, which is empty now.
    Unhooked,
    /// The next one, of this slot, is settled, and first now.
    Passed(Slot),
    /// The next one isn't settled yet, and nothing changed.
    Blocked,
}
