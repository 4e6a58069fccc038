// How far a row is.

/// How far a row is.
#[derive(Clone, Copy)]
pub(crate) enum Place {
    /// Its parent hasn't started.
    Unspawned,
    /// It is looked at when it is spawned.
    New,
    /// It is looked at next, and waits for no cown. It is first of its kind.
    First,
    /// It is looked at when the cown is free: it is first of those that wait for it.
    FirstFor(u32),
    /// It is in line after one of its kind.
    BehindKin,
    /// It is in line after one that waits for the same.
    BehindFor(u32),
    /// It has started.
    Started,
}
