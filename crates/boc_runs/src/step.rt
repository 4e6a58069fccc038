// The kinds of steps of the dispatcher.

/// One step. A request is named by its place among its behaviour's cowns, in rising order.
#[derive(Clone, Copy, PartialEq, Eq, Debug)]
pub enum Step {
    /// A new behaviour asks for its cowns.
    Open,
    /// The request goes last in its cown's list.
    Swap(usize),
    /// The request is settled; with the last one the spawn is recorded.
    Settle(usize),
    /// The request is flagged, so that the one after it may be settled.
    Flag(usize),
    /// The enqueue has ended: the behaviour is ready, or waits.
    Own,
    /// The first of the ready list starts.
    Start,
    /// A running behaviour ends.
    Finish,
    /// The request, which is alone in its cown's list, is released.
    Unhook(usize),
    /// The request is released, and the next in its cown's list comes first.
    Pass(usize),
}
