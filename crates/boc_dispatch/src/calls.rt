//! What the dispatcher hands out and answers.

ghost use Rattle.std.specs.Prelude.{◌≡◌, length};

use boc_program::limits::MOST_ROWS;
use boc_program::short::{Args, Inputs};
use boc_registers::compiled::CompiledBody;
use boc_runs::step::Step;
use thiserror::Error;

/// A behaviour that was started, for its body to be run.
#[derive(Drop)]
pub struct Job<'a> {
    /// The number of its row.
    pub row: u32,
    pub body: CompiledBody<'a>,
    pub args: Args,
    pub inputs: Inputs,
    pub ghost own_args: { length args.items ≡ body.params },
    pub ghost own_inputs: { length inputs.items ≡ body.cown_params },
}

/// The rows of which a run reports what they are, as they end.
#[derive(Clone, Copy, PartialEq, Eq, Debug)]
pub enum Tell {
    /// Of none.
    Nothing,
    /// Of those that end by a fault.
    Faulted,
    /// Of all.
    All,
}

/// What `start` answers.
#[derive(Drop)]
pub enum Started<'a> {
    /// The first of the ready list was started.
    Job(Job<'a>),
    /// Nothing is ready, and some behaviour isn't gone yet.
    NoneReady,
    /// Every behaviour has ended and released its cowns.
    Quiet,
}

/// An enqueue that is open. It is spent with the answer `Enqueued`.
#[derive(Clone, Copy, PartialEq, Eq, Debug)]
pub struct Child {
    pub(crate) number: u32,
    pub(crate) row: u32,
}

/// A behaviour that releases its cowns. It is spent with the answer `Gone`.
#[derive(Clone, Copy, PartialEq, Eq, Debug)]
pub struct Leaving {
    pub(crate) row: u32,
}

// The text of a fault names this number.
const _: () = prove!(MOST_ROWS == 65_535);

/// Why `open` refuses. Nothing has changed.
#[derive(Clone, Copy, PartialEq, Eq, Debug, Error)]
pub enum OpenFault {
    /// No behaviour of that number runs, or it was handed out with another body, arguments or inputs.
    #[error("no such behaviour runs")]
    Stranger,
    /// An enqueue of that row is open, or the frame's last wish isn't the next one to spawn, or it has none.
    #[error("this wish isn't the next to be spawned")]
    OutOfTurn,
    /// The run has as many behaviours as it may have.
    #[error("more than 65,535 behaviours")]
    Behaviours,
    /// Memory was refused.
    #[error("out of memory")]
    Memory,
}

/// What `advance` answers.
#[derive(Clone, Copy, PartialEq, Eq, Debug)]
pub enum Advanced {
    /// This step was made.
    Moved(Step),
    /// The next step is a settle, and the request before isn't flagged.
    Blocked,
    /// Own was made: the behaviour is enqueued.
    Enqueued,
    /// No open enqueue has this token.
    Unknown,
}

/// Why `finish` refuses. Nothing has changed.
#[derive(Clone, Copy, PartialEq, Eq, Debug, Error)]
pub enum FinishFault {
    /// No behaviour of that number runs, or it was handed out with another body, arguments or inputs.
    #[error("no such behaviour runs")]
    Stranger,
    /// An enqueue is open, or a wish wasn't spawned.
    #[error("not all wishes of this behaviour are spawned")]
    Busy,
}

/// What `leave` answers.
#[derive(Clone, Copy, PartialEq, Eq, Debug)]
pub enum Left {
    /// This step was made.
    Moved(Step),
    /// A successor has exchanged, and isn't settled.
    Blocked,
    /// This step was made, and with it the last request was released.
    Gone(Step),
    /// No leaving behaviour has this token.
    Unknown,
}

/// A behaviour that can step, by its row or its token.
#[derive(Clone, Copy, PartialEq, Eq, Debug)]
pub enum Mover {
    /// The row that is first in the ready list, where no behaviour is being enqueued, running or leaving.
    Ready(u32),
    /// A running row that has no open enqueue. Its body can go on.
    Running(u32),
    /// An open enqueue whose next step isn't blocked.
    Enqueuing(Child),
    /// A leaving row whose next release isn't blocked.
    Leaving(Leaving),
}
