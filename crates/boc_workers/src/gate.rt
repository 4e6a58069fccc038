// What sees the workers between their steps.

ghost use Rattle.std.specs.Prelude.{◌≡◌, false};

use boc_dispatch::Step;

/// What a gate answers.
#[derive(Clone, Copy, PartialEq, Eq, Debug)]
pub enum Go {
    /// The worker goes on.
    On,
    /// The worker stops, and the run with it.
    Stop,
}

/// Is asked by each worker before it runs a body, and after each of its steps. The lock is free then.
pub trait Gate: Sync {
    // A gate whose type has this fact stops no worker.
    ghost always_on: { Type 0 };

    /// May it hold a worker until another one comes? Then no worker of the run sleeps while a row is ready. If not, as many are awake as there are processors.
    fn may_wait(&self) -> bool {
        true
    }

    /// May the worker run the body of this row, which it has just started?
    fn at_body(&self, worker: u32, row: u32) -> Go
        ensures { always_on → result ≡ Go.On };

    /// May the worker go on, after this step of the row that it serves?
    fn between_steps(&self, worker: u32, row: u32, step: Step) -> Go
        ensures { always_on → result ≡ Go.On };
}

/// Lets everybody go on.
#[derive(Clone, Copy, PartialEq, Eq, Debug)]
pub struct OpenGate;

impl Gate for OpenGate {
    ghost always_on = { Unit {0} };

    fn may_wait(&self) -> bool
        ensures { result ≡ false }
    {
        false
    }

    fn at_body(&self, _worker: u32, _row: u32) -> Go {
        Go::On
    }

    fn between_steps(&self, _worker: u32, _row: u32, _step: Step) -> Go {
        Go::On
    }
}
