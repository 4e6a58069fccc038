//! Threads that run a program: one dispatcher under one lock, a worker in each thread, and a gate that sees the workers
//! between their steps.
#![tactic(auto)]

mod crew;
mod fault;
mod gate;
mod made;
mod pace;
mod shared;
mod waiters;

pub use crew::{RunAnswer, run};
pub use fault::RunFault;
pub use gate::{Gate, Go, OpenGate};
pub use made::Made;
pub use shared::Shared;
