//! Draws: the runs of a program by virtual workers on one thread, of which at each turn one is picked at random. Which one moves
//! when is a function of the program, the number of workers, the way in which they are picked, and a seed.
#![tactic(auto)]

mod at_depth;
mod drawing;
mod fault;
pub mod laws;
mod movers;
mod picker;
mod way;

pub use at_depth::way_of;
pub use boc_program::count::Depth;
pub use drawing::{Drawn, draw};
pub use fault::DrawFault;
pub use movers::movers_of;
pub use way::Way;
