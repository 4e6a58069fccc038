//! The tests of runs by threads with a gate, over the public calls of the libraries.
#![tactic(auto)]

#[cfg(test)]
mod closing;
#[cfg(test)]
mod commands;
#[cfg(test)]
mod gates;
#[cfg(test)]
mod workers;
