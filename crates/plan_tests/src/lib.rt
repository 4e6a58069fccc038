//! The tests of chains, edits, curves and timed schedules, over the public calls of the libraries.
#![tactic(auto)]

#[cfg(test)]
mod curve;
#[cfg(test)]
mod order;
#[cfg(test)]
mod timed;
#[cfg(test)]
mod what_if;
#[cfg(test)]
mod worked_rows;
