//! The tests of bodies and of the dispatcher, over the public calls of the libraries.
#![tactic(auto)]

#[cfg(test)]
mod calls;
#[cfg(test)]
mod drives;
#[cfg(test)]
mod eval;
