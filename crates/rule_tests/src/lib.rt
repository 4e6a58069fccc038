//! The tests of the rules of runs and of the chains of requests, over the public calls of the libraries.
#![tactic(auto)]

#[cfg(test)]
mod chain;
#[cfg(test)]
mod rules;
