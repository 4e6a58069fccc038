//! The tests of counted readers and writers, over the public calls of the library.
#![tactic(auto)]

#[cfg(test)]
mod counted;
