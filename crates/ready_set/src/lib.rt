//! Connections that are ready to be chosen, by the index of their place and then from the greatest number on: which of
//! them stands for the first place in turn that has one is found in the logarithm of their count.
#![tactic(auto)]

mod ready;
#[cfg(test)]
mod tests;

pub use ready::Ready;
