//! A regular upstream connection's part: it takes an input, and gives entries of its connection's list and letters to other
//! parts, a rule for each input.
//!
//! The layers above may rely on this: for all settings, and for each state that the part stands for, a step appends what
//! the turn of that state makes, and the part then stands for the state behind it; the end of the link gives what its turn
//! makes and takes no memory; an input without a rule changes nothing; for want of memory nothing changes. A step costs the
//! logarithm of the live operations, but for what it gives.
#![tactic(auto)]

mod abandons;
mod answers;
mod clock;
mod hears;
mod letters;
mod links;
mod part;
mod step;
mod surface;
#[cfg(test)]
mod tests;
mod told;
mod waiting;

pub use part::UpstreamPart;
