//! A bind connection's part: it takes an input, and gives entries of its connection's list and letters to other parts, a
//! rule for each input. One client at a time holds the connection, under the operation that was chosen for it.
//!
//! The layers above may rely on this: for all settings, and for each state that the part stands for, a step appends what
//! the turn of that state makes, and the part then stands for the state behind it; the end of the link gives what its turn
//! makes and takes no memory; an input without a rule changes nothing; for want of memory nothing changes. A Forward that
//! is taken is of a Bind where none is live.
#![tactic(auto)]

mod answers;
mod clock;
mod falls;
mod forwards;
mod hears;
mod identities;
mod letters;
mod part;
mod step;
mod surface;
#[cfg(test)]
mod tests;
mod told;

pub use part::BindPart;
