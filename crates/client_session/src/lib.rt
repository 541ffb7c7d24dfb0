//! A client's part: it takes an input, and gives entries of its client's list and letters to other parts, a rule for each
//! input.
//!
//! The layers above may rely on this: for all settings, and for each state that the part stands for, a step appends what
//! the turn of that state makes, and the part then stands for the state behind it; the end of the link gives what its turn
//! makes and takes no memory; an input without a rule changes nothing; for want of memory nothing is appended, and the part
//! stands for what it stood for. A step costs the logarithm of the live operations at most, but for what it gives.
#![tactic(auto)]

mod abandons;
mod answers;
mod at_once;
mod binds;
mod cancels;
mod check;
mod choices;
mod closing;
mod ending;
mod flow;
mod kept;
mod leaving;
mod messages;
mod part;
mod requests;
mod settings;
mod step;
#[cfg(test)]
mod tests;

pub use check::Check;
pub use part::{ClientPart, Held};
pub use settings::ClientSettings;
