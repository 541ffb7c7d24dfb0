//! The desk: it chooses a connection for each operation, hears of connections and of operations that end, and goes on to
//! another plan of the upstream.
//!
//! The layers above may rely on this: for all settings, and for each state that the desk stands for, a step appends what
//! the turn of that state makes, each choice of which is the right one, and the desk then stands for the state behind it;
//! an input without a rule changes nothing; for want of memory `out` stays as it was, and the desk stands for what it stood
//! for. A step costs the logarithm of what is live, but for a choice, which looks at the backends of the plan, and for a
//! reload.
#![tactic(auto)]

mod asks;
mod ends;
mod news;
mod notes;
mod part;
mod raises;
mod reloads;
mod step;
mod surface;
#[cfg(test)]
mod tests;

pub use part::Desk;
