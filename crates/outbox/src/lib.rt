//! What the turns of a part make: entries of its list, and letters, each with room that is had before a turn changes
//! anything.
#![tactic(auto)]

mod outbox;
mod roomy;
#[cfg(test)]
mod tests;

pub use outbox::Outbox;
pub use roomy::Roomy;
