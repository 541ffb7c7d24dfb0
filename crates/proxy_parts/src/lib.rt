//! The parts that are many, clients and upstream connections of either kind, each kind as one table by number.
//!
//! The layer above may rely on this: for all settings, and for each state that a part stands for (a number without a part
//! stands for that of a part that never came), a step with an input that the part may take appends what the turn of that
//! state makes, and the part then stands for the state behind it; no other part changes; the end of a link gives what its
//! turn makes and takes no memory; for want of memory nothing is appended, and each part stands for what it stood for. To
//! find a part costs the logarithm of those that came.
#![tactic(auto)]

mod clients;
mod connection;
mod connections;
mod links;

pub use clients::Clients;
pub use connection::Connection;
pub use connections::Connections;
