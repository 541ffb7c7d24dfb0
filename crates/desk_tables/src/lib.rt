//! What the desk keeps: the connections that it knows, the operations that are pending on them, and the tiers of the plan
//! in force with their backends and places. Each call says what it changes and that all else stays; none of them chooses.
#![tactic(auto)]

mod conns;
mod pending;
mod rounds;
mod servers;
#[cfg(test)]
mod tests;

pub use conns::{Conn, Conns, Spot, is_within};
pub use pending::Pending;
pub use rounds::Round;
pub use servers::{Lane, Server, numbered, write_server};
