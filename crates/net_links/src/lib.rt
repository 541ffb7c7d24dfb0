//! Sockets as links: the harbour, the links and the pollers of `lload_links` over `mio`'s non-blocking TCP sockets.
//!
//! This is the trusted edge: what a socket gives or takes is the system's, so nothing of it is told. The layers above may
//! rely on the clauses of the traits. A link is registered once with a poller, edge-triggered, and remembers what it was
//! told, so that a call that would find nothing makes no system call. Connections have `TCP_NODELAY`; the listener takes
//! its address again after a restart (`SO_REUSEADDR`) and has the longest backlog that the system allows.
#![tactic(auto)]

mod harbour;
mod link;
mod poller;
#[cfg(test)]
mod tests;

pub use harbour::TcpHarbour;
pub use link::TcpLink;
pub use poller::{TcpPoller, TcpWatch};
