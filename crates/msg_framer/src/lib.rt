//! Streams of LDAP messages that come in pieces: a framer takes the pieces and gives the messages (RFC 4511, section
//! 5.1).
//!
//! The layer above may rely on this: however a stream is cut into pieces, and whenever messages are passed between
//! them, the messages are those of the whole stream, in order, and so is the answer that ends them. Whatever takes
//! memory can be refused, and a piece that was refused left nothing behind.
#![tactic(auto)]

mod framer;
mod laws;
#[cfg(test)]
mod tests;

pub use ber_envelope::NoMemory;
pub use framer::{Framer, Next};
pub use laws::streams_are_one;
