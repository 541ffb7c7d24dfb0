//! What the parts of both kinds of upstream connection share: its live operations with their identifiers and
//! deadlines, what is posted of them, which messages are dropped, and its end.
//!
//! The layers above may rely on this: each call does to the live operations what it says, and leaves all else; room for
//! the letters of the connection's end is kept with each live operation, so that the end takes no memory; for want of
//! memory nothing changes.
#![tactic(auto)]

mod closing;
mod conn;
mod counted;
mod settings;
mod strays;
mod telling;
#[cfg(test)]
mod tests;
mod timed;

pub use conn::ConnCore;
pub use settings::{OwnBindBytes, UpSettings};
