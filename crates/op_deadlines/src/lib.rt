//! Which operations of an upstream connection are due: each waits under its identifier from a moment on, and is due
//! once a timeout has passed since.
//!
//! The layers above may rely on this: what is answered is the lowest identifier that is due, at whatever moment and
//! for whatever timeout; a call on one identifier leaves all others as they were; for want of memory nothing changes.
#![tactic(auto)]

mod deadlines;
#[cfg(test)]
mod tests;
mod tree;

pub use deadlines::Deadlines;
