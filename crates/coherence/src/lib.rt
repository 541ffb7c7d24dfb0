//! What later requests of a client are bound to: the connection or the backend that an earlier one was given.
//!
//! The layers above may rely on this: the answer is that of the definition over all calls so far, at whatever moment
//! and for positive, zero and negative seconds. Nothing here takes memory.
#![tactic(auto)]

#[cfg(test)]
mod tests;
mod window;

pub use lload_names::Hold;
pub use window::Window;
