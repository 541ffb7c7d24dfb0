//! Which client's Bind holds which bind connection.
//!
//! The layers above may rely on this: a connection has at most one holder, and only the operation that holds it can
//! give it back; a call changes the holder of no other connection; for want of memory nothing changes. Holders are
//! kept by connection, since a place's next connection may be up while the holder of its last one is still pending.
#![tactic(auto)]

mod pool;
#[cfg(test)]
mod tests;

pub use pool::BindPool;
