//! The live operations of a client: by rising number, with an index by identifier.
//!
//! The layer above may rely on this: the operations stand in the order in which they came, and each answer and each
//! change is that of a list of them; no two have one identifier; for want of memory nothing changes. A call costs the
//! logarithm of the live operations at most.
#![tactic(auto)]

mod filed;
mod operations;
mod row;
#[cfg(test)]
mod tests;

pub use operations::Operations;
pub use row::{Row, Way};
