//! The operations that wait for their answers on one upstream connection, each under the identifier of its message.
//!
//! The layers above may rely on this: an operation gets the identifier that was freed first, else one more than the
//! greatest that was given, and a live identifier is never given; an identifier is freed where its operation was
//! answered to the end (`finish`), and not where it ends otherwise (`end`); the live rows stand by rising identifier,
//! and one that goes leaves all others as they were; for want of memory nothing changes.
#![tactic(auto)]

mod calls;
mod filed;
mod given;
pub mod laws;
mod list;
mod live;
mod row;
mod rows;
mod table;
#[cfg(test)]
mod tests;

pub use row::{Kept, Row};
pub use table::IdTable;
