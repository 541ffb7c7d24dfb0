//! What the threads that serve connections stand on: the places of the upstream connections, and which of them is
//! linked next and when.
//!
//! The layers above may rely on this: [`Places::due`] gives the connection to link next at the lowest place that is
//! due, at whatever moment; it costs the logarithm of the number of places; a call on one connection leaves all other
//! places as they were; only [`Places::new`] takes memory.
#![tactic(auto)]

pub mod examples;
mod places;
mod rows;
#[cfg(test)]
mod tests;
mod tree;

pub use places::Places;
