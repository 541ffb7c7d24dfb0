//! The choice of a connection: over tables that stand for the facts, each answer is the right one.
#![tactic(auto)]

mod choice;
mod tables;

pub use tables::Tables;
