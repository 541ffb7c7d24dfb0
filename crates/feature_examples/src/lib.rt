//! Identifiers that are used again, clients that don't read, Cancels, and other plans, played by the parts' turns: each script
//! makes its worked journal. Nothing rests on this crate.
#![tactic(auto)]

pub mod features;
pub mod further;
