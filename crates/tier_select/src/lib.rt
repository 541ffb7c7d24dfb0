//! Which backend of a tier, and which place of a backend, comes next.
//!
//! The layers above may rely on this: each pick is that of the definitions in `lload_spec` over the picks and the
//! latencies so far, where places are counted from 0 in the order of the plan; a pick that finds nothing changes
//! nothing; a choice changes nothing until it is noted; only [`Tier::new`] takes memory.
#![tactic(auto)]

mod draws;
mod flags;
mod ring;
#[cfg(test)]
mod tests;
mod tier;
mod wheel;

pub use flags::{FlagSet, Flags, PlaceFlags};
pub use tier::Tier;
pub use wheel::Wheel;
