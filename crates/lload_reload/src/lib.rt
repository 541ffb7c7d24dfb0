//! The plans of a run: the first one, and one more for each reload, and the place of a connection among them.
//!
//! The layer above may rely on this: plans are seen by contracts as the list of them with their bases; one is taken
//! exactly where the numbers of its connections' places and of all backends stay within 32 bits; a connection belongs
//! to the plan with the greatest base below its number, and backends are numbered through all plans. A look-up costs
//! the logarithm of the plans and one look through the backends of a plan. For want of memory nothing changes. It must
//! give plans within the limits of the proxy, with backends numbered from 1 in order, and bases that never fall.
#![tactic(auto)]

mod plans;
#[cfg(test)]
mod tests;

pub use plans::{Plans, backends_in};
