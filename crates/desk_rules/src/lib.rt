//! The rules by which the desk's tables change, one function each: a connection is up or lost, an operation more or less
//! is pending, the turns of a backend's places and of a tier's backends go on, and an operation ends with its latency. For all settings
//! and facts that the tables stand for, they stand behind a rule for the facts that it makes; for want of memory they stand
//! for what they stood for. A rule costs the logarithm of what is live at most. With a plan the tables begin anew. The desk's
//! step joins the rules with the choice of `desk_choice` and the pending operations of `desk_tables`. The layer above may
//! rely on lemmas too: a place by the plan in force is one of its backends (`Placing`), and connections of earlier plans
//! belong to none of these (`Earlier`).
#![tactic(auto)]

mod ends;
mod latencies;
mod news;
mod picks;
mod plans;
mod servers;
mod takes;
#[cfg(test)]
mod tests;

pub use ends::release;
pub use latencies::ended;
pub use news::{lost, up};
pub use picks::pick;
pub use plans::fresh;
pub use takes::{take_on, turn_to};
