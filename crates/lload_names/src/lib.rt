//! The plain types of the proxy: names of parts and operations, the letters between parts, the entries of the
//! journal, what a part takes in and makes of it, the commands of a script, the plans of the upstream, and the lists,
//! bodies and words that hold them.
//!
//! The layers above may rely on this: a [`Body`] and a [`Word`] are seen by contracts as their bytes, a [`Listed`]
//! as the list of its items, and every other type as itself, so that the declared types are also the data of the
//! definitions. Only `push` and what copies or makes bytes takes memory, and want of memory changes nothing.
#![tactic(auto)]

mod body;
mod command;
mod inputs;
mod listed;
mod names;
mod plans;
#[cfg(test)]
mod tests;

pub use body::{Body, NoMemory, Word};
pub use command::Command;
pub use inputs::{Effects, Event, Input};
pub use listed::Listed;
pub use names::{
    Answer, Bound, CancelAnswer, ConnKind, EndWhy, Entry, Hold, Letter, OpKind, OpName, PartName,
    Posted, Refusal, Want, What,
};
pub use plans::{BackendPlan, BackendPlans, DeskPlan, Place, Planned, TierKind, TierPlan};

/// Entries in their order: a journal, or a piece of one.
pub type Entries = Listed<Entry>;

/// Letters with their receivers, in the order in which they were given.
pub type Letters = Listed<Posted>;
