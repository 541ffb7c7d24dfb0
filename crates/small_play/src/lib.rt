//! A script's commands, played on the small world, and gone with it when the world of all parts stands: what was fed
//! waits for a settle, and each line that stands makes the entries of its form.
//!
//! The layer above may rely on this: a play stands for the history of the lines that it took, each with the entries
//! that it answered. That history follows its script, and behind each of its lines the journal kept what is promised.
//! A line is refused only where it doesn't stand. For want of memory nothing is said of the play.
#![tactic(auto)]

mod elements;
mod fed;
mod messages;
mod play;
mod taking;

pub use lload_names::NoMemory;
pub use play::{Play, Unplayed};

#[cfg(test)]
mod tests;
