//! The text of scripts and journals (this project's own): a line of a script is read as a command, and an entry of a
//! journal is written as a line and read again.
//!
//! The layers above may rely on this: a line is read exactly as the grammar of `lload_spec` says, the line of an entry is
//! exactly the text that it gives, and a line is read as an entry exactly where it is the entry's own.
#![tactic(auto)]

mod entry;
mod entry_lines;
mod fields;
mod maker;
mod numbers;
mod read;
mod words;

pub use entry::entry_line;
pub use entry_lines::{entries_are_read, read_entry};
pub use lload_names::Command;
pub use maker::{Maker, ROUNDS_LIMIT};
pub use read::{LineFault, read_line};

#[cfg(test)]
mod entry_tests;
#[cfg(test)]
mod tests;
