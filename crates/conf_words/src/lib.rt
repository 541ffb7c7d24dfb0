//! The lines and words of a configuration (this project's own, in the shape of lloadd.conf(5)): physical lines are
//! joined to lines, comments and blank lines are left out, and a line is cut into words by spaces, quotes and backslashes.
//!
//! The layer above may rely on this: a [`LineReader`] gives the lines that the definition `conf_lines` finds in the whole
//! text, each with its words and the number of its first physical line, in order, up to the first that isn't UTF-8 or
//! whose quote isn't closed; [`line_count`] is exact. A reader passes a line that it can't read where it is told to, and
//! goes on behind it; and it is known in which physical line a word begins. Want of memory changes nothing.
#![tactic(auto)]

pub mod examples;
mod joining;
mod lines;
mod locating;
mod passing;
mod physical;
mod place;
mod words;

pub use joining::First;
pub use lines::{LineReader, NextLine};
pub use lload_names::Word;
pub use physical::line_count;
pub use words::Words;

#[cfg(test)]
mod tests;
