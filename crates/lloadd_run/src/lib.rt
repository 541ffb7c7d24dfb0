//! The program's work, over whatever gives its input and takes its output: a script is read line by line, and the
//! journal that its lines make is written.
//!
//! The layer above may rely on this: [`run`] always returns, and its status says how far the script was read, which
//! history its lines have and what was written of the history's text, where the objects tell what they hold. Every
//! fault comes from a count that rose; want of memory alone has no cause that is stated.
#![tactic(auto)]

mod checking;
mod player;
mod program;
mod status;
mod words;
mod writing;

pub use program::run;
pub use status::Status;
pub use words::{Job, read_words};
