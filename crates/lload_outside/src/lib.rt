//! The outside of the proxy: where bytes come from, where bytes go to, and what files hold.
//!
//! Code that reads or writes is generic over [`Source`], [`Sink`] and [`FileReader`]. The layers above may rely on
//! this: a count of faults never falls, and `Failed` comes only where it rose in that call; what is left, what was
//! written and what a file holds change only as the answer says, where the object tells them. Objects in memory tell
//! them: [`MemSource`], [`MemSink`] and [`MemFiles`] fail where they are told to, and [`QuietSource`], [`QuietSink`]
//! and [`QuietFiles`] never do. All of this is this project's own.
#![tactic(auto)]

mod calls;
mod files;
mod memory;
mod quiet;
mod sink;
mod source;
#[cfg(test)]
mod tests;

pub use files::{FileRead, FileReader, FileTable, NamedFile};
pub use memory::{MemFiles, MemSink, MemSource};
pub use quiet::{QuietFiles, QuietSink, QuietSource};
pub use sink::{Given, Sink};
pub use source::{Source, Taken};
