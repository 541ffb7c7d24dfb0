//! Advice on a configuration, for whoever writes it: of every faulty line the word that is wrong, why, and what to do; what
//! is taken without effect; what a good configuration comes to; and a text in which the faulty lines are comments.
//!
//! The layers above may rely on this: [`advise`] names the lines and kinds of all faults that `lload_conf` finds, the first
//! of which is that of its `read`; names, ranges and kinds are those of its table. The text of [`convert`] is the one that
//! it was given, with something put in front of lines alone, and it is marked as taken only where `read` takes it. Want of
//! memory is the one other answer.
#![tactic(auto)]

mod advice;
mod converting;
mod dictionary;
mod left_out;
mod naming;
mod noting;
mod overview;
mod reason;
mod reasons;
mod shown;
mod telling;
#[cfg(test)]
mod tests;

pub use advice::{Advice, Advices, advise};
pub use converting::{Conversion, convert};
pub use naming::nearest;
pub use noting::{Note, Notes, notes};
pub use overview::{Row, Rows, rows};
pub use reason::{Reason, Remedy};
pub use telling::{Told, tell, tell_converted};
