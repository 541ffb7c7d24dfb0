//! A value under a ticket lock, whose turns form one list that each caller's seat sees grow.
//!
//! A caller draws a ticket, waits until it is served, does its work on the value, and lets the next
//! one in. Each seat knows a beginning of the one list of all turns. The layer above may rely on this:
//!
//! - A turn is one call of `Work::work` on the value that the turns before it left.
//! - After its turn a seat has seen all turns up to its own, which is the last of them. What it had
//!   seen before is a beginning of this, and its own turns there are the ones that it made, each
//!   once and in its order.
//! - Seats have numbers and tags, no two the same, and each turn has the tag of the seat that made it.
//! - What a joined seat has seen and made goes to the host. Once all seats were joined, `close` hands
//!   out the value, which stands for the turns of all seats.
//!
//! All of this holds of calls that return. Nothing is promised on the order of turns of seats that
//! never met, nor that a ticket is ever served: a caller whose work doesn't return keeps all others
//! waiting.
//!
//! The lock is the ticket lock of Mellor-Crummey and Scott, 'Algorithms for scalable synchronization
//! on shared-memory multiprocessors' (1991), section 2.2. Seats and tags are this project's own.
#![tactic(auto)]

ghost use Rattle.std.specs.Prelude.{◌≡◌, ◌++◌, ◌∷◌, [], ℕ, List};

mod known;
mod lock;
mod plays;
mod seat;
#[cfg(test)]
mod tests;

pub use known::{Joined, Mark};
pub use lock::{CountedLock, Turned};
pub use seat::TurnSeat;

/// A value that stands for a list of turns. It has no calls.
pub trait Keeps {
    /// What one turn is, in proofs alone.
    type Turn;

    // The value stands for this list of turns.
    ghost stands: { List Self.Turn → Self → Type 0 };

    // The tag of a turn.
    ghost tag: { Self.Turn → ℕ };
}

/// Work on a value, which makes one turn.
pub trait Work<T: Keeps> {
    /// What the caller of the turn gets.
    type Reply;

    // The turn that the call makes: of the work as it was before, and the reply.
    ghost turn: { Self → Self.Reply → T.Turn };

    /// Works on a value that stands for some turns, and leaves one that stands for these and then
    /// this turn.
    fn work(&mut self, value: &mut T) -> Self::Reply
        ensures { (js : List T.Turn) → T.stands js value.old
            → T.stands (js ++ turn self.old result ∷ []) value.new };
}
