ghost use Rattle.std.specs.Prelude.{ℕ, ◌≡◌, ◌≢◌, ◌≤◌, ◌<◌, ◌-◌, ◌^◌, ◌↔◌, Bool, List, Option, IsTrue};
ghost use Rattle.lload_outside.specs.Causes.{Rose};
ghost use Rattle.lload_links.specs.Waits.{TellsNone, TellsNext};

use crate::link::{Link, Seen};

/// How a wait ended.
#[derive(Clone, Copy, Debug, PartialEq, Eq, Drop)]
pub enum Woke {
    /// Something is to be looked at: a link became ready, a client may wait, or the wait was rung off.
    Ready,
    /// The time passed.
    Quiet,
    /// What is waited on is closed.
    Closed,
    /// The wait failed.
    Failed,
}

/// A link that became ready, by the token under which it is watched, and what was seen of it.
#[derive(Clone, Copy, Debug, PartialEq, Eq, Drop)]
pub struct Told {
    pub token: u64,
    pub seen: Seen,
}

/// Whether a link was put in a poller's charge.
#[derive(Clone, Copy, Debug, PartialEq, Eq, Drop)]
pub enum Watched {
    Done,
    /// It can't be watched; this is a fault of the link.
    Failed,
    /// There was no memory for it.
    NoMemory,
}

/// Waits for the links in its charge. One worker has it.
pub trait Poller {
    ghost use Rattle.lload_links.specs.declared.poller.Told.{Told};

    /// What the last wait saw and `next` has not told yet; `None` where the poller doesn't tell.
    ghost to_tell: { Self → Option (List Told) };

    /// How often a wait failed.
    ghost faults: { Self → ℕ };

    /// Whether it is closed.
    ghost is_closed: { Self → Bool };

    /// Waits until a link is ready, the poller was rung, or so many milliseconds passed; where no time is given, it may
    /// wait for ever. Only `Ready` has something to tell. It closes where its harbour is closed.
    fn wait(&mut self, ms: Option<u32>) -> Woke
        ensures never_falls { faults self.old ≤ faults self.new }
        ensures failed { result ≡ Woke.Failed → Rose (faults self.old) (faults self.new) }
        ensures closed { (result ≡ Woke.Closed) ↔ IsTrue (is_closed self.new) }
        ensures stays_closed { IsTrue (is_closed self.old) → IsTrue (is_closed self.new) }
        ensures told { result ≢ Woke.Ready → TellsNone (to_tell self.new) };

    /// The next link that the last wait saw.
    fn next(&mut self) -> Option<Told>
        ensures faults { faults self.new ≡ faults self.old }
        ensures closed { is_closed self.new ≡ is_closed self.old }
        ensures told { TellsNext (to_tell self.old) (to_tell self.new) result };
}

/// Puts links in a poller's charge, and ends its wait. Any thread may call it, also while the poller waits.
pub trait Watch<L: Link> {
    /// Has the poller tell of this link under this token, each time that it becomes ready, until the link is dropped.
    /// The last token is kept for the ring.
    fn watch(&self, link: &mut L, token: u64) -> Watched
        requires { token < 2 ^ 64 - 1 }
        ensures never_falls { L.faults link.old ≤ L.faults link.new }
        ensures failed { result ≡ Watched.Failed → Rose (L.faults link.old) (L.faults link.new) }
        ensures same { L.tells link.new ≡ L.tells link.old };

    /// Ends the wait that is under way, or else the next.
    fn ring(&self);
}
