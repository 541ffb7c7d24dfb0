ghost use Rattle.std.specs.Prelude.{ℕ, ◌≡◌, ◌≤◌, ◌↔◌, Bool, true, IsTrue, Option};
ghost use Rattle.lload_outside.specs.Causes.{Rose};
ghost use Rattle.lload_links.specs.Harbours.{HarbourTells, after_back, after_accept, after_connect, CameUnused, MadeUnused, PollsNothing};

use crate::link::Link;
use crate::poller::{Poller, Watch, Woke};
use std::alloc::Global;

/// An IPv4 address and a port.
#[derive(Clone, Copy, Debug, PartialEq, Eq, Drop)]
pub struct Address {
    pub ip: [u8; 4],
    pub port: u16,
}

/// What a listen answers.
#[derive(Clone, Copy, Debug, PartialEq, Eq, Drop)]
pub enum Listen {
    Done,
    /// It can't listen there.
    Failed,
    /// There was no memory for it.
    NoMemory,
}

/// What an accept answers.
#[derive(Debug, Drop)]
pub enum Accept<L> {
    /// A client came.
    Came(L),
    /// None waits.
    NotYet,
    /// The accept failed. It may be tried again.
    Failed,
    /// There was no memory for the link. It may be tried again.
    NoMemory,
}

/// What a connect answers.
#[derive(Debug, Drop)]
pub enum Connect<L> {
    /// A link that is connected, or is being connected: then a read or a write tells if that failed.
    Made(L),
    /// It can't be connected; this is a miss.
    Failed,
    /// There was no memory for the link.
    NoMemory,
}

/// What the making of a poller answers.
#[derive(Debug, Drop)]
pub enum Made<P, W> {
    /// A poller with no link in its charge, and what puts links there.
    Both { poller: P, watch: W },
    Failed,
    /// There was no memory for it.
    NoMemory,
}

/// What the making of a harbour's bell answers.
#[derive(Debug, Drop)]
pub enum Bell<W> {
    /// Its `ring` ends the harbour's own wait.
    Made(W),
    Failed,
    /// There was no memory for it.
    NoMemory,
}

/// Hands out links: those that clients make, and those to servers. It takes them back when their session has ended.
pub trait Harbour {
    type L: Link + Send + Drop;

    type P: Poller + Send + Drop;

    type W: Watch<Self::L> + Send + Sync + Drop;

    /// How many links were handed out, and what each told that came back, in the order in which they came; `None` where
    /// the harbour doesn't tell its links.
    ghost links: { Self → Option HarbourTells };

    /// How often `listen`, `accept`, `wait` or the making of a poller or a bell failed.
    ghost faults: { Self → ℕ };

    /// How often `connect` failed.
    ghost misses: { Self → ℕ };

    ghost has_listened: { Self → Bool };

    ghost is_closed: { Self → Bool };

    /// Listens for clients at an address.
    fn listen(&mut self, at: Address) -> Listen
        ensures never_falls { faults self.old ≤ faults self.new }
        ensures failed { result ≡ Listen.Failed → Rose (faults self.old) (faults self.new) }
        ensures listened { IsTrue (has_listened self.new) }
        ensures misses { misses self.new ≡ misses self.old }
        ensures closed { is_closed self.new ≡ is_closed self.old }
        ensures links { links self.new ≡ links self.old };

    /// The next client.
    fn accept(&mut self) -> Accept<Self::L>
        ensures never_falls { faults self.old ≤ faults self.new }
        ensures failed { result ≡ Accept.Failed → Rose (faults self.old) (faults self.new) }
        ensures came { CameUnused Self.L.tells result }
        ensures misses { misses self.new ≡ misses self.old }
        ensures listened { has_listened self.new ≡ has_listened self.old }
        ensures closed { is_closed self.new ≡ is_closed self.old }
        ensures links { links self.new ≡ after_accept (links self.old) result };

    /// Begins to connect to an address.
    fn connect(&mut self, to: Address) -> Connect<Self::L>
        ensures never_falls { misses self.old ≤ misses self.new }
        ensures failed { result ≡ Connect.Failed → Rose (misses self.old) (misses self.new) }
        ensures made { MadeUnused Self.L.tells result }
        ensures faults { faults self.new ≡ faults self.old }
        ensures listened { has_listened self.new ≡ has_listened self.old }
        ensures closed { is_closed self.new ≡ is_closed self.old }
        ensures links { links self.new ≡ after_connect (links self.old) result };

    /// Waits until a client may wait, the bell was rung, or so many milliseconds passed.
    fn wait(&mut self, ms: u32) -> Woke
        ensures never_falls { faults self.old ≤ faults self.new }
        ensures failed { result ≡ Woke.Failed → Rose (faults self.old) (faults self.new) }
        ensures closed { (result ≡ Woke.Closed) ↔ IsTrue (is_closed self.new) }
        ensures stays_closed { IsTrue (is_closed self.old) → IsTrue (is_closed self.new) }
        ensures misses { misses self.new ≡ misses self.old }
        ensures listened { has_listened self.new ≡ has_listened self.old }
        ensures links { links self.new ≡ links self.old };

    /// Takes back a link whose session has ended. A link more than were handed out is dropped.
    fn back(&mut self, link: Self::L)
        ensures faults { faults self.new ≡ faults self.old }
        ensures misses { misses self.new ≡ misses self.old }
        ensures listened { has_listened self.new ≡ has_listened self.old }
        ensures closed { is_closed self.new ≡ is_closed self.old }
        ensures links { links self.new ≡ after_back (links self.old) (Self.L.tells link) };

    /// A poller that tells of at most `most` links at each wait, and what puts links in its charge.
    fn poller(&mut self, alloc: Global, most: usize) -> Made<Self::P, Self::W>
        ensures never_falls { faults self.old ≤ faults self.new }
        ensures failed { result ≡ Made.Failed → Rose (faults self.old) (faults self.new) }
        ensures made { PollsNothing Self.P.to_tell result }
        ensures misses { misses self.new ≡ misses self.old }
        ensures listened { has_listened self.new ≡ has_listened self.old }
        ensures closed { is_closed self.new ≡ is_closed self.old }
        ensures links { links self.new ≡ links self.old };

    /// What ends the harbour's own wait from another thread. Before it has listened there is none.
    fn bell(&mut self, alloc: Global) -> Bell<Self::W>
        ensures never_falls { faults self.old ≤ faults self.new }
        ensures failed { result ≡ Bell.Failed → Rose (faults self.old) (faults self.new) }
        ensures misses { misses self.new ≡ misses self.old }
        ensures listened { has_listened self.new ≡ has_listened self.old }
        ensures closed { is_closed self.new ≡ is_closed self.old }
        ensures links { links self.new ≡ links self.old };
}
