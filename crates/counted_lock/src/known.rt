// What seats know of the lock. These types are for proofs: no value of `Mark`, `Joined`, `Stage` or
// `View` is ever made.
use std::collections::LinkedList;

/// A turn, and the number of the seat that made it. No value of it is made.
pub struct Mark<Q> {
    pub by: u64,
    pub turn: Q,
}

/// The number of a seat that was joined, and the turns that it made. No value of it is made.
pub struct Joined<Q> {
    pub number: u64,
    pub own: LinkedList<Q>,
}

/// How far a seat is in its turn, with its ticket. No value of it is made.
pub enum Stage {
    Idle,
    Waiting(u64),
    Holding(u64),
}

/// What a seat knows. No value of it is made.
pub struct View<Q> {
    /// It is the seat that `CountedLock::new` gave.
    pub host: bool,
    /// 0 for the host, and for another seat how many seats were made up to it.
    pub number: u64,
    pub tag: u64,
    /// The turns that it has seen, which begin the list of all turns.
    pub seen: LinkedList<Mark<Q>>,
    /// The turns that it made.
    pub own: LinkedList<Q>,
    pub stage: Stage,
    /// It was joined.
    pub spent: bool,
    /// How many seats the host made.
    pub made: u64,
    /// The tag of each number, its own first. The rest is the host's too.
    pub tags: LinkedList<u64>,
    /// How many seats the host joined.
    pub joined: u64,
    /// The seats that it joined.
    pub gone: LinkedList<Joined<Q>>,
    /// What it had seen before it last joined a seat.
    pub had: LinkedList<Mark<Q>>,
    /// What that seat had seen.
    pub brought: LinkedList<Mark<Q>>,
}
