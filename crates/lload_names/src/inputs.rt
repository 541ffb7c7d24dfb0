use crate::body::Body;
use crate::names::{EndWhy, Letter, PartName};
use crate::plans::DeskPlan;
use crate::{Entries, Letters};

/// What a part takes in, at a moment in milliseconds.
#[derive(Debug, Drop)]
pub enum Input {
    /// A client arrives.
    Arrive {
        now: u64,
    },
    /// A connection is linked.
    LinkUp {
        now: u64,
    },
    /// A message comes over the link.
    Message {
        now: u64,
        id: u32,
        rest: Body,
    },
    /// A letter comes, with the random word that the desk chooses by.
    LetterFrom {
        now: u64,
        word: u64,
        sender: PartName,
        letter: Letter,
    },
    /// The clock moves.
    Tick {
        now: u64,
    },
    /// The bytes of the link are no message, or one that is too big.
    LinkGone {
        now: u64,
        why: EndWhy,
    },
    /// A client doesn't read what it is sent.
    Stall {
        now: u64,
    },
    /// A client reads again.
    Flow {
        now: u64,
    },
    /// The desk is to choose by another plan, for connections above the base.
    Reload {
        now: u64,
        plan: DeskPlan,
        base: u32,
    },
}

/// What happens to a part of a world: an input, where a letter is the first of a sender that waits for the part.
#[derive(Debug, Drop)]
pub enum Event {
    /// A client arrives.
    Arrive {
        now: u64,
    },
    /// A connection is linked.
    LinkUp {
        now: u64,
    },
    /// A message comes over the link.
    Message {
        now: u64,
        id: u32,
        rest: Body,
    },
    /// The first letter of this sender is taken, with the random word that the desk chooses by.
    Letter {
        now: u64,
        word: u64,
        sender: PartName,
    },
    /// The clock moves.
    Tick {
        now: u64,
    },
    /// The bytes of the link are no message, or one that is too big.
    LinkGone {
        now: u64,
        why: EndWhy,
    },
    /// A client doesn't read what it is sent.
    Stall {
        now: u64,
    },
    /// A client reads again.
    Flow {
        now: u64,
    },
    /// The desk is to choose by another plan, for connections above the base.
    Reload {
        now: u64,
        plan: DeskPlan,
        base: u32,
    },
}

/// What a turn of a part makes: entries of its list, and letters with their receivers, each in order.
#[derive(Debug, Drop)]
pub struct Effects {
    pub entries: Entries,
    pub letters: Letters,
}
