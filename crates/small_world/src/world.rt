ghost use Rattle.std.specs.Prelude.{◌≡◌, ◌<◌, ◌≤◌, ◌^◌, ◌↔◌, true, false, IsTrue, IfOk, OnOk, OnErr, length};

use crate::pieces::{answering, forwarding, got_again, refusing};
use lload_names::{Body, Entries, Entry, Letter, NoMemory, OpName, PartName, What};
use std::alloc::Global;
use std::marker::Model;

/// How connection 1 stands.
#[derive(Clone, Copy, Debug, PartialEq, Eq, Drop)]
pub enum Link {
    /// It was never linked.
    NotLinked,
    /// It is up, which the desk has yet to hear.
    Unheard,
    /// It is up, and the desk has heard so.
    Heard,
}

/// An operation of client 1 that was sent on connection 1. Its identifier there is its place in the list of them,
/// counted from 1.
#[derive(Clone, Copy, Debug, PartialEq, Eq, Drop)]
pub struct Forwarded {
    /// Its number among the client's operations.
    pub k: u64,
    /// Its identifier at the client.
    pub id: u32,
    /// Whether its answer has come.
    pub answered: bool,
}

/// The most operations that a world takes: connection 1 gives no identifier above it.
const MOST_OPERATIONS: u64 = 1_073_741_823;

/// One client, one regular connection and the desk, with a notice that waits for the desk once the connection is up.
/// Contracts see who has begun and what was sent.
#[derive(Debug, Drop)]
pub struct World {
    arrived: bool,
    link: Link,
    made: u64,
    forwarded: Vec<Forwarded>,
    alloc: Global,
}

impl Model for World {
    ghost use Rattle.std.specs.Prelude.{◌≡◌, ◌≤◌, ◌<◌, ◌^◌, true, length};
    ghost use Rattle.small_world.specs.States.{WorldState, are_in_range};

    ghost Value = { WorldState };

    ghost view = { λ w. record { arrived = w.arrived; link = w.link; made = w.made; forwarded = w.forwarded.items } };

    ghost invariant = { λ w. (length w.forwarded.items ≤ w.made) × (w.made < 2 ^ 30) × (are_in_range w.forwarded.items ≡ true) };
}

impl World {
    ghost use Rattle.std.specs.Prelude.{List, [], ◌++◌};
    ghost use Rattle.lload_names.specs.declared.names.Entry.{Entry as EntryValue};
    ghost use Rattle.lload_spec.specs.Writable.{each_can_be_written};
    ghost use Rattle.small_world.specs.States.{at_rest, begun, has_begun, heard_link, may_begin, uses, gave, MayTake, after_message};
    ghost use Rattle.small_world.specs.Rounds.{beginning, hearing, IsRound, Takes};
    ghost use Rattle.small_world.specs.Stands.{StandsFor};

    /// The world of the configuration `plain`, before anything began.
    pub fn plain(alloc: Global) -> Result<World, NoMemory>
        ensures state { IfOk result (λ w. w ≡ at_rest) }
        ensures stands { IfOk result (λ w. StandsFor w []) }
    {
        Ok(World {
            arrived: false,
            link: Link::NotLinked,
            made: 0,
            forwarded: Vec::new(alloc),
            alloc,
        })
    }

    /// Whether client 1, or connection 1, has begun.
    pub fn stands(&self, part: PartName) -> bool
        ensures { result ≡ has_begun self.now part }
    {
        match part {
            PartName::Desk => false,
            PartName::Client(n) => n == 1 && self.arrived,
            PartName::Up(n) => n == 1 && self.link != Link::NotLinked,
        }
    }

    /// Whether a live operation of client 1 has this identifier.
    pub fn is_in_use(&self, id: u32) -> bool
        ensures { result ≡ uses self.now id }
    {
        self.forwarded.iter().any(|f| !f.answered && f.id == id)
    }

    /// Whether this identifier was given on connection 1.
    pub fn was_given(&self, id: u32) -> bool
        ensures { result ≡ gave self.now id }
    {
        id != 0 && id as usize <= self.forwarded.len()
    }

    /// Client 1 arrives, or connection 1 is linked and up. The part hasn't begun. The answer is what the journal
    /// grows by; for want of memory nothing has changed.
    pub fn begin(&mut self, part: PartName) -> Result<Entries, NoMemory>
        requires { may_begin self.old part ≡ true }
        ensures made { IfOk result (λ piece. piece ≡ beginning part) }
        ensures state { OnOk result (self.new ≡ begun self.old part) }
        ensures stands { IfOk result (λ piece. (J : List EntryValue) → StandsFor self.old J → StandsFor self.new (J ++ piece)) }
        ensures err { OnErr result (self.new ≡ self.old) }
    {
        self.start(part)
    }

    /// The desk hears that connection 1 is up, where this waits to be heard. The answer is what the journal grows by;
    /// for want of memory nothing has changed.
    pub fn hear(&mut self) -> Result<Entries, NoMemory>
        ensures made { IfOk result (λ piece. piece ≡ hearing self.old.link) }
        ensures state { OnOk result (self.new ≡ record self.old { link = heard_link self.old.link }) }
        ensures stands { IfOk result (λ piece. (J : List EntryValue) → StandsFor self.old J → StandsFor self.new (J ++ piece)) }
        ensures err { OnErr result (self.new ≡ self.old) }
    {
        self.take_news()
    }

    /// Takes a message from a part, and all that follows from it: a Delete from client 1, or its answer from
    /// connection 1. Nothing waits to be heard. The answer is what the journal grows by; for want of memory nothing
    /// has changed.
    pub fn round(&mut self, part: PartName, id: u32, rest: Body) -> Result<Entries, NoMemory>
        requires { MayTake self.old part id rest }
        ensures made { IfOk result (λ piece. (J : List EntryValue) → StandsFor self.old J → IsRound part J piece) }
        ensures taken { IfOk result (λ piece. Takes part (record { id = id; rest = rest }) piece) }
        ensures writable { IfOk result (λ piece. each_can_be_written piece ≡ true) }
        ensures state { OnOk result (self.new ≡ after_message self.old part id) }
        ensures stands { IfOk result (λ piece. (J : List EntryValue) → StandsFor self.old J → StandsFor self.new (J ++ piece)) }
        ensures err { OnErr result (self.new ≡ self.old) }
    {
        let _ = &self.made;
        match part {
            PartName::Desk => unreachable!(),
            PartName::Client(_) => self.take_request(id, rest),
            PartName::Up(_) => self.take_answer(id, rest),
        }
    }
}

impl World {
    ghost use Rattle.small_world.specs.States.{IsRequestFor, IsAnswerFor, begun, heard_link, may_begin, after_request, after_answer};
    ghost use Rattle.small_world.specs.Rounds.{beginning, hearing};
    ghost use Rattle.small_world.specs.Pieces.{request_piece, answer_piece};

    // A part begins.
    fn start(&mut self, part: PartName) -> Result<Entries, NoMemory>
        requires { may_begin self.old part ≡ true }
        ensures made { IfOk result (λ piece. piece ≡ beginning part) }
        ensures state { OnOk result (self.new ≡ begun self.old part) }
        ensures err { OnErr result (self.new ≡ self.old) }
    {
        let mut entries = Entries::new(self.alloc);
        match part {
            PartName::Desk => {}
            PartName::Client(_) => {
                entries.push(Entry {
                    part,
                    at: 0,
                    what: What::Arrived,
                })?;
                self.arrived = true;
            }
            PartName::Up(_) => {
                entries.push(Entry {
                    part,
                    at: 0,
                    what: What::Linked,
                })?;
                entries.push(Entry {
                    part,
                    at: 0,
                    what: What::Up,
                })?;
                self.link = Link::Unheard;
            }
        }
        Ok(entries)
    }

    // The desk hears what is news.
    fn take_news(&mut self) -> Result<Entries, NoMemory>
        ensures made { IfOk result (λ piece. piece ≡ hearing self.old.link) }
        ensures state { OnOk result (self.new ≡ record self.old { link = heard_link self.old.link }) }
        ensures err { OnErr result (self.new ≡ self.old) }
    {
        let mut entries = Entries::new(self.alloc);
        if self.link == Link::Unheard {
            let letter = Letter::IsUp { conn: 1 };
            entries.push(Entry {
                part: PartName::Desk,
                at: 0,
                what: What::Heard { letter },
            })?;
            self.link = Link::Heard;
        }
        Ok(entries)
    }

    // A Delete comes in: it goes to connection 1 where the desk heard that this is up, and is refused elsewhere.
    fn take_request(&mut self, id: u32, rest: Body) -> Result<Entries, NoMemory>
        requires { IsRequestFor self.old id rest }
        ensures made { IfOk result (λ piece. piece ≡ request_piece self.old id rest) }
        ensures state { OnOk result (self.new ≡ after_request self.old id) }
        ensures err { OnErr result (self.new ≡ self.old) }
    {
        if self.made >= MOST_OPERATIONS {
            return Err(NoMemory);
        }
        let op = OpName {
            client: 1,
            k: self.made + 1,
        };
        let entries = if self.link == Link::Heard {
            let sent_as = self.forwarded.len() as u32 + 1;
            let entries = forwarding(self.alloc, op, sent_as, id, rest)?;
            self.forwarded.push(Forwarded {
                k: op.k,
                id,
                answered: false,
            })?;
            entries
        } else {
            refusing(self.alloc, op, id, rest)?
        };
        self.made += 1;
        Ok(entries)
    }

    // An answer comes: it goes to the client of a live operation, and has no effect elsewhere.
    fn take_answer(&mut self, id: u32, rest: Body) -> Result<Entries, NoMemory>
        requires { IsAnswerFor self.old id rest }
        ensures made { IfOk result (λ piece. piece ≡ answer_piece self.old id rest) }
        ensures state { OnOk result (self.new ≡ after_answer self.old id) }
        ensures err { OnErr result (self.new ≡ self.old) }
    {
        let at = id as usize - 1;
        let forwarded = self.forwarded[at];
        if forwarded.answered {
            return got_again(self.alloc, id, rest);
        }
        let entries = answering(self.alloc, forwarded, id, rest)?;
        self.forwarded[at].answered = true;
        Ok(entries)
    }
}
