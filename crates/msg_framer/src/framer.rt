ghost use Rattle.std.specs.Prelude.{◌≡◌, ◌+◌, ◌<◌, ◌≤◌, ◌↔◌, ◌∷◌, ◌++◌, [], ℕ, List, length, OnOk, OnErr, IsOk, IsOkAnd, IsTrue, MatchResult};
ghost use Rattle.ldap_spec.specs.Framing.{IsStream};
ghost use Rattle.ldap_spec.specs.Laws.{AreOctets};
ghost use Rattle.ldap_spec.specs.Messages.{Message};
ghost use Rattle.ldap_spec.specs.Streams.{read};
ghost use Rattle.msg_framer.specs.Cached.{IsRead, IsEnd, WasRead};
ghost use Rattle.msg_framer.specs.History.{HasEnded, HasMessage, IsFirst, Stands, IsBehind, fed_by};
ghost use Rattle.msg_framer.specs.Telling.{Tells, LendsMessage, GoesOn};

use ber_envelope::{Envelope, NoMemory, Read};
use bytes::BytesMut;
use std::alloc::Global;
use std::marker::Model;

/// What a framer has for its caller.
#[derive(Clone, Copy)]
pub enum Next<'a> {
    /// The first message: its identifier, and its operation with what stands behind it.
    Message { id: u32, rest: &'a [u8] },
    /// More octets are needed.
    NotYet,
    /// No message comes any more: what is left begins none.
    Bad,
    /// No message comes any more: the contents of the first are longer than the limit.
    TooBig,
}

/// The octets of a stream that were fed and not yet passed. Contracts see what is left of them, how many more it takes
/// with no further memory, and the most octets that the contents of a message may have.
#[derive(Drop)]
pub struct Framer {
    held: BytesMut<Global>,
    limit: u32,
    // What was read of `held` when it last could change: contents are looked at once.
    first: Read,
}

impl Model for Framer {
    ghost use Rattle.msg_framer.specs.Held.{Held};
    ghost use Rattle.msg_framer.specs.Cached.{IsRead};

    ghost Value = { Held };

    ghost view = { λ f. record { left = f.held.items; spare = f.held.spare; limit = f.limit } };

    ghost invariant = { λ f. IsRead f.limit f.held.items f.first };
}

impl Framer {
    /// A framer that was fed nothing, for messages whose contents have at most `limit` octets. It takes no memory yet.
    pub fn new(alloc: Global, limit: u32) -> Result<Framer, NoMemory>
        ensures empty { IsOkAnd result (λ f. f.left ≡ []) }
        ensures limit { IsOkAnd result (λ f. f.limit ≡ limit) }
        ensures history { IsOkAnd result (λ f. Stands [] [] f) }
    {
        Ok(Framer {
            held: BytesMut::new(alloc),
            limit,
            first: Read::Short { needed: 2 },
        })
    }

    /// Appends a piece of the stream. Once `next` answers Bad or TooBig the piece is dropped. It answers Ok where the
    /// piece fits the room; for want of memory nothing of it is kept.
    pub fn feed(&mut self, piece: &[u8]) -> Result<(), NoMemory>
        ensures ok { OnOk result (self.new.left ≡ fed_by (read self.old.limit self.old.left) self.old.left piece.now) }
        ensures err { OnErr result (self.new.left ≡ self.old.left) }
        ensures limit { self.new.limit ≡ self.old.limit }
        ensures spare { self.old.spare ≤ self.new.spare + length piece.now }
        ensures fits { length piece.now ≤ self.old.spare → IsOk result }
        ensures dropped { HasEnded (read self.old.limit self.old.left) → IsOk result }
        ensures history { (fed : List ℕ) (passed : List Message) → Stands fed passed self.old
            → MatchResult result (λ _. Stands (fed ++ piece.now) passed self.new) (λ _. Stands fed passed self.new) }
    {
        if has_ended(self.first) {
            return Ok(());
        }
        self.held.extend_from_slice(piece)?;
        self.first = read_on(self.first, self.held.as_slice(), self.limit);
        Ok(())
    }

    /// Makes room for `more` further octets, and changes nothing else.
    pub fn reserve(&mut self, more: usize) -> Result<(), NoMemory>
        requires { more ≤ 65536 }
        ensures room { OnOk result (more ≤ self.new.spare) }
        ensures spare { self.old.spare ≤ self.new.spare }
        ensures there { more ≤ self.old.spare → IsOk result }
        ensures left { self.new.left ≡ self.old.left }
        ensures limit { self.new.limit ≡ self.old.limit }
        ensures history { (fed : List ℕ) (passed : List Message) → Stands fed passed self.old → Stands fed passed self.new }
    {
        self.held.reserve(more)?;
        Ok(())
    }

    /// The first message of what is left, or why there is none: exactly as `Envelope::read` answers. It takes no memory.
    pub fn next(&self) -> Next<'_>
        ensures answer { Tells (read self.now.limit self.now.left) result }
        ensures message { LendsMessage self.now.limit result }
        ensures octets { AreOctets self.now.left }
        ensures stream { (fed tail : List ℕ) (passed ms : List Message) (h : Stands fed passed self.now)
            → IsStream self.now.limit h.kept ms tail ↔ IsBehind passed self.now ms tail }
        ensures dropped { (fed tail : List ℕ) (passed ms : List Message) (h : Stands fed passed self.now)
            → IsStream self.now.limit h.kept ms tail ↔ IsStream self.now.limit fed ms (tail ++ h.dropped) }
        ensures announced { (fed tail : List ℕ) (passed ms : List Message) → Stands fed passed self.now
            → IsStream self.now.limit fed ms tail → GoesOn self.now.limit passed ms tail result }
    {
        self.first_message()
    }

    /// Drops the first message. It takes no memory and moves no octet.
    pub fn pass(&mut self)
        requires { HasMessage self.old }
        ensures left { (m : Message) (behind : List ℕ) → IsFirst self.old m behind → self.new.left ≡ behind }
        ensures shorter { length self.new.left < length self.old.left }
        ensures spare { self.new.spare ≡ self.old.spare }
        ensures limit { self.new.limit ≡ self.old.limit }
        ensures history { (m : Message) (behind fed : List ℕ) (passed : List Message) → IsFirst self.old m behind
            → Stands fed passed self.old → Stands fed (passed ++ m ∷ []) self.new }
    {
        if let Read::Whole { end, .. } = self.first {
            self.held.advance(end);
            self.first = Envelope::read(self.held.as_slice(), self.limit);
        }
    }

    fn first_message(&self) -> Next<'_>
        ensures answer { Tells (read self.now.limit self.now.left) result }
        ensures octets { AreOctets self.now.left }
    {
        match self.first {
            Read::Whole { id, rest_at, end } => Next::Message {
                id,
                rest: &self.held.as_slice()[rest_at..end],
            },
            Read::Short { .. } => Next::NotYet,
            Read::Bad { .. } => Next::Bad,
            Read::TooBig { .. } => Next::TooBig,
        }
    }
}

/// Whether no message comes any more.
fn has_ended(first: Read) -> bool
    ensures { IsTrue result ↔ IsEnd first }
{
    matches!(first, Read::Bad { .. } | Read::TooBig { .. })
}

/// What is read of the bytes, where `first` was read of their beginning: only what was short of octets is read anew.
fn read_on(first: Read, bytes: &[u8], limit: u32) -> Read
    requires { WasRead limit bytes.now first }
    ensures { IsRead limit bytes.now result }
{
    match first {
        Read::Short { .. } => Envelope::read(bytes, limit),
        known => known,
    }
}
