use lload_links::Seen;
use net_links::TcpLink;
use std::alloc::Global;
use std::mem;
use std::sync::atomic::{AtomicU64, Ordering};
use std::sync::{Mutex, Wait};

// What a session has to do, as bits of its slot's word: what its poller saw of it,
const READABLE: u64 = 1;

const WRITABLE: u64 = 2;

const ENDED: u64 = 4;

// in whose lists it stands,
pub(crate) const TO_READ: u64 = 8;

pub(crate) const TO_WRITE: u64 = 16;

// and that someone runs it.
const RUNNING: u64 = 32;

/// From how many bytes on that wait for a link its partner isn't read.
const MOST_WAITING: usize = 262_144;

/// A link, and what is being written to it.
#[derive(Drop)]
pub(crate) struct Session {
    pub(crate) link: TcpLink,
    pub(crate) sending: Vec<u8>,
    pub(crate) sent: usize,
}

/// What waits for a link.
#[derive(Drop)]
pub(crate) struct Outbox {
    bytes: Vec<u8>,
    is_open: bool,
    // Nothing comes behind these bytes.
    is_last: bool,
    // The partner wasn't read, since too much waits.
    holds_partner: bool,
}

/// What a look into an outbox came to.
#[derive(Clone, Copy, PartialEq, Eq, Drop)]
pub(crate) enum Waits {
    Nothing,
    Bytes,
    /// Nothing, and nothing more comes.
    Last,
}

/// Where a session stands between its turns. It and its partner have neighbouring slots.
#[derive(Drop)]
pub(crate) struct Slot {
    word: AtomicU64,
    session: Mutex<Option<Session>>,
    outbox: Mutex<Outbox>,
}

/// The bits of what a poller saw.
pub(crate) fn bits_of(seen: Seen) -> u64 {
    let mut bits = 0;
    if seen.readable {
        bits |= READABLE;
    }
    if seen.writable {
        bits |= WRITABLE;
    }
    if seen.ended {
        bits |= ENDED;
    }
    bits
}

/// What a poller saw, by its bits.
pub(crate) fn seen_of(bits: u64) -> Seen {
    Seen {
        readable: bits & READABLE != 0,
        writable: bits & WRITABLE != 0,
        ended: bits & ENDED != 0,
    }
}

impl Slot {
    /// A slot with nothing in it.
    pub(crate) fn new(alloc: Global) -> Slot {
        Slot {
            word: AtomicU64::new(0),
            session: Mutex::new(None),
            outbox: Mutex::new(Outbox {
                bytes: Vec::new(alloc),
                is_open: false,
                is_last: false,
                holds_partner: false,
            }),
        }
    }

    /// The session that stands here.
    pub(crate) fn session(&self) -> &Mutex<Option<Session>> {
        &self.session
    }

    /// Notes what the session has to do, with the bit of the list for it. It answers true where the caller is to put
    /// the slot in that list.
    pub(crate) fn note(&self, bits: u64, list: u64) -> bool {
        let mut before = self.word.load(Ordering::SeqCst);
        for _ in 0..u64::MAX {
            match self.word.compare_exchange(
                before,
                before | bits | list,
                Ordering::SeqCst,
                Ordering::SeqCst,
            ) {
                Ok(_) => return before & (list | RUNNING) == 0,
                Err(now) => before = now,
            }
        }
        false
    }

    /// Takes what the session has to do by a list, and says that someone runs it. `None` where there is nothing to do,
    /// or where someone else runs it, who then goes on with it.
    pub(crate) fn begin(&self, list: u64) -> Option<u64> {
        let mut before = self.word.load(Ordering::SeqCst);
        for _ in 0..u64::MAX {
            if before & RUNNING != 0 || before & list == 0 {
                return None;
            }
            let after = before & (TO_READ | TO_WRITE) & !list | RUNNING;
            match self
                .word
                .compare_exchange(before, after, Ordering::SeqCst, Ordering::SeqCst)
            {
                Ok(_) => return Some(before),
                Err(now) => before = now,
            }
        }
        None
    }

    /// Ends a run. It answers what there is to do by now.
    pub(crate) fn finish(&self) -> u64 {
        self.word.fetch_sub(RUNNING, Ordering::SeqCst)
    }

    /// Puts a session here.
    pub(crate) fn open<R: Wait>(&self, rt: &R, alloc: Global, link: TcpLink) {
        {
            let mut outbox = self.outbox.lock(rt);
            let outbox = &mut *outbox;
            outbox.is_open = true;
            outbox.is_last = false;
            outbox.holds_partner = false;
        }
        let mut held = self.session.lock(rt);
        *held = Some(Session {
            link,
            sending: Vec::new(alloc),
            sent: 0,
        });
    }

    /// Drops what waits here. Nothing is taken any more.
    pub(crate) fn shut<R: Wait>(&self, rt: &R, alloc: Global) {
        let mut outbox = self.outbox.lock(rt);
        let outbox = &mut *outbox;
        outbox.is_open = false;
        outbox.bytes = Vec::new(alloc);
    }

    /// Says that nothing comes behind what waits here.
    pub(crate) fn end<R: Wait>(&self, rt: &R) {
        let mut outbox = self.outbox.lock(rt);
        outbox.is_last = true;
    }

    /// Whether there is room for more bytes. Where there is none, the partner is told once there is.
    pub(crate) fn has_room<R: Wait>(&self, rt: &R) -> bool {
        let mut outbox = self.outbox.lock(rt);
        let outbox = &mut *outbox;
        outbox.holds_partner = outbox.bytes.len() >= MOST_WAITING;
        !outbox.holds_partner
    }

    /// Gives bytes to be written, in a spare buffer where none waited. It answers false for want of memory; where
    /// nothing is taken any more the bytes are dropped.
    pub(crate) fn give<R: Wait>(&self, rt: &R, spares: &mut Vec<Vec<u8>>, piece: &[u8]) -> bool {
        let mut outbox = self.outbox.lock(rt);
        let outbox = &mut *outbox;
        if !outbox.is_open {
            return true;
        }
        if outbox.bytes.capacity() == 0 {
            if let Some(spare) = spares.pop() {
                outbox.bytes = spare;
            }
        }
        outbox.bytes.extend_from_slice(piece).is_ok()
    }

    /// Moves what waits here to the session, which has nothing to send. It answers too whether the partner was held.
    pub(crate) fn take<R: Wait>(
        &self,
        rt: &R,
        alloc: Global,
        session: &mut Session,
    ) -> (Waits, bool) {
        let mut outbox = self.outbox.lock(rt);
        let outbox = &mut *outbox;
        if outbox.bytes.is_empty() {
            let waits = if outbox.is_last {
                Waits::Last
            } else {
                Waits::Nothing
            };
            return (waits, false);
        }
        session.sending = mem::replace(&mut outbox.bytes, Vec::new(alloc));
        session.sent = 0;
        let held = outbox.holds_partner;
        outbox.holds_partner = false;
        (Waits::Bytes, held)
    }
}
