use crate::slots::{Session, Slot, TO_READ, TO_WRITE, Waits, bits_of, seen_of};
use lload_links::{Link, LinkRead, LinkWrite, Poller, Ready, Watch, Woke};
use net_links::{TcpLink, TcpPoller, TcpWatch};
use std::alloc::{AllocError, Global};
use std::collections::VecDeque;
use std::mem;
use std::sync::atomic::AtomicBool;
use std::sync::{Mutex, Wait};

/// How many links one wait tells of at most.
pub(crate) const MOST: usize = 256;

// The most bytes that one read takes.
const PIECE: usize = 65_536;

// How many empty buffers a worker keeps, and how much room they may have.
const SPARES: usize = 64;

const SPARE_ROOM: usize = 65_536;

/// A link whose session ended, with its slot's number.
#[derive(Drop)]
pub(crate) struct Over {
    pub(crate) number: u32,
    pub(crate) link: TcpLink,
}

/// What all threads share.
#[derive(Drop)]
pub(crate) struct House {
    pub(crate) slots: boxcar::Vec<Slot>,
    pub(crate) over: Mutex<Vec<Over>>,
    /// Ends the wait of the thread that accepts.
    pub(crate) bell: TcpWatch,
    /// Whether a thread can't go on, so that all end.
    pub(crate) has_failed: AtomicBool,
}

/// What a worker has for itself: sessions to read and to write, room for a read, and empty buffers.
#[derive(Drop)]
pub(crate) struct Desk {
    to_read: VecDeque<u32>,
    to_write: VecDeque<u32>,
    scratch: Vec<u8>,
    spares: Vec<Vec<u8>>,
}

/// What a turn of a session came to.
#[derive(Clone, Copy, PartialEq, Eq, Drop)]
enum Ran {
    On,
    /// There is more to read.
    More,
    Over,
}

impl Desk {
    pub(crate) fn new(alloc: Global) -> Result<Desk, AllocError> {
        Ok(Desk {
            to_read: VecDeque::new(alloc),
            to_write: VecDeque::new(alloc),
            scratch: Vec::from_elem(alloc, 0u8, PIECE)?,
            spares: Vec::new(alloc),
        })
    }

    /// Notes a session, and puts it in a list where it isn't there. It answers false for want of memory.
    fn note(&mut self, slot: &Slot, number: u32, bits: u64, list: u64) -> bool {
        if !slot.note(bits, list) {
            return true;
        }
        self.put(number, list)
    }

    fn put(&mut self, number: u32, list: u64) -> bool {
        if list == TO_READ {
            self.to_read.push_back(number).is_ok()
        } else {
            self.to_write.push_back(number).is_ok()
        }
    }

    /// Keeps an empty buffer for later.
    fn keep(&mut self, mut buffer: Vec<u8>) {
        if self.spares.len() < SPARES && buffer.capacity() <= SPARE_ROOM {
            buffer.clear();
            let _ = self.spares.push(buffer);
        }
    }
}

/// The number of the other session of a pair.
fn partner_of(number: u32) -> u32 {
    number ^ 1
}

/// One read, given to the partner.
fn read_turn<R: Wait>(
    rt: &R,
    desk: &mut Desk,
    partner: &Slot,
    number: u32,
    session: &mut Session,
) -> Ran {
    if session.link.ready() != Ready::Yes || !partner.has_room(rt) {
        return Ran::On;
    }
    if desk.scratch.is_empty() {
        return Ran::Over;
    }
    match session.link.read(desk.scratch.as_mut_slice()) {
        LinkRead::Got(n) => {
            let Some(piece) = desk.scratch.get(..n) else {
                return Ran::Over;
            };
            if !partner.give(rt, &mut desk.spares, piece) {
                return Ran::Over;
            }
        }
        LinkRead::NotYet => return Ran::On,
        LinkRead::End | LinkRead::Failed => return Ran::Over,
    }
    if !desk.note(partner, partner_of(number), 0, TO_WRITE) {
        return Ran::Over;
    }
    if session.link.ready() == Ready::Yes {
        Ran::More
    } else {
        Ran::On
    }
}

/// Writes what waits, as far as the link takes it.
fn write_turn<R: Wait>(
    rt: &R,
    alloc: Global,
    desk: &mut Desk,
    own: &Slot,
    partner: &Slot,
    number: u32,
    session: &mut Session,
) -> Ran {
    for _ in 0..2u8 {
        if session.sending.is_empty() {
            let (waits, held) = own.take(rt, alloc, session);
            if held && !desk.note(partner, partner_of(number), 0, TO_READ) {
                return Ran::Over;
            }
            match waits {
                Waits::Nothing => return Ran::On,
                Waits::Last => return Ran::Over,
                Waits::Bytes => {}
            }
        }
        let Some(piece) = session.sending.get(session.sent..) else {
            return Ran::Over;
        };
        match session.link.write(piece) {
            LinkWrite::Put(n) => session.sent = session.sent.saturating_add(n),
            LinkWrite::NotYet => return Ran::On,
            LinkWrite::Failed => return Ran::Over,
        }
        if session.sent < session.sending.len() {
            return Ran::On;
        }
        let done = mem::replace(&mut session.sending, Vec::new(alloc));
        desk.keep(done);
    }
    Ran::On
}

/// Ends a session: its link goes to the thread that accepts, and its partner ends once it has sent what waits for it.
fn close<R: Wait>(
    rt: &R,
    alloc: Global,
    house: &House,
    desk: &mut Desk,
    number: u32,
    session: Session,
) {
    if let Some(own) = house.slots.get(number as usize) {
        own.shut(rt, alloc);
    }
    if let Some(partner) = house.slots.get(partner_of(number) as usize) {
        partner.end(rt);
        let _ = desk.note(partner, partner_of(number), 0, TO_WRITE);
    }
    let _ = house.over.lock(rt).push(Over {
        number,
        link: session.link,
    });
    house.bell.ring();
}

/// Runs one session by one of the lists.
fn run_one<R: Wait>(rt: &R, alloc: Global, house: &House, desk: &mut Desk, number: u32, list: u64) {
    let (Some(own), Some(partner)) = (
        house.slots.get(number as usize),
        house.slots.get(partner_of(number) as usize),
    ) else {
        return;
    };
    let Some(bits) = own.begin(list) else {
        return;
    };
    let mut ran = Ran::On;
    let mut ended = None;
    {
        let mut held = own.session().lock(rt);
        if let Some(session) = &mut *held {
            let seen = seen_of(bits);
            session.link.told(seen);
            if list == TO_READ {
                ran = read_turn(rt, desk, partner, number, session);
            }
            if ran != Ran::Over && (list == TO_WRITE || seen.writable) {
                let wrote = write_turn(rt, alloc, desk, own, partner, number, session);
                if wrote == Ran::Over {
                    ran = Ran::Over;
                }
            }
        }
        if ran == Ran::Over {
            ended = held.take();
        }
    }
    if let Some(session) = ended {
        close(rt, alloc, house, desk, number, session);
    }
    if ran == Ran::More {
        own.note(0, TO_READ);
    }
    let left = own.finish();
    if left & TO_READ != 0 {
        desk.put(number, TO_READ);
    }
    if left & TO_WRITE != 0 {
        desk.put(number, TO_WRITE);
    }
}

/// Waits for the poller, and runs what it found: sessions to read until there are none, and then sessions to write.
/// With something to do it doesn't wait.
pub(crate) fn run_round<R: Wait>(
    rt: &R,
    alloc: Global,
    house: &House,
    poller: &mut TcpPoller,
    desk: &mut Desk,
    patience: u32,
) -> Woke {
    let idle = desk.to_read.is_empty() && desk.to_write.is_empty();
    let woke = poller.wait(Some(if idle { patience } else { 0 }));
    for _ in 0..MOST {
        let Some(told) = poller.next() else {
            break;
        };
        if let Some(slot) = house.slots.get(told.token as usize) {
            let number = (told.token & 0xffff_ffff) as u32;
            desk.note(slot, number, bits_of(told.seen), TO_READ);
        }
    }
    for _ in rt.forever() {
        let Some(number) = desk.to_read.pop_front() else {
            break;
        };
        run_one(rt, alloc, house, desk, number, TO_READ);
    }
    for _ in rt.forever() {
        let Some(number) = desk.to_write.pop_front() else {
            break;
        };
        run_one(rt, alloc, house, desk, number, TO_WRITE);
    }
    woke
}
